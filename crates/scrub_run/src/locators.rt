//! The locators that an entry holds. Most shards have one chunk, so one locator takes no memory of its own.

ghost use Rattle.std.specs.Prelude.{◌≡◌, ◌*◌, All, IfOk, length};
ghost use Rattle.std.specs.List.{flat_map};
ghost use Rattle.scrub_frame.specs.Locator.{locator_bytes, IsLocator};
ghost use Rattle.scrub_run.specs.Locators.{listed};

use scrub_frame::{LOCATOR_BYTES, Locator, OutOfMemory, read_locator, read_locators};
use std::alloc::Global;
use std::slice;

/// A list of locators.
#[derive(Debug, Drop)]
pub enum Locators {
    /// Just this one.
    One(Locator),
    /// Any number of them.
    Many(Vec<Locator>),
}

impl Locators {
    /// Reads `count` locators that fill these bytes, 60 bytes each.
    pub(crate) fn read(alloc: Global, bytes: &[u8], count: usize) -> Result<Locators, OutOfMemory>
        requires { length bytes.now ≡ 60 * count }
        ensures count { IfOk result (λ ls. length (listed ls) ≡ count) }
        ensures fit { IfOk result (λ ls. All IsLocator (listed ls)) }
        ensures spelled { IfOk result (λ ls. flat_map locator_bytes (listed ls) ≡ bytes.now) }
    {
        if count == 1 {
            let mut part = [0u8; LOCATOR_BYTES];
            part.copy_from_slice(bytes);
            return Ok(Locators::One(read_locator(&part)));
        }
        Ok(Locators::Many(read_locators(alloc, bytes, count)?))
    }

    /// All locators, in order.
    pub(crate) fn as_slice(&self) -> &[Locator]
        ensures { result.now ≡ listed self.now }
    {
        match self {
            Locators::One(locator) => slice::from_ref(locator),
            Locators::Many(locators) => locators.as_slice(),
        }
    }

    /// A copy.
    pub(crate) fn copy(&self, alloc: Global) -> Result<Locators, OutOfMemory>
        ensures { IfOk result (λ ls. listed ls ≡ listed self.now) }
    {
        match self {
            Locators::One(locator) => Ok(Locators::One(*locator)),
            Locators::Many(locators) => Ok(Locators::Many(Vec::from_slice(alloc, locators)?)),
        }
    }
}
