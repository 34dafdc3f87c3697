//! What the named locators ask for whose payloads are gone, to be searched.

ghost use Rattle.std.specs.Prelude.{◌≡◌, ◌==◌, IfOk, map};
ghost use Rattle.std.specs.List.{filter, list_any};
ghost use Rattle.scrub_check.specs.Spares.{content_named, is_wanted};
ghost use Rattle.scrub_loose.specs.Copies.{is_gone_by};
ghost use Rattle.scrub_loose.specs.steps.Asked.{AreAsked, IsAsked};

use scrub_check::{Checked, Content, Spares};
use scrub_disk::OutOfMemory;
use scrub_scan::Standing;
use std::alloc::Global;

/// What is asked for.
#[derive(Drop)]
pub(crate) struct Asked {
    /// The contents, in their order.
    pub contents: Vec<Content>,
    /// Their lengths in bytes, ascending.
    pub lengths: Vec<u32>,
}

/// Whether the payload of a named locator is gone: the locator dangles, asks for bytes and has no spare.
fn is_gone(spares: &Spares, one: &Checked) -> bool
    ensures { result ≡ is_gone_by spares.now one.now }
{
    one.status.is_dangling() && one.locator.length > 0 && spares.of_one(one).is_empty()
}

/// What those of these locators ask for whose payloads are gone, in their order.
fn contents_gone(
    alloc: Global,
    spares: &Spares,
    checked: &[Checked],
) -> Result<Vec<Content>, OutOfMemory>
    ensures { IfOk result (λ v. v.items ≡ map content_named (filter (is_gone_by spares.now) checked.now)) }
{
    checked
        .iter()
        .filter(|one| is_gone(spares, one))
        .map(|one| Content {
            digest: one.locator.digest,
            length: one.locator.length,
        })
        .collect(alloc)
}

/// The lengths of contents, in their order.
fn lengths_of(alloc: Global, contents: &[Content]) -> Result<Vec<u32>, OutOfMemory>
    ensures { IfOk result (λ v. v.items ≡ map (λ c. c.length) contents.now) }
{
    contents.iter().map(|one| one.length).collect(alloc)
}

impl Asked {
    /// What those of these locators ask for whose payloads are gone.
    pub(crate) fn by(
        alloc: Global,
        spares: &Spares,
        checked: &[Checked],
    ) -> Result<Asked, OutOfMemory>
        ensures asked { IfOk result IsAsked }
        ensures same { IfOk result (λ a. AreAsked spares.now checked.now a.contents.items) }
    {
        let mut contents = contents_gone(alloc, spares, checked)?;
        contents.sort()?;
        let mut lengths = lengths_of(alloc, &contents)?;
        lengths.sort()?;
        Ok(Asked { contents, lengths })
    }

    /// Whether a payload of this length is asked for, in bytes.
    pub(crate) fn has_length(&self, length: u32) -> bool
        requires { IsAsked self.now }
        ensures { result ≡ list_any (λ m. m == length) self.now.lengths.items }
    {
        self.lengths.binary_search(&length).is_ok()
    }

    /// Whether the payload of a frame is asked for.
    pub(crate) fn has_payload(&self, frame: &Standing) -> bool
        requires { IsAsked self.now }
        ensures { result ≡ is_wanted self.now.contents.items frame.now }
    {
        let content = Content {
            digest: frame.digest,
            length: frame.length,
        };
        self.contents.binary_search(&content).is_ok()
    }
}
