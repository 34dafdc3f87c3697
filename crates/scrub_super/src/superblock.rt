//! The contents of a superblock. `record` reads and writes its bytes.

ghost use Rattle.std.specs.Prelude.{◌≡◌, None, Some, option_map};

use scrub_frame::Locator;
use std::marker::Model;

/// A disk's generation, write pointers, retired extents and index runs, as they were last flushed.
#[derive(Drop)]
pub struct Superblock {
    generation: u64,
    pointers: Vec<u32>,
    retired: Option<Vec<u32>>,
    runs: Vec<Locator>,
}

impl Model for Superblock {
    ghost use Rattle.std.specs.Prelude.{option_map};
    ghost use Rattle.scrub_super.specs.Contents.{Contents};

    ghost Value = { Contents };

    ghost view = { λ s. record {
      generation = s.generation;
      pointers = s.pointers.items;
      retired = option_map (λ v. v.items) s.retired;
      runs = s.runs.items;
    } };
}

impl Superblock {
    ghost use Rattle.scrub_super.specs.Contents.{retired_in, version_of};

    /// A superblock with no list of retired extents. Takes no memory.
    pub fn new(generation: u64, pointers: Vec<u32>, runs: Vec<Locator>) -> Superblock
        ensures { result ≡ record {
          generation = generation;
          pointers = pointers.items;
          retired = None;
          runs = runs.items;
        } }
    {
        Superblock {
            generation,
            pointers,
            retired: None,
            runs,
        }
    }

    /// A superblock with a list of retired extents, which may be empty. Takes no memory.
    pub fn with_retired(
        generation: u64,
        pointers: Vec<u32>,
        retired: Vec<u32>,
        runs: Vec<Locator>,
    ) -> Superblock
        ensures { result ≡ record {
          generation = generation;
          pointers = pointers.items;
          retired = Some retired.items;
          runs = runs.items;
        } }
    {
        Superblock {
            generation,
            pointers,
            retired: Some(retired),
            runs,
        }
    }

    /// A superblock with or without a list of retired extents. Takes no memory.
    pub(crate) fn of(
        generation: u64,
        pointers: Vec<u32>,
        retired: Option<Vec<u32>>,
        runs: Vec<Locator>,
    ) -> Superblock
        ensures { result ≡ record {
          generation = generation;
          pointers = pointers.items;
          retired = option_map (λ v. v.items) retired;
          runs = runs.items;
        } }
    {
        Superblock {
            generation,
            pointers,
            retired,
            runs,
        }
    }

    /// The generation: a greater one is newer.
    pub fn generation(&self) -> u64
        ensures { result ≡ self.now.generation }
    {
        self.generation
    }

    /// The kind of its record: 1 without a list of retired extents, 2 with one.
    pub fn version(&self) -> u32
        ensures { result ≡ version_of self.now }
    {
        match &self.retired {
            None => 1,
            Some(_) => 2,
        }
    }

    /// The write pointers of extents 1, 2 and so on, in bytes from the extent's start.
    pub fn pointers(&self) -> &[u32]
        ensures { result.now ≡ self.now.pointers }
    {
        self.pointers.as_slice()
    }

    /// The list of retired extents, if there is one.
    pub(crate) fn retired_list(&self) -> Option<&[u32]>
        ensures { option_map (λ list. list.now) result ≡ self.now.retired }
    {
        match &self.retired {
            None => None,
            Some(list) => Some(list.as_slice()),
        }
    }

    /// The retired extents. Empty if there is no list of them.
    pub fn retired(&self) -> &[u32]
        ensures { result.now ≡ retired_in self.now }
    {
        match self.retired_list() {
            None => &[],
            Some(list) => list,
        }
    }

    /// The locators of the index runs, newest first.
    pub fn runs(&self) -> &[Locator]
        ensures { result.now ≡ self.now.runs }
    {
        self.runs.as_slice()
    }
}
