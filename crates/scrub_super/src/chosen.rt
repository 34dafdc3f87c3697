//! The superblock that counts, if there is one. `plan` derives the scan from it.

ghost use Rattle.std.specs.Prelude.{◌≡◌, IfSome, false};
ghost use Rattle.std.specs.Option.{option_copied};

use crate::superblock::Superblock;
use scrub_disk::Geometry;
use std::marker::Model;

/// The superblock record that counts on a disk, and what puts it in doubt: a tie, or unreadable pages.
#[derive(Drop)]
pub struct Chosen {
    geometry: Geometry,
    superblock: Option<Superblock>,
    page: Option<u32>,
    records: u32,
    tie: bool,
    bad_pages: Vec<u32>,
}

impl Model for Chosen {
    ghost use Rattle.std.specs.Prelude.{IfSome};
    ghost use Rattle.scrub_super.specs.Chosen.{Choice};
    ghost use Rattle.scrub_super.specs.Record.{AreContents};

    ghost Value = { Choice };

    ghost view = { λ c. record {
      geometry = c.geometry;
      superblock = c.superblock;
      page = c.page;
      records = c.records;
      tie = c.tie;
      bad_pages = c.bad_pages.items;
    } };

    ghost invariant = { λ c. IfSome c.superblock (AreContents c.geometry) };
}

impl Chosen {
    ghost use Rattle.scrub_super.specs.Record.{AreContents};

    /// The choice if there is no record.
    pub(crate) fn without(geometry: Geometry, bad_pages: Vec<u32>) -> Chosen
        ensures { result ≡ record {
          geometry = geometry;
          superblock = None;
          page = None;
          records = 0;
          tie = false;
          bad_pages = bad_pages.items;
        } }
    {
        Chosen {
            geometry,
            superblock: None,
            page: None,
            records: 0,
            tie: false,
            bad_pages,
        }
    }

    /// The choice if there are records.
    pub(crate) fn by(
        geometry: Geometry,
        superblock: Superblock,
        page: u32,
        records: u32,
        tie: bool,
        bad_pages: Vec<u32>,
    ) -> Chosen
        requires { AreContents geometry superblock }
        ensures { result ≡ record {
          geometry = geometry;
          superblock = Some superblock;
          page = Some page;
          records = records;
          tie = tie;
          bad_pages = bad_pages.items;
        } }
    {
        Chosen {
            geometry,
            superblock: Some(superblock),
            page: Some(page),
            records,
            tie,
            bad_pages,
        }
    }

    /// The superblock that counts, if there is one.
    pub fn superblock(&self) -> Option<&Superblock>
        ensures value { option_copied result ≡ self.now.superblock }
        ensures fits { IfSome self.now.superblock (AreContents self.now.geometry) }
    {
        self.superblock.as_ref()
    }

    /// The page of extent 0 on which it begins, counted from 0.
    pub fn page(&self) -> Option<u32>
        ensures { result ≡ self.now.page }
    {
        self.page
    }

    /// The number of pages of extent 0 with a valid record.
    pub fn records(&self) -> u32
        ensures { result ≡ self.now.records }
    {
        self.records
    }

    /// Whether two or more pages have a record of the greatest generation.
    pub fn tie(&self) -> bool
        ensures { result ≡ self.now.tie }
    {
        self.tie
    }

    /// The unreadable pages of extent 0, ascending.
    pub fn bad_pages(&self) -> &[u32]
        ensures { result.now ≡ self.now.bad_pages }
    {
        self.bad_pages.as_slice()
    }
}
