//! Reads extent 0 and chooses the superblock that counts.

ghost use Rattle.std.specs.Prelude.{◌≡◌, ◌↔◌, ◌+◌, ◌<◌, ◌≤◌, ◌^◌, ℕ, List, Option, None, Some, IfOk, IsTrue};
ghost use Rattle.std.specs.Prelude.{option_map};
ghost use Rattle.scrub_disk.specs.Image.{Image};
ghost use Rattle.scrub_super.specs.Contents.{Contents};
ghost use Rattle.scrub_super.specs.Chosen.{Choice, IsChoice, RecordStandsAt};
ghost use Rattle.scrub_super.specs.Pages.{IsRank};
ghost use Rattle.scrub_super.specs.Plan.{PlanValue, plan_of};
ghost use Rattle.scrub_super.specs.declared.pages.Rank.{Rank};
ghost use Rattle.scrub_super.specs.steps.ByConditions.{IsChoiceByConditions, IsRankByConditions};
ghost use Rattle.scrub_super.specs.steps.BytesFrom.{IsSearchedFrom};

use crate::bytes_from::BytesFrom;
use crate::chosen::Chosen;
use crate::pages::PageRecord;
use crate::record::read_record;
use crate::superblock::Superblock;
use scrub_disk::{Geometry, OutOfMemory, PageSource, unreadable_pages};
use std::alloc::Global;

/// The newest record so far.
#[derive(Clone, Copy)]
pub(crate) struct Newest {
    pub page: u32,
    pub generation: u64,
    /// Whether another page has a record of the same generation.
    pub tie: bool,
}

/// The records so far: the newest one, and how many pages have one.
#[derive(Clone, Copy)]
pub(crate) struct RecordsSeen {
    pub newest: Option<Newest>,
    pub records: u32,
}

ghost use Rattle.scrub_super.specs.steps.PagesFound.{image_with};
ghost use Rattle.scrub_super.specs.steps.RecordsSeen.{AddsRecord};

/// Adds one more record, on a lower page than those before.
fn with_record(seen: RecordsSeen, page: u32, generation: u64) -> RecordsSeen
    requires { seen.records + 1 < 2 ^ 32 }
    ensures { AddsRecord seen result page generation }
{
    let newest = match seen.newest {
        Some(newest) if generation < newest.generation => newest,
        Some(newest) => Newest {
            page,
            generation,
            tie: generation == newest.generation,
        },
        None => Newest {
            page,
            generation,
            tie: false,
        },
    };
    RecordsSeen {
        newest: Some(newest),
        records: seen.records + 1,
    }
}

/// Whether the newest record is the one on this page.
fn is_newest(seen: RecordsSeen, page: u32) -> bool
    ensures { IsTrue result ↔ (option_map (λ b. b.page) seen.newest ≡ Some page) }
{
    match seen.newest {
        Some(newest) => newest.page == page,
        None => false,
    }
}

/// What was found so far: the records, and the superblock of the newest one.
#[derive(Drop)]
pub(crate) struct Searched {
    pub seen: RecordsSeen,
    superblock: Option<Superblock>,
}

impl Searched {
    ghost use Rattle.scrub_super.specs.steps.BytesFrom.{AreBytesFrom, HasFoundFrom};
    ghost use Rattle.scrub_super.specs.steps.PagesFound.{IsFoundOnPage};

    /// Nothing was found.
    fn new() -> Searched
        ensures newest { result.seen.newest ≡ None }
        ensures records { result.seen.records ≡ 0 }
        ensures superblock { result.superblock ≡ None }
    {
        Searched {
            seen: RecordsSeen {
                newest: None,
                records: 0,
            },
            superblock: None,
        }
    }

    /// Adds the record that the bytes from a page on begin with, if they do, and returns what is kept of it.
    /// The page is lower than those before.
    fn add_page(
        &mut self,
        alloc: Global,
        bytes: &[u8],
        page: u32,
        geometry: Geometry,
    ) -> Result<Option<PageRecord>, OutOfMemory>
        requires { self.old.seen.records + 1 < 2 ^ 32 }
        ensures on_page { (pages : ℕ → ℕ → Option (List ℕ)) →
            AreBytesFrom (image_with geometry pages) page bytes.now →
            IfOk result (IsFoundOnPage (image_with geometry pages) page) }
        ensures found { (pages : ℕ → ℕ → Option (List ℕ)) →
            AreBytesFrom (image_with geometry pages) page bytes.now →
            HasFoundFrom (image_with geometry pages) (page + 1) self.old →
            IfOk result (λ _. HasFoundFrom (image_with geometry pages) page self.new) }
        ensures few { self.new.seen.records ≤ self.old.seen.records + 1 }
    {
        let Some(superblock) = read_record(alloc, bytes, geometry)? else {
            return Ok(None);
        };
        let record = PageRecord::of(geometry, page, &superblock);
        self.seen = with_record(self.seen, page, superblock.generation());
        if !is_newest(self.seen, page) {
            return Ok(Some(record));
        }
        self.superblock = Some(superblock);
        Ok(Some(record))
    }
}

/// The search of extent 0 for records, from its last page to its first.
#[derive(Drop)]
pub(crate) struct Search {
    /// The bytes from the page on that was read last.
    pub held: BytesFrom,
    /// For each page from that one on, whether it is readable.
    readable: Vec<bool>,
    pub found: Searched,
}

impl Search {
    ghost use Rattle.scrub_super.specs.steps.PagesFound.{IsFoundOnPage};

    /// No page was read.
    pub fn new<D: PageSource>(alloc: Global, disk: &D) -> Result<Search, OutOfMemory>
        ensures { IfOk result (IsSearchedFrom (D.image disk.now) (D.image disk.now).geometry.pages) }
    {
        let geometry = disk.geometry();
        let held = BytesFrom::new(alloc, geometry)?;
        let readable = vec![in alloc; false; geometry.pages() as usize]?;
        let found = Searched::new();
        Ok(Search {
            held,
            readable,
            found,
        })
    }

    /// Reads the page before those that were read. Returns what is kept of the record that begins on it, if
    /// there is one.
    pub fn read<D: PageSource>(
        &mut self,
        alloc: Global,
        disk: &D,
        page: u32,
    ) -> Result<Option<PageRecord>, OutOfMemory>
        requires in_pages { page < (D.image disk.now).geometry.pages }
        requires searched { IsSearchedFrom (D.image disk.now) (page + 1) self.old }
        ensures searched { IfOk result (λ _. IsSearchedFrom (D.image disk.now) page self.new) }
        ensures found { IfOk result (IsFoundOnPage (D.image disk.now) page) }
    {
        self.readable[page as usize] = self.held.read(disk, page);
        self.found
            .add_page(alloc, self.held.as_slice(), page, disk.geometry())
    }
}

/// The choice that follows from a search of all pages.
pub(crate) fn choice_of<D: PageSource>(
    alloc: Global,
    disk: &D,
    search: Search,
) -> Result<Chosen, OutOfMemory>
    requires { IsSearchedFrom (D.image disk.now) 0 search }
    ensures { IfOk result (IsChoice (D.image disk.now)) }
{
    let geometry = disk.geometry();
    let bad_pages = unreadable_pages(alloc, &search.readable)?;
    let found = search.found;
    match (found.seen.newest, found.superblock) {
        (Some(newest), Some(superblock)) => {
            Ok(Chosen::by(
                geometry,
                superblock,
                newest.page,
                found.seen.records,
                newest.tie,
                bad_pages,
            ))
        }
        _ => Ok(Chosen::without(geometry, bad_pages)),
    }
}

/// The superblock that counts on a disk: the valid record in extent 0 with the greatest generation, and in a
/// tie the one on the lowest page. Each page of extent 0 is read once, from the last to the first. Memory: a
/// page and the bytes of a longest record (2 kB, and 8 bytes for each extent), a mark for each page, the list
/// of unreadable pages, and two superblocks.
pub fn choose<D: PageSource>(alloc: Global, disk: &D) -> Result<Chosen, OutOfMemory>
    ensures { IfOk result (IsChoice (D.image disk.now)) }
{
    let mut search = Search::new(alloc, disk)?;
    for page in (0..disk.geometry().pages()).rev() {
        search.read(alloc, disk, page)?;
    }
    choice_of(alloc, disk, search)
}

/// A law: at most one record begins on a page of extent 0, and an image has at most one choice.
pub fn one_choice()
    ensures on_a_page { (image : Image) (page : ℕ) (c d : Contents) →
        RecordStandsAt image page c → RecordStandsAt image page d → c ≡ d }
    ensures choice { (image : Image) (a b : Choice) → IsChoice image a → IsChoice image b → a ≡ b }
{}

/// A law: the superblock that counts is the valid record of the greatest generation, and of those the one on
/// the lowest page; there is a tie if two pages have a valid record of that generation; and by the same a
/// record has its rank. The definitions `IsChoice` and `IsRank` say it by the list of the valid records, and
/// the conditions here without it.
pub fn choice_by_conditions()
    ensures choice { (image : Image) (choice : Choice) →
        IsChoice image choice ↔ IsChoiceByConditions image choice }
    ensures rank { (image : Image) (choice : Choice) → IsChoice image choice →
        (generation : ℕ) (rank : Rank) →
        IsRank image generation rank ↔ IsRankByConditions image generation rank }
{}

/// A law: each image has a choice, and each choice a plan. So an image has exactly one of each.
pub fn each_image_has_a_choice()
    ensures choice { (image : Image) → (choice : Choice) × IsChoice image choice }
    ensures plan { (choice : Choice) → (plan : PlanValue) × (plan ≡ plan_of choice) }
{}
