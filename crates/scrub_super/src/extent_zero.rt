//! Judges each page of extent 0, by what is seen of it and by how far records reach. `choosing` finds the
//! records, and picks the one that counts.

ghost use Rattle.std.specs.Prelude.{◌≡◌, ◌+◌, ◌*◌, ◌<◌, ◌⊎◌, ℕ, List, IfOk, IsTrue, Some, slice_get};
ghost use Rattle.scrub_disk.specs.Image.{Image};
ghost use Rattle.scrub_super.specs.Contents.{Contents};
ghost use Rattle.scrub_super.specs.Chosen.{IsChoice, RecordStandsAt};
ghost use Rattle.scrub_super.specs.Pages.{AreSuperblockPages, IsHeldByte, IsRank, IsSuperblockPage, is_odd};
ghost use Rattle.scrub_super.specs.steps.BytesFrom.{IsSearchedFrom};
ghost use Rattle.scrub_super.specs.steps.PagesFound.{AreSeenPages, IsFoundOnPage, IsKnownOfPage};
ghost use Rattle.scrub_super.specs.steps.PagesFound.{IsRecordReach, IsSeenPage};
ghost use Rattle.scrub_super.specs.steps.RecordsSeen.{AreSeenFrom, StandsFrom};
ghost use Rattle.scrub_super.specs.declared.pages.SuperblockPage.{SuperblockPage};

use crate::choosing::{RecordsSeen, Search, choice_of};
use crate::chosen::Chosen;
use crate::kind::RecordKind;
use crate::pages::{PageRecord, Rank, SeenPage, SuperblockPage, page_without_record, used_len};
use scrub_disk::{OutOfMemory, PageSource};
use std::alloc::Global;

/// Reads the page before those that were read, and sees what is on it.
fn see_page<D: PageSource>(
    alloc: Global,
    disk: &D,
    search: &mut Search,
    page: u32,
) -> Result<SeenPage, OutOfMemory>
    requires in_pages { page < (D.image disk.now).geometry.pages }
    requires searched { IsSearchedFrom (D.image disk.now) (page + 1) search.old }
    ensures searched { IfOk result (λ _. IsSearchedFrom (D.image disk.now) page search.new) }
    ensures seen { IfOk result (IsSeenPage (D.image disk.now) page) }
{
    let found = search.read(alloc, disk, page)?;
    let bytes = search.held.page(disk.geometry());
    Ok(SeenPage {
        found,
        is_readable: !bytes.is_empty(),
        letters: RecordKind::at(bytes),
        used: used_len(bytes),
    })
}

/// The rank of a record of this generation among the others.
fn rank_of(seen: RecordsSeen, generation: u64) -> Rank
    ensures { (image : Image) (q : ℕ) (c : Contents) → AreSeenFrom (StandsFrom image) 0 seen →
        RecordStandsAt image q c → generation ≡ c.generation → IsRank image generation result }
{
    match seen.newest {
        Some(newest) if generation < newest.generation => Rank::Older,
        Some(newest) if newest.tie => Rank::Tie,
        _ => Rank::Counts,
    }
}

/// What a page holds.
fn page_of(page: SeenPage, is_held: bool, is_stray: bool, seen: RecordsSeen) -> SuperblockPage
    ensures { (image : Image) (q : ℕ) → IsKnownOfPage image q page is_held is_stray →
        AreSeenFrom (StandsFrom image) 0 seen → IsSuperblockPage image q result }
{
    match page.found {
        Some(record) => SuperblockPage::Record {
            kind: record.kind,
            generation: record.generation,
            to: record.to,
            rank: rank_of(seen, record.generation),
            is_stray,
        },
        None => page_without_record(&page, is_held, is_stray),
    }
}

/// How far records reach, with the record of one more page, if it has one.
fn reach_with(reach: usize, found: Option<PageRecord>) -> usize
    ensures { (image : Image) (q : ℕ) → IsRecordReach image q reach → IsFoundOnPage image q found →
        IsRecordReach image (q + 1) result }
{
    match found {
        Some(record) => reach.max(record.to),
        None => reach,
    }
}

/// What each page of extent 0 holds, from what was seen of them.
fn pages_of<D: PageSource>(
    alloc: Global,
    disk: &D,
    seen_pages: &[SeenPage],
    seen: RecordsSeen,
) -> Result<Vec<SuperblockPage>, OutOfMemory>
    requires pages { AreSeenPages (D.image disk.now) seen_pages.now }
    requires records { AreSeenFrom (StandsFrom (D.image disk.now)) 0 seen }
    ensures { IfOk result (λ pages. AreSuperblockPages (D.image disk.now) pages.items) }
{
    let size = disk.geometry().page() as usize;
    let mut pages = Vec::with_capacity(alloc, seen_pages.len())?;
    // How far the records up to this page reach.
    let mut reach = 0;
    for page in 0..seen_pages.len() {
        let start = page * size;
        let seen_page = seen_pages[page];
        reach = reach_with(reach, seen_page.found);
        let is_held = start < reach;
        let is_stray = reach.saturating_sub(start) < seen_page.used;
        pages.push(page_of(seen_page, is_held, is_stray, seen))?;
    }
    Ok(pages)
}

/// The superblock that counts on a disk, as `choose` finds it, and what each page of extent 0 holds, from
/// page 0 on. Each page of extent 0 is read once, from the last to the first. Memory: that of `choose`, what
/// is seen of each page, and the answer.
pub fn choose_with_pages<D: PageSource>(
    alloc: Global,
    disk: &D,
) -> Result<(Chosen, Vec<SuperblockPage>), OutOfMemory>
    ensures choice { IfOk result (λ r. IsChoice (D.image disk.now) r.0) }
    ensures pages { IfOk result (λ r. AreSuperblockPages (D.image disk.now) r.1.items) }
{
    let mut search = Search::new(alloc, disk)?;
    let unseen = SeenPage {
        found: None,
        is_readable: false,
        letters: None,
        used: 0,
    };
    let pages = disk.geometry().pages();
    let mut seen_pages = vec![in alloc; unseen; pages as usize]?;
    for page in (0..pages).rev() {
        let seen_page = see_page(alloc, disk, &mut search, page)?;
        seen_pages[page as usize] = seen_page;
    }
    let pages = pages_of(alloc, disk, &seen_pages, search.found.seen)?;
    let chosen = choice_of(alloc, disk, search)?;
    Ok((chosen, pages))
}

/// A law: no byte is overlooked. A byte of a readable page of extent 0 is zero, or a valid record holds it,
/// or its page is damaged or stray.
pub fn no_byte_is_overlooked()
    ensures { (image : Image) (pages : List SuperblockPage) (q k b : ℕ) (page : SuperblockPage)
        (bytes : List ℕ) → AreSuperblockPages image pages → slice_get pages q ≡ Some page →
        image.page 0 q ≡ Some bytes → slice_get bytes k ≡ Some b → ¬ (b ≡ 0) →
        IsHeldByte image (q * image.geometry.page + k) ⊎ IsTrue (is_odd page) }
{}

/// A law: an image has at most one list of what the pages of extent 0 hold.
pub fn one_list_of_superblock_pages()
    ensures { (image : Image) (a b : List SuperblockPage) →
        AreSuperblockPages image a → AreSuperblockPages image b → a ≡ b }
{}

/// A law: each image has a list of what the pages of extent 0 hold. With `one_list_of_superblock_pages`, it
/// has exactly one.
pub fn each_image_has_superblock_pages()
    ensures { (image : Image) → (pages : List SuperblockPage) × AreSuperblockPages image pages }
{}
