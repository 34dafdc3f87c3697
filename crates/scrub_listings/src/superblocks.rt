//! The superblocks of a disk as lines: the records in extent 0, which of them counts, and what else is there.

ghost use Rattle.std.specs.Prelude.{◌≡◌, ◌++◌, Bool, List, ℕ, IfOk, OnOk, string_bytes};
ghost use Rattle.std.specs.List.{list_all, list_any};
ghost use Rattle.scrub_disk.specs.Image.{Image};
ghost use Rattle.scrub_super.specs.declared.pages.SuperblockPage.{SuperblockPage};
ghost use Rattle.scrub_listings.specs.Superblocks.{IsSuperblockListing, are_clean_pages};
ghost use Rattle.scrub_listings.specs.Superblocks.{is_counting_page, is_orderly_page, rank_text};
ghost use Rattle.scrub_listings.specs.Superblocks.{record_line, stray_line, superblock_line};
ghost use Rattle.scrub_listings.specs.Superblocks.{superblock_lines};

use crate::listing::Listing;
use scrub_disk::{OutOfMemory, PageSource};
use scrub_super::{Rank, RecordKind, SuperblockPage, choose_with_pages};
use std::alloc::Global;
use std::fmt::Write;

/// The word for how new a record is.
fn rank_text(rank: Rank) -> &'static str
    ensures { result.now ≡ rank_text rank }
{
    match rank {
        Rank::Tie => "tie",
        Rank::Counts => "counts",
        Rank::Older => "older",
    }
}

/// Appends the line of a record.
fn append_record(
    text: &mut String,
    page: usize,
    kind: RecordKind,
    generation: u64,
    rank: Rank,
) -> Result<(), OutOfMemory>
    ensures { OnOk result (string_bytes text.new ≡
        string_bytes text.old ++ record_line page kind generation rank) }
{
    let kind = kind.letters();
    let state = rank_text(rank);
    writeln!(text, "record {page} {kind} {generation} {state}")
}

/// Appends the line of a damaged page.
fn append_damaged(text: &mut String, page: usize, kind: RecordKind) -> Result<(), OutOfMemory>
    ensures { OnOk result (string_bytes text.new ≡ string_bytes text.old ++
        superblock_line page (SuperblockPage.Damaged kind)) }
{
    let kind = kind.letters();
    writeln!(text, "damaged {page} {kind}")
}

/// Appends the line of a page with a stray byte, or nothing if the page has none.
fn append_stray(text: &mut String, page: usize, is_stray: bool) -> Result<(), OutOfMemory>
    ensures { OnOk result (string_bytes text.new ≡ string_bytes text.old ++ stray_line page is_stray) }
{
    if is_stray {
        writeln!(text, "stray {page}")
    } else {
        Ok(())
    }
}

/// Appends the lines of a page, each with its line feed.
fn append_line(text: &mut String, page: usize, held: SuperblockPage) -> Result<(), OutOfMemory>
    ensures { OnOk result (string_bytes text.new ≡ string_bytes text.old ++ superblock_line page held) }
{
    match held {
        SuperblockPage::Lost => writeln!(text, "lost {page}"),
        SuperblockPage::Record {
            kind,
            generation,
            rank,
            is_stray,
            ..
        } => {
            append_record(text, page, kind, generation, rank)?;
            append_stray(text, page, is_stray)
        }
        SuperblockPage::Damaged { kind } => append_damaged(text, page, kind),
        SuperblockPage::Stray => append_stray(text, page, true),
        SuperblockPage::Held => Ok(()),
    }
}

/// The lines of the pages, by ascending page.
fn superblock_lines(alloc: Global, pages: &[SuperblockPage]) -> Result<Vec<u8>, OutOfMemory>
    ensures { IfOk result (λ text. text.items ≡ superblock_lines pages.now) }
{
    let mut text = String::new(alloc);
    for (page, held) in pages.iter().enumerate() {
        append_line(&mut text, page, *held)?;
    }
    Ok(text.into_bytes())
}

/// Whether the page has the record that counts, and no other record has its generation.
fn is_counting_page(page: SuperblockPage) -> bool
    ensures { result ≡ is_counting_page page }
{
    matches!(
        page,
        SuperblockPage::Record {
            rank: Rank::Counts,
            ..
        }
    )
}

/// Whether the page has no line, or only the line of a record that ties with none.
fn is_orderly_page(page: SuperblockPage) -> bool
    ensures { result ≡ is_orderly_page page }
{
    match page {
        SuperblockPage::Record {
            rank: Rank::Tie,
            ..
        } => false,
        SuperblockPage::Record { is_stray, .. } => !is_stray,
        SuperblockPage::Held => true,
        SuperblockPage::Lost | SuperblockPage::Damaged { .. } | SuperblockPage::Stray => false,
    }
}

/// Whether one of these pages has the record that counts, and no other record has its generation.
fn has_counting_page(pages: &[SuperblockPage]) -> bool
    ensures { result ≡ list_any is_counting_page pages.now }
{
    pages.iter().any(|page| is_counting_page(*page))
}

/// Whether each page has no line, or only the line of a record that ties with none.
fn are_orderly_pages(pages: &[SuperblockPage]) -> bool
    ensures { result ≡ list_all is_orderly_page pages.now }
{
    pages.iter().all(|page| is_orderly_page(*page))
}

/// Whether one record counts, none ties, and no line is of anything but a record.
fn are_clean_pages(pages: &[SuperblockPage]) -> bool
    ensures { result ≡ are_clean_pages pages.now }
{
    has_counting_page(pages) && are_orderly_pages(pages)
}

/// Lists the superblocks in extent 0 of a disk. It is clean if one record counts, none ties, and no line is
/// of anything but a record.
///
/// There are lines for each page of extent 0 that has something to report, by ascending page: `lost PAGE`,
/// `record PAGE KIND GENERATION STATE`, `damaged PAGE KIND` or `stray PAGE`. A page with a record has a
/// second line, `stray PAGE`, if it has a byte other than zero that no valid record holds. The kind is `SSB1`
/// or `SSB2`, and the state `tie`, `counts` or `older`.
///
/// It reads extent 0 once, and no other extent. The only fault is `OutOfMemory`.
pub fn list_superblocks<D: PageSource>(alloc: Global, disk: &D) -> Result<Listing, OutOfMemory>
    ensures { IfOk result (λ l. IsSuperblockListing (D.image disk.now) l.text.items l.is_clean) }
{
    let (_chosen, pages) = choose_with_pages(alloc, disk)?;
    let text = superblock_lines(alloc, &pages)?;
    let is_clean = are_clean_pages(&pages);
    Ok(Listing { text, is_clean })
}

/// A law: the superblocks of an image have at most one text of lines, and one verdict whether they are clean.
pub fn one_superblock_listing()
    ensures { (image : Image) (a b : List ℕ) (v w : Bool) → IsSuperblockListing image a v →
        IsSuperblockListing image b w → (a ≡ b) × (v ≡ w) }
{}

/// A law: each image has a text of the lines of its superblocks, and a verdict whether they are clean. With
/// `one_superblock_listing`, it has exactly one of each.
pub fn each_image_has_a_superblock_listing()
    ensures { (image : Image) → (text : List ℕ) × (clean : Bool) × IsSuperblockListing image text clean }
{}
