//! Ascending pages as ranges of neighbours.

ghost use Rattle.std.specs.Prelude.{◌≡◌, ◌==◌, ◌+◌, ℕ, List, IfOk, OnOk};
ghost use Rattle.scrub_reclaim.specs.Doubts.{AreJoined, page_ranges};
ghost use Rattle.scrub_reclaim.specs.steps.PageRanges.{joined_with};

use scrub_disk::OutOfMemory;
use std::alloc::Global;

/// Neighbouring pages of an extent.
#[derive(Clone, Copy)]
pub(crate) struct PageRange {
    /// The first of them.
    pub first: u32,
    /// The last of them.
    pub last: u32,
}

/// Whether a page follows a range directly.
fn is_next(range: PageRange, page: u32) -> bool
    ensures { result ≡ (range.last + 1 == page) }
{
    range.last as u64 + 1 == page as u64
}

/// Adds one more page after ranges: to the last of them if it follows directly, or else as a range of its
/// own.
fn join_page(ranges: &mut Vec<PageRange>, page: u32) -> Result<(), OutOfMemory>
    ensures { OnOk result (ranges.new.items ≡ joined_with ranges.old.items page) }
{
    let alone = PageRange {
        first: page,
        last: page,
    };
    let Some(before) = ranges.pop() else {
        ranges.push(alone)?;
        return Ok(());
    };
    if is_next(before, page) {
        ranges.push(PageRange {
            first: before.first,
            last: page,
        })?;
        return Ok(());
    }
    ranges.push(before)?;
    ranges.push(alone)?;
    Ok(())
}

/// Joins ascending pages into as few ranges as possible.
pub(crate) fn join_pages(alloc: Global, pages: &[u32]) -> Result<Vec<PageRange>, OutOfMemory>
    ensures { IfOk result (λ v. v.items ≡ page_ranges pages.now) }
{
    let mut ranges = Vec::new(alloc);
    for page in pages {
        join_page(&mut ranges, *page)?;
    }
    Ok(ranges)
}

/// A law: the ranges of pages hold these pages and no others, in their order, and none is the neighbour of
/// the next.
pub fn neighbouring_pages_are_joined()
    ensures { (pages : List ℕ) → AreJoined pages (page_ranges pages) }
{}
