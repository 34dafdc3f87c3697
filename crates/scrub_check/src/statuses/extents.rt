//! What was found of the extent of a place: its findings, and whether bytes of it can be read.

ghost use Rattle.std.specs.Prelude.{◌≡◌, ◌<◌, ◌≤◌, ◌+◌, ◌↔◌, ℕ, Some, IsTrue, Contains};
ghost use Rattle.std.specs.List.Sorted.{IsStrictlyIncreasing};
ghost use Rattle.scrub_disk.specs.Image.{image_byte, extent_bytes, unreadable_pages};
ghost use Rattle.scrub_scan.specs.AllFindings.{extent_numbers, findings_in};
ghost use Rattle.scrub_scan.specs.Extent.{HasGap};

use scrub_disk::PageSource;
use scrub_scan::{AllFindings, Findings};

/// The findings of an extent that was scanned.
pub(crate) fn findings_of<'a, D: PageSource>(
    all: &'a AllFindings<'_, D>,
    extent: u32,
) -> &'a Findings
    requires { Contains (extent_numbers all.now.extents) extent }
    ensures { findings_in all.now.extents extent ≡ Some result.now }
{
    match all.of_extent(extent) {
        Some(findings) => findings,
        None => unreachable!(),
    }
}

/// Whether one of the pages from the first through the last is among some ascending ones.
fn has_page_between(pages: &[u32], first: u32, last: u32) -> bool
    requires { IsStrictlyIncreasing pages.now }
    ensures { IsTrue result ↔ ((q : ℕ) × Contains pages.now q × (first ≤ q) × (q ≤ last)) }
{
    let i = pages.partition_point(|page| *page < first);
    i < pages.len() && pages[i] <= last
}

/// Whether one of the `size` bytes of an extent from `start` on can't be read, by the unreadable pages of the
/// extent.
pub(crate) fn has_gap<D: PageSource>(disk: &D, bad_pages: &[u32], start: u32, size: u64) -> bool
    requires some { 0 < size }
    requires in_extent { start + size ≤ extent_bytes (D.image disk.now).geometry }
    requires rising { IsStrictlyIncreasing bad_pages.now }
    ensures { (e : ℕ) → e < (D.image disk.now).geometry.extents →
        bad_pages.now ≡ unreadable_pages (D.image disk.now) e →
        (IsTrue result ↔ HasGap (image_byte (D.image disk.now) e) start size) }
{
    let page = disk.geometry().page();
    let first = start / page;
    let last = (start as u64 + size - 1) / page as u64;
    has_page_between(bad_pages, first, last as u32)
}
