//! Whether what was found is clean, part by part and as a whole.

ghost use Rattle.std.specs.Prelude.{◌≡◌, is_some};
ghost use Rattle.std.specs.List.{list_all};
ghost use Rattle.scrub_scan.specs.Scanned.{scanned};
ghost use Rattle.scrub_found.specs.Judged.{is_clean_by};
ghost use Rattle.scrub_found.specs.Scrubbed.{is_clean_extent, is_clean_item};

use crate::runs::RunRow;
use crate::scanning::Scan;
use scrub_check::SharedPlace;
use scrub_disk::PageSource;
use scrub_scan::{AllFindings, ExtentResult, Item};

/// Whether an item is neither torn nor noise nor lost.
fn is_clean_item(item: &Item) -> bool
    ensures { result ≡ is_clean_item item.now }
{
    matches!(item, Item::Chunk { .. } | Item::Pad { .. })
}

/// Whether each of these items is a chunk or zeros.
pub fn are_clean_items(items: &[Item]) -> bool
    ensures { result ≡ list_all is_clean_item items.now }
{
    items.iter().all(|item| is_clean_item(item))
}

/// Whether every page of an extent can be read, and each of its items is clean.
pub fn is_clean_extent<D: PageSource>(found: &ExtentResult<'_, D>) -> bool
    ensures { result ≡ is_clean_extent (scanned found.now) }
{
    let findings = found.findings();
    findings.bad_pages().is_empty() && are_clean_items(findings.items())
}

/// Whether each extent is clean.
fn are_clean_extents<D: PageSource>(all: &AllFindings<'_, D>) -> bool
    ensures { result ≡ list_all is_clean_extent all.now.extents }
{
    all.results().all(|found| is_clean_extent(found))
}

/// Whether each index run is read.
fn are_read(runs: &[RunRow]) -> bool
    ensures { result ≡ list_all (λ r. is_some r.entries) runs.now }
{
    runs.iter().all(|run| run.entries.is_some())
}

/// Whether a scanned disk is clean, by its index runs, whether each named locator is sound, and the places
/// that more than one of them points to.
pub fn is_clean<D: PageSource>(
    scan: &Scan<'_, D>,
    runs: &[RunRow],
    are_sound: bool,
    shared: &[SharedPlace],
) -> bool
    ensures { result ≡ is_clean_by scan.now runs.now are_sound shared.now }
{
    scan.chosen.superblock().is_some()
        && !scan.chosen.tie()
        && scan.chosen.bad_pages().is_empty()
        && are_clean_extents(&scan.all)
        && are_read(runs)
        && are_sound
        && shared.is_empty()
}
