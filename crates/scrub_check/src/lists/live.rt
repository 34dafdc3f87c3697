//! How many bytes the live chunks of one extent take. For all extents `live_and_orphans` finds it.

ghost use Rattle.std.specs.Prelude.{◌≡◌, ◌<◌, ◌^◌};
ghost use Rattle.std.specs.List.{filter, list_any, sum_by};
ghost use Rattle.scrub_scan.specs.Scanned.{scanned};
ghost use Rattle.scrub_check.specs.Live.{is_chunk, size_of, live_bytes, HasLiveBytes};
ghost use Rattle.scrub_check.specs.steps.SoundPlaces.{is_sound_at, is_live};

use crate::statuses::checked::Checked;
use scrub_disk::PageSource;
use scrub_scan::{AllFindings, ExtentResult, Item};

/// How many bytes an item takes.
pub fn size_of(item: &Item) -> u32
    ensures { result ≡ size_of item.now }
{
    item.stop().saturating_sub(item.start())
}

/// Whether an item is a chunk.
pub fn is_chunk(item: &Item) -> bool
    ensures { result ≡ is_chunk item.now }
{
    matches!(item, Item::Chunk { .. })
}

/// Whether this is a sound locator that points to a place.
fn is_sound_at(checked: &Checked, extent: u32, offset: u32) -> bool
    ensures { result ≡ is_sound_at extent offset checked.now }
{
    checked.status.is_sound()
        && checked.locator.extent == extent
        && checked.locator.offset == offset
}

/// Whether a sound locator points to a place, by a walk over all of them.
fn has_sound_at(checked: &[Checked], extent: u32, offset: u32) -> bool
    ensures { result ≡ list_any (is_sound_at extent offset) checked.now }
{
    checked.iter().any(|one| is_sound_at(one, extent, offset))
}

/// Whether an item of an extent is a chunk that a sound locator points to.
#[tactic(auto, using(crate::proofs::Counts::any_counts))]
fn is_live(checked: &[Checked], extent: u32, item: &Item) -> bool
    ensures { result ≡ is_live checked.now extent item.now }
{
    is_chunk(item) && has_sound_at(checked, extent, item.start())
}

/// How many bytes the live ones among items of an extent take.
fn sum_of_live(items: &[Item], checked: &[Checked], extent: u32) -> u32
    requires { sum_by size_of items.now < 2 ^ 32 }
    ensures { result ≡ sum_by size_of (filter (is_live checked.now extent) items.now) }
{
    items
        .iter()
        .filter(|item| is_live(checked, extent, item))
        .map(|item| size_of(item))
        .sum()
}

/// How many bytes the live chunks of a scanned extent take, by walks over all locators.
fn live_bytes_of<D: PageSource>(one: &ExtentResult<'_, D>, checked: &[Checked]) -> u32
    ensures { result ≡ live_bytes checked.now (scanned one.now) }
{
    let items = one.findings().items();
    sum_of_live(items, checked, one.extent())
}

/// How many bytes the live chunks of an extent take: 0 if the extent wasn't scanned. It takes no memory, and
/// walks over all locators for each chunk of the extent; for all extents at once call `liveness_by`.
pub fn live_bytes<D: PageSource>(all: &AllFindings<'_, D>, checked: &[Checked], extent: u32) -> u32
    ensures { HasLiveBytes all.now.extents checked.now extent result }
{
    match all.result_of(extent) {
        Some(one) => live_bytes_of(one, checked),
        None => 0,
    }
}
