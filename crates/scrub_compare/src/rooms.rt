//! Where the extents of a disk have room.

ghost use Rattle.std.specs.Prelude.{◌≡◌, List, None, Some, if◌then◌else◌};
ghost use Rattle.scrub_scan.specs.Scanned.{scanned};
ghost use Rattle.scrub_check.specs.declared.statuses.checked.Checked.{Checked};
ghost use Rattle.scrub_check.specs.steps.LocatorIndex.{AreBarredExtents};
ghost use Rattle.scrub_reclaim.specs.Room.{place_in, room_fits};
ghost use Rattle.scrub_compare.specs.Written.{room_of_extent, room_of};

use scrub_check::ExtentSet;
use scrub_disk::{Geometry, PageSource};
use scrub_frame::Form;
use scrub_reclaim::room::{is_zero_to, may_grow, next_place};
use scrub_scan::{AllFindings, ExtentResult};

/// The place for the next frame in an extent, if there are zeros up to it and a frame of no payload fits.
fn fitting_place<D: PageSource>(geometry: Geometry, found: &ExtentResult<'_, D>) -> Option<u64>
    ensures { result ≡ (if room_fits geometry (scanned found.now) then
        Some (place_in geometry (scanned found.now)) else None) }
{
    let place = next_place(geometry.page, found.pointer(), found.findings().items());
    let bytes = (geometry.extent_bytes() as u64).saturating_sub(place);
    if !is_zero_to(place, found) || bytes < Form::Plain.overhead() as u64 {
        return None;
    }
    Some(place)
}

/// Where a scanned extent has room. `barred` has the extents into which an unsound locator points.
fn room_of<D: PageSource>(
    geometry: Geometry,
    barred: &ExtentSet,
    found: &ExtentResult<'_, D>,
) -> Option<u64>
    ensures { (checked : List Checked) → AreBarredExtents checked barred.now →
        result ≡ room_of geometry checked (scanned found.now) }
{
    if !may_grow(barred, found) {
        return None;
    }
    fitting_place(geometry, found)
}

/// Where an extent has room; it has none if it wasn't scanned.
pub(crate) fn room_of_extent<D: PageSource>(
    geometry: Geometry,
    all: &AllFindings<'_, D>,
    barred: &ExtentSet,
    extent: u32,
) -> Option<u64>
    ensures { (checked : List Checked) → AreBarredExtents checked barred.now →
        result ≡ room_of_extent geometry all.now.extents checked extent }
{
    match all.result_of(extent) {
        Some(found) => room_of(geometry, barred, found),
        None => None,
    }
}
