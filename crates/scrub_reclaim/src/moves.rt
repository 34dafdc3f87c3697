//! Finds the named locators that point to a chunk of some extents, by binary search.

ghost use Rattle.std.specs.Prelude.{◌≡◌, IfOk, List, map};
ghost use Rattle.scrub_check.specs.declared.statuses.checked.Checked.{Checked};
ghost use Rattle.scrub_reclaim.specs.steps.Moves.{AreRisingPlaces, PointAlike, named_in, place_pointed_to};
ghost use Rattle.scrub_reclaim.specs.Reclaimable.{pointing_to};

use scrub_check::{Checked, ExtentSet};
use scrub_disk::OutOfMemory;
use std::alloc::Global;

/// The place that a named locator points to: its extent and offset.
fn place_pointed_to(one: &Checked) -> (u32, u32)
    ensures { result ≡ place_pointed_to one.now }
{
    (one.locator.extent, one.locator.offset)
}

/// References to those named locators that point into these extents, in their order.
fn references<'c>(
    alloc: Global,
    checked: &'c [Checked],
    extents: &ExtentSet,
) -> Result<Vec<&'c Checked>, OutOfMemory>
    ensures { IfOk result (λ v. map (λ one. one.now) v.items ≡ named_in extents.now checked.now) }
{
    checked
        .iter()
        .filter(|one| extents.has(one.locator.extent))
        .collect(alloc)
}

/// The named locators into these extents by the place that they point to: by extent, then by offset. Those of
/// one place keep their order.
pub(crate) fn by_place<'c>(
    alloc: Global,
    checked: &'c [Checked],
    extents: &ExtentSet,
) -> Result<Vec<&'c Checked>, OutOfMemory>
    ensures rising { IfOk result (λ v. AreRisingPlaces v.items) }
    ensures same { IfOk result (λ v. PointAlike (named_in extents.now checked.now) v.items) }
{
    let mut sorted = references(alloc, checked, extents)?;
    sorted.sort_by_key(|one| place_pointed_to(*one))?;
    Ok(sorted)
}

/// The ones that point to a place, in their order.
pub(crate) fn pointing_to<'v, 'c>(
    sorted: &'v [&'c Checked],
    extent: u32,
    offset: u32,
) -> &'v [&'c Checked]
    requires { AreRisingPlaces sorted.now }
    ensures { (checked : List Checked) → PointAlike checked sorted.now →
        map (λ one. one.now) result.now ≡ pointing_to checked extent offset }
{
    let place = (extent, offset);
    let below = sorted.partition_point(|one| place_pointed_to(*one).cmp(&place).is_lt());
    let through = sorted.partition_point(|one| place_pointed_to(*one).cmp(&place).is_le());
    &sorted[below..through]
}
