//! The extents into which nothing may be put: those that hold a loose copy of a named locator, and, while a
//! payload is gone, the crowded ones.

ghost use Rattle.std.specs.Prelude.{◌≡◌, IfOk, map};
ghost use Rattle.scrub_check.specs.declared.statuses.checked.Checked.{Checked};
ghost use Rattle.scrub_loose.specs.Loose.{LooseValue};
ghost use Rattle.scrub_scan.specs.Scanned.{Scanned};
ghost use Rattle.std.specs.Prelude.{◌==◌, List, ℕ};
ghost use Rattle.std.specs.List.{list_any};
ghost use Rattle.scrub_reclaim.specs.Room.{is_closed};
ghost use Rattle.scrub_reclaim.specs.steps.KeptCopies.{AreKept, closed_by};

use scrub_check::ExtentSet;
use scrub_disk::OutOfMemory;
use scrub_loose::Copies;
use scrub_scan::Standing;
use std::alloc::Global;

/// The extents of some frames, in their order.
fn extents_of(alloc: Global, frames: &[Standing]) -> Result<Vec<u32>, OutOfMemory>
    ensures { IfOk result (λ v. v.items ≡ map (λ s. s.extent) frames.now) }
{
    frames.iter().map(|one| one.extent).collect(alloc)
}

/// The extents that hold a loose frame that is kept, and the crowded ones.
fn numbers_of(alloc: Global, copies: &Copies) -> Result<Vec<u32>, OutOfMemory>
    ensures { IfOk result (λ v. v.items ≡ closed_by copies.now) }
{
    let mut numbers = extents_of(alloc, copies.all_loose().all())?;
    numbers.extend_from_slice(copies.crowded())?;
    Ok(numbers)
}

/// The extents into which nothing may be put, by the copies of the named locators.
pub(crate) fn closed_extents(alloc: Global, copies: &Copies) -> Result<ExtentSet, OutOfMemory>
    ensures { (all : List Scanned) (checked : List Checked) (loose : LooseValue) →
        AreKept all checked loose copies.now →
        IfOk result (λ s. (e : ℕ) → list_any (λ n. n == e) s ≡ is_closed all loose checked e) }
{
    ExtentSet::of(numbers_of(alloc, copies)?)
}
