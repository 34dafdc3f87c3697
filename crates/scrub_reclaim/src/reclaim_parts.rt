//! What the lines are made of: the judged locators of a disk, what they say of places and extents, the
//! candidates, and the copies of what is lost. Each is made once, here.

ghost use Rattle.std.specs.Prelude.{◌≡◌, IfOk, map};
ghost use Rattle.std.specs.List.Sorted.{IsPermutation};
ghost use Rattle.scrub_found.specs.Judged.{IsScan};
ghost use Rattle.scrub_reclaim.specs.steps.ReclaimParts.{AreReclaimParts};

use scrub_check::{Candidate, ExtentSet, LocatorIndex, candidates_by};
use scrub_disk::{OutOfMemory, PageSource};
use scrub_found::{Judged, Scan, judged_of};
use scrub_loose::Copies;
use std::alloc::Global;
use std::thread::Threads;

/// What the lines of a disk are made of.
#[derive(Drop)]
pub(crate) struct ReclaimParts<'d, D: PageSource> {
    /// What was found, up to the status of each named locator.
    pub judged: Judged<'d, D>,
    /// What these locators say of places and extents.
    pub locators: LocatorIndex,
    /// The extents that may be reclaimed, by what is freed, falling, and then by number.
    pub candidates: Vec<Candidate>,
    /// The extents of the candidates, by number.
    pub listed: ExtentSet,
    /// The spares and the loose copies of these locators, and the crowded extents.
    pub copies: Copies,
}

/// The numbers of the extents of candidates, in their order.
fn numbers_of(alloc: Global, candidates: &[Candidate]) -> Result<Vec<u32>, OutOfMemory>
    ensures { IfOk result (λ v. v.items ≡ map (λ a. a.extent) candidates.now) }
{
    candidates.iter().map(|one| one.extent()).collect(alloc)
}

/// The extents of candidates.
fn extents_of(alloc: Global, candidates: &[Candidate]) -> Result<ExtentSet, OutOfMemory>
    ensures { IfOk result (λ s. IsPermutation (map (λ a. a.extent) candidates.now) s) }
{
    ExtentSet::of(numbers_of(alloc, candidates)?)
}

/// What the lines of a scanned disk are made of. The named locators are sorted once, and nothing is made of
/// them that the lines don't need.
pub(crate) fn reclaim_parts_of<'d, R: Threads + Sync, D: PageSource>(
    rt: &R,
    alloc: Global,
    scan: Scan<'d, D>,
) -> Result<ReclaimParts<'d, D>, OutOfMemory>
    requires { IsScan (D.image scan.disk.now) scan }
    ensures { IfOk result (AreReclaimParts (D.image scan.entry.disk.now)) }
{
    let disk = scan.disk;
    let judged = judged_of(rt, alloc, scan)?;
    let locators = LocatorIndex::by_threads(rt, alloc, &judged.checked)?;
    let (plan, all) = (&judged.scan.plan, &judged.scan.all);
    let candidates = candidates_by(alloc, plan, all, &locators, judged.in_doubt)?;
    let listed = extents_of(alloc, &candidates)?;
    let copies = Copies::of(rt, alloc, disk, plan, all, &[], &judged.checked)?;
    Ok(ReclaimParts {
        judged,
        locators,
        candidates,
        listed,
        copies,
    })
}
