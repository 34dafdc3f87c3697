//! The choice, the plan and the scan of a disk, by one reader or by workers.

ghost use Rattle.std.specs.Prelude.{◌≡◌, ◌<◌, ◌≤◌, ◌^◌, [], ℕ, All, IfOk, List, Option, Some, length};
ghost use Rattle.scrub_disk.specs.Image.{Image};
ghost use Rattle.scrub_frame.specs.declared.locator.Locator.{Locator};
ghost use Rattle.scrub_frame.specs.Locator.{IsLocator};
ghost use Rattle.scrub_super.specs.Chosen.{IsChoice};
ghost use Rattle.scrub_scan.specs.AllFindings.{IsOfImage};
ghost use Rattle.scrub_found.specs.Takings.{ArePlannedExtents, AreTakingsBy};
ghost use Rattle.scrub_found.specs.GivenRuns.{AreTakingsFrom};
ghost use Rattle.scrub_found.specs.Judged.{IsScan, IsScanBut, IsScanFrom};
ghost use Rattle.scrub_found.specs.Resets.{IsPlanBut};
ghost use Rattle.scrub_found.specs.GivenRuns.{FollowsFrom};
ghost use Rattle.std.specs.List.Sorted.{IsStrictlyIncreasing};

use crate::fault::ScrubFault;
use scrub_disk::{Geometry, OutOfMemory, PageSource};
use scrub_frame::Locator;
use scrub_pool::{ExtentQueue, Gate, Takings, scan_all};
use scrub_scan::{AllFindings, rescan, scan_in_order};
use scrub_super::{Chosen, Plan, choose};
use std::alloc::Global;
use std::sync::Wait;
use std::thread::Threads;

/// A disk, and what was chosen, planned and scanned of it.
#[derive(Drop)]
pub struct Scan<'d, D: PageSource> {
    /// The disk.
    pub disk: &'d D,
    /// The choice of the superblock that counts.
    pub chosen: Chosen,
    /// The plan that it gives.
    pub plan: Plan,
    /// The findings in each planned extent.
    pub all: AllFindings<'d, D>,
}

/// Scans a disk by one reader.
pub fn scan_by_one<'d, D: PageSource>(
    alloc: Global,
    disk: &'d D,
) -> Result<Scan<'d, D>, OutOfMemory>
    ensures image { IfOk result (λ s. D.image s.disk.now ≡ D.image disk.now) }
    ensures scan { IfOk result (λ s. IsScan (D.image s.disk.now) s) }
{
    let chosen = choose(alloc, disk)?;
    let plan = Plan::make(alloc, &chosen, disk.geometry())?;
    let all = scan_in_order(alloc, disk, &plan)?;
    Ok(Scan {
        disk,
        chosen,
        plan,
        all,
    })
}

/// Scans a disk by this many workers beside the caller, and returns which extents each of them took.
pub fn scan_by<'d, D: PageSource, G: Gate, R: Threads + Wait + Sync>(
    rt: &R,
    alloc: Global,
    disk: &'d D,
    workers: u32,
    gate: &G,
) -> Result<(Scan<'d, D>, Takings), ScrubFault>
    requires { workers ≤ 64 }
    ensures image { IfOk result (λ r. D.image r.0.disk.now ≡ D.image disk.now) }
    ensures scan { IfOk result (λ r. IsScan (D.image r.0.disk.now) r.0) }
    ensures takings { IfOk result (λ r. AreTakingsBy (D.image disk.now) workers r.1) }
{
    let chosen = choose(alloc, disk)?;
    scan_chosen(rt, alloc, disk, chosen, workers, gate, &[])
}

/// The plan that follows from a choice, as if these extents, which are ascending, had been reset.
fn plan_but(
    alloc: Global,
    chosen: &Chosen,
    geometry: Geometry,
    resets: &[u32],
) -> Result<Plan, OutOfMemory>
    requires same_geometry { chosen.now.geometry ≡ geometry }
    requires rising { IsStrictlyIncreasing resets.now }
    ensures { IfOk result (IsPlanBut resets.now chosen.now) }
{
    let plan = Plan::make(alloc, chosen, geometry)?;
    if resets.is_empty() {
        return Ok(plan);
    }
    plan.with_resets(alloc, resets)
}

/// Scans a disk by a plan, and returns which extents each worker and the caller took.
fn scan_planned<'d, D: PageSource, G: Gate, R: Threads + Wait + Sync>(
    rt: &R,
    alloc: Global,
    disk: &'d D,
    chosen: Chosen,
    plan: Plan,
    workers: u32,
    gate: &G,
) -> Result<(Scan<'d, D>, Takings), ScrubFault>
    requires workers { workers ≤ 64 }
    requires geometry { plan.geometry ≡ (D.image disk.now).geometry }
    ensures image { IfOk result (λ r. D.image r.0.disk.now ≡ D.image disk.now) }
    ensures scan { (given : Option (List Locator)) (resets : List ℕ) →
        IsChoice (D.image disk.now) chosen → FollowsFrom given resets chosen plan →
        IfOk result (λ r. IsScanFrom given resets (D.image r.0.disk.now) r.0) }
    ensures source { IfOk result (λ r. IsOfImage (λ s. D.image s) r.0.all (D.image disk.now)) }
    ensures takings { (given : Option (List Locator)) (resets : List ℕ) →
        IsChoice (D.image disk.now) chosen → FollowsFrom given resets chosen plan →
        IfOk result (λ r. AreTakingsFrom given (D.image disk.now) workers r.1) }
{
    let (queue, mut first) = ExtentQueue::new(rt, alloc, &plan)?;
    let (all, takings) = scan_all(rt, alloc, disk, &plan, &queue, &mut first, workers, gate)?;
    let scan = Scan {
        disk,
        chosen,
        plan,
        all,
    };
    Ok((scan, takings))
}

/// Does what `scan_by` does where it is known which superblock counts, as if these extents, which are
/// ascending, had been reset.
pub fn scan_chosen<'d, D: PageSource, G: Gate, R: Threads + Wait + Sync>(
    rt: &R,
    alloc: Global,
    disk: &'d D,
    chosen: Chosen,
    workers: u32,
    gate: &G,
    resets: &[u32],
) -> Result<(Scan<'d, D>, Takings), ScrubFault>
    requires workers { workers ≤ 64 }
    requires choice { IsChoice (D.image disk.now) chosen }
    requires rising { IsStrictlyIncreasing resets.now }
    ensures image { IfOk result (λ r. D.image r.0.disk.now ≡ D.image disk.now) }
    ensures scan { IfOk result (λ r. IsScanBut resets.now (D.image r.0.disk.now) r.0) }
    ensures source { IfOk result (λ r. IsOfImage (λ s. D.image s) r.0.all (D.image disk.now)) }
    ensures takings { IfOk result (λ r. AreTakingsBy (D.image disk.now) workers r.1) }
{
    let plan = plan_but(alloc, &chosen, disk.geometry(), resets)?;
    scan_planned(rt, alloc, disk, chosen, plan, workers, gate)
}

/// A scan of a disk as if these extents, which are ascending, had been reset, made of a scan of it without
/// resets. Only those of them whose write pointer isn't 0 are scanned again, by the caller alone.
pub fn scan_as_reset<'d, D: PageSource>(
    alloc: Global,
    disk: &'d D,
    scan: Scan<'d, D>,
    resets: &[u32],
) -> Result<Scan<'d, D>, OutOfMemory>
    requires rising { IsStrictlyIncreasing resets.now }
    requires scan { IsScan (D.image disk.now) scan }
    requires source { IsOfImage (λ s. D.image s) scan.all (D.image disk.now) }
    ensures image { IfOk result (λ s. D.image s.disk.now ≡ D.image disk.now) }
    ensures scan { IfOk result (λ s. IsScanBut resets.now (D.image s.disk.now) s) }
{
    let Scan { chosen, all, .. } = scan;
    let plan = plan_but(alloc, &chosen, disk.geometry(), resets)?;
    let all = rescan(alloc, disk, &plan, all)?;
    Ok(Scan {
        disk,
        chosen,
        plan,
        all,
    })
}

/// Scans a disk as `scan_by` does, but as if one superblock counted that lists these index runs, newest first
/// and fewer than 2^32, retires nothing, and has each write pointer at its extent's end. What is in extent 0
/// doesn't matter, though its pages are read.
pub fn scan_listed<'d, D: PageSource, G: Gate, R: Threads + Wait + Sync>(
    rt: &R,
    alloc: Global,
    disk: &'d D,
    runs: &[Locator],
    workers: u32,
    gate: &G,
) -> Result<(Scan<'d, D>, Takings), ScrubFault>
    requires workers { workers ≤ 64 }
    requires few { length runs.now < 2 ^ 32 }
    requires located { All IsLocator runs.now }
    ensures image { IfOk result (λ r. D.image r.0.disk.now ≡ D.image disk.now) }
    ensures scan { IfOk result (λ r. IsScanFrom (Some runs.now) [] (D.image r.0.disk.now) r.0) }
    ensures takings { IfOk result (λ r. AreTakingsFrom (Some runs.now) (D.image disk.now) workers r.1) }
{
    let chosen = choose(alloc, disk)?;
    let runs = Vec::from_slice(alloc, runs)?;
    let plan = Plan::listing(alloc, disk.geometry(), runs)?;
    scan_planned(rt, alloc, disk, chosen, plan, workers, gate)
}

/// A law: an image has at most one list of planned extents.
pub fn one_list_of_planned_extents()
    ensures { (image : Image) (planned others : List ℕ) → ArePlannedExtents image planned →
        ArePlannedExtents image others →
        planned ≡ others }
{}
