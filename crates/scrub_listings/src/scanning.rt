//! The scan of a disk by the superblock that counts or by given index runs, and what is said of its
//! superblocks beside what is listed or read of it.

ghost use Rattle.std.specs.Prelude.{◌≡◌, ◌<◌, ◌≤◌, ◌^◌, All, IfOk, IfSome, length};
ghost use Rattle.std.specs.List.Sorted.{IsStrictlyIncreasing};
ghost use Rattle.scrub_frame.specs.Locator.{IsLocator};
ghost use Rattle.scrub_found.specs.GivenRuns.{AreTakingsFrom, given_in};
ghost use Rattle.scrub_found.specs.Judged.{IsScanBut, IsScanFrom};
ghost use Rattle.scrub_found.specs.Takings.{AreTakingsBy};
ghost use Rattle.scrub_listings.specs.Remarks.{AreSaidFrom, AreSuperblockRemarks};

use crate::remarks::{SuperblockRemark, superblock_remarks};
use scrub_disk::PageSource;
use scrub_found::{Scan, ScrubFault, scan_chosen, scan_listed};
use scrub_frame::Locator;
use scrub_pool::{Gate, Takings};
use scrub_super::choose_with_pages;
use std::alloc::Global;
use std::sync::Wait;
use std::thread::Threads;

/// Scans a disk by the superblock that counts, as if these extents, which are ascending, had been reset.
/// Returns what is said of the superblocks too, and which extents the caller and each worker took.
fn scan_by_superblock<'d, D: PageSource, G: Gate, R: Threads + Wait + Sync>(
    rt: &R,
    alloc: Global,
    disk: &'d D,
    workers: u32,
    gate: &G,
    resets: &[u32],
) -> Result<(Scan<'d, D>, Vec<SuperblockRemark>, Takings), ScrubFault>
    requires workers { workers ≤ 64 }
    requires rising { IsStrictlyIncreasing resets.now }
    ensures image { IfOk result (λ r. D.image r.0.disk.now ≡ D.image disk.now) }
    ensures scan { IfOk result (λ r. IsScanBut resets.now (D.image r.0.disk.now) r.0) }
    ensures remarks { IfOk result (λ r. AreSuperblockRemarks (D.image disk.now) r.1.items) }
    ensures takings { IfOk result (λ r. AreTakingsBy (D.image disk.now) workers r.2) }
{
    let (chosen, pages) = choose_with_pages(alloc, disk)?;
    let remarks = superblock_remarks(alloc, &chosen, &pages)?;
    let (scan, takings) = scan_chosen(rt, alloc, disk, chosen, workers, gate, resets)?;
    Ok((scan, remarks, takings))
}

/// Scans a disk by the index runs that are given, newest first and fewer than 2^32, or else by the superblock
/// that counts, as if these extents, which are ascending, had been reset. Returns what is said of the
/// superblocks too, and which extents the caller and each worker took. If runs are given, nothing is said,
/// and no extent is taken as reset.
///
/// It scans as `scrub` does, with this many workers (0 to 64) beside the caller. The only fault is
/// `OutOfMemory`, returned once every started worker has ended.
pub fn scan_with_remarks<'d, D: PageSource, G: Gate, R: Threads + Wait + Sync>(
    rt: &R,
    alloc: Global,
    disk: &'d D,
    workers: u32,
    gate: &G,
    given: Option<&[Locator]>,
    resets: &[u32],
) -> Result<(Scan<'d, D>, Vec<SuperblockRemark>, Takings), ScrubFault>
    requires workers { workers ≤ 64 }
    requires few { IfSome given (λ runs. length runs.now < 2 ^ 32) }
    requires located { IfSome given (λ runs. All IsLocator runs.now) }
    requires rising { IsStrictlyIncreasing resets.now }
    ensures image { IfOk result (λ r. D.image r.0.disk.now ≡ D.image disk.now) }
    ensures scan { IfOk result (λ r.
        IsScanFrom (given_in given.entry) resets.now (D.image r.0.disk.now) r.0) }
    ensures remarks { IfOk result (λ r. AreSaidFrom (given_in given.entry) (D.image disk.now) r.1.items) }
    ensures takings { IfOk result (λ r.
        AreTakingsFrom (given_in given.entry) (D.image disk.now) workers r.2) }
{
    let Some(runs) = given else {
        return scan_by_superblock(rt, alloc, disk, workers, gate, resets);
    };
    let (scan, takings) = scan_listed(rt, alloc, disk, runs, workers, gate)?;
    Ok((scan, Vec::new(alloc), takings))
}
