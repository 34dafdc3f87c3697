//! What one worker took and found on small disks, and when it retires. For a pool of workers see `events` in
//! `scrub_tests`.

ghost use Rattle.std.specs.Prelude.{◌≡◌, None, Some, IfOk};
ghost use Rattle.scrub_disk.specs.Memory.{image_of};
ghost use Rattle.scrub_scan.specs.Scanned.{scanned};
ghost use Rattle.scrub_book.specs.Worker.{held_by};

use scrub_book::{Retired, WorkerCore};
use scrub_disk::{Geometry, MemDisk};
use scrub_fakes::{plan_of, put_superblock, small_disk};
use scrub_scan::{ExtentResult, scan_extent};
use scrub_super::Plan;
use std::alloc::Global;
use std::process::Abort;
use std::test::Fail;

/// Makes room for an extent, takes it and scans it. While the worker holds the extent it doesn't retire. That
/// it holds this extent is proved at `done`.
fn take_and_scan<'d>(
    rt: &impl Abort,
    alloc: Global,
    disk: &'d MemDisk,
    plan: &Plan,
    core: WorkerCore<'d, MemDisk>,
    extent: u32,
) -> Result<WorkerCore<'d, MemDisk>, Fail>
    requires geometry { plan.now.geometry ≡ (image_of disk.now).geometry }
    requires free { held_by core ≡ None }
    ensures free { IfOk result (λ core. held_by core ≡ None) }
{
    assert!(rt; plan.planned().contains(&extent));
    let mut core = core;
    core.reserve(1)?;
    core.took(extent);
    let mut core = core.retire().err().ok_or("a worker that holds an extent")?;
    core.done(scan_extent(alloc, disk, plan, extent)?);
    Ok(core)
}

/// Compares results by extent, write pointer and number of items.
fn check_results(
    rt: &impl Abort,
    results: &[ExtentResult<'_, MemDisk>],
    wanted: &[(u32, u32, usize)],
) {
    assert!(rt; results.len() == wanted.len());
    for (found, (extent, pointer, items)) in results.iter().zip(wanted) {
        assert!(rt; found.extent() == *extent && found.pointer() == *pointer);
        assert!(rt; found.findings().items().len() == *items, "as many items");
    }
}

/// Checks what a retired worker took and found.
fn check_retired(
    rt: &impl Abort,
    retired: &Retired<'_, MemDisk>,
    taken: &[u32],
    results: &[(u32, u32, usize)],
) {
    assert!(rt;
        retired.taken() == taken,
        "the taken extents, in their order"
    );
    check_results(rt, retired.results(), results);
}

/// A worker that holds extent 1, as it came back when it was asked to retire.
fn came_back<'d>(alloc: Global) -> Result<WorkerCore<'d, MemDisk>, Fail>
    ensures { IfOk result (λ core. held_by core ≡ Some 1) }
{
    let mut core = WorkerCore::new(alloc);
    core.reserve(1)?;
    core.took(1);
    Ok(core.retire().err().ok_or("a worker that holds an extent")?)
}

/// Scans an extent that has to be planned.
fn scan_planned<'d>(
    rt: &impl Abort,
    alloc: Global,
    disk: &'d MemDisk,
    plan: &Plan,
    extent: u32,
) -> Result<ExtentResult<'d, MemDisk>, Fail>
    requires { plan.now.geometry ≡ (image_of disk.now).geometry }
    ensures { IfOk result (λ r. (scanned r).extent ≡ extent) }
{
    assert!(rt; plan.planned().contains(&extent));
    Ok(scan_extent(alloc, disk, plan, extent)?)
}

/// A worker that was asked to retire while it held extent 1, and retired after its scan.
fn retired_at_last<'d>(
    rt: &impl Abort,
    alloc: Global,
    disk: &'d MemDisk,
) -> Result<Retired<'d, MemDisk>, Fail> {
    let plan = plan_of(alloc, disk)?;
    let mut core = came_back(alloc)?;
    core.done(scan_planned(rt, alloc, disk, &plan, 1)?);
    Ok(core.retire().ok().ok_or("a worker that holds none")?)
}

#[test]
fn a_worker_that_holds_an_extent_cannot_retire(rt: HostRuntime) -> Result<(), Fail> {
    let disk = small_disk(rt.alloc())?;
    let retired = retired_at_last(&rt, rt.alloc(), &disk)?;
    check_retired(&rt, &retired, &[1], &[(1, 256, 4)]);
    check_results(&rt, &retired.into_results(), &[(1, 256, 4)]);
    Ok(())
}

/// A worker that took these three extents of a disk, one after another, and then retired.
fn retired_after<'d>(
    rt: &impl Abort,
    alloc: Global,
    disk: &'d MemDisk,
    extents: [u32; 3],
) -> Result<Retired<'d, MemDisk>, Fail> {
    let plan = plan_of(alloc, disk)?;
    let [first, second, third] = extents;
    let core = WorkerCore::new(alloc);
    let core = take_and_scan(rt, alloc, disk, &plan, core, first)?;
    let core = take_and_scan(rt, alloc, disk, &plan, core, second)?;
    let core = take_and_scan(rt, alloc, disk, &plan, core, third)?;
    Ok(core.retire().ok().ok_or("a worker that holds none")?)
}

#[test]
fn results_come_in_the_order_in_which_extents_were_taken(rt: HostRuntime) -> Result<(), Fail> {
    let mut disk = MemDisk::blank(rt.alloc(), Geometry::new(64, 4, 4)?)?;
    put_superblock(rt.alloc(), &mut disk, &[64, 128, 192], &[])?;
    let retired = retired_after(&rt, rt.alloc(), &disk, [3, 1, 2])?;
    let wanted = [(3, 192, 3), (1, 64, 1), (2, 128, 2)];
    check_retired(&rt, &retired, &[3, 1, 2], &wanted);
    let (taken, results) = retired.into_parts();
    assert!(&rt;
        taken.as_slice() == [3, 1, 2].as_slice(),
        "the taken extents that are handed out"
    );
    check_results(&rt, &results, &wanted);
    Ok(())
}
