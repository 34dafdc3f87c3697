//! The live bytes of single extents. The program counts those of all extents at once.

use crate::compare::same;
use scrub_check::{Checked, check_all, live_bytes, named_locators, read_runs};
use scrub_disk::MemDisk;
use scrub_fakes::plan_of;
use scrub_fakes::worked::nine_locators;
use scrub_merge::merge;
use scrub_scan::scan_in_order;
use std::alloc::Global;
use std::test::Fail;
use std::thread::Threads;

/// The locators that a disk names, with their statuses.
fn checked_of<R: Threads + Sync>(
    rt: &R,
    alloc: Global,
    disk: &MemDisk,
) -> Result<Vec<Checked>, Fail> {
    let plan = plan_of(alloc, disk)?;
    let all = scan_in_order(alloc, disk, &plan)?;
    let read = read_runs(alloc, disk, &plan, &all)?;
    let map = merge(alloc, read.runs())?;
    let named = named_locators(alloc, &plan, &map)?;
    Ok(check_all(rt, alloc, disk, &plan, &all, &named)?)
}

/// The live bytes of extents 0 to 3, each computed by itself.
fn live_one_by_one(alloc: Global, disk: &MemDisk, checked: &[Checked]) -> Result<[u32; 4], Fail> {
    let plan = plan_of(alloc, disk)?;
    let all = scan_in_order(alloc, disk, &plan)?;
    Ok([0, 1, 2, 3].map(|extent| live_bytes(&all, checked, extent)))
}

#[test]
fn a_chunk_that_a_hidden_locator_names_is_not_live(rt: HostRuntime) -> Result<(), Fail> {
    let (disk, _) = nine_locators(rt.alloc())?;
    let checked = checked_of(&rt, rt.alloc(), &disk)?;
    same(
        &rt,
        live_one_by_one(rt.alloc(), &disk, &checked)?,
        [0, 41, 0, 635],
    );
    Ok(())
}
