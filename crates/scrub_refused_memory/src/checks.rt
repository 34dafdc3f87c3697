//! Calls that read index runs and find the statuses of locators.

use crate::calls::Trial;
use crate::disks::{NINE_STATUSES, names_in, names_with_status};
use crate::ending::{Stop, Wanted, right};
use crate::runs::is_one_shard;
use scrub_check::{ReadRuns, RunState};
use scrub_fakes::worked::{
    broken_newest_run, deleted_in_the_newest_run, nine_locators, nine_of_a_shard,
};
use scrub_fakes::{SHARD, plan_of};
use scrub_merge::merge;
use scrub_run::Run;
use scrub_scan::scan_in_order;
use std::alloc::Global;
use std::io::Write;
use std::thread::Threads;

/// Whether a run deletes the shard.
fn is_deletion(run: &Run) -> bool {
    match run.entries() {
        [entry] => entry.id() == SHARD && entry.locators().is_empty(),
        _ => false,
    }
}

/// Whether three runs were read: the newest deletes the shard, and the others name its chunk.
fn are_three(read: &ReadRuns) -> bool {
    let are_right = match read.runs() {
        [Some(newest), Some(older), Some(oldest)] => {
            is_deletion(newest) && is_one_shard(older) && is_one_shard(oldest)
        }
        _ => false,
    };
    are_right && read.states() == [RunState::Read; 3].as_slice()
}

/// Whether the newer of two runs is lost, since its payload isn't a run, and the older one names the chunk of
/// the shard.
fn is_one_of_two(read: &ReadRuns) -> bool {
    let are_right = match read.runs() {
        [None, Some(older)] => is_one_shard(older),
        _ => false,
    };
    are_right && read.states() == [RunState::NotARun, RunState::Read].as_slice()
}

/// The runs of two disks: on one the newest run deletes the shard, on the other it is broken.
pub fn read_runs(alloc: Global, wanted: Wanted) -> Result<(), Stop> {
    let (deleted, broken) = (deleted_in_the_newest_run(alloc)?, broken_newest_run(alloc)?);
    let (first, second) = (plan_of(alloc, &deleted)?, plan_of(alloc, &broken)?);
    let found = scan_in_order(alloc, &deleted, &first)?;
    let others = scan_in_order(alloc, &broken, &second)?;
    wanted.made()?;
    let three = scrub_check::read_runs(alloc, &deleted, &first, &found)?;
    let two = scrub_check::read_runs(alloc, &broken, &second, &others)?;
    right(are_three(&three) && is_one_of_two(&two))
}

/// The statuses of nine locators, one after another.
pub fn status_of(alloc: Global, wanted: Wanted) -> Result<(), Stop> {
    let (disk, _) = nine_locators(alloc)?;
    let plan = plan_of(alloc, &disk)?;
    let all = scan_in_order(alloc, &disk, &plan)?;
    wanted.made()?;
    for (locator, status) in nine_of_a_shard().iter().zip(&NINE_STATUSES) {
        let found = scrub_check::status_of(alloc, &disk, &plan, &all, locator)?;
        right(found == *status)?;
    }
    Ok(())
}

/// The locators that the disk of nine locators names.
pub fn named_locators(alloc: Global, wanted: Wanted) -> Result<(), Stop> {
    let (disk, run) = nine_locators(alloc)?;
    let plan = plan_of(alloc, &disk)?;
    let all = scan_in_order(alloc, &disk, &plan)?;
    let read = scrub_check::read_runs(alloc, &disk, &plan, &all)?;
    let map = merge(alloc, read.runs())?;
    let names = names_in(alloc, &names_with_status(alloc, run)?)?;
    wanted.made()?;
    let named = scrub_check::named_locators(alloc, &plan, &map)?;
    right(named.as_slice() == names.as_slice())
}

/// The statuses of these locators, in their order.
pub fn check_all<R: Threads + Sync>(rt: &R, alloc: Global, wanted: Wanted) -> Result<(), Stop> {
    let (disk, run) = nine_locators(alloc)?;
    let plan = plan_of(alloc, &disk)?;
    let all = scan_in_order(alloc, &disk, &plan)?;
    let expected = names_with_status(alloc, run)?;
    let named = names_in(alloc, &expected)?;
    wanted.made()?;
    let checked = scrub_check::check_all(rt, alloc, &disk, &plan, &all, &named)?;
    right(checked.as_slice() == expected.as_slice())
}

/// The calls of this module.
pub fn calls<R: Threads + Sync, O: Write>(rt: &R, alloc: Global, trial: &mut Trial<'_, O>) {
    made!(trial, "read_runs", "", wanted => read_runs(alloc, wanted));
    made!(trial, "status_of", "", wanted => status_of(alloc, wanted));
    made!(trial, "named_locators", "", wanted => named_locators(alloc, wanted));
    made!(trial, "check_all", "", wanted => check_all(rt, alloc, wanted));
}
