//! Tests of workers: any number of them finds and answers what one reader does and takes each extent once,
//! even if a gate holds some of them up.

ghost use Rattle.std.specs.Prelude.{◌≤◌};

mod events;
mod left_alone;
mod listings;
mod meeting;
mod pausing;
mod reading_watch;
mod shards;
mod taking;
mod watch;

use crate::support::compare::{check_answer, check_found, same};
use crate::support::reported::{scrubbed, scrubbed_by};
use crate::workers::left_alone::LeftAlone;
use crate::workers::meeting::MeetingSource;
use crate::workers::reading_watch::ReadingWatch;
use crate::workers::watch::Watch;
use scrub_disk::{Geometry, MemDisk, PageSource};
use scrub_fakes::worked::{many_shards, one_shard};
use scrub_fakes::{CountingSource, plan_of};
use scrub_pool::{ExtentQueue, NoGate, scan_all};
use scrub_scan::{Item, scan_in_order};
use std::alloc::Global;
use std::process::Abort;
use std::sync::Wait;
use std::test::Fail;
use std::thread::Threads;
use std::time::Clock;

/// Scans and scrubs a disk with `workers` workers and the caller. Each is held at its first extent until
/// `held` of them have passed with one. Compares the findings and the answer with those of one reader, and
/// who took what with what the gates saw.
fn check_workers<R: Threads + Wait + Abort + Clock + Sync>(
    rt: &R,
    alloc: Global,
    disk: &MemDisk,
    workers: u32,
    held: usize,
) -> Result<(), Fail>
    requires { workers ≤ 64 }
{
    let extents = disk.geometry().extents();
    let plan = plan_of(alloc, disk)?;
    let (queue, mut first) = ExtentQueue::new(rt, alloc, &plan)?;
    let watch = Watch::new(rt, alloc, workers + 1, extents, held)?;
    let (found, takings) = scan_all(rt, alloc, disk, &plan, &queue, &mut first, workers, &watch)?;
    check_found(rt, &found, &scan_in_order(alloc, disk, &plan)?);
    watch.check(rt, &takings, plan.planned());
    let watch = Watch::new(rt, alloc, workers + 1, extents, held)?;
    let (answer, takings) = scrubbed_by(rt, alloc, disk, workers, &watch)?;
    check_answer(rt, &answer, &scrubbed(rt, alloc, disk)?);
    watch.check(rt, &takings, plan.planned());
    Ok(())
}

/// Of two extents, each has its own worker; four and eight workers have an extent each; and of 65 workers 39.
#[test]
fn workers_are_held_until_the_others_have_passed_with_an_extent(
    rt: HostRuntime,
) -> Result<(), Fail> {
    let disk = one_shard(rt.alloc())?;
    check_workers(&rt, rt.alloc(), &disk, 1, 2)?;
    let (disk, _) = many_shards(rt.alloc())?;
    for (workers, held) in [(3, 4), (7, 8), (64, 39)] {
        check_workers(&rt, rt.alloc(), &disk, workers, held)?;
    }
    Ok(())
}

/// Scans a disk with `workers` workers and the caller. All but worker `alone` are held at their first extents
/// until every extent is taken, so that one takes all that the others leave.
fn check_left_alone<R: Threads + Wait + Abort + Clock + Sync>(
    rt: &R,
    alloc: Global,
    disk: &MemDisk,
    workers: u32,
    alone: u32,
) -> Result<(), Fail>
    requires workers { workers ≤ 64 }
    requires alone { alone ≤ workers }
{
    let plan = plan_of(alloc, disk)?;
    let (queue, mut first) = ExtentQueue::new(rt, alloc, &plan)?;
    let planned = plan.planned().len();
    let gate = LeftAlone::new(rt, alone, planned as u64);
    let (_, takings) = scan_all(rt, alloc, disk, &plan, &queue, &mut first, workers, &gate)?;
    gate.check(rt);
    assert!(rt; takings.taken_by(alone).len() >= planned.saturating_sub(workers as usize));
    Ok(())
}

#[test]
fn each_worker_goes_on_until_nothing_is_left(rt: HostRuntime) -> Result<(), Fail> {
    let (disk, _) = many_shards(rt.alloc())?;
    for alone in 0..4 {
        check_left_alone(&rt, rt.alloc(), &disk, 3, alone)?;
    }
    Ok(())
}

/// Scans a disk with `workers` workers and the caller. Their reads wait until all of them are reading at the
/// same time.
fn check_meeting<R: Threads + Wait + Abort + Clock + Sync>(
    rt: &R,
    alloc: Global,
    disk: &MemDisk,
    workers: u32,
) -> Result<(), Fail>
    requires { workers ≤ 64 }
{
    let plan = plan_of(alloc, disk)?;
    let (queue, mut first) = ExtentQueue::new(rt, alloc, &plan)?;
    let source = MeetingSource::new(rt, disk, workers + 1);
    let (found, _) = scan_all(
        rt, alloc, &source, &plan, &queue, &mut first, workers, &NoGate,
    )?;
    same(rt, found.len(), plan.planned().len());
    assert!(rt; source.has_met());
    Ok(())
}

#[test]
fn all_workers_read_pages_at_the_same_time(rt: HostRuntime) -> Result<(), Fail> {
    let (disk, _) = many_shards(rt.alloc())?;
    for workers in [1, 3] {
        check_meeting(&rt, rt.alloc(), &disk, workers)?;
    }
    Ok(())
}

/// Scrubs a disk with `workers` workers and the caller. Each is held at its first extent until all of them
/// have passed with one. Checks that each extent was reported to the gate once, by the worker that took it
/// and before it was read, and each total once, after the extent was read.
fn check_reports<R: Threads + Wait + Abort + Clock + Sync>(
    rt: &R,
    alloc: Global,
    disk: &MemDisk,
    workers: u32,
) -> Result<(), Fail>
    requires { workers ≤ 64 }
{
    let plan = plan_of(alloc, disk)?;
    let source = CountingSource::new(alloc, disk)?;
    let watch = ReadingWatch::new(rt, alloc, &source, workers + 1)?;
    let (_, takings) = scrubbed_by(rt, alloc, &source, workers, &watch)?;
    watch.check(rt, &takings, plan.planned());
    Ok(())
}

#[test]
fn each_of_70_extents_is_reported_to_a_gate_before_it_is_read(rt: HostRuntime) -> Result<(), Fail> {
    let disk = MemDisk::blank(rt.alloc(), Geometry::new(64, 2, 71)?)?;
    for workers in [0, 3] {
        check_reports(&rt, rt.alloc(), &disk, workers)?;
    }
    Ok(())
}

#[test]
fn any_number_of_workers_answers_what_one_reader_answers(rt: HostRuntime) -> Result<(), Fail> {
    let (disk, index) = many_shards(rt.alloc())?;
    let answer = scrubbed(&rt, rt.alloc(), &disk)?;
    same(&rt, answer.index(), index.as_slice());
    let report = str::from_utf8(answer.report())?;
    assert!(&rt; answer.is_clean() && report.contains(r#""shards":38,"#));
    for workers in [0, 1, 2, 7, 64] {
        check_workers(&rt, rt.alloc(), &disk, workers, 0)?;
    }
    Ok(())
}

#[test]
fn workers_find_the_only_page_of_a_disk(rt: HostRuntime) -> Result<(), Fail> {
    let disk = MemDisk::blank(rt.alloc(), Geometry::new(64, 1, 2)?)?;
    let plan = plan_of(rt.alloc(), &disk)?;
    let wanted = scan_in_order(rt.alloc(), &disk, &plan)?;
    assert!(&rt; wanted.len() == 1);
    let one = wanted.result_at(0);
    same(&rt, (one.extent(), one.pointer()), (1, 64));
    same(
        &rt,
        one.findings().items(),
        &[Item::Pad { start: 0, stop: 64 }],
    );
    for workers in [0, 64] {
        check_workers(&rt, rt.alloc(), &disk, workers, 0)?;
    }
    Ok(())
}
