//! What a pool of workers does, event by event, in the pure machine.

use crate::support::compare::{check_found, same};
use scrub_book::{Event, PoolCore, StepRefused};
use scrub_disk::{Geometry, MemDisk};
use scrub_fakes::worked::one_shard;
use scrub_fakes::{ONES, plan_of, put_chunk, put_superblock};
use scrub_scan::scan_in_order;
use std::alloc::Global;
use std::process::Abort;
use std::test::Fail;

/// Checks the answers to these steps, one after another.
fn check_steps(
    rt: &impl Abort,
    pool: &mut PoolCore<'_, MemDisk>,
    steps: &[(Event, Option<StepRefused>)],
) {
    for (event, wanted) in steps {
        same(rt, pool.step(*event).err(), *wanted);
    }
}

/// Finishes a complete pool that has these arrivals, and compares its findings with those of one reader.
fn check_complete(
    rt: &impl Abort,
    alloc: Global,
    disk: &MemDisk,
    pool: PoolCore<'_, MemDisk>,
    arrivals: &[u32],
) -> Result<(), Fail> {
    assert!(rt; pool.is_complete());
    assert!(rt;
        pool.arrivals() == arrivals,
        "the results arrive in this order"
    );
    let plan = plan_of(alloc, disk)?;
    let found = pool.finish().ok().ok_or("what a complete pool assembles")?;
    let wanted = scan_in_order(alloc, disk, &plan)?;
    check_found(rt, &found, &wanted);
    Ok(())
}

/// Asks an incomplete pool for its findings, and returns the pool that comes back.
fn came_back<'d>(
    rt: &impl Abort,
    pool: PoolCore<'d, MemDisk>,
) -> Result<PoolCore<'d, MemDisk>, Fail> {
    assert!(rt; !pool.is_complete());
    Ok(pool.finish().err().ok_or("a pool that isn't complete")?)
}

/// Steps of two members until the second has retired, each with its refusal or none.
const BEFORE: [(Event, Option<StepRefused>); 9] = [
    (Event::Take(0), None),
    (Event::Take(0), Some(StepRefused::Busy)),
    (Event::Done(1), Some(StepRefused::Idle)),
    (Event::Take(1), None),
    (Event::Take(5), Some(StepRefused::NoWorker)),
    (Event::Done(1), None),
    (Event::Done(0), None),
    (Event::Take(0), Some(StepRefused::QueueEmpty)),
    (Event::Retire(1), None),
];

/// What the first member has left to do, and one step more.
const AFTER: [(Event, Option<StepRefused>); 2] = [
    (Event::Retire(0), None),
    (Event::Retire(0), Some(StepRefused::Retired)),
];

#[test]
fn two_members_take_extents_finish_and_retire(rt: HostRuntime) -> Result<(), Fail> {
    let disk = one_shard(rt.alloc())?;
    let plan = plan_of(rt.alloc(), &disk)?;
    let mut pool = PoolCore::new(rt.alloc(), &disk, &plan, 2)?;
    check_steps(&rt, &mut pool, &BEFORE);
    let mut pool = came_back(&rt, pool)?;
    check_steps(&rt, &mut pool, &AFTER);
    check_complete(&rt, rt.alloc(), &disk, pool, &[2, 1])
}

#[test]
fn a_pool_of_no_workers_takes_nothing(rt: HostRuntime) -> Result<(), Fail> {
    let disk = one_shard(rt.alloc())?;
    let plan = plan_of(rt.alloc(), &disk)?;
    let mut pool = PoolCore::new(rt.alloc(), &disk, &plan, 0)?;
    check_steps(
        &rt,
        &mut pool,
        &[(Event::Take(0), Some(StepRefused::NoWorker))],
    );
    let pool = came_back(&rt, pool)?;
    assert!(&rt; pool.arrivals().is_empty());
    Ok(())
}

/// Two schedules of three members over three planned extents. They differ in who takes what, who is done
/// first and who retires first.
const SCHEDULES: [([Event; 9], [u32; 3]); 2] = [
    (
        [
            Event::Take(0),
            Event::Take(1),
            Event::Take(2),
            Event::Done(0),
            Event::Done(1),
            Event::Done(2),
            Event::Retire(0),
            Event::Retire(1),
            Event::Retire(2),
        ],
        [1, 2, 3],
    ),
    (
        [
            Event::Retire(1),
            Event::Take(2),
            Event::Take(0),
            Event::Done(0),
            Event::Take(0),
            Event::Done(0),
            Event::Done(2),
            Event::Retire(0),
            Event::Retire(2),
        ],
        [2, 3, 1],
    ),
];

/// Runs a schedule without a refused step, and checks the arrivals and the findings.
fn check_schedule(
    rt: &impl Abort,
    alloc: Global,
    disk: &MemDisk,
    events: &[Event],
    arrivals: &[u32],
) -> Result<(), Fail> {
    let plan = plan_of(alloc, disk)?;
    let mut pool = PoolCore::new(alloc, disk, &plan, 3)?;
    for event in events {
        assert!(rt;
            pool.step(*event).is_ok(),
            "no step of the schedule is refused"
        );
    }
    check_complete(rt, alloc, disk, pool, arrivals)
}

#[test]
fn two_schedules_find_the_same(rt: HostRuntime) -> Result<(), Fail> {
    let mut disk = MemDisk::blank(rt.alloc(), Geometry::new(64, 4, 4)?)?;
    put_chunk(rt.alloc(), &mut disk, 2, 0, ONES, b"abc")?;
    put_superblock(rt.alloc(), &mut disk, &[64, 41, 256], &[])?;
    for (events, arrivals) in &SCHEDULES {
        check_schedule(&rt, rt.alloc(), &disk, events, arrivals)?;
    }
    Ok(())
}
