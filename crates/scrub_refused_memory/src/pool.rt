//! Books that collect results, pools without threads, queues that workers take from, and a scan by workers.

ghost use Rattle.std.specs.Prelude.{◌≡◌, ◌≤◌};

use crate::calls::Trial;
use crate::disks::{one_shard, restricted};
use crate::ending::{Stop, Wanted, refused, right};
use crate::scans::{are_of_one_shard, run_chunk, scan_planned};
use crate::takings::{WORKERS, is_partition};
use scrub_book::{Book, Event, PoolCore, StepRefused, WorkerCore};
use scrub_disk::MemDisk;
use scrub_fakes::payloads::one_shard_payload;
use scrub_fakes::plan_of;
use scrub_fakes::worked::{four_extents, many_shards};
use scrub_pool::{ExtentQueue, NoGate, TakePass};
use std::alloc::Global;
use std::io::Write;
use std::sync::Wait;
use std::thread::Threads;

/// A book of extents 1 and 3 of four, to which both results are added.
pub fn new_book(alloc: Global, wanted: Wanted) -> Result<(), Stop> {
    let disk = four_extents(alloc)?;
    let plan = restricted(alloc, &disk, Wanted::Answer)?;
    let first = scan_planned(alloc, &disk, &plan, 1)?;
    let third = scan_planned(alloc, &disk, &plan, 3)?;
    wanted.made()?;
    let mut book = Book::new(alloc, &disk, &plan)?;
    right(book.missing() == Some(1))?;
    right(book.add(third).is_ok())?;
    right(book.missing() == Some(1))?;
    right(book.add(first).is_ok())?;
    match book.finish() {
        Ok(found) => right(found.len() == 2),
        Err(_) => Err(Stop::Wrong),
    }
}

/// Whether a worker retires, with these extents taken and their results.
fn retires_with(core: WorkerCore<'_, MemDisk>, taken: &[u32]) -> bool {
    match core.retire() {
        Ok(retired) => retired.taken() == taken && retired.results().len() == taken.len(),
        Err(_) => false,
    }
}

/// Room for an extent, which is then taken and scanned, and then room for more.
pub fn reserve(alloc: Global, wanted: Wanted) -> Result<(), Stop> {
    let (disk, _) = one_shard(alloc)?;
    let plan = plan_of(alloc, &disk)?;
    let found = scan_planned(alloc, &disk, &plan, 1)?;
    let mut core = WorkerCore::new(alloc);
    wanted.made()?;
    match core.reserve(1) {
        Ok(()) => {}
        Err(_) => return refused(retires_with(core, &[])),
    }
    core.took(1);
    core.done(found);
    match core.reserve(64) {
        Ok(()) => right(retires_with(core, &[1])),
        Err(_) => refused(retires_with(core, &[1])),
    }
}

/// Checks the answers to steps of a pool that take no memory.
fn check_steps(
    pool: &mut PoolCore<'_, MemDisk>,
    steps: &[(Event, Result<(), StepRefused>)],
) -> Result<(), Stop> {
    for (event, outcome) in steps {
        right(pool.step(*event) == *outcome)?;
    }
    Ok(())
}

/// Two members that each take an extent.
const TAKING: [(Event, Result<(), StepRefused>); 5] = [
    (Event::Take(0), Ok(())),
    (Event::Take(0), Err(StepRefused::Busy)),
    (Event::Done(1), Err(StepRefused::Idle)),
    (Event::Take(1), Ok(())),
    (Event::Take(2), Err(StepRefused::NoWorker)),
];

/// Both retire once they are done.
const RETIRING: [(Event, Result<(), StepRefused>); 4] = [
    (Event::Take(0), Err(StepRefused::QueueEmpty)),
    (Event::Retire(1), Ok(())),
    (Event::Retire(0), Ok(())),
    (Event::Retire(0), Err(StepRefused::Retired)),
];

/// A pool of two members, who each take an extent.
pub fn new_pool(alloc: Global, wanted: Wanted) -> Result<(), Stop> {
    let (disk, _) = one_shard(alloc)?;
    let plan = plan_of(alloc, &disk)?;
    wanted.made()?;
    let mut pool = PoolCore::new(alloc, &disk, &plan, 2)?;
    check_steps(&mut pool, &TAKING)?;
    right(pool.arrivals().is_empty() && !pool.is_complete())
}

/// Marks a member as done. If that is refused, the member still holds its extent, so that it can't take
/// another.
fn done(pool: &mut PoolCore<'_, MemDisk>, member: u32) -> Result<(), Stop> {
    match pool.step(Event::Done(member)) {
        Ok(()) => right(pool.arrivals().is_empty()),
        Err(StepRefused::OutOfMemory) => {
            let taken = pool.step(Event::Take(member));
            refused(taken == Err(StepRefused::Busy) && pool.arrivals().is_empty())
        }
        Err(_) => Err(Stop::Wrong),
    }
}

/// The steps by which the two members of a pool are done and then retire.
pub fn step(alloc: Global, wanted: Wanted) -> Result<(), Stop> {
    let (disk, _) = one_shard(alloc)?;
    let run = run_chunk(&one_shard_payload(alloc)?);
    let plan = plan_of(alloc, &disk)?;
    let mut pool = PoolCore::new(alloc, &disk, &plan, 2)?;
    check_steps(&mut pool, &TAKING)?;
    wanted.made()?;
    done(&mut pool, 1)?;
    done(&mut pool, 0)?;
    check_steps(&mut pool, &RETIRING)?;
    right(pool.arrivals() == [2, 1].as_slice())?;
    match pool.finish() {
        Ok(found) => right(are_of_one_shard(&found, &run)),
        Err(_) => Err(Stop::Wrong),
    }
}

/// Checks that a queue gives these extents, one after another, and then none.
fn takes<R: Wait>(
    rt: &R,
    queue: &ExtentQueue,
    pass: &mut TakePass,
    extents: &[u32],
) -> Result<(), Stop>
    requires { pass.old.queue ≡ queue.now }
{
    for extent in extents {
        if queue.take(rt, pass) != Some(*extent) {
            return Err(Stop::Wrong);
        }
    }
    right(queue.take(rt, pass).is_none())
}

/// The queue of 39 extents.
pub fn new_queue<R: Wait>(rt: &R, alloc: Global, wanted: Wanted) -> Result<(), Stop> {
    let (disk, _) = many_shards(alloc)?;
    let plan = plan_of(alloc, &disk)?;
    wanted.made()?;
    let (queue, mut first) = ExtentQueue::new(rt, alloc, &plan)?;
    takes(rt, &queue, &mut first, plan.planned())
}

/// A second pass of that queue takes the first extent, and is joined into the first pass, which takes all
/// others.
pub fn split<R: Wait>(rt: &R, alloc: Global, wanted: Wanted) -> Result<(), Stop> {
    let (disk, _) = many_shards(alloc)?;
    let plan = plan_of(alloc, &disk)?;
    let (queue, mut first) = ExtentQueue::new(rt, alloc, &plan)?;
    wanted.made()?;
    let mut second = queue.split(rt, alloc, &mut first)?;
    let taken = queue.take(rt, &mut second);
    queue.join(rt, &mut first, second);
    right(taken == Some(1))?;
    takes(
        rt,
        &queue,
        &mut first,
        plan.planned().get(1..).ok_or(Stop::Wrong)?,
    )
}

/// Scans the disk with one shard, by `workers` workers and the caller.
pub fn scan_all<R: Threads + Wait + Sync>(
    rt: &R,
    alloc: Global,
    wanted: Wanted,
    workers: u32,
) -> Result<(), Stop>
    requires { workers ≤ 64 }
{
    let (disk, _) = one_shard(alloc)?;
    let run = run_chunk(&one_shard_payload(alloc)?);
    let plan = plan_of(alloc, &disk)?;
    let (queue, mut first) = ExtentQueue::new(rt, alloc, &plan)?;
    wanted.made()?;
    let (found, takings) = scrub_pool::scan_all(
        rt, alloc, &disk, &plan, &queue, &mut first, workers, &NoGate,
    )?;
    right(are_of_one_shard(&found, &run) && is_partition(&takings, workers))
}

/// The calls of this module.
pub fn calls<R: Threads + Wait + Sync, O: Write>(rt: &R, alloc: Global, trial: &mut Trial<'_, O>) {
    made!(trial, "Book::new", "", wanted => new_book(alloc, wanted));
    made!(trial, "WorkerCore::reserve", "", wanted => reserve(alloc, wanted));
    made!(trial, "PoolCore::new", "", wanted => new_pool(alloc, wanted));
    made!(trial, "PoolCore::step", "", wanted => step(alloc, wanted));
    made!(trial, "ExtentQueue::new", "", wanted => new_queue(rt, alloc, wanted));
    made!(trial, "ExtentQueue::split", "", wanted => split(rt, alloc, wanted));
    for workers in WORKERS {
        made!(trial, "scan_all", workers.word(), wanted => scan_all(rt, alloc, wanted, workers.count()));
    }
}
