//! Disks whose superblock retires extents: which pages are asked for, what workers take, and a pool over
//! nothing.

ghost use Rattle.std.specs.Prelude.{◌≤◌};

use crate::support::compare::{check_answer, same};
use crate::support::reported::{scrubbed, scrubbed_by};
use scrub_book::{Book, Event, PoolCore, StepRefused};
use scrub_disk::{Geometry, MemDisk, PageSource};
use scrub_fakes::payloads::put_run;
use scrub_fakes::published::NO_SHARDS;
use scrub_fakes::worked::put_abc_and_its_run;
use scrub_fakes::{
    CountingSource, ONES, TWOS, abc_at, mark_bad, put, put_chunk, put_contents, small_disk,
};
use scrub_frame::Locator;
use scrub_pool::{NoGate, Takings};
use scrub_super::{Plan, Superblock, choose};
use std::alloc::Global;
use std::process::Abort;
use std::slice;
use std::sync::Wait;
use std::test::Fail;
use std::thread::Threads;

/// Puts a superblock record that retires extents on page 0 of extent 0. Returns its length in bytes.
fn put_retiring(
    alloc: Global,
    disk: &mut MemDisk,
    pointers: &[u32],
    retired: &[u32],
    runs: &[Locator],
) -> Result<usize, Fail> {
    let superblock = Superblock::with_retired(
        1,
        Vec::from_slice(alloc, pointers)?,
        Vec::from_slice(alloc, retired)?,
        Vec::from_slice(alloc, runs)?,
    );
    Ok(put_contents(alloc, disk, 0, &superblock)?)
}

/// A disk of three extents with `abc` in extent 1 and the run of one shard that names it in extent 2. Extents
/// `retired` are retired. The record has `length` bytes.
fn one_shard_retiring(
    rt: &impl Abort,
    alloc: Global,
    retired: &[u32],
    length: usize,
) -> Result<MemDisk, Fail> {
    let mut disk = small_disk(alloc)?;
    let run = put_abc_and_its_run(alloc, &mut disk)?;
    let runs = slice::from_ref(&run);
    let put = put_retiring(alloc, &mut disk, &[41, 155], retired, runs)?;
    same(rt, put, length);
    Ok(disk)
}

/// A disk of four extents with `abc` in extent 1 and the run of one shard that names it in extent 2. Extent 3
/// is retired; it is full of FF, and its page 0 is unreadable.
fn broken_and_retired(rt: &impl Abort, alloc: Global) -> Result<MemDisk, Fail> {
    let mut disk = MemDisk::blank(alloc, Geometry::new(64, 4, 4)?)?;
    put_chunk(alloc, &mut disk, 1, 0, ONES, b"abc")?;
    let run = put_run(alloc, &mut disk, 2, 0, TWOS, &[abc_at(1, 0)])?;
    put(&mut disk, 3, 0, &[0xFF; 256])?;
    mark_bad(&mut disk, 3, 0)?;
    let runs = slice::from_ref(&run);
    let put = put_retiring(alloc, &mut disk, &[41, 155, 0], &[3], runs)?;
    same(rt, put, 136);
    Ok(disk)
}

/// Scrubs a disk with `workers` workers, and compares the answer with that of one reader. Returns which
/// worker took which extents.
fn check_workers<R: Threads + Wait + Abort + Sync>(
    rt: &R,
    alloc: Global,
    disk: &MemDisk,
    workers: u32,
) -> Result<Takings, Fail>
    requires { workers ≤ 64 }
{
    let (answer, takings) = scrubbed_by(rt, alloc, disk, workers, &NoGate)?;
    check_answer(rt, &answer, &scrubbed(rt, alloc, disk)?);
    Ok(takings)
}

/// Checks that pages of extent 2 were asked for, and none of extent 3.
fn check_asked(rt: &impl Abort, source: &CountingSource<'_>) {
    assert!(rt; source.geometry().extents() == 4);
    assert!(rt; source.reads_of(2) >= 4);
    same(rt, source.reads_of(3), 0);
}

/// Checks which pages a scrub by `workers` workers asks for.
fn check_asked_by<R: Threads + Wait + Abort + Sync>(
    rt: &R,
    alloc: Global,
    disk: &MemDisk,
    workers: u32,
) -> Result<(), Fail>
    requires { workers ≤ 64 }
{
    let source = CountingSource::new(alloc, disk)?;
    let (answer, _) = scrubbed_by(rt, alloc, &source, workers, &NoGate)?;
    assert!(rt; answer.is_clean());
    check_asked(rt, &source);
    Ok(())
}

/// Neither by one reader nor by any number of workers.
#[test]
fn no_page_of_a_retired_extent_is_asked_for(rt: HostRuntime) -> Result<(), Fail> {
    let disk = broken_and_retired(&rt, rt.alloc())?;
    let source = CountingSource::new(rt.alloc(), &disk)?;
    assert!(&rt; scrubbed(&rt, rt.alloc(), &source)?.is_clean());
    check_asked(&rt, &source);
    for workers in [0, 2, 64] {
        check_asked_by(&rt, rt.alloc(), &disk, workers)?;
    }
    Ok(())
}

#[test]
fn nothing_is_scanned_if_all_extents_are_retired(rt: HostRuntime) -> Result<(), Fail> {
    let disk = one_shard_retiring(&rt, rt.alloc(), &[1, 2], 136)?;
    let answer = scrubbed(&rt, rt.alloc(), &disk)?;
    assert!(&rt; !answer.is_clean());
    same(&rt, answer.index(), NO_SHARDS.as_slice());
    for workers in [0, 2, 64] {
        let takings = check_workers(&rt, rt.alloc(), &disk, workers)?;
        same(&rt, takings.counted(), 0);
        for worker in 0..=takings.workers() {
            assert!(&rt; takings.taken_by(worker).is_empty());
        }
    }
    Ok(())
}

/// Checks that a book without planned extents is complete, and that a pool without them is complete after
/// these steps. Both find nothing.
fn check_pool(
    rt: &impl Abort,
    alloc: Global,
    disk: &MemDisk,
    workers: u32,
    steps: &[(Event, Option<StepRefused>)],
) -> Result<(), Fail>
    requires { workers ≤ 65 }
{
    let chosen = choose(alloc, disk)?;
    let plan = Plan::make(alloc, &chosen, disk.geometry())?;
    assert!(rt; plan.planned().is_empty());
    let book = Book::new(alloc, disk, &plan)?;
    assert!(rt; book.missing().is_none());
    let found = book.finish().ok().ok_or("a book to which all came")?;
    same(rt, found.len(), 0);
    let mut pool = PoolCore::new(alloc, disk, &plan, workers)?;
    for (event, wanted) in steps {
        assert!(rt; !pool.is_complete());
        same(rt, pool.step(*event).err(), *wanted);
    }
    assert!(rt; pool.is_complete());
    let found = pool.finish().ok().ok_or("what a complete pool assembles")?;
    same(rt, found.len(), 0);
    Ok(())
}

#[test]
fn a_pool_over_nothing_is_complete_once_its_members_have_retired(
    rt: HostRuntime,
) -> Result<(), Fail> {
    let disk = one_shard_retiring(&rt, rt.alloc(), &[1, 2], 136)?;
    check_pool(&rt, rt.alloc(), &disk, 0, &[])?;
    let steps = [
        (Event::Take(0), Some(StepRefused::QueueEmpty)),
        (Event::Retire(0), None),
    ];
    check_pool(&rt, rt.alloc(), &disk, 1, &steps)
}
