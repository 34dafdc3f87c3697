//! A shard that is read by any number of workers: its bytes, who took what, and what the gate saw.

ghost use Rattle.std.specs.Prelude.{◌≤◌};

use crate::scrubs::shards::{Expected, check_answer, shard_on};
use crate::workers::watch::Watch;
use scrub_disk::{MemDisk, PageSource};
use scrub_fakes::worked::many_shards;
use scrub_fakes::{plan_of, shard_of};
use std::alloc::Global;
use std::process::Abort;
use std::sync::Wait;
use std::test::Fail;
use std::thread::Threads;
use std::time::Clock;

/// Reads a shard of a disk with `workers` workers and the caller. Each is held at its first extent until
/// `held` of them have passed with one. Checks the bytes, and compares who took what with what the gate saw.
fn check_reading<R: Threads + Wait + Abort + Clock + Sync>(
    rt: &R,
    alloc: Global,
    disk: &MemDisk,
    workers: u32,
    held: usize,
) -> Result<(), Fail>
    requires { workers ≤ 64 }
{
    let plan = plan_of(alloc, disk)?;
    let watch = Watch::new(rt, alloc, workers + 1, disk.geometry().extents(), held)?;
    let (answer, takings) = shard_on(rt, alloc, disk, workers, &watch, shard_of(38))?;
    watch.check(rt, &takings, plan.planned());
    check_answer(rt, answer, Expected::Found(b"abc", false));
    Ok(())
}

#[test]
fn any_number_of_workers_reads_the_same_shard(rt: HostRuntime) -> Result<(), Fail> {
    let (disk, _) = many_shards(rt.alloc())?;
    for workers in [0, 1, 3, 7] {
        let all = workers as usize + 1;
        check_reading(&rt, rt.alloc(), &disk, workers, all)?;
    }
    check_reading(&rt, rt.alloc(), &disk, 2, 0)?;
    check_reading(&rt, rt.alloc(), &disk, 64, 39)
}
