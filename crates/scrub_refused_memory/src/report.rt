//! Whole scrubs, compared with the published reports.

ghost use Rattle.std.specs.Prelude.{◌≤◌};

use crate::calls::Trial;
use crate::disks::{one_shard, twins_and_shared};
use crate::ending::{Stop, Wanted, right};
use crate::takings::{WORKERS, is_partition};
use scrub_fakes::payloads::{one_shard_payload, two_shards_payload};
use scrub_fakes::published::{ONE_SHARD, TWINS};
use scrub_pool::NoGate;
use scrub_report::ScrubAnswer;
use std::alloc::Global;
use std::io::Write;
use std::sync::Wait;
use std::thread::Threads;

/// Whether an answer has this report and index, and is clean or not.
fn is_answer(answer: &ScrubAnswer, report: &str, index: &[u8], is_clean: bool) -> bool {
    answer.report() == report.as_bytes() && answer.index() == index && answer.is_clean() == is_clean
}

/// Scrubs the disk of twins and a shared place, by one reader.
pub fn scrub_in_order<R: Threads + Sync>(
    rt: &R,
    alloc: Global,
    wanted: Wanted,
) -> Result<(), Stop> {
    let (disk, _) = twins_and_shared(alloc)?;
    let index = two_shards_payload(alloc)?;
    wanted.made()?;
    let answer = scrub_report::scrub_in_order(rt, alloc, &disk)?;
    right(is_answer(&answer, TWINS, &index, false))
}

/// Scrubs the disk with one shard, by `workers` workers and the caller.
pub fn scrub<R: Threads + Wait + Sync>(
    rt: &R,
    alloc: Global,
    wanted: Wanted,
    workers: u32,
) -> Result<(), Stop>
    requires { workers ≤ 64 }
{
    let (disk, _) = one_shard(alloc)?;
    let index = one_shard_payload(alloc)?;
    wanted.made()?;
    let (answer, takings) = scrub_report::scrub(rt, alloc, &disk, workers, &NoGate)?;
    right(is_answer(&answer, ONE_SHARD, &index, true) && is_partition(&takings, workers))
}

/// The calls of this module.
pub fn calls<R: Threads + Wait + Sync, O: Write>(rt: &R, alloc: Global, trial: &mut Trial<'_, O>) {
    made!(trial, "scrub_in_order", "", wanted => scrub_in_order(rt, alloc, wanted));
    for workers in WORKERS {
        made!(trial, "scrub", workers.word(), wanted => scrub(rt, alloc, wanted, workers.count()));
    }
}
