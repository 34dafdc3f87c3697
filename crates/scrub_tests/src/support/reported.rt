//! What scrubs answer for a disk, by one reader and by workers.

ghost use Rattle.std.specs.Prelude.{◌≤◌};

use scrub_disk::PageSource;
use scrub_pool::{Gate, Takings};
use scrub_report::{ScrubAnswer, ScrubFault, scrub, scrub_in_order};
use std::alloc::Global;
use std::sync::Wait;
use std::test::Fail;
use std::thread::Threads;

/// The answer of a scrub by one reader.
pub(crate) fn scrubbed<D: PageSource, R: Threads + Sync>(
    rt: &R,
    alloc: Global,
    disk: &D,
) -> Result<ScrubAnswer, Fail> {
    match scrub_in_order(rt, alloc, disk) {
        Ok(answer) => Ok(answer),
        Err(ScrubFault::OutOfMemory) => Err(Fail::from("out of memory")),
    }
}

/// The answer of a scrub by `workers` workers and the caller, and which worker took which extents.
pub(crate) fn scrubbed_by<D: PageSource, G: Gate, R: Threads + Wait + Sync>(
    rt: &R,
    alloc: Global,
    disk: &D,
    workers: u32,
    gate: &G,
) -> Result<(ScrubAnswer, Takings), Fail>
    requires { workers ≤ 64 }
{
    match scrub(rt, alloc, disk, workers, gate) {
        Ok(found) => Ok(found),
        Err(ScrubFault::OutOfMemory) => Err(Fail::from("out of memory")),
    }
}
