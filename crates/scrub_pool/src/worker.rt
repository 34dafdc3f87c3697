//! One worker: it takes extents until none is left, scans each, and counts it. For its thread, see `crew`.

ghost use Rattle.std.specs.Prelude.{◌≡◌, ◌+◌, ◌<◌, true, None, [], All, length, OnOk, IfSome};
ghost use Rattle.std.specs.List.Sorted.{IsStrictlyIncreasing};
ghost use Rattle.scrub_book.specs.Worker.{held_by, results_of};
ghost use Rattle.scrub_pool.specs.Passes.{HasTakenAll};
ghost use Rattle.scrub_pool.specs.steps.Working.{IsPassFor, IsSamePart, IsAtWork};

use crate::OutOfMemory;
use crate::extent_queue::TakePass;
use crate::gate::Gate;
use crate::group::{MOST_TOGETHER, scan_taken, take_more};
use crate::job::Job;
use crate::tally::{Tally, claim};
use scrub_book::WorkerCore;
use scrub_disk::PageSource;
use scrub_scan::Workspace;
use std::sync::ledger::{Ledger, Share};
use std::sync::{Mutex, Wait};

/// Takes extents until none is left, some at a time, and scans and counts each. An error means that memory
/// ran out.
pub(crate) fn take_until_empty<'d, D: PageSource, L: Ledger + Send + Sync, G: Gate, R: Wait>(
    rt: &R,
    disk: &'d D,
    job: &Job<'_, G>,
    tally: &Mutex<Tally<L>>,
    core: &mut WorkerCore<'d, D>,
    share: &mut Share<L>,
    number: u32,
    pass: &mut TakePass,
) -> Result<(), OutOfMemory>
    requires geometry { job.now.plan.now.geometry ≡ (D.image disk.now).geometry }
    requires free { held_by core.old ≡ None }
    requires part { share.old.parts ≡ 1 }
    requires counted { share.old.amount ≡ length (results_of core.old) }
    requires working { IsAtWork job.now.queue.now job.now.plan.now (D.image disk.now) pass.old core.old }
    ensures pass { IsSamePart pass.old pass.new }
    ensures working { IsAtWork job.now.queue.now job.now.plan.now (D.image disk.now) pass.new core.new }
    ensures part { share.new.parts ≡ 1 }
    ensures free { OnOk result (held_by core.new ≡ None) }
    ensures counted { OnOk result (share.new.amount ≡ length (results_of core.new)) }
    ensures all { OnOk result (pass.new.first ≡ true → pass.new.out ≡ 0 → HasTakenAll pass.new) }
    ensures rising { OnOk result
        (IsStrictlyIncreasing pass.new.own × All IsStrictlyIncreasing pass.new.joined) }
{
    let mut workspace = Workspace::new(job.alloc);
    for _ in rt.forever() {
        core.reserve(MOST_TOGETHER)?;
        let Some(extent) = job.queue.take(rt, pass) else {
            return Ok(());
        };
        core.took(extent);
        job.gate.passed(number, extent);
        let group = take_more(rt, job, number, pass, extent)?;
        scan_taken(
            rt,
            disk,
            job,
            tally,
            core,
            share,
            number,
            &mut workspace,
            &group,
        )?;
    }
    unreachable!()
}

/// Runs one worker, with a core and a part of the ledger of its own. A missing share means that memory ran
/// out.
pub(crate) fn run_worker<'d, D: PageSource, L: Ledger + Send + Sync, G: Gate, R: Wait>(
    rt: &R,
    disk: &'d D,
    job: &Job<'_, G>,
    tally: &Mutex<Tally<L>>,
    number: u32,
    pass: &mut TakePass,
) -> (WorkerCore<'d, D>, Option<Share<L>>)
    requires geometry { job.now.plan.now.geometry ≡ (D.image disk.now).geometry }
    requires pass { IsPassFor job.now.queue.now job.now.plan.now.planned pass.old }
    requires nothing { pass.old.own ≡ [] }
    ensures pass { IsSamePart pass.old pass.new }
    ensures working { IsAtWork job.now.queue.now job.now.plan.now (D.image disk.now) pass.new result.0 }
    ensures whole { IfSome result.1 (λ s. (held_by result.0 ≡ None) × (s.parts ≡ 1) ×
        (s.amount ≡ length (results_of result.0))) }
{
    let mut core = WorkerCore::new(job.alloc);
    let Some(mut share) = claim(rt, tally) else {
        return (core, None);
    };
    match take_until_empty(rt, disk, job, tally, &mut core, &mut share, number, pass) {
        Ok(()) => (core, Some(share)),
        Err(_) => (core, None),
    }
}
