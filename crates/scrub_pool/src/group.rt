//! The extents that a worker scans together. For how it takes the first of them, see `worker`.

ghost use Rattle.std.specs.Prelude.{◌≡◌, ◌+◌, ◌<◌, ◌≤◌, ◌++◌, ◌∷◌, All, Contains, None, OnOk, IfOk, drop};
ghost use Rattle.std.specs.Prelude.{length, slice_get, take};
ghost use Rattle.scrub_book.specs.Worker.{held_by, taken_by, results_of, spare_of};
ghost use Rattle.scrub_pool.specs.steps.Working.{IsPassFor, IsSamePart, AreResults};

use crate::OutOfMemory;
use crate::extent_queue::TakePass;
use crate::gate::Gate;
use crate::job::Job;
use crate::tally::{Tally, count};
use scrub_book::WorkerCore;
use scrub_disk::PageSource;
use scrub_scan::{Workspace, scan_extents_in};
use std::sync::ledger::{Ledger, Share};
use std::sync::{Mutex, Wait};

/// The most extents that are scanned together.
pub(crate) const MOST_TOGETHER: usize = 8;

/// The most bytes of extents that are scanned together, unless one alone has more: as many as the payloads
/// that are gathered before they are hashed.
const MOST_BYTES: usize = 1 << 23;

/// How many extents a worker that took this one scans together: as many as fill a batch of payloads, or
/// fewer if few are left for all workers.
fn wanted<G: Gate>(job: &Job<'_, G>, extent: u32) -> usize
    ensures { result ≤ 8 }
{
    let fill = MOST_BYTES / (job.plan.geometry().extent_bytes() as usize).max(1);
    if job.workers == 0 {
        return fill.min(MOST_TOGETHER);
    }
    let last = match job.plan.planned().last() {
        Some(last) => *last,
        None => extent,
    };
    let left = last.saturating_sub(extent) as usize;
    let fair = left / (2 * (job.workers as usize + 1));
    fill.min(fair).min(MOST_TOGETHER)
}

/// Takes more extents, to be scanned together with this one. Returns all of them.
pub(crate) fn take_more<G: Gate, R: Wait>(
    rt: &R,
    job: &Job<'_, G>,
    number: u32,
    pass: &mut TakePass,
    extent: u32,
) -> Result<Vec<u32>, OutOfMemory>
    requires pass { IsPassFor job.now.queue.now job.now.plan.now.planned pass.old }
    requires planned { Contains job.now.plan.now.planned extent }
    ensures pass { IsSamePart pass.old pass.new }
    ensures same { IsPassFor job.now.queue.now job.now.plan.now.planned pass.new }
    ensures first { IfOk result (λ v. v.items ≡ extent ∷ drop 1 v.items) }
    ensures own { IfOk result (λ v. pass.new.own ≡ pass.old.own ++ drop 1 v.items) }
    ensures planned { IfOk result (λ v. All (λ e. Contains job.now.plan.now.planned e) v.items) }
    ensures few { IfOk result (λ v. length v.items ≤ 8) }
{
    let mut group = Vec::from_array(job.alloc, [extent])?;
    for taken in 1..wanted(job, extent) {
        let Some(more) = job.queue.take(rt, pass) else {
            return Ok(group);
        };
        job.gate.passed(number, more);
        group.push(more)?;
    }
    Ok(group)
}

/// Has a worker hold the extent of this number in a group, if there is one.
fn hold<'d, D: PageSource>(core: &mut WorkerCore<'d, D>, group: &[u32], number: usize)
    requires free { held_by core.old ≡ None }
    requires room { number < length group.now → 1 ≤ spare_of core.old }
    ensures held { held_by core.new ≡ slice_get group.now number }
    ensures taken { taken_by core.new ≡ taken_by core.old ++ take 1 (drop number group.now) }
    ensures results { results_of core.new ≡ results_of core.old }
    ensures spare { spare_of core.new ≡ spare_of core.old }
{
    if number >= group.len() {
        return;
    }
    core.took(group[number]);
}

/// Scans and counts the extents of a group, the first of which the worker holds. An error means that memory
/// ran out.
pub(crate) fn scan_taken<'d, D: PageSource, L: Ledger + Send + Sync, G: Gate, R: Wait>(
    rt: &R,
    disk: &'d D,
    job: &Job<'_, G>,
    tally: &Mutex<Tally<L>>,
    core: &mut WorkerCore<'d, D>,
    share: &mut Share<L>,
    number: u32,
    workspace: &mut Workspace,
    group: &[u32],
) -> Result<(), OutOfMemory>
    requires geometry { job.now.plan.now.geometry ≡ (D.image disk.now).geometry }
    requires planned { All (λ e. Contains job.now.plan.now.planned e) group.now }
    requires some { 0 < length group.now }
    requires held { held_by core.old ≡ slice_get group.now 0 }
    requires room { length group.now ≤ spare_of core.old }
    requires part { share.old.parts ≡ 1 }
    requires counted { share.old.amount ≡ length (results_of core.old) }
    requires results { AreResults (D.image disk.now) job.now.plan.now (results_of core.old) }
    ensures results { AreResults (D.image disk.now) job.now.plan.now (results_of core.new) }
    ensures taken { held_by core.new ≡ None → taken_by core.new ≡ taken_by core.old ++ drop 1 group.now }
    ensures part { share.new.parts ≡ 1 }
    ensures free { OnOk result (held_by core.new ≡ None) }
    ensures counted { OnOk result (share.new.amount ≡ length (results_of core.new)) }
{
    let results = scan_extents_in(job.alloc, workspace, disk, job.plan, group)?;
    let mut done = 0;
    for found in results {
        done += 1;
        core.done(found);
        hold(core, group, done);
        let Some(total) = count(rt, tally, share) else {
            return Err(OutOfMemory);
        };
        job.gate.counted(number, total);
    }
    Ok(())
}
