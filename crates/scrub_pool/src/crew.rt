//! The workers besides the caller, each on a thread of its own. For what one worker does, see `worker`.

ghost use Rattle.std.specs.Thread.{IsSync};
ghost use Rattle.std.specs.Prelude.{◌≡◌, ◌+◌, ◌<◌, None, [], All, length, IfSome, vec_len};
ghost use Rattle.scrub_book.specs.Worker.{held_by, results_of};
ghost use Rattle.scrub_pool.specs.steps.Working.{IsPassFor, IsSamePart, IsAtWork, AreNewMembers, HasEnded};
ghost use Rattle.scrub_pool.specs.steps.Working.{AreDone};

use crate::extent_queue::TakePass;
use crate::gate::Gate;
use crate::job::Job;
use crate::tally::{Tally, nothing};
use crate::worker::run_worker;
use scrub_book::WorkerCore;
use scrub_disk::PageSource;
use std::mem;
use std::sync::ledger::{Ledger, Share};
use std::sync::{Mutex, Wait};
use std::thread::{Threads, join_mut};

/// A worker that hasn't begun: its number, and a pass that took nothing.
#[derive(Drop)]
pub(crate) struct NewMember {
    pub(crate) number: u32,
    pub(crate) pass: TakePass,
}

/// A worker that has ended: its pass, and what it took and found.
#[derive(Drop)]
pub(crate) struct Member<'d, D: PageSource> {
    pub(crate) pass: TakePass,
    pub(crate) core: WorkerCore<'d, D>,
}

/// Runs a crew, which begins on a new thread, and one more worker, on this thread, at the same time. An empty
/// crew starts no thread. A missing share means that memory ran out.
#[cycle(crew)]
pub(crate) fn run_crew_and_worker<
    'd,
    D: PageSource,
    L: Ledger + Send + Sync,
    G: Gate,
    R: Threads + Wait + Sync,
>(
    rt: &R,
    disk: &'d D,
    job: &Job<'_, G>,
    tally: &Mutex<Tally<L>>,
    crew: Vec<NewMember>,
    number: u32,
    first: &mut TakePass,
) -> (
    (Vec<Member<'d, D>>, Option<Share<L>>),
    (WorkerCore<'d, D>, Option<Share<L>>),
)
    requires geometry { job.now.plan.now.geometry ≡ (D.image disk.now).geometry }
    requires first { IsPassFor job.now.queue.now job.now.plan.now.planned first.old }
    requires nothing { first.old.own ≡ [] }
    requires crew { AreNewMembers job.now.queue.now job.now.plan.now.planned crew.items }
    ensures members { All (λ m. HasEnded job.now.queue.now job.now.plan.now (D.image disk.now) m)
        result.0.0.items }
    ensures theirs { IfSome result.0.1 (λ s.
        AreDone s.parts s.amount result.0.0.items × (vec_len result.0.0 ≡ vec_len crew)) }
    ensures pass { IsSamePart first.old first.new }
    ensures core { IsAtWork job.now.queue.now job.now.plan.now (D.image disk.now) first.new result.1.0 }
    ensures mine { IfSome result.1.1 (λ s.
        (held_by result.1.0 ≡ None) × (s.parts ≡ 1) × (s.amount ≡ length (results_of result.1.0))) }
{
    if crew.is_empty() {
        let none = run_crew(rt, disk, job, tally, crew);
        return (none, run_worker(rt, disk, job, tally, number, first));
    }
    let mut crew = crew;
    join_mut(
        rt,
        &mut || -> (Vec<Member<D>>, Option<Share<L>>)
            requires sync { IsSync R.row }
            requires geometry { job.now.plan.now.geometry ≡ (D.image disk.now).geometry }
            requires crew { AreNewMembers job.now.queue.now job.now.plan.now.planned crew.items }
            ensures members { All (λ m.
                HasEnded job.entry.now.queue.now job.entry.now.plan.now (D.image disk.entry.now) m)
                result.0.items }
            ensures theirs { IfSome result.1 (λ s.
                AreDone s.parts s.amount result.0.items × (vec_len result.0 ≡ vec_len crew.entry)) }
        {
            let all = mem::replace(&mut crew, Vec::new(job.alloc));
            run_crew(rt, disk, job, tally, all)
        },
        &mut || -> (WorkerCore<D>, Option<Share<L>>)
            requires geometry { job.now.plan.now.geometry ≡ (D.image disk.now).geometry }
            requires first { IsPassFor job.now.queue.now job.now.plan.now.planned first.now }
            requires nothing { first.now.own ≡ [] }
            ensures pass { IsSamePart first.entry.now first.exit.now }
            ensures core { IsAtWork job.entry.now.queue.now job.entry.now.plan.now (D.image disk.entry.now)
                first.exit.now result.0 }
            ensures mine { IfSome result.1 (λ s. (held_by result.0 ≡ None) × (s.parts ≡ 1) ×
                (s.amount ≡ length (results_of result.0))) }
        { run_worker(rt, disk, job, tally, number, first) },
    )
}

/// Runs all members of a crew at once: the last one on this thread, and those before it as a crew beside it,
/// so that each has a thread of its own. A missing share means that memory ran out.
#[cycle(crew)]
fn run_crew<'d, D: PageSource, L: Ledger + Send + Sync, G: Gate, R: Threads + Wait + Sync>(
    rt: &R,
    disk: &'d D,
    job: &Job<'_, G>,
    tally: &Mutex<Tally<L>>,
    mut new_members: Vec<NewMember>,
) -> (Vec<Member<'d, D>>, Option<Share<L>>)
    requires geometry { job.now.plan.now.geometry ≡ (D.image disk.now).geometry }
    requires crew { AreNewMembers job.now.queue.now job.now.plan.now.planned new_members.items }
    ensures members { All (λ m. HasEnded job.now.queue.now job.now.plan.now (D.image disk.now) m)
        result.0.items }
    ensures whole { IfSome result.1 (λ s.
        AreDone s.parts s.amount result.0.items × (vec_len result.0 ≡ vec_len new_members)) }
{
    let Some(NewMember { number, mut pass }) = new_members.pop() else {
        return (Vec::new(job.alloc), Some(nothing(rt, tally)));
    };
    let ((mut members, theirs), (core, mine)) = run_crew_and_worker(
        rt,
        disk,
        job,
        tally,
        new_members,
        number,
        &mut pass,
    );
    let (Some(mut theirs), Some(mine)) = (theirs, mine) else {
        return (members, None);
    };
    theirs.merge(mine);
    if members.push(Member { pass, core }).is_err() {
        return (members, None);
    }
    (members, Some(theirs))
}
