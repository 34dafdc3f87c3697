//! Scanning all planned extents with workers and the caller. For what one worker does, see `worker`.

ghost use Rattle.std.specs.Prelude.{◌≡◌, ◌+◌, ◌-◌, ◌<◌, ◌≤◌, ◌++◌, [], ◌∷◌, true, None, All, length, OnOk};
ghost use Rattle.std.specs.Prelude.{IfOk, sum_by, vec_len};
ghost use Rattle.std.specs.List.Sorted.{IsPermutation};
ghost use Rattle.scrub_scan.specs.AllFindings.{AreAllFindings, IsOfImage};
ghost use Rattle.scrub_book.specs.Extents.{extents_in};
ghost use Rattle.scrub_book.specs.Worker.{held_by, taken_by, results_of};
ghost use Rattle.scrub_pool.specs.Passes.{one_list, new_pass, IsFirst, IsFirstAlone};
ghost use Rattle.scrub_pool.specs.Takings.{IsPartition};
ghost use Rattle.scrub_pool.specs.steps.Working.{AreResults, AreNewMembers, IsThrough, AreFoundBy};
ghost use Rattle.scrub_pool.specs.steps.Working.{after_joins, lists_in};

use crate::OutOfMemory;
use crate::crew::{Member, NewMember, run_crew_and_worker};
use crate::extent_queue::{ExtentQueue, TakePass};
use crate::fault::PoolFault;
use crate::gate::Gate;
use crate::job::Job;
use crate::takings::Takings;
use crate::tally::{Tally, audit};
use crate::worker::take_until_empty;
use scrub_book::{Book, WorkerCore, assemble};
use scrub_disk::PageSource;
use scrub_scan::{AllFindings, ExtentResult};
use scrub_super::Plan;
use std::alloc::Global;
use std::marker::Brand;
use std::sync::ledger::{Blank, Ledger};
use std::sync::{Mutex, Wait};
use std::thread::Threads;

/// A member for each worker that was asked for, each with a pass of its own.
fn new_crew<R: Wait>(
    rt: &R,
    alloc: Global,
    queue: &ExtentQueue,
    first: &mut TakePass,
    workers: u32,
) -> Result<Vec<NewMember>, OutOfMemory>
    requires queue { first.old.queue ≡ queue.now }
    requires first { first.old.first ≡ true }
    requires none_out { first.old.out ≡ 0 }
    requires workers { workers ≤ 64 }
    ensures count { IfOk result (λ v. vec_len v ≡ workers) }
    ensures crew { IfOk result (λ v. AreNewMembers queue.now first.old.planned v.items) }
    ensures kept { IsFirst queue.now first.old.planned first.new }
    ensures first { OnOk result (first.new ≡ record first.old { out = workers }) }
{
    let mut crew = Vec::with_capacity(alloc, workers as usize)?;
    for number in 0..workers {
        let pass = queue.split(rt, alloc, first)?;
        crew.push(NewMember { number, pass })?;
    }
    Ok(crew)
}

/// Retires a worker that holds no extent: appends its results to those found, and gives the list of what it
/// took.
fn retire_worker<'d, D: PageSource>(
    core: WorkerCore<'d, D>,
    found: &mut Vec<ExtentResult<'d, D>>,
) -> Result<Vec<u32>, OutOfMemory>
    requires free { held_by core ≡ None }
    ensures list { IfOk result (λ v. v.items ≡ taken_by core.entry) }
    ensures found { OnOk result (found.new.items ≡ found.old.items ++ results_of core.entry) }
    ensures matched { OnOk result (extents_in (results_of core.entry) ≡ taken_by core.entry) }
{
    let Ok(retired) = core.retire() else {
        unreachable!()
    };
    let (taken, mut results) = retired.into_parts();
    found.append(&mut results)?;
    Ok(taken)
}

/// Joins a member that has ended: joins its pass, appends its results to those found, and gives the list of
/// what it took.
fn join_member<'d, D: PageSource, R: Wait>(
    rt: &R,
    queue: &ExtentQueue,
    first: &mut TakePass,
    member: Member<'d, D>,
    found: &mut Vec<ExtentResult<'d, D>>,
) -> Result<Vec<u32>, OutOfMemory>
    requires queue { first.old.queue ≡ queue.now }
    requires first { first.old.first ≡ true }
    requires member { IsThrough queue.now member }
    ensures first { first.new ≡ record first.old {
      joined = first.old.joined ++ member.entry.pass.own ∷ [];
      out = first.old.out - 1;
    } }
    ensures list { IfOk result (λ v. v.items ≡ taken_by member.entry.core) }
    ensures found { OnOk result (found.new.items ≡ found.old.items ++ results_of member.entry.core) }
    ensures matched { OnOk result (extents_in (results_of member.entry.core) ≡ taken_by member.entry.core) }
{
    let Member { pass, core } = member;
    queue.join(rt, first, pass);
    retire_worker(core, found)
}

/// Joins all members that have ended, in order, and gives the lists of what they took.
fn join_members<'d, D: PageSource, R: Wait>(
    rt: &R,
    alloc: Global,
    queue: &ExtentQueue,
    first: &mut TakePass,
    members: Vec<Member<'d, D>>,
    found: &mut Vec<ExtentResult<'d, D>>,
) -> Result<Vec<Vec<u32>>, OutOfMemory>
    requires queue { first.old.queue ≡ queue.now }
    requires first { first.old.first ≡ true }
    requires nothing { found.old.items ≡ [] }
    requires members { All (λ m. IsThrough queue.now m) members.items }
    ensures kept { IsFirst queue.now first.old.planned first.new }
    ensures first { IfOk result (λ v.
        first.new ≡ after_joins first.old (lists_in v.items) (vec_len members.entry)) }
    ensures count { IfOk result (λ v. vec_len v ≡ vec_len members.entry) }
    ensures found { IfOk result (λ v. extents_in found.new.items ≡ one_list (lists_in v.items)) }
    ensures sum { OnOk result (length found.new.items ≡
        sum_by (λ m. length (results_of m.core)) members.entry.items) }
    ensures results { OnOk result (AreFoundBy members.entry.items found.new.items) }
{
    let mut lists = Vec::new(alloc);
    for member in members {
        lists.push(join_member(rt, queue, first, member, found)?)?;
    }
    Ok(lists)
}

/// Scans with all workers until no extent is left. Gives the list of what each worker took, by the workers'
/// numbers, the caller's last; the results; and the ledger's total.
fn scan_with_crew<'d, D: PageSource, L: Ledger + Send + Sync, G: Gate, R: Threads + Wait + Sync>(
    rt: &R,
    disk: &'d D,
    job: &Job<'_, G>,
    first: &mut TakePass,
    workers: u32,
    blank: Blank,
) -> Result<(Vec<Vec<u32>>, Vec<ExtentResult<'d, D>>, u64), OutOfMemory>
    requires workers { workers ≤ 64 }
    requires geometry { job.now.plan.now.geometry ≡ (D.image disk.now).geometry }
    requires first { first.old ≡ new_pass job.now.queue.now job.now.plan.now.planned }
    requires name { blank.name ≡ L.name }
    requires parts { (blank.parts ≡ L.parts) × (blank.parts ≡ workers + 1) }
    ensures kept { IsFirst job.now.queue.now job.now.plan.now.planned first.new }
    ensures first { OnOk result (IsFirstAlone job.now.queue.now job.now.plan.now.planned first.new) }
    ensures workers { IfOk result (λ r. vec_len r.0 ≡ workers + 1) }
    ensures lists { IfOk result (λ r. lists_in r.0.items ≡ first.new.joined ++ first.new.own ∷ []) }
    ensures partition { IfOk result (λ r. IsPartition job.now.plan.now.planned (lists_in r.0.items)) }
    ensures found { IfOk result (λ r. AreResults (D.image disk.now) job.now.plan.now r.1.items) }
    ensures extents { IfOk result (λ r. IsPermutation (extents_in r.1.items) job.now.plan.now.planned) }
    ensures counted { IfOk result (λ r. r.2 ≡ length r.1.items) }
{
    let parts = u64::from(workers) + 1;
    let (ledger, unclaimed) = blank.open::<L>();
    let tally = Mutex::new(Tally::new(ledger, unclaimed, parts));
    let crew = new_crew(rt, job.alloc, job.queue, first, workers)?;
    let ((members, theirs), (core, mine)) = run_crew_and_worker(
        rt, disk, job, &tally, crew, workers, first,
    );
    let (Some(theirs), Some(mine)) = (theirs, mine) else {
        return Err(OutOfMemory);
    };
    let (mut core, mut share) = (core, mine);
    let mut found = Vec::new(job.alloc);
    let mut lists = join_members(rt, job.alloc, job.queue, first, members, &mut found)?;
    take_until_empty(rt, disk, job, &tally, &mut core, &mut share, workers, first)?;
    let own = retire_worker(core, &mut found)?;
    lists.push(own)?;
    let counted = audit(tally, theirs, share);
    Ok((lists, found, counted))
}

/// What one reader finds in the planned extents, and who took what. The extents are scanned by this many
/// workers (0 to 64) and the caller, each taking from this queue until none is left. The caller takes with
/// the first pass, as worker number `workers`; without workers no thread is started. The only fault is
/// `OutOfMemory`, returned once every worker that was started has ended. The pass is then still the first one
/// of this queue, whose rule still says what was taken; drop both.
pub fn scan_all<'d, D: PageSource, G: Gate, R: Threads + Wait + Sync>(
    rt: &R,
    alloc: Global,
    disk: &'d D,
    plan: &Plan,
    queue: &ExtentQueue,
    first: &mut TakePass,
    workers: u32,
    gate: &G,
) -> Result<(AllFindings<'d, D>, Takings), PoolFault>
    requires workers { workers ≤ 64 }
    requires geometry { plan.now.geometry ≡ (D.image disk.now).geometry }
    requires first { first.old ≡ new_pass queue.now plan.now.planned }
    ensures image { IfOk result (λ r. IsOfImage (λ s. D.image s) r.0 (D.image disk.now)) }
    ensures findings { IfOk result (λ r. AreAllFindings (D.image disk.now) plan.now r.0.extents) }
    ensures workers { IfOk result (λ r. length r.1.lists ≡ workers + 1) }
    // Also after a fault.
    ensures kept { IsFirst queue.now plan.now.planned first.new }
    ensures first { OnOk result (IsFirstAlone queue.now plan.now.planned first.new) }
    ensures lists { IfOk result (λ r. r.1.lists ≡ first.new.joined ++ first.new.own ∷ []) }
    ensures partition { IfOk result (λ r. IsPartition plan.now.planned r.1.lists) }
    ensures counted { IfOk result (λ r. r.1.counted ≡ length plan.now.planned) }
{
    let book = Book::new(alloc, disk, plan)?;
    let blank = Blank::new(u64::from(workers) + 1);
    let job = Job {
        alloc,
        plan,
        queue,
        gate,
        workers,
    };
    let (lists, results, counted) = scan_with_crew::<D, Brand, G, R>(
        rt, disk, &job, first, workers, blank,
    )?;
    Ok((assemble(book, results), Takings::new(lists, counted)))
}
