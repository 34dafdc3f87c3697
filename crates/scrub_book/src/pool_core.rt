//! The pool of workers as a machine without threads, driven by events: who takes an extent, finishes one or
//! retires, and when. For the threads, see `scrub_pool`.

ghost use Rattle.std.specs.Prelude.{◌≡◌, ◌+◌, ◌≤◌, ◌++◌, ◌&&◌, is_none, All, map, replicate, slice_get};
ghost use Rattle.std.specs.Prelude.{vec_len, IfOk, IfErr, OnOk, OnErr, None, true, false, Some};
ghost use Rattle.std.specs.List.{list_all};
ghost use Rattle.std.specs.Vec.{vec_capacity};
ghost use Rattle.scrub_disk.specs.Image.{Image};
ghost use Rattle.scrub_super.specs.Plan.{PlanValue, pointer_of};
ghost use Rattle.scrub_super.specs.Planned.{ArePlanned};
ghost use Rattle.scrub_scan.specs.Scanned.{result_image};
ghost use Rattle.scrub_scan.specs.AllFindings.{extent_numbers, AreAllFindings, IsOfImage};
ghost use Rattle.scrub_book.specs.Extents.{extents_in};
ghost use Rattle.scrub_book.specs.steps.Member.{member_value, IsReady};
ghost use Rattle.scrub_book.specs.Pool.{idle, MemberValue, member_refusal, worker_of, EveryScheduleFinds};

use crate::OutOfMemory;
use crate::assembling::assemble;
use crate::book::Book;
use crate::event::{Event, StepRefused};
use crate::member::Member;
use scrub_disk::PageSource;
use scrub_scan::{AllFindings, ExtentResult, scan_extent};
use scrub_super::Plan;
use std::alloc::Global;
use std::collections::VecDeque;
use std::marker::Model;

/// A pool of workers over the planned extents of a disk. Each planned extent is in exactly one place: in the
/// queue, held by a member, among a member's results, or among the arrivals.
#[derive(Drop)]
pub struct PoolCore<'d, D: PageSource> {
    alloc: Global,
    book: Book<'d, D>,
    queue: VecDeque<u32>,
    members: Vec<Member<'d, D>>,
    arrived: Vec<ExtentResult<'d, D>>,
    numbers: Vec<u32>,
}

impl<'d, D: PageSource> Model for PoolCore<'d, D> {
    ghost use Rattle.std.specs.Vec.{vec_capacity};
    ghost use Rattle.scrub_book.specs.steps.Member.{pool_value, HasPool};
    ghost use Rattle.scrub_book.specs.Pool.{PoolValue};

    ghost Value = { PoolValue D };

    ghost view = { λ p. pool_value p.book p.queue.items p.members.items p.arrived.items };

    // The facts of the machine, and room for each planned extent to arrive.
    ghost invariant = { λ p. HasPool (D.image p.book.source) p.book
        p.queue.items p.members.items p.arrived.items p.numbers.items (vec_capacity p.arrived)
        (vec_capacity p.numbers) };
}

/// This many members, which did nothing yet.
fn new_members<'d, D: PageSource>(
    alloc: Global,
    workers: u32,
) -> Result<Vec<Member<'d, D>>, OutOfMemory>
    ensures values { IfOk result (λ v. map (λ m. member_value m) v.items ≡ replicate workers idle) }
    ensures ready { (image : Image) → IfOk result (λ v. All (IsReady image) v.items) }
{
    let mut members = Vec::with_capacity(alloc, workers as usize)?;
    for _ in 0..workers {
        members.push(Member::new(alloc)?)?;
    }
    Ok(members)
}

/// The number of the member that an event names.
fn worker_of(event: Event) -> u32
    ensures { result ≡ worker_of event }
{
    match event {
        Event::Take(worker) => worker,
        Event::Done(worker) => worker,
        Event::Retire(worker) => worker,
    }
}

/// Why an event of a member is refused, if it is.
fn member_refusal<D: PageSource>(
    queue: &VecDeque<u32>,
    event: Event,
    member: &Member<'_, D>,
) -> Option<StepRefused>
    ensures { result ≡ member_refusal queue.now.items event (member_value member.now) }
{
    if member.has_retired() {
        return Some(StepRefused::Retired);
    }
    match event {
        Event::Take(_) if member.held().is_some() => Some(StepRefused::Busy),
        Event::Take(_) if queue.is_empty() => Some(StepRefused::QueueEmpty),
        Event::Done(_) if member.held().is_none() => Some(StepRefused::Idle),
        Event::Retire(_) if member.held().is_some() => Some(StepRefused::Busy),
        _ => None,
    }
}

/// Whether all members have retired and hold nothing.
fn are_through<D: PageSource>(members: &[Member<'_, D>]) -> bool
    ensures { result ≡
        list_all (λ m. is_none (member_value m).held && (member_value m).has_retired) members.now }
{
    members.iter().all(|member| member.is_through())
}

/// Appends results to those that arrived. There is room for them.
fn arrive<'d, D: PageSource>(
    arrived: &mut Vec<ExtentResult<'d, D>>,
    numbers: &mut Vec<u32>,
    results: Vec<ExtentResult<'d, D>>,
)
    requires arrived { vec_len arrived.old + vec_len results ≤ vec_capacity arrived.old }
    requires numbers { vec_len numbers.old + vec_len results ≤ vec_capacity numbers.old }
    ensures arrived { arrived.new.items ≡ arrived.old.items ++ results.entry.items }
    ensures numbers { numbers.new.items ≡ numbers.old.items ++ extents_in results.entry.items }
    ensures room { (vec_capacity arrived.new ≡ vec_capacity arrived.old) ×
        (vec_capacity numbers.new ≡ vec_capacity numbers.old) }
{
    for found in results {
        numbers.push_reserved(found.extent());
        arrived.push_reserved(found);
    }
}

impl<'d, D: PageSource> PoolCore<'d, D> {
    ghost use Rattle.scrub_book.specs.Pool.{refusal, is_complete, IsNewPool, IsStepOf, IsStepRefused, IsTake};
    ghost use Rattle.scrub_book.specs.Pool.{IsDone, IsRetire, IsAssembly, IsPool};

    /// A pool of this many workers, at most 65, over the planned extents of a disk. It reserves all memory
    /// that taking, retiring and finishing need.
    pub fn new(
        alloc: Global,
        disk: &'d D,
        plan: &Plan,
        workers: u32,
    ) -> Result<PoolCore<'d, D>, OutOfMemory>
        requires workers { workers ≤ 65 }
        requires geometry { plan.now.geometry ≡ (D.image disk.now).geometry }
        ensures { IfOk result (IsNewPool disk.now plan.now workers) }
    {
        let planned = plan.planned();
        let queue = VecDeque::from(Vec::from_slice(alloc, planned)?);
        let members = new_members(alloc, workers)?;
        let arrived = Vec::with_capacity(alloc, planned.len())?;
        let numbers = Vec::with_capacity(alloc, planned.len())?;
        Ok(PoolCore {
            alloc,
            book: Book::new(alloc, disk, plan)?,
            queue,
            members,
            arrived,
            numbers,
        })
    }

    /// Why an event is refused, if it is.
    fn refusal(&self, event: Event) -> Option<StepRefused>
        ensures { result ≡ refusal self.now.state event }
    {
        match self.members.get(worker_of(event) as usize) {
            Some(member) => member_refusal(&self.queue, event, member),
            None => Some(StepRefused::NoWorker),
        }
    }

    /// Gives the front of the queue to a member.
    fn take(&mut self, worker: u32)
        requires { refusal self.old.state (Event.Take worker) ≡ None }
        ensures same { (self.new.source ≡ self.old.source) × (self.new.plan ≡ self.old.plan) }
        ensures taken { IsTake self.old.state worker self.new.state }
    {
        let PoolCore { queue, members, .. } = self;
        let Some(extent) = queue.pop_front() else {
            unreachable!()
        };
        members[worker as usize].took(extent);
    }

    /// Scans the extent that a member holds.
    fn scan_held(&self, worker: u32) -> Result<ExtentResult<'d, D>, OutOfMemory>
        requires { refusal self.now.state (Event.Done worker) ≡ None }
        ensures image { IfOk result (λ r. result_image r ≡ D.image self.now.source) }
        ensures held { (m : MemberValue) → slice_get self.now.state.members worker ≡ Some m →
            IfOk result (λ r. m.held ≡ Some r.extent) }
        ensures pointer { IfOk result (λ r. pointer_of self.now.plan r.extent ≡ Some r.pointer) }
    {
        let Some(extent) = self.members[worker as usize].held() else {
            unreachable!()
        };
        scan_extent(self.alloc, self.book.source(), self.book.plan(), extent)
    }

    /// Scans the extent that a member holds, and finishes it. If that fails, nothing changes.
    fn done(&mut self, worker: u32) -> Result<(), OutOfMemory>
        requires { refusal self.old.state (Event.Done worker) ≡ None }
        ensures same { (self.new.source ≡ self.old.source) × (self.new.plan ≡ self.old.plan) }
        ensures done { OnOk result
            (IsDone (D.image self.old.source) self.old.plan self.old.state worker self.new.state) }
        ensures back { OnErr result (self.new.state ≡ self.old.state) }
    {
        let found = self.scan_held(worker)?;
        self.members[worker as usize].done(found)?;
        Ok(())
    }

    /// A member retires, and its results arrive.
    fn retire(&mut self, worker: u32)
        requires { refusal self.old.state (Event.Retire worker) ≡ None }
        ensures same { (self.new.source ≡ self.old.source) × (self.new.plan ≡ self.old.plan) }
        ensures retired { IsRetire self.old.state worker self.new.state }
    {
        let PoolCore {
            alloc,
            members,
            arrived,
            numbers,
            ..
        } = self;
        let results = members[worker as usize].retire(*alloc);
        arrive(arrived, numbers, results);
    }

    /// Does what an event says. Refusals, in this order: `NoWorker`, `Retired`, `Busy` (a member that holds
    /// an extent can't take another or retire), `Idle` (one that holds none can't be done), `QueueEmpty`, and
    /// `OutOfMemory`, only when a member is done. After a refusal the pool is as it was.
    pub fn step(&mut self, event: Event) -> Result<(), StepRefused>
        ensures taken { OnOk result (IsStepOf (D.image self.old.source) self.old event self.new) }
        ensures refused { IfErr result (IsStepRefused self.old.state event) }
        ensures back { OnErr result (self.new ≡ self.old) }
    {
        if let Some(why) = self.refusal(event) {
            return Err(why);
        }
        match event {
            Event::Take(worker) => self.take(worker),
            Event::Done(worker) => self.done(worker).map_err(|_| StepRefused::OutOfMemory)?,
            Event::Retire(worker) => self.retire(worker),
        }
        Ok(())
    }

    /// The numbers of the extents that arrived, in order of arrival.
    pub fn arrivals(&self) -> &[u32]
        ensures numbers { result.now ≡ extent_numbers self.now.state.arrivals }
        // True of every value of the type.
        ensures account { IsPool (D.image self.now.source) self.now.plan self.now.state }
    {
        self.numbers.as_slice()
    }

    /// Whether the queue is empty, no member holds an extent, and all members have retired. A pool without
    /// workers is complete from the start if no extent is planned, and otherwise never.
    pub fn is_complete(&self) -> bool
        ensures { result ≡ is_complete self.now.state }
    {
        self.queue.is_empty() && are_through(&self.members)
    }

    /// What one reader finds, assembled from the arrivals of a complete pool; else gives the pool back. Takes
    /// no memory.
    pub fn finish(self) -> Result<AllFindings<'d, D>, PoolCore<'d, D>>
        ensures complete { IfOk result (λ all. is_complete self.entry.state ≡ true) }
        ensures assembly { IfOk result (λ all. IsAssembly self.entry.plan self.entry.state all.extents) }
        ensures found { IfOk result (λ all.
            AreAllFindings (D.image self.entry.source) self.entry.plan all.extents) }
        ensures image { IfOk result (λ all. IsOfImage (λ s. D.image s) all (D.image self.entry.source)) }
        ensures back { IfErr result (λ pool. (is_complete self.entry.state ≡ false) × (pool ≡ self.entry)) }
    {
        if !self.is_complete() {
            return Err(self);
        }
        let PoolCore { book, arrived, .. } = self;
        Ok(assemble(book, arrived))
    }
}

/// A law: whatever the schedule, in a complete pool each planned extent has arrived once, and its assembly is
/// what one reader finds.
pub fn one_answer_in_every_schedule()
    ensures { (image : Image) (plan : PlanValue) → ArePlanned plan.geometry.extents plan.planned →
        EveryScheduleFinds image plan }
{}
