//! The queue of the planned extents, and the passes to take from it. For what is done with an extent, see
//! `worker`.

ghost use Rattle.std.specs.Prelude.{◌≡◌, ◌+◌, ◌-◌, ◌<◌, ◌≤◌, length, take, [], ◌∷◌, ◌++◌, true, false, All};
ghost use Rattle.std.specs.Prelude.{IfOk, IfSome, IfNone, OnErr, Contains};
ghost use Rattle.std.specs.List.Sorted.{IsStrictlyIncreasing};
ghost use Rattle.crossbeam_queue.specs.Passes.{IsSamePass, IsPassOf, ruled_capacity};
ghost use Rattle.scrub_pool.specs.steps.Account.{view_of};
ghost use Rattle.scrub_pool.specs.steps.PassModel.{known};

use crate::OutOfMemory;
use crate::rule::{Pushes, RuledQueue, Splits, Takes, View};
use crossbeam_queue::Pass;
use scrub_super::Plan;
use std::alloc::Global;
use std::marker::Model;
use std::sync::Wait;

/// The planned extents that nobody has taken. Contracts see only which queue it is.
#[derive(Drop)]
pub struct ExtentQueue {
    queue: RuledQueue,
}

impl Model for ExtentQueue {
    ghost use Rattle.atomic_table.specs.Seated.{TableId};

    ghost Value = { TableId };

    ghost view = { λ q. q.queue.table.shared.table_id };
}

/// The right to take from a queue, and the account of what was taken with it.
#[derive(Drop)]
pub struct TakePass {
    pass: Pass<u32, View>,
}

impl Model for TakePass {
    ghost use Rattle.scrub_pool.specs.steps.PassModel.{known, pass_value, IsPass};
    ghost use Rattle.scrub_pool.specs.Passes.{PassValue};

    ghost Value = { PassValue };

    ghost view = { λ p. pass_value p.pass };

    ghost invariant = { λ p. IsPass p.pass };
}

impl ExtentQueue {
    ghost use Rattle.scrub_pool.specs.Passes.{new_pass, split_pass, IsTakenBy, HasTakenAll};

    /// A queue of the planned extents, ascending, and its first pass.
    pub fn new<R: Wait>(
        rt: &R,
        alloc: Global,
        plan: &Plan,
    ) -> Result<(ExtentQueue, TakePass), OutOfMemory>
        ensures { IfOk result (λ q. q.1 ≡ new_pass q.0 plan.now.planned) }
    {
        let extents = plan.planned();
        let (queue, mut pass) = RuledQueue::ruled(alloc, extents.len().max(1))?;
        fill(rt, &queue, &mut pass, extents);
        Ok((ExtentQueue { queue }, TakePass { pass }))
    }

    /// Splits a pass that took nothing off the first one, which has at most 64 out before. The two unused
    /// parameters are part of the public signature.
    pub fn split<R: Wait>(
        &self,
        _rt: &R,
        _alloc: Global,
        pass: &mut TakePass,
    ) -> Result<TakePass, OutOfMemory>
        requires queue { pass.old.queue ≡ self.now }
        requires first { pass.old.first ≡ true }
        requires out { pass.old.out < 65 }
        ensures new { IfOk result (λ p. p ≡ split_pass self.now pass.old.planned) }
        ensures out { IfOk result (λ p. pass.new ≡ record pass.old { out = pass.old.out + 1 }) }
        ensures same { OnErr result (pass.new ≡ pass.old) }
    {
        let other = self.queue.another::<Splits>(&mut pass.pass);
        Ok(TakePass { pass: other })
    }

    /// Joins a pass back into the first one, from which it was split, with what was taken with it. The unused
    /// parameter is part of the public signature. Takes no memory.
    pub fn join<R: Wait>(&self, _rt: &R, pass: &mut TakePass, other: TakePass)
        requires queue { pass.old.queue ≡ self.now }
        requires other_queue { other.queue ≡ self.now }
        requires first { pass.old.first ≡ true }
        requires other_split { other.first ≡ false }
        ensures { pass.new ≡
            record pass.old { joined = pass.old.joined ++ other.own ∷ []; out = pass.old.out - 1 } }
    {
        let TakePass { pass: theirs } = other;
        self.queue.absorb::<Splits>(&mut pass.pass, theirs);
    }

    /// Takes the next extent out of the queue, above all that this pass took. None means that the queue was
    /// empty at one moment of the call. Takes no memory.
    pub fn take<R: Wait>(&self, rt: &R, pass: &mut TakePass) -> Option<u32>
        requires { pass.old.queue ≡ self.now }
        ensures taken { IfSome result (λ e. IsTakenBy pass.old e pass.new) }
        ensures none { IfNone result (pass.new ≡ pass.old) }
        ensures all { IfNone result (pass.old.first ≡ true → pass.old.out ≡ 0 → HasTakenAll pass.old) }
        // True of every value of the type.
        ensures rising { IsStrictlyIncreasing pass.new.own }
        ensures joined_rise { All IsStrictlyIncreasing pass.new.joined }
    {
        self.queue.pop_as::<Takes, R>(rt, &mut pass.pass)
    }
}

/// Pushes the planned extents. No other pass exists yet, so the queue has room for each.
fn fill<R: Wait>(rt: &R, queue: &RuledQueue, pass: &mut Pass<u32, View>, extents: &[u32])
    requires room { length extents.now ≤ ruled_capacity queue.now }
    requires rising { IsStrictlyIncreasing extents.now }
    requires pass { IsPassOf queue.now pass.old }
    requires first { known pass.old ≡ view_of 1 0 0 [] [] [] }
    ensures same { IsSamePass pass.old pass.new }
    ensures pushed { known pass.new ≡ view_of 1 0 0 extents.now [] [] }
{
    for number in 0..extents.len() {
        push_next(rt, queue, pass, extents, number);
    }
}

/// Pushes the planned extent with this number, after those before it. At every moment, what was pushed so far
/// is a prefix of the planned extents.
fn push_next<R: Wait>(
    rt: &R,
    queue: &RuledQueue,
    pass: &mut Pass<u32, View>,
    planned: &[u32],
    number: usize,
)
    requires room { length planned.now ≤ ruled_capacity queue.now }
    requires rising { IsStrictlyIncreasing planned.now }
    requires next { number < length planned.now }
    requires pass { IsPassOf queue.now pass.old }
    requires front { known pass.old ≡ view_of 1 0 0 (take number planned.now) [] [] }
    ensures same { IsSamePass pass.old pass.new }
    ensures front { known pass.new ≡ view_of 1 0 0 (take (number + 1) planned.now) [] [] }
{
    let Ok(()) = queue.push_as::<Pushes, R>(rt, pass, planned[number]) else {
        unreachable!()
    };
}
