//! The rule that the shared queue keeps at every moment, whatever the threads do. For who takes and when, see
//! `worker`.

use crossbeam_queue::RuledArrayQueue;
use crossbeam_queue::protocol::{Join, Lesson, Outcome, Protocol, Split};
use std::collections::LinkedList;

/// What a pass knows. Exists in proofs only: no value of it is made.
pub struct View {
    /// 1 in the first pass, else 0.
    pub firsts: u64,
    /// 1 in a pass that was split off and not joined, else 0.
    pub lives: u64,
    /// The number of passes that were split from it and not joined back.
    pub out: u64,
    /// The extents that were pushed so far.
    pub pushed: LinkedList<u32>,
    /// The extents that it took.
    pub own: LinkedList<u32>,
    /// What each pass that was joined into it took.
    pub joined: LinkedList<LinkedList<u32>>,
}

/// What was pushed is what was taken, followed by what the queue holds; each extent that was taken was taken
/// once, by one pass.
pub struct Account;

impl Protocol<u32, View> for Account {
    ghost use Rattle.std.specs.Prelude.{[]};
    ghost use Rattle.scrub_pool.specs.steps.Account.{Accounts, view_of};

    ghost holds = { Accounts };

    ghost first = { view_of 1 0 0 [] [] [] };
}

/// An extent is pushed, before any other pass exists.
pub struct Pushes;

impl Outcome<u32, View> for Pushes {
    ghost use Rattle.std.specs.Prelude.{◌≡◌, ◌++◌, ◌∷◌, []};
    ghost use Rattle.scrub_pool.specs.steps.Account.{view_of};

    ghost then = { λ v x w. w ≡ view_of v.firsts v.lives v.out (v.pushed ++ x ∷ []) v.own v.joined };
}

impl Lesson<u32, View> for Pushes {
    ghost use Rattle.std.specs.Prelude.{◌≤◌, length};

    ghost fact = { λ v items. length items ≤ length v.pushed };
}

/// An extent is taken, or none is left.
pub struct Takes;

impl Outcome<u32, View> for Takes {
    ghost use Rattle.scrub_pool.specs.steps.Account.{IsTaken};

    ghost then = { IsTaken };
}

impl Lesson<u32, View> for Takes {
    ghost use Rattle.scrub_pool.specs.steps.Account.{AreAllTaken};

    ghost fact = { AreAllTaken };
}

/// A pass is split off, or joined back.
pub struct Splits;

impl Split<View> for Splits {
    ghost use Rattle.std.specs.Prelude.{◌+◌, []};
    ghost use Rattle.scrub_pool.specs.steps.Account.{view_of};

    ghost left = { λ v. view_of v.firsts v.lives (v.out + 1) v.pushed v.own v.joined };

    ghost right = { λ v. view_of 0 1 0 v.pushed [] [] };
}

impl Join<View> for Splits {
    ghost use Rattle.std.specs.Prelude.{◌-◌, ◌++◌, ◌∷◌, []};
    ghost use Rattle.scrub_pool.specs.steps.Account.{view_of};

    ghost both = { λ v w.
        view_of v.firsts v.lives (v.out - 1) v.pushed v.own (v.joined ++ w.own ∷ w.joined) };

    ghost spent = { view_of 0 0 0 [] [] [] };
}

/// The queue under this rule.
pub type RuledQueue = RuledArrayQueue<u32, View, Account>;
