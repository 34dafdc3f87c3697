//! What all workers counted, under one lock. For when they count, see `worker`.

ghost use Rattle.std.specs.Prelude.{◌≡◌, ◌+◌, ◌<◌, IfSome, OnSome};

use std::sync::ledger::{Book, Ledger, Share};
use std::sync::{Mutex, Wait};

/// The total, the ledger's book that vouches for it, and the parts of the ledger that no worker has yet.
#[derive(Drop)]
pub(crate) struct Tally<L: Ledger> {
    total: u64,
    book: Book<L>,
    unclaimed: Share<L>,
    left: u64,
    ghost same: { total ≡ book.total },
    ghost parts: { unclaimed.parts ≡ left },
    ghost empty: { unclaimed.amount ≡ 0 },
}

impl<L: Ledger> Tally<L> {
    /// A tally of nothing, with this many parts of the ledger.
    pub(crate) fn new(book: Book<L>, unclaimed: Share<L>, left: u64) -> Tally<L>
        requires total { book.total ≡ 0 }
        requires parts { unclaimed.parts ≡ left }
        requires empty { unclaimed.amount ≡ 0 }
    {
        Tally {
            total: 0,
            book,
            unclaimed,
            left,
        }
    }

    /// One part of the ledger, with nothing counted. None if no part is left.
    fn claim(&mut self) -> Option<Share<L>>
        ensures one { IfSome result (λ s. s.parts ≡ 1) }
        ensures empty { IfSome result (λ s. s.amount ≡ 0) }
    {
        let Tally {
            unclaimed,
            left,
            ..
        } = self;
        if *left == 0 {
            return None;
        }
        *left -= 1;
        Some(unclaimed.split_off(1, 0))
    }

    /// No part of the ledger.
    fn nothing(&mut self) -> Share<L>
        ensures none { result.parts ≡ 0 }
        ensures empty { result.amount ≡ 0 }
    {
        self.unclaimed.empty()
    }

    /// Counts 1, and gives the total after that. None if the total can't grow.
    fn count(&mut self, share: &mut Share<L>) -> Option<u64>
        requires { 0 < share.old.parts }
        ensures parts { share.new.parts ≡ share.old.parts }
        ensures moved { OnSome result (share.new.amount ≡ share.old.amount + 1) }
        ensures total { IfSome result (λ n. n ≡ self.new.total) }
        ensures more { IfSome result (λ n. n ≡ self.old.total + 1) }
    {
        let Tally { total, book, .. } = self;
        let next = total.checked_add(1)?;
        book.add(share, 1);
        *total = next;
        Some(next)
    }

    /// The book's total. The share has every part, so this is what was counted with it.
    pub(crate) fn last(&mut self, all: &mut Share<L>) -> u64
        requires { all.old.parts ≡ L.parts }
        ensures { result ≡ all.old.amount }
    {
        self.book.audit(all);
        self.total
    }
}

/// One part of the ledger. Any thread may ask.
pub(crate) fn claim<L: Ledger, R: Wait>(rt: &R, tally: &Mutex<Tally<L>>) -> Option<Share<L>>
    ensures one { IfSome result (λ s. s.parts ≡ 1) }
    ensures empty { IfSome result (λ s. s.amount ≡ 0) }
{
    tally.lock(rt).claim()
}

/// No part of the ledger. Any thread may ask.
pub(crate) fn nothing<L: Ledger, R: Wait>(rt: &R, tally: &Mutex<Tally<L>>) -> Share<L>
    ensures none { result.parts ≡ 0 }
    ensures empty { result.amount ≡ 0 }
{
    tally.lock(rt).nothing()
}

/// Counts 1, and gives the total after that. Any thread may do it.
pub(crate) fn count<L: Ledger, R: Wait>(
    rt: &R,
    tally: &Mutex<Tally<L>>,
    share: &mut Share<L>,
) -> Option<u64>
    requires { 0 < share.old.parts }
    ensures parts { share.new.parts ≡ share.old.parts }
    ensures moved { OnSome result (share.new.amount ≡ share.old.amount + 1) }
{
    tally.lock(rt).count(share)
}

/// What was counted with both shares, which have every part between them.
pub(crate) fn audit<L: Ledger>(tally: Mutex<Tally<L>>, theirs: Share<L>, mine: Share<L>) -> u64
    requires { mine.parts + theirs.parts ≡ L.parts }
    ensures { result ≡ mine.amount + theirs.amount }
{
    let mut all = mine;
    all.merge(theirs);
    tally.into_inner().last(&mut all)
}
