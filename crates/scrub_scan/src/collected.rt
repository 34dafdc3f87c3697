//! What a tiling has collected: items, and payloads that are still to be hashed for some of them. `tiling`
//! decides which places are looked at.

ghost use Rattle.std.specs.Prelude.{◌≡◌, ◌<◌, ◌≤◌, ◌++◌, ◌∷◌, [], ℕ, List, All, Option, None, IfOk, IfSome};
ghost use Rattle.std.specs.Prelude.{map, length, true, false};
ghost use Rattle.sha2.specs.Sha256.{sha256};
ghost use Rattle.scrub_disk.specs.Limits.{max_extent_bytes};
ghost use Rattle.scrub_scan.specs.Extent.{Extent};
ghost use Rattle.scrub_scan.specs.steps.Gathering.{TilesIfSealed, TiledTo, IsRightTo};

use crate::counted_source::CountedSource;
use crate::item::{Item, Items};
use crate::pages::Target;
use crate::payloads::Payloads;
use crate::scanner::{LONGEST_GATHERED, ScannedItem, Scanner};
use scrub_disk::{OutOfMemory, PageSource};
use scrub_frame::DIGEST_BYTES;
use sha_lanes::Batch;
use std::alloc::Global;
use std::mem;

/// How many payloads are few: so few that some lanes have none.
const FEW: usize = 8;

/// How many payloads are many: so many that all lanes end at about the same time.
const MANY: usize = 128;

/// The most bytes that are gathered of few payloads, before one more: three of the longest ones.
const MOST_OF_FEW: usize = 3 * LONGEST_GATHERED as usize;

/// The most bytes that are gathered of others.
const MOST_GATHERED: usize = 8 << 20;

/// The most bytes that are gathered of many payloads: so few that they stay near the processor.
const MOST_OF_MANY: usize = 1 << 19;

/// The most bytes that so many payloads have together before they are hashed.
fn most_of(count: usize) -> usize {
    if count < FEW {
        MOST_OF_FEW
    } else if count < MANY {
        MOST_GATHERED
    } else {
        MOST_OF_MANY
    }
}

/// Whether a batch is hashed before more is added.
fn is_full(batch: &Batch) -> bool {
    batch.size() >= most_of(batch.count())
}

/// The items of an extent so far, some of which have payloads that are hashed together later. The digests of
/// plain chunks are put in then; those of sealed chunks, which have their seals for digests until then, are
/// compared with them.
#[derive(Drop)]
pub(crate) struct Collected {
    pub items: Vec<Item>,
    /// The numbers of the items whose digests are put in later, ascending. Their payloads follow one another.
    pub pending: Vec<usize>,
    /// How many payloads are before those.
    pub first: usize,
    /// The place from which seals were trusted, if they were since digests were last put in: a sealed chunk
    /// at or past it may turn out to be none.
    pub trusted_from: Option<usize>,
}

/// Puts digests into the items of these numbers, which tile the extent up to a place. If one of them isn't
/// the seal of its item, that item and all after it are dropped. Returns the place up to which the items
/// tile the extent then.
fn put_digests(
    items: &mut Vec<Item>,
    pending: &[usize],
    digests: &[[u8; DIGEST_BYTES]],
    place: usize,
) -> usize
    requires within { All (λ i. i < length items.old.items) pending.now }
    ensures { (x : Extent) (from : Option ℕ) (payloads : List (List ℕ)) →
        TilesIfSealed x place from items.old.items pending.now payloads → digests.now ≡ map sha256 payloads →
        TiledTo x result items.new.items × IsRightTo place from result }
{
    for k in 0..pending.len().min(digests.len()) {
        let i = pending[k];
        let item = items[i];
        if !item.agrees_with(&digests[k]) {
            items.truncate(i);
            return item.start() as usize;
        }
        items[i] = item.with_digest(digests[k]);
    }
    place
}

impl Collected {
    ghost use Rattle.scrub_scan.specs.steps.Gathering.{CanReturn, Grows, Has, IsCollected, IsLeft, IsSettled};

    /// Nothing yet.
    pub fn new(alloc: Global) -> Collected {
        Collected {
            items: Vec::new(alloc),
            pending: Vec::new(alloc),
            first: 0,
            trusted_from: None,
        }
    }

    /// Drops all, and keeps the memory. `first` payloads of other extents come before those of this one.
    pub fn clear(&mut self, first: usize)
        ensures { (x : Extent) (payloads : Payloads) (before : List (List ℕ)) → Has payloads before →
            first ≡ length before → IsSettled x 0 payloads self.new }
    {
        self.items.clear();
        self.pending.clear();
        self.first = first;
        self.trusted_from = None;
    }

    /// Adds an item, and its number to the pending ones if its payload was gathered.
    pub fn add(&mut self, reached: ScannedItem) -> Result<(), OutOfMemory>
        ensures items { IfOk result (λ _. self.new.items.items ≡ self.old.items.items ++ reached.item ∷ []) }
        ensures gathered { IfOk result (λ _. reached.is_gathered ≡ true →
            self.new.pending.items ≡ self.old.pending.items ++ length self.old.items.items ∷ []) }
        ensures known { IfOk result (λ _.
            reached.is_gathered ≡ false → self.new.pending.items ≡ self.old.pending.items) }
        ensures first { self.new.first ≡ self.old.first }
        ensures trusted { self.new.trusted_from ≡ self.old.trusted_from }
    {
        if reached.is_gathered {
            self.pending.push(self.items.len())?;
        }
        self.items.push(reached.item)?;
        Ok(())
    }

    /// Trusts the seals of frames from a place on, if that is allowed and the tiling could still go back
    /// there.
    pub fn trust<D: PageSource>(
        &mut self,
        disk: &CountedSource<'_, D>,
        target: &Target,
        scanner: &Scanner,
        place: usize,
        trusting: bool,
    )
        requires below { place < target.now.pointer }
        requires affordable { CanReturn (D.image disk.now) target.now
            scanner.now.pages.asked self.old.trusted_from }
        ensures collected { (x : Extent) (payloads : Payloads) → IsCollected x place payloads self.old →
            IsCollected x place payloads self.new }
        ensures affordable { CanReturn (D.image disk.now) target.now
            scanner.now.pages.asked self.new.trusted_from }
        ensures never { trusting ≡ false → self.new.trusted_from ≡ self.old.trusted_from }
    {
        if !trusting || self.trusted_from.is_some() {
            return;
        }
        if scanner.may_return(disk, place / target.page) {
            self.trusted_from = Some(place);
        }
    }

    /// Settles if the batch is full, or if the tiling couldn't go back any more after one more item. Returns
    /// the place up to which the items tile the extent.
    pub fn make_room<D: PageSource>(
        &mut self,
        alloc: Global,
        disk: &CountedSource<'_, D>,
        target: &Target,
        scanner: &Scanner,
        payloads: &mut Payloads,
        place: usize,
    ) -> Result<usize, OutOfMemory>
        requires within { All (λ i. i < length self.old.items.items) self.old.pending.items }
        requires trusted { IfSome self.old.trusted_from (λ first. first ≤ target.now.pointer) }
        ensures collected { (x : Extent) → 0 < x.page → IsCollected x place payloads.old self.old →
            IfOk result (λ right. right ≡ place → IsCollected x place payloads.new self.new) }
        ensures settled { (x : Extent) → IsCollected x place payloads.old self.old →
            IfOk result (λ right. right < place → IsSettled x right payloads.new self.new) }
        ensures right { (x : Extent) → IsCollected x place payloads.old self.old →
            IfOk result (IsRightTo place self.old.trusted_from) }
        ensures grows { IfOk result (λ _. Grows payloads.old payloads.new) }
        ensures affordable { IfOk result (λ _.
            CanReturn (D.image disk.now) target.now scanner.now.pages.asked self.new.trusted_from) }
        ensures never { self.old.trusted_from ≡ None → IfOk result (λ _. self.new.trusted_from ≡ None) }
        ensures within { IfOk result (λ _.
            All (λ i. i < length self.new.items.items) self.new.pending.items) }
    {
        if !is_full(&payloads.batch) && self.can_wait(disk, target, scanner) {
            return Ok(place);
        }
        self.settle(alloc, payloads, place)
    }

    /// Whether the tiling could still go back after one more item.
    fn can_wait<D: PageSource>(
        &self,
        disk: &CountedSource<'_, D>,
        target: &Target,
        scanner: &Scanner,
    ) -> bool
        requires trusted { IfSome self.now.trusted_from (λ first. first ≤ target.now.pointer) }
        ensures { result ≡ true →
            CanReturn (D.image disk.now) target.now scanner.now.pages.asked self.now.trusted_from }
    {
        match self.trusted_from {
            Some(place) => scanner.may_return(disk, place / target.page),
            None => true,
        }
    }

    /// Hashes all payloads, and puts the digests of the pending items in or compares them. Returns the place
    /// up to which the items tile the extent then: `place`, or the one of the first sealed chunk that is
    /// none, which is dropped with all after it.
    pub fn settle(
        &mut self,
        alloc: Global,
        payloads: &mut Payloads,
        place: usize,
    ) -> Result<usize, OutOfMemory>
        requires within { All (λ i. i < length self.old.items.items) self.old.pending.items }
        ensures settled { (x : Extent) → IsLeft x place payloads.old self.old →
            IfOk result (λ right. IsSettled x right payloads.new self.new) }
        ensures right { (x : Extent) → IsLeft x place payloads.old self.old →
            IfOk result (IsRightTo place self.old.trusted_from) }
        ensures none { IfOk result (λ _. self.new.pending.items ≡ []) }
        ensures untrusted { IfOk result (λ _. self.new.trusted_from ≡ None) }
        ensures grows { IfOk result (λ _. Grows payloads.old payloads.new) }
    {
        payloads.hash(alloc)?;
        let digests = payloads.digests_of(self.first, self.pending.len());
        let right = put_digests(&mut self.items, &self.pending, digests, place);
        self.pending.clear();
        self.first = payloads.digests.len();
        self.trusted_from = None;
        Ok(right)
    }

    /// Takes the items out.
    pub fn take_items(&mut self, alloc: Global) -> Items
        ensures { result ≡ self.old.items.items }
    {
        Items {
            items: mem::replace(&mut self.items, Vec::new(alloc)),
        }
    }
}
