//! Collecting the results of planned extents, in any order. For who scans them, see `scrub_pool`.

ghost use Rattle.std.specs.Prelude.{◌≡◌, ◌<◌, length, slice_index, replicate, position, not, Contains, IfOk};
ghost use Rattle.std.specs.Prelude.{IfErr, IfSome, IfNone, OnOk, OnErr, Some, None};
ghost use Rattle.std.specs.Option.{is_some};
ghost use Rattle.std.specs.List.Sorted.{IsStrictlyIncreasing};

use crate::OutOfMemory;
use scrub_disk::PageSource;
use scrub_scan::{AllFindings, ExtentResult};
use scrub_super::Plan;
use std::alloc::Global;
use std::marker::Model;

/// Why a result wasn't added, and that result.
#[derive(Drop)]
pub enum AddRefused<'d, D: PageSource> {
    /// Its extent isn't planned.
    Stranger(ExtentResult<'d, D>),
    /// The book already has a result of its extent.
    Double(ExtentResult<'d, D>),
}

/// The results so far of the planned extents of a disk, with a slot for each planned extent.
#[derive(Drop)]
pub struct Book<'d, D: PageSource> {
    source: &'d D,
    plan: Plan,
    slots: Vec<Option<ExtentResult<'d, D>>>,
}

impl<'d, D: PageSource> Model for Book<'d, D> {
    ghost use Rattle.std.specs.List.Sorted.{IsStrictlyIncreasing};
    ghost use Rattle.scrub_scan.specs.Slots.{AreSlots, scanned_in};
    ghost use Rattle.scrub_book.specs.Book.{BookValue};

    ghost Value = { BookValue D };

    ghost view = { λ b. record { source = b.source.now; plan = b.plan; came = scanned_in b.slots.items } };

    ghost invariant = { λ b.
        AreSlots (D.image b.source.now) b.plan b.slots.items × IsStrictlyIncreasing b.plan.planned };
}

/// The place of an extent among ascending numbers.
fn place_of(planned: &[u32], extent: u32) -> Option<usize>
    requires { IsStrictlyIncreasing planned.now }
    ensures found { IfSome result (λ i. (i < length planned.now) × (slice_index planned.now i ≡ extent)) }
    ensures none { IfNone result (¬ Contains planned.now extent) }
{
    planned.binary_search(&extent).ok()
}

/// This many slots without a result.
fn empty_slots<'d, D: PageSource>(
    alloc: Global,
    n: usize,
) -> Result<Vec<Option<ExtentResult<'d, D>>>, OutOfMemory>
    ensures { IfOk result (λ v. v.items ≡ replicate n None) }
{
    let mut slots = Vec::with_capacity(alloc, n)?;
    for _ in 0..n {
        slots.push(None)?;
    }
    Ok(slots)
}

/// The first slot without a result.
fn first_empty<D: PageSource>(slots: &[Option<ExtentResult<'_, D>>]) -> Option<usize>
    ensures { result ≡ position (λ slot. not (is_some slot)) slots.now }
{
    slots.iter().position(|slot| slot.is_none())
}

impl<'d, D: PageSource> Book<'d, D> {
    ghost use Rattle.scrub_super.specs.Plan.{pointer_of};
    ghost use Rattle.scrub_scan.specs.Scanned.{result_image, scanned};
    ghost use Rattle.scrub_scan.specs.AllFindings.{AreAllFindings, IsOfImage};
    ghost use Rattle.scrub_book.specs.Book.{IsNewBook, IsResultAdded, IsAddRefused, IsLeastMissing, HasAll};
    ghost use Rattle.scrub_book.specs.Book.{IsFinished};

    /// A book for the planned extents of a disk, without results yet.
    pub fn new(alloc: Global, disk: &'d D, plan: &Plan) -> Result<Book<'d, D>, OutOfMemory>
        ensures { IfOk result (IsNewBook disk.now plan.now) }
    {
        let plan = plan.restrict(alloc, plan.planned())?;
        let slots = empty_slots(alloc, plan.planned().len())?;
        Ok(Book {
            source: disk,
            plan,
            slots,
        })
    }

    /// The disk whose results it collects.
    pub(crate) fn source(&self) -> &'d D
        ensures { result.now ≡ self.now.source }
    {
        self.source
    }

    /// The plan whose extents it collects.
    pub(crate) fn plan(&self) -> &Plan
        ensures { result.now ≡ self.now.plan }
    {
        &self.plan
    }

    /// Adds the result of a planned extent that has none yet. Refusals, in this order: `Stranger`, `Double`;
    /// each gives the result back. Takes no memory.
    pub fn add(&mut self, found: ExtentResult<'d, D>) -> Result<(), AddRefused<'d, D>>
        requires image { result_image found ≡ D.image self.old.source }
        requires pointer { Contains self.old.plan.planned found.extent →
            pointer_of self.old.plan found.extent ≡ Some found.pointer }
        ensures added { OnOk result (IsResultAdded self.old (scanned found.entry) self.new) }
        ensures refused { IfErr result (IsAddRefused self.old found.entry) }
        ensures same { OnErr result (self.new ≡ self.old) }
        // True of every value of the type.
        ensures rising { IsStrictlyIncreasing self.old.plan.planned }
    {
        let Some(i) = place_of(self.plan.planned(), found.extent()) else {
            return Err(AddRefused::Stranger(found));
        };
        if self.slots[i].is_some() {
            return Err(AddRefused::Double(found));
        }
        self.slots[i] = Some(found);
        Ok(())
    }

    /// The least planned extent without a result.
    pub fn missing(&self) -> Option<u32>
        ensures none { IfNone result (HasAll self.now) }
        ensures least { IfSome result (IsLeastMissing self.now) }
    {
        let i = first_empty(&self.slots)?;
        Some(self.plan.planned()[i])
    }

    /// What one reader finds, if each planned extent has its result; else gives the book back. Takes no
    /// memory.
    pub fn finish(self) -> Result<AllFindings<'d, D>, Book<'d, D>>
        ensures all { IfOk result (λ all. IsFinished (D.image self.entry.source) self.entry all.extents) }
        ensures image { IfOk result (λ all. IsOfImage (λ s. D.image s) all (D.image self.entry.source)) }
        ensures back { IfErr result (λ book. (book ≡ self.entry) × ¬ HasAll self.entry) }
    {
        if first_empty(&self.slots).is_some() {
            return Err(self);
        }
        let Book { plan, slots, .. } = self;
        Ok(AllFindings::from_slots(&plan, slots))
    }
}
