//! The findings of all planned extents, of which there may be none. `scanning` makes those of one extent.

ghost use Rattle.std.specs.Prelude.{◌≡◌, ◌<◌, ◌^◌, ℕ, map, length, IfSome, IfNone, Contains, Some, slice_get};
ghost use Rattle.std.specs.Prelude.{slice_index};
ghost use Rattle.std.specs.Option.{option_map_or};
ghost use Rattle.std.specs.List.Sorted.{IsStrictlyIncreasing};
ghost use Rattle.scrub_disk.specs.Image.{Image};
ghost use Rattle.scrub_scan.specs.Slots.{AreFull, scanned_in};
ghost use Rattle.scrub_scan.specs.AllFindings.{IsPlaceOf, extent_numbers};
ghost use Rattle.std.specs.Prelude.{List};
ghost use Rattle.scrub_super.specs.Plan.{PlanValue, IsPlan};
ghost use Rattle.scrub_scan.specs.declared.findings.Findings.{Findings};
ghost use Rattle.scrub_scan.specs.Findings.{IsFindings};
ghost use Rattle.scrub_scan.specs.Scanned.{Scanned};
ghost use Rattle.scrub_scan.specs.AllFindings.{AreAllFindings};

use crate::extent_result::ExtentResult;
use crate::findings::Findings;
use scrub_disk::PageSource;
use scrub_super::Plan;
use std::marker::Model;
use std::slice::Iter;

/// What was found in the scanned extents of one source: each extent once, in ascending order.
#[derive(Drop)]
pub struct AllFindings<'d, D: PageSource> {
    slots: Vec<Option<ExtentResult<'d, D>>>,
}

impl<'d, D: PageSource> Model for AllFindings<'d, D> {
    ghost use Rattle.scrub_scan.specs.AllFindings.{ScannedDisk, AreScannedBy};
    ghost use Rattle.scrub_scan.specs.Slots.{AreFull, AreOfOneImage, first_source, held_in, scanned_in};

    ghost Value = { ScannedDisk D };

    ghost view = { λ a. record {
      source = first_source (held_in a.slots.items);
      extents = scanned_in a.slots.items;
    } };

    ghost invariant = { λ a. AreFull a.slots.items × AreScannedBy (λ s. D.image s)
        (record { source = first_source (held_in a.slots.items); extents = scanned_in a.slots.items }) ×
        AreOfOneImage (held_in a.slots.items) };
}

/// The number of the extent whose result is in a slot, or 0 if it is empty.
fn number_in<D: PageSource>(slot: &Option<ExtentResult<'_, D>>) -> u32
    ensures { result ≡ option_map_or (λ r. r.extent) slot.now 0 }
{
    match slot {
        Some(result) => result.extent(),
        None => 0,
    }
}

/// The index of an extent's result, if there is one. Each slot has a result, and their extents rise.
fn position_of<D: PageSource>(slots: &[Option<ExtentResult<'_, D>>], extent: u32) -> Option<usize>
    requires full { AreFull slots.now }
    requires rising { IsStrictlyIncreasing (extent_numbers (scanned_in slots.now)) }
    ensures found { IfSome result (IsPlaceOf (scanned_in slots.now) extent) }
    ensures none { IfNone result (¬ Contains (extent_numbers (scanned_in slots.now)) extent) }
{
    slots
        .binary_search_by_key(&extent, |slot| number_in(slot))
        .ok()
}

impl<'d, D: PageSource> AllFindings<'d, D> {
    ghost use Rattle.std.specs.Prelude.{All};
    ghost use Rattle.scrub_scan.specs.Scanned.{result_image, scanned};
    ghost use Rattle.scrub_scan.specs.Slots.{AreSlots, held_in};
    ghost use Rattle.scrub_scan.specs.AllFindings.{entry_of, findings_in, AreScannedBy, AreAllFindings};
    ghost use Rattle.scrub_scan.specs.AllFindings.{IsOfImage};

    /// All findings, from slots that hold the results of the planned extents in order, none missing, of one
    /// image and with the plan's pointers. Takes no memory: it keeps the slots.
    pub fn from_slots(plan: &Plan, slots: Vec<Option<ExtentResult<'d, D>>>) -> AllFindings<'d, D>
        requires slots { (image : Image) × AreSlots image plan.now slots.items }
        requires full { AreFull slots.items }
        ensures extents { result.extents ≡ scanned_in slots.entry.items }
        ensures image { (image : Image) → AreSlots image plan.now slots.entry.items →
            IsOfImage (λ s. D.image s) result image }
        ensures findings { (image : Image) → AreSlots image plan.now slots.entry.items →
            AreAllFindings image plan.now result.extents }
    {
        // For the proof alone: the contract of `planned` says that the planned extents rise, as the type's
        // invariant needs.
        let _ = plan.planned();
        AllFindings { slots }
    }

    /// The slots: the results of these extents in ascending order, none missing. Takes no memory.
    pub(crate) fn into_slots(self) -> Vec<Option<ExtentResult<'d, D>>>
        ensures full { AreFull result.items }
        ensures extents { scanned_in result.items ≡ self.entry.extents }
        ensures images { (image : Image) → IsOfImage (λ s. D.image s) self.entry image →
            All (λ r. result_image r ≡ image) (held_in result.items) }
    {
        self.slots
    }

    /// How many extents were scanned.
    pub fn len(&self) -> usize
        ensures count { result ≡ length self.now.extents }
        // The type's invariant, for callers that only borrow the findings.
        ensures scanned { AreScannedBy (λ s. D.image s) self.now }
    {
        self.slots.len()
    }

    /// The number of the i-th of these extents, counted from 0.
    pub fn extent_at(&self, i: usize) -> u32
        requires { i < length self.now.extents }
        ensures number { result ≡ slice_index (extent_numbers self.now.extents) i }
        // The type's invariant, for callers that only borrow the findings.
        ensures scanned { AreScannedBy (λ s. D.image s) self.now }
    {
        self.result_at(i).extent()
    }

    /// The result of the i-th of these extents, counted from 0.
    pub fn result_at(&self, i: usize) -> &ExtentResult<'d, D>
        requires { i < length self.now.extents }
        ensures result { slice_get self.now.extents i ≡ Some (scanned result.now) }
        // The type's invariant, for callers that only borrow the findings.
        ensures scanned { AreScannedBy (λ s. D.image s) self.now }
    {
        match &self.slots[i] {
            Some(result) => result,
            None => unreachable!(),
        }
    }

    /// The results of these extents, in ascending order.
    pub fn results(&self) -> Results<'_, 'd, D>
        ensures results { result ≡ self.now.extents }
        // The type's invariant, for callers that only borrow the findings.
        ensures scanned { AreScannedBy (λ s. D.image s) self.now }
        // Their number is a `usize`, for the same callers.
        ensures few { length self.now.extents < 2 ^ 64 }
    {
        Results {
            slots: self.slots.iter(),
        }
    }

    /// The result of an extent, if it was scanned.
    pub fn result_of(&self, extent: u32) -> Option<&ExtentResult<'d, D>>
        ensures found { IfSome result (λ r. entry_of self.now.extents extent ≡ Some (scanned r.now)) }
        ensures none { IfNone result (¬ Contains (extent_numbers self.now.extents) extent) }
        // The type's invariant, for callers that only borrow the findings.
        ensures scanned { AreScannedBy (λ s. D.image s) self.now }
    {
        let i = position_of(&self.slots, extent)?;
        Some(self.result_at(i))
    }

    /// The findings of an extent, if it was scanned.
    pub fn of_extent(&self, extent: u32) -> Option<&Findings>
        ensures found { IfSome result (λ f. findings_in self.now.extents extent ≡ Some f.now) }
        ensures none { IfNone result (¬ Contains (extent_numbers self.now.extents) extent) }
        // The type's invariant, for callers that only borrow the findings.
        ensures scanned { AreScannedBy (λ s. D.image s) self.now }
    {
        Some(self.result_of(extent)?.findings())
    }
}

/// An iterator over the results of scanned extents, in ascending order. Contracts see what is left of them.
#[derive(Drop)]
pub struct Results<'a, 'd, D: PageSource> {
    slots: Iter<'a, Option<ExtentResult<'d, D>>>,
}

impl<'a, 'd, D: PageSource> Model for Results<'a, 'd, D> {
    ghost use Rattle.std.specs.Prelude.{List};
    ghost use Rattle.scrub_scan.specs.Scanned.{Scanned};
    ghost use Rattle.scrub_scan.specs.Slots.{AreFull, scanned_in};
    ghost use Rattle.std.specs.Slice.Iter.{iter_rest};

    ghost Value = { List Scanned };

    ghost view = { λ a. scanned_in (iter_rest a.slots) };

    ghost invariant = { λ a. AreFull (iter_rest a.slots) };
}

impl<'a, 'd, D: PageSource> Iterator for Results<'a, 'd, D> {
    ghost use Rattle.std.specs.Iterator.{YieldsFirstBy, item_count};
    ghost use Rattle.scrub_scan.specs.Scanned.{scanned};

    type Item = &'a ExtentResult<'d, D>;

    ghost next_gives = { YieldsFirstBy (λ r. scanned r.now) (λ left. left) };

    ghost remaining = { item_count (λ left. left) };

    fn next(&mut self) -> Option<&'a ExtentResult<'d, D>> {
        match self.slots.next()? {
            Some(result) => Some(result),
            None => unreachable!(),
        }
    }
}

/// A law: under each write pointer there are findings of each extent of an image; and a plan within the
/// limits of its sizes (`IsPlan plan`), as each is that follows from the choice of an image, has findings of
/// all extents that it plans.
pub fn each_plan_has_all_findings()
    ensures extent { (image : Image) (e w : ℕ) → (found : Findings) × IsFindings image e w found }
    ensures plan { (image : Image) (plan : PlanValue) → IsPlan plan →
        (all : List Scanned) × AreAllFindings image plan all }
{}
