//! Cursors over parts of index runs: one for each run, with the entries under them in a heap. All cursors at
//! the least identifier move on together. For what that identifier is bound to, see `merging`.

ghost use Rattle.std.specs.Prelude.{◌≡◌, ◌+◌, ◌<◌, ◌^◌, ◌∷◌, All, Some, IfSome, IfNone, IfOk, OnOk, length};
ghost use Rattle.std.specs.Prelude.{slice_index, slice_set, IsPermutation};
ghost use Rattle.std.specs.List.{cons_option};
ghost use Rattle.std.specs.Option.{option_map};
ghost use Rattle.std.specs.BinaryHeap.{IsHeap, KeepsHeap, heap_items};
ghost use Rattle.scrub_run.specs.Entry.{IsBelow};
ghost use Rattle.scrub_run.specs.Run.{AreEntries};
ghost use Rattle.scrub_merge.specs.ShardMap.{AreRuns};
ghost use Rattle.scrub_merge.specs.steps.Cursors.{entry_at, ahead, places_past, under_by, under_cmp, IsLeast};
ghost use Rattle.scrub_merge.specs.steps.Cursors.{IsHeapOf, IsHeapBut};

use crate::part::Part;
use scrub_run::{Entry, OutOfMemory, ShardId};
use std::alloc::Global;
use std::cmp::Reverse;
use std::collections::BinaryHeap;

/// The identifier of the entry under a cursor, and the number of its run, from 0 for the newest. The greatest
/// has the least identifier and, among equal ones, the newest run: a heap gives its greatest first.
type Under = Reverse<(ShardId, usize)>;

/// The entry under the cursor of a run: none if the run is lost, or its cursor is past its end.
pub(crate) fn entry_under<'r>(run: &Option<Part<'r>>, place: usize) -> Option<&'r Entry>
    ensures found { IfSome result (λ e. entry_at run.now place ≡ Some e.now) }
    ensures none { IfNone result (entry_at run.now place ≡ None) }
    ensures run { IfSome run.now AreEntries }
{
    match run {
        None => None,
        Some(part) => part.entries().get(place),
    }
}

/// Pushes the entry under the cursor of the run with this number, if there is one.
fn push_cursor(
    heap: &mut BinaryHeap<Under>,
    run: &Option<Part<'_>>,
    number: usize,
    place: usize,
) -> Result<(), OutOfMemory>
    ensures pushed { OnOk result (IsPermutation
        (cons_option (option_map (under_by number) (entry_at run.now place)) (heap_items heap.old))
        (heap_items heap.new)) }
    ensures order { OnOk result (KeepsHeap under_cmp (heap_items heap.old) (heap_items heap.new)) }
    ensures run { IfSome run.now AreEntries }
{
    if let Some(entry) = entry_under(run, place) {
        heap.push(Reverse((entry.id(), number)))?;
    }
    Ok(())
}

/// The heap of the first entries of the runs. It reserves its room once: it never has more than one entry of
/// each run.
pub(crate) fn heap_of(
    alloc: Global,
    runs: &[Option<Part<'_>>],
) -> Result<BinaryHeap<Under>, OutOfMemory>
    ensures heap { IfOk result (λ heap. IsHeapOf runs.now (heap_items heap)) }
    ensures runs { IfOk result (λ _. AreRuns runs.now) }
{
    let mut heap = BinaryHeap::with_capacity(alloc, runs.len())?;
    for (number, run) in runs.iter().enumerate() {
        push_cursor(&mut heap, run, number, 0)?;
    }
    Ok(heap)
}

/// Takes the first out of the heap, if it has this identifier, which nothing in the heap is below.
fn pop_with(heap: &mut BinaryHeap<Under>, id: ShardId) -> Option<Under>
    requires order { IsHeap under_cmp (heap_items heap.old) }
    requires least { All (λ u. ¬ IsBelow u.0.0 id) (heap_items heap.old) }
    ensures own { IfSome result (λ u. u.0.0 ≡ id) }
    ensures popped { IfSome result (λ u. IsPermutation (heap_items heap.old) (u ∷ heap_items heap.new)) }
    ensures order { IsHeap under_cmp (heap_items heap.new) }
    ensures none { IfNone result (All (λ u. ¬ (u.0.0 ≡ id)) (heap_items heap.old)) }
    ensures unchanged { IfNone result (heap_items heap.new ≡ heap_items heap.old) }
{
    let Reverse((first, _)) = heap.peek()?;
    if first.cmp(&id).is_ne() {
        return None;
    }
    heap.pop()
}

/// Moves on the cursor of the run with this number, which has no entry in the heap, and pushes the entry that
/// it reaches.
fn move_one(
    runs: &[Option<Part<'_>>],
    places: &mut [usize],
    heap: &mut BinaryHeap<Under>,
    number: usize,
) -> Result<(), OutOfMemory>
    requires few { length runs.now < 2 ^ 32 }
    requires count { length places.old ≡ length runs.now }
    requires within { number < length runs.now }
    requires place { slice_index places.old number < 2 ^ 32 }
    requires heap { IsHeapBut number (ahead runs.now places.old) (heap_items heap.old) }
    ensures moved { OnOk result
        (places.new ≡ slice_set places.old number (slice_index places.old number + 1)) }
    ensures heap { OnOk result (IsHeapOf (ahead runs.now places.new) (heap_items heap.new)) }
{
    let place = places[number] + 1;
    places[number] = place;
    push_cursor(heap, &runs[number], number, place)
}

/// Moves on every cursor at the least identifier.
pub(crate) fn move_on(
    runs: &[Option<Part<'_>>],
    places: &mut [usize],
    heap: &mut BinaryHeap<Under>,
    id: ShardId,
) -> Result<(), OutOfMemory>
    requires few { length runs.now < 2 ^ 32 }
    requires runs { AreRuns runs.now }
    requires count { length places.old ≡ length runs.now }
    requires heap { IsHeapOf (ahead runs.now places.old) (heap_items heap.old) }
    requires least { IsLeast (ahead runs.now places.old) id }
    ensures moved { OnOk result (places.new ≡ places_past id runs.now places.old) }
    ensures heap { OnOk result (IsHeapOf (ahead runs.now places.new) (heap_items heap.new)) }
{
    while let Some(Reverse((_, number))) = pop_with(heap, id) {
        move_one(runs, places, heap, number)?;
    }
    Ok(())
}
