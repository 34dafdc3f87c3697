//! Merging index runs into a shard map: the newest run that has the least identifier binds it, and every
//! cursor at that identifier moves on. For which runs are lost, see `read_runs` of `scrub_check`.

ghost use Rattle.std.specs.Prelude.{◌≡◌, ◌++◌, List, ℕ, Some, None, ◌<◌, ◌≤◌, ◌^◌, ◌↔◌, IsTrue, IfNone, IfOk};
ghost use Rattle.std.specs.Prelude.{IfSome, OnOk, length, not, slice_get, slice_index, unwrap_or};
ghost use Rattle.scrub_merge.specs.Binding.{BindingValue, Runs};
ghost use Rattle.scrub_merge.specs.steps.Cursors.{ahead, entry_at, AreRising, IsBound, IsFirstWith, IsLeast};
ghost use Rattle.scrub_merge.specs.steps.Cursors.{LostBefore};
ghost use Rattle.scrub_merge.specs.steps.Parts.{is_before, is_on, kept};
ghost use Rattle.scrub_merge.specs.ShardMap.{AreBindings, AreRuns, IsShardMap};
ghost use Rattle.scrub_run.specs.declared.shard_id.ShardId.{ShardId};

use crate::binding::Binding;
use crate::cursors::{entry_under, heap_of, move_on};
use crate::part::{Part, Quarters, Side, all_on_side, entries_in, quarters_of, whole_runs};
use crate::shard_map::ShardMap;
use scrub_run::{Entry, OutOfMemory, Run, ShardId};
use std::alloc::Global;
use std::cmp::Reverse;
use std::thread::{Threads, join_mut};

/// With fewer entries than this, one thread merges them all.
const WORTH_THREADS: usize = 16_384;

/// Whether a run newer than the one with this number is lost.
fn is_doubtful(runs: &[Option<Part<'_>>], number: usize) -> bool
    requires { number ≤ length runs.now }
    ensures { IsTrue result ↔ LostBefore runs.now number }
{
    runs[..number].iter().any(|run| run.is_none())
}

/// The entry at a place of the run with this number.
fn entry_of<'r>(runs: &[Option<Part<'r>>], number: usize, place: usize) -> Option<&'r Entry>
    requires { number < length runs.now }
    ensures found { IfSome result (λ e.
        entry_at (unwrap_or (slice_get runs.now number) None) place ≡ Some e.now) }
    ensures none { IfNone result (entry_at (unwrap_or (slice_get runs.now number) None) place ≡ None) }
{
    entry_under(&runs[number], place)
}

/// Binds the identifier that was the least, by the entry at this place of the run with this number, the
/// newest one that had it under its cursor. Appends a binding if the entry has a locator.
fn bind_newest(
    alloc: Global,
    runs: &[Option<Part<'_>>],
    number: usize,
    place: usize,
    bindings: &mut Vec<Binding>,
) -> Result<(), OutOfMemory>
    requires few { length runs.now < 2 ^ 32 }
    requires within { number < length runs.now }
    requires runs { AreRuns runs.now }
    ensures { (places : List ℕ) (id : ShardId) → length places ≡ length runs.now →
        slice_index places number ≡ place → IsLeast (ahead runs.now places) id →
        IsFirstWith (ahead runs.now places) id number →
        OnOk result (IsBound (ahead runs.now places) id bindings.old.items bindings.new.items) }
{
    let doubtful = is_doubtful(runs, number);
    let Some(entry) = entry_of(runs, number, place) else {
        return Ok(());
    };
    if entry.locators().is_empty() {
        return Ok(());
    }
    let own = entry.copy(alloc)?;
    bindings.push(Binding::new(own, number as u32, doubtful))?;
    Ok(())
}

/// The shard map of parts of runs, one of each, with room for so many bindings: for all that the parts can
/// have, and for those of other maps that are to follow.
fn merge_parts(
    alloc: Global,
    runs: &[Option<Part<'_>>],
    room: usize,
) -> Result<ShardMap, OutOfMemory>
    requires { length runs.now < 2 ^ 32 }
    ensures { IfOk result (IsShardMap runs.now) }
{
    let mut bindings = Vec::with_capacity(alloc, room)?;
    let mut places = vec![in alloc; 0; runs.len()]?;
    let mut heap = heap_of(alloc, runs)?;
    while let Some(&Reverse((least, number))) = heap.peek() {
        let place = places[number];
        move_on(runs, &mut places, &mut heap, least)?;
        bind_newest(alloc, runs, number, place, &mut bindings)?;
    }
    Ok(ShardMap::new(bindings))
}

/// The shard map of a list of runs, newest first; `None` is a run that could not be read. A shard whose
/// newest binding has no locator was deleted, and isn't in the map. The runs are borrowed, so the map is made
/// of copies of the entries that it needs.
pub fn merge(alloc: Global, runs: &[Option<Run>]) -> Result<ShardMap, OutOfMemory>
    requires { length runs.now < 2 ^ 32 }
    ensures { IfOk result (IsShardMap runs.now) }
{
    let parts = whole_runs(alloc, runs)?;
    merge_parts(alloc, &parts, entries_in(&parts))
}

/// How many bindings to make room for in the map of a quarter: as many as it can have, and if it is the first
/// one of its half or of all, as many as that can have, so that the other maps are appended where it lies.
fn room_of(
    all: &[Option<Part<'_>>],
    in_half: &[Option<Part<'_>>],
    in_quarter: &[Option<Part<'_>>],
    half: Side,
    quarter: Side,
) -> usize {
    if !quarter.is_first {
        return entries_in(in_quarter);
    }
    if half.is_first {
        return entries_in(all);
    }
    entries_in(in_half)
}

/// The shard map of the entries on one side of an identifier, of those on one side of another one.
fn merge_quarter(
    alloc: Global,
    runs: &[Option<Run>],
    half: Side,
    quarter: Side,
) -> Result<ShardMap, OutOfMemory>
    requires { length runs.now < 2 ^ 32 }
    ensures { IfOk result (IsShardMap (kept (is_on quarter) (kept (is_on half) runs.now))) }
{
    let parts = whole_runs(alloc, runs)?;
    let in_half = all_on_side(alloc, &parts, half)?;
    let in_quarter = all_on_side(alloc, &in_half, quarter)?;
    let room = room_of(&parts, &in_half, &in_quarter, half, quarter);
    merge_parts(alloc, &in_quarter, room)
}

/// The shard maps of what is before an identifier and of the rest, one after the other.
fn join_maps(first: ShardMap, rest: ShardMap, id: ShardId) -> Result<ShardMap, OutOfMemory>
    requires { AreBindings (first ++ rest) }
    ensures { (runs : Runs) → IsShardMap (kept (is_before id) runs) first →
        IsShardMap (kept (λ other. not (is_before id other)) runs) rest →
        IfOk result (IsShardMap runs) }
{
    first.followed_by(rest)
}

/// The shard maps of the entries on one side of an identifier: of those before another identifier, and of the
/// rest, made at the same time.
fn merge_quarters<R: Threads + Sync>(
    rt: &R,
    alloc: Global,
    runs: &[Option<Run>],
    half: Side,
    id: ShardId,
) -> Result<(ShardMap, ShardMap), OutOfMemory>
    requires { length runs.now < 2 ^ 32 }
    ensures first { IfOk result (λ r. IsShardMap (kept (is_before id) (kept (is_on half) runs.now)) r.0) }
    ensures rest { IfOk result (λ r. IsShardMap
        (kept (λ other. not (is_before id other)) (kept (is_on half) runs.now)) r.1) }
{
    let (first, rest) = join_mut(
        rt,
        &mut || -> Result<ShardMap, OutOfMemory>
            requires few { length runs.now < 2 ^ 32 }
            ensures first { IfOk result (IsShardMap
                (kept (is_before id) (kept (is_on half) runs.entry.now))) }
        {
            let quarter = Side { id, is_first: true };
            merge_quarter(alloc, runs, half, quarter)
        },
        &mut || -> Result<ShardMap, OutOfMemory>
            requires few { length runs.now < 2 ^ 32 }
            ensures rest { IfOk result (IsShardMap
                (kept (λ other. not (is_before id other)) (kept (is_on half) runs.entry.now))) }
        {
            let quarter = Side {
                id,
                is_first: false,
            };
            merge_quarter(alloc, runs, half, quarter)
        },
    );
    Ok((first?, rest?))
}

/// The shard map of the entries on one side of an identifier, by two threads: one merges those before another
/// identifier, the other one the rest.
fn merge_half<R: Threads + Sync>(
    rt: &R,
    alloc: Global,
    runs: &[Option<Run>],
    half: Side,
    id: ShardId,
) -> Result<ShardMap, OutOfMemory>
    requires { length runs.now < 2 ^ 32 }
    ensures { IfOk result (IsShardMap (kept (is_on half) runs.now)) }
{
    let (first, rest) = merge_quarters(rt, alloc, runs, half, id)?;
    join_maps(first, rest, id)
}

/// The shard maps of the entries before the middle and of the rest, made at the same time.
fn merge_halves<R: Threads + Sync>(
    rt: &R,
    alloc: Global,
    runs: &[Option<Run>],
    at: Quarters,
) -> Result<(ShardMap, ShardMap), OutOfMemory>
    requires { length runs.now < 2 ^ 32 }
    ensures first { IfOk result (λ r. IsShardMap (kept (is_before at.middle) runs.now) r.0) }
    ensures rest { IfOk result (λ r. IsShardMap
        (kept (λ other. not (is_before at.middle other)) runs.now) r.1) }
{
    let middle = at.middle;
    let low = at.low;
    let high = at.high;
    let (first, rest) = join_mut(
        rt,
        &mut || -> Result<ShardMap, OutOfMemory>
            requires few { length runs.now < 2 ^ 32 }
            ensures first { IfOk result (IsShardMap (kept (is_before middle) runs.entry.now)) }
        {
            let half = Side {
                id: middle,
                is_first: true,
            };
            merge_half(rt, alloc, runs, half, low)
        },
        &mut || -> Result<ShardMap, OutOfMemory>
            requires few { length runs.now < 2 ^ 32 }
            ensures rest { IfOk result (IsShardMap
                (kept (λ other. not (is_before middle other)) runs.entry.now)) }
        {
            let half = Side {
                id: middle,
                is_first: false,
            };
            merge_half(rt, alloc, runs, half, high)
        },
    );
    Ok((first?, rest?))
}

/// The same as `merge`, by four threads if there are many entries. Each merges the entries between two
/// identifiers.
pub fn merge_by_threads<R: Threads + Sync>(
    rt: &R,
    alloc: Global,
    runs: &[Option<Run>],
) -> Result<ShardMap, OutOfMemory>
    requires { length runs.now < 2 ^ 32 }
    ensures { IfOk result (IsShardMap runs.now) }
{
    let Some(at) = quarters_of(runs, WORTH_THREADS) else {
        return merge(alloc, runs);
    };
    let (first, rest) = merge_halves(rt, alloc, runs, at)?;
    join_maps(first, rest, at.middle)
}

/// A law: runs have at most one shard map. So with the choice, the runs decide which shards there are.
pub fn one_shard_map()
    ensures { (runs : Runs) (bindings others : List BindingValue) →
        AreRuns runs → IsShardMap runs bindings → IsShardMap runs others → bindings ≡ others }
{}

/// A law: index runs have a shard map. With `one_shard_map`, they have exactly one.
pub fn each_list_of_runs_has_a_shard_map()
    ensures { (runs : Runs) → AreRuns runs → (bindings : List BindingValue) × IsShardMap runs bindings }
{}
