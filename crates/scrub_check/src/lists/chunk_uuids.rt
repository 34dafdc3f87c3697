//! The UUIDs of all chunks as sorted numbers, so that how many chunks have one is found by search.

ghost use Rattle.std.specs.Prelude.{◌≡◌, ◌==◌, ◌↔◌, [], IsTrue, IfOk, OnOk};
ghost use Rattle.std.specs.Ordering.{nat_cmp};
ghost use Rattle.std.specs.List.{count_by, filter_map};
ghost use Rattle.std.specs.List.Sorted.{IsStrictlySortedBy};
ghost use Rattle.scrub_check.specs.Chunks.{place_of, chunks};
ghost use Rattle.scrub_check.specs.steps.ChunkUuids.{number_of, AddsNumbers, AreSixteen, AreUuidsOf};
ghost use Rattle.scrub_check.specs.steps.ChunkUuids.{is_twin_by};

use crate::lists::chunks::place_of;
use crate::lists::place::Place;
use crate::places::sorted_list::{count_of, into_sorted, into_sorted_by_threads, rises_strictly};
use scrub_disk::{OutOfMemory, PageSource};
use scrub_scan::{AllFindings, Item};
use std::alloc::Global;
use std::marker::Model;
use std::thread::Threads;
use uuid::Uuid;

/// The UUIDs of chunks as numbers, rising; one that several chunks have is there as often. Numbers are
/// compared at once, UUIDs byte by byte.
#[derive(Drop)]
pub struct ChunkUuids {
    numbers: Vec<u128>,
}

impl Model for ChunkUuids {
    ghost use Rattle.std.specs.Prelude.{List, ℕ};
    ghost use Rattle.std.specs.Ordering.{nat_cmp};
    ghost use Rattle.std.specs.List.Sorted.{IsSorted};

    ghost Value = { List ℕ };

    ghost view = { λ u. u.numbers.items };

    ghost invariant = { λ u. IsSorted nat_cmp u.numbers.items };
}

/// The number that the bytes of a UUID spell, the first of them the highest.
fn number_of(uuid: Uuid) -> u128
    ensures number { result ≡ number_of uuid }
    ensures sixteen { AreSixteen uuid }
{
    // `as_u128` gives it too, but doesn't say that there are sixteen bytes.
    u128::from_be_bytes(uuid.into_bytes())
}

/// Appends the numbers of the UUIDs of the chunks among items of an extent, in their order.
fn append_numbers(extent: u32, items: &[Item], numbers: &mut Vec<u128>) -> Result<(), OutOfMemory>
    ensures { OnOk result (AddsNumbers numbers.old.items (filter_map (place_of extent) items.now)
        numbers.new.items) }
{
    for item in items {
        if let Some(chunk) = place_of(extent, item) {
            numbers.push(number_of(chunk.uuid))?;
        }
    }
    Ok(())
}

/// How many items are in all extents.
fn item_count<D: PageSource>(all: &AllFindings<'_, D>) -> usize {
    all.results()
        .map(|found| found.findings().items().len())
        .fold(0, usize::saturating_add)
}

/// The numbers of the UUIDs of all chunks, by extent and then start.
fn numbers_of<D: PageSource>(
    alloc: Global,
    all: &AllFindings<'_, D>,
) -> Result<Vec<u128>, OutOfMemory>
    ensures { IfOk result (λ v. AddsNumbers [] (chunks all.now.extents) v.items) }
{
    let mut numbers = Vec::with_capacity(alloc, item_count(all))?;
    for one in all.results() {
        append_numbers(one.extent(), one.findings().items(), &mut numbers)?;
    }
    Ok(numbers)
}

impl ChunkUuids {
    /// The UUIDs of all chunks, sorted by threads.
    pub(crate) fn by_threads<R: Threads + Sync, D: PageSource>(
        rt: &R,
        alloc: Global,
        all: &AllFindings<'_, D>,
    ) -> Result<ChunkUuids, OutOfMemory>
        ensures { IfOk result (AreUuidsOf (chunks all.now.extents)) }
    {
        let numbers = into_sorted_by_threads(rt, alloc, numbers_of(alloc, all)?)?;
        Ok(ChunkUuids { numbers })
    }

    /// The UUIDs of all chunks.
    pub(crate) fn of<D: PageSource>(
        alloc: Global,
        all: &AllFindings<'_, D>,
    ) -> Result<ChunkUuids, OutOfMemory>
        ensures { IfOk result (AreUuidsOf (chunks all.now.extents)) }
    {
        let numbers = into_sorted(numbers_of(alloc, all)?)?;
        Ok(ChunkUuids { numbers })
    }

    /// How many of the chunks have the UUID with a number.
    fn count(&self, number: u128) -> usize
        ensures { result ≡ count_by (λ n. n == number) self.now }
    {
        count_of(&self.numbers, &number)
    }

    /// Whether two of the chunks or more have the UUID of this one.
    pub(crate) fn has_twin(&self, chunk: &Place) -> bool
        ensures { result ≡ is_twin_by self.now chunk.now }
    {
        self.count(number_of(chunk.uuid)) > 1
    }

    /// Whether no two of the chunks have one UUID.
    pub(crate) fn are_distinct(&self) -> bool
        ensures { IsTrue result ↔ IsStrictlySortedBy nat_cmp self.now }
    {
        rises_strictly(&self.numbers)
    }
}
