//! The chunks of a disk at their places, which of them no sound locator names, and which have one UUID.

ghost use Rattle.std.specs.Prelude.{◌≡◌, IfOk};
ghost use Rattle.std.specs.List.{filter, filter_map};
ghost use Rattle.scrub_check.specs.steps.ChunkUuids.{AreUuidsOf, is_twin_by};
ghost use Rattle.scrub_check.specs.Chunks.{place_of, chunks, orphans, twins};

use crate::lists::chunk_uuids::ChunkUuids;
use crate::lists::live_and_orphans::part_chunks;
use crate::lists::locator_index::LocatorIndex;
use crate::lists::place::Place;
use crate::statuses::checked::Checked;
use scrub_disk::{OutOfMemory, PageSource};
use scrub_scan::{AllFindings, Item};
use std::alloc::Global;
use std::thread::Threads;

/// The place of an item of an extent, if it is a chunk.
pub(crate) fn place_of(extent: u32, item: &Item) -> Option<Place>
    ensures { result ≡ place_of extent item.now }
{
    match item {
        Item::Chunk {
            start,
            uuid,
            length,
            ..
        } => Some(Place {
            extent,
            offset: *start,
            length: *length,
            uuid: *uuid,
        }),
        _ => None,
    }
}

/// The chunks among items of an extent, at their places.
fn chunks_in(alloc: Global, extent: u32, items: &[Item]) -> Result<Vec<Place>, OutOfMemory>
    ensures { IfOk result (λ v. v.items ≡ filter_map (place_of extent) items.now) }
{
    items
        .iter()
        .filter_map(|item| place_of(extent, item))
        .collect(alloc)
}

/// The chunks of all extents, by extent and then start.
fn all_chunks<D: PageSource>(
    alloc: Global,
    all: &AllFindings<'_, D>,
) -> Result<Vec<Place>, OutOfMemory>
    ensures { IfOk result (λ v. v.items ≡ chunks all.now.extents) }
{
    let mut chunks = Vec::new(alloc);
    for one in all.results() {
        let found = chunks_in(alloc, one.extent(), one.findings().items())?;
        chunks.extend_from_slice(&found)?;
    }
    Ok(chunks)
}

/// The chunks that no sound locator points to, by extent and then start.
pub fn orphans<D: PageSource>(
    alloc: Global,
    all: &AllFindings<'_, D>,
    checked: &[Checked],
) -> Result<Vec<Place>, OutOfMemory>
    ensures { IfOk result (λ v. v.items ≡ orphans all.now.extents checked.now) }
{
    let locators = LocatorIndex::of(alloc, checked)?;
    let parted = part_chunks(alloc, None, &locators, all)?;
    Ok(parted.orphans)
}

/// Those of these chunks whose UUID is among these twice or more.
fn twins_among(
    alloc: Global,
    chunks: &[Place],
    uuids: &ChunkUuids,
) -> Result<Vec<Place>, OutOfMemory>
    ensures { IfOk result (λ v. v.items ≡ filter (is_twin_by uuids.now) chunks.now) }
{
    chunks
        .iter()
        .copied()
        .filter(|chunk| uuids.has_twin(chunk))
        .collect(alloc)
}

/// The chunks whose UUID another chunk has too, by the UUIDs of all chunks. Most disks have none, and then no
/// place is listed.
fn twins_by<D: PageSource>(
    alloc: Global,
    all: &AllFindings<'_, D>,
    uuids: &ChunkUuids,
) -> Result<Vec<Place>, OutOfMemory>
    requires { AreUuidsOf (chunks all.now.extents) uuids.now }
    ensures { IfOk result (λ v. v.items ≡ twins all.now.extents) }
{
    if uuids.are_distinct() {
        return Ok(Vec::new(alloc));
    }
    let chunks = all_chunks(alloc, all)?;
    twins_among(alloc, &chunks, uuids)
}

/// The chunks whose UUID another chunk has too, by extent and then start.
pub fn twins<D: PageSource>(
    alloc: Global,
    all: &AllFindings<'_, D>,
) -> Result<Vec<Place>, OutOfMemory>
    ensures { IfOk result (λ v. v.items ≡ twins all.now.extents) }
{
    let uuids = ChunkUuids::of(alloc, all)?;
    twins_by(alloc, all, &uuids)
}

/// The same, by threads.
pub fn twins_by_threads<R: Threads + Sync, D: PageSource>(
    rt: &R,
    alloc: Global,
    all: &AllFindings<'_, D>,
) -> Result<Vec<Place>, OutOfMemory>
    ensures { IfOk result (λ v. v.items ≡ twins all.now.extents) }
{
    let uuids = ChunkUuids::by_threads(rt, alloc, all)?;
    twins_by(alloc, all, &uuids)
}
