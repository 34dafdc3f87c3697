//! The chunks of all extents, parted into live ones and orphans by one walk of the sorted places beside the
//! items.

ghost use Rattle.std.specs.Prelude.{◌≡◌, ◌<◌, ◌+◌, ◌++◌, ◌∷◌, ◌^◌, [], IfOk, OnOk, List, map};
ghost use Rattle.std.specs.List.{sum_by};
ghost use Rattle.std.specs.List.Sorted.{IsStrictlyIncreasing};
ghost use Rattle.scrub_scan.specs.declared.item.Item.{Item};
ghost use Rattle.scrub_scan.specs.Item.{start_of};
ghost use Rattle.scrub_scan.specs.Scanned.{Scanned, scanned};
ghost use Rattle.scrub_scan.specs.AllFindings.{extent_numbers};
ghost use Rattle.scrub_check.specs.declared.statuses.checked.Checked.{Checked};
ghost use Rattle.scrub_check.specs.Live.{size_of};
ghost use Rattle.scrub_check.specs.steps.LocatorIndex.{IsLocatorIndex};
ghost use Rattle.scrub_check.specs.steps.LiveAndOrphans.{HasPassed, AreLiveBy, AreLiveAndOrphans};
ghost use Rattle.scrub_check.specs.steps.LiveAndOrphans.{AreLiveChunks, kept_of, live_by, orphans_by};
ghost use Rattle.scrub_check.specs.steps.SoundPlaces.{is_live_by};

use crate::lists::candidate::Candidate;
use crate::lists::chunks::place_of;
use crate::lists::cursor::Cursor;
use crate::lists::kept_chunk::KeptChunk;
use crate::lists::live::{is_chunk, size_of};
use crate::lists::locator_index::LocatorIndex;
use crate::lists::place::Place;
use crate::lists::reclaiming::add_reclaimable;
use crate::lists::sound_places::SoundPlaces;
use crate::places::chunk_at::ChunkAt;
use scrub_disk::{Geometry, OutOfMemory, PageSource};
use scrub_scan::{AllFindings, ExtentResult, Item};
use std::alloc::Global;

/// The live chunks of an extent.
#[derive(Drop)]
pub(crate) struct LiveChunks {
    /// How many bytes they take.
    pub bytes: u32,
    /// Where each lies, ascending.
    pub kept: Vec<KeptChunk>,
}

/// What is known of some extents.
#[derive(Drop)]
pub(crate) struct LiveAndOrphans {
    /// How many bytes the live chunks of each take.
    pub live: Vec<u32>,
    /// The chunks in them that no sound locator points to, by extent and then start.
    pub orphans: Vec<Place>,
    /// Those that may be reclaimed, if that is asked for.
    pub reclaimable: Vec<Candidate>,
}

/// Adds an item of an extent to the live chunks or the orphans, if it is a chunk.
fn put_item(
    extent: u32,
    item: &Item,
    cursor: &mut Cursor<'_>,
    live: &mut LiveChunks,
    orphans: &mut Vec<Place>,
) -> Result<(), OutOfMemory>
    requires passed { HasPassed cursor.old extent (start_of item.now) }
    requires fits { live.old.bytes + size_of item.now < 2 ^ 32 }
    ensures live { (items : List Item) → AreLiveBy cursor.old.starts.now extent items live.old →
        OnOk result (AreLiveBy cursor.old.starts.now extent (items ++ item.now ∷ []) live.new) }
    ensures orphans { OnOk result (orphans.new.items ≡
        orphans.old.items ++ orphans_by cursor.old.starts.now extent (item.now ∷ [])) }
    ensures same { cursor.new.starts.now ≡ cursor.old.starts.now }
    ensures passed { HasPassed cursor.new extent (start_of item.now) }
{
    let Some(chunk) = place_of(extent, item) else {
        return Ok(());
    };
    let offset = item.start();
    if !cursor.has(ChunkAt { extent, offset }) {
        orphans.push(chunk)?;
        return Ok(());
    }
    let bytes = size_of(item);
    live.bytes += bytes;
    live.kept.push(KeptChunk {
        start: offset,
        bytes,
    })?;
    Ok(())
}

/// The live chunks among items of an extent; the orphans among them are put after others.
fn live_among(
    alloc: Global,
    extent: u32,
    items: &[Item],
    cursor: &mut Cursor<'_>,
    orphans: &mut Vec<Place>,
) -> Result<LiveChunks, OutOfMemory>
    requires rising { IsStrictlyIncreasing (map start_of items.now) }
    requires sizes { sum_by size_of items.now < 2 ^ 32 }
    requires passed { HasPassed cursor.old extent 0 }
    ensures live { IfOk result (AreLiveBy cursor.old.starts.now extent items.now) }
    ensures orphans { OnOk result (orphans.new.items ≡
        orphans.old.items ++ orphans_by cursor.old.starts.now extent items.now) }
    ensures same { cursor.new.starts.now ≡ cursor.old.starts.now }
    ensures passed { OnOk result (HasPassed cursor.new (extent + 1) 0) }
{
    let mut live = LiveChunks {
        bytes: 0,
        kept: Vec::new(alloc),
    };
    for item in items {
        put_item(extent, item, cursor, &mut live, orphans)?;
    }
    Ok(live)
}

/// Whether an item of an extent is a chunk at one of the places that sound locators point to.
fn is_live_by(sound: &SoundPlaces, extent: u32, item: &Item) -> bool
    ensures { result ≡ is_live_by sound.now extent item.now }
{
    let offset = item.start();
    is_chunk(item) && sound.count(ChunkAt { extent, offset }) > 0
}

/// A chunk to keep.
fn kept_of(item: &Item) -> KeptChunk
    ensures { result ≡ kept_of item.now }
{
    KeptChunk {
        start: item.start(),
        bytes: size_of(item),
    }
}

/// Those of an extent's items that are chunks at one of the places that sound locators point to, ascending.
fn kept_among(
    alloc: Global,
    sound: &SoundPlaces,
    extent: u32,
    items: &[Item],
) -> Result<Vec<KeptChunk>, OutOfMemory>
    ensures { IfOk result (λ v. v.items ≡ map kept_of (live_by sound.now extent items.now)) }
{
    items
        .iter()
        .filter(|item| is_live_by(sound, extent, item))
        .map(|item| kept_of(item))
        .collect(alloc)
}

/// How many bytes the frames of chunks take.
fn bytes_of(kept: &[KeptChunk]) -> u32
    requires { sum_by (λ k. k.bytes) kept.now < 2 ^ 32 }
    ensures { result ≡ sum_by (λ k. k.bytes) kept.now }
{
    kept.iter().map(|one| one.bytes).sum()
}

/// The live chunks of one extent, each searched for among the sorted places. `part_chunks` walks beside them,
/// for all extents.
pub(crate) fn live_chunks<D: PageSource>(
    alloc: Global,
    locators: &LocatorIndex,
    found: &ExtentResult<'_, D>,
) -> Result<LiveChunks, OutOfMemory>
    ensures { (checked : List Checked) → IsLocatorIndex checked locators.now →
        IfOk result (AreLiveChunks checked (scanned found.now)) }
{
    let items = found.findings().items();
    let kept = kept_among(alloc, &locators.sound, found.extent(), items)?;
    let bytes = bytes_of(&kept);
    Ok(LiveChunks { bytes, kept })
}

/// Adds one more extent.
fn add_extent<D: PageSource>(
    alloc: Global,
    geometry: Option<Geometry>,
    locators: &LocatorIndex,
    found: &ExtentResult<'_, D>,
    cursor: &mut Cursor<'_>,
    so_far: &mut LiveAndOrphans,
) -> Result<(), OutOfMemory>
    requires over { cursor.old.starts.now ≡ locators.now.sound }
    requires passed { HasPassed cursor.old (scanned found.now).extent 0 }
    ensures so_far { (checked : List Checked) (extents : List Scanned) → IsLocatorIndex checked locators.now →
        AreLiveAndOrphans geometry checked extents so_far.old →
        OnOk result (AreLiveAndOrphans geometry checked (extents ++ scanned found.now ∷ []) so_far.new) }
    ensures same { cursor.new.starts.now ≡ cursor.old.starts.now }
    ensures passed { OnOk result (HasPassed cursor.new ((scanned found.now).extent + 1) 0) }
{
    let items = found.findings().items();
    let live = live_among(alloc, found.extent(), items, cursor, &mut so_far.orphans)?;
    so_far.live.push(live.bytes)?;
    add_reclaimable(
        alloc,
        geometry,
        locators,
        found,
        live,
        &mut so_far.reclaimable,
    )
}

/// What is known of all extents; which may be reclaimed, only if the sizes of the disk are given. The places
/// are walked once, since the extents ascend, and so do the items in each.
pub(crate) fn part_chunks<D: PageSource>(
    alloc: Global,
    geometry: Option<Geometry>,
    locators: &LocatorIndex,
    all: &AllFindings<'_, D>,
) -> Result<LiveAndOrphans, OutOfMemory>
    ensures so_far { (checked : List Checked) → IsLocatorIndex checked locators.now →
        IfOk result (AreLiveAndOrphans geometry checked all.now.extents) }
    // The extents of every value of the type ascend.
    ensures rising { IsStrictlyIncreasing (extent_numbers all.now.extents) }
{
    let mut so_far = LiveAndOrphans {
        live: Vec::with_capacity(alloc, all.len())?,
        orphans: Vec::new(alloc),
        reclaimable: Vec::new(alloc),
    };
    let mut cursor = Cursor::new(&locators.sound);
    for found in all.results() {
        add_extent(alloc, geometry, locators, found, &mut cursor, &mut so_far)?;
    }
    Ok(so_far)
}
