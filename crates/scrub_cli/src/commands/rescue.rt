//! The map of the rescue that made an image: reading it, and losing the pages and blocks that it lacks. For
//! its lines see `scrub_map`.

ghost use Rattle.std.specs.Prelude.{◌≡◌, ◌<◌, ◌≤◌, ◌+◌, ◌^◌, IfOk, List, MatchResult, Option};
ghost use Rattle.scrub_disk.specs.Limits.{max_extent_bytes};
ghost use Rattle.scrub_map.specs.declared.block.MapBlock.{MapBlock};
ghost use Rattle.scrub_map.specs.MissingBytes.{KeepsBlocks};
ghost use Rattle.scrub_cli.specs.KnownFiles.{IsKnownAs, KnownRaw};
ghost use Rattle.scrub_cli.specs.Rescue.{IsFrontRead, IsMapFault, IsMapNamed, KeepsMap, LosesByMap};
ghost use Rattle.scrub_cli.specs.Rescue.{LosesPages};

use crate::process::fault::Fault;
use crate::process::images::{Images, MapReadFault};
use scrub_disk::{MarkPages, OutOfMemory, RawImage, mark_lost};
use scrub_map::{RescueMap, read_map};
use scrub_super::{BLOCK_BYTES, Front};
use std::alloc::Global;

/// The map of this name, if one is given. Faults, in this order: it can't be opened, and its first line that
/// breaks the rules.
pub fn rescue_map<'a, I: Images>(
    alloc: Global,
    name: Option<&'a str>,
    images: &mut I,
) -> Result<Option<RescueMap>, Fault<'a>>
    ensures map { MatchResult result
        (IsMapNamed (I.known_map images.old) name.entry)
        (IsMapFault (I.known_map images.old) name.entry) }
    ensures same_images { I.known images.new ≡ I.known images.old }
    ensures same_maps { I.known_map images.new ≡ I.known_map images.old }
{
    let Some(name) = name else {
        return Ok(None);
    };
    let text = match images.map(alloc, name) {
        Ok(text) => text,
        Err(MapReadFault::NotOpened) => return Err(Fault::NoMap(name)),
        Err(MapReadFault::OutOfMemory) => return Err(Fault::OutOfMemory),
    };
    Ok(Some(read_map(alloc, &text)?))
}

/// The front of a raw image, without the blocks that the map lacks, if there is a map.
pub fn front_of<R: RawImage>(
    alloc: Global,
    raw: &mut R,
    map: &Option<RescueMap>,
) -> Result<Front, OutOfMemory>
    requires { R.reads raw.old < 2 ^ 62 }
    ensures front { IfOk result (λ front. (known : KnownRaw) →
        IsKnownAs R.bytes R.fails R.most_failures R.reads known raw.old →
        (blocks : Option (List MapBlock)) → KeepsMap map.now blocks → IsFrontRead known blocks front) }
    ensures same_bytes { R.bytes raw.new ≡ R.bytes raw.old }
    ensures same_fails { R.fails raw.new ≡ R.fails raw.old }
    ensures same_bound { R.most_failures raw.new ≡ R.most_failures raw.old }
    ensures reads { R.reads raw.new ≤ R.reads raw.old + max_extent_bytes }
{
    let front = Front::read(alloc, raw)?;
    match map {
        Some(map) => {
            let lost = map.lost_blocks(alloc, BLOCK_BYTES as u32, front.size() as u64)?;
            Ok(front.without(&lost))
        }
        None => Ok(front),
    }
}

/// The disk without the pages that the map lacks, if there is a map.
pub fn apply_map<D: MarkPages + Drop>(
    alloc: Global,
    disk: D,
    map: &Option<RescueMap>,
) -> Result<D, OutOfMemory>
    ensures { IfOk result (λ r. (blocks : Option (List MapBlock)) → KeepsMap map.now blocks →
        LosesByMap blocks (D.image disk) (D.image r)) }
{
    match map {
        Some(map) => without_lost(alloc, disk, map),
        None => Ok(disk),
    }
}

/// The disk, with each page unreadable that has a byte which the map lacks.
fn without_lost<D: MarkPages + Drop>(
    alloc: Global,
    mut disk: D,
    map: &RescueMap,
) -> Result<D, OutOfMemory>
    ensures { IfOk result (λ r. (blocks : List MapBlock) → KeepsBlocks map.now blocks →
        LosesPages blocks (D.image disk) (D.image r)) }
{
    let geometry = disk.geometry();
    let bytes = geometry.extent_bytes() as u64 * geometry.extents() as u64;
    let lost = map.lost_blocks(alloc, geometry.page(), bytes)?;
    mark_lost(&mut disk, &lost);
    Ok(disk)
}
