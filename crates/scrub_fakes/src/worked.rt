//! The worked disks of the format's description. For what is found on them see the tests.

ghost use Rattle.std.specs.Prelude.{◌≡◌, IfOk};
ghost use Rattle.scrub_disk.specs.Memory.{image_of};

use crate::disk::{Misfit, mark_bad, put, put_chunk, put_record, put_superblock, small_disk};
use crate::payloads::{broken_run, entry_of, has_length, payload_of, put_run, two_shards_payload};
use crate::samples::{ENDS_IN_MAGIC, FOURS, ONES, THREES, TWOS, abc_at, shard_of};
use scrub_disk::{Geometry, MemDisk, PageSource};
use scrub_frame::Locator;
use std::alloc::Global;
use std::slice;
use uuid::Uuid;

/// A disk of three extents with `abc` at the start of extent 1, and no superblock.
pub fn abc_alone(alloc: Global) -> Result<MemDisk, Misfit> {
    let mut disk = small_disk(alloc)?;
    put_chunk(alloc, &mut disk, 1, 0, ONES, b"abc")?;
    Ok(disk)
}

/// Writes to a blank disk of three extents: `abc` at the start of extent 1, the run of one shard that names
/// it in extent 2, and the superblock of both. Returns the run's locator.
pub fn put_abc_and_its_run(alloc: Global, disk: &mut MemDisk) -> Result<Locator, Misfit> {
    put_chunk(alloc, disk, 1, 0, ONES, b"abc")?;
    let run = put_run(alloc, disk, 2, 0, TWOS, &[abc_at(1, 0)])?;
    put_superblock(alloc, disk, &[41, 155], slice::from_ref(&run))?;
    Ok(run)
}

/// A blank disk of four extents, each of four pages of 64 bytes.
pub fn four_extents(alloc: Global) -> Result<MemDisk, Misfit>
    ensures { IfOk result (λ disk. (image_of disk).geometry.extents ≡ 4) }
{
    Ok(MemDisk::blank(alloc, Geometry::new(64, 4, 4)?)?)
}

/// A disk of four extents with `abc` at the start of extent 1.
fn abc_on_four_extents(alloc: Global) -> Result<MemDisk, Misfit> {
    let mut disk = four_extents(alloc)?;
    put_chunk(alloc, &mut disk, 1, 0, ONES, b"abc")?;
    Ok(disk)
}

/// A disk of four extents with `abc` in extent 1 and three runs of one shard. The newest, at the start of
/// extent 2, deletes it; the one after it and the one in extent 3 name the chunk.
pub fn deleted_in_the_newest_run(alloc: Global) -> Result<MemDisk, Misfit> {
    let mut disk = abc_on_four_extents(alloc)?;
    let newest = put_run(alloc, &mut disk, 2, 0, TWOS, &[])?;
    let older = put_run(alloc, &mut disk, 2, 95, THREES, &[abc_at(1, 0)])?;
    let oldest = put_run(alloc, &mut disk, 3, 0, FOURS, &[abc_at(1, 0)])?;
    let runs = [newest, older, oldest];
    let record = put_superblock(alloc, &mut disk, &[41, 250, 155], &runs)?;
    has_length(record, 250)?;
    Ok(disk)
}

/// A disk of four extents with `abc` in extent 1 and two runs of one shard. The newer, in extent 2, deletes
/// it, but the last bit of its digest is flipped; the older, in extent 3, names the chunk.
pub fn broken_newest_run(alloc: Global) -> Result<MemDisk, Misfit> {
    let mut disk = abc_on_four_extents(alloc)?;
    let broken = broken_run(alloc)?;
    let newer = put_chunk(alloc, &mut disk, 2, 0, TWOS, &broken)?;
    let older = put_run(alloc, &mut disk, 3, 0, THREES, &[abc_at(1, 0)])?;
    put_superblock(alloc, &mut disk, &[41, 95, 155], &[newer, older])?;
    Ok(disk)
}

/// A disk of three extents with `abc` in extent 1 and the run that names it in extent 2. The superblock names
/// the run twice.
fn run_named_twice(alloc: Global) -> Result<MemDisk, Misfit> {
    let mut disk = small_disk(alloc)?;
    let run = put_abc_and_its_run(alloc, &mut disk)?;
    let record = put_superblock(alloc, &mut disk, &[41, 155], &[run; 2])?;
    has_length(record, 186)?;
    Ok(disk)
}

/// The locators of the shard on the disk of `nine_locators`, in its order. No two of them have the same
/// status there.
pub fn nine_of_a_shard() -> [Locator; 9] {
    let abc = abc_at(1, 0);
    let other_uuid = Locator {
        uuid: Uuid::from_bytes(TWOS),
        ..abc
    };
    let other_digest = Locator {
        digest: [0; 32],
        ..abc
    };
    [
        abc_at(4, 0),
        abc_at(1, 600),
        abc_at(1, 300),
        abc_at(1, 41),
        other_uuid,
        Locator { length: 4, ..abc },
        other_digest,
        abc_at(2, 256),
        abc,
    ]
}

/// A disk with pages of 256 bytes, eight pages an extent, four extents, and the pointers 512, 297 and 635.
/// Extent 1 has `abc` at 0, and its page 1 is unreadable. Extent 2 has a frame of 258 bytes at 0; its last
/// two bytes are the magic of the frame of `abc` at 256. Extent 3 has the run of one shard with the nine
/// locators. Returns the run's locator.
pub fn nine_locators(alloc: Global) -> Result<(MemDisk, Locator), Misfit> {
    let mut disk = collision(alloc)?;
    put_chunk(alloc, &mut disk, 1, 0, ONES, b"abc")?;
    mark_bad(&mut disk, 1, 1)?;
    let run = put_run(alloc, &mut disk, 3, 0, TWOS, &nine_of_a_shard())?;
    has_length(run.length as usize, 597)?;
    put_superblock(alloc, &mut disk, &[512, 297, 635], slice::from_ref(&run))?;
    Ok((disk, run))
}

/// A disk with pages of 256 bytes, eight pages an extent and four extents. Extent 2 has a frame of 258 bytes
/// at 0; its last two bytes are the magic of the frame of `abc` at 256.
pub fn collision(alloc: Global) -> Result<MemDisk, Misfit> {
    let mut disk = MemDisk::blank(alloc, Geometry::new(256, 8, 4)?)?;
    put_chunk(alloc, &mut disk, 2, 0, ENDS_IN_MAGIC, &[0x78; 220])?;
    put_chunk(alloc, &mut disk, 2, 256, ONES, b"abc")?;
    Ok(disk)
}

/// A disk of three extents. Extent 1 begins with a frame of 66 bytes whose UUID ends in the magic; `abc`,
/// written at 64, overwrites its last two bytes. Extent 2 has the run of one shard with this `abc`.
fn overwritten_end(alloc: Global) -> Result<MemDisk, Misfit> {
    let mut disk = small_disk(alloc)?;
    put_chunk(alloc, &mut disk, 1, 0, ENDS_IN_MAGIC, &[0x78; 28])?;
    put_chunk(alloc, &mut disk, 1, 64, ONES, b"abc")?;
    let run = put_run(alloc, &mut disk, 2, 0, TWOS, &[abc_at(1, 64)])?;
    put_superblock(alloc, &mut disk, &[105, 155], slice::from_ref(&run))?;
    Ok(disk)
}

/// A disk of three extents with `abc` at 0 and 41 of extent 1, and a run that names only the second.
fn half_garbage(alloc: Global) -> Result<MemDisk, Misfit> {
    let mut disk = abc_alone(alloc)?;
    put_chunk(alloc, &mut disk, 1, 41, ONES, b"abc")?;
    let run = put_run(alloc, &mut disk, 2, 0, TWOS, &[abc_at(1, 41)])?;
    put_superblock(alloc, &mut disk, &[82, 155], slice::from_ref(&run))?;
    Ok(disk)
}

/// A disk of three extents with `abc` at the start of extent 1, and the run of one shard that names it in
/// extent 2.
pub fn one_shard(alloc: Global) -> Result<MemDisk, Misfit> {
    let mut disk = small_disk(alloc)?;
    put_abc_and_its_run(alloc, &mut disk)?;
    Ok(disk)
}

/// The disk of `one_shard`, with these pages of an extent unreadable.
fn one_shard_without(alloc: Global, extent: u32, pages: &[u32]) -> Result<MemDisk, Misfit> {
    let mut disk = one_shard(alloc)?;
    for page in pages {
        mark_bad(&mut disk, extent, *page)?;
    }
    Ok(disk)
}

/// A disk of three extents with `abc` under one UUID at 0 and 41 of extent 1. The run in extent 2 has two
/// shards, which both name the second. Returns the run's payload with the disk.
pub fn twins_and_shared(alloc: Global) -> Result<(MemDisk, Vec<u8>), Misfit> {
    let mut disk = abc_alone(alloc)?;
    put_chunk(alloc, &mut disk, 1, 41, ONES, b"abc")?;
    let payload = two_shards_payload(alloc)?;
    has_length(payload.len(), 194)?;
    let run = put_chunk(alloc, &mut disk, 2, 0, TWOS, &payload)?;
    put_superblock(alloc, &mut disk, &[82, 232], slice::from_ref(&run))?;
    Ok((disk, payload))
}

/// A disk of three extents with `abc` in extent 1, past the write pointer.
fn past_the_pointer(alloc: Global) -> Result<MemDisk, Misfit> {
    let mut disk = abc_alone(alloc)?;
    put_superblock(alloc, &mut disk, &[0, 0], &[])?;
    Ok(disk)
}

/// A disk of three extents with a frame of 98 bytes at the start of extent 1. Page 1 of that extent is
/// unreadable.
fn torn_frame(alloc: Global) -> Result<MemDisk, Misfit> {
    let mut disk = small_disk(alloc)?;
    put_chunk(alloc, &mut disk, 1, 0, ONES, &[0x78; 60])?;
    put_superblock(alloc, &mut disk, &[98, 0], &[])?;
    mark_bad(&mut disk, 1, 1)?;
    Ok(disk)
}

/// A disk of one shard with two superblocks: one of generation 7 on page 0, and one of this generation on
/// page 2, with the pointers 0 and 155.
fn two_superblocks(alloc: Global, generation: u64) -> Result<MemDisk, Misfit> {
    let mut disk = small_disk(alloc)?;
    let run = put_abc_and_its_run(alloc, &mut disk)?;
    put_record(alloc, &mut disk, 0, 7, &[41, 155], slice::from_ref(&run))?;
    put_record(
        alloc,
        &mut disk,
        2,
        generation,
        &[0, 155],
        slice::from_ref(&run),
    )?;
    Ok(disk)
}

/// The last byte of the record on page 2 of extent 0, which ends on page 3.
fn last_byte(disk: &MemDisk) -> Result<u8, Misfit> {
    let geometry = disk.geometry();
    if geometry.page() != 64 || geometry.pages() != 4 {
        return Err(Misfit::DoesNotFit);
    }
    let mut page = [0; 64];
    match disk.read_page(0, 3, &mut page) {
        Ok(()) => Ok(page[61]),
        Err(_) => Err(Misfit::DoesNotFit),
    }
}

/// The disk of two superblocks. The one on page 2 is newer, but the last bit of its last byte is flipped.
fn broken_superblock(alloc: Global) -> Result<MemDisk, Misfit> {
    let mut disk = two_superblocks(alloc, 8)?;
    let last = last_byte(&disk)?;
    put(&mut disk, 0, 192 + 61, &[last ^ 1])?;
    Ok(disk)
}

/// A disk of 40 extents, each of 64 pages of 64 bytes. Extents 1 to 38 each begin with `abc`, under a UUID of
/// sixteen bytes that are the extent's number. Extent 39 has the run of 38 shards, each of one of these
/// chunks. Returns the run's payload with the disk.
pub fn many_shards(alloc: Global) -> Result<(MemDisk, Vec<u8>), Misfit> {
    let mut disk = MemDisk::blank(alloc, Geometry::new(64, 64, 40)?)?;
    let (mut entries, mut pointers) = (Vec::new(alloc), Vec::new(alloc));
    for byte in 1..39 {
        let chunk = put_chunk(alloc, &mut disk, u32::from(byte), 0, [byte; 16], b"abc")?;
        entries.push(entry_of(alloc, shard_of(byte), chunk)?)?;
        pointers.push(41)?;
    }
    let payload = payload_of(alloc, &entries)?;
    has_length(payload.len(), 2_966)?;
    let run = put_chunk(alloc, &mut disk, 39, 0, [0xF0; 16], &payload)?;
    pointers.push(3_004)?;
    put_superblock(alloc, &mut disk, &pointers, slice::from_ref(&run))?;
    Ok((disk, payload))
}

/// The worked disks that tables name. For what is on a disk see the function that makes it.
#[derive(Debug, Clone, Copy, PartialEq, Eq)]
pub enum Worked {
    Zeros,
    OneShard,
    /// The disk of one shard, with these pages of an extent unreadable.
    Without(u32, &'static [u32]),
    PastThePointer,
    TornFrame,
    HalfGarbage,
    OverwrittenEnd,
    TwinsAndShared,
    RunNamedTwice,
    DeletedInTheNewestRun,
    BrokenNewestRun,
    /// The second superblock has this generation.
    TwoSuperblocks(u64),
    BrokenSuperblock,
}

impl Worked {
    /// Makes the disk.
    pub fn disk(self, alloc: Global) -> Result<MemDisk, Misfit> {
        match self {
            Worked::Zeros => Ok(small_disk(alloc)?),
            Worked::OneShard => one_shard(alloc),
            Worked::Without(extent, pages) => one_shard_without(alloc, extent, pages),
            Worked::PastThePointer => past_the_pointer(alloc),
            Worked::TornFrame => torn_frame(alloc),
            Worked::HalfGarbage => half_garbage(alloc),
            Worked::OverwrittenEnd => overwritten_end(alloc),
            Worked::TwinsAndShared => Ok(twins_and_shared(alloc)?.0),
            Worked::RunNamedTwice => run_named_twice(alloc),
            Worked::DeletedInTheNewestRun => deleted_in_the_newest_run(alloc),
            Worked::BrokenNewestRun => broken_newest_run(alloc),
            Worked::TwoSuperblocks(generation) => two_superblocks(alloc, generation),
            Worked::BrokenSuperblock => broken_superblock(alloc),
        }
    }
}
