//! Builders: what tests put on disks in memory. Each refuses what doesn't fit, and says what it put where.

ghost use Rattle.std.specs.Prelude.{◌≡◌, ◌≤◌, ◌-◌, [], ◌∷◌, IfOk, None, OnOk, IsTrue, length};
ghost use Rattle.std.specs.List.{range_with_len};
ghost use Rattle.scrub_disk.specs.Faults.{HasSizes};
ghost use Rattle.scrub_disk.specs.Memory.{image_of, Puts, Marks};
ghost use Rattle.scrub_frame.specs.declared.form.Form.{Form};
ghost use Rattle.scrub_frame.specs.Frame.{frame_of};
ghost use Rattle.scrub_run.specs.Run.{run_bytes};
ghost use Rattle.scrub_super.specs.steps.Limits.{ArePointers};
ghost use Rattle.scrub_super.specs.Planned.{AreChunkExtents, extents_in_use};
ghost use Rattle.scrub_fakes.specs.Builders.{IsSmall, IsLocatorOf, PutsRecord, IsPlanOfDisk};

use crate::OutOfMemory;
use scrub_disk::{Geometry, GeometryFault, MemDisk, PageSource};
use scrub_frame::{FrameFault, Locator, locate, write_frame, write_sealed};
use scrub_run::{Entry, ShardId, write_run};
use scrub_super::{MAX_RUNS, Plan, Superblock, choose, write_record};
use std::alloc::{AllocFailed, Global};
use thiserror::Error;
use uuid::Uuid;

/// Why a builder put nothing.
#[derive(Debug, Clone, Copy, PartialEq, Eq, Error)]
pub enum Misfit {
    /// It doesn't fit the disk, or isn't a valid record or run.
    #[error("it doesn't fit")]
    DoesNotFit,
    /// Out of memory.
    #[error("out of memory")]
    OutOfMemory,
}

impl From<OutOfMemory> for Misfit {
    fn from(_fault: OutOfMemory) -> Misfit {
        Misfit::OutOfMemory
    }
}

impl<T: Drop> From<AllocFailed<T>> for Misfit {
    fn from(_fault: AllocFailed<T>) -> Misfit {
        Misfit::OutOfMemory
    }
}

impl From<GeometryFault> for Misfit {
    fn from(_fault: GeometryFault) -> Misfit {
        Misfit::DoesNotFit
    }
}

impl From<FrameFault> for Misfit {
    fn from(fault: FrameFault) -> Misfit {
        match fault {
            FrameFault::TooLong => Misfit::DoesNotFit,
            FrameFault::OutOfMemory => Misfit::OutOfMemory,
        }
    }
}

/// The sizes of a small disk: three extents, each of four pages of 64 bytes.
pub fn small_geometry() -> Geometry
    ensures { HasSizes result 64 4 3 }
{
    match Geometry::new(64, 4, 3) {
        Ok(geometry) => geometry,
        Err(_) => unreachable!(),
    }
}

/// A blank disk of three extents, each of four pages of 64 bytes.
pub fn small_disk(alloc: Global) -> Result<MemDisk, OutOfMemory>
    ensures { IfOk result (λ disk. IsSmall (image_of disk)) }
{
    MemDisk::blank(alloc, small_geometry())
}

/// Puts bytes into an extent, from an offset in bytes on.
pub fn put(disk: &mut MemDisk, extent: u32, offset: u32, bytes: &[u8]) -> Result<(), Misfit>
    ensures { OnOk result (Puts (image_of disk.old) (image_of disk.new) extent offset bytes.now) }
{
    let geometry = disk.geometry();
    let fits = offset as usize + bytes.len() <= geometry.extent_bytes() as usize;
    if extent >= geometry.extents() || !fits {
        return Err(Misfit::DoesNotFit);
    }
    disk.put(extent, offset, bytes);
    Ok(())
}

/// Makes a page of an extent unreadable.
pub fn mark_bad(disk: &mut MemDisk, extent: u32, page: u32) -> Result<(), Misfit>
    ensures { OnOk result (Marks (image_of disk.old) (image_of disk.new) extent page) }
{
    let geometry = disk.geometry();
    if extent >= geometry.extents() || page >= geometry.pages() {
        return Err(Misfit::DoesNotFit);
    }
    disk.mark_bad(extent, page);
    Ok(())
}

/// Puts the plain frame of a UUID and a payload into an extent, and gives its locator.
pub fn put_chunk(
    alloc: Global,
    disk: &mut MemDisk,
    extent: u32,
    offset: u32,
    uuid: [u8; 16],
    payload: &[u8],
) -> Result<Locator, Misfit>
    ensures put { IfOk result (λ _. Puts (image_of disk.old) (image_of disk.new) extent offset
        (frame_of Form.Plain uuid payload.now)) }
    ensures locator { IfOk result (IsLocatorOf extent offset uuid payload.now) }
{
    let uuid = Uuid::from_bytes(uuid);
    let mut bytes = Vec::new(alloc);
    write_frame(&mut bytes, uuid, payload)?;
    put(disk, extent, offset, &bytes)?;
    Ok(locate(extent, offset, uuid, payload))
}

/// Puts the sealed frame of a UUID and a payload into an extent, and gives its locator.
pub fn put_sealed(
    alloc: Global,
    disk: &mut MemDisk,
    extent: u32,
    offset: u32,
    uuid: [u8; 16],
    payload: &[u8],
) -> Result<Locator, Misfit>
    ensures put { IfOk result (λ _. Puts (image_of disk.old) (image_of disk.new) extent offset
        (frame_of Form.Sealed uuid payload.now)) }
    ensures locator { IfOk result (IsLocatorOf extent offset uuid payload.now) }
{
    let uuid = Uuid::from_bytes(uuid);
    let mut bytes = Vec::new(alloc);
    write_sealed(&mut bytes, uuid, payload)?;
    put(disk, extent, offset, &bytes)?;
    Ok(locate(extent, offset, uuid, payload))
}

/// The payload of the run of one shard with at most 64 locators. Without locators it says that the shard was
/// deleted.
pub fn run_of(alloc: Global, id: ShardId, locators: &[Locator]) -> Result<Vec<u8>, Misfit>
    ensures { IfOk result (λ out. out.items ≡ run_bytes (record { id = id; locators = locators.now } ∷ [])) }
{
    if locators.len() > 64 {
        return Err(Misfit::DoesNotFit);
    }
    let entry = Entry::new(id, Vec::from_slice(alloc, locators)?);
    Ok(write_run(alloc, &[entry])?)
}

/// Whether a record for this geometry can hold these pointers and runs.
fn are_contents(geometry: Geometry, pointers: &[u32], runs: &[Locator]) -> bool
    ensures { IsTrue result → ArePointers geometry pointers.now × (length runs.now ≤ MAX_RUNS) }
{
    pointers.len() + 1 == geometry.extents() as usize
        && runs.len() <= MAX_RUNS
        && pointers
            .iter()
            .all(|pointer| *pointer <= geometry.extent_bytes())
}

/// Whether extents are ascending, each from 1 up to `end`, which isn't among them.
fn are_chunk_extents(extents: &[u32], end: u32) -> bool
    requires { 1 ≤ end }
    ensures { IsTrue result → AreChunkExtents end extents.now }
{
    let mut next = 1;
    for i in 0..extents.len() {
        if extents[i] < next || extents[i] >= end {
            return false;
        }
        next = extents[i] + 1;
    }
    true
}

/// Puts the record of a superblock on a page of extent 0, and gives its length in bytes. It has a pointer for
/// each extent but extent 0, none past the extent's end, at most 32 runs, and retires extents of the disk by
/// ascending numbers, if any.
pub fn put_contents(
    alloc: Global,
    disk: &mut MemDisk,
    page: u32,
    superblock: &Superblock,
) -> Result<usize, Misfit>
    ensures { IfOk result (PutsRecord (image_of disk.old) (image_of disk.new) page superblock.now) }
{
    let geometry = disk.geometry();
    if page >= geometry.pages()
        || !are_contents(geometry, superblock.pointers(), superblock.runs())
        || !are_chunk_extents(superblock.retired(), geometry.extents())
    {
        return Err(Misfit::DoesNotFit);
    }
    let mut record = Vec::new(alloc);
    write_record(&mut record, geometry, superblock)?;
    put(disk, 0, page * geometry.page(), &record)?;
    Ok(record.len())
}

/// Puts a superblock record on a page of extent 0, and gives its length in bytes. It has a pointer for each
/// extent but extent 0, none past the extent's end, at most 32 runs, and no retired extents.
pub fn put_record(
    alloc: Global,
    disk: &mut MemDisk,
    page: u32,
    generation: u64,
    pointers: &[u32],
    runs: &[Locator],
) -> Result<usize, Misfit>
    ensures { IfOk result (PutsRecord (image_of disk.old) (image_of disk.new) page
        (record { generation = generation; pointers = pointers.now; retired = None; runs = runs.now })) }
{
    let superblock = Superblock::new(
        generation,
        Vec::from_slice(alloc, pointers)?,
        Vec::from_slice(alloc, runs)?,
    );
    put_contents(alloc, disk, page, &superblock)
}

/// Puts a superblock record of generation 1 on page 0 of extent 0, and gives its length in bytes.
pub fn put_superblock(
    alloc: Global,
    disk: &mut MemDisk,
    pointers: &[u32],
    runs: &[Locator],
) -> Result<usize, Misfit>
    ensures { IfOk result (PutsRecord (image_of disk.old) (image_of disk.new) 0
        (record { generation = 1; pointers = pointers.now; retired = None; runs = runs.now })) }
{
    put_record(alloc, disk, 0, 1, pointers, runs)
}

/// The plan of a disk, by the superblock that counts there, which must not retire an extent.
pub fn plan_of(alloc: Global, disk: &MemDisk) -> Result<Plan, Misfit>
    ensures plan { IfOk result (IsPlanOfDisk (image_of disk.now)) }
    ensures geometry { IfOk result (λ plan. plan.geometry ≡ (image_of disk.now).geometry) }
    ensures planned { IfOk result (λ plan.
        plan.planned ≡ range_with_len 1 ((image_of disk.now).geometry.extents - 1)) }
    ensures in_use { IfOk result (λ plan.
        plan.planned ≡ extents_in_use (image_of disk.now).geometry.extents plan.retired) }
{
    let chosen = choose(alloc, disk)?;
    let plan = Plan::make(alloc, &chosen, disk.geometry())?;
    if !plan.retired().is_empty() {
        return Err(Misfit::DoesNotFit);
    }
    Ok(plan)
}
