//! The superblock of the disk with one shard, compared as a record with its bytes field by field; and the
//! plans of that disk and of a blank one.

ghost use Rattle.std.specs.Prelude.{IfOk, IfSome};
ghost use Rattle.scrub_super.specs.Planned.{AreRetired};

use crate::calls::Trial;
use crate::disks::{one_shard, restricted};
use crate::ending::{Stop, Wanted, refused, right};
use scrub_disk::PageSource;
use scrub_fakes::plan_of;
use scrub_fakes::worked::four_extents;
use scrub_frame::{Locator, digest_of, write_locator};
use scrub_super::{MAX_RUNS, Plan, Superblock};
use std::alloc::Global;
use std::io::Write;
use std::slice;

/// The pointers of the superblock.
const POINTERS: [u32; 2] = [41, 155];

/// What its record has before the pointers.
const HEAD: &[u8] = b"SSB1\0\0\0\0\0\0\0\x01\0\0\0\x40\0\0\0\x04\0\0\0\x03\0\x01";

/// Its record, with this run.
fn record_of(alloc: Global, run: &Locator) -> Result<Vec<u8>, Stop> {
    let mut record = Vec::from_slice(alloc, HEAD)?;
    for number in &POINTERS {
        record.extend_from_slice(&number.to_be_bytes())?;
    }
    record.extend_from_slice(&write_locator(run))?;
    let digest = digest_of(&record);
    record.extend_from_slice(&digest)?;
    Ok(record)
}

/// Whether a superblock is that one.
fn is_right(superblock: &Superblock, run: &Locator) -> bool {
    superblock.generation() == 1
        && superblock.version() == 1
        && superblock.pointers() == POINTERS.as_slice()
        && superblock.retired().is_empty()
        && superblock.runs() == slice::from_ref(run)
}

/// That superblock, which retires no extent of this plan.
fn superblock_of(alloc: Global, plan: &Plan, run: &Locator) -> Result<Superblock, Stop>
    ensures { IfOk result (λ s. IfSome s.retired (AreRetired plan.now.geometry.extents)) }
{
    let pointers = Vec::from_slice(alloc, &POINTERS)?;
    let runs = Vec::from_slice(alloc, slice::from_ref(run))?;
    Ok(Superblock::new(1, pointers, runs))
}

/// The record, appended to one byte.
pub fn write_record(alloc: Global, wanted: Wanted) -> Result<(), Stop> {
    let (disk, run) = one_shard(alloc)?;
    let record = record_of(alloc, &run)?;
    let plan = plan_of(alloc, &disk)?;
    let superblock = superblock_of(alloc, &plan, &run)?;
    let geometry = plan.geometry();
    let pointers = superblock.pointers();
    if pointers.len() + 1 != geometry.extents() as usize
        || !pointers.iter().all(|p| *p <= geometry.extent_bytes())
        || superblock.runs().len() > MAX_RUNS
    {
        return Err(Stop::Wrong);
    }
    let mut out = Vec::from_slice(alloc, &[7])?;
    wanted.made()?;
    if scrub_super::write_record(&mut out, geometry, &superblock).is_err() {
        return refused(out.as_slice() == [7].as_slice());
    }
    right(out.strip_prefix(&[7]) == Some(record.as_slice()))
}

/// That record, read again.
pub fn read_record(alloc: Global, wanted: Wanted) -> Result<(), Stop> {
    let (disk, run) = one_shard(alloc)?;
    let record = record_of(alloc, &run)?;
    wanted.made()?;
    match scrub_super::read_record(alloc, &record, disk.geometry())? {
        Some(superblock) => right(is_right(&superblock, &run)),
        None => Err(Stop::Wrong),
    }
}

/// The superblock that counts on the disk.
pub fn choose(alloc: Global, wanted: Wanted) -> Result<(), Stop> {
    let (disk, run) = one_shard(alloc)?;
    wanted.made()?;
    let chosen = scrub_super::choose(alloc, &disk)?;
    let superblock = chosen.superblock().ok_or(Stop::Wrong)?;
    right(
        is_right(superblock, &run)
            && chosen.page() == Some(0)
            && chosen.records() == 1
            && !chosen.tie()
            && chosen.bad_pages().is_empty(),
    )
}

/// The plan that follows from it.
pub fn make_plan(alloc: Global, wanted: Wanted) -> Result<(), Stop> {
    let (disk, run) = one_shard(alloc)?;
    let chosen = scrub_super::choose(alloc, &disk)?;
    wanted.made()?;
    let plan = Plan::make(alloc, &chosen, disk.geometry())?;
    if plan.geometry().extents() <= 2 {
        return Err(Stop::Wrong);
    }
    right(
        plan.planned() == [1, 2].as_slice()
            && plan.retired().is_empty()
            && plan.pointer(1) == 41
            && plan.pointer(2) == 155
            && plan.runs() == slice::from_ref(&run)
            && plan.has_superblock(),
    )
}

/// The plan of a blank disk of four extents, restricted to extents 1 and 3.
pub fn restrict(alloc: Global, wanted: Wanted) -> Result<(), Stop> {
    let disk = four_extents(alloc)?;
    let plan = restricted(alloc, &disk, wanted)?;
    if plan.geometry().extents() != 4 {
        return Err(Stop::Wrong);
    }
    right(
        plan.planned() == [1, 3].as_slice()
            && plan.retired().is_empty()
            && plan.pointer(1) == 256
            && plan.pointer(2) == 256
            && plan.pointer(3) == 256
            && plan.runs().is_empty()
            && !plan.has_superblock(),
    )
}

/// The calls of this module.
pub fn calls<O: Write>(alloc: Global, trial: &mut Trial<'_, O>) {
    made!(trial, "write_record", "", wanted => write_record(alloc, wanted));
    made!(trial, "read_record", "", wanted => read_record(alloc, wanted));
    made!(trial, "choose", "", wanted => choose(alloc, wanted));
    made!(trial, "Plan::make", "", wanted => make_plan(alloc, wanted));
    made!(trial, "Plan::restrict", "", wanted => restrict(alloc, wanted));
}
