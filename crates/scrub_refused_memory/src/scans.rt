//! What is found in extents: tilings and their lines, findings of one extent and of all, and frames at given
//! places.

ghost use Rattle.std.specs.Prelude.{◌≡◌, IfOk, Some};
ghost use Rattle.scrub_disk.specs.Memory.{image_of};
ghost use Rattle.scrub_super.specs.Plan.{pointer_of};
ghost use Rattle.scrub_scan.specs.Scanned.{scanned, result_image};

use crate::calls::Trial;
use crate::disks::one_shard;
use crate::ending::{Stop, Wanted, right};
use scrub_disk::{MemDisk, PageSource};
use scrub_fakes::payloads::one_shard_payload;
use scrub_fakes::worked::{abc_alone, four_extents, nine_locators};
use scrub_fakes::{ABC_DIGEST, ENDS_IN_MAGIC, ONES, TWOS, plan_of};
use scrub_frame::{Form, digest_of};
use scrub_scan::{AllFindings, ExtentResult, Item, Standing};
use scrub_super::Plan;
use std::alloc::Global;
use std::io::Write;
use uuid::Uuid;

/// The item of the plain frame at the start of an extent.
fn chunk(uuid: [u8; 16], length: u32, stop: u32, digest: [u8; 32]) -> Item {
    Item::Chunk {
        form: Form::Plain,
        start: 0,
        stop,
        uuid: Uuid::from_bytes(uuid),
        length,
        digest,
    }
}

/// The item of the frame of `abc` at the start of an extent.
fn abc_chunk() -> Item {
    chunk(ONES, 3, 41, ABC_DIGEST)
}

/// The four pages of zeros of an extent, without a superblock.
const PADS: [Item; 4] = [
    Item::Pad { start: 0, stop: 64 },
    Item::Pad {
        start: 64,
        stop: 128,
    },
    Item::Pad {
        start: 128,
        stop: 192,
    },
    Item::Pad {
        start: 192,
        stop: 256,
    },
];

/// The items of an extent with `abc` up to its pointer.
pub fn tile(alloc: Global, wanted: Wanted) -> Result<(), Stop> {
    let disk = abc_alone(alloc)?;
    let geometry = disk.geometry();
    if geometry.extents() <= 1 || geometry.extent_bytes() < 41 {
        return Err(Stop::Wrong);
    }
    wanted.made()?;
    let items = scrub_scan::tile(alloc, &disk, 1, 41)?;
    right(items.as_slice() == [abc_chunk()].as_slice())
}

/// The line of that item.
pub fn item_line(alloc: Global, wanted: Wanted) -> Result<(), Stop> {
    wanted.made()?;
    let line = scrub_scan::item_line(alloc, &abc_chunk())?;
    right(line.as_str() == "chunk 0 41 11111111-1111-1111-1111-111111111111 3")
}

/// Whether a result is that of a readable extent, with this pointer and these items, and nothing past the
/// pointer.
fn has(found: &ExtentResult<'_, MemDisk>, extent: u32, pointer: u32, items: &[Item]) -> bool {
    let findings = found.findings();
    found.extent() == extent
        && found.pointer() == pointer
        && findings.items() == items
        && findings.tail_count() == 0
        && findings.tail_first().is_none()
        && findings.bad_pages().is_empty()
}

/// Extent 1 of a blank disk of four.
pub fn scan_extent(alloc: Global, wanted: Wanted) -> Result<(), Stop> {
    let disk = four_extents(alloc)?;
    let plan = plan_of(alloc, &disk)?;
    if !plan.planned().contains(&1) {
        return Err(Stop::Wrong);
    }
    wanted.made()?;
    let found = scrub_scan::scan_extent(alloc, &disk, &plan, 1)?;
    right(has(&found, 1, 256, &PADS))
}

/// The result of a planned extent.
pub fn scan_planned<'d>(
    alloc: Global,
    disk: &'d MemDisk,
    plan: &Plan,
    extent: u32,
) -> Result<ExtentResult<'d, MemDisk>, Stop>
    requires { plan.now.geometry ≡ (image_of disk.now).geometry }
    ensures image { IfOk result (λ r. result_image r ≡ image_of disk.now) }
    ensures extent { IfOk result (λ r. (scanned r).extent ≡ extent) }
    ensures pointer { IfOk result (λ r. pointer_of plan.now extent ≡ Some (scanned r).pointer) }
{
    if !plan.planned().contains(&extent) {
        return Err(Stop::Wrong);
    }
    Ok(scrub_scan::scan_extent(alloc, disk, plan, extent)?)
}

/// Whether findings are those of the disk with one shard.
pub fn are_of_one_shard(found: &AllFindings<'_, MemDisk>, run: &Item) -> bool {
    found.len() == 2
        && has(found.result_at(0), 1, 41, &[abc_chunk()])
        && has(found.result_at(1), 2, 155, &[*run])
}

/// The item of the run of one shard, by its payload.
pub fn run_chunk(payload: &[u8]) -> Item {
    chunk(TWOS, 117, 155, digest_of(payload))
}

/// All extents of the disk with one shard, by one reader.
pub fn scan_in_order(alloc: Global, wanted: Wanted) -> Result<(), Stop> {
    let (disk, _) = one_shard(alloc)?;
    let plan = plan_of(alloc, &disk)?;
    let run = run_chunk(&one_shard_payload(alloc)?);
    wanted.made()?;
    let found = scrub_scan::scan_in_order(alloc, &disk, &plan)?;
    right(are_of_one_shard(&found, &run))
}

/// The plain frame of a payload, at a place.
fn standing(extent: u32, offset: u32, uuid: [u8; 16], payload: &[u8]) -> Standing {
    Standing {
        extent,
        offset,
        form: Form::Plain,
        uuid: Uuid::from_bytes(uuid),
        length: if payload.len() == 3 { 3 } else { 220 },
        digest: digest_of(payload),
    }
}

/// The two frames in extent 2 of the disk of nine locators, the second of which the tiling steps past, and a
/// place of extent 1 without a frame.
pub fn frame_stands(alloc: Global, wanted: Wanted) -> Result<(), Stop> {
    let (disk, _) = nine_locators(alloc)?;
    let geometry = disk.geometry();
    if geometry.extents() <= 2 || geometry.extent_bytes() < 297 {
        return Err(Stop::Wrong);
    }
    let long = standing(2, 0, ENDS_IN_MAGIC, &[0x78; 220]);
    let abc = standing(2, 256, ONES, b"abc");
    wanted.made()?;
    let first = scrub_scan::frame_stands(alloc, &disk, 297, 2, 0)?;
    let second = scrub_scan::frame_stands(alloc, &disk, 297, 2, 256)?;
    let none = scrub_scan::frame_stands(alloc, &disk, 297, 1, 41)?;
    right(first == Some(long) && second == Some(abc) && none.is_none())
}

/// The payloads of these two frames.
pub fn read_payload(alloc: Global, wanted: Wanted) -> Result<(), Stop> {
    let (disk, _) = nine_locators(alloc)?;
    let geometry = disk.geometry();
    if geometry.extents() <= 2 || geometry.extent_bytes() < 297 {
        return Err(Stop::Wrong);
    }
    let first = scrub_scan::frame_stands(alloc, &disk, 297, 2, 0)?.ok_or(Stop::Wrong)?;
    let second = scrub_scan::frame_stands(alloc, &disk, 297, 2, 256)?.ok_or(Stop::Wrong)?;
    wanted.made()?;
    let long = scrub_scan::read_payload(alloc, &disk, &first)?;
    let abc = scrub_scan::read_payload(alloc, &disk, &second)?;
    right(long.as_slice() == [0x78; 220].as_slice() && abc.as_slice() == b"abc".as_slice())
}

/// The calls of this module.
pub fn calls<O: Write>(alloc: Global, trial: &mut Trial<'_, O>) {
    made!(trial, "tile", "", wanted => tile(alloc, wanted));
    made!(trial, "item_line", "", wanted => item_line(alloc, wanted));
    made!(trial, "scan_extent", "", wanted => scan_extent(alloc, wanted));
    made!(trial, "scan_in_order", "", wanted => scan_in_order(alloc, wanted));
    made!(trial, "frame_stands", "", wanted => frame_stands(alloc, wanted));
    made!(trial, "read_payload", "", wanted => read_payload(alloc, wanted));
}
