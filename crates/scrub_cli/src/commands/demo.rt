//! The command `demo`: the report of a small disk that the program makes itself.

ghost use Rattle.std.specs.Prelude.{◌≡◌, ◌≤◌, ◌∷◌, [], IfOk, None, length};
ghost use Rattle.scrub_disk.specs.Faults.{HasSizes};
ghost use Rattle.scrub_disk.specs.Memory.{image_of};
ghost use Rattle.scrub_frame.specs.declared.form.Form.{Form};
ghost use Rattle.scrub_frame.specs.Frame.{frame_of, longest_payload};
ghost use Rattle.scrub_run.specs.Run.{run_bytes};
ghost use Rattle.scrub_super.specs.Record.{record_bytes};
ghost use Rattle.scrub_cli.specs.Demo.{demo_shard, demo_pointers, IsDemoDisk, IsDemoAnswer};

use crate::commands::answer::{Answer, disk_answer};
use scrub_args::ScanOutput;
use scrub_disk::{Geometry, MemDisk, OutOfMemory};
use scrub_found::ScrubFault;
use scrub_frame::{FrameFault, Locator, locate, write_frame};
use scrub_pool::Takings;
use scrub_run::{Entry, ShardId, write_run};
use scrub_super::{Superblock, write_record};
use std::alloc::Global;
use std::sync::Wait;
use std::thread::Threads;
use uuid::Uuid;

/// The payload of the demo's chunk.
const PAYLOAD: &[u8; 3] = b"abc";
/// The demo's shard.
const SHARD: ShardId = ShardId([0, 0, 0, 0, 0, 0, 0, 0, 0, 0, 0, 0, 0, 0, 0, 1]);
/// The write pointers of extents 1 and 2, in bytes. Each is the end of the frame in its extent.
const POINTERS: [u32; 2] = [41, 155];

/// How many workers scan the demo's disk beside the caller.
const WORKERS: u32 = 2;

/// The plain frame of a UUID and a payload.
fn frame_of(alloc: Global, uuid: Uuid, payload: &[u8]) -> Result<Vec<u8>, OutOfMemory>
    requires { length payload.now ≤ longest_payload Form.Plain }
    ensures { IfOk result (λ bytes. bytes.items ≡ frame_of Form.Plain uuid payload.now) }
{
    let mut bytes = Vec::new(alloc);
    match write_frame(&mut bytes, uuid, payload) {
        Ok(()) => Ok(bytes),
        Err(FrameFault::OutOfMemory) => Err(OutOfMemory),
        Err(FrameFault::TooLong) => unreachable!(),
    }
}

/// The run of the demo's shard, which has this chunk.
fn run_of(alloc: Global, chunk: Locator) -> Result<Vec<u8>, OutOfMemory>
    ensures bytes { IfOk result (λ bytes. bytes.items ≡
        run_bytes (record { id = demo_shard; locators = chunk ∷ [] } ∷ [])) }
    ensures size { IfOk result (λ bytes. length bytes.items ≡ 117) }
{
    let entry = Entry::new(SHARD, Vec::from_slice(alloc, &[chunk])?);
    write_run(alloc, &[entry])
}

/// The demo's superblock record, which names this run.
fn record_of(alloc: Global, geometry: Geometry, run: Locator) -> Result<Vec<u8>, OutOfMemory>
    requires { HasSizes geometry 64 4 3 }
    ensures size { IfOk result (λ bytes. length bytes.items ≡ 126) }
    ensures bytes { IfOk result (λ bytes. bytes.items ≡
        record_bytes geometry (record {
          generation = 1;
          pointers = demo_pointers;
          retired = None;
          runs = run ∷ [];
        })) }
{
    let pointers = Vec::from_slice(alloc, &POINTERS)?;
    let superblock = Superblock::new(1, pointers, Vec::from_slice(alloc, &[run])?);
    let mut bytes = Vec::new(alloc);
    write_record(&mut bytes, geometry, &superblock)?;
    Ok(bytes)
}

/// The disk of the demo: three extents of four pages of 64 bytes, with a chunk in extent 1, the run that
/// names it in extent 2, and the superblock that names the run.
fn demo_disk(alloc: Global) -> Result<MemDisk, OutOfMemory>
    ensures { IfOk result (λ disk. IsDemoDisk (image_of disk)) }
{
    let geometry = Geometry {
        page: 64,
        pages: 4,
        extents: 3,
    };
    let (ones, twos) = (Uuid::from_bytes([0x11; 16]), Uuid::from_bytes([0x22; 16]));
    let mut disk = MemDisk::blank(alloc, geometry)?;
    let chunk = frame_of(alloc, ones, PAYLOAD)?;
    disk.put(1, 0, &chunk);
    let payload = run_of(alloc, locate(1, 0, ones, PAYLOAD))?;
    let run = frame_of(alloc, twos, &payload)?;
    disk.put(2, 0, &run);
    let superblock = record_of(alloc, geometry, locate(2, 0, twos, &payload))?;
    disk.put(0, 0, &superblock);
    Ok(disk)
}

/// The report of the demo's disk, and the extents that each worker took. Two workers scan the disk beside the
/// caller.
pub fn demo<R: Threads + Wait + Sync>(
    rt: &R,
    alloc: Global,
) -> Result<(Answer, Takings), ScrubFault>
    ensures answer { IfOk result (λ r. IsDemoAnswer r.0.text.items r.0.outcome) }
    ensures workers { IfOk result (λ r. length r.1.lists ≡ 3) }
{
    let disk = demo_disk(alloc)?;
    disk_answer(rt, alloc, &disk, WORKERS, &ScanOutput::Report)
}
