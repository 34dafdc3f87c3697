//! Shards that are read from disks: their bytes, or why there are none, and how often pages are asked for.

ghost use Rattle.std.specs.Prelude.{◌≤◌};

use crate::support::compare::same;
use scrub_disk::{Geometry, MemDisk, PageSource};
use scrub_fakes::payloads::put_run;
use scrub_fakes::{
    CountingSource, FOURS, ONES, SHARD, THREES, TWOS, abc_at, put_chunk, put_superblock,
};
use scrub_found::ScrubFault;
use scrub_frame::{Locator, locate};
use scrub_pool::{Gate, NoGate, Takings};
use scrub_run::ShardId;
use scrub_shard::{ShardAnswer, read_shard};
use std::alloc::Global;
use std::process::Abort;
use std::slice;
use std::sync::Wait;
use std::test::Fail;
use std::thread::Threads;
use uuid::Uuid;

/// The UUID of a run.
const RUN: [u8; 16] = [0xAA; 16];

/// What is expected of a shard that is read.
#[derive(Debug, Clone, Copy, PartialEq, Eq)]
pub(crate) enum Expected<'a> {
    NoSuchShard,
    PayloadLost(usize),
    /// These bytes, and whether they are doubtful.
    Found(&'a [u8], bool),
}

/// Reads a shard of a disk, by `workers` workers and the caller. Out of memory fails the test.
pub(crate) fn shard_on<D: PageSource, G: Gate, R: Threads + Wait + Sync>(
    rt: &R,
    alloc: Global,
    disk: &D,
    workers: u32,
    gate: &G,
    id: ShardId,
) -> Result<(ShardAnswer, Takings), Fail>
    requires { workers ≤ 64 }
{
    match read_shard(rt, alloc, disk, workers, gate, None, id) {
        Ok((found, takings)) => Ok((found.answer, takings)),
        Err(ScrubFault::OutOfMemory) => Err(Fail::from("out of memory")),
    }
}

/// Checks what was read of a shard.
pub(crate) fn check_answer(rt: &impl Abort, answer: ShardAnswer, expected: Expected) {
    match answer {
        ShardAnswer::NoSuchShard => same(rt, Expected::NoSuchShard, expected),
        ShardAnswer::PayloadLost(number) => same(rt, Expected::PayloadLost(number), expected),
        ShardAnswer::Found(found) => {
            let is_doubtful = found.is_doubtful();
            let bytes = found.into_bytes();
            same(rt, Expected::Found(bytes.as_slice(), is_doubtful), expected);
        }
    }
}

/// A disk of five extents, each of eight pages of 64 bytes. The `abc` in extent 1 has rotted, and a sound
/// chunk is after it. The payloads of its three copies, by extent and offset: on two pages of extent 2, on
/// one page of it, and on one of extent 3. The run of one shard with these locators is in extent 4.
fn copied(alloc: Global, locators: &[Locator]) -> Result<MemDisk, Fail> {
    let mut disk = MemDisk::blank(alloc, Geometry::new(64, 8, 5)?)?;
    put_chunk(alloc, &mut disk, 1, 0, ONES, b"abX")?;
    put_chunk(alloc, &mut disk, 1, 41, TWOS, b"de")?;
    put_chunk(alloc, &mut disk, 2, 0, TWOS, b"xyz")?;
    put_chunk(alloc, &mut disk, 2, 41, THREES, b"abc")?;
    put_chunk(alloc, &mut disk, 2, 82, FOURS, b"abc")?;
    put_chunk(alloc, &mut disk, 3, 0, FOURS, b"abc")?;
    let run = put_run(alloc, &mut disk, 4, 0, RUN, locators)?;
    let pointers = [81, 123, 41, run.length.saturating_add(38)];
    put_superblock(alloc, &mut disk, &pointers, slice::from_ref(&run))?;
    Ok(disk)
}

/// Reads the shard with these locators of that disk. Checks what is read, and how often pages of extents 1, 2
/// and 3 are asked for.
fn check_asked<R: Threads + Wait + Abort + Sync>(
    rt: &R,
    alloc: Global,
    locators: &[Locator],
    expected: Expected,
    asked: [u64; 3],
) -> Result<(), Fail> {
    let disk = copied(alloc, locators)?;
    let source = CountingSource::new(alloc, &disk)?;
    assert!(rt; source.geometry().extents() == 5);
    let (answer, _) = shard_on(rt, alloc, &source, 0, &NoGate, SHARD)?;
    check_answer(rt, answer, expected);
    same(
        rt,
        [source.reads_of(1), source.reads_of(2), source.reads_of(3)],
        asked,
    );
    Ok(())
}

/// The scan asks for each of eight pages once. So does the search for loose copies, which only a lost payload
/// starts.
#[test]
fn of_the_copies_the_first_is_read_and_none_if_a_payload_is_lost(
    rt: HostRuntime,
) -> Result<(), Fail> {
    let sound = locate(1, 41, Uuid::from_bytes(TWOS), b"de");
    let lost = locate(1, 300, Uuid::from_bytes(TWOS), b"lost");
    let found = Expected::Found(b"abc", false);
    check_asked(&rt, rt.alloc(), &[abc_at(1, 0)], found, [8, 10, 8])?;
    check_asked(
        &rt,
        rt.alloc(),
        &[sound, abc_at(1, 0), lost],
        Expected::PayloadLost(2),
        [16, 16, 16],
    )
}
