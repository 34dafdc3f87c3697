//! Superblock records as bytes: vectors and worked examples from the format's description, with digests by
//! another SHA-256. For what counts on a disk, and for the plan, see `superblock`. That a record with a wrong
//! byte isn't one is shown on disks, by the program.

use crate::compare::same;
use scrub_disk::Geometry;
use scrub_fakes::TWOS;
use scrub_frame::Locator;
use scrub_super::{MAX_RUNS, Superblock, read_record, write_record};
use std::alloc::Global;
use std::process::Abort;
use std::test::Fail;
use uuid::Uuid;

/// The record for pages of 64 bytes, four pages an extent and three extents: generation 1, pointers 41 and
/// 155, and one run of 117 bytes at extent 2, offset 0, with a UUID of sixteen bytes 22.
const RECORD: [u8; 126] = [
    0x53, 0x53, 0x42, 0x31, 0x00, 0x00, 0x00, 0x00, 0x00, 0x00, 0x00, 0x01, 0x00, 0x00, 0x00, 0x40,
    0x00, 0x00, 0x00, 0x04, 0x00, 0x00, 0x00, 0x03, 0x00, 0x01, 0x00, 0x00, 0x00, 0x29, 0x00, 0x00,
    0x00, 0x9b, 0x00, 0x00, 0x00, 0x02, 0x00, 0x00, 0x00, 0x00, 0x00, 0x00, 0x00, 0x75, 0x22, 0x22,
    0x22, 0x22, 0x22, 0x22, 0x22, 0x22, 0x22, 0x22, 0x22, 0x22, 0x22, 0x22, 0x22, 0x22, 0x56, 0x46,
    0x5a, 0x73, 0x72, 0x00, 0xff, 0xc1, 0xed, 0xbc, 0xaa, 0x58, 0x5d, 0xe6, 0x18, 0x6e, 0x7e, 0xd8,
    0x13, 0x3c, 0xf8, 0x2f, 0xd7, 0x8e, 0x2e, 0x6a, 0x56, 0xda, 0x6b, 0xd6, 0x7a, 0x06, 0x4d, 0xcd,
    0xaa, 0xf1, 0xa2, 0x36, 0xb4, 0x21, 0xf4, 0x94, 0x52, 0x63, 0xeb, 0x50, 0x7f, 0x4b, 0x5b, 0x3d,
    0x25, 0x4a, 0x1c, 0xe4, 0xf1, 0xe7, 0x10, 0xd6, 0xc0, 0x38, 0xc2, 0x5c, 0x47, 0x37,
];

/// The SHA-256 of the 117 bytes of that run.
const RUN_DIGEST: [u8; 32] = [
    0x56, 0x46, 0x5a, 0x73, 0x72, 0x00, 0xff, 0xc1, 0xed, 0xbc, 0xaa, 0x58, 0x5d, 0xe6, 0x18, 0x6e,
    0x7e, 0xd8, 0x13, 0x3c, 0xf8, 0x2f, 0xd7, 0x8e, 0x2e, 0x6a, 0x56, 0xda, 0x6b, 0xd6, 0x7a, 0x06,
];

/// The locator of that run.
fn run_locator() -> Locator {
    Locator {
        extent: 2,
        offset: 0,
        length: 117,
        uuid: Uuid::from_bytes(TWOS),
        digest: RUN_DIGEST,
    }
}

/// The record of generation 1 with these pointers and runs.
fn record_of(
    rt: &impl Abort,
    alloc: Global,
    geometry: Geometry,
    pointers: &[u32],
    runs: &[Locator],
) -> Result<Vec<u8>, Fail> {
    assert!(rt; pointers.len() + 1 == geometry.extents() as usize);
    assert!(rt;
        pointers
            .iter()
            .all(|pointer| *pointer <= geometry.extent_bytes())
    );
    assert!(rt; runs.len() <= MAX_RUNS);
    let superblock = Superblock::new(
        1,
        Vec::from_slice(alloc, pointers)?,
        Vec::from_slice(alloc, runs)?,
    );
    let mut record = Vec::new(alloc);
    write_record(&mut record, geometry, &superblock)?;
    Ok(record)
}

/// What a record contains: its kind and generation, write pointers, retired extents and runs.
#[derive(Clone, Copy)]
struct Contents<'a> {
    version: u32,
    generation: u64,
    pointers: &'a [u32],
    retired: &'a [u32],
    runs: &'a [Locator],
}

/// Checks what is read of bytes that begin with a record.
fn check_read(
    rt: &impl Abort,
    alloc: Global,
    bytes: &[u8],
    geometry: Geometry,
    wanted: &Contents,
) -> Result<(), Fail> {
    let found = read_record(alloc, bytes, geometry)?.ok_or("a record")?;
    same(rt, found.version(), wanted.version);
    same(rt, found.generation(), wanted.generation);
    same(rt, found.pointers(), wanted.pointers);
    same(rt, found.retired(), wanted.retired);
    same(rt, found.runs(), wanted.runs);
    Ok(())
}

/// Checks that a record with these pointers and runs is written with this length, and read again.
fn check_written(
    rt: &impl Abort,
    alloc: Global,
    geometry: Geometry,
    pointers: &[u32],
    runs: &[Locator],
    length: usize,
) -> Result<(), Fail> {
    let record = record_of(rt, alloc, geometry, pointers, runs)?;
    same(rt, record.len(), length);
    let wanted = Contents {
        version: 1,
        generation: 1,
        pointers,
        retired: &[],
        runs,
    };
    check_read(rt, alloc, &record, geometry, &wanted)
}

#[test]
fn a_record_of_one_run_is_written_and_read_whatever_follows_it(
    rt: HostRuntime,
) -> Result<(), Fail> {
    let geometry = Geometry::new(64, 4, 3)?;
    let runs = [run_locator()];
    let record = record_of(&rt, rt.alloc(), geometry, &[41, 155], &runs)?;
    same(&rt, record.as_slice(), RECORD.as_slice());
    let wanted = Contents {
        version: 1,
        generation: 1,
        pointers: &[41, 155],
        retired: &[],
        runs: &runs,
    };
    check_read(&rt, rt.alloc(), &RECORD, geometry, &wanted)?;
    let mut out = Vec::from_slice(rt.alloc(), &[7])?;
    out.extend_from_slice(&RECORD)?;
    out.extend_from_slice(b"SSB1")?;
    check_read(&rt, rt.alloc(), &out[1..], geometry, &wanted)?;
    assert!(rt; read_record(rt.alloc(), &out, geometry)?.is_none());
    Ok(())
}

#[test]
fn records_of_the_most_runs_and_pointers_are_written_and_read(rt: HostRuntime) -> Result<(), Fail> {
    let runs = [run_locator(); 32];
    let pages = Geometry::new(64, 64, 3)?;
    check_written(&rt, rt.alloc(), pages, &[41, 155], &runs, 1986)?;
    let extents = Geometry::new(64, 1, 65536)?;
    let pointers = vec![in rt.alloc(); 64u32; 65535]?;
    check_written(&rt, rt.alloc(), extents, &pointers, &[], 262_198)
}
