//! Index runs as bytes, from the format's description; the digests of the two vectors are by another program.
//! For which payloads are runs, and which runs of a disk are read, see `tests/`.

ghost use Rattle.std.specs.Prelude.{◌≡◌, IfOk};

use scrub_fakes::published::NO_SHARDS;
use scrub_fakes::{abc_at, shard_of};
use scrub_frame::Locator;
use scrub_run::{Entry, RunFault, ShardId, read_run, write_run};
use std::alloc::Global;
use std::process::Abort;
use std::slice;
use std::test::Fail;

/// The run of one shard with the chunk of `abc` at extent 1, offset 0.
const ONE_SHARD: [u8; 117] = [
    0x52, 0x55, 0x4e, 0x31, 0x00, 0x00, 0x00, 0x01, 0x00, 0x00, 0x00, 0x00, 0x00, 0x00, 0x00, 0x00,
    0x00, 0x00, 0x00, 0x00, 0x00, 0x00, 0x00, 0x01, 0x01, 0x00, 0x00, 0x00, 0x01, 0x00, 0x00, 0x00,
    0x00, 0x00, 0x00, 0x00, 0x03, 0x11, 0x11, 0x11, 0x11, 0x11, 0x11, 0x11, 0x11, 0x11, 0x11, 0x11,
    0x11, 0x11, 0x11, 0x11, 0x11, 0xba, 0x78, 0x16, 0xbf, 0x8f, 0x01, 0xcf, 0xea, 0x41, 0x41, 0x40,
    0xde, 0x5d, 0xae, 0x22, 0x23, 0xb0, 0x03, 0x61, 0xa3, 0x96, 0x17, 0x7a, 0x9c, 0xb4, 0x10, 0xff,
    0x61, 0xf2, 0x00, 0x15, 0xad, 0xb4, 0x9d, 0x3a, 0xcd, 0xf7, 0x59, 0x9e, 0x0e, 0x61, 0x1b, 0x32,
    0xf1, 0x79, 0xab, 0x8a, 0xb6, 0x8e, 0xa5, 0x3e, 0x82, 0xe6, 0x49, 0xda, 0x20, 0xc0, 0xf9, 0x94,
    0x81, 0xd0, 0x11, 0x0e, 0x8d,
];

/// Any run that is read is written again byte for byte: this follows from the contracts alone.
fn read_and_written(alloc: Global, payload: &[u8]) -> Result<Vec<u8>, RunFault>
    ensures { IfOk result (λ out. out.items ≡ payload.now) }
{
    let run = read_run(alloc, payload)?;
    match write_run(alloc, run.entries()) {
        Ok(bytes) => Ok(bytes),
        Err(_) => Err(RunFault::OutOfMemory),
    }
}

/// Compares entries with identifiers and locators.
fn check_entries(rt: &impl Abort, entries: &[Entry], wanted: &[(ShardId, &[Locator])]) {
    assert!(rt; entries.len() == wanted.len());
    for (entry, (id, locators)) in entries.iter().zip(wanted) {
        assert!(rt; entry.id() == *id);
        assert!(rt; entry.locators() == *locators);
    }
}

/// Checks the entries of the run with this payload, and that it is written again.
fn check_run(
    rt: &impl Abort,
    alloc: Global,
    payload: &[u8],
    wanted: &[(ShardId, &[Locator])],
) -> Result<(), Fail> {
    let run = read_run(alloc, payload)?;
    check_entries(rt, run.entries(), wanted);
    let written = read_and_written(alloc, payload)?;
    assert!(rt; written.as_slice() == payload);
    Ok(())
}

#[test]
fn the_runs_of_one_shard_and_of_none_are_written_and_read(rt: HostRuntime) -> Result<(), Fail> {
    let entry = Entry::new(shard_of(1), Vec::from_slice(rt.alloc(), &[abc_at(1, 0)])?);
    let bytes = write_run(rt.alloc(), slice::from_ref(&entry))?;
    assert!(rt; bytes.as_slice() == ONE_SHARD.as_slice());
    let wanted: (ShardId, &[Locator]) = (shard_of(1), &[abc_at(1, 0)]);
    check_run(&rt, rt.alloc(), &ONE_SHARD, &[wanted])?;
    check_run(&rt, rt.alloc(), &NO_SHARDS, &[])
}
