//! The payloads of runs, put together field by field, and runs on disks.

use crate::OutOfMemory;
use crate::disk::{Misfit, put_chunk, run_of};
use crate::samples::{SHARD, abc_at, shard_of};
use scrub_disk::MemDisk;
use scrub_frame::{Locator, digest_of, write_locator};
use scrub_run::{Entry, ShardId};
use std::alloc::Global;
use std::slice;

/// Checks that a record or a payload has the length that the format's description gives.
pub(crate) fn has_length(found: usize, described: usize) -> Result<(), Misfit> {
    if found == described {
        Ok(())
    } else {
        Err(Misfit::DoesNotFit)
    }
}

/// Puts the run of one shard with these locators. Returns the run's own locator.
pub fn put_run(
    alloc: Global,
    disk: &mut MemDisk,
    extent: u32,
    offset: u32,
    uuid: [u8; 16],
    locators: &[Locator],
) -> Result<Locator, Misfit> {
    let payload = run_of(alloc, SHARD, locators)?;
    Ok(put_chunk(alloc, disk, extent, offset, uuid, &payload)?)
}

/// The payload of the run with these entries, whatever they are. `write_run` has no part in it.
pub fn payload_of(alloc: Global, entries: &[Entry]) -> Result<Vec<u8>, Misfit> {
    let count = u32::try_from(entries.len()).map_err(|_| Misfit::DoesNotFit)?;
    let mut payload = Vec::from_slice(alloc, b"RUN1")?;
    payload.extend_from_slice(&count.to_be_bytes())?;
    for entry in entries {
        append_entry(&mut payload, entry)?;
    }
    let digest = digest_of(&payload);
    payload.extend_from_slice(&digest)?;
    Ok(payload)
}

/// Appends the bytes of an entry.
fn append_entry(payload: &mut Vec<u8>, entry: &Entry) -> Result<(), Misfit> {
    let count = u8::try_from(entry.locators().len()).map_err(|_| Misfit::DoesNotFit)?;
    payload.extend_from_slice(&entry.id().0)?;
    payload.push(count)?;
    for locator in entry.locators() {
        payload.extend_from_slice(&write_locator(locator))?;
    }
    Ok(())
}

/// The payload of the run of these shards, each with the same locators.
pub fn payload_of_each(
    alloc: Global,
    ids: &[ShardId],
    locators: &[Locator],
) -> Result<Vec<u8>, Misfit> {
    let mut entries = Vec::new(alloc);
    for id in ids {
        entries.push(Entry::new(*id, Vec::from_slice(alloc, locators)?))?;
    }
    payload_of(alloc, &entries)
}

/// The payload of the run of one shard with the `abc` at the start of extent 1.
pub fn one_shard_payload(alloc: Global) -> Result<Vec<u8>, Misfit> {
    payload_of_each(alloc, &[SHARD], &[abc_at(1, 0)])
}

/// The payload of the run of two shards that both name the `abc` at 41 of extent 1.
pub fn two_shards_payload(alloc: Global) -> Result<Vec<u8>, Misfit> {
    payload_of_each(alloc, &[SHARD, shard_of(2)], &[abc_at(1, 41)])
}

/// An entry with one locator.
pub fn entry_of(alloc: Global, id: ShardId, locator: Locator) -> Result<Entry, OutOfMemory> {
    let locators = Vec::from_slice(alloc, slice::from_ref(&locator))?;
    Ok(Entry::new(id, locators))
}

/// The payload of the run that deletes the shard, with the last bit of its digest flipped.
pub fn broken_run(alloc: Global) -> Result<Vec<u8>, Misfit> {
    let mut broken = run_of(alloc, SHARD, &[])?;
    has_length(broken.len(), 57)?;
    let last = broken.last_mut().ok_or(Misfit::DoesNotFit)?;
    *last ^= 1;
    Ok(broken)
}
