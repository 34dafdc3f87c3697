//! Index runs: written and compared with their bytes field by field, read and merged.

use crate::calls::Trial;
use crate::ending::{Stop, Wanted, right};
use scrub_fakes::payloads::{one_shard_payload, payload_of_each};
use scrub_fakes::published::NO_SHARDS;
use scrub_fakes::{SHARD, abc_at};
use scrub_merge::ShardMap;
use scrub_run::{Entry, Run, RunFault};
use std::alloc::Global;
use std::io::Write;
use std::slice;

/// The run of one shard.
pub fn write_run(alloc: Global, wanted: Wanted) -> Result<(), Stop> {
    let payload = one_shard_payload(alloc)?;
    let entry = Entry::new(SHARD, Vec::from_slice(alloc, &[abc_at(1, 0)])?);
    wanted.made()?;
    let written = scrub_run::write_run(alloc, slice::from_ref(&entry))?;
    right(written.as_slice() == payload.as_slice())
}

/// Whether a run is that of one shard.
pub fn is_one_shard(run: &Run) -> bool {
    match run.entries() {
        [entry] => entry.id() == SHARD && entry.locators() == [abc_at(1, 0)].as_slice(),
        _ => false,
    }
}

/// Checks that a payload is refused because it isn't a run.
fn not_a_run(alloc: Global, payload: &[u8]) -> Result<(), Stop> {
    match scrub_run::read_run(alloc, payload) {
        Ok(_) => Err(Stop::Wrong),
        Err(RunFault::NotARun) => Ok(()),
        Err(RunFault::OutOfMemory) => Err(Stop::OutOfMemory),
    }
}

/// The run of one shard, that of none, and payloads that aren't runs: two shards with one identifier, an
/// entry of 65 locators, a byte after the digest, no bytes, and a count that 40 bytes can't hold.
pub fn read_run(alloc: Global, wanted: Wanted) -> Result<(), Stop> {
    let payload = one_shard_payload(alloc)?;
    let equal = payload_of_each(alloc, &[SHARD; 2], &[abc_at(1, 0)])?;
    let many = payload_of_each(alloc, &[SHARD], &[abc_at(1, 0); 65])?;
    let mut longer = one_shard_payload(alloc)?;
    longer.push(0)?;
    let mut forged = NO_SHARDS;
    forged[4..8].copy_from_slice(&[0xFF; 4]);
    wanted.made()?;
    let run = scrub_run::read_run(alloc, &payload)?;
    let none = scrub_run::read_run(alloc, &NO_SHARDS)?;
    not_a_run(alloc, &equal)?;
    not_a_run(alloc, &many)?;
    not_a_run(alloc, &longer)?;
    not_a_run(alloc, &[])?;
    not_a_run(alloc, &forged)?;
    right(is_one_shard(&run) && none.entries().is_empty())
}

/// Runs of the one shard, newest first: `Some(true)` has its chunk, `Some(false)` deletes it, and `None` is
/// lost.
fn runs_of(alloc: Global, given: &[Option<bool>]) -> Result<Vec<Option<Run>>, Stop> {
    let named = one_shard_payload(alloc)?;
    let deleted = payload_of_each(alloc, &[SHARD], &[])?;
    let mut runs = Vec::new(alloc);
    for one in given {
        runs.push(match one {
            None => None,
            Some(true) => Some(scrub_run::read_run(alloc, &named)?),
            Some(false) => Some(scrub_run::read_run(alloc, &deleted)?),
        })?;
    }
    Ok(runs)
}

/// Whether a map binds only the one shard, by run 1 and in doubt.
fn binds_in_doubt(map: &ShardMap) -> bool {
    match map.bindings() {
        [one] => {
            one.id() == SHARD
                && one.run() == 1
                && one.doubtful()
                && one.locators() == [abc_at(1, 0)].as_slice()
        }
        _ => false,
    }
}

/// Three runs of one shard, the newest of which deletes it; and two, the newer of which is lost.
const THREE: [Option<bool>; 3] = [Some(false), Some(true), Some(true)];

const TWO: [Option<bool>; 2] = [None, Some(true)];

/// The bindings of these runs.
pub fn merge(alloc: Global, wanted: Wanted) -> Result<(), Stop> {
    let (three, two) = (runs_of(alloc, &THREE)?, runs_of(alloc, &TWO)?);
    if three.len() != 3 || two.len() != 2 {
        return Err(Stop::Wrong);
    }
    wanted.made()?;
    let deleted = scrub_merge::merge(alloc, &three)?;
    let doubtful = scrub_merge::merge(alloc, &two)?;
    right(deleted.bindings().is_empty() && binds_in_doubt(&doubtful))
}

/// The calls of this module.
pub fn calls<O: Write>(alloc: Global, trial: &mut Trial<'_, O>) {
    made!(trial, "write_run", "", wanted => write_run(alloc, wanted));
    made!(trial, "read_run", "", wanted => read_run(alloc, wanted));
    made!(trial, "merge", "", wanted => merge(alloc, wanted));
}
