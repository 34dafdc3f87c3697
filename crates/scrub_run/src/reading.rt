//! Index runs, read from payloads. For which payloads are read, see `read_runs` of `scrub_check`.

ghost use Rattle.std.specs.Prelude.{◌≡◌, ◌+◌, ◌*◌, ◌<◌, ◌≤◌, ◌^◌, ◌++◌, ◌↔◌, List, ℕ, All, IsTrue, IfOk};
ghost use Rattle.std.specs.Prelude.{IfSome, IfNone, IsErrOf, length, slice_index};
ghost use Rattle.std.specs.List.{flat_map};
ghost use Rattle.byteorder.specs.Endian.{big_bytes};
ghost use Rattle.sha2.specs.Sha256.{sha256};
ghost use Rattle.scrub_run.specs.Entry.{EntryValue, IsBelow};
ghost use Rattle.scrub_run.specs.Run.{run_magic, RisesById, IsRun};
ghost use Rattle.scrub_run.specs.steps.Parts.{entry_bytes, IsEntry};

use crate::OutOfMemory;
use crate::entry::Entry;
use crate::locators::Locators;
use crate::run::Run;
use crate::shard_id::{ShardId, is_below};
use byteorder::{BigEndian, ByteOrder};
use scrub_frame::{DIGEST_BYTES, LOCATOR_BYTES, digest_of};
use std::alloc::Global;
use thiserror::Error;

/// The magic that each run begins with, `RUN1`.
pub(crate) const MAGIC: [u8; 4] = [0x52, 0x55, 0x4E, 0x31];

/// The maximum number of locators in an entry of a run.
const MAX_LOCATORS: usize = 64;

/// The size in bytes of an entry without locators.
pub(crate) const BARE_ENTRY_BYTES: usize = 17;

/// Why a run can't be read.
#[derive(Debug, Clone, Copy, PartialEq, Eq, Error)]
pub enum RunFault {
    /// Out of memory.
    #[error("out of memory")]
    OutOfMemory,
    /// The payload isn't a run.
    #[error("the payload isn't an index run")]
    NotARun,
}

/// The payload without its last 32 bytes, if these are the digest of the rest.
fn checked_body(payload: &[u8]) -> Option<&[u8]>
    ensures found { IfSome result (λ body. payload.now ≡ body.now ++ sha256 body.now) }
    ensures none { IfNone result ((body : List ℕ) → ¬ (payload.now ≡ body ++ sha256 body)) }
{
    let (body, digest) = payload.split_last_chunk::<DIGEST_BYTES>()?;
    if digest_of(body) != *digest {
        return None;
    }
    Some(body)
}

/// The number of entries that a run's head claims, and the bytes after the head. `None` if the bytes don't
/// begin with such a head.
fn split_head(body: &[u8]) -> Option<(u32, &[u8])>
    ensures found { IfSome result (λ r. body.now ≡ run_magic ++ (big_bytes 4 r.0 ++ r.1.now)) }
    ensures fits { IfSome result (λ r. r.0 < 2 ^ 32) }
    ensures none { IfNone result ((count : ℕ) (entries : List ℕ) →
        ¬ (body.now ≡ run_magic ++ (big_bytes 4 count ++ entries))) }
{
    let (magic, rest) = body.split_first_chunk::<4>()?;
    let (count, entries) = rest.split_first_chunk::<4>()?;
    if *magic != MAGIC {
        return None;
    }
    Some((BigEndian::read_u32(count), entries))
}

/// The bytes of the entry that the bytes begin with, by the number of locators that it claims, and the bytes
/// after it. `None` if they begin with no entry.
fn split_entry(bytes: &[u8]) -> Option<(&[u8], &[u8])>
    ensures found { IfSome result (λ r. bytes.now ≡ r.0.now ++ r.1.now) }
    ensures long { IfSome result (λ r. length r.0.now ≡ 17 + 60 * slice_index r.0.now 16) }
    ensures few { IfSome result (λ r. slice_index r.0.now 16 ≤ MAX_LOCATORS) }
    ensures none { IfNone result ((e : EntryValue) (rest : List ℕ) → IsEntry e →
        ¬ (bytes.now ≡ entry_bytes e ++ rest)) }
{
    let count = *bytes.get(16)? as usize;
    let needed = BARE_ENTRY_BYTES + LOCATOR_BYTES * count;
    if count > MAX_LOCATORS || needed > bytes.len() {
        return None;
    }
    Some(bytes.split_at(needed))
}

/// Reads the entry that fills these bytes.
fn read_entry(alloc: Global, bytes: &[u8]) -> Result<Entry, OutOfMemory>
    requires long { length bytes.now ≡ 17 + 60 * slice_index bytes.now 16 }
    requires few { slice_index bytes.now 16 ≤ MAX_LOCATORS }
    ensures entry { IfOk result IsEntry }
    ensures spelled { IfOk result (λ e. entry_bytes e ≡ bytes.now) }
{
    let mut id = [0u8; 16];
    id.copy_from_slice(&bytes[..16]);
    let locators = Locators::read(alloc, &bytes[BARE_ENTRY_BYTES..], bytes[16] as usize)?;
    Ok(Entry::of(ShardId(id), locators))
}

/// Whether an identifier is above those of all entries. They are ascending, so the last one decides.
fn is_above_all(entries: &[Entry], id: ShardId) -> bool
    requires { RisesById entries.now }
    ensures { IsTrue result ↔ All (λ e. IsBelow e.id id) entries.now }
{
    match entries.last() {
        None => true,
        Some(last) => is_below(last.id(), id),
    }
}

/// Reads `count` entries in strictly ascending order that fill these bytes; `None` if the bytes are anything
/// else. The list has room from the start for as many of the entries as these bytes can hold.
fn read_entries(alloc: Global, bytes: &[u8], count: u32) -> Result<Option<Vec<Entry>>, OutOfMemory>
    ensures found { IfOk result (λ found. IfSome found (λ v. bytes.now ≡ flat_map entry_bytes v.items)) }
    ensures count { IfOk result (λ found. IfSome found (λ v. length v.items ≡ count)) }
    ensures each { IfOk result (λ found. IfSome found (λ v. All IsEntry v.items)) }
    ensures rising { IfOk result (λ found. IfSome found (λ v. RisesById v.items)) }
    ensures none { IfOk result (λ found. IfNone found ((entries : List EntryValue) →
        length entries ≡ count → All IsEntry entries → RisesById entries →
        ¬ (bytes.now ≡ flat_map entry_bytes entries))) }
{
    let mut entries = Vec::with_capacity(
        alloc,
        (count as usize).min(bytes.len() / BARE_ENTRY_BYTES),
    )?;
    let mut rest = bytes;
    for _ in 0..count {
        let Some((first, others)) = split_entry(rest) else {
            return Ok(None);
        };
        let entry = read_entry(alloc, first)?;
        if !is_above_all(&entries, entry.id()) {
            return Ok(None);
        }
        entries.push(entry)?;
        rest = others;
    }
    if !rest.is_empty() {
        return Ok(None);
    }
    Ok(Some(entries))
}

/// Reads the run that fills a payload. Faults, in this order: `OutOfMemory`, and `NotARun` if the payload
/// isn't a run. The digest is checked first, so a payload that isn't a run rarely takes memory. The memory
/// taken grows with the length of the payload, whatever numbers are in it.
pub fn read_run(alloc: Global, payload: &[u8]) -> Result<Run, RunFault>
    ensures ok { IfOk result (IsRun payload.now) }
    ensures not_a_run { IsErrOf result RunFault.NotARun → (entries : List EntryValue) →
        ¬ IsRun payload.now entries }
{
    let Some(body) = checked_body(payload) else {
        return Err(RunFault::NotARun);
    };
    let Some((count, entries)) = split_head(body) else {
        return Err(RunFault::NotARun);
    };
    match read_entries(alloc, entries, count) {
        Ok(Some(entries)) => Ok(Run::new(entries)),
        Ok(None) => Err(RunFault::NotARun),
        Err(_) => Err(RunFault::OutOfMemory),
    }
}
