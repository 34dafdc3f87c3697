//! Index runs, written as payloads, entry by entry.

ghost use Rattle.std.specs.Prelude.{◌≡◌, ◌*◌, ◌<◌, ◌≤◌, ◌++◌, ◌^◌, All, IfOk, OnErr, OnOk, length};
ghost use Rattle.byteorder.specs.Endian.{big_bytes};
ghost use Rattle.sha2.specs.Sha256.{sha256};
ghost use Rattle.scrub_run.specs.Run.{run_bytes, run_magic, RisesById, IsRun};
ghost use Rattle.scrub_run.specs.steps.Parts.{entry_bytes, IsEntry};

use crate::OutOfMemory;
use crate::entry::Entry;
use crate::reading::{BARE_ENTRY_BYTES, MAGIC};
use scrub_frame::{LOCATOR_BYTES, append, append_locators, digest_of};
use std::alloc::Global;
use std::marker::Model;

/// The size in bytes of a run without its entries: magic, number of entries, digest.
const BARE_RUN_BYTES: usize = 40;

/// The payload of an index run while it is written: its head, and the entries so far.
#[derive(Drop)]
pub struct RunWriter {
    out: Vec<u8>,
}

impl Model for RunWriter {
    ghost use Rattle.std.specs.Prelude.{ℕ, List};

    ghost Value = { List ℕ };

    ghost view = { λ w. w.out.items };
}

impl RunWriter {
    /// Begins a run of this many entries. It has room for the whole run if they have this many locators
    /// together.
    pub fn new(alloc: Global, entries: u32, locators: usize) -> Result<RunWriter, OutOfMemory>
        requires { locators ≤ 64 * entries }
        ensures { IfOk result (λ w. w ≡ run_magic ++ big_bytes 4 entries) }
    {
        let room = BARE_RUN_BYTES + BARE_ENTRY_BYTES * entries as usize + LOCATOR_BYTES * locators;
        let mut out = Vec::with_capacity(alloc, room)?;
        out.extend_from_slice(&MAGIC)?;
        out.extend_from_slice(&entries.to_be_bytes())?;
        Ok(RunWriter { out })
    }

    /// Appends an entry. Out of memory leaves the run as it was, so the same entry may be appended again.
    pub fn append(&mut self, entry: &Entry) -> Result<(), OutOfMemory>
        requires { length entry.now.locators ≤ 64 }
        ensures fit { OnOk result (IsEntry entry.now) }
        ensures written { OnOk result (self.new ≡ self.old ++ entry_bytes entry.now) }
        ensures refused { OnErr result (self.new ≡ self.old) }
    {
        let id = entry.id();
        let locators = entry.locators();
        self.out
            .reserve(BARE_ENTRY_BYTES + LOCATOR_BYTES * locators.len())?;
        append(&mut self.out, &id.0);
        append(&mut self.out, &[locators.len() as u8]);
        append_locators(&mut self.out, locators);
        Ok(())
    }

    /// The payload: what was written, and its digest.
    pub fn finish(self) -> Result<Vec<u8>, OutOfMemory>
        ensures { IfOk result (λ payload. payload.items ≡ self ++ sha256 self) }
    {
        let mut out = self.out;
        let digest = digest_of(&out);
        out.extend_from_slice(&digest)?;
        Ok(out)
    }
}

/// The number of locators of all entries together.
fn locator_count(entries: &[Entry]) -> usize
    requires few { All (λ e. length e.locators ≤ 64) entries.now }
    requires count { length entries.now < 2 ^ 32 }
    ensures { result ≤ 64 * length entries.now }
{
    let mut count = 0;
    for one in entries {
        count += one.locators().len();
    }
    count
}

/// The run of these entries, as a payload. Reading it gives the same entries.
pub fn write_run(alloc: Global, entries: &[Entry]) -> Result<Vec<u8>, OutOfMemory>
    requires rising { RisesById entries.now }
    requires few { All (λ e. length e.locators ≤ 64) entries.now }
    requires count { length entries.now < 2 ^ 32 }
    ensures written { IfOk result (λ out. out.items ≡ run_bytes entries.now) }
    ensures read_again { IfOk result (λ out. IsRun out.items entries.now) }
{
    let mut run = RunWriter::new(alloc, entries.len() as u32, locator_count(entries))?;
    for entry in entries {
        run.append(entry)?;
    }
    run.finish()
}
