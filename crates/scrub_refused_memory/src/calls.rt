//! Which calls are wanted, and how each of them ended. The calls, each with its name, are at the ends of the
//! modules used here.

use crate::ending::{Stop, Wanted};
use crate::{checks, frames, lists, loading, pool, records, report, runs, scans};
use scrub_report::{WriteFault, write_out};
use std::alloc::Global;
use std::io::Write;
use std::sync::Wait;
use std::thread::Threads;

/// Which calls are wanted. A call is named by its path and a second word: a number of workers, or nothing.
#[derive(Clone, Copy)]
pub enum Selection<'a> {
    /// Only the names of all calls.
    Names,
    /// All calls.
    All,
    /// The call with these two words, and how far it goes.
    One(&'a str, &'a str, Wanted),
}

/// A walk over all calls that makes the wanted ones.
#[derive(Drop)]
pub struct Trial<'a, O: Write> {
    selected: Selection<'a>,
    out: &'a mut O,
    /// The greatest status so far, or `None` if no call was wanted.
    status: Option<u8>,
}

impl<'a, O: Write> Trial<'a, O> {
    pub fn new(selected: Selection<'a>, out: &'a mut O) -> Trial<'a, O> {
        Trial {
            selected,
            out,
            status: None,
        }
    }

    /// How far the call with these two words goes, or `None` if it isn't made. It takes no memory.
    pub fn wants(&mut self, name: &str, second: &str) -> Option<Wanted> {
        match self.selected {
            Selection::Names => {
                let written = write_name(self.out, name, second, b"\n");
                self.wrote(written);
                None
            }
            Selection::All => {
                let written = write_name(self.out, name, second, b" ");
                self.wrote(written);
                Some(Wanted::Answer)
            }
            Selection::One(one, other, wanted) => (one == name && other == second).then_some(
                wanted,
            ),
        }
    }

    /// Writes how the call ended. It takes no memory.
    pub fn ended(&mut self, ending: Result<(), Stop>) {
        let (line, status) = match ending {
            Ok(()) | Err(Stop::Made) => (b"right\n".as_slice(), 0),
            Err(Stop::OutOfMemory) => (b"out of memory\n".as_slice(), 4),
            Err(Stop::Wrong) => (b"wrong\n".as_slice(), 1),
        };
        self.status = Some(self.status.unwrap_or(0).max(status));
        let written = write_out(self.out, line);
        self.wrote(written);
    }

    /// The status is at least 1 if something couldn't be written.
    fn wrote(&mut self, written: Result<(), WriteFault>) {
        let status = if written.is_ok() { 0 } else { 1 };
        self.status = Some(self.status.unwrap_or(0).max(status));
    }

    /// The status of the program. It is 1 if there is no such call.
    pub fn status(mut self) -> u8 {
        match self.status {
            Some(status) => status,
            None => {
                self.ended(Err(Stop::Wrong));
                1
            }
        }
    }
}

/// Writes the words that name a call, and then `end`.
fn write_name<O: Write>(
    out: &mut O,
    name: &str,
    second: &str,
    end: &[u8],
) -> Result<(), WriteFault> {
    write_out(out, name.as_bytes())?;
    if !second.is_empty() {
        write_out(out, b" ")?;
        write_out(out, second.as_bytes())?;
    }
    write_out(out, end)
}

/// Makes the calls that are wanted.
pub fn all<R: Threads + Wait + Sync, O: Write>(rt: &R, alloc: Global, trial: &mut Trial<'_, O>) {
    loading::calls(alloc, trial);
    frames::calls(alloc, trial);
    records::calls(alloc, trial);
    runs::calls(alloc, trial);
    scans::calls(alloc, trial);
    checks::calls(rt, alloc, trial);
    lists::calls(alloc, trial);
    pool::calls(rt, alloc, trial);
    report::calls(rt, alloc, trial);
}
