//! The index runs of a plan, as the report and the lines have them.

ghost use Rattle.std.specs.Prelude.{◌≡◌, IfOk, length, option_map};
ghost use Rattle.scrub_found.specs.Judged.{AreRowsOf};

use scrub_check::{ReadRuns, RunState};
use scrub_disk::OutOfMemory;
use scrub_frame::Locator;
use scrub_run::Run;
use std::alloc::Global;

/// An index run. The entries themselves are in the shard map.
#[derive(Clone, Copy)]
pub struct RunRow {
    /// The locator of its chunk.
    pub locator: Locator,
    /// How many entries it has, none if it is lost.
    pub entries: Option<u64>,
    /// What became of it.
    pub state: RunState,
}

/// How many entries a run has, none if it is lost.
fn entry_count(run: &Option<Run>) -> Option<u64>
    ensures { result ≡ option_map length run.now }
{
    run.as_ref().map(|run| run.entries().len() as u64)
}

/// The rows of the runs at these locators.
pub(crate) fn run_rows(
    alloc: Global,
    locators: &[Locator],
    read: &ReadRuns,
) -> Result<Vec<RunRow>, OutOfMemory>
    requires { length read.now.runs ≡ length locators.now }
    ensures { IfOk result (λ v. AreRowsOf locators.now read.now v.items) }
{
    let runs = read.runs();
    let states = read.states();
    let mut rows = Vec::with_capacity(alloc, locators.len())?;
    for i in 0..locators.len() {
        rows.push(RunRow {
            locator: locators[i],
            entries: entry_count(&runs[i]),
            state: states[i],
        })?;
    }
    Ok(rows)
}
