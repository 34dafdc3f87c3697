//! Parts of index runs: entries of a run one after another, borrowed. A run is a part of itself, and is
//! parted at an identifier, so that several threads merge parts side by side.

ghost use Rattle.std.specs.Prelude.{◌≡◌, ◌<◌, IfOk};
ghost use Rattle.std.specs.Option.{option_map};
ghost use Rattle.std.specs.List.{filter};
ghost use Rattle.scrub_merge.specs.steps.Parts.{is_on, kept};

use scrub_run::{Entry, OutOfMemory, Run, ShardId};
use std::alloc::Global;
use std::marker::Model;

/// One side of an identifier: what is before it, or the rest.
#[derive(Clone, Copy)]
pub(crate) struct Side {
    pub id: ShardId,
    pub is_first: bool,
}

/// Three identifiers, which part entries into quarters. They are hints: nothing rests on how they are chosen.
#[derive(Clone, Copy)]
pub(crate) struct Quarters {
    pub low: ShardId,
    pub middle: ShardId,
    pub high: ShardId,
}

/// Entries of an index run one after another, in strictly ascending order of identifier.
#[derive(Drop)]
pub(crate) struct Part<'r> {
    entries: &'r [Entry],
}

impl<'r> Model for Part<'r> {
    ghost use Rattle.std.specs.Prelude.{List};
    ghost use Rattle.scrub_run.specs.Entry.{EntryValue};
    ghost use Rattle.scrub_run.specs.Run.{AreEntries};

    ghost Value = { List EntryValue };

    ghost view = { λ p. p.entries.now };

    ghost invariant = { λ p. AreEntries p.entries.now };
}

impl<'r> Part<'r> {
    ghost use Rattle.scrub_run.specs.Run.{AreEntries};

    /// The whole of a run.
    pub(crate) fn of(run: &'r Run) -> Part<'r>
        ensures { result ≡ run.now }
    {
        Part {
            entries: run.entries(),
        }
    }

    /// The entries, in strictly ascending order of identifier.
    pub(crate) fn entries(&self) -> &'r [Entry]
        ensures entries { result.now ≡ self.now }
        // True of every value of the type.
        ensures rising { AreEntries self.now }
    {
        self.entries
    }

    /// The entries on a side of an identifier.
    fn on_side(&self, side: Side) -> Part<'r>
        ensures { result ≡ filter (λ e. is_on side e.id) self.now }
    {
        let id = side.id;
        let place = self
            .entries
            .partition_point(|entry| entry.id().cmp(&id).is_lt());
        let (before, others) = self.entries.split_at(place);
        if side.is_first {
            return Part { entries: before };
        }
        Part { entries: others }
    }
}

/// The whole of each run; none of a lost one.
pub(crate) fn whole_runs<'r>(
    alloc: Global,
    runs: &'r [Option<Run>],
) -> Result<Vec<Option<Part<'r>>>, OutOfMemory>
    ensures { IfOk result (λ v. v.items ≡ runs.now) }
{
    let mut all = Vec::with_capacity(alloc, runs.len())?;
    for run in runs {
        all.push(match run {
            Some(run) => Some(Part::of(run)),
            None => None,
        })?;
    }
    Ok(all)
}

/// The entries of a run on a side; none of a lost one.
fn one_side<'r>(run: &Option<Part<'r>>, side: Side) -> Option<Part<'r>>
    ensures { result ≡ option_map (filter (λ e. is_on side e.id)) run.now }
{
    match run {
        Some(part) => Some(part.on_side(side)),
        None => None,
    }
}

/// The entries of each run on a side.
pub(crate) fn all_on_side<'r>(
    alloc: Global,
    runs: &[Option<Part<'r>>],
    side: Side,
) -> Result<Vec<Option<Part<'r>>>, OutOfMemory>
    ensures { IfOk result (λ v. v.items ≡ kept (is_on side) runs.now) }
{
    let mut all = Vec::with_capacity(alloc, runs.len())?;
    for run in runs {
        all.push(one_side(run, side))?;
    }
    Ok(all)
}

/// How many entries parts have in all, or as many as a number can say.
pub(crate) fn entries_in(runs: &[Option<Part<'_>>]) -> usize {
    let mut all: usize = 0;
    for run in runs {
        if let Some(part) = run {
            all = all.saturating_add(part.entries().len());
        }
    }
    all
}

/// How many entries a run has; a lost one has none.
fn entry_count(run: &Option<Run>) -> usize {
    match run {
        Some(run) => run.entries().len(),
        None => 0,
    }
}

/// The number of the run with the most entries, and how many entries there are in all, or as many as a number
/// can say.
fn longest_run(runs: &[Option<Run>]) -> (usize, usize) {
    let mut all: usize = 0;
    let mut longest: usize = 0;
    let mut number: usize = 0;
    for i in 0..runs.len() {
        let count = entry_count(&runs[i]);
        all = all.saturating_add(count);
        if count > longest {
            longest = count;
            number = i;
        }
    }
    (number, all)
}

/// The identifier at so many quarters of some entries.
fn at_quarter(entries: &[Entry], quarter: usize) -> Option<ShardId>
    requires { quarter < 4 }
{
    entries
        .get(entries.len() / 4 * quarter)
        .map(|entry| entry.id())
}

/// Where the longest run is parted into quarters, if there are at least this many entries in all.
pub(crate) fn quarters_of(runs: &[Option<Run>], least: usize) -> Option<Quarters> {
    let (number, all) = longest_run(runs);
    if all < least {
        return None;
    }
    let Some(Some(run)) = runs.get(number) else {
        return None;
    };
    let entries = run.entries();
    Some(Quarters {
        low: at_quarter(entries, 1)?,
        middle: at_quarter(entries, 2)?,
        high: at_quarter(entries, 3)?,
    })
}
