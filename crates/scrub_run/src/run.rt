//! The entries of an index run, and the law that a payload is at most one run. For its bytes, see `reading`
//! and `writing`.

ghost use Rattle.std.specs.Prelude.{◌≡◌, ◌⊎◌, List, ℕ};

use crate::entry::Entry;
use std::marker::Model;

/// The entries of an index run, in strictly ascending order of identifier.
#[derive(Debug, Drop)]
pub struct Run {
    entries: Vec<Entry>,
}

impl Model for Run {
    ghost use Rattle.std.specs.Prelude.{List};
    ghost use Rattle.scrub_run.specs.Entry.{EntryValue};
    ghost use Rattle.scrub_run.specs.Run.{AreEntries};

    ghost Value = { List EntryValue };

    ghost view = { λ r. r.entries.items };

    ghost invariant = { λ r. AreEntries r.entries.items };
}

impl Run {
    ghost use Rattle.scrub_run.specs.Run.{AreEntries};

    /// A run of entries.
    pub(crate) fn new(entries: Vec<Entry>) -> Run
        requires { AreEntries entries.items }
        ensures { result ≡ entries.items }
    {
        Run { entries }
    }

    /// The entries, in strictly ascending order of identifier.
    pub fn entries(&self) -> &[Entry]
        ensures entries { result.now ≡ self.now }
        // True of every value of the type.
        ensures rising { AreEntries self.now }
    {
        self.entries.as_slice()
    }
}

ghost use Rattle.scrub_run.specs.Entry.{EntryValue};
ghost use Rattle.scrub_run.specs.Run.{IsRun};

/// A law: a payload is the run of at most one list of entries. So it can be read in one way alone.
pub fn one_run()
    ensures { (payload : List ℕ) (entries others : List EntryValue) →
        IsRun payload entries → IsRun payload others → entries ≡ others }
{}

/// A law: a payload is the run of some list of entries, or of none, and which of the two is decided.
pub fn each_payload_is_a_run_or_none()
    ensures { (payload : List ℕ) → ((entries : List EntryValue) × IsRun payload entries) ⊎
        ((entries : List EntryValue) → ¬ IsRun payload entries) }
{}
