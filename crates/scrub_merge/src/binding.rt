//! A binding of an identifier. For which binding is the newest, see `merging`.

ghost use Rattle.std.specs.Prelude.{◌≡◌};
ghost use Rattle.scrub_merge.specs.Binding.{BindingValue};

use scrub_frame::Locator;
use scrub_run::{Entry, ShardId};
use std::marker::Model;

/// What one index run says about a shard.
#[derive(Debug, Drop)]
pub struct Binding {
    entry: Entry,
    run: u32,
    doubtful: bool,
}

impl Model for Binding {
    ghost use Rattle.scrub_merge.specs.Binding.{BindingValue};

    ghost Value = { BindingValue };

    ghost view = { λ b. record {
      id = b.entry.id;
      locators = b.entry.locators;
      run = b.run;
      doubtful = b.doubtful;
    } };
}

impl Binding {
    /// The binding made by an entry of the run with this number.
    pub(crate) fn new(entry: Entry, run: u32, doubtful: bool) -> Binding
        ensures { result ≡ record {
          id = entry.id;
          locators = entry.locators;
          run = run;
          doubtful = doubtful;
        } }
    {
        Binding {
            entry,
            run,
            doubtful,
        }
    }

    /// What the run says: the shard, and its locators.
    pub fn entry(&self) -> &Entry
        ensures { result.now ≡ record { id = self.now.id; locators = self.now.locators } }
    {
        &self.entry
    }

    /// The identifier of the shard.
    pub fn id(&self) -> ShardId
        ensures { result ≡ self.now.id }
    {
        self.entry.id()
    }

    /// The locators of the shard's chunks in order: one or more, in a shard map.
    pub fn locators(&self) -> &[Locator]
        ensures { result.now ≡ self.now.locators }
    {
        self.entry.locators()
    }

    /// The number of the index run that has this binding, from 0 for the newest.
    pub fn run(&self) -> u32
        ensures { result ≡ self.now.run }
    {
        self.run
    }

    /// Whether a newer run is lost, which may have said otherwise.
    pub fn doubtful(&self) -> bool
        ensures { result ≡ self.now.doubtful }
    {
        self.doubtful
    }
}
