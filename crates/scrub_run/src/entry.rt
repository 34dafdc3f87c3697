//! An entry of an index run. For its bytes, see `reading` and `writing`.

ghost use Rattle.std.specs.Prelude.{◌≡◌, IfOk};
ghost use Rattle.scrub_run.specs.Locators.{listed};

use crate::locators::Locators;
use crate::shard_id::ShardId;
use scrub_frame::{Locator, OutOfMemory};
use std::alloc::Global;
use std::marker::Model;

/// A shard and the locators of its chunks, according to one index run. An entry without locators means that
/// the shard was deleted.
#[derive(Debug, Drop)]
pub struct Entry {
    id: ShardId,
    locators: Locators,
}

impl Model for Entry {
    ghost use Rattle.scrub_run.specs.Entry.{EntryValue};
    ghost use Rattle.scrub_run.specs.Locators.{listed};

    ghost Value = { EntryValue };

    ghost view = { λ e. record { id = e.id; locators = listed e.locators } };
}

impl Entry {
    /// An entry made of its parts. Takes no memory. An entry of a run has at most 64 locators; an entry that
    /// is held here may have more.
    pub fn new(id: ShardId, locators: Vec<Locator>) -> Entry
        ensures { result ≡ record { id = id; locators = locators.items } }
    {
        Entry {
            id,
            locators: Locators::Many(locators),
        }
    }

    /// An entry of these locators.
    pub(crate) fn of(id: ShardId, locators: Locators) -> Entry
        ensures { result ≡ record { id = id; locators = listed locators } }
    {
        Entry { id, locators }
    }

    /// The identifier of the shard.
    pub fn id(&self) -> ShardId
        ensures { result ≡ self.now.id }
    {
        self.id
    }

    /// The locators of the shard's chunks in order: none if the shard was deleted.
    pub fn locators(&self) -> &[Locator]
        ensures { result.now ≡ self.now.locators }
    {
        self.locators.as_slice()
    }

    /// A copy.
    pub fn copy(&self, alloc: Global) -> Result<Entry, OutOfMemory>
        ensures { IfOk result (λ e. e ≡ self.now) }
    {
        Ok(Entry::of(self.id, self.locators.copy(alloc)?))
    }
}
