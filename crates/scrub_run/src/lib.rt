//! Index runs as bytes. An index run is a payload that lists shards by identifier, each with the locators of
//! its chunks, or none if the shard was deleted; a digest ends it. For which run is newer see `scrub_super`,
//! for the status of a locator see `scrub_check`.
#![tactic(auto)]

pub mod entry;
mod locators;
pub mod reading;
pub mod run;
pub mod shard_id;
pub mod writing;

pub use entry::Entry;
pub use reading::{RunFault, read_run};
pub use run::{Run, each_payload_is_a_run_or_none, one_run};
pub use scrub_frame::OutOfMemory;
pub use shard_id::ShardId;
pub use writing::{RunWriter, write_run};
