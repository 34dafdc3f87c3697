//! The shard map of a list of index runs: the newest binding of each shard, and whether a lost run makes it
//! doubtful. For which runs can be read, and for the status of locators, see `scrub_check`.
#![tactic(auto)]

pub mod binding;
mod cursors;
pub mod merging;
mod part;
pub mod shard_map;

pub use binding::Binding;
pub use merging::{each_list_of_runs_has_a_shard_map, merge, merge_by_threads, one_shard_map};
pub use scrub_run::OutOfMemory;
pub use shard_map::ShardMap;
