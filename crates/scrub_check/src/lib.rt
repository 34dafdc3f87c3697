//! The status of each locator of a disk, and what follows from the statuses: readable index runs, named
//! locators, live chunks, broken shards, and extents that may be reclaimed.
#![tactic(auto)]

pub mod lists;
pub mod named;
pub mod places;
pub mod runs;
pub mod statuses;

pub use lists::broken::{broken_shards, each_scan_has_broken_shards, one_list_of_broken_shards};
pub use lists::candidate::Candidate;
pub use lists::chunks::{orphans, twins, twins_by_threads};
pub use lists::drawn::{FromLocators, draw_named};
pub use lists::extent_set::ExtentSet;
pub use lists::kept_chunk::KeptChunk;
pub use lists::live::{is_chunk, live_bytes, size_of};
pub use lists::liveness::{Liveness, liveness_by};
pub use lists::locator_index::{LocatorIndex, barred_extents};
pub use lists::place::{Place, SharedPlace};
pub use lists::reclaiming::{
    candidates, candidates_are_safe, candidates_by, each_scan_has_candidates,
    one_list_of_candidates,
};
pub use lists::shared_places::{each_scan_has_shared_places, one_list_of_shared_places, shared};
pub use lists::spares::{Content, Spares};
pub use named::{Named, Owner, name_shard, named_locators};
pub use runs::{ReadRuns, RunState, each_plan_has_read_runs, payload_at, read_all_runs, read_runs};
pub use statuses::checked::{
    Checked, check_all, check_named, dangling, each_list_of_named_is_checked, hidden,
};
pub use statuses::chunk_form::form_at;
pub use statuses::searching::{Found, find_start};
pub use statuses::status::{Status, each_locator_has_a_status, status_of};
