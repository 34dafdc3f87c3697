//! Loose copies: what is left of a lost payload where no item begins, at any byte of an extent. Beside the
//! spares of `scrub_check`, which are chunks among the items. And the index runs of a disk, wherever they
//! lie.
#![tactic(auto)]

mod asked;
mod claims;
pub mod copies;
mod held;
pub mod listed;
pub mod outer;
mod searching;

pub use copies::{BestCopy, Copies, each_plan_has_loose_frames, one_list_of_loose_frames};
pub use listed::{DiskRuns, ListedRun, each_disk_has_runs, find_runs, one_list_of_runs};
pub use outer::{
    FoundRun, a_found_run_is_there, each_extent_has_outer_frames, locator_of,
    one_list_of_outer_frames, run_at,
};
