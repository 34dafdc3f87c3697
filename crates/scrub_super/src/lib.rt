//! The superblock of a disk: its records, which of them counts, and the plan that `scrub_scan` follows.
#![tactic(auto)]

mod bytes_from;
mod choosing;
pub mod chosen;
mod extent_zero;
mod head;
pub mod kind;
pub mod pages;
pub mod plan;
pub mod record;
pub mod superblock;
pub mod unknown_sizes;

pub use choosing::{choice_by_conditions, choose, each_image_has_a_choice, one_choice};
pub use chosen::Chosen;
pub use extent_zero::{
    choose_with_pages, each_image_has_superblock_pages, no_byte_is_overlooked,
    one_list_of_superblock_pages,
};
pub use kind::RecordKind;
pub use pages::{Rank, SuperblockPage};
pub use plan::{Plan, a_plan_by_given_runs};
pub use record::{MAX_RUNS, one_record, read_record, write_record};
pub use superblock::Superblock;
pub use unknown_sizes::{
    BLOCK_BYTES, FoundRecord, FoundSuperblocks, Front, LostBytes, each_front_has_an_answer,
    one_answer_for_lost_blocks,
};
