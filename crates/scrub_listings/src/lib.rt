//! A disk as lines: its named locators, its superblocks, what it holds wherever that lies, its summary, its
//! index runs wherever they lie, and the superblock records of a raw image of any sizes.
#![tactic(auto)]

pub mod found_runs;
pub mod listing;
pub mod manifest;
pub mod remarks;
pub mod scanning;
pub mod sizes_listing;
pub mod summary;
pub mod superblocks;

pub use found_runs::{
    a_listed_run_can_be_given, each_image_has_a_runs_listing, list_runs, one_runs_listing,
};
pub use listing::{Listing, each_image_has_a_locator_listing, list_locators, one_locator_listing};
pub use manifest::{
    Manifest, each_image_has_a_manifest, list_manifest, one_manifest, one_manifest_holds_the_same,
};
pub use remarks::{
    SuperblockRemark, each_image_has_remarks, one_list_of_remarks, superblock_remarks,
};
pub use scanning::scan_with_remarks;
pub use sizes_listing::{
    SizesFound, each_front_has_a_sizes_listing, find_sizes, list_sizes, one_size, one_sizes_listing,
};
pub use summary::{each_image_has_a_summary, list_summary, one_summary};
pub use superblocks::{
    each_image_has_a_superblock_listing, list_superblocks, one_superblock_listing,
};
