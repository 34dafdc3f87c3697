//! The whole scrub of a disk: its report as JSON text, its recovered index as the bytes of a run, and whether
//! it is clean.
#![tactic(auto)]

pub mod answer;
mod chunks;
mod extents;
mod index;
mod items;
mod json_values;
mod keys;
mod listed;
mod locators;
mod object;
mod orphans;
pub mod output;
mod pieces;
mod report;
mod runs;
mod shards;
mod sizes;

pub use answer::{
    ScrubAnswer, each_image_has_a_report, one_report, scrub, scrub_in_order, the_index_is_a_run,
};
pub use output::{WriteFault, write_out};
pub use scrub_found::ScrubFault;
