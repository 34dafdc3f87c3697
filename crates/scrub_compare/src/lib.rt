//! What was written to a disk between two images: whether it lost anything, and whether extents may be reset,
//! as lines.
#![tactic(auto)]

mod bytes;
pub mod comparing;
mod extents;
mod firm;
mod ids;
pub mod laws;
mod manifests;
mod named;
mod records;
mod rooms;
mod rows;

pub use comparing::{compare, each_pair_has_a_comparison, one_comparison};
