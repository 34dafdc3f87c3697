//! SHA-256 of several messages at once, one in each lane of the processor's vectors.
#![tactic(auto)]

mod alone;
pub mod batch;
mod block;
mod consts;
mod lanes;

pub use batch::Batch;
pub use block::LANES;
