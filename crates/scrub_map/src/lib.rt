//! Map files of GNU ddrescue, which record what was copied from a disk. This crate reads a map and says which
//! blocks it lacks. It knows nothing of pages, frames or superblocks.
#![tactic(auto)]

pub mod block;
mod field;
mod gap;
mod line;
pub mod map;
mod number;
pub mod reading;

pub use block::MapBlock;
pub use map::RescueMap;
pub use reading::{MapFault, read_map};
