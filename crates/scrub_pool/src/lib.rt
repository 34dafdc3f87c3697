//! Workers that scan the planned extents of a disk at the same time, each taking from one shared queue. For
//! what is decided without threads, see `scrub_book`.
#![tactic(auto)]

mod crew;
pub mod extent_queue;
pub mod fault;
pub mod gate;
mod group;
mod job;
mod rule;
pub mod scanning;
pub mod takings;
mod tally;
mod worker;

pub use extent_queue::{ExtentQueue, TakePass};
pub use fault::PoolFault;
pub use gate::{Gate, NoGate};
pub use scanning::scan_all;
pub use scrub_disk::OutOfMemory;
pub use takings::{Takings, some_schedule_takes_so};
