//! Collecting the results of planned extents, and the pool of workers as a machine without threads. For how
//! an extent is scanned see `scrub_scan`, for the threads see `scrub_pool`.
#![tactic(auto)]

pub mod assembling;
pub mod book;
pub mod event;
mod member;
pub mod pool_core;
pub mod retired;
pub mod worker_core;

pub use assembling::assemble;
pub use book::{AddRefused, Book};
pub use event::{Event, StepRefused};
pub use pool_core::{PoolCore, one_answer_in_every_schedule};
pub use retired::Retired;
pub use scrub_disk::OutOfMemory;
pub use worker_core::WorkerCore;
