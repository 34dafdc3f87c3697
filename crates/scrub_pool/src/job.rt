//! What all workers of a scan share. For what one of them does with it, see `worker`.

use crate::extent_queue::ExtentQueue;
use crate::gate::Gate;
use scrub_super::Plan;
use std::alloc::Global;

/// The allocator, the plan, the queue of its planned extents, the gate that is called for each, and how many
/// workers there are besides the caller.
#[derive(Drop)]
pub(crate) struct Job<'j, G: Gate> {
    pub alloc: Global,
    pub plan: &'j Plan,
    pub queue: &'j ExtentQueue,
    pub gate: &'j G,
    pub workers: u32,
}
