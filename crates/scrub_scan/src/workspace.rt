//! What a worker keeps from one scan of an extent to the next.

use crate::collected::Collected;
use crate::pages::PageMemory;
use crate::payloads::Payloads;
use std::alloc::Global;

/// The memory that the scan of one extent needs besides its result and the payloads.
#[derive(Drop)]
pub(crate) struct ExtentMemory {
    pub pages: PageMemory,
    pub collected: Collected,
}

/// The memory of an extent that was scanned before, or else new one.
pub(crate) fn memory_of(alloc: Global, spare: &mut Vec<ExtentMemory>) -> ExtentMemory {
    match spare.pop() {
        Some(memory) => memory,
        None => ExtentMemory {
            pages: PageMemory::new(alloc),
            collected: Collected::new(alloc),
        },
    }
}

/// The memory that scans need besides their results: buffers for pages, and for the payloads that are hashed
/// together (at most some 9 MiB). A worker that keeps it for all its scans asks for it once. It holds nothing
/// that a scan depends on.
#[derive(Drop)]
pub struct Workspace {
    pub(crate) payloads: Payloads,
    /// For as many extents as were scanned together.
    pub(crate) spare: Vec<ExtentMemory>,
}

impl Workspace {
    /// No memory yet: the first scan takes it.
    pub fn new(alloc: Global) -> Workspace {
        Workspace {
            payloads: Payloads::new(alloc),
            spare: Vec::new(alloc),
        }
    }
}
