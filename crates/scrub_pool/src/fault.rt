//! Why a scan by many workers fails.

use crate::OutOfMemory;

/// Why a scan fails.
#[derive(Debug, Clone, Copy, PartialEq, Eq)]
pub enum PoolFault {
    /// A worker or the caller ran out of memory.
    OutOfMemory,
}

impl From<OutOfMemory> for PoolFault {
    fn from(_fault: OutOfMemory) -> PoolFault {
        PoolFault::OutOfMemory
    }
}
