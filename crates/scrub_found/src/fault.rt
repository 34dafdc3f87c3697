//! Why a scrub fails.

use scrub_disk::OutOfMemory;
use scrub_pool::PoolFault;

/// Why a scrub failed.
#[derive(Debug, Clone, Copy, PartialEq, Eq)]
pub enum ScrubFault {
    /// An allocation failed.
    OutOfMemory,
}

impl From<OutOfMemory> for ScrubFault {
    fn from(_fault: OutOfMemory) -> ScrubFault {
        ScrubFault::OutOfMemory
    }
}

impl From<PoolFault> for ScrubFault {
    fn from(_fault: PoolFault) -> ScrubFault {
        ScrubFault::OutOfMemory
    }
}
