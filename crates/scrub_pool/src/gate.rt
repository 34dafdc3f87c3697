//! What workers report while they scan.

/// Called for each extent when it was taken and when it was counted, so that the caller can watch the
/// workers, or hold them up.
pub trait Gate: Sync {
    /// A worker took an extent, which it hasn't scanned yet.
    fn passed(&self, worker: u32, extent: u32);

    /// A worker counted an extent that it finished, which left this total in the ledger.
    fn counted(&self, worker: u32, total: u64);
}

/// The gate that does nothing.
pub struct NoGate;

impl Gate for NoGate {
    fn passed(&self, _worker: u32, _extent: u32) {}

    fn counted(&self, _worker: u32, _total: u64) {}
}
