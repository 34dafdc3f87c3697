//! A gate that compares each report with the reads that a page source has counted.

use crate::workers::watch::Watch;
use scrub_disk::PageSource;
use scrub_fakes::CountingSource;
use scrub_pool::{Gate, Takings};
use std::alloc::Global;
use std::process::Abort;
use std::test::Fail;
use std::time::Clock;

/// A watch that holds each worker until all have passed. It counts a fault if a page of an extent was asked
/// for before a worker passed with that extent, or fewer than all pages before the extent was counted.
#[derive(Drop)]
pub(super) struct ReadingWatch<'a, C: Clock> {
    source: &'a CountingSource<'a>,
    watch: Watch<'a, C>,
}

impl<'a, C: Clock> ReadingWatch<'a, C> {
    /// A gate for `workers` workers, the caller among them, that scan the disk of this source.
    pub(super) fn new(
        clock: &'a C,
        alloc: Global,
        source: &'a CountingSource<'a>,
        workers: u32,
    ) -> Result<ReadingWatch<'a, C>, Fail> {
        let extents = source.geometry().extents();
        let watch = Watch::new(clock, alloc, workers, extents, workers as usize)?;
        Ok(ReadingWatch { source, watch })
    }

    /// How often a page of an extent was asked for, or `None` if the disk has no such extent.
    fn reads_of(&self, extent: u64) -> Option<u64> {
        if extent >= u64::from(self.source.geometry().extents()) {
            return None;
        }
        Some(self.source.reads_of(extent as u32))
    }

    /// Whether pages of an extent were asked for at least as often as it has pages.
    fn was_read(&self, extent: u64) -> bool {
        match self.reads_of(extent) {
            Some(asked) => asked >= u64::from(self.source.geometry().pages()),
            None => false,
        }
    }

    /// Checks what the watch checks.
    pub(super) fn check(&self, rt: &impl Abort, takings: &Takings, planned: &[u32]) {
        self.watch.check(rt, takings, planned);
    }
}

impl<C: Clock + Sync> Gate for ReadingWatch<'_, C> {
    fn passed(&self, worker: u32, extent: u32) {
        if self.reads_of(u64::from(extent)) != Some(0) {
            self.watch.fault();
        }
        self.watch.passed(worker, extent);
    }

    fn counted(&self, worker: u32, total: u64) {
        if !self.was_read(self.watch.last_passed(worker)) {
            self.watch.fault();
        }
        self.watch.counted(worker, total);
    }
}
