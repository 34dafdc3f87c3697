//! A gate that holds all workers but one until every extent is taken.

use crate::support::compare::same;
use crate::workers::pausing::{PAUSES, pause};
use scrub_pool::Gate;
use std::process::Abort;
use std::sync::atomic::{AtomicU64, Ordering};
use std::time::Clock;

/// Holds each worker but one at its first extent, until as many extents are taken as are planned.
#[derive(Drop)]
pub(super) struct LeftAlone<'c, C: Clock> {
    clock: &'c C,
    alone: u32,
    planned: u64,
    passed: AtomicU64,
    // How many times a worker was held too long.
    faults: AtomicU64,
}

impl<'c, C: Clock> LeftAlone<'c, C> {
    /// A gate for a disk of `planned` planned extents. Only worker `alone` isn't held.
    pub(super) fn new(clock: &'c C, alone: u32, planned: u64) -> LeftAlone<'c, C> {
        LeftAlone {
            clock,
            alone,
            planned,
            passed: AtomicU64::new(0),
            faults: AtomicU64::new(0),
        }
    }

    /// Waits until every extent is taken.
    fn hold(&self) {
        for _ in 0..PAUSES {
            if self.passed.load(Ordering::SeqCst) >= self.planned {
                return;
            }
            pause(self.clock);
        }
        self.faults.fetch_add(1, Ordering::SeqCst);
    }

    /// Checks that no worker was held too long, so that the one that wasn't held took what the others left.
    pub(super) fn check(&self, rt: &impl Abort) {
        same(rt, self.passed.load(Ordering::SeqCst), self.planned);
        same(rt, self.faults.load(Ordering::SeqCst), 0);
    }
}

impl<C: Clock + Sync> Gate for LeftAlone<'_, C> {
    fn passed(&self, worker: u32, _extent: u32) {
        self.passed.fetch_add(1, Ordering::SeqCst);
        if worker != self.alone {
            self.hold();
        }
    }

    fn counted(&self, _worker: u32, _total: u64) {}
}
