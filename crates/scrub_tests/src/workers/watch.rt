//! A gate that records what workers report, and holds them up.

use crate::support::compare::same;
use crate::workers::pausing::{PAUSES, pause};
use scrub_pool::{Gate, Takings};
use std::alloc::Global;
use std::process::Abort;
use std::sync::atomic::{AtomicU64, Ordering};
use std::test::Fail;
use std::time::Clock;

/// Which worker reported which number, from 1 on. Each number is reported once, and the numbers of one worker
/// rise.
#[derive(Drop)]
struct Record {
    // By number: the worker that reported it, plus 1, or 0.
    reporters: Vec<AtomicU64>,
    // By worker, the caller last: the last number that it reported, or 0.
    last: Vec<AtomicU64>,
}

/// Records what each worker reports, and holds each at its first extent until `wanted` workers have passed
/// with one.
#[derive(Drop)]
pub(super) struct Watch<'c, C: Clock> {
    clock: &'c C,
    // The extents with which workers passed, and the totals that they counted.
    passed: Record,
    counted: Record,
    // How often a number came again, didn't rise or wasn't one of the disk's, an unknown worker reported, or
    // a worker was held too long.
    faults: AtomicU64,
    wanted: usize,
}

/// `count` zeros.
fn zeros(alloc: Global, count: u32) -> Result<Vec<AtomicU64>, Fail> {
    let mut cells = Vec::new(alloc);
    for _ in 0..count {
        cells.push(AtomicU64::new(0))?;
    }
    Ok(cells)
}

impl Record {
    /// An empty record for `workers` workers and the numbers below `end`.
    fn new(alloc: Global, workers: u32, end: u32) -> Result<Record, Fail> {
        Ok(Record {
            reporters: zeros(alloc, end)?,
            last: zeros(alloc, workers)?,
        })
    }

    /// Records that a worker reported a number. Returns the number that it reported before, or 0. `None` is a
    /// fault.
    fn note(&self, worker: u32, number: u64) -> Option<u64> {
        let last = self.last.get(worker as usize)?;
        let reporter = self.reporters.get(number as usize)?;
        let before = last.swap(number, Ordering::SeqCst);
        let other = reporter.swap(u64::from(worker) + 1, Ordering::SeqCst);
        if other == 0 && before < number {
            Some(before)
        } else {
            None
        }
    }

    /// Whether this worker reported a number.
    fn has_event(&self, worker: u32, number: u32) -> bool {
        match self.reporters.get(number as usize) {
            Some(reporter) => reporter.load(Ordering::SeqCst) == u64::from(worker) + 1,
            None => false,
        }
    }

    /// How many numbers a worker reported.
    fn count(&self, worker: u32) -> usize {
        let wanted = u64::from(worker) + 1;
        self.reporters
            .iter()
            .filter(|reporter| reporter.load(Ordering::SeqCst) == wanted)
            .count()
    }

    /// The last number that a worker reported, or 0.
    fn last_of(&self, worker: u32) -> u64 {
        match self.last.get(worker as usize) {
            Some(last) => last.load(Ordering::SeqCst),
            None => 0,
        }
    }

    /// How many workers reported a number.
    fn workers(&self) -> usize {
        self.last
            .iter()
            .filter(|last| last.load(Ordering::SeqCst) != 0)
            .count()
    }
}

impl<'c, C: Clock> Watch<'c, C> {
    /// A gate for `workers` workers, the caller among them, on a disk of `extents` extents. It holds each
    /// worker until `wanted` of them have passed.
    pub(super) fn new(
        clock: &'c C,
        alloc: Global,
        workers: u32,
        extents: u32,
        wanted: usize,
    ) -> Result<Watch<'c, C>, Fail> {
        Ok(Watch {
            clock,
            passed: Record::new(alloc, workers, extents)?,
            counted: Record::new(alloc, workers, extents)?,
            faults: AtomicU64::new(0),
            wanted,
        })
    }

    /// The extent with which a worker last passed, or 0.
    pub(super) fn last_passed(&self, worker: u32) -> u64 {
        self.passed.last_of(worker)
    }

    /// Counts a fault.
    pub(super) fn fault(&self) {
        self.faults.fetch_add(1, Ordering::SeqCst);
    }

    /// Waits until `wanted` workers have passed.
    fn hold(&self) {
        for _ in 0..PAUSES {
            if self.passed.workers() >= self.wanted {
                return;
            }
            pause(self.clock);
        }
        self.fault();
    }

    /// Checks that a worker reported the extents that it took, and as many totals.
    fn check_worker(&self, rt: &impl Abort, worker: u32, taken: &[u32]) {
        same(rt, self.passed.count(worker), taken.len());
        same(rt, self.counted.count(worker), taken.len());
        for extent in taken {
            assert!(rt; self.passed.has_event(worker, *extent));
        }
    }

    /// Checks that there are as many workers as the gate is for, that each reported the extents that it took,
    /// in the order in which it took them, and as many totals, one by one; and that each extent but extent 0
    /// is planned. So each planned extent was reported once.
    pub(super) fn check(&self, rt: &impl Abort, takings: &Takings, planned: &[u32]) {
        same(rt, takings.workers() as usize + 1, self.passed.last.len());
        same(rt, takings.counted(), planned.len() as u64);
        same(rt, planned.len() + 1, self.counted.reporters.len());
        for worker in 0..=takings.workers() {
            self.check_worker(rt, worker, takings.taken_by(worker));
        }
        same(rt, self.faults.load(Ordering::SeqCst), 0);
    }
}

impl<C: Clock + Sync> Gate for Watch<'_, C> {
    fn passed(&self, worker: u32, extent: u32) {
        match self.passed.note(worker, u64::from(extent)) {
            Some(0) => self.hold(),
            Some(_) => {}
            None => self.fault(),
        }
    }

    fn counted(&self, worker: u32, total: u64) {
        if self.counted.note(worker, total).is_none() {
            self.fault();
        }
    }
}
