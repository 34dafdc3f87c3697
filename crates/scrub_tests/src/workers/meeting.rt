//! A page source whose reads wait for one another.

ghost use Rattle.std.specs.Prelude.{◌≡◌};
ghost use Rattle.scrub_disk.specs.Memory.{image_of};
ghost use Rattle.scrub_disk.specs.steps.WholePages.{memory_pages};

use crate::workers::pausing::{PAUSES, pause};
use scrub_disk::{Geometry, MemDisk, PageSource, Unreadable};
use std::sync::atomic::{AtomicU64, Ordering};
use std::time::Clock;

/// A disk in memory as a page source. Its reads wait until `wanted` threads are reading at the same time;
/// from then on none waits. The first that waits too long ends the waiting too.
#[derive(Drop)]
pub(super) struct MeetingSource<'a, C: Clock> {
    clock: &'a C,
    disk: &'a MemDisk,
    wanted: u64,
    inside: AtomicU64,
    // Each is 0 until it happens, and then 1.
    met: AtomicU64,
    given_up: AtomicU64,
}

impl<'a, C: Clock> MeetingSource<'a, C> {
    /// A source of a disk's pages, of which `wanted` are to be read at the same time.
    pub(super) fn new(clock: &'a C, disk: &'a MemDisk, wanted: u32) -> MeetingSource<'a, C>
        ensures { image_of result.disk.now ≡ image_of disk.now }
    {
        MeetingSource {
            clock,
            disk,
            wanted: u64::from(wanted),
            inside: AtomicU64::new(0),
            met: AtomicU64::new(0),
            given_up: AtomicU64::new(0),
        }
    }

    /// Whether `wanted` threads were reading at the same time.
    pub(super) fn has_met(&self) -> bool {
        self.met.load(Ordering::SeqCst) != 0
    }

    /// Counts a reader in, and waits until `wanted` of them are in.
    fn enter(&self) {
        let others = self.inside.fetch_add(1, Ordering::SeqCst);
        if others.saturating_add(1) >= self.wanted {
            self.met.store(1, Ordering::SeqCst);
        }
        for _ in 0..PAUSES {
            if self.has_met() || self.given_up.load(Ordering::SeqCst) != 0 {
                return;
            }
            pause(self.clock);
        }
        self.given_up.store(1, Ordering::SeqCst);
    }

    /// Counts a reader out.
    fn leave(&self) {
        self.inside.fetch_sub(1, Ordering::SeqCst);
    }
}

impl<C: Clock + Sync> PageSource for MeetingSource<'_, C> {
    ghost image = { λ s. image_of s.disk.now };

    ghost whole_pages = { λ s. memory_pages s.disk.now };

    fn geometry(&self) -> Geometry {
        self.disk.geometry()
    }

    fn read_page(&self, extent: u32, page: u32, out: &mut [u8]) -> Result<(), Unreadable> {
        self.enter();
        let outcome = self.disk.read_page(extent, page, out);
        self.leave();
        outcome
    }
}
