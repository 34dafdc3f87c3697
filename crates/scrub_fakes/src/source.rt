//! A page source that counts its calls.

ghost use Rattle.std.specs.Prelude.{◌≡◌, ◌<◌, IfOk, length};
ghost use Rattle.scrub_disk.specs.Memory.{image_of};
ghost use Rattle.scrub_disk.specs.steps.WholePages.{memory_pages};

use crate::OutOfMemory;
use scrub_disk::{Geometry, MemDisk, PageSource, Unreadable};
use std::alloc::Global;
use std::sync::atomic::{AtomicU64, Ordering};

/// A disk in memory as a page source that counts, for each extent, how often one of its pages was asked for.
/// No clause states the counts, since other threads may ask at any time.
#[derive(Drop)]
pub struct CountingSource<'a> {
    disk: &'a MemDisk,
    asked: Vec<AtomicU64>,
    ghost each_extent: { length asked.items ≡ (image_of disk.now).geometry.extents },
}

impl<'a> CountingSource<'a> {
    /// A source of a disk's pages, of which none was asked for.
    pub fn new(alloc: Global, disk: &'a MemDisk) -> Result<CountingSource<'a>, OutOfMemory>
        ensures { IfOk result (λ s. image_of s.disk.now ≡ image_of disk.now) }
    {
        let mut asked = Vec::new(alloc);
        for _ in 0..disk.geometry().extents() {
            asked.push(AtomicU64::new(0))?;
        }
        Ok(CountingSource { disk, asked })
    }

    /// How often a page of this extent was asked for.
    pub fn reads_of(&self, extent: u32) -> u64
        requires { extent < (image_of self.now.disk.now).geometry.extents }
    {
        self.asked[extent as usize].load(Ordering::SeqCst)
    }
}

impl PageSource for CountingSource<'_> {
    ghost image = { λ s. image_of s.disk.now };

    ghost whole_pages = { λ s. memory_pages s.disk.now };

    fn geometry(&self) -> Geometry {
        self.disk.geometry()
    }

    fn read_page(&self, extent: u32, page: u32, out: &mut [u8]) -> Result<(), Unreadable> {
        self.asked[extent as usize].fetch_add(1, Ordering::SeqCst);
        self.disk.read_page(extent, page, out)
    }
}
