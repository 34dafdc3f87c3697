//! How often a whole scrub asks for each page: once for the scan, and again for the payloads of the index
//! runs.

ghost use Rattle.std.specs.Prelude.{◌≤◌};
ghost use Rattle.scrub_disk.specs.Memory.{image_of};
ghost use Rattle.scrub_disk.specs.steps.WholePages.{memory_pages};

use crate::support::compare::same;
use crate::support::reported::{scrubbed, scrubbed_by};
use scrub_disk::{Geometry, MemDisk, PageSource, Unreadable};
use scrub_fakes::worked::many_shards;
use scrub_pool::NoGate;
use std::alloc::Global;
use std::process::Abort;
use std::sync::Wait;
use std::sync::atomic::{AtomicU64, Ordering};
use std::test::Fail;
use std::thread::Threads;

/// A disk in memory as a page source that counts how often it is asked for each page.
#[derive(Drop)]
struct PageCounts<'a> {
    disk: &'a MemDisk,
    // All pages, extent by extent.
    asked: Vec<AtomicU64>,
}

impl<'a> PageCounts<'a> {
    /// A source of a disk's pages, with all counts 0.
    fn new(alloc: Global, disk: &'a MemDisk) -> Result<PageCounts<'a>, Fail> {
        let geometry = disk.geometry();
        let mut asked = Vec::new(alloc);
        for _ in 0..geometry.extents().saturating_mul(geometry.pages()) {
            asked.push(AtomicU64::new(0))?;
        }
        Ok(PageCounts { disk, asked })
    }

    /// The count of a page.
    fn count(&self, extent: u32, page: u32) -> Option<&AtomicU64> {
        let before = extent.saturating_mul(self.disk.geometry().pages());
        self.asked.get(before.saturating_add(page) as usize)
    }

    /// How often a page was asked for.
    fn reads_of(&self, extent: u32, page: u32) -> u64 {
        match self.count(extent, page) {
            Some(count) => count.load(Ordering::SeqCst),
            None => 0,
        }
    }

    /// How often any page was asked for.
    fn asked_in_all(&self) -> u64 {
        let mut sum = 0u64;
        for count in &self.asked {
            sum = sum.saturating_add(count.load(Ordering::SeqCst));
        }
        sum
    }
}

impl PageSource for PageCounts<'_> {
    ghost image = { λ s. image_of s.disk.now };

    ghost whole_pages = { λ s. memory_pages s.disk.now };

    fn geometry(&self) -> Geometry {
        self.disk.geometry()
    }

    fn read_page(&self, extent: u32, page: u32, out: &mut [u8]) -> Result<(), Unreadable> {
        if let Some(count) = self.count(extent, page) {
            count.fetch_add(1, Ordering::SeqCst);
        }
        self.disk.read_page(extent, page, out)
    }
}

/// How often a scrub of the disk of many shards asks for a page. The run's frame is on pages 0 to 46 of
/// extent 39: its payload begins on page 0, and both the payload and the closing bytes end on page 46.
fn wanted(extent: u32, page: u32) -> u64 {
    match (extent, page) {
        // For the scan, the head, and the payload.
        (39, 0) => 3,
        // For the scan and the payload.
        (39, 1..=45) => 2,
        // For the scan, as the far end and in its turn; for the closing bytes; and for the payload.
        (39, 46) => 4,
        // For the scan, or in extent 0 for the superblock.
        _ => 1,
    }
}

/// Checks how often each page of an extent of the disk of many shards was asked for.
fn check_extent(rt: &impl Abort, source: &PageCounts<'_>, extent: u32) {
    for page in 0..64 {
        let asked = source.reads_of(extent, page);
        let wanted = wanted(extent, page);
        assert!(rt; asked == wanted, "page {page} of extent {extent}: {asked}");
    }
}

/// Checks how often each page of the disk of many shards was asked for.
fn check_pages(rt: &impl Abort, source: &PageCounts<'_>) {
    for extent in 0..40 {
        check_extent(rt, source, extent);
    }
    // 39 extents of 64 pages, and in extent 39 page 0 three times, 45 pages twice, one four times, and 17
    // once.
    same(rt, source.asked_in_all(), 2_496 + 114);
}

#[test]
fn one_reader_asks_for_each_page_once_except_those_of_the_run(rt: HostRuntime) -> Result<(), Fail> {
    let (disk, _) = many_shards(rt.alloc())?;
    let source = PageCounts::new(rt.alloc(), &disk)?;
    assert!(&rt; scrubbed(&rt, rt.alloc(), &source)?.is_clean());
    check_pages(&rt, &source);
    Ok(())
}

/// Scrubs the disk of many shards with `workers` workers, and checks how often each page was asked for.
fn check_workers<R: Threads + Wait + Abort + Sync>(
    rt: &R,
    alloc: Global,
    disk: &MemDisk,
    workers: u32,
) -> Result<(), Fail>
    requires { workers ≤ 64 }
{
    let source = PageCounts::new(alloc, disk)?;
    let (answer, _) = scrubbed_by(rt, alloc, &source, workers, &NoGate)?;
    assert!(rt; answer.is_clean());
    check_pages(rt, &source);
    Ok(())
}

#[test]
fn workers_ask_for_each_page_as_often_as_one_reader(rt: HostRuntime) -> Result<(), Fail> {
    let (disk, _) = many_shards(rt.alloc())?;
    for workers in [0, 3] {
        check_workers(&rt, rt.alloc(), &disk, workers)?;
    }
    Ok(())
}
