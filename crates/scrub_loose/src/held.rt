//! An extent in memory, and which of its bytes can be read.

ghost use Rattle.std.specs.Prelude.{◌≡◌, ◌≤◌, ◌<◌, ◌+◌, ◌*◌, ℕ, IfOk, IsTrue, length, ◌↔◌};
ghost use Rattle.std.specs.List.{list_all};
ghost use Rattle.scrub_scan.specs.Extent.{HasGap};
ghost use Rattle.scrub_loose.specs.Anywhere.{whole_extent};
ghost use Rattle.scrub_loose.specs.steps.Held.{AreMarks, AreSince, IsHeld, extent_held};

use scrub_disk::{BufferedExtent, OutOfMemory, PageSource, read_extent};
use std::alloc::Global;

/// An extent as it was read.
#[derive(Drop)]
pub(crate) struct HeldExtent {
    /// How many bytes a page has.
    pub page: usize,
    /// The bytes of the extent. Those of a page that could not be read mean nothing.
    pub bytes: Vec<u8>,
    /// For each page, whether it could be read.
    pub readable: Vec<bool>,
    /// For each page, the first of the readable pages in a row that end with it, or the page after it if it
    /// could not be read.
    pub since: Vec<u32>,
}

/// For each page, the first of the readable pages in a row that end with it, or the page after it if it can't
/// be read. An extent has at most 65,536 pages.
fn readable_since(alloc: Global, readable: &[bool]) -> Result<Vec<u32>, OutOfMemory>
    requires { length readable.now ≤ 65536 }
    ensures { IfOk result (λ v. AreSince readable.now v.items) }
{
    let mut since = Vec::with_capacity(alloc, readable.len())?;
    let mut first = 0;
    for page in 0..readable.len() {
        if !readable[page] {
            first = page as u32 + 1;
        }
        since.push(first)?;
    }
    Ok(since)
}

impl HeldExtent {
    /// Reads an extent, each page once.
    pub(crate) fn read<D: PageSource>(
        alloc: Global,
        disk: &D,
        extent: u32,
    ) -> Result<HeldExtent, OutOfMemory>
        requires { extent < (D.image disk.now).geometry.extents }
        ensures held { IfOk result IsHeld }
        ensures same { IfOk result (λ h. extent_held h ≡ whole_extent (D.image disk.now) extent) }
        ensures marks { IfOk result (λ h. AreMarks (D.image disk.now) extent h.readable.items) }
    {
        let page = disk.geometry().page() as usize;
        let BufferedExtent { bytes, readable } = read_extent(alloc, disk, extent)?;
        let since = readable_since(alloc, &readable)?;
        Ok(HeldExtent {
            page,
            bytes,
            readable,
            since,
        })
    }

    /// Whether each page can be read.
    pub(crate) fn is_whole(&self) -> bool
        ensures { result ≡ list_all (λ mark. mark) self.now.readable.items }
    {
        self.readable.iter().all(|mark| *mark)
    }

    /// Whether each of the `count` bytes from `place` on can be read. They are in the extent, and there is
    /// one.
    pub(crate) fn is_readable(&self, place: usize, count: usize) -> bool
        requires held { IsHeld self.now }
        requires some { 1 ≤ count }
        requires within { place + count ≤ length self.now.bytes.items }
        ensures { IsTrue result ↔ (¬ HasGap (extent_held self.now).byte place count) }
    {
        let last = (place + count - 1) / self.page;
        self.since[last] as usize * self.page <= place
    }
}
