//! A disk in memory whose pages lie in blocks, so that threads can make and fill some each, and pages of
//! zeros needn't be stored. For a disk in one piece, which can be written, see `memory`.

ghost use Rattle.std.specs.Prelude.{◌≡◌, ◌+◌, ◌*◌, ◌<◌, ◌≤◌, All, length};
ghost use Rattle.std.proofs.Props.{props};
ghost use Rattle.scrub_disk.specs.Joined.{HaveSizes, joined};
ghost use Rattle.scrub_disk.specs.Stored.{HasPages};

use crate::blocks::Block;
use crate::geometry::Geometry;
use crate::marking::MarkPages;
use crate::source::{PageSource, Unreadable};

/// A disk's image in memory: its pages, in blocks of as many pages each, of which the last ones may have
/// fewer, and a mark on each unreadable page.
#[derive(Drop)]
pub struct PartedDisk {
    geometry: Geometry,
    /// How many pages a block has.
    stride: usize,
    blocks: Vec<Block>,
    unreadable: Vec<bool>,
    ghost some: { 0 < stride },
    ghost sizes: { HaveSizes geometry.page stride (geometry.pages * geometry.extents) 0 blocks.items },
    ghost stored: { All (HasPages geometry.page) blocks.items } by { Prim.hlevel props },
    ghost enough: { geometry.pages * geometry.extents ≤ stride * length blocks.items },
    ghost whole: { length (joined geometry.page blocks.items) ≡ geometry.page * geometry.pages *
        geometry.extents },
    ghost each_page: { length unreadable.items ≡ geometry.pages * geometry.extents },
}

impl PartedDisk {
    ghost use Rattle.scrub_disk.specs.BytesAndMarks.{held};
    ghost use Rattle.scrub_disk.specs.Parted.{image_of};

    /// A disk with the bytes of all its pages, in blocks of `stride` pages, and a mark for each page: true if
    /// it is unreadable.
    pub(crate) fn from_blocks(
        geometry: Geometry,
        stride: usize,
        blocks: Vec<Block>,
        unreadable: Vec<bool>,
    ) -> PartedDisk
        requires some { 0 < stride }
        requires sizes { HaveSizes geometry.page stride (geometry.pages * geometry.extents) 0 blocks.items }
        requires stored { All (HasPages geometry.page) blocks.items }
        requires enough { geometry.pages * geometry.extents ≤ stride * length blocks.items }
        requires whole { length (joined geometry.page blocks.items) ≡ geometry.page * geometry.pages *
            geometry.extents }
        requires each_page { length unreadable.items ≡ geometry.pages * geometry.extents }
        ensures { image_of result ≡ held geometry (joined geometry.page blocks.items) unreadable.items }
    {
        PartedDisk {
            geometry,
            stride,
            blocks,
            unreadable,
        }
    }
}

impl PageSource for PartedDisk {
    ghost use Rattle.scrub_disk.specs.Joined.{joined};
    ghost use Rattle.scrub_disk.specs.Parted.{image_of};
    ghost use Rattle.scrub_disk.specs.steps.WholePages.{held_whole};

    ghost image = { image_of };

    ghost whole_pages = { λ d.
        held_whole d.geometry (joined d.geometry.page d.blocks.items) d.unreadable.items d.whole };

    fn geometry(&self) -> Geometry {
        self.geometry
    }

    fn read_page(&self, extent: u32, page: u32, out: &mut [u8]) -> Result<(), Unreadable> {
        let number = extent as usize * self.geometry.pages() as usize + page as usize;
        if self.unreadable[number] {
            return Err(Unreadable);
        }
        let block = &self.blocks[number / self.stride];
        block.read_page(number % self.stride, out);
        Ok(())
    }
}

impl MarkPages for PartedDisk {
    fn mark_bad(&mut self, extent: u32, page: u32) {
        let number = extent as usize * self.geometry.pages() as usize + page as usize;
        self.unreadable[number] = true;
    }
}
