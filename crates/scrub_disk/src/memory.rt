//! A disk in memory: its owner writes and marks it, and it is read as a page source. `loading` loads one from
//! raw bytes.

ghost use Rattle.std.specs.Prelude.{◌≡◌, ◌+◌, ◌*◌, ◌<◌, ◌≤◌, length, IfOk};

use crate::geometry::Geometry;
use crate::marking::MarkPages;
use crate::source::{PageSource, Unreadable};
use std::alloc::{AllocError as OutOfMemory, Global};

/// A disk's image in memory: the bytes of all pages, extent by extent, and a mark on each unreadable page.
#[derive(Drop)]
pub struct MemDisk {
    geometry: Geometry,
    bytes: Vec<u8>,
    unreadable: Vec<bool>,
    ghost whole: { length bytes.items ≡ geometry.page * geometry.pages * geometry.extents },
    ghost each_page: { length unreadable.items ≡ geometry.pages * geometry.extents },
}

impl MemDisk {
    ghost use Rattle.scrub_disk.specs.Memory.{image_of, IsBlank, Puts, Marks};

    /// A disk with the bytes of all its pages, in order, and a mark for each page: true if it is unreadable.
    pub(crate) fn from_parts(geometry: Geometry, bytes: Vec<u8>, unreadable: Vec<bool>) -> MemDisk
        requires whole { length bytes.items ≡ geometry.page * geometry.pages * geometry.extents }
        requires each_page { length unreadable.items ≡ geometry.pages * geometry.extents }
        ensures geometry { result.geometry ≡ geometry }
        ensures bytes { result.bytes.items ≡ bytes.items }
        ensures unreadable { result.unreadable.items ≡ unreadable.items }
    {
        MemDisk {
            geometry,
            bytes,
            unreadable,
        }
    }

    /// A disk of this geometry, all zero and readable.
    pub fn blank(alloc: Global, geometry: Geometry) -> Result<MemDisk, OutOfMemory>
        ensures { IfOk result (λ d. IsBlank (image_of d) geometry) }
    {
        let pages = geometry.pages() as usize * geometry.extents() as usize;
        let bytes = vec![in alloc; 0u8; geometry.page() as usize * pages]?;
        let unreadable = vec![in alloc; false; pages]?;
        Ok(MemDisk {
            geometry,
            bytes,
            unreadable,
        })
    }

    /// Writes bytes into an extent, from a byte offset on. An unreadable page stays unreadable.
    pub fn put(&mut self, extent: u32, offset: u32, bytes: &[u8])
        requires in_extents { extent < (image_of self.old).geometry.extents }
        requires fits { offset + length bytes.now ≤ (image_of self.old).geometry.page *
            (image_of self.old).geometry.pages }
        ensures { Puts (image_of self.old) (image_of self.new) extent offset bytes.now }
    {
        let start = extent as usize * self.geometry.extent_bytes() as usize + offset as usize;
        self.bytes[start..start + bytes.len()].copy_from_slice(bytes);
    }

    /// Makes a page unreadable from now on.
    pub fn mark_bad(&mut self, extent: u32, page: u32)
        requires in_extents { extent < (image_of self.old).geometry.extents }
        requires in_pages { page < (image_of self.old).geometry.pages }
        ensures { Marks (image_of self.old) (image_of self.new) extent page }
    {
        let number = extent as usize * self.geometry.pages() as usize + page as usize;
        self.unreadable[number] = true;
    }
}

impl PageSource for MemDisk {
    ghost use Rattle.scrub_disk.specs.Memory.{image_of};
    ghost use Rattle.scrub_disk.specs.steps.WholePages.{held_whole};

    ghost image = { image_of };

    ghost whole_pages = { λ d. held_whole d.geometry d.bytes.items d.unreadable.items d.whole };

    fn geometry(&self) -> Geometry {
        self.geometry
    }

    fn read_page(&self, extent: u32, page: u32, out: &mut [u8]) -> Result<(), Unreadable> {
        let number = extent as usize * self.geometry.pages() as usize + page as usize;
        if self.unreadable[number] {
            return Err(Unreadable);
        }
        let size = self.geometry.page() as usize;
        let start = number * size;
        out.copy_from_slice(&self.bytes[start..start + size]);
        Ok(())
    }
}

impl MarkPages for MemDisk {
    fn mark_bad(&mut self, extent: u32, page: u32) {
        MemDisk::mark_bad(self, extent, page);
    }
}
