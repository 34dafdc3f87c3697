//! A disk of which one extent alone is in memory. For loading it from raw bytes see `extent_loading`, and for
//! whole disks in memory `memory` and `parts`.

ghost use Rattle.std.specs.Prelude.{◌≡◌, ◌*◌, ◌<◌, length};

use crate::geometry::Geometry;
use crate::marking::MarkPages;
use crate::source::{PageSource, Unreadable};

/// The bytes of one extent of a disk, and a mark on each unreadable page of it. All pages of the other
/// extents are unreadable.
#[derive(Drop)]
pub struct OneExtent {
    geometry: Geometry,
    extent: u32,
    bytes: Vec<u8>,
    unreadable: Vec<bool>,
    ghost whole: { length bytes.items ≡ geometry.page * geometry.pages },
    ghost each_page: { length unreadable.items ≡ geometry.pages },
}

impl OneExtent {
    /// A disk with the bytes of all pages of this extent, and a mark for each of them: true if it is
    /// unreadable.
    pub(crate) fn from_bytes(
        geometry: Geometry,
        extent: u32,
        bytes: Vec<u8>,
        unreadable: Vec<bool>,
    ) -> OneExtent
        requires whole { length bytes.items ≡ geometry.page * geometry.pages }
        requires each_page { length unreadable.items ≡ geometry.pages }
        ensures geometry { result.geometry ≡ geometry }
        ensures extent { result.extent ≡ extent }
        ensures bytes { result.bytes.items ≡ bytes.items }
        ensures unreadable { result.unreadable.items ≡ unreadable.items }
    {
        OneExtent {
            geometry,
            extent,
            bytes,
            unreadable,
        }
    }
}

impl PageSource for OneExtent {
    ghost use Rattle.scrub_disk.specs.OneExtent.{image_of};
    ghost use Rattle.scrub_disk.specs.steps.WholePages.{alone_whole};

    ghost image = { image_of };

    ghost whole_pages = { λ d.
        alone_whole d.geometry d.extent d.bytes.items d.unreadable.items d.whole };

    fn geometry(&self) -> Geometry {
        self.geometry
    }

    fn read_page(&self, extent: u32, page: u32, out: &mut [u8]) -> Result<(), Unreadable> {
        if extent != self.extent {
            return Err(Unreadable);
        }
        if self.unreadable[page as usize] {
            return Err(Unreadable);
        }
        let size = self.geometry.page() as usize;
        let start = page as usize * size;
        out.copy_from_slice(&self.bytes[start..start + size]);
        Ok(())
    }
}

impl MarkPages for OneExtent {
    fn mark_bad(&mut self, extent: u32, page: u32) {
        if extent == self.extent {
            self.unreadable[page as usize] = true;
        }
    }
}
