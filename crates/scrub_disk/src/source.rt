//! Where the pages of a disk come from.

ghost use Rattle.std.specs.Prelude.{◌≡◌, ◌<◌, length, OnOk, OnErr, Some, None};
ghost use Rattle.scrub_disk.specs.Image.{Image, HasWholePages};

use crate::geometry::Geometry;
use thiserror::Error;

/// The page can't be read.
#[derive(Debug, Clone, Copy, PartialEq, Eq, Error)]
#[error("unreadable")]
pub struct Unreadable;

/// A source of a disk's pages. Its image doesn't change while it is borrowed.
pub trait PageSource: Sync {
    /// The bytes of each page of each extent, or that it is unreadable.
    ghost image: { Self → Image };

    /// The disk's sizes.
    fn geometry(&self) -> Geometry
        ensures { result ≡ (image self.now).geometry };

    /// Reads one page of an extent, both counted from 0, into `out`, which is one page long. If the page is
    /// unreadable, `out` is unchanged.
    fn read_page(&self, extent: u32, page: u32, out: &mut [u8]) -> Result<(), Unreadable>
        requires in_extents { extent < (image self.now).geometry.extents }
        requires in_pages { page < (image self.now).geometry.pages }
        requires one_page { length out.old ≡ (image self.now).geometry.page }
        ensures readable { OnOk result ((image self.now).page extent page ≡ Some out.new) }
        ensures unreadable { OnErr result ((image self.now).page extent page ≡ None) }
        ensures unchanged { OnErr result (out.new ≡ out.old) };

    /// A law: each readable page of the disk has as many bytes as the geometry says.
    ghost whole_pages: { (source : Self) → HasWholePages (image source) };
}
