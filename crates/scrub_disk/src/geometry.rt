//! The sizes of a disk, and their limits.

ghost use Rattle.std.specs.Prelude.{◌≡◌, ◌*◌, ◌^◌, ◌<◌, ◌≤◌, IsTrue, MatchResult};
ghost use Rattle.std.specs.Int.{is_power_of_two};

use thiserror::Error;

/// The most bytes that an extent can have.
const MAX_EXTENT_BYTES: u64 = 1 << 26;

/// The most bytes that a disk can have.
const MAX_DISK_BYTES: u64 = 1 << 32;

/// The first limit that a geometry breaks. The limits are checked in this order.
#[derive(Debug, Clone, Copy, PartialEq, Eq, Error)]
pub enum GeometryFault {
    /// The page isn't a power of two from 64 to 65,536 bytes.
    #[error("PageSize")]
    PageSize,
    /// An extent has no page, or more than 65,536.
    #[error("Pages")]
    Pages,
    /// The disk has fewer than 2 extents, or more than 65,536.
    #[error("Extents")]
    Extents,
    /// An extent has more than 67,108,864 bytes.
    #[error("ExtentBytes")]
    ExtentBytes,
    /// The disk has more than 4,294,967,296 bytes.
    #[error("TotalBytes")]
    TotalBytes,
}

/// A disk's sizes, all within their limits.
#[derive(Debug, Clone, Copy, PartialEq, Eq)]
pub struct Geometry {
    /// How many bytes a page has.
    pub page: u32,
    /// How many pages an extent has.
    pub pages: u32,
    /// How many extents the disk has, extent 0 included.
    pub extents: u32,
    pub ghost page_least: { 64 ≤ page },
    pub ghost page_most: { page ≤ 65536 },
    pub ghost page_power: { IsTrue (is_power_of_two page) },
    pub ghost pages_least: { 1 ≤ pages },
    pub ghost pages_most: { pages ≤ 65536 },
    pub ghost extents_least: { 2 ≤ extents },
    pub ghost extents_most: { extents ≤ 65536 },
    pub ghost extent_fits: { page * pages ≤ 2 ^ 26 },
    pub ghost total_fits: { page * pages * extents ≤ 2 ^ 32 },
}

impl Geometry {
    ghost use Rattle.scrub_disk.specs.Faults.{IsFirstBroken, HasSizes};

    /// A disk of `extents` extents, each of `pages` pages of `page` bytes, or the first limit that these
    /// sizes break.
    pub fn new(page: u32, pages: u32, extents: u32) -> Result<Geometry, GeometryFault>
        ensures { MatchResult result (λ g. HasSizes g page pages extents) (IsFirstBroken page pages extents) }
    {
        if page < 64 || page > 65536 || !page.is_power_of_two() {
            return Err(GeometryFault::PageSize);
        }
        if pages < 1 || pages > 65536 {
            return Err(GeometryFault::Pages);
        }
        if extents < 2 || extents > 65536 {
            return Err(GeometryFault::Extents);
        }
        let extent_bytes = page as u64 * pages as u64;
        if extent_bytes > MAX_EXTENT_BYTES {
            return Err(GeometryFault::ExtentBytes);
        }
        if extent_bytes * extents as u64 > MAX_DISK_BYTES {
            return Err(GeometryFault::TotalBytes);
        }
        Ok(Geometry {
            page,
            pages,
            extents,
        })
    }

    /// How many bytes a page has.
    pub fn page(&self) -> u32
        ensures { result ≡ self.now.page }
    {
        self.page
    }

    /// How many pages an extent has.
    pub fn pages(&self) -> u32
        ensures { result ≡ self.now.pages }
    {
        self.pages
    }

    /// How many extents the disk has, extent 0 included.
    pub fn extents(&self) -> u32
        ensures { result ≡ self.now.extents }
    {
        self.extents
    }

    /// How many bytes an extent has.
    pub fn extent_bytes(&self) -> u32
        ensures { result ≡ self.now.page * self.now.pages }
    {
        self.page * self.pages
    }
}
