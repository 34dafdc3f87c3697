//! Loads a raw image into memory by one reader of it. It doesn't look at what the bytes mean.

ghost use Rattle.std.specs.Prelude.{◌≡◌, ◌≢◌, ◌≤◌, ◌+◌, ◌-◌, ◌*◌, ◌<◌, ◌^◌, ◌⊎◌, All, IsTrue};
ghost use Rattle.std.specs.Prelude.{IfOk, IfSome, length, Err};
ghost use Rattle.std.specs.Bool.{OnTrue, OnFalse};
ghost use Rattle.scrub_disk.specs.Image.{disk_bytes};
ghost use Rattle.scrub_disk.specs.Raw.{IsReadOn, IsLoadedWith};
ghost use Rattle.scrub_disk.specs.steps.Ahead.{IsReadFrom};
ghost use Rattle.scrub_disk.specs.Memory.{image_of};

use crate::geometry::Geometry;
use crate::marking::mark_named;
use crate::memory::MemDisk;
use crate::raw::RawImage;
use crate::reading::read_pages;
use std::alloc::Global;
use thiserror::Error;

/// Why a raw image wasn't loaded.
#[derive(Debug, Clone, Copy, PartialEq, Eq, Error)]
pub enum LoadFault {
    /// There wasn't enough memory for the disk.
    #[error("out of memory")]
    OutOfMemory,
    /// A byte follows the last page.
    #[error("the raw image is too long")]
    TooLong,
}

/// Whether a byte at an offset can be read.
pub(crate) fn has_byte_at<R: RawImage>(raw: &mut R, offset: u64) -> bool
    requires { R.reads raw.old < 2 ^ 63 }
    ensures there { IfSome (R.bytes raw.old) (λ known. OnTrue result (offset < length known)) }
    ensures not_there { IfSome (R.bytes raw.old) (λ known. OnFalse result
        ((length known ≤ offset)
        ⊎ ((R.failures raw.old < R.failures raw.new) × IsTrue (R.fails raw.old offset 1)))) }
    ensures image { IsReadOn R.bytes R.fails R.most_failures R.failures raw.old raw.new }
    ensures reads { R.reads raw.new ≡ R.reads raw.old + 1 }
{
    match raw.read_at(offset, &mut [0u8]) {
        Ok(n) => n > 0,
        Err(_) => false,
    }
}

/// The disk whose pages follow one another in the raw bytes. A page that can't be read whole is unreadable.
fn read_disk<R: RawImage>(
    alloc: Global,
    raw: &mut R,
    geometry: Geometry,
) -> Result<MemDisk, LoadFault>
    requires few_reads { R.reads raw.old < 2 ^ 62 }
    ensures geometry { IfOk result (λ disk. disk.geometry ≡ geometry) }
    ensures read { IfOk result (λ disk. IsReadFrom (R.bytes raw.old) (R.fails raw.old) 0 geometry.page
        (R.failures raw.new - R.failures raw.old) disk.bytes.items disk.unreadable.items) }
    ensures fault { result ≢ Err LoadFault.TooLong }
    ensures image { IsReadOn R.bytes R.fails R.most_failures R.failures raw.old raw.new }
    ensures reads { R.reads raw.new ≤ R.reads raw.old + (geometry.page + 1) *
        (geometry.pages * geometry.extents) }
{
    let pages = geometry.pages() as usize * geometry.extents() as usize;
    let page = geometry.page() as usize;
    let mut bytes = vec![in alloc; 0u8; page * pages].map_err(|_| LoadFault::OutOfMemory)?;
    let mut unreadable = vec![in alloc; false; pages].map_err(|_| LoadFault::OutOfMemory)?;
    read_pages(raw, 0, page, &mut bytes, &mut unreadable);
    Ok(MemDisk::from_parts(geometry, bytes, unreadable))
}

/// Loads an image of this geometry from raw bytes. With N pages an extent and P bytes a page, page q of
/// extent e begins at byte (e × N + q) × P. A page is unreadable if a read of it alone failed, if the bytes
/// end before it does, or if `bad` names it, by its extent and its number there. At most P + 1 reads are made
/// for each page, and one more after the last page; a failed read costs at most one page. On success the
/// bytes are no longer than the disk, unless a read failed.
///
/// Faults, in this order: `OutOfMemory`; `TooLong` if a byte follows the last page (if the read for it fails,
/// that isn't a fault). Either may come after the raw image was read.
pub fn load<R: RawImage>(
    alloc: Global,
    raw: &mut R,
    geometry: Geometry,
    bad: &[(u32, u32)],
) -> Result<MemDisk, LoadFault>
    requires few_reads { R.reads raw.old < 2 ^ 62 }
    requires in_range { All (λ at. (at.0 < geometry.extents) × (at.1 < geometry.pages)) bad.now }
    ensures loaded { IfOk result (λ disk.
        IsLoadedWith (R.bytes raw.old) (R.fails raw.old) (R.failures raw.new - R.failures raw.old) geometry
        bad.now (image_of disk)) }
    ensures too_long { result ≡ Err LoadFault.TooLong →
        IfSome (R.bytes raw.old) (λ known. disk_bytes geometry < length known) }
    ensures failures { R.failures raw.old ≤ R.failures raw.new }
    ensures same_bytes { R.bytes raw.new ≡ R.bytes raw.old }
    ensures same_fails { R.fails raw.new ≡ R.fails raw.old }
    ensures same_bound { R.most_failures raw.new ≡ R.most_failures raw.old }
    ensures reads { R.reads raw.new ≤ R.reads raw.old + (geometry.page + 1) *
        (geometry.pages * geometry.extents) + 1 }
{
    let mut disk = read_disk(alloc, raw, geometry)?;
    let end = geometry.extent_bytes() as u64 * geometry.extents() as u64;
    if has_byte_at(raw, end) {
        return Err(LoadFault::TooLong);
    }
    mark_named(&mut disk, bad);
    Ok(disk)
}
