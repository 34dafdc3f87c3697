//! Loads one extent of a raw image into memory by one reader of it. For the whole disk see `parted_loading`
//! and `loading`.

ghost use Rattle.std.specs.Prelude.{◌≡◌, ◌≢◌, ◌≤◌, ◌+◌, ◌-◌, ◌*◌, ◌<◌, ◌^◌, All, IfOk, IfSome, Err, length};
ghost use Rattle.scrub_disk.specs.Image.{disk_bytes};
ghost use Rattle.scrub_disk.specs.OneExtent.{image_of};
ghost use Rattle.scrub_disk.specs.Raw.{IsLoadedIn, IsReadOn};
ghost use Rattle.scrub_disk.specs.steps.Ahead.{IsReadFrom};

use crate::geometry::Geometry;
use crate::loading::{LoadFault, has_byte_at};
use crate::marking::mark_named;
use crate::one_extent::OneExtent;
use crate::raw::RawImage;
use crate::reading::read_pages;
use std::alloc::Global;

/// The extent, as the raw image has it. A page that can't be read whole is unreadable.
fn read_extent_of<R: RawImage>(
    alloc: Global,
    raw: &mut R,
    geometry: Geometry,
    extent: u32,
) -> Result<OneExtent, LoadFault>
    requires few_reads { R.reads raw.old < 2 ^ 62 }
    requires in_extents { extent < geometry.extents }
    ensures geometry { IfOk result (λ disk. disk.geometry ≡ geometry) }
    ensures extent { IfOk result (λ disk. disk.extent ≡ extent) }
    ensures read { IfOk result (λ disk. IsReadFrom (R.bytes raw.old) (R.fails raw.old)
        (extent * geometry.pages) geometry.page (R.failures raw.new - R.failures raw.old) disk.bytes.items
        disk.unreadable.items) }
    ensures fault { result ≢ Err LoadFault.TooLong }
    ensures image { IsReadOn R.bytes R.fails R.most_failures R.failures raw.old raw.new }
    ensures reads { R.reads raw.new ≤ R.reads raw.old + (geometry.page + 1) * geometry.pages }
{
    let page = geometry.page() as usize;
    let pages = geometry.pages() as usize;
    let mut bytes = vec![in alloc; 0u8; page * pages].map_err(|_| LoadFault::OutOfMemory)?;
    let mut unreadable = vec![in alloc; false; pages].map_err(|_| LoadFault::OutOfMemory)?;
    read_pages(
        raw,
        extent as usize * pages,
        page,
        &mut bytes,
        &mut unreadable,
    );
    Ok(OneExtent::from_bytes(geometry, extent, bytes, unreadable))
}

/// Loads one extent of an image of this geometry from raw bytes, as `load` does it. Only the bytes of this
/// extent are read, and what comes after the last page: whether there is a byte.
///
/// Faults, in this order: `OutOfMemory`; `TooLong` if a byte follows the last page of the disk (if the read
/// for it fails, that isn't a fault). Either may come after the raw image was read.
pub fn load_extent<R: RawImage>(
    alloc: Global,
    raw: &mut R,
    geometry: Geometry,
    bad: &[(u32, u32)],
    extent: u32,
) -> Result<OneExtent, LoadFault>
    requires few_reads { R.reads raw.old < 2 ^ 62 }
    requires in_range { All (λ at. (at.0 < geometry.extents) × (at.1 < geometry.pages)) bad.now }
    requires in_extents { extent < geometry.extents }
    ensures loaded { IfOk result (λ disk.
        IsLoadedIn (λ e. e ≡ extent) (R.bytes raw.old) (R.fails raw.old)
        (R.failures raw.new - R.failures raw.old) geometry bad.now (image_of disk)) }
    ensures too_long { result ≡ Err LoadFault.TooLong →
        IfSome (R.bytes raw.old) (λ known. disk_bytes geometry < length known) }
    ensures failures { R.failures raw.old ≤ R.failures raw.new }
    ensures same_bytes { R.bytes raw.new ≡ R.bytes raw.old }
    ensures same_fails { R.fails raw.new ≡ R.fails raw.old }
    ensures same_bound { R.most_failures raw.new ≡ R.most_failures raw.old }
    ensures reads { R.reads raw.new ≤ R.reads raw.old + (geometry.page + 1) * geometry.pages + 1 }
{
    let mut disk = read_extent_of(alloc, raw, geometry, extent)?;
    let end = geometry.extent_bytes() as u64 * geometry.extents() as u64;
    if has_byte_at(raw, end) {
        return Err(LoadFault::TooLong);
    }
    mark_named(&mut disk, bad);
    Ok(disk)
}
