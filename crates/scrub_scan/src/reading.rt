//! Reads the bytes at a place of an extent, if all of them are readable. `standing` judges them.

ghost use Rattle.std.specs.Prelude.{◌≡◌, ◌+◌, ◌<◌, ◌≤◌, IfOk, IfSome, IfNone, None, length};
ghost use Rattle.scrub_disk.specs.Image.{image_byte, extent_bytes, AreBytesAt};
ghost use Rattle.scrub_scan.specs.Extent.{HasGap};
ghost use Rattle.scrub_scan.specs.steps.FrameRead.{AppendsAtMost};

use scrub_disk::{OutOfMemory, PageSource};
use std::alloc::Global;

/// Appends the bytes of an extent from `place` to the end of its page, at most `size` of them, and returns
/// how many these are. `None` if the page is unreadable. The page is read into the buffer.
fn append_part<D: PageSource>(
    disk: &D,
    extent: u32,
    place: usize,
    size: usize,
    buffer: &mut [u8],
    bytes: &mut Vec<u8>,
) -> Result<Option<usize>, OutOfMemory>
    requires in_extents { extent < (D.image disk.now).geometry.extents }
    requires in_extent { place + size ≤ extent_bytes (D.image disk.now).geometry }
    requires some { 0 < size }
    requires one_page { length buffer.old ≡ (D.image disk.now).geometry.page }
    ensures part { IfOk result (λ part. IfSome part
        (AppendsAtMost (image_byte (D.image disk.now) extent) place size bytes.old.items bytes.new.items)) }
    ensures gap { IfOk result (λ part. IfNone part (image_byte (D.image disk.now) extent place ≡ None)) }
{
    let page = buffer.len();
    if disk
        .read_page(extent, (place / page) as u32, buffer)
        .is_err()
    {
        return Ok(None);
    }
    let first = place % page;
    let last = page.min(first + size);
    bytes.extend_from_slice(&buffer[first..last])?;
    Ok(Some(last - first))
}

/// The `size` bytes of an extent from `start` on, or `None` if one of them is on an unreadable page.
pub(crate) fn read_bytes<D: PageSource>(
    alloc: Global,
    disk: &D,
    extent: u32,
    start: usize,
    size: usize,
) -> Result<Option<Vec<u8>>, OutOfMemory>
    requires in_extents { extent < (D.image disk.now).geometry.extents }
    requires in_extent { start + size ≤ extent_bytes (D.image disk.now).geometry }
    ensures size { IfOk result (λ bytes. IfSome bytes (λ v. length v.items ≡ size)) }
    ensures bytes { IfOk result (λ bytes.
        IfSome bytes (λ v. AreBytesAt (image_byte (D.image disk.now) extent) start v.items)) }
    ensures gap { IfOk result (λ bytes.
        IfNone bytes (HasGap (image_byte (D.image disk.now) extent) start size)) }
{
    let mut buffer = vec![in alloc; 0u8; disk.geometry().page() as usize]?;
    let mut bytes = Vec::with_capacity(alloc, size)?;
    let mut place = start;
    while place < start + size {
        let rest = start + size - place;
        match append_part(disk, extent, place, rest, &mut buffer, &mut bytes)? {
            Some(count) => place += count,
            None => return Ok(None),
        }
    }
    Ok(Some(bytes))
}
