//! Reads a whole extent into memory, and keeps which of its pages are readable.

ghost use Rattle.std.specs.Prelude.{◌≡◌, ◌≤◌, ◌<◌, IfOk, length};
ghost use Rattle.scrub_disk.specs.Buffered.{IsBuffered, pages_without};

use crate::OutOfMemory;
use crate::source::PageSource;
use std::alloc::Global;

/// The pages of an extent, as they were read.
#[derive(Drop)]
pub struct BufferedExtent {
    /// The bytes of the extent. Those of a page that could not be read are zeros and mean nothing.
    pub bytes: Vec<u8>,
    /// For each page, whether it could be read.
    pub readable: Vec<bool>,
}

/// Reads a whole extent, each page once.
pub fn read_extent<D: PageSource>(
    alloc: Global,
    disk: &D,
    extent: u32,
) -> Result<BufferedExtent, OutOfMemory>
    requires { extent < (D.image disk.now).geometry.extents }
    ensures { IfOk result (λ b. IsBuffered (D.image disk.now) extent b.bytes.items b.readable.items) }
{
    let geometry = disk.geometry();
    let size = geometry.page() as usize;
    let mut bytes = vec![in alloc; 0u8; geometry.extent_bytes() as usize]?;
    let mut readable = Vec::with_capacity(alloc, geometry.pages() as usize)?;
    for page in 0..geometry.pages() {
        let start = page as usize * size;
        let read = disk.read_page(extent, page, &mut bytes[start..start + size]);
        readable.push(read.is_ok())?;
    }
    Ok(BufferedExtent { bytes, readable })
}

/// The numbers of the unreadable pages of an extent, in ascending order. An extent has at most 65,536 pages.
pub fn unreadable_pages(alloc: Global, readable: &[bool]) -> Result<Vec<u32>, OutOfMemory>
    requires { length readable.now ≤ 65536 }
    ensures { IfOk result (λ v. v.items ≡ pages_without readable.now) }
{
    let mut unreadable = Vec::new(alloc);
    for page in 0..readable.len() {
        if !readable[page] {
            unreadable.push(page as u32)?;
        }
    }
    Ok(unreadable)
}
