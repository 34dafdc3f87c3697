//! What is put into one extent of a small disk.

use scrub_disk::{Geometry, MemDisk};
use scrub_fakes::{ONES, THREES, TWOS, mark_bad, put, put_chunk, put_superblock, small_disk};
use std::alloc::Global;
use std::test::Fail;

/// A frame to put: its offset in extent 1, its UUID and its payload.
pub(crate) type Written<'a> = (u32, [u8; 16], &'a [u8]);

/// Puts frames into extent 1.
fn put_frames(alloc: Global, disk: &mut MemDisk, frames: &[Written]) -> Result<(), Fail> {
    for (offset, uuid, payload) in frames {
        put_chunk(alloc, disk, 1, *offset, *uuid, payload)?;
    }
    Ok(())
}

/// Puts bytes into extent 1, each part at its offset.
fn put_all(disk: &mut MemDisk, parts: &[(u32, &[u8])]) -> Result<(), Fail> {
    for (offset, bytes) in parts {
        put(disk, 1, *offset, bytes)?;
    }
    Ok(())
}

/// Makes pages of an extent unreadable.
pub(crate) fn mark_all(disk: &mut MemDisk, extent: u32, pages: &[u32]) -> Result<(), Fail> {
    for page in pages {
        mark_bad(disk, extent, *page)?;
    }
    Ok(())
}

/// A disk of three extents without a superblock. Extent 1 has these frames and these unreadable pages.
pub(crate) fn disk_with(
    alloc: Global,
    frames: &[Written],
    bad_pages: &[u32],
) -> Result<MemDisk, Fail> {
    let mut disk = small_disk(alloc)?;
    put_frames(alloc, &mut disk, frames)?;
    mark_all(&mut disk, 1, bad_pages)?;
    Ok(disk)
}

/// A disk of three extents. Extent 1 begins with a head that claims the greatest length.
pub(crate) fn greatest_length(alloc: Global) -> Result<MemDisk, Fail> {
    let mut disk = small_disk(alloc)?;
    let head: [(u32, &[u8]); 3] = [(0, &[0xC5, 0x5E]), (2, &ONES), (18, &[0xFF; 4])];
    put_all(&mut disk, &head)?;
    Ok(disk)
}

/// A disk of three extents of two pages of 128 bytes. Extent 1 has two frames with zeros between them, and a
/// third on page 1.
pub(crate) fn two_large_pages(alloc: Global) -> Result<MemDisk, Fail> {
    let mut disk = MemDisk::blank(alloc, Geometry::new(128, 2, 3)?)?;
    let frames = [
        (0, ONES, b"abc".as_slice()),
        (44, TWOS, b""),
        (128, THREES, b"abc"),
    ];
    put_frames(alloc, &mut disk, &frames)?;
    put_superblock(alloc, &mut disk, &[169, 0], &[])?;
    Ok(disk)
}
