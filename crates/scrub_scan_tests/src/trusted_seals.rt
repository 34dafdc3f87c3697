//! How often a scan asks for pages if there are wrong seals among right ones. A tiling compares seals with
//! digests once it has gathered several payloads, and goes back to the first frame whose seal is wrong: even
//! so it asks for no more pages than it may. What it finds is compared in `tests/test_tilings.py`.

use crate::page_reads::{check_alone, check_asked};
use scrub_disk::{Geometry, MemDisk};
use scrub_fakes::{ONES, TWOS, put, put_chunk, put_sealed, put_superblock};
use std::alloc::Global;
use std::test::Fail;

/// A disk of two extents whose pages have 128 bytes. Extent 1 is below its pointer, and each of its pages is
/// a frame: two sealed ones, then a plain one, and so on. In frames of these numbers a byte of the payload
/// was changed.
fn a_frame_a_page(alloc: Global, pages: u8, changed: &[u8]) -> Result<MemDisk, Fail> {
    let mut disk = MemDisk::blank(alloc, Geometry::new(128, u32::from(pages), 2)?)?;
    for number in 0..pages {
        let offset = 128 * u32::from(number);
        if number % 3 == 2 {
            put_chunk(alloc, &mut disk, 1, offset, TWOS, &[number; 90])?;
        } else {
            put_sealed(alloc, &mut disk, 1, offset, ONES, &[number; 56])?;
        }
    }
    for number in changed {
        put(&mut disk, 1, 128 * u32::from(*number) + 70, b"changed")?;
    }
    put_superblock(alloc, &mut disk, &[128 * u32::from(pages)], &[])?;
    Ok(disk)
}

/// How many pages an extent has, and the numbers of the frames in it that were changed.
const FRAMES: [(u8, &[u8]); 21] = [
    (1, &[]),
    (1, &[0]),
    (2, &[]),
    (2, &[0]),
    (2, &[1]),
    (2, &[0, 1]),
    (4, &[]),
    (4, &[0]),
    (4, &[1]),
    (4, &[3]),
    (4, &[1, 3]),
    (48, &[]),
    (48, &[0]),
    (48, &[1]),
    (48, &[3]),
    (48, &[24]),
    (48, &[46]),
    // Plain frames have no seal.
    (48, &[2, 47]),
    // Two of them, side by side and far apart.
    (48, &[6, 7]),
    (48, &[4, 45]),
    (
        48,
        &[0, 1, 3, 4, 6, 7, 9, 10, 12, 13, 15, 16, 18, 19, 21, 22],
    ),
];

#[test]
fn pages_of_frames_with_wrong_seals_are_counted(rt: HostRuntime) -> Result<(), Fail> {
    for (pages, changed) in &FRAMES {
        check_asked(
            &rt,
            rt.alloc(),
            &a_frame_a_page(rt.alloc(), *pages, changed)?,
        )?;
    }
    Ok(())
}

/// Puts twenty frames of 67 to 301 bytes that touch into an extent, all sealed but each fourth. In the one of
/// this number a byte of the payload was changed. Returns where the last one ends.
fn put_touching(alloc: Global, disk: &mut MemDisk, extent: u32, changed: u8) -> Result<u32, Fail> {
    let mut offset = 0u32;
    for number in 0u8..20 {
        let payload = [number; 229];
        let size = 29 + (u32::from(number) * 83) % 201;
        let part = payload.get(..size as usize).unwrap_or(&payload);
        let overhead = if number % 4 == 3 { 38 } else { 72 };
        if number % 4 == 3 {
            put_chunk(alloc, disk, extent, offset, TWOS, part)?;
        } else {
            put_sealed(alloc, disk, extent, offset, ONES, part)?;
        }
        if number == changed {
            put(disk, extent, offset.saturating_add(60), b"changed")?;
        }
        offset = offset.saturating_add(size + overhead);
    }
    Ok(offset)
}

/// Each extent has the same frames, and another one of them is changed; in the last extent none is.
#[test]
fn pages_of_frames_that_touch_are_counted(rt: HostRuntime) -> Result<(), Fail> {
    let mut disk = MemDisk::blank(rt.alloc(), Geometry::new(64, 64, 22)?)?;
    let mut pointers = Vec::new(rt.alloc());
    for changed in 0u8..21 {
        let extent = u32::from(changed) + 1;
        pointers.push(put_touching(rt.alloc(), &mut disk, extent, changed)?)?;
    }
    put_superblock(rt.alloc(), &mut disk, &pointers, &[])?;
    check_asked(&rt, rt.alloc(), &disk)?;
    check_alone(&rt, rt.alloc(), &disk)
}
