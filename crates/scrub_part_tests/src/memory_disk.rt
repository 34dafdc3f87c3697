//! A small disk in memory, written, marked and read back.

ghost use Rattle.std.specs.Prelude.{◌≡◌, ◌<◌, length};
ghost use Rattle.scrub_disk.specs.Faults.{HasSizes};
ghost use Rattle.scrub_disk.specs.Memory.{image_of};

use crate::compare::same;
use scrub_disk::{MemDisk, PageSource, Unreadable};
use scrub_fakes::small_disk;
use std::test::Fail;

/// The bytes of a page of a small disk.
fn page_of(disk: &MemDisk, extent: u32, page: u32) -> Result<[u8; 64], Unreadable>
    requires { HasSizes (image_of disk.now).geometry 64 4 3 × (extent < 3) × (page < 4) }
{
    let mut out = [7; 64];
    disk.read_page(extent, page, &mut out)?;
    Ok(out)
}

/// Reads the last page of a source through the trait.
fn read_last_page<D: PageSource>(disk: &D, out: &mut [u8]) -> Result<(), Unreadable>
    requires { length out.old ≡ (D.image disk.now).geometry.page }
{
    let geometry = disk.geometry();
    disk.read_page(geometry.extents() - 1, geometry.pages() - 1, out)
}

#[test]
fn a_blank_disk_is_zero(rt: HostRuntime) -> Result<(), Fail> {
    let disk = small_disk(rt.alloc())?;
    for extent in 0..3 {
        for page in 0..4 {
            same(&rt, page_of(&disk, extent, page), Ok([0; 64]));
        }
    }
    Ok(())
}

#[test]
fn a_page_is_put_and_read_back(rt: HostRuntime) -> Result<(), Fail> {
    let mut disk = small_disk(rt.alloc())?;
    disk.put(1, 64, &[0x78; 64]);
    same(&rt, page_of(&disk, 1, 0), Ok([0; 64]));
    same(&rt, page_of(&disk, 1, 1), Ok([0x78; 64]));
    same(&rt, page_of(&disk, 1, 2), Ok([0; 64]));
    Ok(())
}

#[test]
fn the_last_byte_of_the_disk_is_put(rt: HostRuntime) -> Result<(), Fail> {
    let mut disk = small_disk(rt.alloc())?;
    disk.put(2, 255, &[9]);
    disk.put(2, 256, &[]);
    let last = page_of(&disk, 2, 3)?;
    same(&rt, (last[62], last[63]), (0, 9));
    Ok(())
}

#[test]
fn an_unreadable_page_stays_unreadable_and_leaves_the_buffer_alone(
    rt: HostRuntime,
) -> Result<(), Fail> {
    let mut disk = small_disk(rt.alloc())?;
    disk.mark_bad(2, 3);
    disk.put(2, 128, &[5; 128]);
    let mut out = [7; 64];
    same(&rt, disk.read_page(2, 3, &mut out), Err(Unreadable));
    same(&rt, out, [7; 64]);
    same(&rt, page_of(&disk, 2, 2), Ok([5; 64]));
    Ok(())
}

#[test]
fn a_disk_in_memory_is_a_page_source(rt: HostRuntime) -> Result<(), Fail> {
    let mut disk = small_disk(rt.alloc())?;
    disk.put(2, 192, &[1; 64]);
    let mut out = [0; 64];
    same(&rt, read_last_page(&disk, &mut out), Ok(()));
    same(&rt, out, [1; 64]);
    Ok(())
}
