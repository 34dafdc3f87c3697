//! Small extents that are read whole, and their unreadable pages.

use crate::compare::same;
use scrub_disk::{PageSource, read_extent, unreadable_pages};
use scrub_fakes::small_disk;
use std::process::Abort;
use std::test::Fail;

/// Checks that `count` bytes from a place on are equal to `byte`.
fn check_bytes(rt: &impl Abort, bytes: &[u8], start: usize, count: usize, byte: u8) {
    assert!(rt; start <= bytes.len());
    let found = bytes[start..].iter().take(count).filter(|b| **b == byte);
    assert_eq!(rt; found.count(), count, "from {start} on");
}

#[test]
fn an_extent_is_read_except_for_its_unreadable_pages(rt: HostRuntime) -> Result<(), Fail> {
    let mut disk = small_disk(rt.alloc())?;
    let geometry = disk.geometry();
    assert!(rt; geometry.extents() == 3 && geometry.pages() == 4);
    assert!(rt; geometry.extent_bytes() == 256);
    disk.put(1, 0, &[0x11; 256]);
    disk.put(2, 0, &[0x22; 256]);
    disk.mark_bad(1, 1);
    disk.mark_bad(1, 3);
    let extent = read_extent(rt.alloc(), &disk, 1)?;
    assert!(rt; extent.bytes.len() == 256);
    same(
        &rt,
        extent.readable.as_slice(),
        [true, false, true, false].as_slice(),
    );
    check_bytes(&rt, &extent.bytes, 0, 64, 0x11);
    check_bytes(&rt, &extent.bytes, 128, 64, 0x11);
    let unreadable = unreadable_pages(rt.alloc(), &extent.readable)?;
    same(&rt, unreadable.as_slice(), [1, 3].as_slice());
    Ok(())
}

#[test]
fn an_extent_of_readable_pages_has_no_unreadable_page(rt: HostRuntime) -> Result<(), Fail> {
    assert!(rt; unreadable_pages(rt.alloc(), &[true; 4])?.is_empty());
    assert!(rt; unreadable_pages(rt.alloc(), &[])?.is_empty());
    let none = unreadable_pages(rt.alloc(), &[false; 3])?;
    same(&rt, none.as_slice(), [0, 1, 2].as_slice());
    Ok(())
}
