//! How often pages are asked for: by the choice of a superblock, by the tiling of an extent, and by its scan.
//! For worked disks see `counted_disks`.

ghost use Rattle.std.specs.Prelude.{◌≡◌};

use crate::compare::same;
use crate::extents::{disk_with, mark_all};
use scrub_disk::{Geometry, MemDisk, PageSource, read_extent};
use scrub_fakes::{
    CountingSource, ONES, TWOS, plan_of, put, put_chunk, put_superblock, small_disk,
};
use scrub_frame::Form;
use scrub_scan::{scan_extent, scan_in_order, tile};
use scrub_super::{Plan, choose};
use std::alloc::Global;
use std::process::Abort;
use std::test::Fail;

/// Checks that choosing a superblock asks once for each page of extent 0, and that a scan by one reader asks
/// for pages of each other extent as often as its result reports: at least `pages` times, and at most `pages
/// * (pages + 6)` times.
pub(crate) fn check_asked(rt: &impl Abort, alloc: Global, disk: &MemDisk) -> Result<(), Fail> {
    let source = CountingSource::new(alloc, disk)?;
    let geometry = source.geometry();
    let pages = u64::from(geometry.pages());
    let chosen = choose(alloc, &source)?;
    let plan = Plan::make(alloc, &chosen, geometry)?;
    let all = scan_in_order(alloc, &source, &plan)?;
    same(rt, all.len(), plan.planned().len());
    for extent in 0..geometry.extents() {
        let reported = match all.result_of(extent) {
            Some(result) => result.pages_asked(),
            None => pages,
        };
        let asked = source.reads_of(extent);
        same(rt, asked, reported);
        assert!(rt; pages <= asked && asked <= pages.saturating_mul(pages + 6));
    }
    Ok(())
}

/// Checks that a scan by one reader, which keeps its memory from one extent to the next, asks for pages of
/// each extent as often as a scan of that extent in new memory.
pub(crate) fn check_alone(rt: &impl Abort, alloc: Global, disk: &MemDisk) -> Result<(), Fail> {
    let plan = plan_of(alloc, disk)?;
    let all = scan_in_order(alloc, disk, &plan)?;
    for i in 0..all.len() {
        let found = all.result_at(i);
        let alone = asked_by_scan(rt, alloc, disk, &plan, found.extent())?;
        same(rt, found.pages_asked(), alone);
    }
    Ok(())
}

/// A disk of two extents; extent 0 is blank. Each of the eight pages of extent 1 begins with the head of a
/// frame that would end with the extent.
pub(crate) fn heads(alloc: Global) -> Result<MemDisk, Fail> {
    let mut disk = MemDisk::blank(alloc, Geometry::new(64, 8, 2)?)?;
    for page in 0u8..8 {
        let mut head = [0x11; 22];
        head[..2].copy_from_slice(&Form::Plain.magic());
        head[18..].copy_from_slice(&(474 - 64 * u32::from(page)).to_be_bytes());
        put(&mut disk, 1, 64 * u32::from(page), &head)?;
    }
    Ok(disk)
}

/// How often the tiling of extent 1 under a pointer asks for a page.
fn asked_by_tile(
    rt: &impl Abort,
    alloc: Global,
    disk: &MemDisk,
    pointer: u32,
) -> Result<u64, Fail> {
    let source = CountingSource::new(alloc, disk)?;
    let geometry = source.geometry();
    assert!(rt; geometry.extents() > 1);
    assert!(rt; pointer <= geometry.extent_bytes());
    let _items = tile(alloc, &source, 1, pointer)?;
    Ok(source.reads_of(1))
}

/// How often the scan of an extent reports that it asked for a page.
fn asked_by_scan<D: PageSource>(
    rt: &impl Abort,
    alloc: Global,
    disk: &D,
    plan: &Plan,
    extent: u32,
) -> Result<u64, Fail>
    requires { plan.now.geometry ≡ (D.image disk.now).geometry }
{
    assert!(rt; plan.planned().contains(&extent));
    let scanned = scan_extent(alloc, disk, plan, extent)?;
    Ok(scanned.pages_asked())
}

#[test]
fn reading_a_whole_extent_asks_for_8_pages_and_tiling_it_for_more(
    rt: HostRuntime,
) -> Result<(), Fail> {
    let disk = heads(rt.alloc())?;
    let whole = CountingSource::new(rt.alloc(), &disk)?;
    let geometry = whole.geometry();
    assert!(&rt; geometry.extents() == 2 && geometry.extent_bytes() == 512);
    let _extent = read_extent(rt.alloc(), &whole, 1)?;
    same(&rt, whole.reads_of(1), 8);
    let scanned = CountingSource::new(rt.alloc(), &disk)?;
    let _items = tile(rt.alloc(), &scanned, 1, 512)?;
    assert!(&rt; scanned.reads_of(1) > 8);
    Ok(())
}

/// The disk of `heads`, with or without a far end that agrees with the heads, and with these pages
/// unreadable.
fn heads_with(alloc: Global, far_end_agrees: bool, bad_pages: &[u32]) -> Result<MemDisk, Fail> {
    let mut disk = heads(alloc)?;
    if far_end_agrees {
        put(&mut disk, 1, 496, &ONES)?;
    }
    mark_all(&mut disk, 1, bad_pages)?;
    Ok(disk)
}

/// Whether the far end agrees with the heads, the unreadable pages, and how often the tiling asks for a page.
const HEADS: [(bool, &[u32], u64); 4] = [
    // Each page once, and the last one twice: as the far end and for its own item.
    (false, &[], 9),
    // The far end and six pages for the first head, then each page for its own item.
    (true, &[6], 15),
    // One frame: the first page, the far end, and then each other page.
    (true, &[], 9),
    // The far end and five pages for the first head, then each page for its own item.
    (true, &[5, 6], 14),
];

#[test]
fn at_most_one_head_that_claims_the_extent_is_followed(rt: HostRuntime) -> Result<(), Fail> {
    for (far_end_agrees, bad_pages, asked) in &HEADS {
        let disk = heads_with(rt.alloc(), *far_end_agrees, bad_pages)?;
        same(&rt, asked_by_tile(&rt, rt.alloc(), &disk, 512)?, *asked);
    }
    Ok(())
}

/// A disk of two extents; extent 0 is blank. Each of the first seven of eight pages of extent 1 begins with
/// the head of a sealed frame that would end with the extent. The closing bytes are there, but no digest is
/// that of its payload.
pub(crate) fn sealed_heads(alloc: Global) -> Result<MemDisk, Fail> {
    let mut disk = MemDisk::blank(alloc, Geometry::new(64, 8, 2)?)?;
    for page in 0u8..7 {
        let mut head = [0x11; 22];
        head[..2].copy_from_slice(&Form::Sealed.magic());
        head[18..].copy_from_slice(&(440 - 64 * u32::from(page)).to_be_bytes());
        put(&mut disk, 1, 64 * u32::from(page), &head)?;
    }
    put(&mut disk, 1, 494, &ONES)?;
    put(&mut disk, 1, 510, &[0x3A, 0xA3])?;
    Ok(disk)
}

#[test]
fn each_sealed_head_whose_far_end_agrees_is_hashed(rt: HostRuntime) -> Result<(), Fail> {
    let disk = sealed_heads(rt.alloc())?;
    // The far end once, each page for its own item, and for each head the pages up to the last. The seal of
    // the fourth is trusted at first, and its pages are asked for again once it is found to be wrong.
    assert!(rt; asked_by_tile(&rt, rt.alloc(), &disk, 512)? == 40);
    Ok(())
}

#[test]
fn the_tiling_of_short_frames_asks_for_each_page_once(rt: HostRuntime) -> Result<(), Fail> {
    let mut disk = small_disk(rt.alloc())?;
    for i in 0..6u32 {
        put_chunk(rt.alloc(), &mut disk, 1, 41 * i, ONES, b"abc")?;
    }
    assert!(rt; asked_by_tile(&rt, rt.alloc(), &disk, 246)? == 4);
    Ok(())
}

/// Checks how often a scan of extent 1 asks for a page, by its own report and by the count of its source.
fn check_scan(rt: &impl Abort, alloc: Global, disk: &MemDisk, asked: u64) -> Result<(), Fail> {
    let source = CountingSource::new(alloc, disk)?;
    let chosen = choose(alloc, &source)?;
    let plan = Plan::make(alloc, &chosen, source.geometry())?;
    assert!(rt; asked_by_scan(rt, alloc, &source, &plan, 1)? == asked);
    assert!(rt; source.reads_of(1) == asked);
    Ok(())
}

#[test]
fn a_scan_asks_for_each_page_of_heads_or_zeros(rt: HostRuntime) -> Result<(), Fail> {
    // The whole extent is below its pointer, so the tiling asks for all of it.
    check_scan(&rt, rt.alloc(), &heads(rt.alloc())?, 9)?;
    check_scan(&rt, rt.alloc(), &small_disk(rt.alloc())?, 4)
}

#[test]
fn a_scan_asks_for_each_page_of_short_frames_once(rt: HostRuntime) -> Result<(), Fail> {
    let mut disk = small_disk(rt.alloc())?;
    for i in 0..4u32 {
        put_chunk(rt.alloc(), &mut disk, 1, 41 * i, ONES, b"abc")?;
    }
    // Pages 0 to 2 for the tiling, since the pointer is on page 2, and page 3 for the tail.
    put_superblock(rt.alloc(), &mut disk, &[164, 0], &[])?;
    check_scan(&rt, rt.alloc(), &disk, 4)?;
    // Nothing is below the pointer: all pages for the tail.
    put_superblock(rt.alloc(), &mut disk, &[0, 0], &[])?;
    check_scan(&rt, rt.alloc(), &disk, 4)
}

#[test]
fn a_scan_asks_for_the_last_page_of_a_long_frame_twice(rt: HostRuntime) -> Result<(), Fail> {
    let mut disk = MemDisk::blank(rt.alloc(), Geometry::new(64, 8, 2)?)?;
    put_chunk(rt.alloc(), &mut disk, 1, 0, ONES, &[0x78; 300])?;
    put_chunk(rt.alloc(), &mut disk, 1, 338, TWOS, b"abc")?;
    put_superblock(rt.alloc(), &mut disk, &[379], &[])?;
    // Page 0, the far end on page 5, pages 1 to 5; then pages 6 and 7 for the tail.
    check_scan(&rt, rt.alloc(), &disk, 9)
}

#[test]
fn a_scan_does_not_ask_again_for_pages_lost_in_its_tiling(rt: HostRuntime) -> Result<(), Fail> {
    let mut disk = disk_with(rt.alloc(), &[(0, ONES, &[0x78; 60])], &[1, 3])?;
    // Page 0, page 1 as the far end and for its own item, and pages 2 and 3 for the tail.
    put_superblock(rt.alloc(), &mut disk, &[98, 0], &[])?;
    check_scan(&rt, rt.alloc(), &disk, 5)?;
    // The same with both unreadable pages below the pointer.
    put_superblock(rt.alloc(), &mut disk, &[256, 0], &[])?;
    check_scan(&rt, rt.alloc(), &disk, 5)
}
