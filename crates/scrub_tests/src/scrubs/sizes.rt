//! A book of as many extents as a disk can have, filled in an order in which no worker fills it. A body that
//! answers out of memory for a long list meets every contract. The other long lists are those of the program.

ghost use Rattle.std.specs.Prelude.{◌≡◌, Contains, OnOk};
ghost use Rattle.scrub_disk.specs.Memory.{image_of};

use scrub_book::Book;
use scrub_disk::{Geometry, MemDisk};
use scrub_fakes::plan_of;
use scrub_scan::{AllFindings, scan_extent, scan_in_order};
use scrub_super::Plan;
use std::alloc::Global;
use std::process::Abort;
use std::test::Fail;

/// Scans a planned extent that is missing in a book, and adds its result.
fn add_scanned<'d>(
    alloc: Global,
    disk: &'d MemDisk,
    plan: &Plan,
    book: &mut Book<'d, MemDisk>,
    extent: u32,
) -> Result<(), Fail>
    requires geometry { plan.now.geometry ≡ (image_of disk.now).geometry }
    requires planned { Contains plan.now.planned extent }
    requires image { image_of book.old.source ≡ image_of disk.now }
    requires pointers { book.old.plan.pointers ≡ plan.now.pointers }
    ensures image { OnOk result (image_of book.new.source ≡ image_of book.old.source) }
    ensures pointers { OnOk result (book.new.plan.pointers ≡ book.old.plan.pointers) }
{
    let found = scan_extent(alloc, disk, plan, extent)?;
    Ok(book.add(found).ok().ok_or("a result that was missing")?)
}

/// Scans all planned extents, from the last to the first, and adds each result.
fn fill_from_last<'d>(
    alloc: Global,
    disk: &'d MemDisk,
    plan: &Plan,
    book: &mut Book<'d, MemDisk>,
) -> Result<(), Fail>
    requires geometry { plan.now.geometry ≡ (image_of disk.now).geometry }
    requires image { image_of book.old.source ≡ image_of disk.now }
    requires pointers { book.old.plan.pointers ≡ plan.now.pointers }
{
    let planned = plan.planned();
    for i in (0..planned.len()).rev() {
        add_scanned(alloc, disk, plan, book, planned[i])?;
    }
    Ok(())
}

/// Compares the extents of two findings.
fn check_extents(
    rt: &impl Abort,
    found: &AllFindings<'_, MemDisk>,
    wanted: &AllFindings<'_, MemDisk>,
) {
    assert!(rt; found.len() == wanted.len());
    for i in 0..found.len() {
        assert!(rt;
            found.extent_at(i) == wanted.extent_at(i),
            "the extents rise"
        );
    }
}

#[test]
fn a_book_of_65535_extents_is_filled_from_the_last(rt: HostRuntime) -> Result<(), Fail> {
    let disk = MemDisk::blank(rt.alloc(), Geometry::new(64, 1, 65_536)?)?;
    let plan = plan_of(rt.alloc(), &disk)?;
    let mut book = Book::new(rt.alloc(), &disk, &plan)?;
    fill_from_last(rt.alloc(), &disk, &plan, &mut book)?;
    let all = book.finish().ok().ok_or("the findings of all extents")?;
    assert!(&rt; all.len() == 65_535);
    check_extents(&rt, &all, &scan_in_order(rt.alloc(), &disk, &plan)?);
    Ok(())
}
