//! What a book answers to results that are added in one order or another.

ghost use Rattle.std.specs.Prelude.{◌≡◌, OnOk, IfOk};
ghost use Rattle.scrub_disk.specs.Memory.{image_of};

use scrub_book::{AddRefused, Book};
use scrub_disk::{Geometry, MemDisk};
use scrub_fakes::plan_of;
use scrub_scan::{AllFindings, scan_extent, scan_in_order};
use scrub_super::Plan;
use std::alloc::Global;
use std::process::Abort;
use std::test::Fail;

/// The answer to an added result. A refusal has the extent of the result that came back.
#[derive(PartialEq, Drop)]
enum Outcome {
    Added,
    Stranger(u32),
    Double(u32),
}

/// The outcome of a book's answer.
fn outcome_of(answer: Result<(), AddRefused<'_, MemDisk>>) -> Outcome {
    match answer {
        Ok(()) => Outcome::Added,
        Err(AddRefused::Stranger(back)) => Outcome::Stranger(back.extent()),
        Err(AddRefused::Double(back)) => Outcome::Double(back.extent()),
    }
}

/// Scans a planned extent, adds its result, and checks the answer.
fn check_added<'d>(
    rt: &impl Abort,
    alloc: Global,
    disk: &'d MemDisk,
    plan: &Plan,
    book: &mut Book<'d, MemDisk>,
    extent: u32,
    wanted: &Outcome,
) -> Result<(), Fail>
    requires geometry { plan.now.geometry ≡ (image_of disk.now).geometry }
    requires image { image_of book.old.source ≡ image_of disk.now }
    requires pointers { book.old.plan.pointers ≡ plan.now.pointers }
    ensures image { OnOk result (image_of book.new.source ≡ image_of book.old.source) }
    ensures pointers { OnOk result (book.new.plan.pointers ≡ book.old.plan.pointers) }
{
    assert!(rt; plan.planned().contains(&extent));
    let found = scan_extent(alloc, disk, plan, extent)?;
    let outcome = outcome_of(book.add(found));
    assert!(rt; outcome == *wanted, "what comes of adding a result");
    Ok(())
}

/// Adds the results of extents 3, 3 and 2 to a book of extents 1 and 3.
fn check_refusals<'d>(
    rt: &impl Abort,
    alloc: Global,
    disk: &'d MemDisk,
    whole: &Plan,
    plan: &Plan,
    book: &mut Book<'d, MemDisk>,
) -> Result<(), Fail>
    requires whole { whole.now.geometry ≡ (image_of disk.now).geometry }
    requires geometry { plan.now.geometry ≡ (image_of disk.now).geometry }
    requires image { image_of book.old.source ≡ image_of disk.now }
    requires pointers { book.old.plan.pointers ≡ plan.now.pointers }
    requires same { whole.now.pointers ≡ plan.now.pointers }
    ensures image { OnOk result (image_of book.new.source ≡ image_of book.old.source) }
    ensures pointers { OnOk result (book.new.plan.pointers ≡ book.old.plan.pointers) }
{
    check_added(rt, alloc, disk, plan, book, 3, &Outcome::Added)?;
    check_added(rt, alloc, disk, plan, book, 3, &Outcome::Double(3))?;
    check_added(rt, alloc, disk, whole, book, 2, &Outcome::Stranger(2))
}

/// Checks that findings are those of extents 1 and 3.
fn check_extents(rt: &impl Abort, all: &AllFindings<'_, MemDisk>) {
    assert!(rt; all.len() == 2);
    assert!(rt; all.extent_at(0) == 1 && all.extent_at(1) == 3);
}

/// Asks a book of extents 1 and 3 for its findings while extent 1 is missing, and returns the book that comes
/// back.
fn came_back<'d>(rt: &impl Abort, book: Book<'d, MemDisk>) -> Result<Book<'d, MemDisk>, Fail>
    ensures { IfOk result (λ back. back ≡ book.entry) }
{
    assert!(rt; book.missing() == Some(1));
    let back = book.finish().err().ok_or("extent 1 is missing")?;
    assert!(rt; back.missing() == Some(1));
    Ok(back)
}

/// Checks a book of extents 1 and 3, and that one reader finds these extents too.
fn check_1_and_3(
    rt: &impl Abort,
    alloc: Global,
    disk: &MemDisk,
    whole: &Plan,
    plan: &Plan,
) -> Result<(), Fail>
    requires whole { whole.now.geometry ≡ (image_of disk.now).geometry }
    requires geometry { plan.now.geometry ≡ (image_of disk.now).geometry }
    requires same { whole.now.pointers ≡ plan.now.pointers }
{
    let mut book = Book::new(alloc, disk, plan)?;
    check_refusals(rt, alloc, disk, whole, plan, &mut book)?;
    let mut book = came_back(rt, book)?;
    check_added(rt, alloc, disk, plan, &mut book, 1, &Outcome::Added)?;
    assert!(rt; book.missing().is_none());
    let all = book.finish().ok().ok_or("the findings of both extents")?;
    check_extents(rt, &all);
    check_extents(rt, &scan_in_order(alloc, disk, plan)?);
    Ok(())
}

#[test]
fn a_book_takes_the_results_of_its_extents_1_and_3(rt: HostRuntime) -> Result<(), Fail> {
    let disk = MemDisk::blank(rt.alloc(), Geometry::new(64, 4, 4)?)?;
    let whole = plan_of(rt.alloc(), &disk)?;
    let plan = whole.restrict(rt.alloc(), &[1, 3])?;
    check_1_and_3(&rt, rt.alloc(), &disk, &whole, &plan)
}
