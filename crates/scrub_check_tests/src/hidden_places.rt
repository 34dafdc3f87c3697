//! How often the checks ask for the pages of a frame at which no item begins.

use crate::compare::same;
use scrub_check::{Named, Owner, Status, check_all, check_named, named_locators, read_all_runs};
use scrub_disk::{Geometry, MemDisk};
use scrub_fakes::{
    CountingSource, ONES, SHARD, TWOS, plan_of, put, put_chunk, put_sealed, put_superblock, run_of,
};
use scrub_frame::Locator;
use scrub_merge::merge;
use scrub_scan::scan_in_order;
use std::alloc::Global;
use std::test::Fail;
use std::thread::Threads;
use uuid::Uuid;

/// The byte of extent 1 at which the hidden frames here begin. No item begins there, since it isn't a page
/// boundary and no frame ends there.
const HIDDEN: u32 = 10;

/// A blank disk of two extents, each of 64 pages of 64 bytes.
fn blank(alloc: Global) -> Result<MemDisk, Fail> {
    Ok(MemDisk::blank(alloc, Geometry::new(64, 64, 2)?)?)
}

/// The statuses of `count` copies of one locator to extent 1, and how often checking them asks for a page of
/// that extent.
fn checked_alike<R: Threads + Sync>(
    rt: &R,
    alloc: Global,
    disk: &MemDisk,
    locator: &Locator,
    count: usize,
) -> Result<(Vec<Status>, u64), Fail> {
    let source = CountingSource::new(alloc, disk)?;
    let plan = plan_of(alloc, disk)?;
    let all = scan_in_order(alloc, &source, &plan)?;
    let owner = Owner::Shard(SHARD);
    let one = Named {
        owner,
        locator: *locator,
    };
    let named = vec![in alloc; one; count]?;
    let before = source.reads_of(1);
    let checked = check_all(rt, alloc, &source, &plan, &all, &named)?;
    let statuses = checked.iter().map(|one| one.status).collect(alloc)?;
    Ok((statuses, source.reads_of(1).saturating_sub(before)))
}

/// Checks that a locator has this status, and that a thousand copies of it have it too and ask for no more
/// pages. Returns how many pages one locator asks for.
fn check_alike<R: Threads + Sync + std::process::Abort>(
    rt: &R,
    alloc: Global,
    disk: &MemDisk,
    locator: &Locator,
    status: Status,
) -> Result<u64, Fail> {
    let (one, asked) = checked_alike(rt, alloc, disk, locator, 1)?;
    let (thousand, asked_by_thousand) = checked_alike(rt, alloc, disk, locator, 1_000)?;
    same(rt, one.as_slice(), [status].as_slice());
    assert!(rt; thousand.len() == 1_000);
    assert!(rt; thousand.iter().all(|one| *one == status));
    same(rt, asked_by_thousand, asked);
    Ok(asked)
}

#[test]
fn a_thousand_locators_to_a_hidden_place_ask_for_no_more_pages_than_one(
    rt: HostRuntime,
) -> Result<(), Fail> {
    let mut disk = blank(rt.alloc())?;
    let locator = put_chunk(rt.alloc(), &mut disk, 1, HIDDEN, ONES, &[7; 2_000])?;
    let asked = check_alike(&rt, rt.alloc(), &disk, &locator, Status::Hidden)?;
    // Its 2,038 bytes lie on 32 pages.
    assert!(rt; asked >= 32 && asked <= 40);
    Ok(())
}

#[test]
fn a_wrong_uuid_or_length_at_a_hidden_place_is_found_without_its_payload(
    rt: HostRuntime,
) -> Result<(), Fail> {
    let mut disk = blank(rt.alloc())?;
    let locator = put_chunk(rt.alloc(), &mut disk, 1, HIDDEN, ONES, &[7; 2_000])?;
    let other = Locator {
        uuid: Uuid::from_bytes(TWOS),
        ..locator
    };
    let shorter = Locator {
        length: 1_999,
        ..locator
    };
    let asked = check_alike(&rt, rt.alloc(), &disk, &other, Status::WrongUuid)?;
    assert!(rt; asked <= 4);
    let asked = check_alike(&rt, rt.alloc(), &disk, &shorter, Status::WrongLength)?;
    assert!(rt; asked <= 4);
    Ok(())
}

#[test]
fn a_wrong_uuid_at_a_hidden_sealed_frame_is_found_with_its_payload(
    rt: HostRuntime,
) -> Result<(), Fail> {
    let mut disk = blank(rt.alloc())?;
    let locator = put_sealed(rt.alloc(), &mut disk, 1, HIDDEN, ONES, &[7; 2_000])?;
    let other = Locator {
        uuid: Uuid::from_bytes(TWOS),
        ..locator
    };
    let asked = check_alike(&rt, rt.alloc(), &disk, &other, Status::WrongUuid)?;
    assert!(rt; asked >= 33);
    // With one byte of the payload changed, there is no frame.
    put(&mut disk, 1, HIDDEN + 100, &[8])?;
    check_alike(&rt, rt.alloc(), &disk, &other, Status::NoFrame)?;
    Ok(())
}

#[test]
fn the_pages_of_a_hidden_run_are_not_read_again_for_its_status(
    rt: HostRuntime,
) -> Result<(), Fail> {
    let mut disk = blank(rt.alloc())?;
    let run = run_of(rt.alloc(), SHARD, &[])?;
    let locator = put_chunk(rt.alloc(), &mut disk, 1, HIDDEN, ONES, &run)?;
    put_superblock(rt.alloc(), &mut disk, &[4_096], &[locator])?;
    let source = CountingSource::new(rt.alloc(), &disk)?;
    let plan = plan_of(rt.alloc(), &disk)?;
    let all = scan_in_order(rt.alloc(), &source, &plan)?;
    let (read, statuses) = read_all_runs(&rt, rt.alloc(), &source, &plan, &all)?;
    let map = merge(rt.alloc(), read.runs())?;
    let named = named_locators(rt.alloc(), &plan, &map)?;
    let before = source.reads_of(1);
    let checked = check_named(&rt, rt.alloc(), &source, &plan, &all, &statuses, &map)?;
    assert!(rt; checked.len() == 1 && checked[0].status == Status::Hidden);
    same(&rt, source.reads_of(1), before);
    let again = check_all(&rt, rt.alloc(), &source, &plan, &all, &named)?;
    same(&rt, again.as_slice(), checked.as_slice());
    assert!(rt; source.reads_of(1) > before);
    Ok(())
}
