//! How often a scan asks for pages, on worked disks: whole, and with each page unreadable in turn.

use crate::extents::{Written, disk_with, greatest_length, two_large_pages};
use crate::page_reads::{check_asked, heads, sealed_heads};
use scrub_disk::{MemDisk, PageSource};
use scrub_fakes::worked::{Worked, collision, four_extents, many_shards, nine_locators};
use scrub_fakes::{ONES, mark_bad, put_superblock};
use std::alloc::Global;
use std::process::Abort;
use std::test::Fail;

/// Disks on which page reads are counted. For what is on a disk see the function that makes it.
#[derive(Clone, Copy)]
enum Counted {
    Worked(Worked),
    /// Frames of extent 1, and its write pointer.
    Frames(&'static [Written<'static>], u32),
    GreatestLength,
    TwoLargePages,
    FourExtents,
    NineLocators,
    Collision,
    Heads,
    SealedHeads,
}

impl Counted {
    /// Makes the disk.
    fn disk(self, alloc: Global) -> Result<MemDisk, Fail> {
        match self {
            Counted::Worked(worked) => Ok(worked.disk(alloc)?),
            Counted::Frames(frames, pointer) => frames_below(alloc, frames, pointer),
            Counted::GreatestLength => greatest_length(alloc),
            Counted::TwoLargePages => two_large_pages(alloc),
            Counted::FourExtents => Ok(four_extents(alloc)?),
            Counted::NineLocators => Ok(nine_locators(alloc)?.0),
            Counted::Collision => Ok(collision(alloc)?),
            Counted::Heads => heads(alloc),
            Counted::SealedHeads => sealed_heads(alloc),
        }
    }
}

/// A disk of three extents. Extent 1 has these frames and this write pointer, and extent 2 has nothing.
fn frames_below(alloc: Global, frames: &[Written], pointer: u32) -> Result<MemDisk, Fail> {
    let mut disk = disk_with(alloc, frames, &[])?;
    put_superblock(alloc, &mut disk, &[pointer, 0], &[])?;
    Ok(disk)
}

/// The frame of `abc` at the start of an extent.
const ABC: [Written<'static>; 1] = [(0, ONES, b"abc")];

const COUNTED: [Counted; 27] = [
    Counted::Worked(Worked::OneShard),
    Counted::Worked(Worked::Zeros),
    Counted::Worked(Worked::PastThePointer),
    Counted::Worked(Worked::TornFrame),
    Counted::Worked(Worked::OverwrittenEnd),
    // Two frames end to end.
    Counted::Frames(&[(0, ONES, &[0x78; 12]), (50, ONES, b"abc")], 91),
    // A frame that ends at the pointer, or is cut off by it.
    Counted::Frames(&ABC, 41),
    Counted::Frames(&ABC, 40),
    Counted::Frames(&ABC, 1),
    // A frame without payload.
    Counted::Frames(&[(0, ONES, b"")], 38),
    Counted::GreatestLength,
    Counted::TwoLargePages,
    Counted::Worked(Worked::DeletedInTheNewestRun),
    Counted::Worked(Worked::BrokenNewestRun),
    Counted::Worked(Worked::TwoSuperblocks(7)),
    Counted::Worked(Worked::TwoSuperblocks(8)),
    Counted::Worked(Worked::BrokenSuperblock),
    Counted::NineLocators,
    Counted::Collision,
    Counted::Worked(Worked::TwinsAndShared),
    Counted::Worked(Worked::HalfGarbage),
    Counted::Worked(Worked::RunNamedTwice),
    Counted::FourExtents,
    Counted::Worked(Worked::Without(2, &[2, 3])),
    Counted::Worked(Worked::Without(0, &[0, 1, 2, 3])),
    Counted::Heads,
    Counted::SealedHeads,
];

/// Checks the counts of a disk, and of each disk like it with one more page unreadable.
fn check_each(rt: &impl Abort, alloc: Global, counted: Counted) -> Result<(), Fail> {
    let disk = counted.disk(alloc)?;
    check_asked(rt, alloc, &disk)?;
    let geometry = disk.geometry();
    for extent in 0..geometry.extents() {
        for page in 0..geometry.pages() {
            let mut marked = counted.disk(alloc)?;
            mark_bad(&mut marked, extent, page)?;
            check_asked(rt, alloc, &marked)?;
        }
    }
    Ok(())
}

#[test]
fn pages_are_asked_for_as_often_as_a_scan_reports(rt: HostRuntime) -> Result<(), Fail> {
    for counted in &COUNTED {
        check_each(&rt, rt.alloc(), *counted)?;
    }
    Ok(())
}

/// The disk of 40 extents, with page `page` of each extent from `first` on unreadable.
fn many_without(alloc: Global, first: u32, page: u32) -> Result<MemDisk, Fail> {
    let (mut disk, _) = many_shards(alloc)?;
    for extent in first..40 {
        mark_bad(&mut disk, extent, page)?;
    }
    Ok(disk)
}

/// What a scan asks of an extent depends only on its own pages and pointer, so one disk can have an
/// unreadable page in every extent.
#[test]
fn pages_of_forty_extents_are_asked_for_as_often_as_a_scan_reports(
    rt: HostRuntime,
) -> Result<(), Fail> {
    let alloc = rt.alloc();
    check_asked(&rt, alloc, &many_shards(alloc)?.0)?;
    for page in 0..64 {
        check_asked(&rt, alloc, &many_without(alloc, 0, page)?)?;
        check_asked(&rt, alloc, &many_without(alloc, 1, page)?)?;
    }
    Ok(())
}
