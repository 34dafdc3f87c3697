//! The listings that scan a disk (its named locators, what may be reclaimed, what it holds, and its summary),
//! by any number of workers: who took what, what the gate saw, and how often pages are asked for. Their lines
//! are those of the program.

ghost use Rattle.std.specs.Prelude.{◌≤◌};

use crate::support::compare::same;
use crate::workers::reading_watch::ReadingWatch;
use crate::workers::watch::Watch;
use scrub_disk::{MemDisk, PageSource};
use scrub_fakes::worked::many_shards;
use scrub_fakes::{CountingSource, plan_of, put_chunk, put_superblock};
use scrub_found::ScrubFault;
use scrub_listings::{list_locators, list_manifest, list_summary};
use scrub_pool::{Gate, NoGate, Takings};
use scrub_reclaim::{Acceptance, list_reclaimable};
use std::alloc::Global;
use std::process::Abort;
use std::slice;
use std::sync::Wait;
use std::test::Fail;
use std::thread::Threads;
use std::time::Clock;

/// Which listing is made.
#[derive(Debug, Clone, Copy, PartialEq, Eq)]
enum Which {
    /// The named locators.
    Locators,
    /// What may be reclaimed, with no doubt accepted.
    Reclaimable,
    /// What the disk holds.
    Manifest,
    /// The disk summed up.
    Summary,
}

/// All listings.
const ALL: [Which; 4] = [
    Which::Locators,
    Which::Reclaimable,
    Which::Manifest,
    Which::Summary,
];

/// No doubt.
const NONE: &[&str] = &[];

/// A listing, and which worker took which extents for it.
#[derive(Drop)]
struct Listing {
    /// Its lines.
    text: Vec<u8>,
    /// Whether the program ends with status 0 after printing them.
    is_good: bool,
    takings: Takings,
}

/// A listing of a disk, by `workers` workers and the caller.
fn answer<D: PageSource, G: Gate, R: Threads + Wait + Sync>(
    rt: &R,
    alloc: Global,
    disk: &D,
    workers: u32,
    gate: &G,
    which: Which,
) -> Result<Listing, ScrubFault>
    requires { workers ≤ 64 }
{
    let (listing, takings) = match which {
        Which::Locators => list_locators(rt, alloc, disk, workers, gate)?,
        Which::Reclaimable => {
            let acceptance = Acceptance::new(NONE, None);
            list_reclaimable(rt, alloc, disk, workers, gate, &acceptance)?
        }
        Which::Manifest => {
            let (manifest, takings) = list_manifest(rt, alloc, disk, workers, gate, None, &[])?;
            let listing = scrub_listings::Listing {
                text: manifest.text,
                is_clean: manifest.is_clean,
            };
            (listing, takings)
        }
        Which::Summary => list_summary(rt, alloc, disk, workers, gate, None)?,
    };
    Ok(Listing {
        text: listing.text,
        is_good: listing.is_clean,
        takings,
    })
}

/// A listing of a disk, by `workers` workers and the caller. Out of memory fails the test.
fn listing_of<D: PageSource, G: Gate, R: Threads + Wait + Sync>(
    rt: &R,
    alloc: Global,
    disk: &D,
    workers: u32,
    gate: &G,
    which: Which,
) -> Result<Listing, Fail>
    requires { workers ≤ 64 }
{
    match answer(rt, alloc, disk, workers, gate, which) {
        Ok(listing) => Ok(listing),
        Err(ScrubFault::OutOfMemory) => Err(Fail::from("out of memory")),
    }
}

/// The disk of many shards, with a second chunk in each of extents 1 to 38 that nobody names.
fn halved(rt: &impl Abort, alloc: Global) -> Result<MemDisk, Fail> {
    let (mut disk, payload) = many_shards(alloc)?;
    let mut pointers = Vec::new(alloc);
    for byte in 1..39 {
        put_chunk(alloc, &mut disk, u32::from(byte), 41, [byte; 16], b"abc")?;
        pointers.push(82)?;
    }
    let run = put_chunk(alloc, &mut disk, 39, 0, [0xF0; 16], &payload)?;
    pointers.push(3_004)?;
    put_superblock(alloc, &mut disk, &pointers, slice::from_ref(&run))?;
    Ok(disk)
}

/// Lists that disk with `workers` workers and the caller. Each is held at its first extent until `held` of
/// them have passed with one. Compares the lines with those by the caller alone, and who took what with what
/// the gate saw.
fn check_listing<R: Threads + Wait + Abort + Clock + Sync>(
    rt: &R,
    alloc: Global,
    disk: &MemDisk,
    which: Which,
    workers: u32,
    held: usize,
) -> Result<(), Fail>
    requires { workers ≤ 64 }
{
    let plan = plan_of(alloc, disk)?;
    let watch = Watch::new(rt, alloc, workers + 1, disk.geometry().extents(), held)?;
    let found = listing_of(rt, alloc, disk, workers, &watch, which)?;
    watch.check(rt, &found.takings, plan.planned());
    let wanted = listing_of(rt, alloc, disk, 0, &NoGate, which)?;
    same(rt, found.text.as_slice(), wanted.text.as_slice());
    same(rt, found.is_good, true);
    Ok(())
}

#[test]
fn any_number_of_workers_lists_the_same_lines(rt: HostRuntime) -> Result<(), Fail> {
    let disk = halved(&rt, rt.alloc())?;
    for which in ALL {
        for workers in [0, 1, 3, 7] {
            let all = workers as usize + 1;
            check_listing(&rt, rt.alloc(), &disk, which, workers, all)?;
        }
        check_listing(&rt, rt.alloc(), &disk, which, 2, 0)?;
        check_listing(&rt, rt.alloc(), &disk, which, 64, 39)?;
    }
    Ok(())
}

/// Checks how often pages of that disk were asked for: once each, except those with bytes of the run in
/// extent 39. The first of these was asked for three times, the last one four times, and the 45 between them
/// twice.
fn check_asked(rt: &impl Abort, source: &CountingSource<'_>) {
    assert!(rt; source.geometry().extents() == 40);
    for extent in 0..39 {
        same(rt, source.reads_of(extent), 64);
    }
    same(rt, source.reads_of(39), 114);
}

/// Lists that disk with `workers` workers and the caller. Checks that the gate saw each extent before it was
/// read and each total after, and that each page was asked for as often as it has to be.
fn check_reading<R: Threads + Wait + Abort + Clock + Sync>(
    rt: &R,
    alloc: Global,
    disk: &MemDisk,
    which: Which,
    workers: u32,
) -> Result<(), Fail>
    requires { workers ≤ 64 }
{
    let plan = plan_of(alloc, disk)?;
    let source = CountingSource::new(alloc, disk)?;
    let watch = ReadingWatch::new(rt, alloc, &source, workers + 1)?;
    let found = listing_of(rt, alloc, &source, workers, &watch, which)?;
    watch.check(rt, &found.takings, plan.planned());
    check_asked(rt, &source);
    Ok(())
}

#[test]
fn a_listing_asks_for_each_page_once_except_those_of_the_run(rt: HostRuntime) -> Result<(), Fail> {
    let disk = halved(&rt, rt.alloc())?;
    for which in ALL {
        for workers in [0, 3] {
            check_reading(&rt, rt.alloc(), &disk, which, workers)?;
        }
    }
    Ok(())
}
