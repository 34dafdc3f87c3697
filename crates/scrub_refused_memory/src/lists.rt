//! The lists that follow from the statuses of locators, on the disk of nine locators and on that of twins and
//! a shared place.

use crate::calls::Trial;
use crate::disks::{names_with_status, twins_and_shared};
use crate::ending::{Stop, Wanted, right};
use scrub_check::{
    Candidate, KeptChunk, Place, SharedPlace, broken_shards, candidates, dangling, hidden, orphans,
    shared, twins,
};
use scrub_fakes::worked::nine_locators;
use scrub_fakes::{ONES, SHARD, plan_of};
use scrub_scan::scan_in_order;
use std::alloc::Global;
use std::io::Write;
use uuid::Uuid;

/// A list that the statuses of nine locators give.
#[derive(Clone, Copy)]
enum OfNine {
    /// The seven that dangle.
    Dangling,
    /// The one that is hidden.
    Hidden,
    /// Their shard, which is broken.
    BrokenShards,
}

/// This list of the nine locators, which come after that of their run.
fn list_of_nine(alloc: Global, wanted: Wanted, list: OfNine) -> Result<(), Stop> {
    let (_, run) = nine_locators(alloc)?;
    let checked = names_with_status(alloc, run)?;
    wanted.made()?;
    match list {
        OfNine::Dangling => {
            let found = dangling(alloc, &checked)?;
            right(checked.get(1..8) == Some(found.as_slice()))
        }
        OfNine::Hidden => {
            let found = hidden(alloc, &checked)?;
            right(checked.get(8..9) == Some(found.as_slice()))
        }
        OfNine::BrokenShards => {
            let found = broken_shards(alloc, &checked)?;
            right(found.as_slice() == [SHARD].as_slice())
        }
    }
}

/// A list that the disk of twins and a shared place gives.
#[derive(Clone, Copy)]
enum OfTwins {
    /// The chunk that no locator names.
    Orphans,
    /// The two chunks of one UUID.
    Twins,
    /// The place that two locators name.
    Shared,
    /// The extent that is half live.
    Candidates,
}

/// The shared place of that disk.
const SHARED: SharedPlace = SharedPlace {
    extent: 1,
    offset: 41,
    count: 2,
};

/// The chunk that two locators name.
const KEPT: KeptChunk = KeptChunk {
    start: 41,
    bytes: 41,
};

/// The place of an `abc` in extent 1.
fn abc_place(offset: u32) -> Place {
    Place {
        extent: 1,
        offset,
        length: 3,
        uuid: Uuid::from_bytes(ONES),
    }
}

/// Whether the extent that is half live is the one candidate.
fn is_half_live(candidates: &[Candidate]) -> bool {
    match candidates {
        [one] => {
            one.extent() == 1
                && one.free() == 41
                && one.keep() == [KEPT.start].as_slice()
                && one.chunks() == [KEPT].as_slice()
        }
        _ => false,
    }
}

/// This list of the disk of twins and a shared place.
fn list_of_twins(alloc: Global, wanted: Wanted, list: OfTwins) -> Result<(), Stop> {
    let (disk, checked) = twins_and_shared(alloc)?;
    let plan = plan_of(alloc, &disk)?;
    let all = scan_in_order(alloc, &disk, &plan)?;
    wanted.made()?;
    match list {
        OfTwins::Orphans => {
            let found = orphans(alloc, &all, &checked)?;
            right(found.as_slice() == [abc_place(0)].as_slice())
        }
        OfTwins::Twins => {
            let found = twins(alloc, &all)?;
            right(found.as_slice() == [abc_place(0), abc_place(41)].as_slice())
        }
        OfTwins::Shared => {
            let found = shared(alloc, &checked)?;
            right(found.as_slice() == [SHARED].as_slice())
        }
        OfTwins::Candidates => {
            let found = candidates(alloc, &plan, &all, &checked, false)?;
            right(is_half_live(&found))
        }
    }
}

/// The calls of this module.
pub fn calls<O: Write>(alloc: Global, trial: &mut Trial<'_, O>) {
    for (name, list) in [
        ("dangling", OfNine::Dangling),
        ("hidden", OfNine::Hidden),
        ("broken_shards", OfNine::BrokenShards),
    ] {
        made!(trial, name, "", wanted => list_of_nine(alloc, wanted, list));
    }
    for (name, list) in [
        ("orphans", OfTwins::Orphans),
        ("twins", OfTwins::Twins),
        ("shared", OfTwins::Shared),
        ("candidates", OfTwins::Candidates),
    ] {
        made!(trial, name, "", wanted => list_of_twins(alloc, wanted, list));
    }
}
