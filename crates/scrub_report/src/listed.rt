//! What the report lists of a disk, by what was drawn from the named locators. `report` writes it.

ghost use Rattle.std.specs.Prelude.{◌≡◌, IfOk};
ghost use Rattle.scrub_report.specs.steps.Lists.{AreListsOf, is_clean_listed};

use crate::shards::Shards;
use scrub_check::{Checked, Liveness, LocatorIndex, Place};
use scrub_disk::{OutOfMemory, PageSource};
use scrub_found::judging::liveness_and_twins_by;
use scrub_found::{RunRow, Scan, is_clean};
use std::alloc::Global;
use std::thread::Threads;

/// What the report is made of, without the shard map and the broken shards, of which the index is made
/// meanwhile.
#[derive(Drop)]
pub(crate) struct JudgedWithoutMap<'d, D: PageSource> {
    /// What was scanned.
    pub scan: Scan<'d, D>,
    /// Whether a newer superblock or a newer binding may have been lost.
    pub in_doubt: bool,
    /// The index runs of the plan, in its order.
    pub runs: Vec<RunRow>,
    /// What the named locators say of places and extents.
    pub locators: LocatorIndex,
    /// The dangling locators, in their order.
    pub dangling: Vec<Checked>,
    /// The hidden locators, in their order.
    pub hidden: Vec<Checked>,
}

/// What the report lists of a disk, but for the broken shards. Neither the shard map is here nor what the
/// named locators say: only what follows from them.
#[derive(Drop)]
pub(crate) struct Listed<'d, D: PageSource> {
    /// What was scanned.
    pub scan: Scan<'d, D>,
    /// The index runs of the plan, in its order.
    pub runs: Vec<RunRow>,
    /// What is said of the shard map.
    pub shards: Shards,
    /// The dangling locators, in their order.
    pub dangling: Vec<Checked>,
    /// The hidden locators, in their order.
    pub hidden: Vec<Checked>,
    /// What follows from which chunks are live.
    pub liveness: Liveness,
    /// The chunks whose UUID another chunk has too.
    pub twins: Vec<Place>,
}

/// What the report lists.
pub(crate) fn listed_of<'d, R: Threads + Sync, D: PageSource>(
    rt: &R,
    alloc: Global,
    rest: JudgedWithoutMap<'d, D>,
    shards: Shards,
) -> Result<Listed<'d, D>, OutOfMemory>
    ensures { IfOk result (AreListsOf rest.entry shards) }
{
    let JudgedWithoutMap {
        scan,
        in_doubt,
        runs,
        locators,
        dangling,
        hidden,
    } = rest;
    let (liveness, twins) = liveness_and_twins_by(rt, alloc, &scan, &locators, in_doubt)?;
    Ok(Listed {
        scan,
        runs,
        shards,
        dangling,
        hidden,
        liveness,
        twins,
    })
}

/// Whether the disk is clean.
pub(crate) fn is_clean_listed<D: PageSource>(listed: &Listed<'_, D>) -> bool
    ensures { result ≡ is_clean_listed listed.now }
{
    let are_sound = listed.dangling.is_empty() && listed.hidden.is_empty();
    is_clean(
        &listed.scan,
        &listed.runs,
        are_sound,
        &listed.liveness.shared,
    )
}
