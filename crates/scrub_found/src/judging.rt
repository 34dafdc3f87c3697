//! Finds what is on a whole disk, up to the status of each named locator, and what follows from the statuses.

ghost use Rattle.std.specs.Prelude.{◌≡◌, ℕ, IfOk, List, Option, is_none};
ghost use Rattle.std.specs.List.{list_all, list_any};
ghost use Rattle.scrub_disk.specs.Image.{Image};
ghost use Rattle.scrub_frame.specs.declared.locator.Locator.{Locator};
ghost use Rattle.scrub_merge.specs.ShardMap.{IsShardMap};
ghost use Rattle.scrub_check.specs.Checked.{is_sound};
ghost use Rattle.scrub_check.specs.declared.statuses.checked.Checked.{Checked};
ghost use Rattle.scrub_check.specs.Chunks.{twins};
ghost use Rattle.scrub_check.specs.WholeScan.{IsWholeScan};
ghost use Rattle.scrub_check.specs.steps.LocatorIndex.{IsLocatorIndex};
ghost use Rattle.scrub_found.specs.Judged.{AreJudgedFrom, IsDrawnFrom, IsLivenessBy, IsLivenessOf};
ghost use Rattle.scrub_found.specs.Judged.{IsScan, IsScanFrom};
ghost use Rattle.scrub_found.specs.Resets.{IsScrubbedBut};
ghost use Rattle.scrub_found.specs.Scrubbed.{Scrubbed, is_in_doubt};

use crate::runs::{RunRow, run_rows};
use crate::scanning::Scan;
use scrub_check::{
    Checked, FromLocators, Liveness, LocatorIndex, Place, ReadRuns, check_named, draw_named,
    liveness_by, read_all_runs, twins_by_threads,
};
use scrub_disk::{OutOfMemory, PageSource};
use scrub_merge::{ShardMap, merge_by_threads};
use scrub_super::Chosen;
use std::alloc::Global;
use std::thread::{Threads, join_mut};

/// What was found on a disk, up to the status of each named locator. What follows from the statuses is made
/// when it is asked for.
#[derive(Drop)]
pub struct Judged<'d, D: PageSource> {
    /// What was scanned.
    pub scan: Scan<'d, D>,
    /// Whether a newer superblock or a newer binding may have been lost.
    pub in_doubt: bool,
    /// The index runs of the plan, in its order.
    pub runs: Vec<RunRow>,
    /// The shard map of the runs that were read.
    pub map: ShardMap,
    /// The named locators, each with its status.
    pub checked: Vec<Checked>,
}

/// Whether an index run is lost.
fn has_lost_run(read: &ReadRuns) -> bool
    ensures { result ≡ list_any is_none read.now.runs }
{
    read.runs().iter().any(|run| run.is_none())
}

/// Whether a newer superblock or a newer binding may have been lost.
fn is_in_doubt(chosen: &Chosen, read: &ReadRuns) -> bool
    ensures { result ≡ is_in_doubt chosen.now read.now }
{
    chosen.tie() || !chosen.bad_pages().is_empty() || has_lost_run(read)
}

/// The shard map of index runs, which are freed.
fn merged<R: Threads + Sync>(rt: &R, alloc: Global, read: ReadRuns) -> Result<ShardMap, OutOfMemory>
    ensures { IfOk result (IsShardMap read.runs) }
{
    let (runs, _) = read.into_parts();
    merge_by_threads(rt, alloc, &runs)
}

/// What is found on a scanned disk, up to the status of each named locator. Once the runs are merged their
/// entries are in the map, so only what is reported of the runs is kept.
pub fn judged_of<'d, R: Threads + Sync, D: PageSource>(
    rt: &R,
    alloc: Global,
    scan: Scan<'d, D>,
) -> Result<Judged<'d, D>, OutOfMemory>
    requires { IsWholeScan (D.image scan.disk.now) scan.plan scan.all.extents }
    ensures judged { (given : Option (List Locator)) (resets : List ℕ) →
        IsScanFrom given resets (D.image scan.entry.disk.now) scan.entry →
        IfOk result (AreJudgedFrom given resets (D.image scan.entry.disk.now)) }
    ensures scan { IfOk result (λ j. j.scan ≡ scan.entry) }
{
    let (read, statuses) = read_all_runs(rt, alloc, scan.disk, &scan.plan, &scan.all)?;
    let in_doubt = is_in_doubt(&scan.chosen, &read);
    let runs = run_rows(alloc, scan.plan.runs(), &read)?;
    let map = merged(rt, alloc, read)?;
    let checked = check_named(rt, alloc, scan.disk, &scan.plan, &scan.all, &statuses, &map)?;
    Ok(Judged {
        scan,
        in_doubt,
        runs,
        map,
        checked,
    })
}

/// What was found on a disk, with what is drawn from the named locators in place of a list of them.
#[derive(Drop)]
pub struct DrawnScan<'d, D: PageSource> {
    /// What was scanned.
    pub scan: Scan<'d, D>,
    /// Whether a newer superblock or a newer binding may have been lost.
    pub in_doubt: bool,
    /// The index runs of the plan, in its order.
    pub runs: Vec<RunRow>,
    /// The shard map of the runs that were read.
    pub map: ShardMap,
    /// What is drawn from the named locators.
    pub drawn: FromLocators,
}

/// What is found on a scanned disk, as `judged_of` finds it, up to what a report needs of the named locators:
/// no list of all of them is made.
pub fn drawn_scan<'d, R: Threads + Sync, D: PageSource>(
    rt: &R,
    alloc: Global,
    scan: Scan<'d, D>,
) -> Result<DrawnScan<'d, D>, OutOfMemory>
    requires { IsScan (D.image scan.disk.now) scan }
    ensures { IfOk result (λ found. (checked : List Checked) ×
        IsDrawnFrom (D.image scan.entry.disk.now) checked found) }
{
    let (read, statuses) = read_all_runs(rt, alloc, scan.disk, &scan.plan, &scan.all)?;
    let in_doubt = is_in_doubt(&scan.chosen, &read);
    let runs = run_rows(alloc, scan.plan.runs(), &read)?;
    let map = merged(rt, alloc, read)?;
    let drawn = draw_named(rt, alloc, scan.disk, &scan.plan, &scan.all, &statuses, &map)?;
    Ok(DrawnScan {
        scan,
        in_doubt,
        runs,
        map,
        drawn,
    })
}

/// What follows from which chunks are live, by what the named locators say.
fn liveness_with<D: PageSource>(
    alloc: Global,
    scan: &Scan<'_, D>,
    locators: &LocatorIndex,
    in_doubt: bool,
) -> Result<Liveness, OutOfMemory>
    ensures { (checked : List Checked) → IsLocatorIndex checked locators.now →
        IfOk result (IsLivenessBy scan.now.plan scan.now.all.extents checked in_doubt) }
{
    liveness_by(alloc, &scan.plan, &scan.all, locators, in_doubt)
}

/// What follows from which chunks are live, and the twins among the chunks, found at the same time on two
/// threads.
pub fn liveness_and_twins_by<R: Threads + Sync, D: PageSource>(
    rt: &R,
    alloc: Global,
    scan: &Scan<'_, D>,
    locators: &LocatorIndex,
    in_doubt: bool,
) -> Result<(Liveness, Vec<Place>), OutOfMemory>
    ensures liveness { (checked : List Checked) → IsLocatorIndex checked locators.now →
        IfOk result (λ r. IsLivenessBy scan.now.plan scan.now.all.extents checked in_doubt r.0) }
    ensures twins { IfOk result (λ r. r.1.items ≡ twins scan.now.all.extents) }
{
    let (liveness, twin_chunks) = join_mut(
        rt,
        &mut || -> Result<Liveness, OutOfMemory>
            ensures liveness { (checked : List Checked) → IsLocatorIndex checked locators.entry.now →
                IfOk result (IsLivenessBy scan.entry.now.plan scan.entry.now.all.extents checked in_doubt) }
        { liveness_with(alloc, scan, locators, in_doubt) },
        &mut || -> Result<Vec<Place>, OutOfMemory>
            ensures twins { IfOk result (λ v. v.items ≡ twins scan.entry.now.all.extents) }
        { twins_by_threads(rt, alloc, &scan.all) },
    );
    Ok((liveness?, twin_chunks?))
}

/// The same, of judged locators.
pub fn liveness_and_twins<R: Threads + Sync, D: PageSource>(
    rt: &R,
    alloc: Global,
    judged: &Judged<'_, D>,
) -> Result<(Liveness, Vec<Place>), OutOfMemory>
    ensures liveness { IfOk result (λ r. IsLivenessOf judged.now r.0) }
    ensures twins { IfOk result (λ r. r.1.items ≡ twins judged.now.scan.all.extents) }
{
    let locators = LocatorIndex::by_threads(rt, alloc, &judged.checked)?;
    liveness_and_twins_by(rt, alloc, &judged.scan, &locators, judged.in_doubt)
}

/// Whether each locator is sound.
pub fn are_sound(checked: &[Checked]) -> bool
    ensures { result ≡ list_all (λ c. is_sound c.status) checked.now }
{
    checked.iter().all(|one| one.status.is_sound())
}

/// A law: each image has all that a scan finds as if extents had been reset.
pub fn each_image_has_findings_under_resets()
    ensures { (resets : List ℕ) (image : Image) → (found : Scrubbed) × IsScrubbedBut resets image found }
{}
