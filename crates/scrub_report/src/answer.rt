//! The whole scrub of a disk, by one reader or by many workers, and its answer.

ghost use Rattle.std.specs.Prelude.{◌≡◌, ◌<◌, ◌≤◌, ◌^◌, ℕ, All, AllPairs, List, [], length, IfOk};
ghost use Rattle.scrub_disk.specs.Image.{Image};
ghost use Rattle.scrub_pool.specs.Takings.{TakingsValue};
ghost use Rattle.scrub_run.specs.Entry.{IsBelow};
ghost use Rattle.scrub_run.specs.Run.{IsRun, run_bytes};
ghost use Rattle.scrub_check.specs.declared.statuses.checked.Checked.{Checked};
ghost use Rattle.scrub_check.specs.Checked.{AreBrokenShards};
ghost use Rattle.scrub_found.specs.declared.judging.DrawnScan.{DrawnScan};
ghost use Rattle.scrub_found.specs.Judged.{IsDrawnFrom, IsScan};
ghost use Rattle.scrub_found.specs.Scrubbed.{IsScrubbed, Scrubbed};
ghost use Rattle.scrub_found.specs.Takings.{ArePlannedExtents, AreTakingsBy};
ghost use Rattle.scrub_report.specs.Answer.{AnswerValue, IsScrubAnswer};
ghost use Rattle.scrub_report.specs.Index.{index_entries};
ghost use Rattle.scrub_report.specs.steps.Lists.{AreOfSome, AreShardsOf, IsReportBy, unlisted};

use crate::index::index_bytes;
use crate::listed::{JudgedWithoutMap, is_clean_listed, listed_of};
use crate::report::report_text;
use crate::shards::{Shards, shards_of};
use scrub_check::FromLocators;
use scrub_disk::{OutOfMemory, PageSource};
use scrub_found::{DrawnScan, Scan, ScrubFault, drawn_scan, scan_by, scan_by_one};
use scrub_merge::ShardMap;
use scrub_pool::{Gate, Takings};
use scrub_run::ShardId;
use std::alloc::Global;
use std::marker::Model;
use std::sync::Wait;
use std::thread::{Threads, join};

/// The answer of a scrub.
#[derive(Drop)]
pub struct ScrubAnswer {
    report: Vec<u8>,
    index: Vec<u8>,
    is_clean: bool,
}

impl Model for ScrubAnswer {
    ghost use Rattle.scrub_report.specs.Answer.{AnswerValue};

    ghost Value = { AnswerValue };

    ghost view = { λ a. record { report = a.report.items; index = a.index.items; is_clean = a.is_clean } };
}

impl ScrubAnswer {
    /// The report: one line of compact JSON (RFC 8259), with its line feed.
    pub fn report(&self) -> &[u8]
        ensures { result.now ≡ self.now.report }
    {
        self.report.as_slice()
    }

    /// The recovered index: the bytes of an index run.
    pub fn index(&self) -> &[u8]
        ensures { result.now ≡ self.now.index }
    {
        self.index.as_slice()
    }

    /// Gives the report away.
    pub fn into_report(self) -> Vec<u8>
        ensures { result.items ≡ self.report }
    {
        self.report
    }

    /// Gives the recovered index away.
    pub fn into_index(self) -> Vec<u8>
        ensures { result.items ≡ self.index }
    {
        self.index
    }

    /// Whether the disk is clean.
    pub fn is_clean(&self) -> bool
        ensures { result ≡ self.now.is_clean }
    {
        self.is_clean
    }
}

/// The text of the report, and whether the disk is clean.
fn report_of<R: Threads + Sync, D: PageSource>(
    rt: &R,
    alloc: Global,
    rest: JudgedWithoutMap<'_, D>,
    shards: Shards,
    broken: &[ShardId],
) -> Result<(Vec<u8>, bool), OutOfMemory>
    requires { AreOfSome rest }
    ensures { (image : Image) (checked : List Checked) (found : DrawnScan D) →
        IsDrawnFrom image checked found → rest.entry ≡ unlisted found → AreShardsOf found.map shards →
        broken.now ≡ found.drawn.broken.items →
        IfOk result (λ r. IsReportBy image found.map checked r.0.items r.1) }
{
    let listed = listed_of(rt, alloc, rest, shards)?;
    let is_clean = is_clean_listed(&listed);
    let text = report_text(rt, alloc, listed, broken, is_clean)?;
    Ok((text, is_clean))
}

/// The recovered index, and the text of the report with whether the disk is clean. The index needs the shard
/// map and the broken shards alone, so it is made on a thread of its own while all else is listed and
/// written.
fn index_and_report<R: Threads + Sync, D: PageSource>(
    rt: &R,
    alloc: Global,
    map: ShardMap,
    rest: JudgedWithoutMap<'_, D>,
    shards: Shards,
    broken: &[ShardId],
) -> Result<(Vec<u8>, (Vec<u8>, bool)), OutOfMemory>
    requires sorted { AllPairs IsBelow broken.now }
    requires few { All (λ b. length b.locators ≤ 64) map }
    requires count { length map < 2 ^ 32 }
    requires drawn { AreOfSome rest }
    ensures index { (checked : List Checked) → AreBrokenShards checked broken.now →
        IfOk result (λ r. r.0.items ≡ run_bytes (index_entries checked map)) }
    ensures report { (image : Image) (checked : List Checked) (found : DrawnScan D) →
        IsDrawnFrom image checked found → rest.entry ≡ unlisted found → AreShardsOf found.map shards →
        broken.now ≡ found.drawn.broken.items →
        IfOk result (λ r. IsReportBy image found.map checked r.1.0.items r.1.1) }
{
    let (index, report) = join(
        rt,
        move || -> Result<Vec<u8>, OutOfMemory>
            requires sorted { AllPairs IsBelow broken.now }
            requires few { All (λ b. length b.locators ≤ 64) map }
            requires count { length map < 2 ^ 32 }
            ensures index { (checked : List Checked) → AreBrokenShards checked broken.entry.now →
                IfOk result (λ bytes. bytes.items ≡ run_bytes (index_entries checked map)) }
        { index_bytes(alloc, map, broken) },
        move || -> Result<(Vec<u8>, bool), OutOfMemory>
            requires drawn { AreOfSome rest }
            ensures report { (image : Image) (checked : List Checked) (found : DrawnScan D) →
                IsDrawnFrom image checked found → rest.entry ≡ unlisted found →
                AreShardsOf found.map shards → broken.entry.now ≡ found.drawn.broken.items →
                IfOk result (λ r. IsReportBy image found.map checked r.0.items r.1) }
        { report_of(rt, alloc, rest, shards, broken) },
    );
    Ok((index?, report?))
}

/// The answer of a scrub of a scanned disk.
fn answer_of<R: Threads + Sync, D: PageSource>(
    rt: &R,
    alloc: Global,
    scan: Scan<'_, D>,
) -> Result<ScrubAnswer, OutOfMemory>
    requires { IsScan (D.image scan.disk.now) scan }
    ensures { IfOk result (IsScrubAnswer (D.image scan.entry.disk.now)) }
{
    let DrawnScan {
        scan,
        in_doubt,
        runs,
        map,
        drawn,
    } = drawn_scan(rt, alloc, scan)?;
    let shards = shards_of(alloc, &map)?;
    let FromLocators {
        locators,
        dangling,
        hidden,
        broken,
    } = drawn;
    let rest = JudgedWithoutMap {
        scan,
        in_doubt,
        runs,
        locators,
        dangling,
        hidden,
    };
    let (index, (report, is_clean)) = index_and_report(rt, alloc, map, rest, shards, &broken)?;
    Ok(ScrubAnswer {
        report,
        index,
        is_clean,
    })
}

/// Scrubs a disk: finds the superblock that counts, scans each planned extent by ascending number, and checks
/// each named locator. One thread reads the extents; several check the locators if there are many. The only
/// fault is `OutOfMemory`.
pub fn scrub_in_order<R: Threads + Sync, D: PageSource>(
    rt: &R,
    alloc: Global,
    disk: &D,
) -> Result<ScrubAnswer, ScrubFault>
    ensures { IfOk result (IsScrubAnswer (D.image disk.now)) }
{
    let scan = scan_by_one(alloc, disk)?;
    Ok(answer_of(rt, alloc, scan)?)
}

/// Scrubs a disk as `scrub_in_order` does, with this many workers (0 to 64) beside the caller. All take
/// planned extents from one queue until it is empty. Also returns which extents each of them took. The only
/// fault is `OutOfMemory`, returned once every started worker has ended.
pub fn scrub<D: PageSource, G: Gate, R: Threads + Wait + Sync>(
    rt: &R,
    alloc: Global,
    disk: &D,
    workers: u32,
    gate: &G,
) -> Result<(ScrubAnswer, Takings), ScrubFault>
    requires { workers ≤ 64 }
    ensures answer { IfOk result (λ r. IsScrubAnswer (D.image disk.now) r.0) }
    ensures takings { IfOk result (λ r. AreTakingsBy (D.image disk.now) workers r.1) }
{
    let (scan, takings) = scan_by(rt, alloc, disk, workers, gate)?;
    let answer = answer_of(rt, alloc, scan)?;
    Ok((answer, takings))
}

/// A law: the recovered index is an index run, whose entries are the shards of the map that aren't broken. So
/// `read_run` reads it back as these entries.
pub fn the_index_is_a_run()
    ensures { (image : Image) (a : AnswerValue) → IsScrubAnswer image a →
        (found : Scrubbed) × IsScrubbed image found ×
        IsRun a.index (index_entries found.checked found.bindings) }
{}

/// A law: an image has at most one report, one index and one verdict whether it is clean. So the answer is
/// the same for each number of workers.
pub fn one_report()
    ensures { (image : Image) (a b : AnswerValue) → IsScrubAnswer image a → IsScrubAnswer image b → a ≡ b }
{}

/// A law: each image has a report, an index and a verdict, a list of planned extents, and takings for each
/// number of workers. With `one_report` and `one_list_of_planned_extents`, it has exactly one of all but the
/// takings.
pub fn each_image_has_a_report()
    ensures report { (image : Image) → (a : AnswerValue) × IsScrubAnswer image a }
    ensures index { (image : Image) →
        (bytes : List ℕ) × (a : AnswerValue) × IsScrubAnswer image a × (bytes ≡ a.index) }
    ensures planned { (image : Image) → (planned : List ℕ) × ArePlannedExtents image planned }
    ensures takings { (image : Image) (workers : ℕ) →
        (takings : TakingsValue) × AreTakingsBy image workers takings }
{}
