//! The answer of a command: its text and its outcome, for one extent, a whole disk or a raw image. For
//! loading the disk see `disk_image`, and for writing the answer `running`.

ghost use Rattle.std.specs.Prelude.{◌≡◌, ◌≤◌, ◌<◌, IfOk, IfSome, List, Option, true};
ghost use Rattle.std.specs.List.{list_all};
ghost use Rattle.std.specs.List.Sorted.{IsStrictlyIncreasing};
ghost use Rattle.scrub_map.specs.declared.block.MapBlock.{MapBlock};
ghost use Rattle.scrub_super.specs.steps.Limits.{AreRunLocators};
ghost use Rattle.scrub_found.specs.GivenRuns.{AreTakingsFrom, given_in};
ghost use Rattle.scrub_found.specs.Takings.{AreTakingsBy};
ghost use Rattle.scrub_found.specs.Scrubbed.{is_clean_item};
ghost use Rattle.scrub_cli.specs.Answer.{IsVersionAnswer};
ghost use Rattle.scrub_cli.specs.KnownFiles.{KnownRaw};
ghost use Rattle.scrub_cli.specs.Lines.{lines_of};
ghost use Rattle.scrub_cli.specs.Outcome.{outcome_of};
ghost use Rattle.scrub_cli.specs.Manifest.{IsManifestListed};
ghost use Rattle.scrub_cli.specs.Rescue.{IsFrontRead};
ghost use Rattle.scrub_cli.specs.Scan.{IsDiskAnswer, acceptance, is_scanned};
ghost use Rattle.scrub_cli.specs.SizesListed.{AreSizesListed, no_record_line};
ghost use Rattle.scrub_cli.specs.Superblock.{AreSuperblocksListed};

use crate::commands::remarks::superblock_remark_lines;
use crate::process::outcome::Outcome;
use scrub_args::{AcceptedDoubts, ScanOutput, VERSION};
use scrub_disk::{OutOfMemory, PageSource};
use scrub_found::{ScrubFault, are_clean_items};
use scrub_frame::Locator;
use scrub_listings::{list_locators, list_manifest, list_sizes, list_summary, list_superblocks};
use scrub_pool::{NoGate, Takings};
use scrub_reclaim::{Acceptance, list_reclaimable};
use scrub_report::scrub;
use scrub_scan::{Item, item_line};
use scrub_super::Front;
use std::alloc::Global;
use std::sync::Wait;
use std::thread::Threads;

/// The whole answer of a command, in memory.
#[derive(Drop)]
pub struct Answer {
    /// The bytes for the output: lines, each with its line feed, an index, a shard or an archive.
    pub text: Vec<u8>,
    /// How the run ends once all of it is written.
    pub outcome: Outcome,
}

impl Answer {
    /// The answer with this text, which is clean or has findings.
    pub fn new(text: Vec<u8>, is_clean: bool) -> Answer
        ensures text { result.text.items ≡ text.items }
        ensures outcome { result.outcome ≡ outcome_of is_clean }
    {
        let outcome = Outcome::of(is_clean);
        Answer { text, outcome }
    }
}

/// The program's name and version.
pub fn version(alloc: Global) -> Result<Answer, OutOfMemory>
    ensures { IfOk result (λ a. IsVersionAnswer a.text.items a.outcome) }
{
    Ok(Answer {
        text: Vec::from_slice(alloc, VERSION.as_bytes())?,
        outcome: Outcome::Clean,
    })
}

/// The lines of some items, each with a line feed.
fn lines(alloc: Global, items: &[Item]) -> Result<Vec<u8>, OutOfMemory>
    ensures { IfOk result (λ text. text.items ≡ lines_of items.now) }
{
    let mut text = Vec::new(alloc);
    for item in items {
        let line = item_line(alloc, item)?;
        text.extend_from_slice(line.as_bytes())?;
        text.push(b'\n')?;
    }
    Ok(text)
}

/// The lines of the items of an extent. The status is 0 if no item is torn, noise or lost, else 1.
pub fn listing(alloc: Global, items: &[Item]) -> Result<Answer, OutOfMemory>
    ensures text { IfOk result (λ a. a.text.items ≡ lines_of items.now) }
    ensures outcome { IfOk result (λ a. a.outcome ≡ outcome_of (list_all is_clean_item items.now)) }
{
    let text = lines(alloc, items)?;
    Ok(Answer::new(text, are_clean_items(items)))
}

/// The lines of the superblocks of a disk.
pub fn superblock_listing<D: PageSource>(alloc: Global, disk: &D) -> Result<Answer, OutOfMemory>
    ensures { IfOk result (λ a. AreSuperblocksListed (D.image disk.now) a.text.items a.outcome) }
{
    let listing = list_superblocks(alloc, disk)?;
    Ok(Answer::new(listing.text, listing.is_clean))
}

/// The line of the error stream for a listing of records without lines; none for another one.
fn no_record_line(alloc: Global, text: &[u8]) -> Result<Vec<u8>, OutOfMemory>
    ensures { IfOk result (λ lines. lines.items ≡ no_record_line text.now) }
{
    if !text.is_empty() {
        return Ok(Vec::new(alloc));
    }
    Vec::from_slice(
        alloc,
        b"shardscrub: no superblock record in the first 64 MiB\n",
    )
}

/// The lines of the superblock records in the front of a raw image.
pub fn sizes_listing(alloc: Global, front: &Front) -> Result<Answer, OutOfMemory>
    ensures { IfOk result (λ a. (known : KnownRaw) (blocks : Option (List MapBlock)) →
        IsFrontRead known blocks front.now → AreSizesListed known blocks a.text.items a.outcome) }
{
    let listing = list_sizes(alloc, front)?;
    let lines = no_record_line(alloc, &listing.text)?;
    Ok(Answer {
        text: listing.text,
        outcome: Outcome::warned(lines, listing.is_clean),
    })
}

/// The doubts that the arguments accept, for a list of what may be reclaimed.
fn acceptance<'v, 'a>(accepted: &'v AcceptedDoubts<'a>, last: Option<u64>) -> Acceptance<'v, 'a>
    ensures { result ≡ acceptance accepted.now last }
{
    Acceptance::new(&accepted.texts, last)
}

/// What is wanted of a disk, if that takes a scan, with its status, and the extents that each worker took.
/// This many workers scan the disk beside the caller. The takings are for contracts alone: they show how
/// many workers there were, and that each extent was scanned once.
pub fn disk_answer<R: Threads + Wait + Sync, D: PageSource>(
    rt: &R,
    alloc: Global,
    disk: &D,
    workers: u32,
    wanted: &ScanOutput<'_>,
) -> Result<(Answer, Takings), ScrubFault>
    requires workers { workers ≤ 64 }
    requires scanned { is_scanned wanted.now ≡ true }
    ensures answer { IfOk result
        (λ r. IsDiskAnswer wanted.now (D.image disk.now) r.0.text.items r.0.outcome) }
    ensures takings { IfOk result (λ r. AreTakingsBy (D.image disk.now) workers r.1) }
{
    match wanted {
        ScanOutput::Report => {
            let (found, takings) = scrub(rt, alloc, disk, workers, &NoGate)?;
            let is_clean = found.is_clean();
            Ok((Answer::new(found.into_report(), is_clean), takings))
        }
        ScanOutput::Index => {
            let (found, takings) = scrub(rt, alloc, disk, workers, &NoGate)?;
            let is_clean = found.is_clean();
            Ok((Answer::new(found.into_index(), is_clean), takings))
        }
        ScanOutput::Locators => {
            let (listing, takings) = list_locators(rt, alloc, disk, workers, &NoGate)?;
            Ok((Answer::new(listing.text, listing.is_clean), takings))
        }
        ScanOutput::Runs => unreachable!(),
        ScanOutput::Summary(last) => {
            let (summary, takings) = list_summary(rt, alloc, disk, workers, &NoGate, *last)?;
            Ok((Answer::new(summary.text, summary.is_clean), takings))
        }
        ScanOutput::Reclaimable(accepted, last) => {
            let acceptance = acceptance(&accepted, *last);
            let (listing, takings) = list_reclaimable(
                rt,
                alloc,
                disk,
                workers,
                &NoGate,
                &acceptance,
            )?;
            Ok((Answer::new(listing.text, listing.is_clean), takings))
        }
    }
}

/// The manifest of a disk by the index runs that are given, or else by the superblock that counts, as if
/// these extents, which are ascending, had been reset; with its status, and the extents that each worker
/// took. The workers and the takings are as for `disk_answer`.
pub fn manifest_listing<R: Threads + Wait + Sync, D: PageSource>(
    rt: &R,
    alloc: Global,
    disk: &D,
    workers: u32,
    given: Option<&[Locator]>,
    resets: &[u32],
) -> Result<(Answer, Takings), ScrubFault>
    requires workers { workers ≤ 64 }
    requires located { IfSome given (λ runs. AreRunLocators runs.now) }
    requires rising { IsStrictlyIncreasing resets.now }
    ensures answer { IfOk result (λ r.
        IsManifestListed (given_in given.entry) resets.now (D.image disk.now) r.0.text.items r.0.outcome) }
    ensures takings { IfOk result (λ r.
        AreTakingsFrom (given_in given.entry) (D.image disk.now) workers r.1) }
{
    let (manifest, takings) = list_manifest(rt, alloc, disk, workers, &NoGate, given, resets)?;
    let lines = superblock_remark_lines(alloc, &manifest.remarks)?;
    let answer = Answer {
        text: manifest.text,
        outcome: Outcome::warned(lines.into_bytes(), manifest.is_clean),
    };
    Ok((answer, takings))
}
