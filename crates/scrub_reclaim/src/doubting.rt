//! Finds the doubts of a disk, kind by kind. `doubts` has their texts.

ghost use Rattle.std.specs.Prelude.{◌≡◌, ◌++◌, IfOk, OnOk};
ghost use Rattle.std.specs.List.{filter_map, flat_map};
ghost use Rattle.scrub_scan.specs.Scanned.{scanned};
ghost use Rattle.scrub_loose.specs.Loose.{LooseValue};
ghost use Rattle.scrub_found.specs.Judged.{run_states};
ghost use Rattle.scrub_reclaim.specs.Doubts.{choice_doubts, ends_past, lost_past, page_doubts};
ghost use Rattle.scrub_reclaim.specs.Doubts.{last_doubt, last_doubts, range_doubts, run_doubts, run_lost};
ghost use Rattle.scrub_reclaim.specs.Doubts.{superblock_damaged, superblock_lost, superblock_stray};
ghost use Rattle.scrub_reclaim.specs.Doubts.{tail_doubts, tail_lost_doubts};
ghost use Rattle.scrub_reclaim.specs.steps.ReclaimParts.{AreKeptOf, AreLists, doubts_of};
ghost use Rattle.scrub_reclaim.specs.steps.PageDoubts.{page_doubt};

use crate::doubts::Doubt;
use crate::loose_doubts::{add_crowded, add_loose};
use crate::page_ranges::{PageRange, join_pages};
use crate::reclaim_parts::ReclaimParts;
use crate::spare_doubts::add_spares;
use scrub_check::RunState;
use scrub_disk::{OutOfMemory, PageSource};
use scrub_found::RunRow;
use scrub_listings::summary::counts_as;
use scrub_scan::{AllFindings, ExtentResult};
use scrub_super::{Chosen, SuperblockPage};
use std::alloc::Global;

/// The doubts that the choice makes: no superblock counts, or another one is as new.
pub fn choice_doubts(alloc: Global, chosen: &Chosen) -> Result<Vec<Doubt>, OutOfMemory>
    ensures { IfOk result (λ v. v.items ≡ choice_doubts chosen.now) }
{
    let mut doubts = Vec::new(alloc);
    if chosen.superblock().is_none() {
        doubts.push(Doubt::NoSuperblock)?;
    }
    if chosen.tie() {
        doubts.push(Doubt::Tie)?;
    }
    Ok(doubts)
}

/// Adds the doubt that the last superblock that was written has this generation, unless that is the one that
/// counts.
fn add_last(doubts: &mut Vec<Doubt>, chosen: &Chosen, last: u64) -> Result<(), OutOfMemory>
    ensures { OnOk result (doubts.new.items ≡ doubts.old.items ++ last_doubt chosen.now last) }
{
    if counts_as(chosen, last) {
        return Ok(());
    }
    let counts = chosen
        .superblock()
        .map(|superblock| superblock.generation());
    doubts.push(Doubt::Last { counts, last })?;
    Ok(())
}

/// Adds that doubt, if the generation of the last superblock that was written is given.
fn add_last_if(
    doubts: &mut Vec<Doubt>,
    chosen: &Chosen,
    last: Option<u64>,
) -> Result<(), OutOfMemory>
    ensures { OnOk result (doubts.new.items ≡ doubts.old.items ++ last_doubts chosen.now last) }
{
    match last {
        Some(last) => add_last(doubts, chosen, last),
        None => Ok(()),
    }
}

/// What makes a page of extent 0 doubtful.
#[derive(Clone, Copy)]
pub enum PageDoubt {
    /// It is lost.
    Lost,
    /// It is damaged.
    Damaged,
    /// It has a stray byte, and isn't damaged.
    Stray,
}

/// The doubt that a page of extent 0 makes if it is stray.
fn stray_doubt(page: usize, held: &SuperblockPage) -> Option<Doubt>
    ensures { result ≡ superblock_stray page held.now }
{
    if held.is_stray() {
        Some(Doubt::SuperblockStray { page })
    } else {
        None
    }
}

/// The doubt of this kind that a page of extent 0 makes.
fn page_doubt(kind: PageDoubt, page: usize, held: &SuperblockPage) -> Option<Doubt>
    ensures { result ≡ page_doubt kind page held.now }
{
    match (kind, held) {
        (PageDoubt::Lost, SuperblockPage::Lost) => Some(Doubt::SuperblockLost { page }),
        (PageDoubt::Damaged, SuperblockPage::Damaged { .. }) => Some(Doubt::SuperblockDamaged {
            page,
        }),
        (PageDoubt::Stray, _) => stray_doubt(page, held),
        _ => None,
    }
}

/// The doubts of this kind that the pages of extent 0 make, by number.
pub fn page_doubts(
    alloc: Global,
    kind: PageDoubt,
    pages: &[SuperblockPage],
) -> Result<Vec<Doubt>, OutOfMemory>
    ensures { IfOk result (λ v. v.items ≡ page_doubts (page_doubt kind) pages.now) }
{
    pages
        .iter()
        .enumerate()
        .filter_map(|(page, held)| page_doubt(kind, page, held))
        .collect(alloc)
}

/// The doubt that an index run makes if it is lost.
fn run_lost(number: usize, state: RunState) -> Option<Doubt>
    ensures { result ≡ run_lost number state }
{
    match state {
        RunState::Read => None,
        RunState::BadChunk(_) | RunState::NotARun => Some(Doubt::RunLost { number, state }),
    }
}

/// The doubts of the lost index runs, by number.
pub fn lost_runs(alloc: Global, runs: &[RunRow]) -> Result<Vec<Doubt>, OutOfMemory>
    ensures { IfOk result (λ v. v.items ≡ run_doubts (run_states runs.now)) }
{
    runs.iter()
        .enumerate()
        .filter_map(|(number, run)| run_lost(number, run.state))
        .collect(alloc)
}

/// Adds the doubt that an extent makes if it has a tail.
fn add_tail<D: PageSource>(
    doubts: &mut Vec<Doubt>,
    found: &ExtentResult<'_, D>,
) -> Result<(), OutOfMemory>
    ensures { OnOk result (doubts.new.items ≡ doubts.old.items ++ tail_doubts (scanned found.now)) }
{
    let findings = found.findings();
    let Some(offset) = findings.tail_first() else {
        return Ok(());
    };
    doubts.push(Doubt::Tail {
        extent: found.extent(),
        offset,
        bytes: findings.tail_count(),
    })?;
    Ok(())
}

/// Adds the doubts of the extents' tails.
fn add_tails<D: PageSource>(
    doubts: &mut Vec<Doubt>,
    all: &AllFindings<'_, D>,
) -> Result<(), OutOfMemory>
    ensures { OnOk result (doubts.new.items ≡ doubts.old.items ++ flat_map tail_doubts all.now.extents) }
{
    for found in all.results() {
        add_tail(doubts, found)?;
    }
    Ok(())
}

/// Whether page `number` has a byte at or past the write pointer. `page` is the page size in bytes.
fn ends_past(page: u32, pointer: u32, number: u32) -> bool
    ensures { result ≡ ends_past page pointer number }
{
    let end = (number as u64 + 1) * page as u64;
    end > pointer as u64
}

/// The unreadable pages of an extent that have a byte at or past its write pointer.
fn lost_past<D: PageSource>(
    alloc: Global,
    page: u32,
    found: &ExtentResult<'_, D>,
) -> Result<Vec<u32>, OutOfMemory>
    ensures { IfOk result (λ v. v.items ≡ lost_past page (scanned found.now)) }
{
    let pointer = found.pointer();
    let pages = found.findings().bad_pages();
    pages
        .iter()
        .copied()
        .filter(|number| ends_past(page, pointer, *number))
        .collect(alloc)
}

/// Adds a doubt for each range of such pages.
fn add_ranges(doubts: &mut Vec<Doubt>, extent: u32, ranges: &[PageRange]) -> Result<(), OutOfMemory>
    ensures { OnOk result (doubts.new.items ≡ doubts.old.items ++ range_doubts extent ranges.now) }
{
    for range in ranges {
        doubts.push(Doubt::TailLost {
            extent,
            first: range.first,
            last: range.last,
        })?;
    }
    Ok(())
}

/// Adds the doubts of such pages of an extent.
fn add_lost_tail<D: PageSource>(
    alloc: Global,
    doubts: &mut Vec<Doubt>,
    page: u32,
    found: &ExtentResult<'_, D>,
) -> Result<(), OutOfMemory>
    ensures { OnOk result (doubts.new.items ≡ doubts.old.items ++ tail_lost_doubts page (scanned found.now)) }
{
    let pages = lost_past(alloc, page, found)?;
    let ranges = join_pages(alloc, &pages)?;
    add_ranges(doubts, found.extent(), &ranges)
}

/// Adds the doubts of such pages of all extents.
fn add_lost_tails<D: PageSource>(
    alloc: Global,
    doubts: &mut Vec<Doubt>,
    page: u32,
    all: &AllFindings<'_, D>,
) -> Result<(), OutOfMemory>
    ensures { OnOk result (doubts.new.items ≡ doubts.old.items ++
        flat_map (tail_lost_doubts page) all.now.extents) }
{
    for found in all.results() {
        add_lost_tail(alloc, doubts, page, found)?;
    }
    Ok(())
}

/// The doubts of superblocks and of index runs, by kind, and within a kind by page or run. `last` is the
/// generation of the last superblock that was written, if it is given.
fn record_doubts(
    alloc: Global,
    last: Option<u64>,
    pages: &[SuperblockPage],
    chosen: &Chosen,
    runs: &[RunRow],
) -> Result<Vec<Doubt>, OutOfMemory>
    ensures { IfOk result (λ v. v.items ≡ choice_doubts chosen.now ++ last_doubts chosen.now last
        ++ page_doubts superblock_lost pages.now ++ page_doubts superblock_damaged pages.now
        ++ page_doubts superblock_stray pages.now ++ run_doubts (run_states runs.now)) }
{
    let mut doubts = choice_doubts(alloc, chosen)?;
    add_last_if(&mut doubts, chosen, last)?;
    doubts.extend_from_slice(&page_doubts(alloc, PageDoubt::Lost, pages)?)?;
    doubts.extend_from_slice(&page_doubts(alloc, PageDoubt::Damaged, pages)?)?;
    doubts.extend_from_slice(&page_doubts(alloc, PageDoubt::Stray, pages)?)?;
    doubts.extend_from_slice(&lost_runs(alloc, runs)?)?;
    Ok(doubts)
}

/// The doubts of a disk, by kind, and within a kind by page, run, or extent and page. `last` is the
/// generation of the last superblock that was written, if it is given.
pub(crate) fn doubts_of<D: PageSource>(
    alloc: Global,
    last: Option<u64>,
    pages: &[SuperblockPage],
    parts: &ReclaimParts<'_, D>,
) -> Result<Vec<Doubt>, OutOfMemory>
    requires { AreLists parts.now }
    ensures { (loose : LooseValue) → AreKeptOf loose parts.now →
        IfOk result (λ v. v.items ≡ doubts_of last pages.now loose parts.now) }
{
    let judged = &parts.judged;
    let (chosen, all) = (&judged.scan.chosen, &judged.scan.all);
    let page = judged.scan.plan.geometry().page();
    let mut doubts = record_doubts(alloc, last, pages, chosen, &judged.runs)?;
    add_spares(alloc, &mut doubts, parts)?;
    add_loose(alloc, &mut doubts, parts)?;
    add_crowded(&mut doubts, &parts.listed, parts.copies.crowded())?;
    add_tails(&mut doubts, all)?;
    add_lost_tails(alloc, &mut doubts, page, all)?;
    Ok(doubts)
}
