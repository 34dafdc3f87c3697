//! Scans planned extents page by page, and finds the items, the tail and the unreadable pages of each.

ghost use Rattle.std.specs.Prelude.{◌≡◌, ◌≤◌, ◌<◌, ◌+◌, ◌/◌, Contains, IfOk, Some};
ghost use Rattle.scrub_disk.specs.Image.{extent_bytes};
ghost use Rattle.scrub_super.specs.Plan.{pointer_of};
ghost use Rattle.scrub_scan.specs.Findings.{IsFindings};
ghost use Rattle.scrub_scan.specs.Scanned.{result_image, scanned};
ghost use Rattle.scrub_scan.specs.Tiling.{IsTiling};
ghost use Rattle.scrub_scan.specs.steps.Pages.{HasRead, HoldBoth, IsTarget, target_of};
ghost use Rattle.scrub_scan.specs.AllFindings.{AreAllFindings, IsOfImage, extent_numbers};

use crate::all_findings::AllFindings;
use crate::counted_source::{CountedSource, count_reads};
use crate::extent_result::ExtentResult;
use crate::findings::{Findings, PageNumbers};
use crate::item::Items;
use crate::pages::{Target, TwoPages};
use crate::scanner::Scanner;
use crate::tail::{TailAndLostPages, tail_and_lost_pages};
use crate::tiling::tile_by;
use crate::workspace::{ExtentMemory, Workspace, memory_of};
use scrub_disk::{OutOfMemory, PageSource};
use scrub_super::Plan;
use std::alloc::Global;

/// What was found in an extent that was tiled: its items, and what is at and past the write pointer.
pub(crate) fn findings_of<D: PageSource>(
    alloc: Global,
    disk: &CountedSource<'_, D>,
    target: &Target,
    items: Items,
    pages: &mut TwoPages,
) -> Result<Findings, OutOfMemory>
    requires target { IsTarget (D.image disk.now) target.now }
    requires tiling { IsTiling (target_of (D.image disk.now) target.now) items }
    requires held { HoldBoth (D.image disk.now) target.now.extent pages.old }
    requires read { HasRead pages.old (target.now.pointer / target.now.page) }
    ensures found { IfOk result (IsFindings (D.image disk.now) target.now.extent target.now.pointer) }
    ensures asked { IfOk result (λ _.
        pages.new.asked + target.now.pointer / target.now.page ≤
        pages.old.asked + (D.image disk.now).geometry.pages) }
    ensures each { IfOk result (λ _. (D.image disk.now).geometry.pages ≤ pages.new.asked) }
{
    let TailAndLostPages { tail, bad_pages } = tail_and_lost_pages(
        alloc,
        disk,
        target,
        items.as_slice(),
        pages,
    )?;
    Ok(Findings {
        items,
        tail_count: tail.count,
        tail_first: tail.first,
        bad_pages: PageNumbers { pages: bad_pages },
    })
}

/// Scans an extent with a write pointer.
fn scan_under<'d, D: PageSource>(
    alloc: Global,
    workspace: &mut Workspace,
    disk: &'d D,
    extent: u32,
    pointer: u32,
) -> Result<ExtentResult<'d, D>, OutOfMemory>
    requires in_extents { extent < (D.image disk.now).geometry.extents }
    requires in_extent { pointer ≤ extent_bytes (D.image disk.now).geometry }
    ensures image { IfOk result (λ r. result_image r ≡ D.image disk.now) }
    ensures extent { IfOk result (λ r. (scanned r).extent ≡ extent) }
    ensures pointer { IfOk result (λ r. (scanned r).pointer ≡ pointer) }
{
    // The source is lent only here: all reads below go through it, and the result gets its count.
    let (counted, asked) = count_reads(disk);
    let target = Target::new(&counted, extent, pointer);
    let ExtentMemory {
        pages,
        mut collected,
    } = memory_of(alloc, &mut workspace.spare);
    let mut scanner = Scanner::new(pages, target.page, asked)?;
    let items = tile_by(
        alloc,
        &counted,
        &target,
        &mut scanner,
        &mut workspace.payloads,
        &mut collected,
    )?;
    let findings = findings_of(alloc, &counted, &target, items, &mut scanner.pages)?;
    let (pages, asked) = scanner.into_parts();
    workspace.spare.push(ExtentMemory { pages, collected })?;
    Ok(ExtentResult::new(disk, extent, pointer, findings, asked))
}

/// Scans a planned extent with the plan's write pointer. `pages_asked` of the result is the number of page
/// reads. `OutOfMemory` if there isn't enough for the result or for what the scan needs besides.
pub fn scan_extent<'d, D: PageSource>(
    alloc: Global,
    disk: &'d D,
    plan: &Plan,
    extent: u32,
) -> Result<ExtentResult<'d, D>, OutOfMemory>
    requires geometry { plan.now.geometry ≡ (D.image disk.now).geometry }
    requires planned { Contains plan.now.planned extent }
    ensures image { IfOk result (λ r. result_image r ≡ D.image disk.now) }
    ensures extent { IfOk result (λ r. (scanned r).extent ≡ extent) }
    ensures pointer { IfOk result (λ r. pointer_of plan.now extent ≡ Some (scanned r).pointer) }
{
    scan_extent_in(alloc, &mut Workspace::new(alloc), disk, plan, extent)
}

/// The same, in the memory of a workspace. The result doesn't depend on what was scanned in it before.
pub(crate) fn scan_extent_in<'d, D: PageSource>(
    alloc: Global,
    workspace: &mut Workspace,
    disk: &'d D,
    plan: &Plan,
    extent: u32,
) -> Result<ExtentResult<'d, D>, OutOfMemory>
    requires geometry { plan.now.geometry ≡ (D.image disk.now).geometry }
    requires planned { Contains plan.now.planned extent }
    ensures image { IfOk result (λ r. result_image r ≡ D.image disk.now) }
    ensures extent { IfOk result (λ r. (scanned r).extent ≡ extent) }
    ensures pointer { IfOk result (λ r. pointer_of plan.now extent ≡ Some (scanned r).pointer) }
{
    // For the proof alone: the contract of `planned` says that the planned extents are below the disk's
    // number of extents.
    let _ = plan.planned();
    scan_under(alloc, workspace, disk, extent, plan.pointer(extent))
}

/// Scans all planned extents one after another, in ascending order.
pub fn scan_in_order<'d, D: PageSource>(
    alloc: Global,
    disk: &'d D,
    plan: &Plan,
) -> Result<AllFindings<'d, D>, OutOfMemory>
    requires { plan.now.geometry ≡ (D.image disk.now).geometry }
    ensures image { IfOk result (λ all. IsOfImage (λ s. D.image s) all (D.image disk.now)) }
    ensures findings { IfOk result (λ all. AreAllFindings (D.image disk.now) plan.now all.extents) }
{
    let mut workspace = Workspace::new(alloc);
    let mut slots = Vec::new(alloc);
    for extent in plan.planned() {
        slots.push(Some(scan_extent_in(alloc, &mut workspace, disk, plan, *extent)?))?;
    }
    Ok(AllFindings::from_slots(plan, slots))
}

/// The result of an extent under a write pointer: the one that there is, if it is under that pointer, or that
/// of another scan.
fn result_under<'d, D: PageSource>(
    alloc: Global,
    workspace: &mut Workspace,
    disk: &'d D,
    pointer: u32,
    found: ExtentResult<'d, D>,
) -> Result<ExtentResult<'d, D>, OutOfMemory>
    requires image { result_image found ≡ D.image disk.now }
    requires in_extents { (scanned found).extent < (D.image disk.now).geometry.extents }
    requires in_extent { pointer ≤ extent_bytes (D.image disk.now).geometry }
    ensures image { IfOk result (λ r. result_image r ≡ D.image disk.now) }
    ensures extent { IfOk result (λ r. (scanned r).extent ≡ (scanned found.entry).extent) }
    ensures pointer { IfOk result (λ r. (scanned r).pointer ≡ pointer) }
{
    if found.pointer() == pointer {
        return Ok(found);
    }
    scan_under(alloc, workspace, disk, found.extent(), pointer)
}

/// The findings under a plan, made of those under another plan of the same extents. Only extents with another
/// write pointer are scanned again, in ascending order, by the calling thread alone. `OutOfMemory` if there
/// isn't enough for a second list of results, or for those of the scans and what these need besides.
pub fn rescan<'d, D: PageSource>(
    alloc: Global,
    disk: &'d D,
    plan: &Plan,
    found: AllFindings<'d, D>,
) -> Result<AllFindings<'d, D>, OutOfMemory>
    requires geometry { plan.now.geometry ≡ (D.image disk.now).geometry }
    requires image { IsOfImage (λ s. D.image s) found (D.image disk.now) }
    requires extents { extent_numbers found.extents ≡ plan.now.planned }
    ensures image { IfOk result (λ all. IsOfImage (λ s. D.image s) all (D.image disk.now)) }
    ensures findings { IfOk result (λ all. AreAllFindings (D.image disk.now) plan.now all.extents) }
{
    let mut workspace = Workspace::new(alloc);
    let mut slots = Vec::with_capacity(alloc, plan.planned().len())?;
    for slot in found.into_slots() {
        let Some(old) = slot else { unreachable!() };
        let pointer = plan.pointer(old.extent());
        let new = result_under(alloc, &mut workspace, disk, pointer, old)?;
        slots.push_reserved(Some(new));
    }
    Ok(AllFindings::from_slots(plan, slots))
}
