//! Scans several planned extents, and hashes their payloads together. For one extent, see `scanning`.

ghost use Rattle.std.specs.Prelude.{◌≡◌, ◌≤◌, ◌<◌, ◌/◌, ◌*◌, ◌+◌, ℕ, List, All, Contains, IfOk, IfSome, Some};
ghost use Rattle.std.specs.Prelude.{length, map};
ghost use Rattle.scrub_super.specs.Plan.{pointer_of};
ghost use Rattle.scrub_scan.specs.Scanned.{result_image, scanned};
ghost use Rattle.scrub_scan.specs.steps.Gathering.{Grows, Has, IsCollected, IsLeft};
ghost use Rattle.scrub_scan.specs.steps.Pages.{target_of};
ghost use Rattle.scrub_scan.specs.steps.Tiled.{IsTiled};

use crate::collected::Collected;
use crate::counted_source::{CountedSource, PagesAsked, count_reads};
use crate::extent_result::ExtentResult;
use crate::pages::Target;
use crate::scanner::Scanner;
use crate::scanning::findings_of;
use crate::tiling::{tile_from, tile_on};
use crate::workspace::{ExtentMemory, Workspace, memory_of};
use scrub_disk::{OutOfMemory, PageSource};
use scrub_super::Plan;
use std::alloc::Global;

/// An extent that was tiled up to a place, but for digests that are put in later.
#[derive(Drop)]
pub(crate) struct Tiled {
    pub target: Target,
    pub scanner: Scanner,
    pub collected: Collected,
    pub place: usize,
}

/// Tiles a planned extent. Its payloads are added to others.
fn tile_first<D: PageSource>(
    alloc: Global,
    workspace: &mut Workspace,
    disk: &CountedSource<'_, D>,
    asked: PagesAsked,
    plan: &Plan,
    extent: u32,
) -> Result<Tiled, OutOfMemory>
    requires geometry { plan.now.geometry ≡ (D.image disk.now).geometry }
    requires planned { Contains plan.now.planned extent }
    requires unasked { asked ≡ 0 }
    requires has { (all : List (List ℕ)) × Has workspace.old.payloads all }
    ensures extent { IfOk result (λ t. t.target.extent ≡ extent) }
    ensures pointer { IfOk result (λ t. pointer_of plan.now extent ≡ Some t.target.pointer) }
    ensures tiled { IfOk result (IsTiled (D.image disk.now)) }
    ensures collected { IfOk result (λ t.
        IsCollected (target_of (D.image disk.now) t.target) t.place workspace.new.payloads t.collected) }
    ensures grows { IfOk result (λ _. Grows workspace.old.payloads workspace.new.payloads) }
{
    // For the proof alone: the contract of `planned` says that the planned extents are below the disk's
    // number of extents.
    let _ = plan.planned();
    let target = Target::new(disk, extent, plan.pointer(extent));
    let Some(first) = workspace.payloads.count() else {
        return Err(OutOfMemory);
    };
    let ExtentMemory {
        pages,
        mut collected,
    } = memory_of(alloc, &mut workspace.spare);
    let mut scanner = Scanner::new(pages, target.page, asked)?;
    collected.clear(first);
    let place = tile_on(
        alloc,
        disk,
        &target,
        &mut scanner,
        &mut workspace.payloads,
        &mut collected,
        0,
        true,
    )?;
    Ok(Tiled {
        target,
        scanner,
        collected,
        place,
    })
}

/// Ends the scan of an extent that was tiled: puts the digests in, goes back to a sealed frame whose seal is
/// wrong, and looks at the tail.
fn finish<'d, D: PageSource>(
    alloc: Global,
    workspace: &mut Workspace,
    source: &'d D,
    disk: &CountedSource<'_, D>,
    tiled: Tiled,
) -> Result<ExtentResult<'d, D>, OutOfMemory>
    requires same { disk.now ≡ source.now }
    requires tiled { IsTiled (D.image source.now) tiled }
    requires left { IsLeft (target_of (D.image source.now) tiled.target) tiled.place workspace.old.payloads
        tiled.collected }
    ensures image { IfOk result (λ r. result_image r ≡ D.image source.now) }
    ensures extent { IfOk result (λ r. (scanned r).extent ≡ tiled.target.extent) }
    ensures pointer { IfOk result (λ r. (scanned r).pointer ≡ tiled.target.pointer) }
    ensures grows { IfOk result (λ _. Grows workspace.old.payloads workspace.new.payloads) }
{
    let Tiled {
        target,
        mut scanner,
        mut collected,
        place,
    } = tiled;
    let right = collected.settle(alloc, &mut workspace.payloads, place)?;
    tile_from(
        alloc,
        disk,
        &target,
        &mut scanner,
        &mut workspace.payloads,
        &mut collected,
        right,
        false,
    )?;
    let items = collected.take_items(alloc);
    let findings = findings_of(alloc, disk, &target, items, &mut scanner.pages)?;
    let (pages, asked) = scanner.into_parts();
    workspace.spare.push(ExtentMemory { pages, collected })?;
    Ok(ExtentResult::new(
        source,
        target.extent,
        target.pointer as u32,
        findings,
        asked,
    ))
}

/// Scans planned extents, from the last one on. All of them are tiled before any payload has to be hashed.
fn scan_group<'d, D: PageSource>(
    alloc: Global,
    workspace: &mut Workspace,
    disk: &'d D,
    plan: &Plan,
    extents: &[u32],
) -> Result<Vec<ExtentResult<'d, D>>, OutOfMemory>
    requires geometry { plan.now.geometry ≡ (D.image disk.now).geometry }
    requires planned { All (λ e. Contains plan.now.planned e) extents.now }
    requires has { (all : List (List ℕ)) × Has workspace.old.payloads all }
    ensures images { IfOk result (λ rs. All (λ r. result_image r ≡ D.image disk.now) rs.items) }
    ensures extents { IfOk result (λ rs. map (λ r. (scanned r).extent) rs.items ≡ extents.now) }
    ensures pointers { IfOk result (λ rs.
        All (λ r. pointer_of plan.now (scanned r).extent ≡ Some (scanned r).pointer) rs.items) }
    ensures grows { IfOk result (λ _. Grows workspace.old.payloads workspace.new.payloads) }
{
    if extents.is_empty() {
        return Ok(Vec::new(alloc));
    }
    let last = extents.len() - 1;
    let extent = extents[last];
    let (counted, asked) = count_reads(disk);
    let tiled = tile_first(alloc, workspace, &counted, asked, plan, extent)?;
    let mut results = scan_group(alloc, workspace, disk, plan, &extents[..last])?;
    results.push(finish(alloc, workspace, disk, &counted, tiled)?)?;
    Ok(results)
}

/// Scans these planned extents in the memory of a workspace, and returns their results in the same order,
/// each as from `scan_extent`. The payloads of several extents are hashed side by side. It calls itself once
/// for each extent, so the stack limits how many there may be: `scrub_pool` passes at most eight.
pub fn scan_extents_in<'d, D: PageSource>(
    alloc: Global,
    workspace: &mut Workspace,
    disk: &'d D,
    plan: &Plan,
    extents: &[u32],
) -> Result<Vec<ExtentResult<'d, D>>, OutOfMemory>
    requires geometry { plan.now.geometry ≡ (D.image disk.now).geometry }
    requires planned { All (λ e. Contains plan.now.planned e) extents.now }
    ensures images { IfOk result (λ rs. All (λ r. result_image r ≡ D.image disk.now) rs.items) }
    ensures extents { IfOk result (λ rs. map (λ r. (scanned r).extent) rs.items ≡ extents.now) }
    ensures pointers { IfOk result (λ rs.
        All (λ r. pointer_of plan.now (scanned r).extent ≡ Some (scanned r).pointer) rs.items) }
{
    workspace.payloads.clear();
    scan_group(alloc, workspace, disk, plan, extents)
}
