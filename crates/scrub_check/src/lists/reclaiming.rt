//! Which extents may be reclaimed: those that hold garbage by half or more, and nothing that a locator might
//! still need. See `status` for the statuses of locators, and `live_and_orphans` for the live chunks.

ghost use Rattle.std.specs.Prelude.{◌≡◌, ◌&&◌, ◌*◌, ◌-◌, Bool, not, nat_lt, IfOk, OnOk, List};
ghost use Rattle.std.specs.List.{list_all};
ghost use Rattle.std.specs.List.Sorted.{IsPermutation, IsSorted, IsStrictlyIncreasing};
ghost use Rattle.scrub_disk.specs.Image.{Image};
ghost use Rattle.scrub_super.specs.Plan.{PlanValue};
ghost use Rattle.scrub_scan.specs.Scanned.{Scanned, scanned};
ghost use Rattle.scrub_scan.specs.AllFindings.{extent_numbers};
ghost use Rattle.scrub_check.specs.declared.statuses.checked.Checked.{Checked};
ghost use Rattle.scrub_check.specs.Live.{live_bytes};
ghost use Rattle.scrub_check.specs.steps.LocatorIndex.{IsLocatorIndex, by_free, reclaimable};
ghost use Rattle.scrub_check.specs.steps.LocatorIndex.{with_reclaimable};
ghost use Rattle.scrub_check.specs.steps.LiveAndOrphans.{AreLiveChunks};
ghost use Rattle.scrub_check.specs.Candidates.{CandidateValue, has_sound_alone, is_reclaimable, candidate_of};
ghost use Rattle.scrub_check.specs.Candidates.{AreCandidates};
ghost use Rattle.scrub_check.specs.SafeCandidates.{CandidatesAreSafe};

use crate::lists::candidate::Candidate;
use crate::lists::live_and_orphans::{LiveChunks, live_chunks};
use crate::lists::locator_index::LocatorIndex;
use crate::statuses::checked::Checked;
use scrub_disk::{Geometry, OutOfMemory, PageSource};
use scrub_scan::{AllFindings, ExtentResult};
use scrub_super::Plan;
use std::alloc::Global;
use std::cmp::Reverse;

/// Whether none of these pages has a byte below a write pointer.
fn are_past(pages: &[u32], page: u32, pointer: u32) -> bool
    ensures { result ≡ list_all (λ q. not (nat_lt (q * page) pointer)) pages.now }
{
    pages
        .iter()
        .all(|number| *number as u64 * page as u64 >= pointer as u64)
}

/// How many bytes below the write pointer of an extent are left, if the live chunks take so many.
fn free_bytes<D: PageSource>(found: &ExtentResult<'_, D>, live: u32) -> u32
    ensures { result ≡ (scanned found.now).pointer - live }
{
    found.pointer().saturating_sub(live)
}

/// Whether each locator that names an extent is sound.
fn has_sound_alone<D: PageSource>(locators: &LocatorIndex, found: &ExtentResult<'_, D>) -> bool
    ensures { (checked : List Checked) → IsLocatorIndex checked locators.now →
        result ≡ has_sound_alone checked (scanned found.now) }
{
    !locators.barred.has(found.extent())
}

/// Whether live chunks that take so many bytes are at most half of what was written to an extent.
fn is_half_garbage<D: PageSource>(found: &ExtentResult<'_, D>, live: u32) -> bool
    ensures { result ≡ not (nat_lt (scanned found.now).pointer (2 * live)) }
{
    2 * live as u64 <= found.pointer() as u64
}

/// Whether an extent may be reclaimed if its live chunks take so many bytes.
fn is_reclaimable<D: PageSource>(
    geometry: Geometry,
    locators: &LocatorIndex,
    found: &ExtentResult<'_, D>,
    live: u32,
) -> bool
    ensures { (checked : List Checked) → IsLocatorIndex checked locators.now →
        live ≡ live_bytes checked (scanned found.now) →
        result ≡ is_reclaimable geometry checked (scanned found.now) }
{
    found.pointer() > 0
        && are_past(
            found.findings().bad_pages(),
            geometry.page(),
            found.pointer(),
        )
        && has_sound_alone(locators, found)
        && is_half_garbage(found, live)
}

/// An extent of these live chunks as a candidate.
fn candidate_of<D: PageSource>(
    alloc: Global,
    found: &ExtentResult<'_, D>,
    live: LiveChunks,
) -> Result<Candidate, OutOfMemory>
    ensures { (checked : List Checked) → AreLiveChunks checked (scanned found.now) live →
        IfOk result (λ c. c ≡ candidate_of checked (scanned found.now)) }
{
    let free = free_bytes(found, live.bytes);
    Candidate::new(alloc, found.extent(), free, live.kept)
}

/// Adds an extent of these live chunks to the candidates, if the sizes of the disk are given and it may be
/// reclaimed.
pub(crate) fn add_reclaimable<D: PageSource>(
    alloc: Global,
    geometry: Option<Geometry>,
    locators: &LocatorIndex,
    found: &ExtentResult<'_, D>,
    live: LiveChunks,
    candidates: &mut Vec<Candidate>,
) -> Result<(), OutOfMemory>
    ensures { (checked : List Checked) → IsLocatorIndex checked locators.now →
        AreLiveChunks checked (scanned found.now) live →
        OnOk result (candidates.new.items ≡
        with_reclaimable geometry checked candidates.old.items (scanned found.now)) }
{
    let Some(geometry) = geometry else {
        return Ok(());
    };
    if !is_reclaimable(geometry, locators, found, live.bytes) {
        return Ok(());
    }
    candidates.push(candidate_of(alloc, found, live)?)?;
    Ok(())
}

/// What candidates are sorted by: what is freed, falling, and then the number.
fn rank_of(one: &Candidate) -> (Reverse<u32>, u32)
    ensures { result ≡ (record { 0 = one.now.free }, one.now.extent) }
{
    (Reverse(one.free()), one.extent())
}

/// Sorts candidates by what is freed, falling, and then by number.
fn sort_by_free(candidates: &mut Vec<Candidate>) -> Result<(), OutOfMemory>
    ensures same { IsPermutation candidates.old.items candidates.new.items }
    ensures sorted { OnOk result (IsSorted by_free candidates.new.items) }
{
    candidates.sort_by_key(|one| rank_of(one))?;
    Ok(())
}

/// Whether it is known which locators the disk has: there is a superblock, and no doubt.
fn knows_locators(plan: &Plan, in_doubt: bool) -> bool
    ensures { result ≡ (plan.now.has_superblock && not in_doubt) }
{
    plan.has_superblock() && !in_doubt
}

/// Those of the extents that may be reclaimed, in their order; none if it isn't known which locators the disk
/// has.
pub(crate) fn candidates_among(
    alloc: Global,
    plan: &Plan,
    in_doubt: bool,
    mut found: Vec<Candidate>,
) -> Result<Vec<Candidate>, OutOfMemory>
    ensures { (all : List Scanned) (checked : List Checked) → IsStrictlyIncreasing (extent_numbers all) →
        found.items ≡ reclaimable plan.now.geometry all checked →
        IfOk result (λ v. AreCandidates plan.now all checked in_doubt v.items) }
{
    if !knows_locators(plan, in_doubt) {
        return Ok(Vec::new(alloc));
    }
    sort_by_free(&mut found)?;
    Ok(found)
}

/// Those of the extents that may be reclaimed, as candidates, in their order.
fn reclaimable_among<D: PageSource>(
    alloc: Global,
    geometry: Geometry,
    locators: &LocatorIndex,
    all: &AllFindings<'_, D>,
) -> Result<Vec<Candidate>, OutOfMemory>
    ensures found { (checked : List Checked) → IsLocatorIndex checked locators.now →
        IfOk result (λ v. v.items ≡ reclaimable geometry all.now.extents checked) }
    // The extents of every value of the type ascend.
    ensures rising { IsStrictlyIncreasing (extent_numbers all.now.extents) }
{
    let mut candidates = Vec::new(alloc);
    for found in all.results() {
        let live = live_chunks(alloc, locators, found)?;
        add_reclaimable(
            alloc,
            Some(geometry),
            locators,
            found,
            live,
            &mut candidates,
        )?;
    }
    Ok(candidates)
}

/// What `candidates` gives, by what the named locators say, and nothing else.
pub fn candidates_by<D: PageSource>(
    alloc: Global,
    plan: &Plan,
    all: &AllFindings<'_, D>,
    locators: &LocatorIndex,
    in_doubt: bool,
) -> Result<Vec<Candidate>, OutOfMemory>
    ensures { (checked : List Checked) → IsLocatorIndex checked locators.now →
        IfOk result (λ v. AreCandidates plan.now all.now.extents checked in_doubt v.items) }
{
    if !knows_locators(plan, in_doubt) {
        return Ok(Vec::new(alloc));
    }
    let mut found = reclaimable_among(alloc, plan.geometry(), locators, all)?;
    sort_by_free(&mut found)?;
    Ok(found)
}

/// The extents that may be reclaimed, by what is freed, falling, and then by number: those that something was
/// written to, all of it readable, that sound locators alone name, and whose live chunks take at most half of
/// it. None without a superblock, and none in doubt: a tie, an unreadable page of extent 0 or a lost run may
/// hide locators.
pub fn candidates<D: PageSource>(
    alloc: Global,
    plan: &Plan,
    all: &AllFindings<'_, D>,
    checked: &[Checked],
    in_doubt: bool,
) -> Result<Vec<Candidate>, OutOfMemory>
    ensures { IfOk result (λ v. AreCandidates plan.now all.now.extents checked.now in_doubt v.items) }
{
    let locators = LocatorIndex::of(alloc, checked)?;
    candidates_by(alloc, plan, all, &locators, in_doubt)
}

/// A law: there is one list of candidates at most.
pub fn one_list_of_candidates()
    ensures { (plan : PlanValue) (all : List Scanned) (checked : List Checked) (in_doubt : Bool)
        (cs ds : List CandidateValue) →
        AreCandidates plan all checked in_doubt cs → AreCandidates plan all checked in_doubt ds → cs ≡ ds }
{}

/// A law: if the statuses are those of a whole scan, each named locator into the extent of a candidate is
/// sound, and the candidate keeps the chunk that it points to.
pub fn candidates_are_safe()
    ensures { (image : Image) (plan : PlanValue) (all : List Scanned) (checked : List Checked) →
        CandidatesAreSafe image plan all checked }
{}

/// A law: there is a list of candidates, if the scanned extents ascend. With `one_list_of_candidates`, there
/// is exactly one.
pub fn each_scan_has_candidates()
    ensures { (plan : PlanValue) (all : List Scanned) (checked : List Checked) (in_doubt : Bool) →
        IsStrictlyIncreasing (extent_numbers all) →
        (candidates : List CandidateValue) × AreCandidates plan all checked in_doubt candidates }
{}
