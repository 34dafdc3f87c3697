//! All that follows from which chunks are live, at once: for a report that lists all of it.

ghost use Rattle.std.specs.Prelude.{◌≡◌, IfOk, List, map};
ghost use Rattle.scrub_check.specs.declared.statuses.checked.Checked.{Checked};
ghost use Rattle.scrub_check.specs.steps.LocatorIndex.{IsLocatorIndex};
ghost use Rattle.scrub_check.specs.Live.{live_bytes};
ghost use Rattle.scrub_check.specs.Chunks.{orphans};
ghost use Rattle.scrub_check.specs.Shared.{AreShared};
ghost use Rattle.scrub_check.specs.Candidates.{AreCandidates};

use crate::lists::candidate::Candidate;
use crate::lists::live_and_orphans::part_chunks;
use crate::lists::locator_index::LocatorIndex;
use crate::lists::place::{Place, SharedPlace};
use crate::lists::reclaiming::candidates_among;
use crate::lists::shared_places::shared_by;
use scrub_disk::{OutOfMemory, PageSource};
use scrub_scan::AllFindings;
use scrub_super::Plan;
use std::alloc::Global;

/// What follows from which chunks of a disk are live.
#[derive(Drop)]
pub struct Liveness {
    /// How many bytes the live chunks of each scanned extent take, in the order of the extents.
    pub live: Vec<u32>,
    /// The chunks that no sound locator points to, by extent and then start.
    pub orphans: Vec<Place>,
    /// The places that two sound locators or more point to, by extent and then byte.
    pub shared: Vec<SharedPlace>,
    /// The extents that may be reclaimed, by what is freed, falling, and then by number.
    pub candidates: Vec<Candidate>,
}

/// The live bytes of each extent, and what `orphans`, `shared` and `candidates` give, together, by what the
/// named locators say. The places that sound ones point to are walked once beside the items of the extents,
/// so that each chunk is visited once.
pub fn liveness_by<D: PageSource>(
    alloc: Global,
    plan: &Plan,
    all: &AllFindings<'_, D>,
    locators: &LocatorIndex,
    in_doubt: bool,
) -> Result<Liveness, OutOfMemory>
    ensures live { (checked : List Checked) → IsLocatorIndex checked locators.now →
        IfOk result (λ l. l.live.items ≡ map (live_bytes checked) all.now.extents) }
    ensures orphans { (checked : List Checked) → IsLocatorIndex checked locators.now →
        IfOk result (λ l. l.orphans.items ≡ orphans all.now.extents checked) }
    ensures shared { (checked : List Checked) → IsLocatorIndex checked locators.now →
        IfOk result (λ l. AreShared checked l.shared.items) }
    ensures candidates { (checked : List Checked) → IsLocatorIndex checked locators.now →
        IfOk result (λ l. AreCandidates plan.now all.now.extents checked in_doubt l.candidates.items) }
{
    let parted = part_chunks(alloc, Some(plan.geometry()), locators, all)?;
    Ok(Liveness {
        live: parted.live,
        orphans: parted.orphans,
        shared: shared_by(alloc, &locators.sound)?,
        candidates: candidates_among(alloc, plan, in_doubt, parted.reclaimable)?,
    })
}
