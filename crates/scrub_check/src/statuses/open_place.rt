//! A place of a disk that has to be read, since no item begins there: the frame that is claimed there, and
//! the frame that is there.

ghost use Rattle.std.specs.Prelude.{◌≡◌, IfOk};
ghost use Rattle.scrub_check.specs.steps.Places.{place_named_by};
ghost use Rattle.scrub_check.specs.steps.Open.{CanBeRead, IsOpen, IsSeenAt, IsClaimSeen, IsReadPlace};
ghost use Rattle.scrub_check.specs.Status.{HasStatusIn};

use crate::places::chunk_at::ChunkAt;
use crate::statuses::extents::{findings_of, has_gap};
use crate::statuses::status::{Status, status_by_claim, status_by_frame};
use crate::statuses::whole_scan::WholeScan;
use scrub_disk::{OutOfMemory, PageSource};
use scrub_frame::{Head, Locator};
use scrub_scan::{Standing, claimed_frame, frame_stands};
use std::alloc::Global;

/// The head of the frame that is claimed at a place, if all bytes of the frame can be read. No payload is
/// hashed.
fn claim_at<D: PageSource>(
    alloc: Global,
    scan: &WholeScan<'_, D>,
    place: ChunkAt,
) -> Result<Option<Head>, OutOfMemory>
    requires { CanBeRead (D.image scan.now.disk.now) scan.now.plan.now place }
    ensures { IfOk result (IsClaimSeen (D.image scan.now.disk.now) scan.now.plan.now place) }
{
    let pointer = scan.plan.pointer(place.extent);
    let bad_pages = findings_of(scan.all, place.extent).bad_pages();
    let claimed = claimed_frame(alloc, scan.disk, pointer, place.extent, place.offset)?;
    let Some(head) = claimed else {
        return Ok(None);
    };
    if has_gap(scan.disk, bad_pages, place.offset, head.frame_bytes()) {
        return Ok(None);
    }
    Ok(Some(head))
}

/// The frame that is at a place. Its payload is hashed.
fn frame_at<D: PageSource>(
    alloc: Global,
    scan: &WholeScan<'_, D>,
    place: ChunkAt,
) -> Result<Option<Standing>, OutOfMemory>
    requires { CanBeRead (D.image scan.now.disk.now) scan.now.plan.now place }
    ensures { IfOk result (IsSeenAt (D.image scan.now.disk.now) scan.now.plan.now place) }
{
    let pointer = scan.plan.pointer(place.extent);
    frame_stands(alloc, scan.disk, pointer, place.extent, place.offset)
}

/// A place, and what was read there.
#[derive(Clone, Copy)]
pub(crate) struct OpenPlace {
    /// The place.
    pub place: ChunkAt,
    /// The head of the frame that is claimed there.
    claimed: Option<Head>,
    /// Whether its payload was hashed.
    is_hashed: bool,
    /// The frame there, once it was.
    frame: Option<Standing>,
}

impl OpenPlace {
    /// Reads what is claimed at a place.
    pub fn read<D: PageSource>(
        alloc: Global,
        scan: &WholeScan<'_, D>,
        place: ChunkAt,
    ) -> Result<OpenPlace, OutOfMemory>
        requires { CanBeRead (D.image scan.now.disk.now) scan.now.plan.now place }
        ensures read { IfOk result (IsReadPlace (D.image scan.now.disk.now) scan.now.plan.now) }
        ensures place { IfOk result (λ one. one.place ≡ place) }
    {
        let claimed = claim_at(alloc, scan, place)?;
        Ok(OpenPlace {
            place,
            claimed,
            is_hashed: false,
            frame: None,
        })
    }

    /// The status of a locator of this place that the findings don't decide: by what is claimed there, or
    /// else by the frame there.
    pub fn status<D: PageSource>(
        &mut self,
        alloc: Global,
        scan: &WholeScan<'_, D>,
        locator: &Locator,
    ) -> Result<Status, OutOfMemory>
        requires left { IsOpen (D.image scan.now.disk.now) scan.now.plan.now locator.now }
        requires there { self.old.place ≡ place_named_by locator.now }
        requires read { IsReadPlace (D.image scan.now.disk.now) scan.now.plan.now self.old }
        ensures status { IfOk result (HasStatusIn (D.image scan.now.disk.now) scan.now.plan.now locator.now) }
        ensures read { IsReadPlace (D.image scan.now.disk.now) scan.now.plan.now self.new }
        ensures place { self.new.place ≡ self.old.place }
    {
        if let Some(status) = status_by_claim(locator, self.claimed) {
            return Ok(status);
        }
        if !self.is_hashed {
            self.frame = frame_at(alloc, scan, self.place)?;
            self.is_hashed = true;
        }
        Ok(status_by_frame(locator, self.frame, Status::Hidden))
    }
}
