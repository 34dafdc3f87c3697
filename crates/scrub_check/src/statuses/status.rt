//! The status of a locator: whether the chunk that it names is at its place.

ghost use Rattle.std.specs.Prelude.{◌≡◌, ◌≤◌, ◌<◌, ◌+◌, ◌↔◌, ℕ, Some, IfOk, IsTrue, MatchOption, map};
ghost use Rattle.std.specs.List.Sorted.{IsStrictlyIncreasing};
ghost use Rattle.scrub_disk.specs.Image.{Image, unreadable_pages};
ghost use Rattle.scrub_super.specs.Plan.{PlanValue};
ghost use Rattle.scrub_check.specs.WholeScan.{IsWholeScan};
ghost use Rattle.scrub_check.specs.Status.{end_of, InRange, HasUnreadableByte, CanStand, HasStatus};
ghost use Rattle.scrub_check.specs.Status.{HasStatusIn, ExactlyOne};
ghost use Rattle.scrub_check.specs.declared.statuses.status.Status.{Status};
ghost use Rattle.scrub_check.specs.steps.StatusByFrame.{IsOther, IsMismatch, Agrees, IsStatusByFrame};
ghost use Rattle.scrub_check.specs.steps.StatusByFrame.{IsStatusByClaim};
ghost use Rattle.scrub_scan.specs.Extent.{extent_of};
ghost use Rattle.scrub_scan.specs.Item.{start_of};
ghost use Rattle.scrub_scan.specs.Tiling.{IsTiling};
ghost use Rattle.scrub_check.specs.steps.Open.{IsStatusByItems, IsStatusByFindings};

use crate::places::chunk_at::ChunkAt;
use crate::places::item_frames::frame_of_item;
use crate::statuses::extents::{findings_of, has_gap};
use crate::statuses::open_place::OpenPlace;
use crate::statuses::searching::find_near;
use crate::statuses::whole_scan::WholeScan;
use scrub_disk::{Geometry, OutOfMemory, PageSource};
use scrub_frame::{Form, Head, LEAST_OVERHEAD, Locator};
use scrub_scan::{AllFindings, Item, Standing};
use scrub_super::Plan;
use std::alloc::Global;
use uuid::Uuid;

/// The status of a locator: the first of these that applies.
#[derive(Debug, Clone, Copy, PartialEq, Eq)]
pub enum Status {
    /// Its extent is 0 or isn't in the disk, or the least frame of its payload would end past the extent.
    OutOfRange,
    /// Its extent is retired, whatever is there.
    Retired,
    /// The least frame of its payload would end past the write pointer.
    PastPointer,
    /// A page with a byte of the least frame of its payload is unreadable.
    Unreadable,
    /// No frame of either form is at its place.
    NoFrame,
    /// The frame there has another UUID.
    WrongUuid,
    /// The payload there has another length.
    WrongLength,
    /// The payload there has another SHA-256.
    WrongDigest,
    /// The chunk is there, but the tiling stepped past it: no item begins at its place.
    Hidden,
    /// The chunk is there, and an item of the tiling begins at its place.
    Sound,
}

impl Status {
    ghost use Rattle.scrub_check.specs.Checked.{is_sound, is_hidden, is_dangling};

    /// The chunk is there, and an item begins at its place.
    pub fn is_sound(self) -> bool
        ensures { result ≡ is_sound self }
    {
        matches!(self, Status::Sound)
    }

    /// The chunk is there, and no item begins at its place.
    pub fn is_hidden(self) -> bool
        ensures { result ≡ is_hidden self }
    {
        matches!(self, Status::Hidden)
    }

    /// The chunk isn't there.
    pub fn is_dangling(self) -> bool
        ensures { result ≡ is_dangling self }
    {
        !matches!(self, Status::Sound | Status::Hidden)
    }
}

/// The least byte of the extent at which the frame that a locator names would end: a locator doesn't say the
/// form.
fn end_of(locator: &Locator) -> u64
    ensures { result ≡ end_of locator.now }
{
    locator.offset as u64 + locator.length as u64 + LEAST_OVERHEAD as u64
}

/// Whether the frame that a locator names would lie in one of the extents that chunks are written to.
fn lies_in_range(geometry: Geometry, locator: &Locator) -> bool
    ensures { IsTrue result ↔ InRange geometry locator.now }
{
    locator.extent >= 1
        && locator.extent < geometry.extents()
        && end_of(locator) <= geometry.extent_bytes() as u64
}

/// Why a frame of this UUID and this length isn't the one that a locator names, or `None` if both are the
/// locator's.
fn difference(locator: &Locator, uuid: Uuid, length: u32) -> Option<Status>
    ensures { MatchOption result ((uuid ≡ locator.now.uuid) × (length ≡ locator.now.length))
        (IsOther locator.now uuid length) }
{
    if uuid != locator.uuid {
        return Some(Status::WrongUuid);
    }
    if length != locator.length {
        return Some(Status::WrongLength);
    }
    None
}

/// Why a frame isn't the one that a locator names, or `None` if it is.
fn mismatch(locator: &Locator, standing: &Standing) -> Option<Status>
    ensures { MatchOption result (Agrees locator.now standing.now) (IsMismatch locator.now standing.now) }
{
    if let Some(status) = difference(locator, standing.uuid, standing.length) {
        return Some(status);
    }
    if standing.digest != locator.digest {
        return Some(Status::WrongDigest);
    }
    None
}

/// The status of a locator by the frame at its place, or by none: `agreeing` if it is the one that the
/// locator names.
pub(crate) fn status_by_frame(
    locator: &Locator,
    standing: Option<Standing>,
    agreeing: Status,
) -> Status
    ensures { IsStatusByFrame locator.now standing agreeing result }
{
    let Some(standing) = standing else {
        return Status::NoFrame;
    };
    match mismatch(locator, &standing) {
        Some(status) => status,
        None => agreeing,
    }
}

/// Whether a byte of the frame that a locator names can't be read, by the unreadable pages of its extent.
fn is_unreadable<D: PageSource>(disk: &D, bad_pages: &[u32], locator: &Locator) -> bool
    requires in_range { InRange (D.image disk.now).geometry locator.now }
    requires pages { bad_pages.now ≡ unreadable_pages (D.image disk.now) locator.now.extent }
    ensures { IsTrue result ↔ HasUnreadableByte (D.image disk.now) locator.now }
{
    let size = locator.length as u64 + LEAST_OVERHEAD as u64;
    has_gap(disk, bad_pages, locator.offset, size)
}

/// The status of a locator whose frame would be on readable pages, by the item that begins at its place;
/// `None` if none does. The item is looked for from the index `near` on first.
fn status_by_item(items: &[Item], locator: &Locator, near: usize) -> Option<Status>
    requires { IsStrictlyIncreasing (map start_of items.now) }
    ensures { (image : Image) (w : ℕ) → CanStand image w locator.now →
        IsTiling (extent_of image locator.now.extent w) items.now →
        IsStatusByItems image w locator.now result }
{
    if let Some(i) = find_near(items, locator.offset, near) {
        let standing = frame_of_item(locator.extent, &items[i]);
        return Some(status_by_frame(locator, standing, Status::Sound));
    }
    None
}

/// The status of a locator by the findings; `None` if its place has to be read. The item at its place is
/// looked for from the index `near` on first.
pub(crate) fn status_by_findings<D: PageSource>(
    scan: &WholeScan<'_, D>,
    locator: &Locator,
    near: usize,
) -> Option<Status>
    ensures { IsStatusByFindings (D.image scan.now.disk.now) scan.now.plan.now locator.now result }
{
    let geometry = scan.plan.geometry();
    if !lies_in_range(geometry, locator) {
        return Some(Status::OutOfRange);
    }
    if scan.plan.is_retired(locator.extent) {
        return Some(Status::Retired);
    }
    let pointer = scan.plan.pointer(locator.extent);
    if end_of(locator) > pointer as u64 {
        return Some(Status::PastPointer);
    }
    let findings = findings_of(scan.all, locator.extent);
    if is_unreadable(scan.disk, findings.bad_pages(), locator) {
        return Some(Status::Unreadable);
    }
    status_by_item(findings.items(), locator, near)
}

/// The status of a locator by what is claimed at its place; `None` if the payload has to be hashed. A sealed
/// frame has to be hashed to see whether it is one at all.
pub(crate) fn status_by_claim(locator: &Locator, claimed: Option<Head>) -> Option<Status>
    ensures { IsStatusByClaim locator.now claimed result }
{
    let Some(head) = claimed else {
        return Some(Status::NoFrame);
    };
    match head.form {
        Form::Plain => difference(locator, head.uuid, head.length),
        Form::Sealed => None,
    }
}

/// The status of a locator in the image of a disk: the first of the table that applies. Its place is judged
/// as those of all locators are: the disk is read only if no item that was found begins there.
pub fn status_of<D: PageSource>(
    alloc: Global,
    disk: &D,
    plan: &Plan,
    all: &AllFindings<'_, D>,
    locator: &Locator,
) -> Result<Status, OutOfMemory>
    requires { IsWholeScan (D.image disk.now) plan.now all.now.extents }
    ensures { IfOk result (HasStatusIn (D.image disk.now) plan.now locator.now) }
{
    let scan = WholeScan { disk, plan, all };
    match status_by_findings(&scan, locator, 0) {
        Some(status) => Ok(status),
        None => OpenPlace::read(alloc, &scan, ChunkAt::named_by(locator))?.status(
            alloc, &scan, locator,
        ),
    }
}

/// A law: at most one status applies to a locator, under a write pointer and by a plan, and it can't be that
/// none does. So only the image and the pointer of its extent decide the status.
pub fn one_status()
    ensures under_pointer { (image : Image) (w : ℕ) (locator : Locator) →
        ExactlyOne (HasStatus image w locator) }
    ensures in_plan { (image : Image) (plan : PlanValue) (locator : Locator) →
        ExactlyOne (HasStatusIn image plan locator) }
{}

/// A law: each locator has a status, under a write pointer and by a plan. With `one_status`, it has exactly
/// one.
pub fn each_locator_has_a_status()
    ensures under_pointer { (image : Image) (w : ℕ) (locator : Locator) →
        (status : Status) × HasStatus image w locator status }
    ensures in_plan { (image : Image) (plan : PlanValue) (locator : Locator) →
        (status : Status) × HasStatusIn image plan locator status }
{}
