//! Outer frames of extents, found without their write pointers, and the index runs among them. A run that
//! only bytes within another frame spell isn't found: whoever stores a shard could put it there.

ghost use Rattle.std.specs.Prelude.{◌≡◌, ◌≤◌, ◌<◌, ◌∷◌, ◌++◌, [], ℕ, Bool, false, All, List, IfOk, IfNone};
ghost use Rattle.std.specs.Prelude.{IfSome, OnOk, length, take};
ghost use Rattle.std.specs.List.{list_all};
ghost use Rattle.std.specs.List.Sorted.{IsStrictlyIncreasing};
ghost use Rattle.scrub_disk.specs.Image.{Image};
ghost use Rattle.scrub_frame.specs.Locator.{IsLocator};
ghost use Rattle.scrub_run.specs.Entry.{EntryValue};
ghost use Rattle.scrub_run.specs.Run.{IsRun, run_magic};
ghost use Rattle.scrub_scan.specs.declared.standing.Standing.{Standing};
ghost use Rattle.scrub_scan.specs.Extent.{FrameAt, NoFrameAt};
ghost use Rattle.scrub_loose.specs.Outer.{AreOuterFrames, IsFoundRun};
ghost use Rattle.scrub_loose.specs.Outer.{IsRunThere, locator_of};
ghost use Rattle.scrub_loose.specs.declared.outer.FoundRun.{FoundRun};
ghost use Rattle.scrub_frame.specs.declared.locator.Locator.{Locator};
ghost use Rattle.scrub_loose.specs.steps.Held.{IsHeld, extent_held};
ghost use Rattle.scrub_loose.specs.steps.Search.{IsFrameHere, IsFrameIn};
ghost use Rattle.scrub_loose.specs.steps.Walk.{AreExtentsBut, AreRunsBefore, AreRunsIn, AreWalked};
ghost use Rattle.scrub_loose.specs.steps.Walk.{IsRunFrameIn, IsWalked};

use crate::claims::{claim_at, frame_of_claim};
use crate::held::HeldExtent;
use rayon::prelude::*;
use scrub_disk::{OutOfMemory, PageSource};
use scrub_frame::Locator;
use scrub_run::{RunFault, read_run};
use scrub_scan::Standing;
use std::alloc::Global;
use std::marker::Model;
use std::thread::Threads;

/// The magic that each run begins with, `RUN1`.
const RUN_MAGIC: [u8; 4] = [0x52, 0x55, 0x4E, 0x31];

/// An index run on a disk.
#[derive(Debug, Clone, Copy, PartialEq, Eq)]
pub struct FoundRun {
    /// The frame whose payload it is.
    pub frame: Standing,
    /// How many entries it has.
    pub entries: usize,
}

// ---- at a place

/// The frame at a place of an extent, if there is one.
fn frame_at(inside: &HeldExtent, extent: u32, place: usize) -> Option<Standing>
    requires held { IsHeld inside.now }
    requires place { place < length inside.now.bytes.items }
    ensures found { IfSome result (IsFrameHere (extent_held inside.now) extent place) }
    ensures none { IfNone result (NoFrameAt (extent_held inside.now) place) }
{
    let head = claim_at(inside, place)?;
    frame_of_claim(inside, extent, place, &head)
}

/// The payload of a frame that is at its place.
fn payload_of<'e>(inside: &'e HeldExtent, frame: &Standing) -> &'e [u8]
    requires held { IsHeld inside.now }
    requires stands { IsFrameIn (extent_held inside.now) frame.now }
    ensures { (payload : List ℕ) →
        FrameAt (extent_held inside.now) frame.now.offset frame.now.form frame.now.uuid payload →
        result.now ≡ payload }
{
    let start = frame.offset as usize + frame.form.payload_start();
    &inside.bytes[start..start + frame.length as usize]
}

/// Whether bytes begin as each index run does.
fn begins_like_run(payload: &[u8]) -> bool
    ensures { result ≡ false → ¬ (take 4 payload.now ≡ run_magic) }
{
    payload.starts_with(&RUN_MAGIC)
}

/// How many entries the index run has that fills a payload, if the payload is one. Few that aren't are
/// hashed.
fn entries_in(alloc: Global, payload: &[u8]) -> Result<Option<usize>, OutOfMemory>
    ensures found { IfOk result (λ found. IfSome found (λ n. (entries : List EntryValue) ×
        IsRun payload.now entries × (n ≡ length entries))) }
    ensures none { IfOk result (λ found. IfNone found ((entries : List EntryValue) →
        ¬ IsRun payload.now entries)) }
{
    if !begins_like_run(payload) {
        return Ok(None);
    }
    match read_run(alloc, payload) {
        Ok(run) => Ok(Some(run.entries().len())),
        Err(RunFault::NotARun) => Ok(None),
        Err(RunFault::OutOfMemory) => Err(OutOfMemory),
    }
}

/// The index run in a frame that is at its place, if its payload is one.
fn run_in(
    alloc: Global,
    inside: &HeldExtent,
    frame: &Standing,
) -> Result<Option<FoundRun>, OutOfMemory>
    requires held { IsHeld inside.now }
    requires stands { IsFrameIn (extent_held inside.now) frame.now }
    ensures same { IfOk result (λ found. IfSome found (λ r. r.frame ≡ frame.now)) }
    ensures run { IfOk result (λ found. IfSome found (λ r.
        IsRunFrameIn (extent_held inside.now) frame.now r.entries)) }
    ensures none { IfOk result (λ found. IfNone found ((n : ℕ) →
        ¬ IsRunFrameIn (extent_held inside.now) frame.now n)) }
{
    match entries_in(alloc, payload_of(inside, frame))? {
        Some(entries) => Ok(Some(FoundRun {
            frame: *frame,
            entries,
        })),
        None => Ok(None),
    }
}

// ---- in an extent

/// Takes the outer frame at a place of an extent, or one byte if there is none, adds the index run in it, and
/// returns the place behind.
fn step_on(
    alloc: Global,
    inside: &HeldExtent,
    extent: u32,
    place: usize,
    found: &mut Vec<FoundRun>,
) -> Result<usize, OutOfMemory>
    requires held { IsHeld inside.now }
    requires place { place < length inside.now.bytes.items }
    ensures on { IfOk result (λ next. place < next) }
    ensures within { IfOk result (λ next. next ≤ length inside.now.bytes.items) }
    ensures found { IfOk result (λ next.
        AreRunsBefore (extent_held inside.now) extent place found.old.items →
        AreRunsBefore (extent_held inside.now) extent next found.new.items) }
{
    let Some(frame) = frame_at(inside, extent, place) else {
        return Ok(place + 1);
    };
    let next = place + frame.length as usize + frame.form.overhead();
    match run_in(alloc, inside, &frame)? {
        Some(run) => {
            found.push(run)?;
            Ok(next)
        }
        None => Ok(next),
    }
}

/// The index runs among the outer frames of an extent, ascending.
fn runs_in(alloc: Global, inside: &HeldExtent, extent: u32) -> Result<Vec<FoundRun>, OutOfMemory>
    requires { IsHeld inside.now }
    ensures { IfOk result (λ v.
        AreRunsBefore (extent_held inside.now) extent (length inside.now.bytes.items) v.items) }
{
    let mut found = Vec::new(alloc);
    let mut place = 0;
    while place < inside.bytes.len() {
        place = step_on(alloc, inside, extent, place, &mut found)?;
    }
    Ok(found)
}

// ---- in extents

/// What was found in an extent.
#[derive(Drop)]
pub(crate) struct Walked {
    /// The index runs among its outer frames, ascending.
    pub runs: Vec<FoundRun>,
    /// Whether each of its pages can be read.
    pub is_readable: bool,
}

impl Model for Walked {
    ghost use Rattle.scrub_loose.specs.steps.Walk.{WalkedValue};

    ghost Value = { WalkedValue };

    ghost view = { λ w. record { runs = w.runs.items; is_readable = w.is_readable } };
}

impl Walked {
    /// The index runs.
    fn runs(&self) -> &[FoundRun]
        ensures { result.now ≡ self.now.runs }
    {
        self.runs.as_slice()
    }
}

/// What is found in an extent of a disk. Its pages are read once.
fn walk_extent<D: PageSource>(alloc: Global, disk: &D, extent: u32) -> Result<Walked, OutOfMemory>
    requires in_disk { extent < (D.image disk.now).geometry.extents }
    ensures { IfOk result (IsWalked (D.image disk.now) extent) }
{
    let inside = HeldExtent::read(alloc, disk, extent)?;
    let runs = runs_in(alloc, &inside, extent)?;
    Ok(Walked {
        runs,
        is_readable: inside.is_whole(),
    })
}

/// All extents of a disk of so many but the first one, ascending.
fn extents_but_first(alloc: Global, extents: u32) -> Result<Vec<u32>, OutOfMemory>
    requires { 1 ≤ extents }
    ensures { IfOk result (λ v. AreExtentsBut extents v.items) }
{
    let mut all = Vec::new(alloc);
    for extent in 1..extents {
        all.push(extent)?;
    }
    Ok(all)
}

/// What is found in each of these extents, in their order, by the caller and at most this many threads beside
/// it.
fn walk_each<R: Threads + Sync, D: PageSource>(
    rt: &R,
    alloc: Global,
    disk: &D,
    extents: &[u32],
    workers: u32,
) -> Result<Vec<Walked>, OutOfMemory>
    requires in_disk { All (λ e. e < (D.image disk.now).geometry.extents) extents.now }
    ensures { IfOk result (λ v. AreWalked (D.image disk.now) extents.now v.items) }
{
    extents
        .par_iter()
        .with_min_len(extents.len().div_ceil(workers as usize + 1))
        .map(
            |extent: &u32| -> Result<Walked, OutOfMemory>
                requires in_disk { extent.now < (D.image disk.now).geometry.extents }
                ensures { IfOk result (IsWalked (D.image disk.entry.now) extent.now) }
            { walk_extent(alloc, disk, *extent) },
        )
        .collect::<Result<Vec<Walked>, OutOfMemory>>(rt, alloc)?
}

/// The index runs of extents, one behind the other, which ascend.
pub(crate) fn runs_of(alloc: Global, each: &[Walked]) -> Result<Vec<FoundRun>, OutOfMemory>
    ensures { (image : Image) (es : List ℕ) → IsStrictlyIncreasing es →
        AreWalked image es each.now → IfOk result (λ v. AreRunsIn image es v.items) }
{
    let mut all = Vec::new(alloc);
    for walked in each {
        all.extend_from_slice(walked.runs())?;
    }
    Ok(all)
}

/// Whether each page of extents can be read.
pub(crate) fn are_readable(each: &[Walked]) -> bool
    ensures { result ≡ list_all (λ w. w.is_readable) each.now }
{
    each.iter().all(|walked| walked.is_readable)
}

/// What is found in each extent of a disk but extent 0, ascending. Each is read once, by the caller and at
/// most this many threads beside it, each of which holds one at a time.
pub(crate) fn walk_disk<R: Threads + Sync, D: PageSource>(
    rt: &R,
    alloc: Global,
    disk: &D,
    workers: u32,
) -> Result<Vec<Walked>, OutOfMemory>
    ensures { IfOk result (λ v. (es : List ℕ) × AreExtentsBut (D.image disk.now).geometry.extents es ×
        AreWalked (D.image disk.now) es v.items) }
{
    let extents = extents_but_first(alloc, disk.geometry().extents)?;
    walk_each(rt, alloc, disk, &extents, workers)
}

// ---- at a place of a disk

/// The locator that a superblock lists for a frame.
pub fn locator_of(frame: &Standing) -> Locator
    ensures { result ≡ locator_of frame.now }
{
    Locator {
        extent: frame.extent,
        offset: frame.offset,
        length: frame.length,
        uuid: frame.uuid,
        digest: frame.digest,
    }
}

/// The locator of the index run at a place of an extent, if one is there: a frame, wherever the write pointer
/// is and whether it begins within another frame or not, whose payload is a run.
pub fn run_at<D: PageSource>(
    alloc: Global,
    disk: &D,
    extent: u32,
    offset: u32,
) -> Result<Option<Locator>, OutOfMemory>
    requires in_disk { extent < (D.image disk.now).geometry.extents }
    ensures found { IfOk result (λ found. IfSome found (IsRunThere (D.image disk.now) extent offset)) }
    ensures in_range { IfOk result (λ found. IfSome found IsLocator) }
    ensures none { IfOk result (λ found. IfNone found ((l : Locator) →
        ¬ IsRunThere (D.image disk.now) extent offset l)) }
{
    let inside = HeldExtent::read(alloc, disk, extent)?;
    let place = offset as usize;
    if place >= inside.bytes.len() {
        return Ok(None);
    }
    let Some(frame) = frame_at(&inside, extent, place) else {
        return Ok(None);
    };
    match run_in(alloc, &inside, &frame)? {
        Some(_) => Ok(Some(locator_of(&frame))),
        None => Ok(None),
    }
}

// ---- laws

/// A law: an extent has one list of outer frames.
pub fn one_list_of_outer_frames()
    ensures { (image : Image) (e : ℕ) (frames others : List Standing) → AreOuterFrames image e frames →
        AreOuterFrames image e others → frames ≡ others }
{}

/// A law: each extent has it.
pub fn each_extent_has_outer_frames()
    ensures { (image : Image) (e : ℕ) → (frames : List Standing) × AreOuterFrames image e frames }
{}

/// A law: at the place of a found run is one, with the locator of its frame; and no other one is there.
pub fn a_found_run_is_there()
    ensures there { (image : Image) (r : FoundRun) → IsFoundRun image r →
        IsRunThere image r.frame.extent r.frame.offset (locator_of r.frame) }
    ensures one { (image : Image) (extent offset : ℕ) (l m : Locator) → IsRunThere image extent offset l →
        IsRunThere image extent offset m → l ≡ m }
{}
