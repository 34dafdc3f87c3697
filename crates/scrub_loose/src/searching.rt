//! Searches extents for loose frames whose payloads are asked for, at each of their bytes.

ghost use Rattle.std.specs.Prelude.{◌≡◌, ◌<◌, ◌++◌, ◌∷◌, [], ℕ, Bool, List, All, IfOk, IfNone, IfSome, OnOk};
ghost use Rattle.std.specs.Prelude.{length, true, false};
ghost use Rattle.std.specs.List.Sorted.{IsStrictlyIncreasing};
ghost use Rattle.scrub_disk.specs.Image.{Image};
ghost use Rattle.scrub_scan.specs.declared.standing.Standing.{Standing};
ghost use Rattle.scrub_check.specs.Spares.{is_wanted};
ghost use Rattle.scrub_super.specs.Planned.{ArePlanned};
ghost use Rattle.scrub_loose.specs.Anywhere.{IsReadableClaim};
ghost use Rattle.scrub_loose.specs.steps.Held.{IsHeld, extent_held};
ghost use Rattle.scrub_loose.specs.steps.Asked.{IsAsked};
ghost use Rattle.scrub_loose.specs.steps.Search.{AreFoundIn, AreFoundInEach, AreFramesBefore, IsFrameHere};
ghost use Rattle.scrub_loose.specs.steps.Search.{searched};

use crate::asked::Asked;
use crate::claims::{claim_at, frame_of_claim, is_crowded};
use crate::held::HeldExtent;
use rayon::prelude::*;
use scrub_disk::{OutOfMemory, PageSource};
use scrub_frame::Head;
use scrub_scan::Standing;
use std::alloc::Global;
use std::marker::Model;
use std::thread::Threads;

/// What was found in some extents.
#[derive(Drop)]
pub(crate) struct Found {
    /// The frames whose payloads are asked for, by extent and then offset.
    pub frames: Vec<Standing>,
    /// The crowded extents, ascending.
    pub crowded: Vec<u32>,
}

impl Model for Found {
    ghost use Rattle.scrub_loose.specs.Loose.{LooseValue};

    ghost Value = { LooseValue };

    ghost view = { λ f. record { frames = f.frames.items; crowded = f.crowded.items } };
}

/// The frame that is claimed at a place, if it is there and its payload is asked for. It is hashed only if
/// its length is asked for.
fn frame_if_asked(
    inside: &HeldExtent,
    extent: u32,
    place: usize,
    head: &Head,
    asked: &Asked,
) -> Option<Standing>
    requires held { IsHeld inside.now }
    requires claim { IsReadableClaim (extent_held inside.now) place head.now }
    requires asked { IsAsked asked.now }
    ensures found { IfSome result (IsFrameHere (extent_held inside.now) extent place) }
    ensures passes { IfSome result (λ s. is_wanted asked.now.contents.items s ≡ true) }
    ensures none { IfNone result ((s : Standing) → IsFrameHere (extent_held inside.now) extent place s →
        is_wanted asked.now.contents.items s ≡ false) }
{
    if !asked.has_length(head.length) {
        return None;
    }
    let frame = frame_of_claim(inside, extent, place, head)?;
    if !asked.has_payload(&frame) {
        return None;
    }
    Some(frame)
}

/// The frame at a place of an extent, if there is one and its payload is asked for.
fn asked_at(inside: &HeldExtent, extent: u32, place: usize, asked: &Asked) -> Option<Standing>
    requires held { IsHeld inside.now }
    requires place { place < length inside.now.bytes.items }
    requires asked { IsAsked asked.now }
    ensures found { IfSome result (IsFrameHere (extent_held inside.now) extent place) }
    ensures passes { IfSome result (λ s. is_wanted asked.now.contents.items s ≡ true) }
    ensures none { IfNone result ((s : Standing) → IsFrameHere (extent_held inside.now) extent place s →
        is_wanted asked.now.contents.items s ≡ false) }
{
    let head = claim_at(inside, place)?;
    frame_if_asked(inside, extent, place, &head, asked)
}

/// The frames of an extent whose payloads are asked for, ascending.
fn frames_asked(
    alloc: Global,
    inside: &HeldExtent,
    extent: u32,
    asked: &Asked,
) -> Result<Vec<Standing>, OutOfMemory>
    requires held { IsHeld inside.now }
    requires asked { IsAsked asked.now }
    ensures { IfOk result (λ v. AreFramesBefore (is_wanted asked.now.contents.items)
        (extent_held inside.now) extent (length inside.now.bytes.items) v.items) }
{
    let mut frames = Vec::new(alloc);
    for place in 0..inside.bytes.len() {
        match asked_at(inside, extent, place, asked) {
            Some(frame) => frames.push(frame)?,
            None => {}
        }
    }
    Ok(frames)
}

/// What is found in an extent. Its pages are read once. Of a crowded one nothing is hashed, of another one no
/// more than four times as many bytes as it has.
fn search_extent<D: PageSource>(
    alloc: Global,
    disk: &D,
    extent: u32,
    asked: &Asked,
) -> Result<Found, OutOfMemory>
    requires in_disk { extent < (D.image disk.now).geometry.extents }
    requires asked { IsAsked asked.now }
    ensures { IfOk result
        (AreFoundIn (is_wanted asked.now.contents.items) (D.image disk.now) (extent ∷ [])) }
{
    let inside = HeldExtent::read(alloc, disk, extent)?;
    if is_crowded(&inside) {
        return Found::crowd(alloc, extent);
    }
    let frames = frames_asked(alloc, &inside, extent, asked)?;
    Ok(Found {
        frames,
        crowded: Vec::new(alloc),
    })
}

/// The same for each of these extents, in their order. Several threads search them.
fn search_each<R: Threads + Sync, D: PageSource>(
    rt: &R,
    alloc: Global,
    disk: &D,
    extents: &[u32],
    asked: &Asked,
) -> Result<Vec<Found>, OutOfMemory>
    requires in_disk { All (λ e. e < (D.image disk.now).geometry.extents) extents.now }
    requires asked { IsAsked asked.now }
    ensures { IfOk result (λ v. AreFoundInEach (is_wanted asked.now.contents.items) (D.image disk.now)
        extents.now v.items) }
{
    extents
        .par_iter()
        .with_min_len(1)
        .map(
            |extent: &u32| -> Result<Found, OutOfMemory>
                requires in_disk { extent.now < (D.image disk.now).geometry.extents }
                requires asked { IsAsked asked.now }
                ensures { IfOk result
                    (AreFoundIn (is_wanted asked.entry.now.contents.items) (D.image disk.entry.now)
                    (extent.now ∷ [])) }
            { search_extent(alloc, disk, *extent, asked) },
        )
        .collect::<Result<Vec<Found>, OutOfMemory>>(rt, alloc)?
}

impl Found {
    /// Nothing yet.
    pub(crate) fn none(alloc: Global) -> Found
        ensures { result ≡ record { frames = []; crowded = [] } }
    {
        Found {
            frames: Vec::new(alloc),
            crowded: Vec::new(alloc),
        }
    }

    /// A crowded extent, and no frame.
    fn crowd(alloc: Global, extent: u32) -> Result<Found, OutOfMemory>
        ensures { IfOk result (λ f. f ≡ record { frames = []; crowded = extent ∷ [] }) }
    {
        let mut crowded = Vec::new(alloc);
        crowded.push(extent)?;
        Ok(Found {
            frames: Vec::new(alloc),
            crowded,
        })
    }

    /// Adds what was found behind it.
    fn add(&mut self, later: &Found) -> Result<(), OutOfMemory>
        ensures frames { OnOk result (self.new.frames ≡ self.old.frames ++ later.now.frames) }
        ensures crowded { OnOk result (self.new.crowded ≡ self.old.crowded ++ later.now.crowded) }
    {
        self.frames.extend_from_slice(&later.frames)?;
        self.crowded.extend_from_slice(&later.crowded)?;
        Ok(())
    }

    /// What was found in extents, one behind the other, which ascend.
    fn joined(alloc: Global, each: &[Found]) -> Result<Found, OutOfMemory>
        ensures { (test : Standing → Bool) (image : Image) (es : List ℕ) → IsStrictlyIncreasing es →
            AreFoundInEach test image es each.now → IfOk result (AreFoundIn test image es) }
    {
        let mut all = Found::none(alloc);
        for found in each {
            all.add(found)?;
        }
        Ok(all)
    }
}

/// These extents but for those that are taken as reset.
fn searched(alloc: Global, extents: &[u32], resets: &[u32]) -> Result<Vec<u32>, OutOfMemory>
    ensures { IfOk result (λ v. v.items ≡ searched resets.now extents.now) }
{
    extents
        .iter()
        .copied()
        .filter(|extent| !resets.contains(extent))
        .collect(alloc)
}

/// What is found in these extents, which are planned, but for those that are taken as reset.
pub(crate) fn search<R: Threads + Sync, D: PageSource>(
    rt: &R,
    alloc: Global,
    disk: &D,
    extents: &[u32],
    resets: &[u32],
    asked: &Asked,
) -> Result<Found, OutOfMemory>
    requires planned { ArePlanned (D.image disk.now).geometry.extents extents.now }
    requires asked { IsAsked asked.now }
    ensures { IfOk result (AreFoundIn (is_wanted asked.now.contents.items) (D.image disk.now)
        (searched resets.now extents.now)) }
{
    let extents = searched(alloc, extents, resets)?;
    let each = search_each(rt, alloc, disk, &extents, asked)?;
    Found::joined(alloc, &each)
}
