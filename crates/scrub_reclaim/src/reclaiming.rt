//! What can be reclaimed of a disk, as lines: the doubts, and if all are accepted the extents, each with the
//! chunks to move first.

ghost use Rattle.std.specs.Prelude.{◌≡◌, ◌≢◌, ◌++◌, ◌≤◌, ℕ, [], All, Bool, true, List, IfOk, OnOk, Some};
ghost use Rattle.std.specs.Prelude.{map, string_bytes};
ghost use Rattle.std.specs.List.{flat_map};
ghost use Rattle.std.specs.List.Sorted.{IsPermutation};
ghost use Rattle.scrub_disk.specs.declared.geometry.Geometry.{Geometry};
ghost use Rattle.scrub_disk.specs.Image.{HasWholePages, Image};
ghost use Rattle.scrub_super.specs.declared.pages.SuperblockPage.{SuperblockPage};
ghost use Rattle.scrub_super.specs.Pages.{AreSuperblockPages};
ghost use Rattle.scrub_scan.specs.Scanned.{Scanned};
ghost use Rattle.scrub_check.specs.declared.statuses.checked.Checked.{Checked};
ghost use Rattle.scrub_loose.specs.Loose.{LooseValue};
ghost use Rattle.scrub_found.specs.Judged.{IsScan};
ghost use Rattle.scrub_found.specs.Scrubbed.{Scrubbed, IsScrubbed};
ghost use Rattle.scrub_found.specs.Takings.{AreTakingsBy};
ghost use Rattle.scrub_report.specs.Answer.{AnswerValue, IsScrubAnswer};
ghost use Rattle.scrub_report.specs.Report.{IsReport};
ghost use Rattle.scrub_listings.specs.Manifest.{IsManifest, IsManifestBut};
ghost use Rattle.scrub_reclaim.specs.Copy.{IsSameButRisen};
ghost use Rattle.scrub_reclaim.specs.Doubts.{Acceptance};
ghost use Rattle.scrub_reclaim.specs.steps.ReclaimParts.{AreKeptOf, AreLists, lines_if};
ghost use Rattle.scrub_reclaim.specs.steps.Moves.{AreRisingPlaces, PointAlike, kept_lines, move_text};
ghost use Rattle.scrub_reclaim.specs.Reclaimable.{AcceptsNoCrowded, AcceptsNoLoose, AcceptsNoSpare};
ghost use Rattle.scrub_reclaim.specs.Reclaimable.{AreMoved, AreOfCandidates};
ghost use Rattle.scrub_reclaim.specs.Reclaimable.{KeepsCrowded, KeepsLoose, KeepsSpares};
ghost use Rattle.scrub_reclaim.specs.Reclaimable.{AreReclaimLines, IsListedByLast};
ghost use Rattle.scrub_reclaim.specs.Reclaimable.{all_candidate_lines, candidate_lines, is_clear};
ghost use Rattle.scrub_reclaim.specs.Reclaimable.{reclaim_line, reclaimed};
ghost use Rattle.scrub_reclaim.specs.Reset.{AreListedKeepingCopies, IsAfterReset, IsReclaimed, NameTheSame};
ghost use Rattle.scrub_reclaim.specs.Room.{IsRoom, place_in, room_if};

use crate::closed::closed_extents;
use crate::doubting::doubts_of;
use crate::doubts::{Acceptance, doubt_lines};
use crate::moves::{by_place, pointing_to};
use crate::reclaim_parts::{ReclaimParts, reclaim_parts_of};
use crate::room::append_rooms;
use scrub_check::{Candidate, Checked, ExtentSet, KeptChunk};
use scrub_disk::{OutOfMemory, PageSource};
use scrub_found::texts::owner_text;
use scrub_found::{Scan, ScrubFault, scan_chosen};
use scrub_listings::Listing;
use scrub_listings::listing::PlaceText;
use scrub_pool::{Gate, Takings};
use scrub_super::{SuperblockPage, choose_with_pages};
use std::alloc::Global;
use std::fmt::Write;
use std::sync::Wait;
use std::thread::Threads;

/// Appends the line of a named locator to a chunk that must be moved, and whose frame takes so many bytes.
fn append_move(
    alloc: Global,
    text: &mut String,
    one: &Checked,
    bytes: u32,
) -> Result<(), OutOfMemory>
    ensures { OnOk result (string_bytes text.new ≡ string_bytes text.old ++ move_text bytes one.now) }
{
    let place = PlaceText::of(&one.locator);
    let owner = owner_text(alloc, one.owner)?;
    writeln!(text, "move {place} {owner} {bytes}")
}

/// Appends the lines of these named locators to a chunk, in their order.
fn append_moves(
    alloc: Global,
    text: &mut String,
    some: &[&Checked],
    bytes: u32,
) -> Result<(), OutOfMemory>
    ensures { OnOk result (string_bytes text.new ≡ string_bytes text.old ++
        flat_map (move_text bytes) (map (λ one. one.now) some.now)) }
{
    for one in some {
        append_move(alloc, text, *one, bytes)?;
    }
    Ok(())
}

/// Appends the lines of the named locators to the chunks to keep of an extent, chunk by chunk.
fn append_kept(
    alloc: Global,
    text: &mut String,
    sorted: &[&Checked],
    extent: u32,
    keep: &[KeptChunk],
) -> Result<(), OutOfMemory>
    requires { AreRisingPlaces sorted.now }
    ensures { (checked : List Checked) → PointAlike checked sorted.now →
        OnOk result (string_bytes text.new ≡ string_bytes text.old ++
        flat_map (kept_lines checked extent) keep.now) }
{
    for chunk in keep {
        let some = pointing_to(sorted, extent, chunk.start);
        append_moves(alloc, text, some, chunk.bytes)?;
    }
    Ok(())
}

/// Appends a candidate's line, with its line feed.
fn append_reclaim(text: &mut String, candidate: &Candidate) -> Result<(), OutOfMemory>
    ensures { OnOk result (string_bytes text.new ≡ string_bytes text.old ++ reclaim_line candidate.now) }
{
    let (extent, free) = (candidate.extent(), candidate.free());
    writeln!(text, "reclaim {extent} {free}")
}

/// Appends a candidate's line and those of its moves.
fn append_candidate(
    alloc: Global,
    text: &mut String,
    sorted: &[&Checked],
    candidate: &Candidate,
) -> Result<(), OutOfMemory>
    requires { AreRisingPlaces sorted.now }
    ensures { (checked : List Checked) → PointAlike checked sorted.now →
        OnOk result (string_bytes text.new ≡ string_bytes text.old ++ candidate_lines checked candidate.now) }
{
    append_reclaim(text, candidate)?;
    append_kept(alloc, text, sorted, candidate.extent(), candidate.chunks())
}

/// Appends the lines of candidates, in their order. `listed` has their extents. The named locators into these
/// are sorted once for all of them.
fn append_candidates(
    alloc: Global,
    text: &mut String,
    checked: &[Checked],
    listed: &ExtentSet,
    candidates: &[Candidate],
) -> Result<(), OutOfMemory>
    requires { IsPermutation (map (λ a. a.extent) candidates.now) listed.now }
    ensures { OnOk result (string_bytes text.new ≡ string_bytes text.old ++
        all_candidate_lines checked.now candidates.now) }
{
    let sorted = by_place(alloc, checked, listed)?;
    for candidate in candidates {
        append_candidate(alloc, text, &sorted, candidate)?;
    }
    Ok(())
}

/// Appends the lines of the extents to reclaim, and of those with room: of all candidates if `is_clear`, or
/// else of none.
fn append_reclaimed<D: PageSource>(
    alloc: Global,
    text: &mut String,
    is_clear: bool,
    parts: &ReclaimParts<'_, D>,
) -> Result<(), OutOfMemory>
    requires { AreLists parts.now }
    ensures { (loose : LooseValue) → AreKeptOf loose parts.now →
        OnOk result (string_bytes text.new ≡ string_bytes text.old ++ lines_if is_clear loose parts.now) }
{
    if !is_clear {
        return Ok(());
    }
    let (judged, listed) = (&parts.judged, &parts.listed);
    if parts.candidates.is_empty() {
        return Ok(());
    }
    append_candidates(alloc, text, &judged.checked, listed, &parts.candidates)?;
    let geometry = judged.scan.plan.geometry();
    let barred = parts.locators.barred();
    let closed = closed_extents(alloc, &parts.copies)?;
    append_rooms(text, geometry, &judged.scan.all, barred, &closed, listed)
}

/// What can be reclaimed of a scanned disk, whose extent 0 has these pages.
fn listing_of<R: Threads + Sync, D: PageSource>(
    rt: &R,
    alloc: Global,
    scan: Scan<'_, D>,
    pages: &[SuperblockPage],
    acceptance: &Acceptance<'_, '_>,
) -> Result<Listing, OutOfMemory>
    requires scan { IsScan (D.image scan.disk.now) scan }
    requires pages { AreSuperblockPages (D.image scan.disk.now) pages.now }
    ensures { IfOk result (λ l.
        AreReclaimLines (D.image scan.entry.disk.now) acceptance.now l.text.items l.is_clean) }
{
    let parts = reclaim_parts_of(rt, alloc, scan)?;
    let doubts = doubts_of(alloc, acceptance.last(), pages, &parts)?;
    let accepted = acceptance.on(&parts.judged.scan.chosen);
    let mut lines = doubt_lines(alloc, &accepted, &doubts)?;
    append_reclaimed(alloc, &mut lines.text, lines.is_clear, &parts)?;
    Ok(Listing {
        text: lines.text.into_bytes(),
        is_clean: lines.is_clear,
    })
}

/// Lists what can be reclaimed of a disk, and returns which extents the caller and each worker took. It is
/// clean if no line begins with `doubt`.
///
/// There is a line for each doubt, by kind. It begins with `accepted` if it is accepted, or else with
/// `doubt`. If no line begins with `doubt`, then comes `reclaim EXTENT FREE` for each candidate of the
/// report, in its order, and after each of them `move EXTENT OFFSET LENGTH UUID OWNER BYTES` for each named
/// locator into it, by the chunk that it points to, whose payload takes LENGTH and whose frame takes BYTES.
/// If there is a candidate, then comes `room EXTENT OFFSET BYTES` for each other extent that a chunk can be
/// put into, with the place for it and the bytes from there to the end of the extent, and `last-room EXTENT
/// OFFSET BYTES` for each such candidate; but none for an extent with a loose copy of a named locator, nor,
/// while a payload is gone, for a crowded one. Free, offset, length and bytes are in bytes.
///
/// It scans as `scrub` does, with this many workers (0 to 64) beside the caller. The only fault is
/// `OutOfMemory`, returned once every started worker has ended.
pub fn list_reclaimable<D: PageSource, G: Gate, R: Threads + Wait + Sync>(
    rt: &R,
    alloc: Global,
    disk: &D,
    workers: u32,
    gate: &G,
    acceptance: &Acceptance<'_, '_>,
) -> Result<(Listing, Takings), ScrubFault>
    requires { workers ≤ 64 }
    ensures listing { IfOk result (λ r.
        AreReclaimLines (D.image disk.now) acceptance.now r.0.text.items r.0.is_clean) }
    ensures takings { IfOk result (λ r. AreTakingsBy (D.image disk.now) workers r.1) }
{
    let (chosen, pages) = choose_with_pages(alloc, disk)?;
    let (scan, takings) = scan_chosen(rt, alloc, disk, chosen, workers, gate, &[])?;
    let listing = listing_of(rt, alloc, scan, &pages, acceptance)?;
    Ok((listing, takings))
}

/// A law: what can be reclaimed of an image has at most one text of lines, and at most one verdict whether it
/// is clear.
pub fn one_reclaim_listing()
    ensures { (image : Image) (accepted : Acceptance) (a b : List ℕ) (v w : Bool) →
        AreReclaimLines image accepted a v → AreReclaimLines image accepted b w → (a ≡ b) × (v ≡ w) }
{}

/// A law: the extents to reclaim are the candidates of the report, in its order, if no line begins with
/// `doubt`, or else there is none.
pub fn reclaimed_are_candidates()
    ensures { (image : Image) (accepted : Acceptance) (report text : List ℕ) (clear : Bool) →
        IsReport image report → AreReclaimLines image accepted text clear →
        AreOfCandidates image accepted report text clear }
{}

/// A law: no move is forgotten. Each named locator into an extent to reclaim is sound, points to a chunk to
/// keep, and is among the moves, with the bytes of the chunk's frame. Each move has a line.
pub fn reclaiming_is_safe()
    ensures { (image : Image) (accepted : Acceptance) (pages : List SuperblockPage) (loose : LooseValue)
        (found : Scrubbed) → IsScrubbed image found →
        AreMoved found.checked (reclaimed accepted pages loose found) }
{}

/// A law: where no line begins with `accepted spare`, each named locator that has a spare has one that is
/// live or in an extent that isn't to be reclaimed. So without `move` lines no reset takes the last spare of
/// a named locator; with them a live chunk that is to be moved may be another shard's last spare. A copy that
/// is no item of a tiling is no spare.
pub fn no_spare_is_taken()
    ensures { (accepted : Acceptance) (pages : List SuperblockPage) (loose : LooseValue) (found : Scrubbed) →
        AcceptsNoSpare accepted pages loose found →
        KeepsSpares found (reclaimed accepted pages loose found) }
{}

/// A law: where no line begins with `accepted loose`, each named locator that has a loose copy has one in an
/// extent that isn't to be reclaimed, and that has no line `room` or `last-room`. Where no line begins with
/// `accepted crowded` and a payload is gone, no crowded extent is to be reclaimed, and none has such a line.
/// With `no_spare_is_taken`: no reset takes the last whole copy of a lost payload, and none is written over.
pub fn no_loose_copy_is_taken()
    ensures loose { (accepted : Acceptance) (pages : List SuperblockPage) (loose : LooseValue)
        (found : Scrubbed) → AcceptsNoLoose accepted pages loose found →
        KeepsLoose loose found (reclaimed accepted pages loose found) }
    ensures crowded { (accepted : Acceptance) (pages : List SuperblockPage) (loose : LooseValue)
        (found : Scrubbed) → AcceptsNoCrowded accepted pages loose found →
        KeepsCrowded loose found (reclaimed accepted pages loose found) }
{}

/// A law: where the generation of the last superblock is given, and an extent is to be reclaimed, the
/// superblock that counts has that generation. Each doubt is accepted by a line of its own, or is of a kind
/// that the last superblock settles: a damaged or stray page of extent 0, or a tail, readable or not.
pub fn listed_by_last()
    ensures { (accepted : Acceptance) (last : ℕ) (pages : List SuperblockPage) (loose : LooseValue)
        (found : Scrubbed) → accepted.last ≡ Some last → reclaimed accepted pages loose found ≢ [] →
        IsListedByLast last accepted pages loose found }
{}

/// A law: a reset loses nothing that is named. Let extents be listed without a `move` line, and be reset.
/// Then the same index runs are read, with the same bindings, and each named locator has the same status as
/// before and, if that is sound, a chunk of the same form, whatever these extents hold now. So the image has
/// the same index as before. If no line begins with `accepted spare` or `accepted loose` either, the image
/// has the same manifest with these resets as without them, and the same exit status; and after the reset,
/// whatever these extents hold then, the manifest is the same, but that the last words of lines may have
/// risen: from `none` to `loose` or `spare`, or from `loose` to `spare`.
pub fn a_reset_loses_nothing()
    ensures named { (accepted : Acceptance) (extents : List ℕ) (before after : Image)
        (found rest : Scrubbed) →
        IsReclaimed accepted extents before after → IsScrubbed before found → IsScrubbed after rest →
        NameTheSame found rest }
    ensures copies { (accepted : Acceptance) (extents : List ℕ) (image : Image) (a b : List ℕ) (v w : Bool) →
        AreListedKeepingCopies accepted extents image → IsManifestBut extents image a v →
        IsManifest image b w → (a ≡ b) × (v ≡ w) }
    ensures manifest { (accepted : Acceptance) (extents : List ℕ) (before after : Image) (a b : List ℕ)
        (v w : Bool) → AreListedKeepingCopies accepted extents before → IsAfterReset extents before after →
        IsManifest before a v → IsManifest after b w → IsSameButRisen a b × (v ≡ w) }
    ensures index { (accepted : Acceptance) (extents : List ℕ) (before after : Image) (a b : AnswerValue) →
        IsReclaimed accepted extents before after → IsScrubAnswer before a → IsScrubAnswer after b →
        a.index ≡ b.index }
{}

/// A law: what a line `room` or `last-room` shows. All pages of the extent can be read, its items are chunks
/// and zeros alone, and each named locator with its number is sound. The place is the write pointer, if that
/// is at a page boundary or directly after a chunk, or else the next page boundary. Each byte from the
/// pointer to the place is zero, and 38 bytes or more fit from there on.
pub fn a_line_shows_room()
    ensures { (image : Image) (found : Scrubbed) (loose : LooseValue) (is_listed : Bool) →
        HasWholePages image → IsScrubbed image found →
        All (λ f. room_if is_listed found.plan.geometry found.all loose found.checked f ≢ [] →
        IsRoom image found.checked f.extent f.pointer (place_in found.plan.geometry f)) found.all }
{}

/// A law: each image has a text of the lines of what can be reclaimed, and a verdict whether it is clear,
/// whatever is accepted. With `one_reclaim_listing`, it has exactly one of each.
pub fn each_image_has_a_reclaim_listing()
    ensures { (image : Image) (accepted : Acceptance) →
        (text : List ℕ) × (clear : Bool) × AreReclaimLines image accepted text clear }
{}
