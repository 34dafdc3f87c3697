//! Where a chunk can be put: the room of each extent, as lines. `reclaiming` writes them after the
//! candidates.

ghost use Rattle.std.specs.Prelude.{◌≡◌, ◌<◌, ◌++◌, List, OnOk, map, string_bytes};
ghost use Rattle.std.specs.List.Sorted.{IsPermutation};
ghost use Rattle.scrub_scan.specs.Scanned.{Scanned, scanned};
ghost use Rattle.scrub_check.specs.declared.statuses.checked.Checked.{Checked};
ghost use Rattle.scrub_check.specs.Candidates.{CandidateValue};
ghost use Rattle.scrub_loose.specs.Loose.{LooseValue};
ghost use Rattle.scrub_reclaim.specs.Room.{ends_in_chunk, is_listed_as, is_zero_to, next_place, room_if};
ghost use Rattle.scrub_reclaim.specs.Room.{room_line, room_lines, room_where, rooms_where};
ghost use Rattle.scrub_reclaim.specs.steps.KeptCopies.{AreShut};
ghost use Rattle.scrub_reclaim.specs.steps.Room.{may_grow_by, may_take_by, room_text};

use scrub_check::{ExtentSet, is_chunk};
use scrub_disk::{Geometry, OutOfMemory, PageSource};
use scrub_found::clean::is_clean_extent;
use scrub_frame::Form;
use scrub_scan::{AllFindings, ExtentResult, Item};
use std::fmt::Write;

/// Whether a chunk can be put into an extent; `barred` has those into which an unsound locator points.
pub fn may_grow<D: PageSource>(barred: &ExtentSet, found: &ExtentResult<'_, D>) -> bool
    ensures { result ≡ may_grow_by barred.now (scanned found.now) }
{
    is_clean_extent(found) && !barred.has(found.extent())
}

/// Whether a chunk can be put into an extent that isn't among the closed ones either.
fn may_take<D: PageSource>(
    barred: &ExtentSet,
    closed: &ExtentSet,
    found: &ExtentResult<'_, D>,
) -> bool
    ensures { result ≡ may_take_by barred.now closed.now (scanned found.now) }
{
    !closed.has(found.extent()) && may_grow(barred, found)
}

/// Whether the last of some items is a chunk.
fn ends_in_chunk(items: &[Item]) -> bool
    ensures { result ≡ ends_in_chunk items.now }
{
    match items.last() {
        Some(item) => is_chunk(item),
        None => false,
    }
}

/// The place for the next frame, by the bytes of a page, the write pointer and the items below it.
pub fn next_place(page: u32, pointer: u32, items: &[Item]) -> u64
    requires { 0 < page }
    ensures { result ≡ next_place page pointer items.now }
{
    let (page, pointer) = (page as u64, pointer as u64);
    if pointer % page == 0 || ends_in_chunk(items) {
        return pointer;
    }
    (pointer / page + 1) * page
}

/// Whether there is nothing but zeros from the pointer of an extent to a place.
pub fn is_zero_to<D: PageSource>(place: u64, found: &ExtentResult<'_, D>) -> bool
    ensures { result ≡ is_zero_to place (scanned found.now) }
{
    match found.findings().tail_first() {
        Some(first) => first as u64 >= place,
        None => true,
    }
}

/// Appends the line of an extent with room, by whether it is listed to be reclaimed.
fn append_line(
    text: &mut String,
    is_listed: bool,
    extent: u32,
    place: u64,
    bytes: u64,
) -> Result<(), OutOfMemory>
    ensures { OnOk result (string_bytes text.new ≡ string_bytes text.old ++
        room_line is_listed extent place bytes) }
{
    let word = if is_listed { "last-room" } else { "room" };
    writeln!(text, "{word} {extent} {place} {bytes}")
}

/// Appends the line of an extent into which a chunk can be put, if there are zeros up to the place for it,
/// and a frame of no payload fits.
fn append_room<D: PageSource>(
    text: &mut String,
    is_listed: bool,
    geometry: Geometry,
    found: &ExtentResult<'_, D>,
) -> Result<(), OutOfMemory>
    ensures { OnOk result (string_bytes text.new ≡ string_bytes text.old ++
        room_text is_listed geometry (scanned found.now)) }
{
    let place = next_place(geometry.page, found.pointer(), found.findings().items());
    let bytes = (geometry.extent_bytes() as u64).saturating_sub(place);
    if !is_zero_to(place, found) || bytes < Form::Plain.overhead() as u64 {
        return Ok(());
    }
    append_line(text, is_listed, found.extent(), place, bytes)
}

/// Appends the line of an extent, if it has room that is offered.
fn append_room_if<D: PageSource>(
    text: &mut String,
    is_listed: bool,
    geometry: Geometry,
    barred: &ExtentSet,
    closed: &ExtentSet,
    found: &ExtentResult<'_, D>,
) -> Result<(), OutOfMemory>
    ensures { (extents : List Scanned) (loose : LooseValue) (checked : List Checked) →
        AreShut extents loose checked barred.now closed.now →
        OnOk result (string_bytes text.new ≡ string_bytes text.old ++
        room_if is_listed geometry extents loose checked (scanned found.now)) }
{
    if !may_take(barred, closed, found) {
        return Ok(());
    }
    append_room(text, is_listed, geometry, found)
}

/// Whether an extent is among the listed ones, or isn't, as wanted.
fn is_listed_as(is_listed: bool, listed: &ExtentSet, extent: u32) -> bool
    ensures { result ≡ is_listed_as is_listed listed.now extent }
{
    listed.has(extent) == is_listed
}

/// Appends the line of an extent that is listed, or isn't, as wanted, if it has room that is offered.
fn append_room_where<D: PageSource>(
    text: &mut String,
    is_listed: bool,
    geometry: Geometry,
    barred: &ExtentSet,
    closed: &ExtentSet,
    listed: &ExtentSet,
    found: &ExtentResult<'_, D>,
) -> Result<(), OutOfMemory>
    ensures { (extents : List Scanned) (loose : LooseValue) (checked : List Checked) →
        AreShut extents loose checked barred.now closed.now →
        OnOk result (string_bytes text.new ≡ string_bytes text.old ++
        room_where is_listed geometry extents loose checked listed.now (scanned found.now)) }
{
    if !is_listed_as(is_listed, listed, found.extent()) {
        return Ok(());
    }
    append_room_if(text, is_listed, geometry, barred, closed, found)
}

/// Appends the lines of the extents with such room that are listed, or aren't, as wanted, ascending.
fn append_rooms_where<D: PageSource>(
    text: &mut String,
    is_listed: bool,
    geometry: Geometry,
    barred: &ExtentSet,
    closed: &ExtentSet,
    listed: &ExtentSet,
    all: &AllFindings<'_, D>,
) -> Result<(), OutOfMemory>
    ensures { (loose : LooseValue) (checked : List Checked) →
        AreShut all.now.extents loose checked barred.now closed.now →
        OnOk result (string_bytes text.new ≡ string_bytes text.old ++
        rooms_where is_listed geometry all.now.extents loose checked listed.now) }
{
    for found in all.results() {
        append_room_where(text, is_listed, geometry, barred, closed, listed, found)?;
    }
    Ok(())
}

/// Appends the lines of the extents with such room that aren't candidates, and then those of the candidates,
/// whose extents are listed.
pub(crate) fn append_rooms<D: PageSource>(
    text: &mut String,
    geometry: Geometry,
    all: &AllFindings<'_, D>,
    barred: &ExtentSet,
    closed: &ExtentSet,
    listed: &ExtentSet,
) -> Result<(), OutOfMemory>
    ensures { (loose : LooseValue) (checked : List Checked) (candidates : List CandidateValue) →
        AreShut all.now.extents loose checked barred.now closed.now →
        IsPermutation (map (λ a. a.extent) candidates) listed.now →
        OnOk result (string_bytes text.new ≡
        string_bytes text.old ++ room_lines geometry all.now.extents loose checked candidates) }
{
    append_rooms_where(text, false, geometry, barred, closed, listed, all)?;
    append_rooms_where(text, true, geometry, barred, closed, listed, all)
}
