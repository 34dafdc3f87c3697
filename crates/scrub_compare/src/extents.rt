//! The lines of extents from 1 on: write pointers that may not follow the earlier ones, and bytes that
//! changed and may not have.

ghost use Rattle.std.specs.Prelude.{◌≡◌, ◌++◌, ◌<◌, ◌≤◌, ℕ, [], List, Option, OnOk, string_bytes};
ghost use Rattle.std.specs.List.Sorted.{IsStrictlyIncreasing};
ghost use Rattle.scrub_check.specs.declared.statuses.checked.Checked.{Checked};
ghost use Rattle.scrub_check.specs.steps.LocatorIndex.{AreBarredExtents};
ghost use Rattle.scrub_found.specs.Judged.{AreJudgedBut, Beside, found_in};
ghost use Rattle.scrub_compare.specs.Written.{AreFirstWritten, IsLeastNumber, IsWrittenIn, pointer_in};
ghost use Rattle.scrub_compare.specs.Written.{room_of_extent};
ghost use Rattle.scrub_compare.specs.Compare.{extent_lines, is_reset, lines_of_extent, may_follow};
ghost use Rattle.scrub_compare.specs.Compare.{pointer_line, written_line};

use crate::bytes::first_written;
use crate::rooms::room_of_extent;
use scrub_check::{ExtentSet, barred_extents};
use scrub_disk::{OutOfMemory, PageSource};
use scrub_found::Judged;
use scrub_super::Plan;
use std::alloc::Global;
use std::fmt::Write;

/// Whether an extent is one of these, which are ascending.
pub(crate) fn is_reset(resets: &[u32], extent: u32) -> bool
    requires { IsStrictlyIncreasing resets.now }
    ensures { result ≡ is_reset resets.now extent }
{
    resets.binary_search(&extent).is_ok()
}

/// Whether a write pointer may follow another one.
fn may_follow(reset: bool, room: Option<u64>, old: u32, new: u32) -> bool
    ensures { result ≡ may_follow reset room old new }
{
    let is_in_room = match room {
        Some(place) => new as u64 >= place,
        None => false,
    };
    new == old || (reset && new == 0) || is_in_room
}

/// Appends the line of two write pointers of an extent, unless the second may follow the first.
fn append_pointer(
    text: &mut String,
    resets: &[u32],
    room: Option<u64>,
    extent: u32,
    old: u32,
    new: u32,
) -> Result<(), OutOfMemory>
    requires { IsStrictlyIncreasing resets.now }
    ensures { OnOk result (string_bytes text.new ≡ string_bytes text.old ++
        pointer_line resets.now room extent old new) }
{
    if may_follow(is_reset(resets, extent), room, old, new) {
        return Ok(());
    }
    writeln!(text, "pointer {extent} {old} {new}")
}

/// Appends the line of the first byte of an extent that changed and may not have, if there is one.
pub(crate) fn append_written(
    text: &mut String,
    extent: u32,
    first: Option<u32>,
) -> Result<(), OutOfMemory>
    ensures { OnOk result (string_bytes text.new ≡ string_bytes text.old ++ written_line extent first) }
{
    match first {
        Some(place) => writeln!(text, "written {extent} {place}"),
        None => Ok(()),
    }
}

/// Appends the lines of an extent.
fn append_lines(
    text: &mut String,
    resets: &[u32],
    room: Option<u64>,
    extent: u32,
    old: u32,
    new: u32,
    first: Option<u32>,
) -> Result<(), OutOfMemory>
    requires { IsStrictlyIncreasing resets.now }
    ensures { OnOk result (string_bytes text.new ≡ string_bytes text.old ++
        lines_of_extent resets.now room extent old new first) }
{
    append_pointer(text, resets, room, extent, old, new)?;
    append_written(text, extent, first)
}

/// Compares an extent from 1 on in two images, and appends its lines. `barred` has the extents into which an
/// unsound locator of the earlier image points.
fn append_extent<D: PageSource, E: PageSource>(
    alloc: Global,
    text: &mut String,
    before: &D,
    after: &E,
    resets: &[u32],
    found_before: &Judged<'_, D>,
    plan: &Plan,
    barred: &ExtentSet,
    extent: u32,
) -> Result<(), OutOfMemory>
    requires sizes { (E.image after.now).geometry ≡ (D.image before.now).geometry }
    requires old_sizes { found_before.now.scan.plan.geometry ≡ (D.image before.now).geometry }
    requires new_sizes { plan.now.geometry ≡ (D.image before.now).geometry }
    requires rising { IsStrictlyIncreasing resets.now }
    requires from_one { 1 ≤ extent }
    requires in_extents { extent < (D.image before.now).geometry.extents }
    ensures { (checked : List Checked) → AreBarredExtents checked barred.now →
        OnOk result ((first : Option ℕ) ×
        IsLeastNumber (IsWrittenIn (D.image before.now) (E.image after.now)
        (room_of_extent found_before.now.scan.plan.geometry found_before.now.scan.all.extents checked extent)
        (pointer_in plan.now extent) extent) first ×
        (string_bytes text.new ≡ string_bytes text.old ++ lines_of_extent resets.now
        (room_of_extent found_before.now.scan.plan.geometry found_before.now.scan.all.extents checked extent)
        extent (pointer_in found_before.now.scan.plan extent) (pointer_in plan.now extent) first)) }
{
    let scan = &found_before.scan;
    let room = room_of_extent(scan.plan.geometry(), &scan.all, barred, extent);
    let (old, new) = (scan.plan.pointer(extent), plan.pointer(extent));
    let first = first_written(alloc, before, after, extent, room, new)?;
    append_lines(text, resets, room, extent, old, new, first)
}

/// Compares the extents from 1 on in two images, and appends their lines.
pub(crate) fn append_extents<D: PageSource, E: PageSource>(
    alloc: Global,
    text: &mut String,
    before: &D,
    after: &E,
    resets: &[u32],
    found_before: &Judged<'_, D>,
    found_after: &Judged<'_, E>,
) -> Result<(), OutOfMemory>
    requires sizes { (E.image after.now).geometry ≡ (D.image before.now).geometry }
    requires rising { IsStrictlyIncreasing resets.now }
    requires found_before { AreJudgedBut [] (D.image before.now) found_before.now }
    requires found_after { AreJudgedBut [] (E.image after.now) found_after.now }
    ensures { (b c : Beside) → OnOk result ((firsts : List (Option ℕ)) ×
        AreFirstWritten (D.image before.now) (E.image after.now) (found_in found_before.now b)
        (found_in found_after.now c) firsts ×
        (string_bytes text.new ≡ string_bytes text.old ++
        extent_lines resets.now (found_in found_before.now b) (found_in found_after.now c) firsts)) }
{
    let barred = barred_extents(alloc, &found_before.checked)?;
    let plan = &found_after.scan.plan;
    for extent in 1..before.geometry().extents() {
        append_extent(
            alloc,
            text,
            before,
            after,
            resets,
            found_before,
            plan,
            &barred,
            extent,
        )?;
    }
    Ok(())
}
