//! Compares two images of a disk, as lines: why what was written between them isn't safe, and at the end
//! whether it is.

ghost use Rattle.std.specs.Prelude.{◌≡◌, ◌++◌, ◌==◌, ◌≤◌, [], Bool, List, ℕ, Option, IfOk, OnOk, codes};
ghost use Rattle.std.specs.Prelude.{nat_lt, string_bytes, if◌then◌else◌};
ghost use Rattle.std.specs.List.Sorted.{IsStrictlyIncreasing};
ghost use Rattle.scrub_disk.specs.Image.{Image};
ghost use Rattle.scrub_super.specs.Pages.{AreSuperblockPages};
ghost use Rattle.scrub_scan.specs.AllFindings.{IsOfImage};
ghost use Rattle.scrub_found.specs.Takings.{AreTakingsBy};
ghost use Rattle.scrub_found.specs.Judged.{AreJudgedBut, Beside, IsFoundOn, found_in};
ghost use Rattle.scrub_compare.specs.Written.{AreFirstWritten, IsLeastNumber, IsWrittenInRecords};
ghost use Rattle.scrub_compare.specs.Compare.{IsComparison, both_of, extent_lines, firm_lines};
ghost use Rattle.scrub_compare.specs.Compare.{generation_line, generation_of, is_safe_by, named_lines};
ghost use Rattle.scrub_compare.specs.Compare.{safe_line, whole_text, unsafe_line, written_line};

use crate::extents::{append_extents, append_written};
use crate::firm::append_firm;
use crate::manifests::append_manifest_changes;
use crate::named::append_named;
use crate::records::first_in_records;
use scrub_disk::{OutOfMemory, PageSource};
use scrub_found::{Judged, ScrubFault, judged_of, scan_as_reset, scan_chosen};
use scrub_listings::Listing;
use scrub_pool::{Gate, Takings};
use scrub_super::{Chosen, SuperblockPage, choose_with_pages};
use std::alloc::Global;
use std::fmt::Write;
use std::sync::Wait;
use std::thread::Threads;

/// What is found on a disk, what the pages of its extent 0 are, and which extents the caller and each worker
/// took.
fn judged_with_pages<'d, D: PageSource, G: Gate, R: Threads + Wait + Sync>(
    rt: &R,
    alloc: Global,
    disk: &'d D,
    workers: u32,
    gate: &G,
) -> Result<(Judged<'d, D>, Vec<SuperblockPage>, Takings), ScrubFault>
    requires { workers ≤ 64 }
    ensures judged { IfOk result (λ r. AreJudgedBut [] (D.image disk.now) r.0) }
    ensures source { IfOk result (λ r. IsOfImage (λ s. D.image s) r.0.scan.all (D.image disk.now)) }
    ensures pages { IfOk result (λ r. AreSuperblockPages (D.image disk.now) r.1.items) }
    ensures takings { IfOk result (λ r. AreTakingsBy (D.image disk.now) workers r.2) }
{
    let (chosen, pages) = choose_with_pages(alloc, disk)?;
    let (scan, takings) = scan_chosen(rt, alloc, disk, chosen, workers, gate, &[])?;
    let judged = judged_of(rt, alloc, scan)?;
    Ok((judged, pages, takings))
}

/// What is found on a disk as if these extents, which are ascending, had been reset, made of what is found
/// without resets. Of that only the findings are kept in memory meanwhile.
fn judged_after<'d, R: Threads + Sync, D: PageSource>(
    rt: &R,
    alloc: Global,
    disk: &'d D,
    found_after: Judged<'d, D>,
    resets: &[u32],
) -> Result<Judged<'d, D>, OutOfMemory>
    requires rising { IsStrictlyIncreasing resets.now }
    requires found_after { AreJudgedBut [] (D.image disk.now) found_after }
    requires source { IsOfImage (λ s. D.image s) found_after.scan.all (D.image disk.now) }
    ensures { IfOk result (AreJudgedBut resets.now (D.image disk.now)) }
{
    if resets.is_empty() {
        return Ok(found_after);
    }
    let Judged { scan, .. } = found_after;
    let scan = scan_as_reset(alloc, disk, scan, resets)?;
    judged_of(rt, alloc, scan)
}

/// The lines of the doubts of both images that can't be accepted.
fn doubts_of_both<D: PageSource, E: PageSource>(
    alloc: Global,
    found_before: &Judged<'_, D>,
    found_after: &Judged<'_, E>,
    pages: &[SuperblockPage],
    pages_now: &[SuperblockPage],
) -> Result<String, OutOfMemory>
    ensures { (image other : Image) (b c : Beside) → IsFoundOn image found_before.now b →
        IsFoundOn other found_after.now c → IfOk result (λ text. string_bytes text ≡
        firm_lines (codes "before") pages.now (found_in found_before.now b) ++
        firm_lines (codes "after") pages_now.now (found_in found_after.now c)) }
{
    let mut text = String::new(alloc);
    append_firm(alloc, &mut text, "before", pages, found_before)?;
    append_firm(alloc, &mut text, "after", pages_now, found_after)?;
    Ok(text)
}

/// The lines of bytes, write pointers and named locators.
fn lines_of_extents<D: PageSource, E: PageSource>(
    alloc: Global,
    before: &D,
    after: &E,
    resets: &[u32],
    found_before: &Judged<'_, D>,
    found_after: &Judged<'_, E>,
    pages_now: &[SuperblockPage],
) -> Result<String, OutOfMemory>
    requires sizes { (E.image after.now).geometry ≡ (D.image before.now).geometry }
    requires rising { IsStrictlyIncreasing resets.now }
    requires found_before { AreJudgedBut [] (D.image before.now) found_before.now }
    requires found_after { AreJudgedBut [] (E.image after.now) found_after.now }
    requires held { AreSuperblockPages (E.image after.now) pages_now.now }
    ensures { (b c : Beside) → IfOk result (λ text. (first : Option ℕ) ×
        IsLeastNumber (IsWrittenInRecords (D.image before.now) (E.image after.now)) first ×
        (firsts : List (Option ℕ)) ×
        AreFirstWritten (D.image before.now) (E.image after.now) (found_in found_before.now b)
        (found_in found_after.now c) firsts × (string_bytes text ≡ written_line 0 first ++
        extent_lines resets.now (found_in found_before.now b) (found_in found_after.now c) firsts ++
        named_lines resets.now found_after.now.checked.items)) }
{
    let mut text = String::new(alloc);
    let first = first_in_records(alloc, before, after, pages_now)?;
    append_written(&mut text, 0, first)?;
    append_extents(
        alloc,
        &mut text,
        before,
        after,
        resets,
        found_before,
        found_after,
    )?;
    append_named(alloc, &mut text, resets, &found_after.checked)?;
    Ok(text)
}

/// The generation of the superblock that counts, if one does.
fn generation_of(chosen: &Chosen) -> Option<u64>
    ensures { result ≡ generation_of chosen.now }
{
    match chosen.superblock() {
        Some(superblock) => Some(superblock.generation()),
        None => None,
    }
}

/// Two generations, if both are there.
fn both_of(old: Option<u64>, new: Option<u64>) -> Option<(u64, u64)>
    ensures { result ≡ both_of old new }
{
    match (old, new) {
        (Some(old), Some(new)) => Some((old, new)),
        _ => None,
    }
}

/// Whether the later generation is the lower one.
fn is_lower(old: u64, new: u64) -> bool
    ensures { result ≡ nat_lt new old }
{
    new < old
}

/// Appends the line of two generations, if the later image has the lower one.
fn append_generation(text: &mut String, old: u64, new: u64) -> Result<(), OutOfMemory>
    ensures { OnOk result (string_bytes text.new ≡ string_bytes text.old ++ generation_line old new) }
{
    if !is_lower(old, new) {
        return Ok(());
    }
    write!(text, "generation {old}")?;
    writeln!(text, " {new}")
}

/// Appends the last line: `safe` with both generations, or `unsafe`.
fn append_last(text: &mut String, is_safe: bool, old: u64, new: u64) -> Result<(), OutOfMemory>
    ensures { OnOk result (string_bytes text.new ≡ string_bytes text.old ++
        (if is_safe then safe_line old new else unsafe_line)) }
{
    if is_safe {
        writeln!(text, "safe {old} {new}")
    } else {
        writeln!(text, "unsafe")
    }
}

/// All lines, by those of doubts, the others, and the generations.
fn listing_by(
    doubts: String,
    others: &str,
    generations: Option<(u64, u64)>,
) -> Result<Listing, OutOfMemory>
    ensures text { IfOk result (λ l. l.text.items ≡ whole_text (string_bytes doubts) others.now generations) }
    ensures safe { IfOk result (λ l. l.is_clean ≡ is_safe_by (string_bytes doubts) others.now generations) }
{
    let mut text = doubts;
    let Some((old, new)) = generations else {
        writeln!(text, "unsafe")?;
        return Ok(Listing {
            text: text.into_bytes(),
            is_clean: false,
        });
    };
    append_generation(&mut text, old, new)?;
    text.push_str(others)?;
    let is_clean = text.is_empty();
    append_last(&mut text, is_clean, old, new)?;
    Ok(Listing {
        text: text.into_bytes(),
        is_clean,
    })
}

/// Compares two images of one disk, and lists why what was written between them isn't safe; and returns which
/// extents the caller and each worker took of each image. It is clean if it is safe: no line is there but the
/// last one.
///
/// First comes `doubt before DOUBT` for each doubt of the earlier image that can't be accepted, and `doubt
/// after DOUBT` for each of the later one. If a superblock counts in both, these follow:
///
/// - `generation OLD NEW`, if the later generation is the lower one;
/// - `written 0 OFFSET` with the first byte of extent 0 that changed and that no valid record holds now,
///   unless it could be read before and is zero now;
/// - for each extent from 1 on `pointer EXTENT OLD NEW`, unless its write pointer is the same, or 0 in one of
///   `resets`, or at or past the place where the extent had room; and `written EXTENT OFFSET` with the first
///   byte that changed where nothing may change;
/// - `named LINE` for each named locator, as `list_locators` has it, whose extent is one of `resets`;
/// - `lost LINE`, `new LINE`, `spare LINE` and `loose LINE` for each line of the manifest that would be
///   another one if `resets` were reset, but nothing if only its last word rises (`none`, `loose`, `spare`).
///   In a line `spare` or `loose` only the last word falls, and LINE is the earlier one.
///
/// The last line is `safe OLD NEW` with the generations if none is there, or else `unsafe`. Offsets and
/// pointers are in bytes.
///
/// It scans each image once, as `scrub` does, with this many workers (0 to 64) beside the caller. The caller
/// then scans those of `resets` in the later one again whose write pointer isn't 0. Each extent is read whole
/// from both images, one after another, and once more if a payload is gone. The only fault is `OutOfMemory`,
/// returned once every started worker has ended.
pub fn compare<D: PageSource, E: PageSource, G: Gate, R: Threads + Wait + Sync>(
    rt: &R,
    alloc: Global,
    before: &D,
    after: &E,
    workers: u32,
    gate: &G,
    resets: &[u32],
) -> Result<(Listing, Takings, Takings), ScrubFault>
    requires workers { workers ≤ 64 }
    requires sizes { (E.image after.now).geometry ≡ (D.image before.now).geometry }
    requires rising { IsStrictlyIncreasing resets.now }
    ensures comparison { IfOk result (λ r.
        IsComparison resets.now (D.image before.now) (E.image after.now) r.0.text.items r.0.is_clean) }
    ensures takings { IfOk result (λ r. AreTakingsBy (D.image before.now) workers r.1) }
    ensures takings_now { IfOk result (λ r. AreTakingsBy (E.image after.now) workers r.2) }
{
    let (found_before, pages, takings) = judged_with_pages(rt, alloc, before, workers, gate)?;
    let (found_after, pages_now, takings_now) = judged_with_pages(rt, alloc, after, workers, gate)?;
    let (chosen, chosen_now) = (&found_before.scan.chosen, &found_after.scan.chosen);
    let generations = both_of(generation_of(chosen), generation_of(chosen_now));
    let doubts = doubts_of_both(alloc, &found_before, &found_after, &pages, &pages_now)?;
    let mut others = lines_of_extents(
        alloc,
        before,
        after,
        resets,
        &found_before,
        &found_after,
        &pages_now,
    )?;
    let found_after_resets = judged_after(rt, alloc, after, found_after, resets)?;
    append_manifest_changes(
        rt,
        alloc,
        &mut others,
        before,
        after,
        &found_before,
        &found_after_resets,
        resets,
    )?;
    let listing = listing_by(doubts, &others, generations)?;
    Ok((listing, takings, takings_now))
}

/// A law: for each list of extents to be reset, two images have at most one text of such lines, and at most
/// one verdict whether it is safe.
pub fn one_comparison()
    ensures { (resets : List ℕ) (before after : Image) (a b : List ℕ) (v w : Bool) →
        IsComparison resets before after a v → IsComparison resets before after b w → (a ≡ b) × (v ≡ w) }
{}

/// A law: each two images have a text of such lines, for each list of extents to be reset, and a verdict
/// whether it is safe. With `one_comparison`, they have exactly one of each.
pub fn each_pair_has_a_comparison()
    ensures { (resets : List ℕ) (before after : Image) →
        (text : List ℕ) × (safe : Bool) × IsComparison resets before after text safe }
{}
