//! The manifest of a disk: its retired extents, its index runs that aren't read as usual, and what the
//! locators of each shard name, wherever that lies; and what is said of the superblocks beside it.

ghost use Rattle.std.specs.Prelude.{◌≡◌, ◌++◌, ◌<◌, ◌≤◌, ◌&&◌, ◌==◌, ◌^◌, Bool, List, ℕ, All, AllPairs};
ghost use Rattle.std.specs.Prelude.{IfOk, IfSome, OnOk, Option, is_none, length, map, string_bytes};
ghost use Rattle.std.specs.Fmt.{decimal};
ghost use Rattle.std.specs.List.{count_by, flat_map};
ghost use Rattle.std.specs.List.Sorted.{IsStrictlyIncreasing};
ghost use Rattle.scrub_disk.specs.Image.{Image};
ghost use Rattle.scrub_frame.specs.declared.locator.Locator.{Locator};
ghost use Rattle.scrub_frame.specs.Locator.{IsLocator};
ghost use Rattle.scrub_run.specs.Entry.{IsBelow};
ghost use Rattle.scrub_scan.specs.Line.{spaced};
ghost use Rattle.scrub_check.specs.Checked.{is_hidden, named_of};
ghost use Rattle.scrub_check.specs.Named.{named_by_shard};
ghost use Rattle.scrub_found.specs.GivenRuns.{AreTakingsFrom, given_in};
ghost use Rattle.scrub_found.specs.Judged.{IsScanFrom};
ghost use Rattle.scrub_listings.specs.Manifest.{HoldTheSame, HoldsBytes, IsManifestBut, IsManifestFrom};
ghost use Rattle.scrub_listings.specs.Manifest.{IsRemarkedManifest, all_traits, after_status, copy_word};
ghost use Rattle.scrub_listings.specs.Manifest.{form_text, is_whole_by, looked_for};
ghost use Rattle.scrub_listings.specs.Manifest.{numbered_line, numbered_lines, numbered_text, retired_line};
ghost use Rattle.scrub_listings.specs.Manifest.{runs_line, shard_lines, spare_text, text_by, total_line};
ghost use Rattle.scrub_listings.specs.declared.remarks.SuperblockRemark.{SuperblockRemark};
ghost use Rattle.scrub_listings.specs.steps.Manifest.{after_status_by, is_of_read_row};

use crate::listing::Listing;
use crate::remarks::SuperblockRemark;
use crate::scanning::scan_with_remarks;
use scrub_check::{Checked, Owner, Status, form_at};
use scrub_disk::{OutOfMemory, PageSource};
use scrub_found::judging::are_sound;
use scrub_found::texts::{owner_text, status_text};
use scrub_found::{RunRow, Scan, ScrubFault, judged_of};
use scrub_frame::{Form, Locator};
use scrub_loose::{BestCopy, Copies};
use scrub_merge::Binding;
use scrub_pool::{Gate, Takings};
use scrub_scan::AllFindings;
use scrub_super::Plan;
use std::alloc::Global;
use std::fmt::Write;
use std::sync::Wait;
use std::thread::Threads;

/// The manifest of a disk, and what is said of its superblocks beside it.
#[derive(Debug, Drop)]
pub struct Manifest {
    /// The lines, each with its line feed.
    pub text: Vec<u8>,
    /// What is said of the superblocks: of the pages of extent 0, ascending, and then that there is a tie.
    pub remarks: Vec<SuperblockRemark>,
    /// Whether nothing is missing, and there is no remark.
    pub is_clean: bool,
}

/// Appends the number of a retired extent, with a space before it.
fn append_extent(text: &mut String, extent: u32) -> Result<(), OutOfMemory>
    ensures { OnOk result (string_bytes text.new ≡ string_bytes text.old ++ spaced (decimal extent)) }
{
    write!(text, " {extent}")
}

/// Appends the numbers of these retired extents.
fn append_extents(text: &mut String, retired: &[u32]) -> Result<(), OutOfMemory>
    ensures { OnOk result (string_bytes text.new ≡ string_bytes text.old ++
        flat_map (λ e. spaced (decimal e)) retired.now) }
{
    for extent in retired {
        append_extent(text, *extent)?;
    }
    Ok(())
}

/// Appends the line of the retired extents.
pub fn append_retired(text: &mut String, retired: &[u32]) -> Result<(), OutOfMemory>
    ensures { OnOk result (string_bytes text.new ≡ string_bytes text.old ++ retired_line retired.now) }
{
    write!(text, "retired")?;
    append_extents(text, retired)?;
    writeln!(text)
}

/// Appends the line of the index runs.
pub fn append_runs(text: &mut String, lost: usize, hidden: usize) -> Result<(), OutOfMemory>
    ensures { OnOk result (string_bytes text.new ≡ string_bytes text.old ++ runs_line lost hidden) }
{
    writeln!(text, "runs lost {lost} hidden {hidden}")
}

/// Appends what the line of a shard's locator of this number begins with.
pub fn append_text(
    alloc: Global,
    text: &mut String,
    number: usize,
    one: &Checked,
) -> Result<(), OutOfMemory>
    ensures { OnOk result (string_bytes text.new ≡ string_bytes text.old ++ numbered_text number one.now) }
{
    let owner = owner_text(alloc, one.owner)?;
    let (tens, ones) = (number / 10, number % 10);
    let length = one.locator.length;
    let digest = hex::encode(alloc, one.locator.digest)?;
    let status = status_text(one.status);
    write!(text, "{owner} {tens}{ones} {length} {digest} {status}")
}

/// Appends a space and the word for the form of a chunk, if it is known.
pub fn append_form(text: &mut String, form: Option<Form>) -> Result<(), OutOfMemory>
    ensures { OnOk result (string_bytes text.new ≡ string_bytes text.old ++ form_text form) }
{
    match form {
        Some(Form::Plain) => write!(text, " plain"),
        Some(Form::Sealed) => write!(text, " sealed"),
        None => Ok(()),
    }
}

/// Appends where the chunk of a locator is looked for.
pub fn append_place(text: &mut String, locator: &Locator) -> Result<(), OutOfMemory>
    ensures { OnOk result (string_bytes text.new ≡ string_bytes text.old ++ looked_for locator.now) }
{
    let Locator {
        extent,
        offset,
        uuid,
        ..
    } = locator;
    write!(text, " {extent} {offset} {uuid}")
}

/// The word for the best copy that is left.
pub fn copy_word(best: BestCopy) -> &'static str
    ensures { result.now ≡ copy_word best }
{
    match best {
        BestCopy::Nowhere => "none",
        BestCopy::Loose => "loose",
        BestCopy::Spare => "spare",
    }
}

/// Appends the best copy of a dangling locator; nothing for another.
fn append_spare(text: &mut String, status: Status, best: BestCopy) -> Result<(), OutOfMemory>
    ensures { OnOk result (string_bytes text.new ≡ string_bytes text.old ++ spare_text status best) }
{
    if !status.is_dangling() {
        return Ok(());
    }
    let word = copy_word(best);
    write!(text, " {word}")
}

/// Appends what follows a locator's status, by the form of the chunk at its place and by its best copy.
fn append_after_status(
    text: &mut String,
    form: Option<Form>,
    best: BestCopy,
    one: &Checked,
) -> Result<(), OutOfMemory>
    ensures { OnOk result (string_bytes text.new ≡ string_bytes text.old ++ after_status form best one.now) }
{
    if one.status.is_sound() {
        return append_form(text, form);
    }
    append_place(text, &one.locator)?;
    append_spare(text, one.status, best)
}

/// Appends the line of a shard's locator of this number.
fn append_numbered<D: PageSource>(
    alloc: Global,
    text: &mut String,
    all: &AllFindings<'_, D>,
    copies: &Copies,
    number: usize,
    one: &Checked,
) -> Result<(), OutOfMemory>
    ensures { OnOk result (string_bytes text.new ≡ string_bytes text.old ++
        numbered_line (after_status_by all.now.extents copies.now) number one.now) }
{
    append_text(alloc, text, number, one)?;
    let form = form_at(all, &one.locator);
    append_after_status(text, form, copies.best(one), one)?;
    writeln!(text)
}

/// Appends the lines of the locators of one shard, numbered from 0.
fn append_shard<D: PageSource>(
    alloc: Global,
    text: &mut String,
    all: &AllFindings<'_, D>,
    copies: &Copies,
    own: &[Checked],
) -> Result<(), OutOfMemory>
    ensures { OnOk result (string_bytes text.new ≡ string_bytes text.old ++
        numbered_lines (after_status_by all.now.extents copies.now) own.now) }
{
    for (number, one) in own.iter().enumerate() {
        append_numbered(alloc, text, all, copies, number, one)?;
    }
    Ok(())
}

/// Appends the lines of the shards of these bindings, whose locators are one after another in `checked`.
fn append_shards<D: PageSource>(
    alloc: Global,
    text: &mut String,
    all: &AllFindings<'_, D>,
    copies: &Copies,
    bindings: &[Binding],
    checked: &[Checked],
) -> Result<(), OutOfMemory>
    requires rising { AllPairs (λ b c. IsBelow b.id c.id) bindings.now }
    requires along { map named_of checked.now ≡ flat_map named_by_shard bindings.now }
    ensures { OnOk result (string_bytes text.new ≡
        string_bytes text.old ++ flat_map (λ b.
        shard_lines (after_status_by all.now.extents copies.now) checked.now b.id) bindings.now) }
{
    let mut rest = checked;
    for binding in bindings {
        let (own, behind) = rest.split_at(binding.locators().len());
        append_shard(alloc, text, all, copies, own)?;
        rest = behind;
    }
    Ok(())
}

/// Appends the last line.
fn append_total(text: &mut String, shards: usize, locators: usize) -> Result<(), OutOfMemory>
    ensures { OnOk result (string_bytes text.new ≡ string_bytes text.old ++ total_line shards locators) }
{
    writeln!(text, "total {shards} {locators}")
}

/// How many index runs are lost, and how many are read though their locator is hidden.
#[derive(Clone, Copy)]
struct RunCounts {
    lost: usize,
    hidden: usize,
}

/// The text by what was scanned, the copies, the plan, the numbers of runs, the bindings, and the named
/// locators of their shards.
fn text_by<D: PageSource>(
    alloc: Global,
    all: &AllFindings<'_, D>,
    copies: &Copies,
    plan: &Plan,
    runs: RunCounts,
    bindings: &[Binding],
    shards: &[Checked],
) -> Result<String, OutOfMemory>
    requires rising { AllPairs (λ b c. IsBelow b.id c.id) bindings.now }
    requires along { map named_of shards.now ≡ flat_map named_by_shard bindings.now }
    ensures { IfOk result (λ text. string_bytes text ≡ text_by (after_status_by all.now.extents copies.now)
        plan.now.has_superblock plan.now.retired runs.lost runs.hidden bindings.now shards.now) }
{
    if !plan.has_superblock() {
        return format!(in alloc; "no-superblock\n");
    }
    let mut text = String::new(alloc);
    append_retired(&mut text, plan.retired())?;
    append_runs(&mut text, runs.lost, runs.hidden)?;
    append_shards(alloc, &mut text, all, copies, bindings, shards)?;
    append_total(&mut text, bindings.len(), shards.len())?;
    Ok(text)
}

/// How many index runs are lost.
pub fn lost_run_count(runs: &[RunRow]) -> usize
    ensures { result ≡ count_by (λ r. is_none r.entries) runs.now }
{
    runs.iter().filter(|run| run.entries.is_none()).count()
}

/// Whether an index run that is read names a locator.
fn is_of_read_run(runs: &[RunRow], owner: Owner) -> bool
    ensures { result ≡ is_of_read_row runs.now owner }
{
    match owner {
        Owner::Run(number) => match runs.get(number as usize) {
            Some(run) => run.entries.is_some(),
            None => false,
        },
        Owner::Shard(_) => false,
    }
}

/// How many of these locators are hidden, and named by an index run that is read.
pub fn hidden_runs(runs: &[RunRow], checked: &[Checked]) -> usize
    ensures { result ≡ count_by (λ c. is_hidden c.status && is_of_read_row runs.now c.owner) checked.now }
{
    checked
        .iter()
        .filter(|one| one.status.is_hidden() && is_of_read_run(runs, one.owner))
        .count()
}

/// Whether nothing is missing, by the plan, the numbers of lost and of hidden runs, and the locators of
/// shards.
fn is_whole_by(plan: &Plan, lost: usize, hidden: usize, shards: &[Checked]) -> bool
    ensures { result ≡ is_whole_by plan.now.has_superblock lost hidden shards.now }
{
    plan.has_superblock() && lost == 0 && hidden == 0 && are_sound(shards)
}

/// The manifest of a scanned disk, by the index runs that were given, or as if these extents had been reset.
fn manifest_of<R: Threads + Sync, D: PageSource>(
    rt: &R,
    alloc: Global,
    scan: Scan<'_, D>,
    resets: &[u32],
) -> Result<Listing, OutOfMemory>
    requires { (given : Option (List Locator)) × IsScanFrom given resets.now (D.image scan.disk.now) scan }
    ensures { (given : Option (List Locator)) →
        IsScanFrom given resets.now (D.image scan.entry.disk.now) scan.entry → IfOk result (λ m.
        IsManifestFrom given resets.now (D.image scan.entry.disk.now) m.text.items m.is_clean) }
{
    let disk = scan.disk;
    let judged = judged_of(rt, alloc, scan)?;
    let Scan { plan, all, .. } = &judged.scan;
    let (_runs, shards) = judged.checked.split_at(plan.runs().len());
    let copies = Copies::of(rt, alloc, disk, plan, all, resets, &judged.checked)?;
    let lost = lost_run_count(&judged.runs);
    let hidden = hidden_runs(&judged.runs, &judged.checked);
    let text = text_by(
        alloc,
        all,
        &copies,
        plan,
        RunCounts { lost, hidden },
        judged.map.bindings(),
        shards,
    )?;
    let is_clean = is_whole_by(plan, lost, hidden, shards);
    Ok(Listing {
        text: text.into_bytes(),
        is_clean,
    })
}

/// Whether nothing is missing, and there is no remark.
fn is_clean_by(is_whole: bool, remarks: &[SuperblockRemark]) -> bool
    ensures { result ≡ (is_whole && length remarks.now == 0) }
{
    is_whole && remarks.is_empty()
}

/// Lists what a disk holds, wherever it lies, as lines that can be kept, compared and signed, with what is
/// said of its superblocks beside them, and returns which extents the caller and each worker took. The disk
/// is taken as if these extents, which are ascending, had been reset, which puts a write pointer to 0; their
/// frames are no loose copies then. It is clean if a superblock counts, no index run is lost or hidden, each
/// locator of a shard is sound, and there is no remark.
///
/// First comes `retired` with the retired extents, ascending, and `runs lost L hidden H` with how many index
/// runs are lost, and how many are read though their locator is hidden. Then for each shard of the shard map,
/// by identifier, and each of its locators, in their order, comes `shard ID NUMBER LENGTH DIGEST STATUS`.
/// After `sound` comes the form of the chunk, `plain` or `sealed`; after another status `EXTENT OFFSET UUID`
/// of the locator, and if it dangles its best copy: `spare` where it has a spare, `loose` where it has none,
/// but a loose copy, or else `none`. The number is that of the locator among the shard's, from 00, always in
/// two digits. The length, that of the payload, and the offset are in bytes. Identifier and digest (SHA-256)
/// are in hexadecimal digits, in lower case. The status has the report's words. At the end comes `total` with
/// the numbers of shards and of their locators. Without a superblock there is one line `no-superblock` alone.
///
/// There is a remark for each page of extent 0 that can't be read or is damaged, ascending, and then one if
/// there is a tie. They don't depend on the extents that are taken as reset.
///
/// If index runs are given, newest first and fewer than 2^32, it is as if one superblock counted that lists
/// these, retires nothing, and has each write pointer at its extent's end. What is in extent 0 doesn't matter
/// then, so there are no remarks.
///
/// It scans as `scrub` does, with this many workers (0 to 64) beside the caller. The bytes of the extents in
/// use are read once more if a locator that dangles asks for bytes and has no spare. The only fault is
/// `OutOfMemory`, returned once every started worker has ended.
pub fn list_manifest<D: PageSource, G: Gate, R: Threads + Wait + Sync>(
    rt: &R,
    alloc: Global,
    disk: &D,
    workers: u32,
    gate: &G,
    given: Option<&[Locator]>,
    resets: &[u32],
) -> Result<(Manifest, Takings), ScrubFault>
    requires workers { workers ≤ 64 }
    requires few { IfSome given (λ runs. length runs.now < 2 ^ 32) }
    requires located { IfSome given (λ runs. All IsLocator runs.now) }
    requires rising { IsStrictlyIncreasing resets.now }
    ensures manifest { IfOk result (λ r.
        IsRemarkedManifest (given_in given.entry) resets.now (D.image disk.now)
        r.0.text.items r.0.remarks.items r.0.is_clean) }
    ensures takings { IfOk result (λ r.
        AreTakingsFrom (given_in given.entry) (D.image disk.now) workers r.1) }
{
    let (scan, remarks, takings) = scan_with_remarks(
        rt, alloc, disk, workers, gate, given, resets,
    )?;
    let manifest = manifest_of(rt, alloc, scan, resets)?;
    let is_clean = is_clean_by(manifest.is_clean, &remarks);
    Ok((
        Manifest {
            text: manifest.text,
            remarks,
            is_clean,
        },
        takings,
    ))
}

/// A law: by index runs that are given, or else by the superblock that counts as if some extents had been
/// reset, an image has at most one manifest, one list of remarks, and one verdict.
pub fn one_manifest()
    ensures text { (given : Option (List Locator)) (resets : List ℕ) (image : Image) (a b : List ℕ)
        (v w : Bool) → IsManifestFrom given resets image a v → IsManifestFrom given resets image b w →
        (a ≡ b) × (v ≡ w) }
    ensures remarked { (given : Option (List Locator)) (resets : List ℕ) (image : Image) (a b : List ℕ)
        (r s : List SuperblockRemark) (v w : Bool) → IsRemarkedManifest given resets image a r v →
        IsRemarkedManifest given resets image b s w → (a ≡ b) × (r ≡ s) × (v ≡ w) }
{}

/// A law: two disks with one manifest, as if whichever extents had been reset, both have a superblock or
/// none, they have the same retired extents, as many index runs are lost or hidden, and the same is said of
/// the shards' locators, so that nothing is missing of both or something of each. If the images are of bytes,
/// they have the same shards, with the same lengths, digests and statuses in order, the same forms of the
/// chunks of sound locators, the same extents and offsets of others, and the same best copies of dangling
/// ones.
pub fn one_manifest_holds_the_same()
    ensures said { (resets others : List ℕ) (image other : Image) (text : List ℕ) (v w : Bool)
        (x : IsManifestBut resets image text v) (y : IsManifestBut others other text w) →
        HoldTheSame x.found x.loose.frames y.found y.loose.frames }
    ensures whole { (resets others : List ℕ) (image other : Image) (text : List ℕ) (v w : Bool) →
        IsManifestBut resets image text v → IsManifestBut others other text w → v ≡ w }
    ensures shards { (resets others : List ℕ) (image other : Image) (text : List ℕ) (v w : Bool)
        (x : IsManifestBut resets image text v) (y : IsManifestBut others other text w) →
        HoldsBytes image → HoldsBytes other →
        all_traits x.found x.loose.frames ≡ all_traits y.found y.loose.frames }
{}

/// A law: by index runs that can be given, or else by the superblock that counts as if some extents had been
/// reset, each image has a manifest, a list of remarks, and a verdict. With `one_manifest`, it has exactly
/// one of each.
pub fn each_image_has_a_manifest()
    ensures text { (given : Option (List Locator)) (resets : List ℕ) (image : Image) →
        IfSome given (λ runs. (length runs < 2 ^ 32) × All IsLocator runs) →
        (text : List ℕ) × (whole : Bool) × IsManifestFrom given resets image text whole }
    ensures remarked { (given : Option (List Locator)) (resets : List ℕ) (image : Image) →
        IfSome given (λ runs. (length runs < 2 ^ 32) × All IsLocator runs) → (text : List ℕ) ×
        (remarks : List SuperblockRemark) × (clean : Bool) ×
        IsRemarkedManifest given resets image text remarks clean }
{}
