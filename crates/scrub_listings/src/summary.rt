//! The summary of a disk: a verdict, and numbers by their names, for a person and for monitoring.

ghost use Rattle.std.specs.Prelude.{◌≡◌, ◌+◌, ◌++◌, ◌||◌, ◌^◌, ◌<◌, ◌≤◌, Bool, List, ℕ, IfOk, OnOk};
ghost use Rattle.std.specs.Prelude.{Option, []};
ghost use Rattle.std.specs.Prelude.{is_none};
ghost use Rattle.std.specs.Prelude.{length, map, string_bytes, sum};
ghost use Rattle.std.specs.List.{count_by, filter, list_any, sum_by};
ghost use Rattle.std.specs.Option.{option_map_or};
ghost use Rattle.scrub_disk.specs.Image.{Image};
ghost use Rattle.scrub_super.specs.declared.pages.SuperblockPage.{SuperblockPage};
ghost use Rattle.scrub_super.specs.Pages.{AreSuperblockPages, is_damaged, is_odd, is_stray};
ghost use Rattle.scrub_scan.specs.Scanned.{scanned};
ghost use Rattle.scrub_check.specs.declared.statuses.checked.Checked.{Checked};
ghost use Rattle.scrub_check.specs.Checked.{is_dangling, is_hidden};
ghost use Rattle.scrub_check.specs.Chunks.{orphans, twins};
ghost use Rattle.scrub_check.specs.Live.{is_chunk, live_bytes, size_of};
ghost use Rattle.scrub_check.specs.Runs.{ReadRunsValue};
ghost use Rattle.scrub_loose.specs.Loose.{AreCopies};
ghost use Rattle.scrub_found.specs.Takings.{AreTakingsBy};
ghost use Rattle.scrub_found.specs.Judged.{AreRowsOf, IsScan, found_in};
ghost use Rattle.scrub_listings.specs.steps.Summary.{AreSummaryLists, beside_lists};
ghost use Rattle.scrub_listings.specs.Summary.{IsSummary, candidate_numbers, chunk_numbers};
ghost use Rattle.scrub_listings.specs.Summary.{counted_in, counts_as, disk_numbers, has_spare_by, is_behind};
ghost use Rattle.scrub_listings.specs.Summary.{has_loose_copy_by, is_lost, is_noise};
ghost use Rattle.scrub_listings.specs.Summary.{is_sound_verdict, is_torn, item_numbers};
ghost use Rattle.scrub_listings.specs.Summary.{number_line, number_lines, numbers_by, one_if};
ghost use Rattle.scrub_listings.specs.Summary.{reading_numbers, shard_numbers, superblock_numbers};
ghost use Rattle.scrub_listings.specs.Summary.{verdict, verdict_by, verdict_line, verdict_text};

use crate::listing::Listing;
use crate::manifest::lost_run_count;
use scrub_check::{Candidate, Checked, Liveness, Place, broken_shards, is_chunk, size_of};
use scrub_disk::{OutOfMemory, PageSource};
use scrub_found::judging::{are_sound, liveness_and_twins};
use scrub_found::{Judged, Scan, ScrubFault, is_clean, judged_of, scan_chosen};
use scrub_loose::Copies;
use scrub_merge::Binding;
use scrub_pool::{Gate, Takings};
use scrub_run::ShardId;
use scrub_scan::{AllFindings, ExtentResult, Item};
use scrub_super::{Chosen, Plan, SuperblockPage, choose_with_pages};
use std::alloc::Global;
use std::fmt::Write;
use std::sync::Wait;
use std::thread::Threads;

/// What a disk is like, in one word.
#[derive(Clone, Copy)]
pub enum Verdict {
    /// It is clean, and there is no doubt.
    Sound,
    /// It is clean, but a page of extent 0 is damaged or stray, or the superblock that counts isn't the last
    /// one that was written. This isn't what candidates call in doubt: a disk with that isn't clean.
    InDoubt,
    /// It isn't clean.
    Wrong,
}

/// What is counted in each extent.
#[derive(Clone, Copy)]
pub(crate) enum Counted {
    /// Pages that can't be read.
    UnreadablePages,
    /// Chunks.
    Chunks,
    /// The bytes that chunks take.
    ChunkBytes,
    /// Torn items.
    TornItems,
    /// Items of noise.
    NoiseItems,
    /// Lost items.
    LostItems,
    /// 1 if the extent has nonzero bytes at or past its write pointer, or else 0.
    Tails,
    /// How many such bytes it has.
    TailBytes,
}

/// Whether a page of extent 0 is damaged or stray.
fn is_suspect(page: &SuperblockPage) -> bool
    ensures { result ≡ is_odd page.now }
{
    page.is_damaged() || page.is_stray()
}

/// Whether one of these pages is damaged or stray.
fn has_suspect_page(pages: &[SuperblockPage]) -> bool
    ensures { result ≡ list_any is_odd pages.now }
{
    pages.iter().any(|page| is_suspect(page))
}

/// Whether a superblock counts, and has this generation.
pub fn counts_as(chosen: &Chosen, generation: u64) -> bool
    ensures { result ≡ counts_as chosen.now generation }
{
    match chosen.superblock() {
        Some(superblock) => superblock.generation() == generation,
        None => false,
    }
}

/// Whether the generation of the last superblock that was written is given, and isn't the one that counts.
fn is_behind(last: Option<u64>, chosen: &Chosen) -> bool
    ensures { result ≡ is_behind last chosen.now }
{
    match last {
        Some(generation) => !counts_as(chosen, generation),
        None => false,
    }
}

/// Whether there is a doubt: one of these pages is damaged or stray, or another generation counts than was
/// given.
fn has_doubt(last: Option<u64>, chosen: &Chosen, pages: &[SuperblockPage]) -> bool
    ensures { result ≡ list_any is_odd pages.now || is_behind last chosen.now }
{
    has_suspect_page(pages) || is_behind(last, chosen)
}

/// The verdict on a disk that is clean or isn't, by whether there is a doubt.
fn verdict_by(is_clean: bool, has_doubt: bool) -> Verdict
    ensures { result ≡ verdict_by is_clean has_doubt }
{
    if !is_clean {
        return Verdict::Wrong;
    }
    if has_doubt {
        return Verdict::InDoubt;
    }
    Verdict::Sound
}

/// Whether a verdict is that the disk is sound.
fn is_sound_verdict(verdict: Verdict) -> bool
    ensures { result ≡ is_sound_verdict verdict }
{
    matches!(verdict, Verdict::Sound)
}

/// The word for a verdict.
fn verdict_text(verdict: Verdict) -> &'static str
    ensures { result.now ≡ verdict_text verdict }
{
    match verdict {
        Verdict::Sound => "sound",
        Verdict::InDoubt => "doubt",
        Verdict::Wrong => "wrong",
    }
}

fn append_verdict(text: &mut String, verdict: Verdict) -> Result<(), OutOfMemory>
    ensures { OnOk result (string_bytes text.new ≡ string_bytes text.old ++ verdict_line verdict) }
{
    let word = verdict_text(verdict);
    writeln!(text, "verdict {word}")
}

/// Appends the line of a name and its number.
fn append_number(text: &mut String, name: &str, number: u128) -> Result<(), OutOfMemory>
    ensures { OnOk result (string_bytes text.new ≡ string_bytes text.old ++ number_line (name.now, number)) }
{
    writeln!(text, "{name} {number}")
}

/// Appends the lines of names and their numbers.
fn append_numbers(text: &mut String, numbers: &[(&str, u128)]) -> Result<(), OutOfMemory>
    ensures { OnOk result (string_bytes text.new ≡ string_bytes text.old ++
        number_lines (map (λ m. (m.0.now, m.1)) numbers.now)) }
{
    for (name, number) in numbers {
        append_number(text, name, *number)?;
    }
    Ok(())
}

fn is_torn(item: &Item) -> bool
    ensures { result ≡ is_torn item.now }
{
    matches!(item, Item::Torn { .. })
}

fn is_noise(item: &Item) -> bool
    ensures { result ≡ is_noise item.now }
{
    matches!(item, Item::Noise { .. })
}

fn is_lost(item: &Item) -> bool
    ensures { result ≡ is_lost item.now }
{
    matches!(item, Item::Lost { .. })
}

/// How many bytes the chunks among items of an extent take.
fn chunk_bytes(items: &[Item]) -> u32
    requires { sum_by size_of items.now < 2 ^ 32 }
    ensures { result ≡ sum_by size_of (filter is_chunk items.now) }
{
    items
        .iter()
        .filter(|item| is_chunk(item))
        .map(|item| size_of(item))
        .sum()
}

fn chunk_count(items: &[Item]) -> usize
    ensures { result ≡ count_by is_chunk items.now }
{
    items.iter().filter(|item| is_chunk(item)).count()
}

fn torn_count(items: &[Item]) -> usize
    ensures { result ≡ count_by is_torn items.now }
{
    items.iter().filter(|item| is_torn(item)).count()
}

fn noise_count(items: &[Item]) -> usize
    ensures { result ≡ count_by is_noise items.now }
{
    items.iter().filter(|item| is_noise(item)).count()
}

fn lost_count(items: &[Item]) -> usize
    ensures { result ≡ count_by is_lost items.now }
{
    items.iter().filter(|item| is_lost(item)).count()
}

/// What is counted in an extent.
fn counted_in<D: PageSource>(counted: Counted, found: &ExtentResult<'_, D>) -> u64
    ensures { result ≡ counted_in counted (scanned found.now) }
{
    let findings = found.findings();
    let items = findings.items();
    match counted {
        Counted::UnreadablePages => findings.bad_pages().len() as u64,
        Counted::Chunks => chunk_count(items) as u64,
        Counted::ChunkBytes => u64::from(chunk_bytes(items)),
        Counted::TornItems => torn_count(items) as u64,
        Counted::NoiseItems => noise_count(items) as u64,
        Counted::LostItems => lost_count(items) as u64,
        Counted::Tails => u64::from(findings.tail_count() > 0),
        Counted::TailBytes => u64::from(findings.tail_count()),
    }
}

/// What is counted in all extents. Sums are of 128 bits, so that none can wrap.
fn counted_in_all<D: PageSource>(counted: Counted, all: &AllFindings<'_, D>) -> u128
    ensures sum { result ≡ sum_by (counted_in counted) all.now.extents }
    ensures few { result + 2 ^ 64 ≤ 2 ^ 128 }
{
    let mut total = 0u128;
    for found in all.results() {
        total += u128::from(counted_in(counted, found));
    }
    total
}

/// The sum of some numbers.
fn sum_of(numbers: &[u32]) -> u128
    ensures { result ≡ sum numbers.now }
{
    let mut total = 0u128;
    for number in numbers {
        total += u128::from(*number);
    }
    total
}

/// How many bytes reclaiming these extents frees.
fn freed_by(candidates: &[Candidate]) -> u128
    ensures { result ≡ sum_by (λ a. a.free) candidates.now }
{
    let mut total = 0u128;
    for candidate in candidates {
        total += u128::from(candidate.free());
    }
    total
}

/// How many chunks must be moved before these extents are reclaimed.
fn moved_for(candidates: &[Candidate]) -> u128
    ensures { result ≡ sum_by (λ a. length a.chunks) candidates.now }
{
    let mut total = 0u128;
    for candidate in candidates {
        total += candidate.chunks().len() as u128;
    }
    total
}

/// 1 if it is so, or else 0.
fn one_if(is_so: bool) -> u128
    ensures { result ≡ one_if is_so }
{
    if is_so { 1 } else { 0 }
}

/// How many pages of extent 0 are damaged.
fn damaged_count(pages: &[SuperblockPage]) -> usize
    ensures { result ≡ count_by is_damaged pages.now }
{
    pages.iter().filter(|page| page.is_damaged()).count()
}

/// How many pages of extent 0 are stray.
fn stray_count(pages: &[SuperblockPage]) -> usize
    ensures { result ≡ count_by is_stray pages.now }
{
    pages.iter().filter(|page| page.is_stray()).count()
}

/// How many shards are doubtful.
fn doubtful_count(bindings: &[Binding]) -> usize
    ensures { result ≡ count_by (λ b. b.doubtful) bindings.now }
{
    bindings.iter().filter(|one| one.doubtful()).count()
}

/// How many named locators are hidden.
fn hidden_count(checked: &[Checked]) -> usize
    ensures { result ≡ count_by (λ c. is_hidden c.status) checked.now }
{
    checked.iter().filter(|one| one.status.is_hidden()).count()
}

/// How many named locators dangle.
fn dangling_count(checked: &[Checked]) -> usize
    ensures { result ≡ count_by (λ c. is_dangling c.status) checked.now }
{
    checked
        .iter()
        .filter(|one| one.status.is_dangling())
        .count()
}

/// How many named locators have spares among these copies.
fn count_spared(copies: &Copies, checked: &[Checked]) -> usize
    ensures { result ≡ count_by (has_spare_by copies.now.spares) checked.now }
{
    checked
        .iter()
        .filter(|one| !copies.spares_of(one).is_empty())
        .count()
}

/// How many named locators have loose copies among these copies.
fn count_loose(copies: &Copies, checked: &[Checked]) -> usize
    ensures { result ≡ count_by (has_loose_copy_by copies.now) checked.now }
{
    checked
        .iter()
        .filter(|one| !copies.loose_of(one).is_empty())
        .count()
}

/// The generation of the superblock that counts, or 0 if there is none.
fn generation_of(chosen: &Chosen) -> u64
    ensures { result ≡ option_map_or (λ c. c.generation) chosen.now.superblock 0 }
{
    match chosen.superblock() {
        Some(superblock) => superblock.generation(),
        None => 0,
    }
}

/// Appends the sizes of a disk.
fn append_disk(text: &mut String, plan: &Plan) -> Result<(), OutOfMemory>
    ensures { OnOk result (string_bytes text.new ≡ string_bytes text.old ++
        number_lines (disk_numbers plan.now)) }
{
    let geometry = plan.geometry();
    append_numbers(
        text,
        &[
            ("page_bytes", u128::from(geometry.page())),
            ("extent_pages", u128::from(geometry.pages())),
            ("extents", u128::from(geometry.extents())),
            ("retired_extents", plan.retired().len() as u128),
        ],
    )
}

/// Appends what there is of superblocks.
fn append_superblocks(
    text: &mut String,
    chosen: &Chosen,
    pages: &[SuperblockPage],
) -> Result<(), OutOfMemory>
    ensures { OnOk result (string_bytes text.new ≡ string_bytes text.old ++
        number_lines (superblock_numbers chosen.now pages.now)) }
{
    append_numbers(
        text,
        &[
            ("superblocks", u128::from(chosen.records())),
            ("superblock_generation", u128::from(generation_of(chosen))),
            ("superblock_tie", one_if(chosen.tie())),
            ("superblocks_damaged", damaged_count(pages) as u128),
            ("superblocks_stray", stray_count(pages) as u128),
        ],
    )
}

/// Appends what can't be read.
fn append_reading<D: PageSource>(
    text: &mut String,
    chosen: &Chosen,
    plan: &Plan,
    all: &AllFindings<'_, D>,
    lost: usize,
) -> Result<(), OutOfMemory>
    ensures { OnOk result (string_bytes text.new ≡
        string_bytes text.old ++ number_lines (reading_numbers chosen.now plan.now all.now.extents lost)) }
{
    let pages = chosen.bad_pages().len() as u128 + counted_in_all(Counted::UnreadablePages, all);
    append_numbers(
        text,
        &[
            ("unreadable_pages", pages),
            ("runs", plan.runs().len() as u128),
            ("runs_lost", lost as u128),
        ],
    )
}

/// Appends what there is of shards and of named locators.
fn append_shards(
    text: &mut String,
    bindings: &[Binding],
    broken: usize,
    checked: &[Checked],
    spared: usize,
    loose: usize,
) -> Result<(), OutOfMemory>
    ensures { OnOk result (string_bytes text.new ≡ string_bytes text.old ++
        number_lines (shard_numbers bindings.now broken checked.now spared loose)) }
{
    append_numbers(
        text,
        &[
            ("shards", bindings.len() as u128),
            ("shards_broken", broken as u128),
            ("shards_doubtful", doubtful_count(bindings) as u128),
            ("locators", checked.len() as u128),
            ("locators_hidden", hidden_count(checked) as u128),
            ("locators_dangling", dangling_count(checked) as u128),
            ("spares", spared as u128),
            ("loose_copies", loose as u128),
        ],
    )
}

/// Appends what there is of chunks, by the live bytes of each extent, and by how many orphans, twins and
/// shared places there are.
fn append_chunks<D: PageSource>(
    text: &mut String,
    all: &AllFindings<'_, D>,
    live: &[u32],
    orphan_count: usize,
    twin_count: usize,
    shared: usize,
) -> Result<(), OutOfMemory>
    requires { twin_count ≡ length (twins all.now.extents) }
    ensures { (checked : List Checked) → live.now ≡ map (live_bytes checked) all.now.extents →
        orphan_count ≡ length (orphans all.now.extents checked) →
        OnOk result (string_bytes text.new ≡ string_bytes text.old ++
        number_lines (chunk_numbers all.now.extents checked shared)) }
{
    let chunks = counted_in_all(Counted::Chunks, all);
    let bytes = counted_in_all(Counted::ChunkBytes, all);
    let live_bytes = sum_of(live);
    let orphan_count = orphan_count as u128;
    append_numbers(
        text,
        &[
            ("chunks", chunks),
            ("chunk_bytes", bytes),
            ("live_chunks", chunks.saturating_sub(orphan_count)),
            ("live_bytes", live_bytes),
            ("orphans", orphan_count),
            ("orphan_bytes", bytes.saturating_sub(live_bytes)),
            ("twins", twin_count as u128),
            ("shared_places", shared as u128),
        ],
    )
}

/// Appends what there is of other items, and of tails.
fn append_items<D: PageSource>(
    text: &mut String,
    all: &AllFindings<'_, D>,
) -> Result<(), OutOfMemory>
    ensures { OnOk result (string_bytes text.new ≡ string_bytes text.old ++
        number_lines (item_numbers all.now.extents)) }
{
    append_numbers(
        text,
        &[
            ("torn_items", counted_in_all(Counted::TornItems, all)),
            ("noise_items", counted_in_all(Counted::NoiseItems, all)),
            ("lost_items", counted_in_all(Counted::LostItems, all)),
            ("tails", counted_in_all(Counted::Tails, all)),
            ("tail_bytes", counted_in_all(Counted::TailBytes, all)),
        ],
    )
}

/// Appends what may be reclaimed.
fn append_candidates(text: &mut String, candidates: &[Candidate]) -> Result<(), OutOfMemory>
    ensures { OnOk result (string_bytes text.new ≡ string_bytes text.old ++
        number_lines (candidate_numbers candidates.now)) }
{
    append_numbers(
        text,
        &[
            ("candidates", candidates.len() as u128),
            ("candidate_bytes", freed_by(candidates)),
            ("chunks_to_move", moved_for(candidates)),
        ],
    )
}

/// What follows from the judged locators of a disk, and is counted.
#[derive(Drop)]
pub(crate) struct CountedLists {
    /// What follows from which chunks are live.
    pub liveness: Liveness,
    /// The chunks whose UUID another chunk has too.
    pub twins: Vec<Place>,
    /// The shards with a dangling locator.
    pub broken: Vec<ShardId>,
}

/// What follows from judged locators.
fn lists_of<R: Threads + Sync, D: PageSource>(
    rt: &R,
    alloc: Global,
    judged: &Judged<'_, D>,
) -> Result<CountedLists, OutOfMemory>
    ensures { IfOk result (AreSummaryLists judged.now) }
{
    let (liveness, twins) = liveness_and_twins(rt, alloc, judged)?;
    Ok(CountedLists {
        liveness,
        twins,
        broken: broken_shards(alloc, &judged.checked)?,
    })
}

/// Appends all numbers of what was found, with these pages of extent 0 and these copies.
fn append_all<D: PageSource>(
    text: &mut String,
    pages: &[SuperblockPage],
    judged: &Judged<'_, D>,
    lists: &CountedLists,
    copies: &Copies,
) -> Result<(), OutOfMemory>
    requires { AreSummaryLists judged.now lists.now }
    ensures { (read : ReadRunsValue) (image : Image)
        (are : AreCopies [] image judged.now.scan.plan judged.now.scan.all.extents
        judged.now.checked.items copies.now) →
        AreRowsOf judged.now.scan.plan.runs read judged.now.runs.items →
        OnOk result (string_bytes text.new ≡ string_bytes text.old ++
        number_lines (numbers_by pages.now (found_in judged.now (beside_lists read lists.now))
        are.found.frames (count_by is_none read.runs))) }
{
    let Scan {
        chosen,
        plan,
        all,
        ..
    } = &judged.scan;
    let lost = lost_run_count(&judged.runs);
    let live = &lists.liveness.live;
    let orphan_count = lists.liveness.orphans.len();
    let shared = lists.liveness.shared.len();
    let bindings = judged.map.bindings();
    let broken = lists.broken.len();
    let spared = count_spared(copies, &judged.checked);
    let loose = count_loose(copies, &judged.checked);
    append_disk(text, plan)?;
    append_superblocks(text, chosen, pages)?;
    append_reading(text, chosen, plan, all, lost)?;
    append_shards(text, bindings, broken, &judged.checked, spared, loose)?;
    append_chunks(text, all, live, orphan_count, lists.twins.len(), shared)?;
    append_items(text, all)?;
    append_candidates(text, &lists.liveness.candidates)
}

/// The summary of a scanned disk, whose extent 0 has these pages.
fn summary_of<R: Threads + Sync, D: PageSource>(
    rt: &R,
    alloc: Global,
    scan: Scan<'_, D>,
    pages: &[SuperblockPage],
    last: Option<u64>,
) -> Result<Listing, OutOfMemory>
    requires scan { IsScan (D.image scan.disk.now) scan }
    requires pages { AreSuperblockPages (D.image scan.disk.now) pages.now }
    ensures { IfOk result (λ s. IsSummary last (D.image scan.entry.disk.now) s.text.items s.is_clean) }
{
    let disk = scan.disk;
    let judged = judged_of(rt, alloc, scan)?;
    let lists = lists_of(rt, alloc, &judged)?;
    let has_doubt = has_doubt(last, &judged.scan.chosen, pages);
    let are_sound = are_sound(&judged.checked);
    let is_clean = is_clean(
        &judged.scan,
        &judged.runs,
        are_sound,
        &lists.liveness.shared,
    );
    let verdict = verdict_by(is_clean, has_doubt);
    let Scan { plan, all, .. } = &judged.scan;
    let copies = Copies::of(rt, alloc, disk, plan, all, &[], &judged.checked)?;
    let mut text = String::new(alloc);
    append_verdict(&mut text, verdict)?;
    append_all(&mut text, pages, &judged, &lists, &copies)?;
    Ok(Listing {
        text: text.into_bytes(),
        is_clean: is_sound_verdict(verdict),
    })
}

/// Sums a disk up, and returns which extents the caller and each worker took. It is clean if its verdict is
/// `sound`.
///
/// First comes `verdict sound`, `verdict doubt` or `verdict wrong`, and then `NAME NUMBER` for each number,
/// always all of them in the same order. `spares` and `loose_copies` are numbers of named locators: of those
/// that have spares, and of those that have none, but loose copies. If `last` is given, the generation of the
/// last superblock that was written to the disk, the verdict isn't `sound` unless the superblock that counts
/// has it.
///
/// It scans as `scrub` does, with this many workers (0 to 64) beside the caller. The bytes of the extents in
/// use are read once more if a locator that dangles asks for bytes and has no spare. The only fault is
/// `OutOfMemory`, returned once every started worker has ended.
pub fn list_summary<D: PageSource, G: Gate, R: Threads + Wait + Sync>(
    rt: &R,
    alloc: Global,
    disk: &D,
    workers: u32,
    gate: &G,
    last: Option<u64>,
) -> Result<(Listing, Takings), ScrubFault>
    requires { workers ≤ 64 }
    ensures summary { IfOk result (λ r. IsSummary last (D.image disk.now) r.0.text.items r.0.is_clean) }
    ensures takings { IfOk result (λ r. AreTakingsBy (D.image disk.now) workers r.1) }
{
    let (chosen, pages) = choose_with_pages(alloc, disk)?;
    let (scan, takings) = scan_chosen(rt, alloc, disk, chosen, workers, gate, &[])?;
    let summary = summary_of(rt, alloc, scan, &pages, last)?;
    Ok((summary, takings))
}

/// A law: an image has at most one summary, and one verdict whether it is sound.
pub fn one_summary()
    ensures { (last : Option ℕ) (image : Image) (a b : List ℕ) (v w : Bool) → IsSummary last image a v →
        IsSummary last image b w → (a ≡ b) × (v ≡ w) }
{}

/// A law: each image has a summary, and a verdict whether it is sound, whichever generation was written last.
/// With `one_summary`, it has exactly one of each.
pub fn each_image_has_a_summary()
    ensures { (last : Option ℕ) (image : Image) →
        (text : List ℕ) × (sound : Bool) × IsSummary last image text sound }
{}
