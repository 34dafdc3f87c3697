//! The lines of shards' locators in two manifests, matched by shard and number.

ghost use Rattle.std.specs.Prelude.{◌≡◌, ◌++◌, IfOk, OnOk, string_bytes};
ghost use Rattle.std.specs.List.{flat_map};
ghost use Rattle.std.specs.Str.{bytes_eq};
ghost use Rattle.scrub_reclaim.specs.Copy.{rank};
ghost use Rattle.scrub_compare.specs.Compare.{are_alike, change, fallen_word, has_fallen, has_less};
ghost use Rattle.scrub_compare.specs.Compare.{has_no_less, is_worse, last_word, lost_line, new_line};
ghost use Rattle.scrub_compare.specs.Compare.{numbered, owned_by, place_or_form, row_change, row_line};
ghost use Rattle.scrub_compare.specs.Compare.{shard_change, shard_changes};
ghost use Rattle.scrub_compare.specs.steps.Rows.{AreByOwner, best_by_if_dangling, owner_cmp, row_among};
ghost use Rattle.scrub_compare.specs.steps.Rows.{stem_text};

use scrub_check::{Checked, Owner, form_at};
use scrub_disk::{OutOfMemory, PageSource};
use scrub_listings::manifest::{append_form, append_place, append_text};
use scrub_loose::{BestCopy, Copies};
use scrub_run::ShardId;
use scrub_scan::AllFindings;
use std::alloc::Global;
use std::cmp::Ordering;
use std::fmt::Write;
use std::marker::Model;

/// What the lines of a disk's shards are made from.
#[derive(Drop)]
pub(crate) struct ManifestLines<'p, 'd, D: PageSource> {
    /// What was scanned.
    pub all: &'p AllFindings<'d, D>,
    /// The copies of all named locators.
    pub copies: &'p Copies,
    /// The locators of the shards, shard by shard in ascending order.
    pub shards: &'p [Checked],
}

/// The line of a shard's locator in two parts: what comes before its last word, and the best copy, if the
/// locator dangles.
#[derive(Drop)]
struct Row {
    stem: String,
    best: Option<BestCopy>,
}

impl Model for Row {
    ghost use Rattle.std.specs.Prelude.{string_bytes};
    ghost use Rattle.scrub_compare.specs.Compare.{RowValue};

    ghost Value = { RowValue };

    ghost view = { λ r. record { stem = string_bytes r.stem; best = r.best } };
}

/// How an owner stands to an identifier: a run is below each.
fn owner_cmp(owner: Owner, id: ShardId) -> Ordering
    ensures { result ≡ owner_cmp owner id }
{
    match owner {
        Owner::Run(_) => Ordering::Less,
        Owner::Shard(other) => other.cmp(&id),
    }
}

/// The locators that a shard names, among those of all shards, which are ordered by shard.
fn owned_by<'c>(shards: &'c [Checked], id: ShardId) -> &'c [Checked]
    requires { AreByOwner shards.now }
    ensures { result.now ≡ owned_by id shards.now }
{
    let below = shards.partition_point(|one| owner_cmp(one.owner, id).is_lt());
    let through = shards.partition_point(|one| owner_cmp(one.owner, id).is_le());
    &shards[below..through]
}

/// Appends what follows a locator's status, up to the last word.
fn append_place_or_form<D: PageSource>(
    text: &mut String,
    all: &AllFindings<'_, D>,
    one: &Checked,
) -> Result<(), OutOfMemory>
    ensures { OnOk result (string_bytes text.new ≡ string_bytes text.old ++
        place_or_form all.now.extents one.now) }
{
    if one.status.is_sound() {
        return append_form(text, form_at(all, &one.locator));
    }
    append_place(text, &one.locator)
}

/// The line of a shard's locator of this number up to its last word.
fn stem_of<D: PageSource>(
    alloc: Global,
    all: &AllFindings<'_, D>,
    number: usize,
    one: &Checked,
) -> Result<String, OutOfMemory>
    ensures { IfOk result (λ text. string_bytes text ≡ stem_text all.now.extents number one.now) }
{
    let mut text = String::new(alloc);
    append_text(alloc, &mut text, number, one)?;
    append_place_or_form(&mut text, all, one)?;
    Ok(text)
}

/// The best copy of a locator, if it dangles.
fn best_copy(copies: &Copies, one: &Checked) -> Option<BestCopy>
    ensures { result ≡ best_by_if_dangling copies.now one.now }
{
    if one.status.is_dangling() {
        Some(copies.best(one))
    } else {
        None
    }
}

/// The line of a shard's locator of this number.
fn row_of<D: PageSource>(
    alloc: Global,
    lines: &ManifestLines<'_, '_, D>,
    number: usize,
    one: &Checked,
) -> Result<Row, OutOfMemory>
    ensures { IfOk result (λ row. row ≡
        row_among lines.now.all.now.extents lines.now.copies.now number one.now) }
{
    let stem = stem_of(alloc, lines.all, number, one)?;
    let best = best_copy(lines.copies, one);
    Ok(Row { stem, best })
}

/// The line of this number, if a shard has such a locator.
fn numbered<D: PageSource>(
    alloc: Global,
    lines: &ManifestLines<'_, '_, D>,
    own: &[Checked],
    number: usize,
) -> Result<Option<Row>, OutOfMemory>
    ensures { IfOk result (λ row. row ≡
        numbered (row_among lines.now.all.now.extents lines.now.copies.now) own.now number) }
{
    match own.get(number) {
        Some(one) => Ok(Some(row_of(alloc, lines, number, one)?)),
        None => Ok(None),
    }
}

/// The last word, with a space before it.
fn last_word(best: Option<BestCopy>) -> &'static str
    ensures { result.now ≡ last_word best }
{
    match best {
        Some(BestCopy::Spare) => " spare",
        Some(BestCopy::Loose) => " loose",
        Some(BestCopy::Nowhere) => " none",
        None => "",
    }
}

/// Appends a line, with its line feed.
fn append_row(text: &mut String, row: &Row) -> Result<(), OutOfMemory>
    ensures { OnOk result (string_bytes text.new ≡ string_bytes text.old ++ row_line row.now) }
{
    let word = last_word(row.best);
    let stem = row.stem.as_str();
    writeln!(text, "{stem}{word}")
}

/// Appends the line that only the earlier manifest has.
fn append_lost(text: &mut String, row: &Row) -> Result<(), OutOfMemory>
    ensures { OnOk result (string_bytes text.new ≡ string_bytes text.old ++ lost_line (row_line row.now)) }
{
    write!(text, "lost ")?;
    append_row(text, row)
}

/// Appends the line that only the later manifest has.
fn append_new(text: &mut String, row: &Row) -> Result<(), OutOfMemory>
    ensures { OnOk result (string_bytes text.new ≡ string_bytes text.old ++ new_line (row_line row.now)) }
{
    write!(text, "new ")?;
    append_row(text, row)
}

fn is_same_text(old: &str, new: &str) -> bool
    ensures { result ≡ bytes_eq old.now new.now }
{
    old == new
}

/// How good a copy is: last words rise with it.
fn rank(best: BestCopy) -> u8
    ensures { result ≡ rank best }
{
    match best {
        BestCopy::Nowhere => 0,
        BestCopy::Loose => 1,
        BestCopy::Spare => 2,
    }
}

/// Whether the first is the worse copy.
fn is_worse(one: BestCopy, other: BestCopy) -> bool
    ensures { result ≡ is_worse one other }
{
    rank(one) < rank(other)
}

/// Whether the last word is the same, or rises.
fn has_no_less(old: Option<BestCopy>, new: Option<BestCopy>) -> bool
    ensures { result ≡ has_no_less old new }
{
    match (old, new) {
        (Some(had), Some(has)) => !is_worse(has, had),
        (None, None) => true,
        _ => false,
    }
}

/// Whether the last word falls.
fn has_less(old: Option<BestCopy>, new: Option<BestCopy>) -> bool
    ensures { result ≡ has_less old new }
{
    match (old, new) {
        (Some(had), Some(has)) => is_worse(has, had),
        _ => false,
    }
}

/// Whether two lines are the same, or differ only in a last word that rises.
fn are_alike(old: &Row, new: &Row) -> bool
    ensures { result ≡ are_alike old.now new.now }
{
    is_same_text(&old.stem, &new.stem) && has_no_less(old.best, new.best)
}

/// Whether two lines differ only in a last word that falls.
fn has_fallen(old: &Row, new: &Row) -> bool
    ensures { result ≡ has_fallen old.now new.now }
{
    is_same_text(&old.stem, &new.stem) && has_less(old.best, new.best)
}

/// What the line of a last word that falls begins with: the word that it was.
fn fallen_word(best: Option<BestCopy>) -> &'static str
    ensures { result.now ≡ fallen_word best }
{
    match best {
        Some(BestCopy::Spare) => "spare ",
        _ => "loose ",
    }
}

/// Appends the line of a last word that falls: the word that it was, and the earlier line.
fn append_fallen(text: &mut String, old: &Row) -> Result<(), OutOfMemory>
    ensures { OnOk result (string_bytes text.new ≡ string_bytes text.old ++
        (fallen_word old.now.best ++ row_line old.now)) }
{
    let word = fallen_word(old.best);
    write!(text, "{word}")?;
    append_row(text, old)
}

/// Appends the lines of what became of a line.
fn append_row_change(text: &mut String, old: &Row, new: &Row) -> Result<(), OutOfMemory>
    ensures { OnOk result (string_bytes text.new ≡ string_bytes text.old ++ row_change old.now new.now) }
{
    if are_alike(old, new) {
        return Ok(());
    }
    if has_fallen(old, new) {
        return append_fallen(text, old);
    }
    append_lost(text, old)?;
    append_new(text, new)
}

/// Appends the lines of what became of a line that one of the two manifests may lack.
fn append_change(text: &mut String, old: &Option<Row>, new: &Option<Row>) -> Result<(), OutOfMemory>
    ensures { OnOk result (string_bytes text.new ≡ string_bytes text.old ++ change old.now new.now) }
{
    match (old, new) {
        (Some(old), Some(new)) => append_row_change(text, old, new),
        (Some(old), None) => append_lost(text, old),
        (None, Some(new)) => append_new(text, new),
        (None, None) => Ok(()),
    }
}

/// Appends the lines of what became of a shard's line of this number.
fn append_number<D: PageSource, E: PageSource>(
    alloc: Global,
    text: &mut String,
    before: &ManifestLines<'_, '_, D>,
    after: &ManifestLines<'_, '_, E>,
    own: &[Checked],
    own_now: &[Checked],
    number: usize,
) -> Result<(), OutOfMemory>
    ensures { OnOk result (string_bytes text.new ≡ string_bytes text.old ++
        change (numbered (row_among before.now.all.now.extents before.now.copies.now) own.now number)
        (numbered (row_among after.now.all.now.extents after.now.copies.now) own_now.now number)) }
{
    let old = numbered(alloc, before, own, number)?;
    let new = numbered(alloc, after, own_now, number)?;
    append_change(text, &old, &new)
}

/// Appends the lines of what became of the lines of a shard with these locators before and now.
fn append_shard<D: PageSource, E: PageSource>(
    alloc: Global,
    text: &mut String,
    before: &ManifestLines<'_, '_, D>,
    after: &ManifestLines<'_, '_, E>,
    own: &[Checked],
    own_now: &[Checked],
) -> Result<(), OutOfMemory>
    ensures { OnOk result (string_bytes text.new ≡ string_bytes text.old ++
        shard_change (row_among before.now.all.now.extents before.now.copies.now)
        (row_among after.now.all.now.extents after.now.copies.now) own.now own_now.now) }
{
    for number in 0..own.len().max(own_now.len()) {
        append_number(alloc, text, before, after, own, own_now, number)?;
    }
    Ok(())
}

/// Appends the lines of what became of the lines of these shards.
pub(crate) fn append_shards<D: PageSource, E: PageSource>(
    alloc: Global,
    text: &mut String,
    before: &ManifestLines<'_, '_, D>,
    after: &ManifestLines<'_, '_, E>,
    ids: &[ShardId],
) -> Result<(), OutOfMemory>
    requires before { AreByOwner before.now.shards.now }
    requires after { AreByOwner after.now.shards.now }
    ensures { OnOk result (string_bytes text.new ≡ string_bytes text.old ++
        shard_changes (row_among before.now.all.now.extents before.now.copies.now)
        (row_among after.now.all.now.extents after.now.copies.now)
        before.now.shards.now after.now.shards.now ids.now) }
{
    for id in ids {
        let own = owned_by(before.shards, *id);
        let own_now = owned_by(after.shards, *id);
        append_shard(alloc, text, before, after, own, own_now)?;
    }
    Ok(())
}
