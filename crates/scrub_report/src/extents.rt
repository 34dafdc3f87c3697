//! The scanned extents, as the report has them.

ghost use Rattle.std.specs.Prelude.{◌≡◌, ◌*◌, ◌<◌, ◌≤◌, ◌++◌, ℕ, IfOk, IfSome, OnOk, length, slice_get};
ghost use Rattle.std.specs.Int.{div_ceil};
ghost use Rattle.scrub_scan.specs.Scanned.{scanned};
ghost use Rattle.scrub_report.specs.steps.Tokens.{ArePieces, extent_values, piece_text, value_tokens};
ghost use Rattle.scrub_report.specs.steps.Values.{extent_data};

use crate::items::ITEM_ROOM;
use crate::object::{Value, write_object};
use crate::pieces::comma_if;
use json::Writer;
use scrub_disk::{OutOfMemory, PageSource};
use scrub_scan::{AllFindings, ExtentResult};
use std::alloc::Global;
use std::thread::{Threads, available_parallelism, map_indices};

/// With fewer items than this, one thread writes them all.
const WORTH_THREADS: usize = 4_096;

/// Room for an extent without its items, as most need it.
const EXTENT_ROOM: usize = 160;

/// Writes one of `extents`, with its live bytes.
fn write_extent<D: PageSource>(
    alloc: Global,
    out: &mut Writer,
    found: &ExtentResult<'_, D>,
    live: u32,
) -> Result<(), OutOfMemory>
    ensures tokens { OnOk result (out.new.tokens ≡ out.old.tokens ++
        value_tokens (extent_data live (scanned found.now))) }
    ensures before { out.new.before ≡ out.old.before }
{
    let findings = found.findings();
    write_object(
        alloc,
        out,
        &[
            ("bad", Value::Numbers(findings.bad_pages())),
            ("extent", Value::Number(u64::from(found.extent()))),
            ("items", Value::Items(findings.items())),
            ("live", Value::Number(u64::from(live))),
            ("pointer", Value::Number(u64::from(found.pointer()))),
            ("tail", Value::Number(u64::from(findings.tail_count()))),
            ("tail_at", Value::Optional32(findings.tail_first())),
        ],
    )
}

/// How many items are in up to `size` extents, from number `from` of the scanned ones on.
fn item_count<D: PageSource>(all: &AllFindings<'_, D>, from: usize, size: usize) -> usize {
    all.results()
        .skip(from)
        .take(size)
        .map(|found| found.findings().items().len())
        .fold(0, usize::saturating_add)
}

/// Room for the text of these extents, as most need it: a hint, so that the text isn't moved while it grows.
fn text_room<D: PageSource>(all: &AllFindings<'_, D>, from: usize, size: usize) -> usize {
    let items = item_count(all, from, size).saturating_mul(ITEM_ROOM);
    let extents = all.len().saturating_sub(from).min(size);
    extents.saturating_mul(EXTENT_ROOM).saturating_add(items)
}

/// The text of up to `size` extents, from number `from` of the scanned ones on.
fn extents_text<D: PageSource>(
    alloc: Global,
    all: &AllFindings<'_, D>,
    live: &[u32],
    from: usize,
    size: usize,
) -> Result<Vec<u8>, OutOfMemory>
    requires count { length live.now ≡ length all.now.extents }
    requires within { from ≤ length all.now.extents }
    ensures { IfOk result (λ text.
        text.items ≡ piece_text (extent_values all.now.extents live.now) from size) }
{
    let room = text_room(all, from, size);
    let mut out = Writer::new(comma_if(alloc, from > 0, room)?);
    for (found, live) in all.results().zip(live).skip(from).take(size) {
        write_extent(alloc, &mut out, found, *live)?;
    }
    Ok(out.into_inner())
}

/// The text of piece `n`, where each piece has `size` extents.
fn nth_text<D: PageSource>(
    alloc: Global,
    all: &AllFindings<'_, D>,
    live: &[u32],
    size: usize,
    n: usize,
) -> Result<Vec<u8>, OutOfMemory>
    requires count { length live.now ≡ length all.now.extents }
    requires size { 0 < size }
    requires number { n < div_ceil (length all.now.extents) size }
    ensures { IfOk result (λ text.
        text.items ≡ piece_text (extent_values all.now.extents live.now) (n * size) size) }
{
    extents_text(alloc, all, live, n * size, size)
}

/// The texts of all pieces of this size, in their order, made by threads.
fn nth_texts<R: Threads + Sync, D: PageSource>(
    rt: &R,
    alloc: Global,
    all: &AllFindings<'_, D>,
    live: &[u32],
    size: usize,
) -> Result<Vec<Result<Vec<u8>, OutOfMemory>>, OutOfMemory>
    requires count { length live.now ≡ length all.now.extents }
    requires size { 0 < size }
    ensures count { IfOk result (λ v. length v.items ≡ div_ceil (length all.now.extents) size) }
    ensures each { IfOk result (λ v. (n : ℕ) → IfSome (slice_get v.items n) (λ text.
        IfOk text (λ bytes. bytes.items ≡
        piece_text (extent_values all.now.extents live.now) (n * size) size))) }
{
    map_indices(
        rt,
        alloc,
        all.len().div_ceil(size),
        &|n: usize| -> Result<Vec<u8>, OutOfMemory>
            requires count { length live.now ≡ length all.now.extents }
            requires size { 0 < size }
            requires number { n < div_ceil (length all.now.extents) size }
            ensures { IfOk result (λ text. text.items ≡
                piece_text (extent_values all.entry.now.extents live.entry.now) (n * size) size) }
        { nth_text(alloc, all, live, size, n) },
    )
}

/// The same, as the pieces of all extents.
pub(crate) fn extents_texts<R: Threads + Sync, D: PageSource>(
    rt: &R,
    alloc: Global,
    all: &AllFindings<'_, D>,
    live: &[u32],
    size: usize,
) -> Result<Vec<Result<Vec<u8>, OutOfMemory>>, OutOfMemory>
    requires count { length live.now ≡ length all.now.extents }
    requires size { 0 < size }
    ensures { IfOk result (λ v. ArePieces (extent_values all.now.extents live.now) size v.items) }
{
    nth_texts(rt, alloc, all, live, size)
}

/// How many extents a piece has: enough for at most two pieces a processor, or all of them if there are few
/// items.
pub(crate) fn piece_size<R: Threads, D: PageSource>(rt: &R, all: &AllFindings<'_, D>) -> usize
    ensures { 0 < result }
{
    let count = all.len().max(1);
    if item_count(all, 0, count) < WORTH_THREADS {
        return count;
    }
    let processors = match available_parallelism(rt) {
        Ok(processors) => processors.get(),
        Err(_) => 1,
    };
    count.div_ceil(processors.saturating_mul(2)).max(1)
}
