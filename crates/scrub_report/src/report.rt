//! The text of the report: one JSON object, written token by token, except for its extents and its orphans,
//! whose texts threads make in pieces. The other keys are in `keys`.

ghost use Rattle.std.specs.Prelude.{◌≡◌, ◌<◌, ℕ, IfOk, List, length};
ghost use Rattle.json.specs.Print.{print};
ghost use Rattle.serde_json.specs.Data.{Data};
ghost use Rattle.scrub_report.specs.steps.Tokens.{AreLaterTexts, ArePieces, begun_tokens, ended_tokens};
ghost use Rattle.scrub_report.specs.steps.Tokens.{joined_text, listed_extents, listed_text, middle_tokens};

use crate::chunks::PLACE_ROOM;
use crate::extents::{extents_texts, piece_size};
use crate::keys::{write_keys_after_extents, write_keys_before_extents, write_middle};
use crate::listed::Listed;
use crate::orphans::{PIECE_ORPHANS, orphans_texts};
use crate::pieces::{append_pieces, pieces_size};
use json::Writer;
use scrub_disk::{OutOfMemory, PageSource};
use scrub_run::ShardId;
use std::alloc::Global;
use std::thread::{Threads, join, join_mut};

/// Room for the keys after `orphans` without `twins`, as most disks need it.
const LAST_ROOM: usize = 4_096;

/// The texts after the last extent, in their order.
#[derive(Drop)]
struct LaterTexts {
    /// Before the first orphan.
    middle: Vec<u8>,
    /// The orphans, in pieces.
    orphans: Vec<Result<Vec<u8>, OutOfMemory>>,
    /// After the last orphan.
    end: Vec<u8>,
}

/// The text before the first extent.
fn begun_text<D: PageSource>(
    alloc: Global,
    listed: &Listed<'_, D>,
    broken: &[ShardId],
    clean: bool,
) -> Result<Vec<u8>, OutOfMemory>
    ensures { IfOk result (λ text. text.items ≡ print (begun_tokens listed.now broken.now clean)) }
{
    let mut out = Writer::new(Vec::new(alloc));
    out.begin_object()?;
    write_keys_before_extents(alloc, &mut out, listed, broken, clean)?;
    out.key("extents")?;
    out.begin_array()?;
    Ok(out.into_inner())
}

/// The text between the last extent and the first orphan.
fn middle_text<D: PageSource>(alloc: Global, listed: &Listed<'_, D>) -> Result<Vec<u8>, OutOfMemory>
    ensures { IfOk result (λ text. text.items ≡ print (middle_tokens listed.now)) }
{
    let mut out = Writer::new(Vec::new(alloc));
    out.end_array()?;
    write_middle(alloc, &mut out, listed)?;
    out.key("orphans")?;
    out.begin_array()?;
    Ok(out.into_inner())
}

/// Room for the text after the last orphan, as most need it: a hint, so that the text isn't moved while it
/// grows.
fn ended_room<D: PageSource>(listed: &Listed<'_, D>) -> usize {
    let twins = listed.twins.len().saturating_mul(PLACE_ROOM);
    twins.saturating_add(LAST_ROOM)
}

/// The text after the last orphan.
fn ended_text<D: PageSource>(alloc: Global, listed: &Listed<'_, D>) -> Result<Vec<u8>, OutOfMemory>
    ensures { IfOk result (λ text. text.items ≡ print (ended_tokens listed.now)) }
{
    let text = Vec::with_capacity(alloc, ended_room(listed))?;
    let mut out = Writer::new(text);
    out.end_array()?;
    write_keys_after_extents(alloc, &mut out, listed)?;
    out.end_object()?;
    Ok(out.into_inner())
}

/// The texts after the last extent.
fn later_texts<R: Threads + Sync, D: PageSource>(
    rt: &R,
    alloc: Global,
    listed: &Listed<'_, D>,
) -> Result<LaterTexts, OutOfMemory>
    ensures { IfOk result (AreLaterTexts listed.now) }
{
    Ok(LaterTexts {
        middle: middle_text(alloc, listed)?,
        orphans: orphans_texts(rt, alloc, &listed.liveness.orphans)?,
        end: ended_text(alloc, listed)?,
    })
}

/// Whether a report is so short that one thread writes it: its extents are one piece, and its orphans too.
fn is_short<D: PageSource>(listed: &Listed<'_, D>, size: usize) -> bool {
    size >= listed.scan.all.len() && listed.liveness.orphans.len() <= PIECE_ORPHANS
}

/// The texts of the scanned extents, as `extents_texts` makes them of pieces of this size, and the texts
/// after the last extent. They are made at the same time unless the report is short.
fn extents_and_later<R: Threads + Sync, D: PageSource>(
    rt: &R,
    alloc: Global,
    listed: &Listed<'_, D>,
    size: usize,
) -> Result<(Vec<Result<Vec<u8>, OutOfMemory>>, LaterTexts), OutOfMemory>
    requires live { length listed.now.liveness.live.items ≡ length listed.now.scan.all.extents }
    requires size { 0 < size }
    ensures extents { IfOk result (λ r. ArePieces (listed_extents listed.now) size r.0.items) }
    ensures later { IfOk result (λ r. AreLaterTexts listed.now r.1) }
{
    if is_short(listed, size) {
        let extents = extents_texts(rt, alloc, &listed.scan.all, &listed.liveness.live, size)?;
        return Ok((extents, later_texts(rt, alloc, listed)?));
    }
    let (extents, later) = join_mut(
        rt,
        &mut || -> Result<Vec<Result<Vec<u8>, OutOfMemory>>, OutOfMemory>
            requires live { length listed.now.liveness.live.items ≡ length listed.now.scan.all.extents }
            requires size { 0 < size }
            ensures extents { IfOk result (λ v. ArePieces (listed_extents listed.entry.now) size v.items) }
        { extents_texts(rt, alloc, &listed.scan.all, &listed.liveness.live, size) },
        &mut || -> Result<LaterTexts, OutOfMemory>
            ensures later { IfOk result (AreLaterTexts listed.entry.now) }
        { later_texts(rt, alloc, listed) },
    );
    Ok((extents?, later?))
}

/// The texts that make up a report: before the first extent, of the extents in pieces of this size, and after
/// the last one.
fn texts_of<R: Threads + Sync, D: PageSource>(
    rt: &R,
    alloc: Global,
    listed: &Listed<'_, D>,
    broken: &[ShardId],
    clean: bool,
    size: usize,
) -> Result<(Vec<u8>, Vec<Result<Vec<u8>, OutOfMemory>>, LaterTexts), OutOfMemory>
    requires live { length listed.now.liveness.live.items ≡ length listed.now.scan.all.extents }
    requires size { 0 < size }
    ensures begun { IfOk result (λ r. r.0.items ≡ print (begun_tokens listed.now broken.now clean)) }
    ensures extents { IfOk result (λ r. ArePieces (listed_extents listed.now) size r.1.items) }
    ensures later { IfOk result (λ r. AreLaterTexts listed.now r.2) }
{
    let (extents, later) = extents_and_later(rt, alloc, listed, size)?;
    let begun = begun_text(alloc, listed, broken, clean)?;
    Ok((begun, extents, later))
}

/// The text that these texts make up, with a line feed. Its room is taken once.
fn joined(
    begun: Vec<u8>,
    extents: Vec<Result<Vec<u8>, OutOfMemory>>,
    later: LaterTexts,
) -> Result<Vec<u8>, OutOfMemory>
    ensures { (xs ys : List Data) (n m : ℕ) → 0 < n → 0 < m →
        ArePieces xs n extents.items → ArePieces ys m later.orphans.items →
        IfOk result (λ text. text.items ≡
        joined_text begun.items xs later.middle.items ys later.end.items) }
{
    let LaterTexts {
        middle,
        orphans,
        end,
    } = later;
    let more = pieces_size(&extents)
        .saturating_add(middle.len())
        .saturating_add(pieces_size(&orphans))
        .saturating_add(end.len())
        .saturating_add(1);
    let mut text = begun;
    text.reserve(more)?;
    append_pieces(&mut text, extents)?;
    text.extend_from_slice(&middle)?;
    append_pieces(&mut text, orphans)?;
    text.extend_from_slice(&end)?;
    text.push(b'\n')?;
    Ok(text)
}

/// Frees these lists.
fn free<D: PageSource>(_listed: Listed<'_, D>) {}

/// The text of the report: compact JSON, and a line feed. Unless it is short, the lists are freed while the
/// texts are joined.
pub(crate) fn report_text<R: Threads + Sync, D: PageSource>(
    rt: &R,
    alloc: Global,
    listed: Listed<'_, D>,
    broken: &[ShardId],
    clean: bool,
) -> Result<Vec<u8>, OutOfMemory>
    requires live { length listed.liveness.live.items ≡ length listed.scan.all.extents }
    ensures { IfOk result (λ text. text.items ≡ listed_text listed.entry broken.now clean) }
{
    let size = piece_size(rt, &listed.scan.all);
    let (begun, extents, later) = texts_of(rt, alloc, &listed, broken, clean, size)?;
    if is_short(&listed, size) {
        free(listed);
        return joined(begun, extents, later);
    }
    let (text, ()) = join(
        rt,
        move || -> Result<Vec<u8>, OutOfMemory>
            ensures { (xs ys : List Data) (n m : ℕ) → 0 < n → 0 < m →
                ArePieces xs n extents.items → ArePieces ys m later.orphans.items →
                IfOk result (λ text. text.items ≡
                joined_text begun.items xs later.middle.items ys later.end.items) }
        { joined(begun, extents, later) },
        move || { free(listed) },
    );
    text
}
