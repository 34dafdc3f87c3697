//! The orphans, as the report has them: in pieces, since a report can have very many.

ghost use Rattle.std.specs.Prelude.{◌≡◌, ◌*◌, ◌<◌, ◌≤◌, ℕ, IfOk, IfSome, length, map, slice_get};
ghost use Rattle.std.specs.Int.{div_ceil};
ghost use Rattle.scrub_report.specs.Report.{place_data};
ghost use Rattle.scrub_report.specs.steps.Tokens.{ArePieces, piece_text};

use crate::chunks::PLACE_ROOM;
use crate::json_values::write_elements;
use crate::pieces::comma_if;
use json::Writer;
use scrub_check::Place;
use scrub_disk::OutOfMemory;
use std::alloc::Global;
use std::thread::{Threads, map_indices};

/// How many orphans a piece has.
pub(crate) const PIECE_ORPHANS: usize = 32_768;

/// The text of up to `PIECE_ORPHANS` orphans, from number `from` on.
fn orphans_text(alloc: Global, orphans: &[Place], from: usize) -> Result<Vec<u8>, OutOfMemory>
    requires within { from ≤ length orphans.now }
    ensures { IfOk result (λ text. text.items ≡ piece_text (map place_data orphans.now) from 32768) }
{
    let rest = &orphans[from..];
    let piece = &rest[..PIECE_ORPHANS.min(rest.len())];
    let room = piece.len().saturating_mul(PLACE_ROOM);
    let mut out = Writer::new(comma_if(alloc, from > 0, room)?);
    write_elements(alloc, &mut out, piece)?;
    Ok(out.into_inner())
}

/// The text of piece `n`.
fn nth_text(alloc: Global, orphans: &[Place], n: usize) -> Result<Vec<u8>, OutOfMemory>
    requires number { n < div_ceil (length orphans.now) 32768 }
    ensures { IfOk result (λ text. text.items ≡
        piece_text (map place_data orphans.now) (n * 32768) 32768) }
{
    orphans_text(alloc, orphans, n * PIECE_ORPHANS)
}

/// The texts of all pieces, in their order, made by threads.
fn nth_texts<R: Threads + Sync>(
    rt: &R,
    alloc: Global,
    orphans: &[Place],
) -> Result<Vec<Result<Vec<u8>, OutOfMemory>>, OutOfMemory>
    ensures count { IfOk result (λ v. length v.items ≡ div_ceil (length orphans.now) 32768) }
    ensures each { IfOk result (λ v. (n : ℕ) → IfSome (slice_get v.items n) (λ text.
        IfOk text (λ bytes. bytes.items ≡ piece_text (map place_data orphans.now) (n * 32768) 32768))) }
{
    map_indices(
        rt,
        alloc,
        orphans.len().div_ceil(PIECE_ORPHANS),
        &|n: usize| -> Result<Vec<u8>, OutOfMemory>
            requires number { n < div_ceil (length orphans.now) 32768 }
            ensures { IfOk result (λ text. text.items ≡
                piece_text (map place_data orphans.entry.now) (n * 32768) 32768) }
        { nth_text(alloc, orphans, n) },
    )
}

/// The same, as the pieces of all orphans.
pub(crate) fn orphans_texts<R: Threads + Sync>(
    rt: &R,
    alloc: Global,
    orphans: &[Place],
) -> Result<Vec<Result<Vec<u8>, OutOfMemory>>, OutOfMemory>
    ensures { IfOk result (λ v. ArePieces (map place_data orphans.now) 32768 v.items) }
{
    nth_texts(rt, alloc, orphans)
}
