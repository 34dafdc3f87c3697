//! Reads pages that follow one another in a raw image, many at once where that can be.

ghost use Rattle.std.specs.Prelude.{◌≡◌, ◌≤◌, ◌+◌, ◌-◌, ◌*◌, ◌<◌, ◌^◌, ◌⊎◌, ℕ, IfNone, IfSome, length};
ghost use Rattle.std.specs.Prelude.{slice_get, slice_index};
ghost use Rattle.std.specs.Bool.{OnTrue, OnFalse};
ghost use Rattle.scrub_disk.specs.steps.Ahead.{HasFailed, HoldsFrom, MarksFrom, StandsBetween};
ghost use Rattle.scrub_disk.specs.Image.{AreBytesAt};
ghost use Rattle.scrub_disk.specs.Raw.{IsReadOn};

use crate::filling::fill;
use crate::raw::RawImage;

/// Reads once into `out`, which begins with a page, and returns how many bytes stand at its front then. None
/// if that page is lost: the bytes ended there, or the read failed and was for this page alone.
fn read_ahead<R: RawImage>(raw: &mut R, offset: u64, page: usize, out: &mut [u8]) -> Option<usize>
    requires few_reads { R.reads raw.old < 2 ^ 63 }
    requires page { 0 < page }
    requires room { page ≤ length out.old }
    ensures within { IfSome result (λ n. n ≤ length out.new) }
    ensures front { IfSome (R.bytes raw.old)
        (λ known. IfSome result (λ n. StandsBetween known offset 0 n out.new)) }
    ensures lost { IfSome (R.bytes raw.old) (λ known. IfNone result
        ((length known < offset + page)
        ⊎ HasFailed (R.fails raw.old) offset page (R.failures raw.old) (R.failures raw.new))) }
    ensures image { IsReadOn R.bytes R.fails R.most_failures R.failures raw.old raw.new }
    ensures reads { R.reads raw.new ≡ R.reads raw.old + 1 }
{
    match raw.read_at(offset, out) {
        Ok(0) => None,
        Ok(n) => Some(n),
        Err(_) if page < out.len() => Some(0),
        Err(_) => None,
    }
}

/// Fills `out`, whose first bytes were read before. False if a read failed or the bytes ended first.
fn read_rest<R: RawImage>(raw: &mut R, offset: u64, have: usize, out: &mut [u8]) -> bool
    requires few_reads { R.reads raw.old + length out.old < 2 ^ 63 }
    requires in_range { offset + length out.old < 2 ^ 64 }
    requires have { have ≤ length out.old }
    requires front { IfSome (R.bytes raw.old) (λ known. StandsBetween known offset 0 have out.old) }
    ensures whole { IfSome (R.bytes raw.old)
        (λ known. OnTrue result (AreBytesAt (slice_get known) offset out.new)) }
    ensures not_whole { IfSome (R.bytes raw.old) (λ known. OnFalse result
        ((length known < offset + length out.new)
        ⊎ HasFailed (R.fails raw.old) offset (length out.new) (R.failures raw.old) (R.failures raw.new))) }
    ensures image { IsReadOn R.bytes R.fails R.most_failures R.failures raw.old raw.new }
    ensures reads { R.reads raw.new ≤ R.reads raw.old + length out.old }
{
    match fill(raw, offset, have, out) {
        Ok(n) => n == out.len(),
        Err(_) => false,
    }
}

/// At the first page reads once for all pages; `reached` is where what was read before ends. Returns where it
/// ends then, or None if this page is lost.
fn reach<R: RawImage>(
    raw: &mut R,
    start: usize,
    page: usize,
    from: usize,
    reached: usize,
    bytes: &mut [u8],
) -> Option<usize>
    requires few_reads { R.reads raw.old < 2 ^ 63 }
    requires page { 0 < page }
    requires in_bytes { from + page ≤ length bytes.old }
    requires in_range { start + length bytes.old < 2 ^ 63 }
    requires reached { reached ≤ length bytes.old }
    requires stands { IfSome (R.bytes raw.old) (λ known. StandsBetween known start from reached bytes.old) }
    ensures within { IfSome result (λ r. r ≤ length bytes.new) }
    ensures before { (i : ℕ) → i < from → slice_index bytes.new i ≡ slice_index bytes.old i }
    ensures stands { IfSome (R.bytes raw.old)
        (λ known. IfSome result (λ r. StandsBetween known start from r bytes.new)) }
    ensures lost { IfSome (R.bytes raw.old) (λ known. IfNone result
        ((length known < start + from + page)
        ⊎ HasFailed (R.fails raw.old) (start + from) page (R.failures raw.old) (R.failures raw.new))) }
    ensures image { IsReadOn R.bytes R.fails R.most_failures R.failures raw.old raw.new }
    ensures reads { R.reads raw.new ≤ R.reads raw.old + 1 }
{
    if from > 0 {
        return Some(reached);
    }
    read_ahead(raw, start as u64, page, bytes)
}

/// Whether a page was read whole, and where what was read ends.
fn read_next<R: RawImage>(
    raw: &mut R,
    start: usize,
    page: usize,
    from: usize,
    reached: usize,
    bytes: &mut [u8],
) -> (bool, usize)
    requires few_reads { R.reads raw.old + page + 1 < 2 ^ 63 }
    requires page { 0 < page }
    requires in_bytes { from + page ≤ length bytes.old }
    requires in_range { start + length bytes.old < 2 ^ 63 }
    requires reached { reached ≤ length bytes.old }
    requires stands { IfSome (R.bytes raw.old) (λ known. StandsBetween known start from reached bytes.old) }
    ensures within { result.1 ≤ length bytes.new }
    ensures before { (i : ℕ) → i < from → slice_index bytes.new i ≡ slice_index bytes.old i }
    ensures whole { IfSome (R.bytes raw.old)
        (λ known. OnTrue result.0 (StandsBetween known start from (from + page) bytes.new)) }
    ensures stands { IfSome (R.bytes raw.old)
        (λ known. StandsBetween known start (from + page) result.1 bytes.new) }
    ensures lost { IfSome (R.bytes raw.old) (λ known. OnFalse result.0
        ((length known < start + from + page)
        ⊎ HasFailed (R.fails raw.old) (start + from) page (R.failures raw.old) (R.failures raw.new))) }
    ensures image { IsReadOn R.bytes R.fails R.most_failures R.failures raw.old raw.new }
    ensures reads { R.reads raw.new ≤ R.reads raw.old + page + 1 }
{
    let Some(ahead) = reach(raw, start, page, from, reached, bytes) else {
        return (false, 0);
    };
    let have = ahead.saturating_sub(from).min(page);
    let is_whole = read_rest(
        raw,
        (start + from) as u64,
        have,
        &mut bytes[from..from + page],
    );
    (is_whole, ahead)
}

/// Reads the pages from page `first` of the raw image on, and marks each one that couldn't be read whole.
/// They are first asked for at once. If that fails, each page is read alone; at most P + 1 reads are made for
/// a page of P bytes.
pub(crate) fn read_pages<R: RawImage>(
    raw: &mut R,
    first: usize,
    page: usize,
    bytes: &mut [u8],
    unreadable: &mut [bool],
)
    requires few_reads { R.reads raw.old + (page + 1) * length unreadable.old < 2 ^ 63 }
    requires page { 0 < page }
    requires whole { length bytes.old ≡ page * length unreadable.old }
    requires in_range { first * page + length bytes.old < 2 ^ 63 }
    ensures read { IfSome (R.bytes raw.old)
        (λ known. HoldsFrom known (first * page) page unreadable.new bytes.new) }
    ensures lost { IfSome (R.bytes raw.old) (λ known.
        MarksFrom known (R.fails raw.old) first page (length unreadable.new)
        (R.failures raw.new - R.failures raw.old) unreadable.new) }
    ensures image { IsReadOn R.bytes R.fails R.most_failures R.failures raw.old raw.new }
    ensures reads { R.reads raw.new ≤ R.reads raw.old + (page + 1) * length unreadable.old }
{
    let mut reached = 0;
    for (number, mark) in unreadable.iter_mut().enumerate() {
        let (is_whole, ahead) = read_next(raw, first * page, page, number * page, reached, bytes);
        reached = ahead;
        *mark = !is_whole;
    }
}
