//! Fills a buffer from a raw image, which may give fewer bytes at once than it is asked for. `reading` and
//! `loading` read pages so.

ghost use Rattle.std.specs.Prelude.{◌≡◌, ◌≤◌, ◌+◌, ◌-◌, ◌<◌, ◌^◌, IfOk, IfSome, OnErr, length};
ghost use Rattle.scrub_disk.specs.steps.Ahead.{HasFailed, IsFilled, StandsBetween};
ghost use Rattle.scrub_disk.specs.Raw.{IsReadOn};

use crate::raw::{RawFault, RawImage};

/// Fills `out`, whose first `have` bytes were read before, with the bytes from an offset on, in as many reads
/// as it takes. Returns how many bytes are there then: fewer than `out` has room for only if the image ends.
pub fn fill<R: RawImage>(
    raw: &mut R,
    offset: u64,
    have: usize,
    out: &mut [u8],
) -> Result<usize, RawFault>
    requires few_reads { R.reads raw.old + length out.old < 2 ^ 63 }
    requires in_range { offset + length out.old < 2 ^ 64 }
    requires have { have ≤ length out.old }
    requires front { IfSome (R.bytes raw.old) (λ known. StandsBetween known offset 0 have out.old) }
    ensures filled { IfOk result (IsFilled (R.bytes raw.old) offset out.new) }
    ensures failed { OnErr result
        (HasFailed (R.fails raw.old) offset (length out.old) (R.failures raw.old) (R.failures raw.new)) }
    ensures image { IsReadOn R.bytes R.fails R.most_failures R.failures raw.old raw.new }
    ensures reads { R.reads raw.new ≤ R.reads raw.old + length out.old }
{
    let mut done = have;
    while done < out.len() {
        let more = raw.read_at(offset + done as u64, &mut out[done..])?;
        if more == 0 {
            return Ok(done);
        }
        done += more;
    }
    Ok(done)
}
