//! Messages that are hashed one by one, where the lanes would gain nothing.

ghost use Rattle.std.specs.Prelude.{◌≡◌, ◌+◌, ◌≤◌, List, All, IfOk, length, map};
ghost use Rattle.sha2.specs.Sha256.{sha256};
ghost use Rattle.sha_lanes.specs.Gathered.{message_of};

use crate::lanes::Span;
use sha2::{Digest, Sha256};
use std::alloc::{AllocError, Global};

/// Whether one of the messages has half of all blocks, or more. The lanes gain nothing then: a block of each
/// lane takes as long as about two blocks that are hashed alone.
pub(crate) fn has_most(spans: &[Span]) -> bool {
    let mut all = 0usize;
    let mut longest = 0;
    for span in spans {
        all = all.saturating_add(span.blocks);
        longest = longest.max(span.blocks);
    }
    longest >= all.saturating_sub(longest)
}

/// The digests of the messages of these spans, hashed one by one.
pub(crate) fn one_by_one(
    alloc: Global,
    bytes: &[u8],
    spans: &[Span],
) -> Result<Vec<[u8; 32]>, AllocError>
    requires { All (λ s. s.start + s.length ≤ length bytes.now) spans.now }
    ensures { IfOk result (λ all. all.items ≡ map (λ s. sha256 (message_of bytes.now s)) spans.now) }
{
    let mut digests = Vec::with_capacity(alloc, spans.len())?;
    'spans: for span in spans {
        digests.push(Sha256::digest(&bytes[span.start..span.start + span.length]))?;
    }
    Ok(digests)
}
