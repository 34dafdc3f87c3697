//! An extent that may be reclaimed. See `reclaiming` for which ones may.

ghost use Rattle.std.specs.Prelude.{◌≡◌, IfOk};
ghost use Rattle.scrub_check.specs.Candidates.{starts_of};

use crate::lists::kept_chunk::KeptChunk;
use scrub_disk::OutOfMemory;
use std::alloc::Global;
use std::marker::Model;

/// Where chunks to keep begin, in their order.
fn starts_of(alloc: Global, chunks: &[KeptChunk]) -> Result<Vec<u32>, OutOfMemory>
    ensures { IfOk result (λ v. v.items ≡ starts_of chunks.now) }
{
    chunks.iter().map(|one| one.start).collect(alloc)
}

/// An extent that may be reclaimed once the chunks to keep are moved.
#[derive(Drop)]
pub struct Candidate {
    extent: u32,
    free: u32,
    chunks: Vec<KeptChunk>,
    keep: Vec<u32>,
}

impl Model for Candidate {
    ghost use Rattle.std.specs.Prelude.{◌≡◌};
    ghost use Rattle.scrub_check.specs.Candidates.{CandidateValue, starts_of};

    ghost Value = { CandidateValue };

    ghost view = { λ c. record { extent = c.extent; free = c.free; chunks = c.chunks.items } };

    ghost invariant = { λ c. c.keep.items ≡ starts_of c.chunks.items };
}

impl Candidate {
    /// A candidate of these parts.
    pub(crate) fn new(
        alloc: Global,
        extent: u32,
        free: u32,
        chunks: Vec<KeptChunk>,
    ) -> Result<Candidate, OutOfMemory>
        ensures { IfOk result (λ c. c ≡ record { extent = extent; free = free; chunks = chunks.items }) }
    {
        let keep = starts_of(alloc, &chunks)?;
        Ok(Candidate {
            extent,
            free,
            chunks,
            keep,
        })
    }

    /// The number of the extent.
    pub fn extent(&self) -> u32
        ensures { result ≡ self.now.extent }
    {
        self.extent
    }

    /// How many bytes are freed: those below the write pointer that no live chunk takes.
    pub fn free(&self) -> u32
        ensures { result ≡ self.now.free }
    {
        self.free
    }

    /// Where the live chunks begin (in bytes of the extent), ascending.
    pub fn keep(&self) -> &[u32]
        ensures { result.now ≡ starts_of self.now.chunks }
    {
        self.keep.as_slice()
    }

    /// The live chunks, ascending.
    pub fn chunks(&self) -> &[KeptChunk]
        ensures { result.now ≡ self.now.chunks }
    {
        self.chunks.as_slice()
    }
}
