//! Payloads that are hashed together, of one extent or of several that are scanned one after another.
//! `collected` has the items that they belong to.

ghost use Rattle.std.specs.Prelude.{◌≡◌, ◌++◌, [], ℕ, List, IfOk, IfSome, length, map, take, drop};
ghost use Rattle.sha2.specs.Sha256.{sha256};

use scrub_disk::OutOfMemory;
use scrub_frame::DIGEST_BYTES;
use sha_lanes::Batch;
use std::alloc::Global;

/// Payloads in the order in which they were added: digests of the first of them, and the others in a batch.
#[derive(Drop)]
pub(crate) struct Payloads {
    pub digests: Vec<[u8; DIGEST_BYTES]>,
    pub batch: Batch,
}

impl Payloads {
    ghost use Rattle.scrub_scan.specs.steps.Gathering.{Has};

    /// None yet.
    pub fn new(alloc: Global) -> Payloads {
        Payloads {
            digests: Vec::new(alloc),
            batch: Batch::new(alloc),
        }
    }

    /// Drops all, and keeps the memory.
    pub fn clear(&mut self)
        ensures { Has self.new [] }
    {
        self.digests.clear();
        self.batch.clear();
    }

    /// How many there are; `None` if that is no `usize`.
    pub fn count(&self) -> Option<usize>
        ensures { (all : List (List ℕ)) → Has self.now all → IfSome result (λ n. n ≡ length all) }
    {
        self.digests.len().checked_add(self.batch.count())
    }

    /// Hashes those that aren't hashed yet.
    pub fn hash(&mut self, alloc: Global) -> Result<(), OutOfMemory>
        ensures { (all : List (List ℕ)) → Has self.old all →
            IfOk result (λ _. (self.new.digests.items ≡ map sha256 all) × Has self.new all) }
    {
        let digests = self.batch.digests(alloc)?;
        self.digests.extend_from_slice(&digests)?;
        self.batch.clear();
        Ok(())
    }

    /// The digests of `count` payloads from number `first` on, as far as there are such.
    pub fn digests_of(&self, first: usize, count: usize) -> &[[u8; DIGEST_BYTES]]
        ensures { result.now ≡ take count (drop first self.now.digests.items) }
    {
        let size = self.digests.len();
        let from = first.min(size);
        let to = from + count.min(size - from);
        &self.digests[from..to]
    }
}
