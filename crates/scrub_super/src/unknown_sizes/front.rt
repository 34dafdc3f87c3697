//! The front of a raw image, in which superblock records are found. `blocks` reads it, and `search` looks at
//! its bytes.

ghost use Rattle.std.specs.Prelude.{◌≡◌, ◌+◌, ◌-◌, ◌<◌, ◌≤◌, ◌^◌, false, ℕ, Bool, List, Option, IfOk, length};
ghost use Rattle.std.specs.Int.{div_ceil};
ghost use Rattle.std.proofs.Props.{props};
ghost use Rattle.scrub_super.specs.Blocks.{AreBlockMarks};

use crate::unknown_sizes::FoundSuperblocks;
use crate::unknown_sizes::blocks::{BLOCK_BYTES, read_blocks};
use crate::unknown_sizes::ranges::lost_ranges;
use crate::unknown_sizes::search::find_records;
use scrub_disk::{OutOfMemory, RawImage};
use std::alloc::Global;

/// The front of a raw image: its bytes up to its end or byte 67,108,864, in blocks of 512 bytes, some of
/// which are lost.
#[derive(Drop)]
pub struct Front {
    /// Those of a lost block mean nothing.
    bytes: Vec<u8>,
    /// Which blocks are lost.
    lost: Vec<bool>,
    ghost marks: { AreBlockMarks bytes.items lost.items } by { Prim.hlevel props },
}

impl Front {
    ghost use Rattle.scrub_disk.specs.Limits.{max_extent_bytes};
    ghost use Rattle.scrub_super.specs.Blocks.{AreLackingBlocks};
    ghost use Rattle.scrub_super.specs.UnknownSizes.{AreFoundInSome, IsFrontOf, front_size};

    /// Reads the front of a raw image, once. A block is lost if a read for it failed. If the last reads fail,
    /// the end of the image isn't known, and their blocks are lost too. Memory: the bytes, and a mark for
    /// each block.
    pub fn read<R: RawImage>(alloc: Global, raw: &mut R) -> Result<Front, OutOfMemory>
        requires few_reads { R.reads raw.old < 2 ^ 62 }
        ensures front { IfOk result (λ f.
            IsFrontOf (R.bytes raw.old) (λ _. false) (R.fails raw.old)
            (R.failures raw.new - R.failures raw.old) f) }
        ensures failures { R.failures raw.old ≤ R.failures raw.new }
        ensures same_bytes { R.bytes raw.new ≡ R.bytes raw.old }
        ensures same_fails { R.fails raw.new ≡ R.fails raw.old }
        ensures same_bound { R.most_failures raw.new ≡ R.most_failures raw.old }
        ensures reads { R.reads raw.new ≤ R.reads raw.old + max_extent_bytes }
    {
        let (bytes, lost) = read_blocks(alloc, raw)?;
        Ok(Front { bytes, lost })
    }

    /// How many bytes it has.
    pub fn size(&self) -> usize
        ensures { result ≡ front_size self.now }
    {
        self.bytes.len()
    }

    /// The front without the marked blocks. There is a mark for each block.
    pub fn without(self, lost: &[bool]) -> Front
        requires { length lost.now ≡ div_ceil (front_size self) BLOCK_BYTES }
        ensures { (raw : Option (List ℕ)) (fails : ℕ → ℕ → Bool) (failures : ℕ) →
            IsFrontOf raw (λ _. false) fails failures self → (lacking : ℕ → Bool) →
            AreLackingBlocks (front_size self) lacking lost.now →
            IsFrontOf raw lacking fails failures result }
    {
        let mut marks = self.lost;
        for (number, is_lost) in lost.iter().enumerate() {
            if *is_lost {
                marks[number] = true;
            }
        }
        Front {
            bytes: self.bytes,
            lost: marks,
        }
    }

    /// Finds each superblock record that begins at a multiple of 64 below 67,108,864. Such a record is valid
    /// for its own sizes, begins at one of its page boundaries, ends in its extent 0, and has no byte in a
    /// lost block. The lost bytes are those of the lost blocks.
    pub fn superblocks(&self, alloc: Global) -> Result<FoundSuperblocks, OutOfMemory>
        ensures { IfOk result (λ f. (raw : Option (List ℕ)) (lacking : ℕ → Bool) (fails : ℕ → ℕ → Bool)
            (failures : ℕ) → IsFrontOf raw lacking fails failures self.now →
            AreFoundInSome raw lacking fails failures f.records.items f.lost.items) }
    {
        let records = find_records(alloc, &self.bytes, &self.lost)?;
        let lost = lost_ranges(alloc, &self.lost)?;
        Ok(FoundSuperblocks { records, lost })
    }
}
