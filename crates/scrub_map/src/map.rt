//! What is kept of a map, and which blocks it lacks. For how its text is read, see `reading`.

ghost use Rattle.std.specs.Prelude.{◌≡◌, ◌≤◌, ◌<◌, ◌+◌, ◌^◌, List, length, IfOk, OnOk};

use crate::block::MapBlock;
use crate::gap::Gap;
use std::alloc::{AllocError as OutOfMemory, Global};

/// A map, kept as the bytes that it lacks: gaps in ascending order, and all bytes from `end` on.
#[derive(Drop)]
pub struct RescueMap {
    gaps: Vec<Gap>,
    end: u64,
    ghost end_is_small: { end < 2 ^ 63 },
}

impl RescueMap {
    ghost use Rattle.std.specs.Prelude.{[], ◌++◌, ◌∷◌};
    ghost use Rattle.std.specs.Int.{div_ceil};
    ghost use Rattle.scrub_map.specs.declared.block.MapBlock.{MapBlock};
    ghost use Rattle.scrub_map.specs.MissingBytes.{HasGapsBelowEnd, KeepsBlocks};
    ghost use Rattle.scrub_map.specs.Rescued.{AreLostBlocks};

    /// A map without blocks: nothing was rescued.
    pub(crate) fn new(alloc: Global) -> RescueMap
        ensures kept { KeepsBlocks result [] }
        ensures below { HasGapsBelowEnd result }
        ensures end { result.end ≡ 0 }
    {
        RescueMap {
            gaps: Vec::new(alloc),
            end: 0,
        }
    }

    /// Adds a block, which begins at or after the end of all blocks before it.
    pub(crate) fn add(&mut self, block: MapBlock) -> Result<(), OutOfMemory>
        requires ordered { self.old.end ≤ block.position }
        requires small { block.position + block.size < 2 ^ 63 }
        requires below { HasGapsBelowEnd self.old }
        ensures kept { OnOk result ((blocks : List MapBlock) → KeepsBlocks self.old blocks →
            KeepsBlocks self.new (blocks ++ block ∷ [])) }
        ensures below { OnOk result (HasGapsBelowEnd self.new) }
        ensures end { OnOk result (self.new.end ≤ block.position + block.size) }
    {
        if !block.is_rescued || block.size == 0 {
            return Ok(());
        }
        if self.end < block.position {
            self.gaps.push(Gap {
                from: self.end,
                to: block.position,
            })?;
        }
        self.end = block.position + block.size;
        Ok(())
    }

    /// Says for each block of `size` bytes that begins before byte `bytes` whether it is lost: whether it has
    /// a byte before `bytes` that no block of the map with status `+` covers. All bytes after the end of the
    /// map are lost.
    pub fn lost_blocks(
        &self,
        alloc: Global,
        size: u32,
        bytes: u64,
    ) -> Result<Vec<bool>, OutOfMemory>
        requires { 0 < size }
        ensures one_each { IfOk result (λ marks. length marks.items ≡ div_ceil bytes size) }
        ensures lost { IfOk result (λ marks. (blocks : List MapBlock) → KeepsBlocks self.now blocks →
            AreLostBlocks blocks size bytes marks.items) }
    {
        let count = bytes.div_ceil(u64::from(size)) as usize;
        let mut marks = vec![in alloc; false; count]?;
        for gap in &self.gaps {
            gap.mark(&mut marks, size, bytes);
        }
        let behind = Gap {
            from: self.end,
            to: u64::MAX,
        };
        behind.mark(&mut marks, size, bytes);
        Ok(marks)
    }
}
