//! Joins neighbouring lost blocks into ranges of bytes.

ghost use Rattle.std.specs.Prelude.{◌≡◌, ◌+◌, ◌*◌, ◌<◌, ◌≤◌, ◌^◌, ◌++◌, IfOk, OnOk, length};
ghost use Rattle.scrub_super.specs.UnknownSizes.{AreLostRanges};
ghost use Rattle.scrub_super.specs.steps.BlocksRead.{ended_run};

use crate::unknown_sizes::LostBytes;
use crate::unknown_sizes::blocks::{BLOCK_BYTES, MOST_BLOCKS};
use scrub_disk::OutOfMemory;
use std::alloc::Global;

/// The bytes of the blocks from `first` up to but not including `stop`.
fn bytes_of(first: usize, stop: usize) -> LostBytes
    requires first { first ≤ MOST_BLOCKS }
    requires stop { stop ≤ MOST_BLOCKS }
    ensures from { result.from ≡ first * BLOCK_BYTES }
    ensures to { result.to ≡ stop * BLOCK_BYTES }
{
    LostBytes {
        from: (first * BLOCK_BYTES) as u32,
        to: (stop * BLOCK_BYTES) as u32,
    }
}

/// Adds the range that ends with a block, if one does: the block is lost, and the next one isn't.
fn add_run(
    ranges: &mut Vec<LostBytes>,
    lost: &[bool],
    first: usize,
    block: usize,
) -> Result<(), OutOfMemory>
    requires few { length lost.now ≤ MOST_BLOCKS }
    requires block { block < length lost.now }
    requires first { first ≤ MOST_BLOCKS }
    ensures { OnOk result (ranges.new.items ≡ ranges.old.items ++ ended_run lost.now first block) }
{
    if lost[block] && (block + 1 == lost.len() || !lost[block + 1]) {
        ranges.push(bytes_of(first, block + 1))?;
    }
    Ok(())
}

/// The ranges of lost bytes, each as long as possible.
pub(crate) fn lost_ranges(alloc: Global, lost: &[bool]) -> Result<Vec<LostBytes>, OutOfMemory>
    requires { length lost.now ≤ MOST_BLOCKS }
    ensures { IfOk result (λ v. AreLostRanges lost.now v.items) }
{
    let mut ranges = Vec::new(alloc);
    let mut first = 0;
    for block in 0..lost.len() {
        if !lost[block] {
            first = block + 1;
        }
        add_run(&mut ranges, lost, first, block)?;
    }
    Ok(ranges)
}
