//! Reads the front of a raw image in blocks of 512 bytes, some of which may be lost. `search` looks at the
//! bytes.

ghost use Rattle.std.specs.Prelude.{◌≡◌, ◌+◌, ◌-◌, ◌*◌, ◌<◌, ◌≤◌, ◌^◌, ◌++◌, ◌∷◌, [], true, ℕ, List, IfOk};
ghost use Rattle.std.specs.Prelude.{IfSome, OnOk, length, slice_get, take};
ghost use Rattle.scrub_disk.specs.Limits.{max_extent_bytes};
ghost use Rattle.scrub_disk.specs.Image.{AreBytesAt};
ghost use Rattle.scrub_disk.specs.Raw.{IsReadOn};
ghost use Rattle.scrub_super.specs.Blocks.{AreBlockMarks};
ghost use Rattle.scrub_super.specs.steps.BlocksRead.{AreAllRead, IsBlockRead};

use scrub_disk::{OutOfMemory, RawImage, fill};
use std::alloc::Global;

/// The size of a block, in bytes.
pub const BLOCK_BYTES: usize = 512;

/// The most blocks that are read: 67,108,864 bytes, the size of the largest extent.
pub(crate) const MOST_BLOCKS: usize = 131072;

/// How a block was read.
#[derive(Clone, Copy)]
struct Block {
    /// How many bytes it has: fewer than 512 only if the image ends in it.
    len: usize,
    is_lost: bool,
}

/// Reads a block into `out`, which has its size. A block that can't be read counts as whole, and is lost.
fn read_block<R: RawImage>(raw: &mut R, offset: u64, out: &mut [u8]) -> Block
    requires few_reads { R.reads raw.old + BLOCK_BYTES < 2 ^ 63 }
    requires in_range { offset + BLOCK_BYTES < 2 ^ 64 }
    requires size { length out.old ≡ BLOCK_BYTES }
    ensures within { result.len ≤ BLOCK_BYTES }
    ensures lost { result.is_lost ≡ true → 0 < result.len }
    ensures read { IfSome (R.bytes raw.old) (λ bytes.
        IsBlockRead bytes (R.fails raw.old) offset (R.failures raw.old) (R.failures raw.new) out.new result) }
    // The same of any bytes that hold what was read.
    ensures own { (bytes : List ℕ) → AreBytesAt (slice_get bytes) offset (take result.len out.new) →
        (result.len < BLOCK_BYTES → length bytes ≤ offset + result.len) →
        IsBlockRead bytes (R.fails raw.old) offset (R.failures raw.old) (R.failures raw.new) out.new result }
    ensures image { IsReadOn R.bytes R.fails R.most_failures R.failures raw.old raw.new }
    ensures reads { R.reads raw.new ≤ R.reads raw.old + BLOCK_BYTES }
{
    match fill(raw, offset, 0, out) {
        Ok(len) => Block {
            len,
            is_lost: false,
        },
        Err(_) => Block {
            len: BLOCK_BYTES,
            is_lost: true,
        },
    }
}

/// Adds a block after those so far.
fn add_block(
    bytes: &mut Vec<u8>,
    lost: &mut Vec<bool>,
    block: &[u8],
    is_lost: bool,
) -> Result<(), OutOfMemory>
    ensures bytes { OnOk result (bytes.new.items ≡ bytes.old.items ++ block.now) }
    ensures lost { OnOk result (lost.new.items ≡ lost.old.items ++ is_lost ∷ []) }
{
    bytes.extend_from_slice(block)?;
    lost.push(is_lost)?;
    Ok(())
}

/// Reads the front of a raw image, block by block. Returns its bytes, and which blocks are lost.
pub(crate) fn read_blocks<R: RawImage>(
    alloc: Global,
    raw: &mut R,
) -> Result<(Vec<u8>, Vec<bool>), OutOfMemory>
    requires few_reads { R.reads raw.old < 2 ^ 62 }
    ensures marks { IfOk result (λ b. AreBlockMarks b.0.items b.1.items) }
    ensures read { IfOk result (λ b. IfSome (R.bytes raw.old) (λ known.
        AreAllRead known (R.fails raw.old) (R.failures raw.new - R.failures raw.old) b.0.items b.1.items)) }
    // The bytes that were read could be those of the raw image.
    ensures own { IfOk result (λ b.
        AreAllRead b.0.items (R.fails raw.old) (R.failures raw.new - R.failures raw.old) b.0.items
        b.1.items) }
    ensures image { IsReadOn R.bytes R.fails R.most_failures R.failures raw.old raw.new }
    ensures reads { R.reads raw.new ≤ R.reads raw.old + max_extent_bytes }
{
    let mut bytes = Vec::new(alloc);
    let mut lost = Vec::new(alloc);
    let mut buffer = [0u8; BLOCK_BYTES];
    for number in 0..MOST_BLOCKS {
        let block = read_block(raw, number as u64 * BLOCK_BYTES as u64, &mut buffer);
        add_block(&mut bytes, &mut lost, &buffer[..block.len], block.is_lost)?;
        if block.len < BLOCK_BYTES {
            break;
        }
    }
    Ok((bytes, lost))
}
