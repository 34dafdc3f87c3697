//! The lines of the error stream for what is said beside a manifest or the bytes of a shard. For those beside
//! an archive see `shards`.

ghost use Rattle.std.specs.Prelude.{◌≡◌, ◌++◌, IfOk, OnOk, string_bytes};
ghost use Rattle.scrub_cli.specs.Remarks.{shard_remark_lines, superblock_remark_line};
ghost use Rattle.scrub_cli.specs.Remarks.{superblock_remark_lines};

use scrub_disk::OutOfMemory;
use scrub_listings::SuperblockRemark;
use scrub_shard::ShardAnswer;
use std::alloc::Global;
use std::fmt::Write;

/// Appends the line of a remark on the superblocks.
pub fn append_superblock_line(
    lines: &mut String,
    remark: &SuperblockRemark,
) -> Result<(), OutOfMemory>
    ensures { OnOk result (string_bytes lines.new ≡
        string_bytes lines.old ++ superblock_remark_line remark.now) }
{
    match *remark {
        SuperblockRemark::Lost { page } => writeln!(lines, "shardscrub: superblock lost: {page}"),
        SuperblockRemark::Tie => writeln!(lines, "shardscrub: tie"),
    }
}

/// The lines of some remarks on the superblocks.
pub fn superblock_remark_lines(
    alloc: Global,
    remarks: &[SuperblockRemark],
) -> Result<String, OutOfMemory>
    ensures { IfOk result (λ lines. string_bytes lines ≡ superblock_remark_lines remarks.now) }
{
    let mut lines = String::new(alloc);
    for remark in remarks {
        append_superblock_line(&mut lines, remark)?;
    }
    Ok(lines)
}

/// The lines for the bytes of a shard: those on the superblocks, and that its entry is doubtful. None for
/// another answer.
pub fn shard_remark_lines(
    alloc: Global,
    remarks: &[SuperblockRemark],
    answer: &ShardAnswer,
) -> Result<String, OutOfMemory>
    ensures { IfOk result (λ lines. string_bytes lines ≡ shard_remark_lines remarks.now answer.now) }
{
    let ShardAnswer::Found(found) = answer else {
        return Ok(String::new(alloc));
    };
    let mut lines = superblock_remark_lines(alloc, remarks)?;
    if found.is_doubtful() {
        writeln!(lines, "shardscrub: a newer entry may be lost")?;
    }
    Ok(lines)
}
