//! The command `shards`: all shards of a disk as a tar archive, and the lines of the error stream.

ghost use Rattle.std.specs.Prelude.{◌≡◌, ◌≤◌, ◌++◌, IfOk, IfSome, MatchResult, OnOk};
ghost use Rattle.std.specs.Prelude.{string_bytes};
ghost use Rattle.scrub_super.specs.steps.Limits.{AreRunLocators};
ghost use Rattle.scrub_found.specs.GivenRuns.{AreTakingsFrom, given_in};
ghost use Rattle.scrub_cli.specs.Remarks.{remark_line, remark_lines};
ghost use Rattle.scrub_cli.specs.Shards.{AreShardsTakings, IsArchived, IsShardsFault};

use crate::commands::answer::Answer;
use crate::commands::geometry::geometry_of;
use crate::commands::given_runs::load_with_runs;
use crate::commands::remarks::append_superblock_line;
use crate::process::fault::Fault;
use crate::process::images::Images;
use crate::process::outcome::Outcome;
use scrub_args::ShardsArgs;
use scrub_disk::{OutOfMemory, PageSource};
use scrub_found::ScrubFault;
use scrub_found::texts::state_text;
use scrub_frame::Locator;
use scrub_pool::{NoGate, Takings};
use scrub_shard::{Remark, read_shards};
use std::alloc::Global;
use std::fmt::Write;
use std::sync::Wait;
use std::thread::Threads;

/// Appends the line of a remark.
fn append_line(alloc: Global, lines: &mut String, remark: &Remark) -> Result<(), OutOfMemory>
    ensures { OnOk result (string_bytes lines.new ≡ string_bytes lines.old ++ remark_line remark.now) }
{
    match *remark {
        Remark::NoSuperblock => writeln!(lines, "shardscrub: no superblock"),
        Remark::Superblock(one) => append_superblock_line(lines, &one),
        Remark::RunLost { number, state } => {
            let state = state_text(state);
            writeln!(lines, "shardscrub: run lost: {number} {state}")
        }
        Remark::ShardLost { id, number } => {
            let id = hex::encode(alloc, id.0)?;
            let (tens, ones) = (number / 10, number % 10);
            writeln!(lines, "shardscrub: payload lost: {id} {tens}{ones}")
        }
        Remark::ShardDoubtful { id } => {
            let id = hex::encode(alloc, id.0)?;
            writeln!(lines, "shardscrub: a newer entry may be lost: {id}")
        }
    }
}

/// Appends the lines of some remarks.
fn append_lines(alloc: Global, lines: &mut String, remarks: &[Remark]) -> Result<(), OutOfMemory>
    ensures { OnOk result (string_bytes lines.new ≡ string_bytes lines.old ++ remark_lines remarks.now) }
{
    for remark in remarks {
        append_line(alloc, lines, remark)?;
    }
    Ok(())
}

/// The archive of all shards of a disk by the index runs that are given, or else by the superblock that
/// counts, with the payloads of broken shards or without; with its status and the lines beside it. The
/// workers and the takings are as for `disk_answer`.
fn archived<R: Threads + Wait + Sync, D: PageSource>(
    rt: &R,
    alloc: Global,
    disk: &D,
    workers: u32,
    given: Option<&[Locator]>,
    is_partial: bool,
) -> Result<(Answer, Takings), ScrubFault>
    requires workers { workers ≤ 64 }
    requires located { IfSome given (λ runs. AreRunLocators runs.now) }
    ensures answer { IfOk result (λ r.
        IsArchived (given_in given.entry) is_partial (D.image disk.now) r.0.text.items r.0.outcome) }
    ensures takings { IfOk result (λ r.
        AreTakingsFrom (given_in given.entry) (D.image disk.now) workers r.1) }
{
    let (archive, takings) = read_shards(rt, alloc, disk, workers, &NoGate, given, is_partial)?;
    let mut lines = String::new(alloc);
    append_lines(alloc, &mut lines, &archive.remarks)?;
    let answer = Answer {
        text: archive.tar,
        outcome: Outcome::with_lines(lines.into_bytes()),
    };
    Ok((answer, takings))
}

/// All shards of the disk that the arguments name, as an archive, and the extents that each worker took.
/// Faults are checked in the order of `Fault`.
pub fn shards<'a, R: Threads + Wait + Sync, I: Images>(
    rt: &R,
    alloc: Global,
    args: &ShardsArgs<'a>,
    images: &mut I,
) -> Result<(Answer, Takings), Fault<'a>>
    requires { args.now.scan.workers ≤ 64 }
    ensures { MatchResult result
        (λ r. AreShardsTakings (I.known images.old args.now.scan.image.name.now) (I.known_map images.old)
        args.now r.0.text.items r.0.outcome r.1)
        (IsShardsFault (I.known images.old args.now.scan.image.name.now) (I.known_map images.old) args.now) }
{
    let image = &args.scan.image;
    let (geometry, opened) = geometry_of(alloc, image, images)?;
    let (disk, given) = load_with_runs(rt, alloc, geometry, image, &args.runs, opened, images)?;
    let workers = args.scan.workers;
    Ok(archived(rt, alloc, &disk, workers, given.as_deref(), args.is_partial)?)
}
