//! A whole run: it parses the arguments, makes the answer, writes it and returns the status.

ghost use Rattle.std.specs.Prelude.{MatchResult, is_ok};
ghost use Rattle.scrub_cli.specs.Answer.{IsAnswerOfRun, IsFault, RunTells, RunWrites, WritesAnswer};
ghost use Rattle.scrub_args.specs.Args.{texts};

use crate::commands::answer::{Answer, version};
use crate::commands::compare::compare;
use crate::commands::demo::demo;
use crate::commands::items::items;
use crate::commands::manifest::manifest;
use crate::commands::scan::{on_disk, superblocks};
use crate::commands::shard::shard;
use crate::commands::shards::shards;
use crate::commands::sizes::sizes;
use crate::process::fault::Fault;
use crate::process::images::Images;
use scrub_args::{Request, read_args};
use scrub_report::{WriteFault, write_out};
use std::alloc::Global;
use std::io::Write;
use std::sync::Wait;
use std::thread::Threads;

/// The whole answer to the arguments. The takings of a scan are for contracts alone.
fn answer<'a, R: Threads + Wait + Sync, I: Images>(
    rt: &R,
    alloc: Global,
    args: &'a [&'a str],
    images: &mut I,
) -> Result<Answer, Fault<'a>>
    ensures { MatchResult result
        (λ a. IsAnswerOfRun (I.known images.old) (I.known_map images.old) (texts args.entry.now)
        a.text.items a.outcome)
        (IsFault (I.known images.old) (I.known_map images.old) (texts args.entry.now)) }
{
    let Some(request) = read_args(alloc, args)? else {
        return Ok(version(alloc)?);
    };
    match request {
        Request::Demo => Ok(demo(rt, alloc)?.0),
        Request::Items(args) => items(alloc, &args, images),
        Request::Scan(wanted, args) => on_disk(rt, alloc, &args, images, &wanted),
        Request::Manifest(args) => Ok(manifest(rt, alloc, &args, images)?.0),
        Request::Compare(args) => Ok(compare(rt, alloc, &args, images)?.0),
        Request::Shard(args) => Ok(shard(rt, alloc, &args, images)?.0),
        Request::Shards(args) => Ok(shards(rt, alloc, &args, images)?.0),
        Request::Superblocks(args) => superblocks(alloc, &args, images),
        Request::Sizes(args) => sizes(alloc, &args, images),
    }
}

/// Writes the answer, and returns what `Fault::end` does.
fn write_answer<O: Write, E: Write>(
    answer: &Answer,
    out: &mut O,
    err: &mut E,
) -> (u8, Result<(), WriteFault>)
    ensures { WritesAnswer answer.now.text.items answer.now.outcome result.0 (is_ok result.1)
        (O.contents out.old, O.contents out.new) (E.contents err.old, E.contents err.new) }
{
    match write_out(out, &answer.text) {
        Ok(()) => (answer.outcome.status(), answer.outcome.warn(err)),
        Err(fault) => answer.outcome.end_output(fault.written, err),
    }
}

/// Does what `run` does, and returns what `Fault::end` does.
fn run_telling<R: Threads + Wait + Sync, I: Images, O: Write, E: Write>(
    rt: &R,
    alloc: Global,
    args: &[&str],
    images: &mut I,
    out: &mut O,
    err: &mut E,
) -> (u8, Result<(), WriteFault>)
    ensures { RunTells (I.known images.old) (I.known_map images.old) (texts args.entry.now) result.0
        (is_ok result.1) (O.contents out.old, O.contents out.new) (E.contents err.old, E.contents err.new) }
{
    match answer(rt, alloc, args, images) {
        Ok(answer) => write_answer(&answer, out, err),
        Err(fault) => fault.end(err),
    }
}

/// Runs the command that the arguments name; the program's name isn't one of them. The answer is written to
/// `out` once all of it is in memory. Help, faults, and the lines of `shard`, `shards`, `manifest` and
/// `sizes` are written to `err`, whose own failures are ignored.
///
/// The statuses: 0 clean, help or version; 1 findings, a shard that can't be had, or such lines; 2 invalid
/// arguments or map, or an index run that isn't there; 3 the map or the image can't be opened, the image
/// is too long, or the output failed; 4 out of memory.
pub fn run<R: Threads + Wait + Sync, I: Images, O: Write, E: Write>(
    rt: &R,
    alloc: Global,
    args: &[&str],
    images: &mut I,
    out: &mut O,
    err: &mut E,
) -> u8
    ensures { RunWrites (I.known images.old) (I.known_map images.old) (texts args.entry.now) result
        (O.contents out.old, O.contents out.new) (E.contents err.old, E.contents err.new) }
{
    // If the error stream failed, there is nowhere left to report that.
    run_telling(rt, alloc, args, images, out, err).0
}
