//! The program `shardscrub`: arguments in, bytes and a status out. `run` does the work; here it gets the
//! arguments, the files and the streams of the system.
#![tactic(auto)]

ghost use Rattle.std.specs.Prelude.{◌≡◌, ◌⊎◌, Bool, IfErr, MatchResult, drop, map};
ghost use Rattle.std.specs.Process.{exit_status};
ghost use Rattle.scrub_cli.specs.Answer.{RunWrites, WritesNone};
ghost use Rattle.scrub_cli.specs.KnownFiles.{image_file, map_file};

mod commands;
mod process;
mod running;

use crate::process::fault::Fault;
use crate::process::files::NamedFiles;
use crate::running::run;
use scrub_disk::OutOfMemory;
use std::env::Env;
use std::fs::{File, Files};
use std::io::{ErrorKind, Write};
use std::process::ExitCode;
use std::sync::Wait;
use std::thread::Threads;

fn main(rt: HostRuntime) -> ExitCode {
    let (mut out, mut err) = (rt.stdout(), rt.stderr());
    run_process(&rt, process_args(&rt), &mut out, &mut err)
}

/// All arguments of the process; the first is the program's name. The contract of `args` doesn't say which
/// ones it gives.
fn process_args<R: Env + AllocGlobal>(rt: &R) -> Result<Vec<String>, Fault<'static>>
    ensures { IfErr result (λ fault. (fault ≡ Fault.NotUtf8) ⊎ (fault ≡ Fault.OutOfMemory)) }
{
    match std::env::args(rt) {
        Ok(args) => Ok(args.collect(rt.alloc())?),
        Err(error) if error.kind() == ErrorKind::OutOfMemory => Err(Fault::OutOfMemory),
        Err(_) => Err(Fault::NotUtf8),
    }
}

/// The arguments after the program's name.
fn without_program_name(args: &[String]) -> &[String]
    ensures { result.now ≡ drop 1 args.now }
{
    match args.split_first() {
        Some((_, behind)) => behind,
        None => &[],
    }
}

/// Runs the program on the arguments of a process, or reports why they couldn't be read.
fn run_process<R: Files<File = File> + AllocGlobal + Threads + Wait + Sync, O: Write, E: Write>(
    rt: &R,
    args: Result<Vec<String>, Fault<'static>>,
    out: &mut O,
    err: &mut E,
) -> ExitCode
    ensures { MatchResult args.entry
        (λ all. RunWrites (λ _. image_file) map_file (map (λ arg. arg.bytes.items) (drop 1 all.items))
        (exit_status result)
        (O.contents out.old, O.contents out.new) (E.contents err.old, E.contents err.new))
        (λ fault. (told : Bool) × WritesNone fault (exit_status result) told
        (O.contents out.old, O.contents out.new) (E.contents err.old, E.contents err.new)) }
{
    let status = match args {
        Ok(args) => run_args(rt, without_program_name(&args), out, err),
        Err(fault) => fault.end(err).0,
    };
    ExitCode::from(status)
}

/// Runs the program on these arguments and the files of the system.
fn run_args<R: Files<File = File> + AllocGlobal + Threads + Wait + Sync, O: Write, E: Write>(
    rt: &R,
    args: &[String],
    out: &mut O,
    err: &mut E,
) -> u8
    ensures { RunWrites (λ _. image_file) map_file (map (λ arg. arg.bytes.items) args.now) result
        (O.contents out.old, O.contents out.new) (E.contents err.old, E.contents err.new) }
{
    let args: Result<Vec<&str>, OutOfMemory> = args
        .iter()
        .map(|arg| arg.as_str())
        .collect(rt.alloc());
    match args {
        Ok(args) => {
            let mut files = NamedFiles { runtime: rt };
            run(rt, rt.alloc(), args.as_slice(), &mut files, out, err)
        }
        Err(OutOfMemory) => Fault::OutOfMemory.end(err).0,
    }
}
