//! Makes calls that can run out of memory, on small values, so that `tests/test_memory.py` can refuse each of
//! their growths in turn. Arguments: the name of the call; for a call with workers how many there are beside
//! the caller; and `answered`, or `made` to make only the values of the call. Prints `right` with status 0,
//! `out of memory` with status 4 if a growth was refused, or `wrong` with status 1. Without arguments it
//! makes each call once, and prints its name before the answer. `calls` lists the calls. Public calls that
//! aren't here are made by whole runs, each allocation of which the same test refuses.
#![tactic(auto)]

/// A row for a call: the two words that name it, and the function that makes it as far as wanted.
macro_rules! made {
    ($trial:ident, $name:expr, $second:expr, $wanted:ident => $call:expr) => {
        if let Some($wanted) = $trial.wants($name, $second) {
            let ending = $call;
            $trial.ended(ending);
        }
    };
}

mod calls;
mod checks;
mod disks;
mod ending;
mod frames;
mod lists;
mod loading;
mod pool;
mod records;
mod report;
mod runs;
mod scans;
mod takings;

use crate::calls::{Selection, Trial, all};
use crate::ending::{Stop, Wanted};
use std::env::Env;
use std::io::{ErrorKind, Write};
use std::process::ExitCode;
use std::sync::Wait;
use std::thread::Threads;

/// No call has this name.
const NO_CALL: Selection<'static> = Selection::One("", "", Wanted::Answer);

fn main(rt: HostRuntime) -> ExitCode {
    let mut out = rt.stdout();
    let status = match process_words(&rt) {
        Ok(words) => answer(&rt, &words, &mut out),
        Err(stop) => stopped(stop, &mut out),
    };
    ExitCode::from(status)
}

/// The arguments of the process, after the program's name.
fn process_words<R: Env + AllocGlobal>(rt: &R) -> Result<Vec<String>, Stop> {
    match std::env::args(rt) {
        Ok(words) => Ok(words.collect(rt.alloc())?),
        Err(error) if error.kind() == ErrorKind::OutOfMemory => Err(Stop::OutOfMemory),
        Err(_) => Err(Stop::Wrong),
    }
}

/// Does what the arguments say, and returns the status.
fn answer<R: AllocGlobal + Threads + Wait + Sync, O: Write>(
    rt: &R,
    words: &[String],
    out: &mut O,
) -> u8 {
    let mut trial = Trial::new(selection_of(words), out);
    all(rt, rt.alloc(), &mut trial);
    trial.status()
}

/// The calls that the arguments name.
fn selection_of(words: &[String]) -> Selection<'_> {
    match words {
        [] | [_] => Selection::All,
        [_, word] if word.as_str() == "calls" => Selection::Names,
        [_, name] => Selection::One(name.as_str(), "", Wanted::Answer),
        [_, name, last] => match how_far(last) {
            Some(wanted) => Selection::One(name.as_str(), "", wanted),
            None => Selection::One(name.as_str(), last.as_str(), Wanted::Answer),
        },
        [_, name, second, last] => match how_far(last) {
            Some(wanted) => Selection::One(name.as_str(), second.as_str(), wanted),
            None => NO_CALL,
        },
        _ => NO_CALL,
    }
}

/// How far a call goes, if the word says so.
fn how_far(word: &String) -> Option<Wanted> {
    match word.as_str() {
        "made" => Some(Wanted::Values),
        "answered" => Some(Wanted::Answer),
        _ => None,
    }
}

/// Writes why there are no arguments, and returns the status.
fn stopped<O: Write>(stop: Stop, out: &mut O) -> u8 {
    let mut trial = Trial::new(Selection::All, out);
    trial.ended(Err(stop));
    trial.status()
}
