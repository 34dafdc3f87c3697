//! How a run ends that wrote a whole answer: the status, and what it reports on the error stream. For a run
//! without one see `fault`.

ghost use Rattle.std.specs.Prelude.{◌≡◌, OnOk, false, is_ok, true};
ghost use Rattle.scrub_cli.specs.Outcome.{IsWarnedOutcome, IsOutcomeWith, IsReportedBehind, Warns};
ghost use Rattle.scrub_cli.specs.Outcome.{lines_before, outcome_of, status_of_outcome};

use crate::process::fault::Fault;
use scrub_report::{WriteFault, write_out};
use std::io::Write;

/// How a run ends that wrote a whole answer.
#[derive(Drop)]
pub enum Outcome {
    /// Nothing was found.
    Clean,
    /// Something was found.
    Findings,
    /// The answer was written, and there are these lines for the error stream after it.
    Warned(Vec<u8>),
    /// All shards were written that can be had, and there are these lines for the error stream.
    Remarked(Vec<u8>),
}

impl Outcome {
    /// The outcome of what is clean, or has findings.
    pub fn of(is_clean: bool) -> Outcome
        ensures { result ≡ outcome_of is_clean }
    {
        if is_clean {
            Outcome::Clean
        } else {
            Outcome::Findings
        }
    }

    /// The outcome of what is clean, or has findings, with these lines for the error stream after the answer.
    pub fn warned(lines: Vec<u8>, is_clean: bool) -> Outcome
        ensures { IsWarnedOutcome is_clean lines.items result }
    {
        if lines.is_empty() {
            Outcome::of(is_clean)
        } else {
            Outcome::Warned(lines)
        }
    }

    /// The outcome of all shards with these lines for the error stream.
    pub fn with_lines(lines: Vec<u8>) -> Outcome
        ensures { IsOutcomeWith lines.items result }
    {
        if lines.is_empty() {
            Outcome::Clean
        } else {
            Outcome::Remarked(lines)
        }
    }

    /// The exit status.
    pub fn status(&self) -> u8
        ensures { result ≡ status_of_outcome self.now }
    {
        match self {
            Outcome::Clean => 0,
            Outcome::Findings | Outcome::Warned(_) | Outcome::Remarked(_) => 1,
        }
    }

    /// Reports the outcome's lines on the error stream. A fault says that the error stream failed.
    pub fn warn<E: Write>(&self, err: &mut E) -> Result<(), WriteFault>
        ensures front { Warns self.now false (E.contents err.old, E.contents err.new) }
        ensures whole { OnOk result (Warns self.now true (E.contents err.old, E.contents err.new)) }
    {
        match self {
            Outcome::Clean | Outcome::Findings => Ok(()),
            Outcome::Warned(lines) | Outcome::Remarked(lines) => write_out(err, lines),
        }
    }

    /// The lines that are reported even if the output fails, before that.
    fn lines_before(&self) -> &[u8]
        ensures { result.now ≡ lines_before self.now }
    {
        match self {
            Outcome::Remarked(lines) => lines.as_slice(),
            Outcome::Clean | Outcome::Findings | Outcome::Warned(_) => &[],
        }
    }

    /// Reports that the output failed after this many bytes, behind these lines. It returns what `Fault::end`
    /// does.
    pub fn end_output<E: Write>(&self, written: usize, err: &mut E) -> (u8, Result<(), WriteFault>)
        ensures { IsReportedBehind (lines_before self.now) written result.0 (is_ok result.1)
            (E.contents err.old, E.contents err.new) }
    {
        let fault = Fault::Output { written };
        match write_out(err, self.lines_before()) {
            Ok(()) => fault.end(err),
            Err(of_lines) => (fault.status(), Err(of_lines)),
        }
    }
}
