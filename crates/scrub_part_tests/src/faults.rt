//! The texts of faults, which no contract states. Those of a refused geometry the program prints.

use crate::compare::same;
use scrub_disk::{LoadFault, RawFault, Unreadable};
use scrub_fakes::Misfit;
use scrub_frame::FrameFault;
use scrub_run::RunFault;
use std::alloc::Global;
use std::fmt::Display;
use std::process::Abort;
use std::test::Fail;

/// Checks the text of a fault.
fn check_text<F: Display + Drop>(
    rt: &impl Abort,
    alloc: Global,
    fault: F,
    text: &str,
) -> Result<(), Fail> {
    same(rt, format!(in alloc; "{fault}")?.as_str(), text);
    Ok(())
}

#[test]
fn each_fault_has_its_own_text(rt: HostRuntime) -> Result<(), Fail> {
    let alloc = rt.alloc();
    for (fault, text) in [
        (RunFault::OutOfMemory, "out of memory"),
        (RunFault::NotARun, "the payload isn't an index run"),
    ] {
        check_text(&rt, alloc, fault, text)?;
    }
    for (fault, text) in [
        (FrameFault::TooLong, "the payload is too long for a frame"),
        (FrameFault::OutOfMemory, "out of memory"),
    ] {
        check_text(&rt, alloc, fault, text)?;
    }
    for (fault, text) in [
        (LoadFault::OutOfMemory, "out of memory"),
        (LoadFault::TooLong, "the raw image is too long"),
    ] {
        check_text(&rt, alloc, fault, text)?;
    }
    for (fault, text) in [
        (Misfit::DoesNotFit, "it doesn't fit"),
        (Misfit::OutOfMemory, "out of memory"),
    ] {
        check_text(&rt, alloc, fault, text)?;
    }
    check_text(&rt, alloc, RawFault, "the raw image could not be read")?;
    check_text(&rt, alloc, Unreadable, "unreadable")
}
