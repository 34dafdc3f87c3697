//! How tests compare what they found with what they expected.

use scrub_disk::MemDisk;
use scrub_report::ScrubAnswer;
use scrub_scan::{AllFindings, ExtentResult};
use std::fmt::Debug;
use std::process::Abort;

/// Checks that two values are equal, and prints both if they aren't. That they can be printed is proved here
/// once, and not in each test.
pub(crate) fn same<T: PartialEq + Debug + Drop>(rt: &impl Abort, found: T, wanted: T) {
    assert_eq!(rt; found, wanted);
}

/// Compares two results of one extent.
fn check_result(
    rt: &impl Abort,
    found: &ExtentResult<'_, MemDisk>,
    wanted: &ExtentResult<'_, MemDisk>,
) {
    same(
        rt,
        (found.extent(), found.pointer()),
        (wanted.extent(), wanted.pointer()),
    );
    let (one, other) = (found.findings(), wanted.findings());
    same(rt, one.items(), other.items());
    same(
        rt,
        (one.tail_count(), one.tail_first()),
        (other.tail_count(), other.tail_first()),
    );
    same(rt, one.bad_pages(), other.bad_pages());
}

/// Compares findings, extent by extent.
pub(crate) fn check_found(
    rt: &impl Abort,
    found: &AllFindings<'_, MemDisk>,
    wanted: &AllFindings<'_, MemDisk>,
) {
    assert!(rt; found.len() == wanted.len());
    for i in 0..found.len() {
        check_result(rt, found.result_at(i), wanted.result_at(i));
    }
}

/// Compares the answers of two scrubs.
pub(crate) fn check_answer(rt: &impl Abort, found: &ScrubAnswer, wanted: &ScrubAnswer) {
    same(rt, found.report(), wanted.report());
    same(rt, found.index(), wanted.index());
    same(rt, found.is_clean(), wanted.is_clean());
}
