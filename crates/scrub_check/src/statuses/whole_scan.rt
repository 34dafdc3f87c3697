//! A disk with its plan and all that was found on it, which statuses are found by.

ghost use Rattle.scrub_check.specs.WholeScan.{IsWholeScan};
ghost use Rattle.scrub_check.specs.steps.OneScan.{IsWholeScan-prop};

use scrub_disk::PageSource;
use scrub_scan::AllFindings;
use scrub_super::Plan;

/// A disk, its plan, and what was found in each extent of it. The type keeps that the scan is whole.
#[derive(Drop)]
pub(crate) struct WholeScan<'a, D: PageSource> {
    /// The disk.
    pub disk: &'a D,
    /// Its plan.
    pub plan: &'a Plan,
    /// What was found.
    pub all: &'a AllFindings<'a, D>,
    pub ghost whole: { IsWholeScan (D.image disk.now) plan.now all.now.extents } by { IsWholeScan-prop
        (D.image disk.now) plan.now all.now.extents },
}
