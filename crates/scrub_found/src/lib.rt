//! What is found on a whole disk, up to the status of each named locator, and whether it is clean.
//! `scrub_report` writes it as JSON, `scrub_listings` and the crates above it as lines.
#![tactic(auto)]

pub mod clean;
pub mod fault;
pub mod judging;
pub mod runs;
pub mod scanning;
pub mod texts;

pub use clean::{are_clean_items, is_clean};
pub use fault::ScrubFault;
pub use judging::{DrawnScan, Judged, drawn_scan, each_image_has_findings_under_resets, judged_of};
pub use runs::RunRow;
pub use scanning::{
    Scan, one_list_of_planned_extents, scan_as_reset, scan_by, scan_by_one, scan_chosen,
    scan_listed,
};
