//! Tests of whole scrubs and of workers: `scrubs`, `workers`. What they share is in `support`. For tests of
//! what is in an extent see `scrub_scan_tests`, and for those of locators and lists `scrub_check_tests`. No
//! crate depends on this one.
#![tactic(auto)]

#[cfg(test)]
mod scrubs;
#[cfg(test)]
mod support;
#[cfg(test)]
mod workers;
