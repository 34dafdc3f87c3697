//! Tests of single crates by their public calls: vectors, worked examples and texts that need no whole disk.
//! For tests that cross more crates see `scrub_tests`. No crate depends on this one.
#![tactic(auto)]

#[cfg(test)]
mod books;
#[cfg(test)]
mod compare;
#[cfg(test)]
mod fakes;
#[cfg(test)]
mod faults;
#[cfg(test)]
mod frames;
#[cfg(test)]
mod lanes;
#[cfg(test)]
mod loading;
#[cfg(test)]
mod locators;
#[cfg(test)]
mod matching;
#[cfg(test)]
mod memory_disk;
#[cfg(test)]
mod one_worker;
#[cfg(test)]
mod records;
#[cfg(test)]
mod run_payloads;
#[cfg(test)]
mod superblock;
#[cfg(test)]
mod whole_extents;
