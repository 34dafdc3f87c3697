//! Tests of what is in an extent by calls that the program does not make: how often pages are asked for, and
//! places without a frame. Items, findings and frames are tested in `tests/`. No crate depends on this one.
#![tactic(auto)]

#[cfg(test)]
mod compare;
#[cfg(test)]
mod counted_disks;
#[cfg(test)]
mod extents;
#[cfg(test)]
mod page_reads;
#[cfg(test)]
mod standing_frames;
#[cfg(test)]
mod trusted_seals;
