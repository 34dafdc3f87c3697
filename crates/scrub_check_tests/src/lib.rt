//! Tests of the checks by calls that the program does not make: merges of index runs by one thread, the
//! search for an item, the live bytes of single extents, and how often pages of hidden frames are asked for.
//! What the program prints of locators, runs and lists is tested in `tests/`. No crate depends on this one.
#![tactic(auto)]

#[cfg(test)]
mod bindings;
#[cfg(test)]
mod compare;
#[cfg(test)]
mod hidden_places;
#[cfg(test)]
mod live_bytes;
#[cfg(test)]
mod starts;
