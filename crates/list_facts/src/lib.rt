//! Lemmas on lists, orders, filters, counts, searches and numbers, for the proofs of all crates. This crate
//! has no code, and knows nothing of disks.
#![tactic(auto)]
