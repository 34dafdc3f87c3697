//! Tests of whole scrubs that the program can't show: how often pages are asked for, reads of one byte, and
//! calls that only tests make.

pub mod loaded;
pub mod page_counts;
pub mod retired;
pub mod shards;
pub mod sizes;
pub mod writing;
