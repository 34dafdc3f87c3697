//! What the tests share: what is reported of a disk, and comparisons.

pub mod compare;
pub mod reported;
