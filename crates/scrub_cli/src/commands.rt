//! The commands, with the answer of each, and what they share: `opened` opens the map and the image that the
//! arguments name, `geometry` finds the sizes, `disk_image` loads the disk, `disk_extent` one extent of it,
//! `given_runs` finds the index runs that they give, `rescue` reads the map of a rescue, `remarks` has the
//! lines beside an answer, and `answer` makes the answers.

pub(crate) mod answer;
pub(crate) mod compare;
pub(crate) mod demo;
pub(crate) mod disk_extent;
pub(crate) mod disk_image;
pub(crate) mod geometry;
pub(crate) mod given_runs;
pub(crate) mod items;
pub(crate) mod manifest;
pub(crate) mod opened;
pub(crate) mod remarks;
pub(crate) mod rescue;
pub(crate) mod scan;
pub(crate) mod shard;
pub(crate) mod shards;
pub(crate) mod sizes;
