//! Places of chunks: an extent and a byte of it, and what begins there; sorted lists of them.

pub mod chunk_at;
pub(crate) mod item_frames;
pub(crate) mod sorted_list;
