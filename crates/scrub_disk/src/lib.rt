//! The disk of a storage node: its sizes, its image as a source of pages, an image in memory, and how one is
//! loaded from raw bytes. For what the bytes mean see `scrub_super` (extent 0) and `scrub_scan` (the other
//! extents).
#![tactic(auto)]

mod blocks;
pub mod buffered_extent;
pub mod extent_loading;
pub mod filling;
pub mod geometry;
pub mod loading;
pub mod marking;
pub mod memory;
pub mod one_extent;
pub mod parted_loading;
pub mod parts;
pub mod raw;
pub mod reading;
pub mod source;
pub mod zeros;

pub use buffered_extent::{BufferedExtent, read_extent, unreadable_pages};
pub use extent_loading::load_extent;
pub use filling::fill;
pub use geometry::{Geometry, GeometryFault};
pub use loading::{LoadFault, load};
pub use marking::{MarkPages, mark_lost};
pub use memory::MemDisk;
pub use one_extent::OneExtent;
pub use parted_loading::load_in_parts;
pub use parts::PartedDisk;
pub use raw::{RawFault, RawImage};
pub use source::{PageSource, Unreadable};
pub use std::alloc::AllocError as OutOfMemory;
pub use zeros::is_zero;
