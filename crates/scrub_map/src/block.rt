//! A block of a map: a range of bytes, and whether they were rescued.

/// A range of bytes that a line of a map describes.
#[derive(Debug, Clone, Copy, PartialEq, Eq)]
pub struct MapBlock {
    /// The position of its first byte, in bytes from the start of the disk.
    pub position: u64,
    /// Its size in bytes, which may be 0.
    pub size: u64,
    /// Whether its status is `+`, which means that all its bytes were read.
    pub is_rescued: bool,
}
