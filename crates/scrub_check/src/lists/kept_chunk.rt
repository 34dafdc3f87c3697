//! A chunk that is kept when its extent is reclaimed.

/// Where a chunk to keep lies in its extent.
#[derive(Debug, Clone, Copy, PartialEq, Eq)]
pub struct KeptChunk {
    /// The byte of the extent that its frame begins at.
    pub start: u32,
    /// How many bytes its frame takes.
    pub bytes: u32,
}
