//! Places of chunks, as in the lists of chunks.

use uuid::Uuid;

/// A chunk and its place.
#[derive(Debug, Clone, Copy, PartialEq, Eq)]
pub struct Place {
    /// The number of its extent.
    pub extent: u32,
    /// The byte of the extent that it begins at.
    pub offset: u32,
    /// The length of its payload, in bytes.
    pub length: u32,
    /// Its UUID.
    pub uuid: Uuid,
}

/// A place that several sound named locators point to.
#[derive(Debug, Clone, Copy, PartialEq, Eq)]
pub struct SharedPlace {
    /// The number of its extent.
    pub extent: u32,
    /// Its byte in the extent.
    pub offset: u32,
    /// How many locators point to it: two or more.
    pub count: usize,
}
