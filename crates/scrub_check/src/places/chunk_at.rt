//! A place that a locator points to.

ghost use Rattle.std.specs.Prelude.{◌≡◌};
ghost use Rattle.scrub_check.specs.steps.Places.{place_named_by};

use scrub_frame::Locator;

/// A place that a locator points to: an extent, and the byte of it that a chunk begins at.
#[derive(Debug, Clone, Copy, PartialEq, Eq, PartialOrd, Ord)]
pub struct ChunkAt {
    pub extent: u32,
    pub offset: u32,
}

impl ChunkAt {
    /// The place of a locator.
    pub(crate) fn named_by(locator: &Locator) -> ChunkAt
        ensures { result ≡ place_named_by locator.now }
    {
        ChunkAt {
            extent: locator.extent,
            offset: locator.offset,
        }
    }
}
