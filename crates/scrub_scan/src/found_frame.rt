//! A frame that was found at a place. It becomes an item of a tiling, or a frame that stands by itself.

ghost use Rattle.std.specs.Prelude.{◌≡◌};
ghost use Rattle.scrub_scan.specs.declared.item.Item.{Item};

use crate::item::Item;
use crate::standing::Standing;
use scrub_frame::{DIGEST_BYTES, Form};
use uuid::Uuid;

/// A frame that was found at a place.
#[derive(Clone, Copy)]
pub(crate) struct FoundFrame {
    pub form: Form,
    pub uuid: Uuid,
    /// The length of its payload, in bytes.
    pub length: u32,
    /// The SHA-256 of its payload.
    pub digest: [u8; DIGEST_BYTES],
}

impl FoundFrame {
    /// The chunk that it is, between these places.
    pub fn into_chunk(self, start: u32, stop: u32) -> Item
        ensures { result ≡ Item.Chunk self.form start stop self.uuid self.length self.digest }
    {
        let FoundFrame {
            form,
            uuid,
            length,
            digest,
        } = self;
        Item::Chunk {
            form,
            start,
            stop,
            uuid,
            length,
            digest,
        }
    }

    /// The same, at its place.
    pub fn into_standing(self, extent: u32, offset: u32) -> Standing
        ensures { result ≡ record {
          extent = extent;
          offset = offset;
          form = self.form;
          uuid = self.uuid;
          length = self.length;
          digest = self.digest;
        } }
    {
        let FoundFrame {
            form,
            uuid,
            length,
            digest,
        } = self;
        Standing {
            extent,
            offset,
            form,
            uuid,
            length,
            digest,
        }
    }
}
