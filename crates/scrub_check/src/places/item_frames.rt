//! Items as the frames that they are.

ghost use Rattle.std.specs.Prelude.{◌≡◌};
ghost use Rattle.scrub_check.specs.Spares.{frame_of_item};

use scrub_scan::{Item, Standing};

/// An item of an extent as the frame at its start, or `None` if it isn't a chunk.
pub(crate) fn frame_of_item(extent: u32, item: &Item) -> Option<Standing>
    ensures { result ≡ frame_of_item extent item.now }
{
    match item {
        Item::Chunk {
            form,
            start,
            uuid,
            length,
            digest,
            ..
        } => Some(Standing {
            extent,
            offset: *start,
            form: *form,
            uuid: *uuid,
            length: *length,
            digest: *digest,
        }),
        _ => None,
    }
}
