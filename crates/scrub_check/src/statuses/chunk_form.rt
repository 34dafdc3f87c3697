//! The form of the chunk at a place.

ghost use Rattle.std.specs.Prelude.{◌≡◌, ◌==◌, map};
ghost use Rattle.std.specs.List.{find};
ghost use Rattle.std.specs.List.Sorted.{IsStrictlyIncreasing};
ghost use Rattle.std.specs.Option.{option_and_then};
ghost use Rattle.scrub_scan.specs.Item.{start_of};
ghost use Rattle.scrub_check.specs.ChunkForms.{form_at, form_of};

use crate::statuses::searching::find_start;
use scrub_disk::PageSource;
use scrub_frame::{Form, Locator};
use scrub_scan::{AllFindings, Item};

/// The form of an item, if it is a chunk.
fn form_of(item: &Item) -> Option<Form>
    ensures { result ≡ form_of item.now }
{
    match item {
        Item::Chunk { form, .. } => Some(*form),
        _ => None,
    }
}

/// The form of the item that begins at a byte, among items whose starts ascend; `None` if none begins there,
/// or it isn't a chunk.
fn form_from(items: &[Item], start: u32) -> Option<Form>
    requires { IsStrictlyIncreasing (map start_of items.now) }
    ensures { result ≡ option_and_then form_of (find (λ item. start_of item == start) items.now) }
{
    match find_start(items, start).at {
        Some(i) => form_of(&items[i]),
        None => None,
    }
}

/// The form of the chunk at a locator's place; `None` if no chunk that was found begins there.
pub fn form_at<D: PageSource>(all: &AllFindings<'_, D>, locator: &Locator) -> Option<Form>
    ensures { result ≡ form_at all.now.extents locator.now }
{
    match all.of_extent(locator.extent) {
        Some(findings) => form_from(findings.items(), locator.offset),
        None => None,
    }
}
