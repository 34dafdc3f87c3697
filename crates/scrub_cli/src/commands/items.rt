//! The command `items`: the items of one extent of a raw image.

ghost use Rattle.std.specs.Prelude.{MatchResult};
ghost use Rattle.scrub_cli.specs.Items.{IsItemsAnswer, IsItemsFault};

use crate::commands::answer::{Answer, listing};
use crate::commands::disk_extent::load_disk_extent;
use crate::commands::geometry::geometry_of;
use crate::process::fault::Fault;
use crate::process::images::Images;
use scrub_args::ItemsArgs;
use scrub_scan::tile;
use std::alloc::Global;

/// The items of the extent that the arguments name. Faults are checked in the order of `Fault`.
pub fn items<'a, I: Images>(
    alloc: Global,
    args: &ItemsArgs<'a>,
    images: &mut I,
) -> Result<Answer, Fault<'a>>
    ensures { MatchResult result
        (λ a. IsItemsAnswer (I.known images.old args.now.image.name.now) (I.known_map images.old) args.now
        a.text.items a.outcome)
        (IsItemsFault (I.known images.old args.now.image.name.now) (I.known_map images.old) args.now) }
{
    let image = &args.image;
    let (geometry, opened) = geometry_of(alloc, image, images)?;
    if args.extent >= geometry.extents {
        return Err(Fault::Extent);
    }
    let pointer = args.pointer.unwrap_or(geometry.extent_bytes());
    if pointer > geometry.extent_bytes() {
        return Err(Fault::Pointer);
    }
    let disk = load_disk_extent(alloc, geometry, image, opened, images, args.extent)?;
    let tiling = tile(alloc, &disk, args.extent, pointer)?;
    Ok(listing(alloc, tiling.as_slice())?)
}
