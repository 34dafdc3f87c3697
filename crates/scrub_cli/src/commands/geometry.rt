//! The sizes of a disk: those that the arguments give, or else those that its superblock records have.

ghost use Rattle.std.specs.Prelude.{◌≡◌, IfOk, IfSome, MatchOption, MatchResult, None};
ghost use Rattle.scrub_listings.specs.declared.sizes_listing.SizesFound.TheVariants.{Certain};
ghost use Rattle.scrub_cli.specs.DiskGeometry.{AreSizesFound, IsFoundFault, IsGeometryFault};
ghost use Rattle.scrub_cli.specs.DiskGeometry.{AreSizesFoundBy, IsGeometryOf};
ghost use Rattle.scrub_cli.specs.KnownFiles.{IsKnownAs};
ghost use Rattle.scrub_cli.specs.Rescue.{IsMapNamed};

use crate::commands::opened::{Opened, open};
use crate::commands::rescue::front_of;
use crate::process::fault::Fault;
use crate::process::images::Images;
use scrub_args::ImageArgs;
use scrub_disk::Geometry;
use scrub_listings::{SizesFound, find_sizes};
use std::alloc::Global;

/// The sizes that all superblock records in the front of the image of this name have, without the blocks that
/// the map lacks, and what was opened to find them. Faults, in this order: a map that can't be opened, its
/// first line that breaks the rules, an image that can't be opened, and sizes that aren't found or aren't
/// certain.
fn found_geometry<'a, I: Images>(
    alloc: Global,
    map: Option<&'a str>,
    name: &'a str,
    images: &mut I,
) -> Result<(Geometry, Opened<I::Image>), Fault<'a>>
    ensures geometry { MatchResult result
        (λ r. AreSizesFound (I.known images.old name.entry.now) (I.known_map images.old) map.entry
        (Certain r.0))
        (IsFoundFault (I.known images.old name.entry.now) (I.known_map images.old) map.entry name.entry) }
    ensures map { IfOk result (λ r. IsMapNamed (I.known_map images.new) map.entry r.1.map) }
    ensures raw { IfOk result (λ r.
        IsKnownAs I.Image.bytes I.Image.fails I.Image.most_failures I.Image.reads
        (I.known images.new name.entry.now) r.1.raw) }
    ensures found { IfOk result (λ r. AreSizesFoundBy (I.known images.new name.entry.now) r.1.map r.0) }
    ensures same_images { I.known images.new ≡ I.known images.old }
    ensures same_maps { I.known_map images.new ≡ I.known_map images.old }
{
    let mut opened = open(alloc, map, name, images)?;
    let front = front_of(alloc, &mut opened.raw, &opened.map)?;
    let found = find_sizes(alloc, &front)?;
    match found {
        SizesFound::Certain(geometry) => Ok((geometry, opened)),
        SizesFound::Uncertain => Err(Fault::UncertainSizes),
        SizesFound::NotFound => Err(Fault::NoSizes),
    }
}

/// The sizes of the disk that the arguments name, and what was opened to find them, if they are left out.
/// Faults are checked in the order of `Fault`.
pub fn geometry_of<'a, I: Images>(
    alloc: Global,
    args: &ImageArgs<'a>,
    images: &mut I,
) -> Result<(Geometry, Option<Opened<I::Image>>), Fault<'a>>
    ensures geometry { MatchResult result
        (λ r. IsGeometryOf (I.known images.old args.now.name.now) (I.known_map images.old) args.now r.0)
        (IsGeometryFault (I.known images.old args.now.name.now) (I.known_map images.old) args.now) }
    ensures map { IfOk result (λ r. IfSome r.1
        (λ o. IsMapNamed (I.known_map images.new) args.now.map o.map)) }
    ensures raw { IfOk result (λ r. IfSome r.1 (λ o.
        IsKnownAs I.Image.bytes I.Image.fails I.Image.most_failures I.Image.reads
        (I.known images.new args.now.name.now) o.raw)) }
    ensures found { IfOk result (λ r. MatchOption r.1 (¬ (args.now.sizes ≡ None))
        (λ o. AreSizesFoundBy (I.known images.new args.now.name.now) o.map r.0)) }
    ensures same_images { I.known images.new ≡ I.known images.old }
    ensures same_maps { I.known_map images.new ≡ I.known_map images.old }
{
    match args.sizes {
        Some(sizes) => {
            let geometry = Geometry::new(sizes.page, sizes.pages, sizes.extents)?;
            Ok((geometry, None))
        }
        None => {
            let (geometry, opened) = found_geometry(alloc, args.map, args.name, images)?;
            Ok((geometry, Some(opened)))
        }
    }
}
