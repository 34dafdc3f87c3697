//! Loading one extent of the disk in an image file, for a command that looks at no other, and why its answer
//! is that of the whole image. For loading the whole disk see `disk_image`.

ghost use Rattle.std.specs.Prelude.{◌≡◌, ◌<◌, ◌^◌, All, Err, IfOk, IfSome, List, MatchOption, MatchResult};
ghost use Rattle.std.specs.Prelude.{None, Option, length, ℕ};
ghost use Rattle.scrub_disk.specs.Image.{disk_bytes};
ghost use Rattle.scrub_disk.specs.OneExtent.{image_of};
ghost use Rattle.scrub_disk.specs.Raw.{IsLoadedIn, every_extent};
ghost use Rattle.scrub_map.specs.declared.block.MapBlock.{MapBlock};
ghost use Rattle.scrub_args.specs.declared.args.ImageArgs.{ImageArgs};
ghost use Rattle.scrub_args.specs.declared.args.ItemsArgs.{ItemsArgs};
ghost use Rattle.scrub_cli.specs.DiskGeometry.{AreSizesFoundBy};
ghost use Rattle.scrub_cli.specs.DiskImage.{IsDiskFault, IsLoadedDiskIn, IsLoadedInBy, IsRawFault};
ghost use Rattle.scrub_cli.specs.Items.{IsItemsAnswer, IsItemsAnswerIn};
ghost use Rattle.scrub_cli.specs.KnownFiles.{IsKnownAs, KnownMaps, KnownRaw};
ghost use Rattle.scrub_cli.specs.Rescue.{IsMapNamed, KeepsMap};
ghost use Rattle.scrub_cli.specs.Superblock.{IsSuperblocksAnswer, IsSuperblocksAnswerIn};
ghost use Rattle.scrub_cli.specs.declared.process.outcome.Outcome.{Outcome};

use crate::commands::disk_image::{Losses, losses_of};
use crate::commands::opened::Opened;
use crate::commands::rescue::apply_map;
use crate::process::fault::Fault;
use crate::process::images::Images;
use scrub_args::ImageArgs;
use scrub_disk::{Geometry, LoadFault, OneExtent, RawImage, load_extent};
use std::alloc::Global;

/// One extent of the disk of these sizes that the arguments name. What was opened before isn't opened again.
/// The faults are those of `load_disk`, in the same order.
pub fn load_disk_extent<'a, I: Images>(
    alloc: Global,
    geometry: Geometry,
    args: &ImageArgs<'a>,
    opened: Option<Opened<I::Image>>,
    images: &mut I,
    extent: u32,
) -> Result<OneExtent, Fault<'a>>
    requires in_extents { extent < geometry.extents }
    requires map { IfSome opened (λ o. IsMapNamed (I.known_map images.old) args.now.map o.map) }
    requires raw { IfSome opened (λ o.
        IsKnownAs I.Image.bytes I.Image.fails I.Image.most_failures I.Image.reads
        (I.known images.old args.now.name.now) o.raw) }
    requires found { MatchOption opened (¬ (args.now.sizes ≡ None))
        (λ o. AreSizesFoundBy (I.known images.old args.now.name.now) o.map geometry) }
    ensures { MatchResult result
        (λ disk. IsLoadedDiskIn (λ e. e ≡ extent) (I.known images.old args.now.name.now)
        (I.known_map images.old) args.now geometry (image_of disk))
        (IsDiskFault (I.known images.old args.now.name.now) (I.known_map images.old) args.now geometry) }
{
    let (losses, mut raw) = losses_of(alloc, geometry, args, opened, images)?;
    load_raw_extent(alloc, geometry, &mut raw, &losses, extent)
}

/// One extent of the disk of these sizes in a raw image, without what is lost. The fault is an image that is
/// too long, or that memory ran out.
fn load_raw_extent<'a, R: RawImage>(
    alloc: Global,
    geometry: Geometry,
    raw: &mut R,
    losses: &Losses,
    extent: u32,
) -> Result<OneExtent, Fault<'a>>
    requires few_reads { R.reads raw.old < 2 ^ 62 }
    requires pages { All (λ at. (at.0 < geometry.extents) × (at.1 < geometry.pages)) losses.now.pages.items }
    requires in_extents { extent < geometry.extents }
    ensures { (known : KnownRaw) → IsKnownAs R.bytes R.fails R.most_failures R.reads known raw.old →
        MatchResult result
        (λ disk. (blocks : Option (List MapBlock)) → KeepsMap losses.now.map blocks →
        IsLoadedInBy (λ e. e ≡ extent) known geometry losses.now.pages.items blocks (image_of disk))
        (IsRawFault known geometry) }
{
    let disk = extent_of_raw(alloc, raw, geometry, &losses.pages, extent)?;
    Ok(apply_map(alloc, disk, &losses.map)?)
}

/// One extent of a raw image, of whose reads no more fail than its bound allows.
fn extent_of_raw<R: RawImage>(
    alloc: Global,
    raw: &mut R,
    geometry: Geometry,
    pages: &[(u32, u32)],
    extent: u32,
) -> Result<OneExtent, LoadFault>
    requires few_reads { R.reads raw.old < 2 ^ 62 }
    requires in_range { All (λ at. (at.0 < geometry.extents) × (at.1 < geometry.pages)) pages.now }
    requires in_extents { extent < geometry.extents }
    ensures loaded { IfOk result (λ disk.
        IsLoadedIn (λ e. e ≡ extent) (R.bytes raw.old) (R.fails raw.old) (R.most_failures raw.old) geometry
        pages.now (image_of disk)) }
    ensures too_long { result ≡ Err LoadFault.TooLong →
        IfSome (R.bytes raw.old) (λ known. disk_bytes geometry < length known) }
{
    load_extent(alloc, raw, geometry, pages, extent)
}

/// A law: what `items` and `superblocks` print of the one extent that they load is the answer of an image
/// that is loaded whole.
pub fn one_extent_answers_for_the_whole_image()
    ensures items { (known : KnownRaw) (maps : KnownMaps) (args : ItemsArgs) (text : List ℕ)
        (outcome : Outcome) → IsItemsAnswer known maps args text outcome →
        IsItemsAnswerIn every_extent known maps args text outcome }
    ensures superblocks { (known : KnownRaw) (maps : KnownMaps) (args : ImageArgs) (text : List ℕ)
        (outcome : Outcome) → IsSuperblocksAnswer known maps args text outcome →
        IsSuperblocksAnswerIn every_extent known maps args text outcome }
{}
