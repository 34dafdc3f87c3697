//! The commands on a whole disk in an image file: `scan`, `index`, `locators`, `summary` and
//! `reclaimable`, which scan it, `runs`, which looks for index runs, and `superblocks`, which reads its
//! extent 0. For `shards` see `shards`, and for `manifest` see `manifest`.

ghost use Rattle.std.specs.Prelude.{◌≡◌, ◌≤◌, MatchResult, true};
ghost use Rattle.scrub_disk.specs.Parted.{image_of};
ghost use Rattle.scrub_disk.specs.OneExtent.{image_of as image_of_extent};
ghost use Rattle.scrub_args.specs.declared.args.ScanOutput.TheVariants.{Runs};
ghost use Rattle.scrub_cli.specs.Scan.{AreTakingsOf, IsDiskIn, IsDiskOf, IsScanAnswer, IsScanFault};
ghost use Rattle.scrub_cli.specs.Scan.{is_scanned};
ghost use Rattle.scrub_cli.specs.Superblock.{IsSuperblocksAnswer};

use crate::commands::answer::{Answer, disk_answer, superblock_listing};
use crate::commands::disk_extent::load_disk_extent;
use crate::commands::disk_image::load_disk;
use crate::commands::geometry::geometry_of;
use crate::process::fault::Fault;
use crate::process::images::Images;
use scrub_args::{ImageArgs, ScanArgs, ScanOutput};
use scrub_disk::{OneExtent, PartedDisk};
use scrub_listings::list_runs;
use scrub_pool::Takings;
use std::alloc::Global;
use std::sync::Wait;
use std::thread::Threads;

/// The disk that the arguments name, with the sizes that they give, or else those that its records have.
/// Faults are checked in the order of `Fault`.
fn disk_of<'a, R: Threads + Sync, I: Images>(
    rt: &R,
    alloc: Global,
    args: &ImageArgs<'a>,
    images: &mut I,
) -> Result<PartedDisk, Fault<'a>>
    ensures { MatchResult result
        (λ disk. IsDiskOf (I.known images.old args.now.name.now) (I.known_map images.old) args.now
        (image_of disk))
        (IsScanFault (I.known images.old args.now.name.now) (I.known_map images.old) args.now) }
{
    let (geometry, opened) = geometry_of(alloc, args, images)?;
    load_disk(rt, alloc, geometry, args, opened, images)
}

/// What is wanted of the disk that the arguments name, if that takes a scan, and the extents that each
/// worker took. Faults are checked in the order of `Fault`.
fn scan<'a, R: Threads + Wait + Sync, I: Images>(
    rt: &R,
    alloc: Global,
    args: &ScanArgs<'a>,
    images: &mut I,
    wanted: &ScanOutput<'_>,
) -> Result<(Answer, Takings), Fault<'a>>
    requires workers { args.now.workers ≤ 64 }
    requires scanned { is_scanned wanted.now ≡ true }
    ensures { MatchResult result
        (λ r. AreTakingsOf wanted.now (I.known images.old args.now.image.name.now) (I.known_map images.old)
        args.now r.0.text.items r.0.outcome r.1)
        (IsScanFault (I.known images.old args.now.image.name.now) (I.known_map images.old) args.now.image) }
{
    let disk = disk_of(rt, alloc, &args.image, images)?;
    Ok(disk_answer(rt, alloc, &disk, args.workers, wanted)?)
}

/// The index runs of the disk that the arguments name. Faults are checked in the order of `Fault`.
fn runs<'a, R: Threads + Sync, I: Images>(
    rt: &R,
    alloc: Global,
    args: &ScanArgs<'a>,
    images: &mut I,
) -> Result<Answer, Fault<'a>>
    ensures { MatchResult result
        (λ a. IsScanAnswer Runs (I.known images.old args.now.image.name.now) (I.known_map images.old)
        args.now.image a.text.items a.outcome)
        (IsScanFault (I.known images.old args.now.image.name.now) (I.known_map images.old) args.now.image) }
{
    let disk = disk_of(rt, alloc, &args.image, images)?;
    let listing = list_runs(rt, alloc, &disk, args.workers)?;
    Ok(Answer::new(listing.text, listing.is_clean))
}

/// Whether workers scan the disk for what is wanted.
fn is_scanned(wanted: &ScanOutput<'_>) -> bool
    ensures { result ≡ is_scanned wanted.now }
{
    match wanted {
        ScanOutput::Runs => false,
        ScanOutput::Report
        | ScanOutput::Index
        | ScanOutput::Locators
        | ScanOutput::Summary(_)
        | ScanOutput::Reclaimable(_, _) => true,
    }
}

/// What is wanted of the disk that the arguments name. Faults are checked in the order of `Fault`.
pub fn on_disk<'a, R: Threads + Wait + Sync, I: Images>(
    rt: &R,
    alloc: Global,
    args: &ScanArgs<'a>,
    images: &mut I,
    wanted: &ScanOutput<'_>,
) -> Result<Answer, Fault<'a>>
    requires { args.now.workers ≤ 64 }
    ensures { MatchResult result
        (λ a. IsScanAnswer wanted.now (I.known images.old args.now.image.name.now) (I.known_map images.old)
        args.now.image a.text.items a.outcome)
        (IsScanFault (I.known images.old args.now.image.name.now) (I.known_map images.old) args.now.image) }
{
    if !is_scanned(wanted) {
        return runs(rt, alloc, args, images);
    }
    Ok(scan(rt, alloc, args, images, wanted)?.0)
}

/// Extent 0 of the disk that the arguments name, with the sizes that they give, or else those that its
/// records have. Faults are checked in the order of `Fault`.
fn extent_zero_of<'a, I: Images>(
    alloc: Global,
    args: &ImageArgs<'a>,
    images: &mut I,
) -> Result<OneExtent, Fault<'a>>
    ensures { MatchResult result
        (λ disk. IsDiskIn (λ e. e ≡ 0) (I.known images.old args.now.name.now) (I.known_map images.old)
        args.now (image_of_extent disk))
        (IsScanFault (I.known images.old args.now.name.now) (I.known_map images.old) args.now) }
{
    let (geometry, opened) = geometry_of(alloc, args, images)?;
    load_disk_extent(alloc, geometry, args, opened, images, 0)
}

/// The lines of the superblocks of the disk that the arguments name. Only extent 0 is loaded. Faults are
/// checked in the order of `Fault`.
pub fn superblocks<'a, I: Images>(
    alloc: Global,
    args: &ImageArgs<'a>,
    images: &mut I,
) -> Result<Answer, Fault<'a>>
    ensures { MatchResult result
        (λ a. IsSuperblocksAnswer (I.known images.old args.now.name.now) (I.known_map images.old) args.now
        a.text.items a.outcome)
        (IsScanFault (I.known images.old args.now.name.now) (I.known_map images.old) args.now) }
{
    let disk = extent_zero_of(alloc, args, images)?;
    Ok(superblock_listing(alloc, &disk)?)
}
