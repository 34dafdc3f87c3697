//! The command `compare`: whether what was written to a disk between two images lost anything, and extents
//! may be reset.

ghost use Rattle.std.specs.Prelude.{◌≡◌, ◌≤◌, [], IfOk, MatchResult};
ghost use Rattle.std.specs.List.Sorted.{IsStrictlyIncreasing};
ghost use Rattle.scrub_disk.specs.Parted.{image_of};
ghost use Rattle.scrub_found.specs.Takings.{AreTakingsBy};
ghost use Rattle.scrub_cli.specs.Compare.{AreCompareTakings, IsCompareFault, IsCompared, IsEarlierImage};
ghost use Rattle.scrub_cli.specs.Manifest.{IsManifestFault};
ghost use Rattle.scrub_cli.specs.Rescue.{KeepsMap};

use crate::commands::answer::Answer;
use crate::commands::disk_image::{Losses, load_raw, losses_of};
use crate::commands::geometry::geometry_of;
use crate::commands::manifest::may_all_be_reset;
use crate::process::fault::Fault;
use crate::process::images::Images;
use scrub_args::{CompareArgs, ManifestArgs};
use scrub_compare::compare as compare_disks;
use scrub_disk::{Geometry, PartedDisk};
use scrub_found::ScrubFault;
use scrub_pool::{NoGate, Takings};
use std::alloc::Global;
use std::sync::Wait;
use std::thread::Threads;

/// The comparison of two images of a disk, with its status, and the extents that each worker took of each.
/// The workers and the takings are as for `disk_answer`.
fn comparison<R: Threads + Wait + Sync>(
    rt: &R,
    alloc: Global,
    before: &PartedDisk,
    after: &PartedDisk,
    workers: u32,
    resets: &[u32],
) -> Result<(Answer, Takings, Takings), ScrubFault>
    requires workers { workers ≤ 64 }
    requires sizes { (image_of after.now).geometry ≡ (image_of before.now).geometry }
    requires rising { IsStrictlyIncreasing resets.now }
    ensures answer { IfOk result (λ r. IsCompared resets.now (image_of before.now) (image_of after.now)
        r.0.text.items r.0.outcome) }
    ensures takings { IfOk result (λ r. AreTakingsBy (image_of before.now) workers r.1) }
    ensures takings_after { IfOk result (λ r. AreTakingsBy (image_of after.now) workers r.2) }
{
    let (listing, taken, taken_after) = compare_disks(
        rt, alloc, before, after, workers, &NoGate, resets,
    )?;
    Ok((
        Answer::new(listing.text, listing.is_clean),
        taken,
        taken_after,
    ))
}

/// The earlier image, with the sizes of the disk and what is lost of it. Faults are those of `manifest`.
fn load_earlier<'a, R: Threads + Wait + Sync, I: Images>(
    rt: &R,
    alloc: Global,
    args: &ManifestArgs<'a>,
    images: &mut I,
) -> Result<(Geometry, Losses, PartedDisk), Fault<'a>>
    requires no_runs { args.now.runs.items ≡ [] }
    ensures disk { MatchResult result
        (λ r. (e : IsEarlierImage (I.known images.old args.now.scan.image.name.now) (I.known_map images.old)
        args.now r.0 (image_of r.2)) × (r.1.pages.items ≡ e.pages) × KeepsMap r.1.map e.blocks)
        (IsManifestFault (I.known images.old args.now.scan.image.name.now) (I.known_map images.old)
        args.now) }
    ensures same_images { I.known images.new ≡ I.known images.old }
{
    let image = &args.scan.image;
    let (geometry, opened) = geometry_of(alloc, image, images)?;
    if !may_all_be_reset(geometry, &args.resets) {
        return Err(Fault::Extent);
    }
    let (losses, raw) = losses_of(alloc, geometry, image, opened, images)?;
    let before = load_raw(rt, alloc, geometry, raw, &losses, images)?;
    Ok((geometry, losses, before))
}

/// The comparison of both images of the disk that the arguments name, and the extents that each worker took
/// of each. Faults are checked in the order of `Fault`, those of the earlier image before those of the later
/// one.
pub fn compare<'a, R: Threads + Wait + Sync, I: Images>(
    rt: &R,
    alloc: Global,
    args: &CompareArgs<'a>,
    images: &mut I,
) -> Result<(Answer, Takings, Takings), Fault<'a>>
    requires workers { args.now.before.scan.workers ≤ 64 }
    requires rising { IsStrictlyIncreasing args.now.before.resets.items }
    requires no_runs { args.now.before.runs.items ≡ [] }
    ensures { MatchResult result
        (λ r. AreCompareTakings (I.known images.old) (I.known_map images.old) args.now
        r.0.text.items r.0.outcome r.1 r.2)
        (IsCompareFault (I.known images.old) (I.known_map images.old) args.now) }
{
    let (geometry, losses, before) = load_earlier(rt, alloc, &args.before, images)?;
    let Some(raw_after) = images.image(args.after) else {
        return Err(Fault::NoImage(args.after));
    };
    let after = load_raw(rt, alloc, geometry, raw_after, &losses, images)?;
    let workers = args.before.scan.workers;
    Ok(comparison(rt, alloc, &before, &after, workers, &args.before.resets)?)
}
