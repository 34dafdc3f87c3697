//! The command `manifest`: what a disk in an image file holds, as if some of its extents had been reset,
//! or by index runs that are given.

ghost use Rattle.std.specs.Prelude.{◌≡◌, ◌≤◌, MatchResult};
ghost use Rattle.std.specs.List.Sorted.{IsStrictlyIncreasing};
ghost use Rattle.scrub_cli.specs.Manifest.{AreManifestTakings, IsManifestFault, may_all_be_reset};

use crate::commands::answer::{Answer, manifest_listing};
use crate::commands::geometry::geometry_of;
use crate::commands::given_runs::load_with_runs;
use crate::process::fault::Fault;
use crate::process::images::Images;
use scrub_args::ManifestArgs;
use scrub_disk::Geometry;
use scrub_pool::Takings;
use std::alloc::Global;
use std::sync::Wait;
use std::thread::Threads;

/// Whether a disk of these sizes has each of these extents, and extent 0, which has the superblocks, is
/// none of them.
pub fn may_all_be_reset(geometry: Geometry, extents: &[u32]) -> bool
    ensures { result ≡ may_all_be_reset geometry extents.now }
{
    extents
        .iter()
        .all(|extent| 0 < *extent && *extent < geometry.extents)
}

/// The manifest of the disk that the arguments name, by the index runs that they give, or as if the
/// extents that they give had been reset, and the extents that each worker took. Faults are checked in the
/// order of `Fault`.
pub fn manifest<'a, R: Threads + Wait + Sync, I: Images>(
    rt: &R,
    alloc: Global,
    args: &ManifestArgs<'a>,
    images: &mut I,
) -> Result<(Answer, Takings), Fault<'a>>
    requires workers { args.now.scan.workers ≤ 64 }
    requires rising { IsStrictlyIncreasing args.now.resets.items }
    ensures { MatchResult result
        (λ r. AreManifestTakings (I.known images.old args.now.scan.image.name.now) (I.known_map images.old)
        args.now r.0.text.items r.0.outcome r.1)
        (IsManifestFault (I.known images.old args.now.scan.image.name.now) (I.known_map images.old)
        args.now) }
{
    let image = &args.scan.image;
    let (geometry, opened) = geometry_of(alloc, image, images)?;
    if !may_all_be_reset(geometry, &args.resets) {
        return Err(Fault::Extent);
    }
    let (disk, given) = load_with_runs(rt, alloc, geometry, image, &args.runs, opened, images)?;
    let given = given.as_deref();
    Ok(manifest_listing(rt, alloc, &disk, args.scan.workers, given, &args.resets)?)
}
