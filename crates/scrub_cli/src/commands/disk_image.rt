//! Loading the disk in an image file, with the unreadable pages that the arguments name. The commands check
//! the sizes; for the map of a rescue see `rescue`.

ghost use Rattle.std.specs.Prelude.{ℕ, ◌≡◌, ◌<◌, ◌≤◌, ◌^◌, All, IfOk, IfSome, List, MatchOption, MatchResult};
ghost use Rattle.std.specs.Prelude.{None, Option};
ghost use Rattle.scrub_disk.specs.Parted.{image_of};
ghost use Rattle.scrub_map.specs.declared.block.MapBlock.{MapBlock};
ghost use Rattle.scrub_cli.specs.KnownFiles.{IsKnownAs, KnownRaw};
ghost use Rattle.scrub_cli.specs.Rescue.{IsMapNamed, KeepsMap};
ghost use Rattle.scrub_cli.specs.DiskGeometry.{AreSizesFoundBy};
ghost use Rattle.scrub_cli.specs.DiskImage.{NamesPage, NamePages, IsBadPageFault, IsLoadedDisk, IsDiskFault};
ghost use Rattle.scrub_cli.specs.DiskImage.{AreLossesKept, IsLoadedBy, IsLossesFault, IsRawFault};

use crate::commands::opened::{Opened, open_unless_opened};
use crate::commands::rescue::apply_map;
use crate::process::fault::Fault;
use crate::process::images::Images;
use scrub_args::{ImageArgs, bad_page};
use scrub_disk::{Geometry, PartedDisk, load_in_parts};
use scrub_map::RescueMap;
use std::alloc::Global;
use std::thread::{Threads, available_parallelism};

/// A disk with fewer bytes than this is loaded by one thread.
const WORTH_THREADS: u64 = 1 << 22;

/// The most readers of an image.
const MOST_READERS: usize = 64;

/// How many readers load a disk of these sizes: one for each processor, at most 64, or a single one for few
/// bytes.
fn reader_count<R: Threads>(rt: &R, geometry: Geometry) -> usize
    ensures some { 0 < result }
    ensures few { result ≤ 64 }
{
    if geometry.extent_bytes() as u64 * (geometry.extents() as u64) < WORTH_THREADS {
        return 1;
    }
    match available_parallelism(rt) {
        Ok(processors) => processors.get().min(MOST_READERS).max(1),
        Err(_) => 1,
    }
}

/// The page of the disk that the argument names, if it names one.
fn named_page(geometry: Geometry, arg: &str) -> Option<(u32, u32)>
    ensures { MatchOption result ((at : ℕ × ℕ) → ¬ NamesPage geometry arg.now at)
        (NamesPage geometry arg.now) }
{
    let (extent, page) = bad_page(arg)?;
    if extent < geometry.extents && page < geometry.pages {
        Some((extent, page))
    } else {
        None
    }
}

/// The pages that the arguments name. The fault is the first argument that names no page of the disk.
fn bad_pages<'a>(
    alloc: Global,
    geometry: Geometry,
    args: &[&'a str],
) -> Result<Vec<(u32, u32)>, Fault<'a>>
    ensures { MatchResult result (λ pages. NamePages geometry args.now pages.items)
        (IsBadPageFault geometry args.now) }
{
    let mut pages = Vec::new(alloc);
    for arg in args {
        let Some(page) = named_page(geometry, arg) else {
            return Err(Fault::BadPage(arg));
        };
        pages.push(page)?;
    }
    Ok(pages)
}

/// What is lost of an image: the pages that arguments name as unreadable, and what the map of the rescue
/// lacks, if one is named.
#[derive(Drop)]
pub struct Losses {
    /// The extents and numbers of the pages.
    pub pages: Vec<(u32, u32)>,
    /// The map.
    pub map: Option<RescueMap>,
}

/// What is lost of the image that the arguments name, and the image. What was opened before isn't opened
/// again. Faults, in this order: the first argument for an unreadable page that names none, a map that can't
/// be opened, its first line that breaks the rules, and an image that can't be opened.
pub fn losses_of<'a, I: Images>(
    alloc: Global,
    geometry: Geometry,
    args: &ImageArgs<'a>,
    opened: Option<Opened<I::Image>>,
    images: &mut I,
) -> Result<(Losses, I::Image), Fault<'a>>
    requires map { IfSome opened (λ o. IsMapNamed (I.known_map images.old) args.now.map o.map) }
    requires raw { IfSome opened (λ o.
        IsKnownAs I.Image.bytes I.Image.fails I.Image.most_failures I.Image.reads
        (I.known images.old args.now.name.now) o.raw) }
    requires found { MatchOption opened (¬ (args.now.sizes ≡ None))
        (λ o. AreSizesFoundBy (I.known images.old args.now.name.now) o.map geometry) }
    ensures losses { MatchResult result
        (λ r. AreLossesKept (I.known_map images.old) args.now geometry r.0)
        (IsLossesFault (I.known images.old args.now.name.now) (I.known_map images.old) args.now geometry) }
    ensures raw { IfOk result (λ r.
        IsKnownAs I.Image.bytes I.Image.fails I.Image.most_failures I.Image.reads
        (I.known images.old args.now.name.now) r.1) }
    ensures found { IfOk result (λ r. args.now.sizes ≡ None →
        AreSizesFoundBy (I.known images.old args.now.name.now) r.0.map geometry) }
    ensures same_images { I.known images.new ≡ I.known images.old }
    ensures same_maps { I.known_map images.new ≡ I.known_map images.old }
{
    let pages = bad_pages(alloc, geometry, &args.bad_pages)?;
    let opened = open_unless_opened(alloc, args, opened, images)?;
    let map = opened.map;
    Ok((Losses { pages, map }, opened.raw))
}

/// The disk of these sizes that the arguments name. What was opened before isn't opened again. Faults, in
/// this order: the first argument for an unreadable page that names none, a map that can't be opened, the
/// map's first line that breaks the rules, an image that can't be opened, and an image that is too long. Each
/// reader of the image has a thread of its own.
pub fn load_disk<'a, R: Threads + Sync, I: Images>(
    rt: &R,
    alloc: Global,
    geometry: Geometry,
    args: &ImageArgs<'a>,
    opened: Option<Opened<I::Image>>,
    images: &mut I,
) -> Result<PartedDisk, Fault<'a>>
    requires map { IfSome opened (λ o. IsMapNamed (I.known_map images.old) args.now.map o.map) }
    requires raw { IfSome opened (λ o.
        IsKnownAs I.Image.bytes I.Image.fails I.Image.most_failures I.Image.reads
        (I.known images.old args.now.name.now) o.raw) }
    requires found { MatchOption opened (¬ (args.now.sizes ≡ None))
        (λ o. AreSizesFoundBy (I.known images.old args.now.name.now) o.map geometry) }
    ensures { MatchResult result
        (λ disk. IsLoadedDisk (I.known images.old args.now.name.now) (I.known_map images.old) args.now
        geometry (image_of disk))
        (IsDiskFault (I.known images.old args.now.name.now) (I.known_map images.old) args.now geometry) }
{
    let (losses, raw) = losses_of(alloc, geometry, args, opened, images)?;
    load_raw(rt, alloc, geometry, raw, &losses, images)
}

/// The disk of these sizes in a raw image, without what is lost. The fault is an image that is too long, or
/// that memory ran out. Each reader of the image has a thread of its own.
pub fn load_raw<'a, R: Threads + Sync, I: Images>(
    rt: &R,
    alloc: Global,
    geometry: Geometry,
    raw: I::Image,
    losses: &Losses,
    images: &mut I,
) -> Result<PartedDisk, Fault<'a>>
    requires pages { All (λ at. (at.0 < geometry.extents) × (at.1 < geometry.pages)) losses.now.pages.items }
    requires few_reads { I.Image.reads raw < 2 ^ 62 }
    ensures disk { (known : KnownRaw) →
        IsKnownAs I.Image.bytes I.Image.fails I.Image.most_failures I.Image.reads known raw →
        MatchResult result
        (λ disk. (blocks : Option (List MapBlock)) → KeepsMap losses.now.map blocks →
        IsLoadedBy known geometry losses.now.pages.items blocks (image_of disk))
        (IsRawFault known geometry) }
    ensures same_images { I.known images.new ≡ I.known images.old }
    ensures same_maps { I.known_map images.new ≡ I.known_map images.old }
{
    let readers = images.beside(alloc, raw, reader_count(rt, geometry))?;
    let disk = load_in_parts(rt, alloc, readers, geometry, &losses.pages)?;
    Ok(apply_map(alloc, disk, &losses.map)?)
}
