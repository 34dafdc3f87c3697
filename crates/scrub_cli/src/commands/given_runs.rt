//! The index runs that arguments give, to go by in place of a superblock: the places that they name, and
//! the locators of the runs at these places. The runs that a disk has are listed by `scan`.

ghost use Rattle.std.specs.Prelude.{ℕ, ◌≡◌, ◌↔◌, ◌<◌, ◌≤◌, ◌^◌, All, IfOk, IfSome, IsTrue, MatchOption};
ghost use Rattle.std.specs.Prelude.{MatchResult, None, OnOk, option_map};
ghost use Rattle.std.specs.List.{list_any};
ghost use Rattle.scrub_disk.specs.Image.{extent_bytes};
ghost use Rattle.scrub_disk.specs.Parted.{image_of};
ghost use Rattle.scrub_frame.specs.Locator.{IsLocator};
ghost use Rattle.scrub_super.specs.steps.Limits.{AreRunLocators};
ghost use Rattle.scrub_cli.specs.DiskGeometry.{AreSizesFoundBy};
ghost use Rattle.scrub_cli.specs.GivenRuns.{GiveRuns, IsBadRunFault, IsGivenBy, IsLoadedWithRuns};
ghost use Rattle.scrub_cli.specs.GivenRuns.{IsNoRunFault};
ghost use Rattle.scrub_cli.specs.GivenRuns.{IsRunsFault, NameRuns, NamesRunPlace, is_of_place, with_one};
ghost use Rattle.scrub_cli.specs.KnownFiles.{IsKnownAs};
ghost use Rattle.scrub_cli.specs.Rescue.{IsMapNamed};

use crate::commands::disk_image::load_disk;
use crate::commands::opened::Opened;
use crate::process::fault::Fault;
use crate::process::images::Images;
use scrub_args::{ImageArgs, bad_page as pair};
use scrub_disk::{Geometry, OutOfMemory, PageSource, PartedDisk};
use scrub_frame::Locator;
use scrub_loose::run_at;
use std::alloc::Global;
use std::thread::Threads;

/// Whether a disk of these sizes has this place, and it isn't in extent 0.
fn may_have_run(geometry: Geometry, extent: u32, offset: u32) -> bool
    ensures { IsTrue result ↔
        ((1 ≤ extent) × (extent < geometry.extents) × (offset < extent_bytes geometry)) }
{
    0 < extent && extent < geometry.extents && offset < geometry.extent_bytes()
}

/// The place that the argument names, if it names one.
fn named_run(geometry: Geometry, arg: &str) -> Option<(u32, u32)>
    ensures { MatchOption result ((at : ℕ × ℕ) → ¬ NamesRunPlace geometry arg.now at)
        (NamesRunPlace geometry arg.now) }
{
    let (extent, offset) = pair(arg)?;
    if may_have_run(geometry, extent, offset) {
        Some((extent, offset))
    } else {
        None
    }
}

/// The places that the arguments name. The fault is the first argument that names none.
fn named_runs<'a>(
    alloc: Global,
    geometry: Geometry,
    args: &[&'a str],
) -> Result<Vec<(u32, u32)>, Fault<'a>>
    ensures { MatchResult result (λ places. NameRuns geometry args.now places.items)
        (IsBadRunFault geometry args.now) }
{
    let mut places = Vec::new(alloc);
    for arg in args {
        let Some(place) = named_run(geometry, arg) else {
            return Err(Fault::BadRun(arg));
        };
        places.push(place)?;
    }
    Ok(places)
}

/// Whether one of the locators is of this place.
fn has_place(runs: &[Locator], extent: u32, offset: u32) -> bool
    ensures { result ≡ list_any (is_of_place extent offset) runs.now }
{
    runs.iter()
        .any(|run| run.extent == extent && run.offset == offset)
}

/// Adds a locator, unless there is one of its place.
fn add_run(runs: &mut Vec<Locator>, run: Locator) -> Result<(), OutOfMemory>
    ensures { OnOk result (runs.new.items ≡ with_one runs.old.items run) }
{
    if has_place(runs, run.extent, run.offset) {
        return Ok(());
    }
    runs.push(run)?;
    Ok(())
}

/// The locators of the index runs at the places that the arguments name, one for each place. The fault is
/// the first argument at whose place there is none.
fn runs_at<'a, D: PageSource>(
    alloc: Global,
    disk: &D,
    args: &[&'a str],
    places: &[(u32, u32)],
) -> Result<Vec<Locator>, Fault<'a>>
    requires { NameRuns (D.image disk.now).geometry args.now places.now }
    ensures runs { MatchResult result
        (λ runs. GiveRuns (D.image disk.now) args.now runs.items)
        (IsNoRunFault (D.image disk.now) args.now) }
    ensures located { IfOk result (λ runs. All IsLocator runs.items) }
{
    let mut runs = Vec::new(alloc);
    for (number, arg) in args.iter().enumerate() {
        let (extent, offset) = places[number];
        let Some(run) = run_at(alloc, disk, extent, offset)? else {
            return Err(Fault::NoRun(arg));
        };
        add_run(&mut runs, run)?;
    }
    Ok(runs)
}

/// What is given by the arguments that name these places: the locators of the index runs there, or `None`
/// without arguments.
fn given_runs<'a, D: PageSource>(
    alloc: Global,
    disk: &D,
    args: &[&'a str],
    places: &[(u32, u32)],
) -> Result<Option<Vec<Locator>>, Fault<'a>>
    requires { NameRuns (D.image disk.now).geometry args.now places.now }
    ensures given { MatchResult result
        (λ given. IsGivenBy (D.image disk.now) args.now (option_map (λ runs. runs.items) given))
        (IsNoRunFault (D.image disk.now) args.now) }
    ensures located { IfOk result (λ given. IfSome given (λ runs. AreRunLocators runs.items)) }
{
    if args.is_empty() {
        return Ok(None);
    }
    let runs = runs_at(alloc, disk, args, places)?;
    // A plan has fewer than 2^32 runs. So many locators would take 250 GB.
    if runs.len() > u32::MAX as usize {
        return Err(Fault::OutOfMemory);
    }
    Ok(Some(runs))
}

/// The disk of these sizes that the arguments name, and what is given by the words for index runs. What
/// was opened before isn't opened again. Faults, in this order: the first word that names no place, those
/// of `load_disk`, and the first word at whose place there is no run.
pub fn load_with_runs<'a, R: Threads + Sync, I: Images>(
    rt: &R,
    alloc: Global,
    geometry: Geometry,
    args: &ImageArgs<'a>,
    words: &[&'a str],
    opened: Option<Opened<I::Image>>,
    images: &mut I,
) -> Result<(PartedDisk, Option<Vec<Locator>>), Fault<'a>>
    requires map { IfSome opened (λ o. IsMapNamed (I.known_map images.old) args.now.map o.map) }
    requires raw { IfSome opened (λ o.
        IsKnownAs I.Image.bytes I.Image.fails I.Image.most_failures I.Image.reads
        (I.known images.old args.now.name.now) o.raw) }
    requires found { MatchOption opened (¬ (args.now.sizes ≡ None))
        (λ o. AreSizesFoundBy (I.known images.old args.now.name.now) o.map geometry) }
    ensures disk { MatchResult result
        (λ r. IsLoadedWithRuns (I.known images.old args.now.name.now) (I.known_map images.old) args.now
        words.now geometry (image_of r.0) (option_map (λ runs. runs.items) r.1))
        (IsRunsFault (I.known images.old args.now.name.now) (I.known_map images.old) args.now words.now
        geometry) }
    ensures located { IfOk result (λ r. IfSome r.1 (λ runs. AreRunLocators runs.items)) }
{
    let places = named_runs(alloc, geometry, words)?;
    let disk = load_disk(rt, alloc, geometry, args, opened, images)?;
    let given = given_runs(alloc, &disk, words, &places)?;
    Ok((disk, given))
}
