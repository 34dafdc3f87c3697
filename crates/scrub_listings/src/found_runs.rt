//! The index runs of a disk as lines, wherever they lie: for each the place, and where its locator is in
//! extent 0.

ghost use Rattle.std.specs.Prelude.{◌≡◌, ◌≤◌, ◌++◌, Bool, List, ℕ, All, IfOk, OnOk, length, string_bytes};
ghost use Rattle.std.specs.Fmt.{decimal};
ghost use Rattle.std.specs.List.{flat_map};
ghost use Rattle.scrub_disk.specs.Image.{Image};
ghost use Rattle.scrub_frame.specs.declared.locator.Locator.{Locator};
ghost use Rattle.scrub_scan.specs.Line.{spaced};
ghost use Rattle.scrub_loose.specs.Listed.{ListedValue};
ghost use Rattle.scrub_loose.specs.Outer.{IsRunThere, locator_of};
ghost use Rattle.scrub_listings.specs.FoundRuns.{IsRunsListing, at_words, run_line, run_words, runs_total};

use crate::listing::{Listing, PlaceText};
use scrub_disk::{OutOfMemory, PageSource};
use scrub_loose::{FoundRun, ListedRun, find_runs};
use std::alloc::Global;
use std::fmt::Write;
use std::thread::Threads;

/// Appends what the line of a run begins with.
fn append_run(text: &mut String, run: &FoundRun) -> Result<(), OutOfMemory>
    ensures { OnOk result (string_bytes text.new ≡
        string_bytes text.old ++ run_words run.now.frame run.now.entries) }
{
    let place = PlaceText {
        extent: run.frame.extent,
        offset: run.frame.offset,
        length: run.frame.length,
        uuid: run.frame.uuid,
    };
    let count = run.entries;
    write!(text, "run {place} {count}")
}

/// Appends places, a space before each.
fn append_places(text: &mut String, places: &[u32]) -> Result<(), OutOfMemory>
    ensures { OnOk result (string_bytes text.new ≡ string_bytes text.old ++ at_words places.now) }
{
    for place in places {
        write!(text, " {place}")?;
    }
    Ok(())
}

/// Appends the line of a run, with its line feed.
fn append_listed(text: &mut String, listed: &ListedRun) -> Result<(), OutOfMemory>
    ensures { OnOk result (string_bytes text.new ≡ string_bytes text.old ++ run_line listed.now) }
{
    append_run(text, listed.run())?;
    append_places(text, listed.places())?;
    writeln!(text)
}

/// Appends the lines of runs, in their order.
fn append_runs(text: &mut String, listed: &[ListedRun]) -> Result<(), OutOfMemory>
    ensures { OnOk result (string_bytes text.new ≡ string_bytes text.old ++ flat_map run_line listed.now) }
{
    for one in listed {
        append_listed(text, one)?;
    }
    Ok(())
}

/// Appends the last line, with its line feed.
fn append_total(text: &mut String, count: usize) -> Result<(), OutOfMemory>
    ensures { OnOk result (string_bytes text.new ≡ string_bytes text.old ++ runs_total count) }
{
    writeln!(text, "total {count}")
}

/// The lines of runs, and how many there are.
fn runs_text(alloc: Global, listed: &[ListedRun]) -> Result<Vec<u8>, OutOfMemory>
    ensures { IfOk result (λ text. text.items ≡
        flat_map run_line listed.now ++ runs_total (length listed.now)) }
{
    let mut text = String::new(alloc);
    append_runs(&mut text, listed)?;
    append_total(&mut text, listed.len())?;
    Ok(text.into_bytes())
}

/// Lists the index runs that lie in the extents of a disk but extent 0. It is clean if each page of the disk
/// can be read.
///
/// There is a line for each run, by extent and offset: `run EXTENT OFFSET LENGTH UUID SHARDS [AT]..`. A run
/// is a frame, none of its bytes unreadable, whose payload is an index run; frames are looked for from the
/// extent's first byte to its end, not at pages, and not within a frame. SHARDS is how many entries it has.
/// Each AT is an offset of extent 0 at which the bytes of its locator are, ascending. Offset and length are
/// in bytes. The last line is `total N`.
///
/// No superblock is looked at, and no write pointer or retired extent. Each extent is read once, by the
/// caller and at most this many threads beside it. The only fault is `OutOfMemory`.
pub fn list_runs<R: Threads + Sync, D: PageSource>(
    rt: &R,
    alloc: Global,
    disk: &D,
    workers: u32,
) -> Result<Listing, OutOfMemory>
    ensures { IfOk result (λ l. IsRunsListing (D.image disk.now) l.text.items l.is_clean) }
{
    let found = find_runs(rt, alloc, disk, workers)?;
    let text = runs_text(alloc, &found.runs)?;
    Ok(Listing {
        text,
        is_clean: found.is_readable,
    })
}

/// A law: an image has at most one text of the lines of its runs, and one verdict whether its pages can be
/// read.
pub fn one_runs_listing()
    ensures { (image : Image) (a b : List ℕ) (v w : Bool) →
        IsRunsListing image a v → IsRunsListing image b w → (a ≡ b) × (v ≡ w) }
{}

/// A law: each image has such a text and a verdict. With `one_runs_listing`, it has exactly one of each.
pub fn each_image_has_a_runs_listing()
    ensures { (image : Image) → (text : List ℕ) × (clean : Bool) × IsRunsListing image text clean }
{}

/// A law: at the place on the line of a run is one, which `run_at` takes, with the locator of that frame; and
/// it takes no other there.
pub fn a_listed_run_can_be_given()
    ensures there { (image : Image) (text : List ℕ) (clean : Bool) (l : IsRunsListing image text clean) →
        All (λ (v : ListedValue). IsRunThere image v.run.frame.extent v.run.frame.offset
        (locator_of v.run.frame)) l.listed }
    ensures one { (image : Image) (extent offset : ℕ) (l m : Locator) → IsRunThere image extent offset l →
        IsRunThere image extent offset m → l ≡ m }
{}
