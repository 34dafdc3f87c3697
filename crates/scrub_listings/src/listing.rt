//! The named locators of a disk as lines: the owner, the place and the status of each.

ghost use Rattle.std.specs.Prelude.{◌≡◌, ◌++◌, ◌≤◌, Bool, List, ℕ, IfOk, OnOk, string_bytes};
ghost use Rattle.scrub_disk.specs.Image.{Image};
ghost use Rattle.scrub_found.specs.Takings.{AreTakingsBy};
ghost use Rattle.std.specs.List.{flat_map};
ghost use Rattle.scrub_found.specs.Judged.{IsScan};
ghost use Rattle.scrub_listings.specs.Locators.{IsLocatorListing, copies_line, copies_lines, count_line};
ghost use Rattle.scrub_listings.specs.Locators.{lines_by, locator_line, place_text, place_words};

use scrub_check::{Checked, shared};
use scrub_disk::{OutOfMemory, PageSource};
use scrub_found::judging::are_sound;
use scrub_found::texts::{owner_text, status_text};
use scrub_found::{Scan, ScrubFault, is_clean, judged_of, scan_by};
use scrub_frame::Locator;
use scrub_loose::Copies;
use scrub_pool::{Gate, Takings};
use scrub_scan::Standing;
use std::alloc::Global;
use std::fmt::{self, Write};
use std::sync::Wait;
use std::thread::Threads;
use uuid::Uuid;

/// What was listed. The function that lists it says which lines there are, and what is clean.
#[derive(Debug, Drop)]
pub struct Listing {
    /// The lines, each with its line feed. Numbers are in decimal. A UUID is as RFC 9562 writes it, in lower
    /// case.
    pub text: Vec<u8>,
    /// Whether all is clean.
    pub is_clean: bool,
}

/// Appends the line of a named locator, with its line feed.
pub fn append_line(alloc: Global, text: &mut String, one: &Checked) -> Result<(), OutOfMemory>
    ensures { OnOk result (string_bytes text.new ≡ string_bytes text.old ++ locator_line one.now) }
{
    let owner = owner_text(alloc, one.owner)?;
    let place = PlaceText::of(&one.locator);
    let status = status_text(one.status);
    writeln!(text, "{owner} {place} {status}")
}

/// Where a chunk is or is looked for, the length of its payload and its UUID: `EXTENT OFFSET LENGTH UUID`.
#[derive(Drop)]
pub struct PlaceText {
    pub extent: u32,
    pub offset: u32,
    pub length: u32,
    pub uuid: Uuid,
}

impl PlaceText {
    /// Where a locator points.
    pub fn of(locator: &Locator) -> PlaceText
        ensures { place_words result.extent result.offset result.length result.uuid ≡ place_text locator.now }
    {
        let Locator {
            extent,
            offset,
            length,
            uuid,
            ..
        } = *locator;
        PlaceText {
            extent,
            offset,
            length,
            uuid,
        }
    }
}

impl fmt::Display for PlaceText {
    ghost use Rattle.std.specs.Prelude.{Some};
    ghost use Rattle.scrub_listings.specs.Locators.{place_words};

    ghost output = { λ p. Some (place_words p.extent p.offset p.length p.uuid) };

    fn fmt<W: fmt::Write>(&self, f: &mut fmt::Formatter<W>) -> fmt::Result {
        let PlaceText {
            extent,
            offset,
            length,
            uuid,
        } = self;
        write!(f, "{extent} {offset} {length} {uuid}")
    }
}

/// Appends the line of the first of so many copies of a kind, with its line feed.
fn append_count(
    text: &mut String,
    word: &str,
    first: &Standing,
    count: usize,
) -> Result<(), OutOfMemory>
    ensures { OnOk result (string_bytes text.new ≡
        string_bytes text.old ++ count_line word.now first.now count) }
{
    let place = PlaceText {
        extent: first.extent,
        offset: first.offset,
        length: first.length,
        uuid: first.uuid,
    };
    writeln!(text, "{word} {place} {count}")
}

/// Appends the line of some copies of a kind, if there is one.
fn append_kind(text: &mut String, word: &str, some: &[Standing]) -> Result<(), OutOfMemory>
    ensures { OnOk result (string_bytes text.new ≡ string_bytes text.old ++ copies_line word.now some.now) }
{
    match some.first() {
        Some(first) => append_count(text, word, first, some.len()),
        None => Ok(()),
    }
}

/// Appends the line of the spares of a locator, and that of its loose copies.
fn append_copies(
    text: &mut String,
    spares: &[Standing],
    loose: &[Standing],
) -> Result<(), OutOfMemory>
    ensures { OnOk result (string_bytes text.new ≡
        string_bytes text.old ++ copies_lines spares.now loose.now) }
{
    append_kind(text, "spare", spares)?;
    append_kind(text, "loose", loose)
}

/// Appends the line of a named locator, and that of its copies.
fn append_one(
    alloc: Global,
    text: &mut String,
    copies: &Copies,
    one: &Checked,
) -> Result<(), OutOfMemory>
    ensures { OnOk result (string_bytes text.new ≡ string_bytes text.old ++ lines_by copies.now one.now) }
{
    append_line(alloc, text, one)?;
    append_copies(text, copies.spares_of(one), copies.loose_of(one))
}

/// The lines of named locators and of their copies, in their order.
fn locator_lines(
    alloc: Global,
    copies: &Copies,
    checked: &[Checked],
) -> Result<Vec<u8>, OutOfMemory>
    ensures { IfOk result (λ text. text.items ≡ flat_map (lines_by copies.now) checked.now) }
{
    let mut text = String::new(alloc);
    for one in checked {
        append_one(alloc, &mut text, copies, one)?;
    }
    Ok(text.into_bytes())
}

/// The named locators of a scanned disk as lines.
fn listing_of<R: Threads + Sync, D: PageSource>(
    rt: &R,
    alloc: Global,
    scan: Scan<'_, D>,
) -> Result<Listing, OutOfMemory>
    requires { IsScan (D.image scan.disk.now) scan }
    ensures { IfOk result (λ l.
        IsLocatorListing (D.image scan.entry.disk.now) l.text.items l.is_clean) }
{
    let disk = scan.disk;
    let judged = judged_of(rt, alloc, scan)?;
    let shared_places = shared(alloc, &judged.checked)?;
    let Scan { plan, all, .. } = &judged.scan;
    let copies = Copies::of(rt, alloc, disk, plan, all, &[], &judged.checked)?;
    let text = locator_lines(alloc, &copies, &judged.checked)?;
    let are_sound = are_sound(&judged.checked);
    let is_clean = is_clean(&judged.scan, &judged.runs, are_sound, &shared_places);
    Ok(Listing { text, is_clean })
}

/// Lists the named locators of a disk, and returns which extents the caller and each worker took. It is clean
/// if the disk is.
///
/// There is a line for each named locator, in their order: `OWNER EXTENT OFFSET LENGTH UUID STATUS`. After
/// that of one that has spares comes `spare EXTENT OFFSET LENGTH UUID COUNT`: the first of them by extent and
/// offset, and how many there are. After that of one that has none, but loose copies, comes `loose EXTENT
/// OFFSET LENGTH UUID COUNT`, the same of these. Owner and status have the report's words. Offset and length
/// are in bytes.
///
/// The bytes of the extents in use are read once more if a locator that dangles asks for bytes and has no
/// spare.
///
/// It scans as `scrub` does, with this many workers (0 to 64) beside the caller. The only fault is
/// `OutOfMemory`, returned once every started worker has ended.
pub fn list_locators<D: PageSource, G: Gate, R: Threads + Wait + Sync>(
    rt: &R,
    alloc: Global,
    disk: &D,
    workers: u32,
    gate: &G,
) -> Result<(Listing, Takings), ScrubFault>
    requires { workers ≤ 64 }
    ensures listing { IfOk result (λ r. IsLocatorListing (D.image disk.now) r.0.text.items r.0.is_clean) }
    ensures takings { IfOk result (λ r. AreTakingsBy (D.image disk.now) workers r.1) }
{
    let (scan, takings) = scan_by(rt, alloc, disk, workers, gate)?;
    let listing = listing_of(rt, alloc, scan)?;
    Ok((listing, takings))
}

/// A law: the named locators of an image have at most one text of lines, and the image one verdict.
pub fn one_locator_listing()
    ensures { (image : Image) (a b : List ℕ) (v w : Bool) → IsLocatorListing image a v →
        IsLocatorListing image b w → (a ≡ b) × (v ≡ w) }
{}

/// A law: each image has a text of the lines of its named locators, and a verdict. With
/// `one_locator_listing`, it has exactly one of each.
pub fn each_image_has_a_locator_listing()
    ensures { (image : Image) → (text : List ℕ) × (clean : Bool) × IsLocatorListing image text clean }
{}
