//! Spare copies: the chunks whose payload has the length and the digest that a dangling locator asks for. An
//! empty payload needs none.

ghost use Rattle.std.specs.Prelude.{◌≡◌, ◌++◌, ◌∷◌, [], IfOk, OnOk, map};
ghost use Rattle.std.specs.List.{filter, filter_map};
ghost use Rattle.std.specs.List.Sorted.{IsSorted};
ghost use Rattle.scrub_check.specs.Spares.{AreByContent, AreSpares, HaveTheSameCopies, asks_for_spares};
ghost use Rattle.scrub_check.specs.Spares.{content_cmp, content_named, content_of, frames, is_copy_of};
ghost use Rattle.scrub_check.specs.Spares.{frame_of_item, is_wanted, spares_by};

use crate::places::item_frames::frame_of_item;
use crate::places::sorted_list::{count_of, into_sorted};
use crate::statuses::checked::Checked;
use scrub_disk::{OutOfMemory, PageSource};
use scrub_frame::{DIGEST_BYTES, Locator};
use scrub_scan::{AllFindings, Item, Standing};
use std::alloc::Global;
use std::marker::Model;

/// What says whether two payloads are the same.
#[derive(Debug, Clone, Copy, PartialEq, Eq, PartialOrd, Ord)]
pub struct Content {
    /// Its SHA-256.
    pub digest: [u8; DIGEST_BYTES],
    /// Its length, in bytes.
    pub length: u32,
}

/// Chunks sorted by the digest and the length of their payloads. Those of one content are in the order in
/// which they were found.
#[derive(Drop)]
pub struct Spares {
    found: Vec<Standing>,
}

impl Model for Spares {
    ghost use Rattle.std.specs.Prelude.{List};
    ghost use Rattle.scrub_scan.specs.declared.standing.Standing.{Standing};
    ghost use Rattle.scrub_check.specs.Spares.{AreByContent};

    ghost Value = { List Standing };

    ghost view = { λ s. s.found.items };

    ghost invariant = { λ s. AreByContent s.found.items };
}

/// The content of a frame's payload.
fn content_of(frame: &Standing) -> Content
    ensures { result ≡ content_of frame.now }
{
    Content {
        digest: frame.digest,
        length: frame.length,
    }
}

/// Whether a named locator asks for spares: it dangles, and its payload isn't empty.
fn asks_for_spares(one: &Checked) -> bool
    ensures { result ≡ asks_for_spares one.now }
{
    one.status.is_dangling() && one.locator.length > 0
}

/// What is asked for by those of these locators that ask for spares, in their order.
fn wanted_by(alloc: Global, checked: &[Checked]) -> Result<Vec<Content>, OutOfMemory>
    ensures { IfOk result (λ v. v.items ≡ map content_named (filter asks_for_spares checked.now)) }
{
    checked
        .iter()
        .filter(|one| asks_for_spares(one))
        .map(|one| Content {
            digest: one.locator.digest,
            length: one.locator.length,
        })
        .collect(alloc)
}

/// Whether the payload of a frame is among these contents, which are sorted.
fn is_wanted(wanted: &[Content], frame: &Standing) -> bool
    requires { IsSorted content_cmp wanted.now }
    ensures { result ≡ is_wanted wanted.now frame.now }
{
    count_of(wanted, &content_of(frame)) > 0
}

/// Adds an item of an extent, if it is a chunk and its payload is among these contents, which are sorted.
fn add_wanted(
    found: &mut Vec<Standing>,
    wanted: &[Content],
    extent: u32,
    item: &Item,
) -> Result<(), OutOfMemory>
    requires { IsSorted content_cmp wanted.now }
    ensures { OnOk result (found.new.items ≡
        found.old.items ++
        filter (is_wanted wanted.now) (filter_map (frame_of_item extent) (item.now ∷ []))) }
{
    let Some(frame) = frame_of_item(extent, item) else {
        return Ok(());
    };
    if is_wanted(wanted, &frame) {
        found.push(frame)?;
    }
    Ok(())
}

/// Adds those chunks of an extent whose payload is among these contents, which are sorted.
fn add_all_wanted(
    found: &mut Vec<Standing>,
    wanted: &[Content],
    extent: u32,
    items: &[Item],
) -> Result<(), OutOfMemory>
    requires { IsSorted content_cmp wanted.now }
    ensures { OnOk result (found.new.items ≡
        found.old.items ++ filter (is_wanted wanted.now) (filter_map (frame_of_item extent) items.now)) }
{
    for item in items {
        add_wanted(found, wanted, extent, item)?;
    }
    Ok(())
}

/// The chunks of all extents whose payload is among these contents, which are sorted; by extent and then
/// offset.
fn frames_wanted<D: PageSource>(
    alloc: Global,
    wanted: &[Content],
    all: &AllFindings<'_, D>,
) -> Result<Vec<Standing>, OutOfMemory>
    requires { IsSorted content_cmp wanted.now }
    ensures { IfOk result (λ v. v.items ≡ filter (is_wanted wanted.now) (frames all.now.extents)) }
{
    let mut found = Vec::new(alloc);
    for one in all.results() {
        add_all_wanted(&mut found, wanted, one.extent(), one.findings().items())?;
    }
    Ok(found)
}

/// Frames sorted by their contents. Those of one content keep their order.
fn by_content(mut found: Vec<Standing>) -> Result<Vec<Standing>, OutOfMemory>
    ensures sorted { IfOk result (λ v. AreByContent v.items) }
    ensures same { IfOk result (λ v. HaveTheSameCopies found.items v.items) }
{
    found.sort_by_key(|one| content_of(one))?;
    Ok(found)
}

impl Spares {
    /// The spares of these named locators. If none asks for any, no chunk is looked at; else each is, once,
    /// and it is searched for among what the locators ask for.
    pub fn of<D: PageSource>(
        alloc: Global,
        all: &AllFindings<'_, D>,
        checked: &[Checked],
    ) -> Result<Spares, OutOfMemory>
        ensures { IfOk result (AreSpares all.now.extents checked.now) }
    {
        let wanted = into_sorted(wanted_by(alloc, checked)?)?;
        if wanted.is_empty() {
            return Ok(Spares {
                found: Vec::new(alloc),
            });
        }
        let found = by_content(frames_wanted(alloc, &wanted, all)?)?;
        Ok(Spares { found })
    }

    /// These chunks, to be searched for the spares of any locator.
    pub fn among(found: Vec<Standing>) -> Result<Spares, OutOfMemory>
        ensures { IfOk result (HaveTheSameCopies found.items) }
    {
        let found = by_content(found)?;
        Ok(Spares { found })
    }

    /// All these chunks, by the contents of their payloads.
    pub fn all(&self) -> &[Standing]
        ensures { result.now ≡ self.now }
    {
        self.found.as_slice()
    }

    /// The spares of a named locator, by extent and then offset.
    pub fn of_one(&self, one: &Checked) -> &[Standing]
        ensures { result.now ≡ spares_by self.now one.now }
    {
        if !asks_for_spares(one) {
            return &self.found[0..0];
        }
        self.copies(&one.locator)
    }

    /// The chunks that have what a locator asks for, in their order.
    fn copies(&self, locator: &Locator) -> &[Standing]
        ensures { result.now ≡ filter (is_copy_of locator.now) self.now }
    {
        let content = Content {
            digest: locator.digest,
            length: locator.length,
        };
        let below = self
            .found
            .partition_point(|one| content_of(one).cmp(&content).is_lt());
        let through = self
            .found
            .partition_point(|one| content_of(one).cmp(&content).is_le());
        &self.found[below..through]
    }
}
