//! The doubts that spares make: of each locator whose spares a reset might all take, the first one.

ghost use Rattle.std.specs.Prelude.{◌≡◌, ◌++◌, ◌∷◌, ◌&&◌, [], List, IfOk, OnOk, not};
ghost use Rattle.std.specs.List.{flat_map};
ghost use Rattle.scrub_scan.specs.Scanned.{Scanned};
ghost use Rattle.scrub_check.specs.declared.statuses.checked.Checked.{Checked};
ghost use Rattle.scrub_check.specs.Spares.{AreSpares};
ghost use Rattle.scrub_check.specs.steps.LocatorIndex.{IsLocatorIndex};
ghost use Rattle.scrub_reclaim.specs.Doubts.{first_doubt, frame_bytes, is_at_risk, spare_doubt};
ghost use Rattle.scrub_reclaim.specs.Doubts.{safe_spares, spare_doubts, spare_doubts_by};
ghost use Rattle.scrub_reclaim.specs.steps.ReclaimParts.{AreLists};

use crate::doubts::Doubt;
use crate::reclaim_parts::ReclaimParts;
use scrub_check::{Checked, ExtentSet, LocatorIndex, Owner, Spares};
use scrub_disk::{OutOfMemory, PageSource};
use scrub_scan::Standing;
use std::alloc::Global;

/// Whether a chunk that is live or not, in a candidate or not, might be lost.
fn is_risk(is_live: bool, is_candidate: bool) -> bool
    ensures { result ≡ not is_live && is_candidate }
{
    !is_live && is_candidate
}

/// Whether a reset of these extents might take a spare.
fn is_at_risk(locators: &LocatorIndex, extents: &ExtentSet, spare: &Standing) -> bool
    ensures { (checked : List Checked) → IsLocatorIndex checked locators.now → result ≡
        is_at_risk checked extents.now spare.now }
{
    let is_live = locators.has_sound(spare.extent, spare.offset);
    is_risk(is_live, extents.has(spare.extent))
}

/// Adds a chunk, unless a reset of these extents might take it.
fn add_safe_spare(
    stay: &mut Vec<Standing>,
    locators: &LocatorIndex,
    extents: &ExtentSet,
    spare: &Standing,
) -> Result<(), OutOfMemory>
    ensures { (checked : List Checked) → IsLocatorIndex checked locators.now →
        OnOk result (stay.new.items ≡ stay.old.items ++ safe_spares checked extents.now (spare.now ∷ [])) }
{
    if is_at_risk(locators, extents, spare) {
        return Ok(());
    }
    stay.push(*spare)?;
    Ok(())
}

/// Those of some chunks that no reset of these extents takes, in their order.
fn safe_spares(
    alloc: Global,
    locators: &LocatorIndex,
    extents: &ExtentSet,
    some: &[Standing],
) -> Result<Vec<Standing>, OutOfMemory>
    ensures { (checked : List Checked) → IsLocatorIndex checked locators.now →
        IfOk result (λ v. v.items ≡ safe_spares checked extents.now some.now) }
{
    let mut stay = Vec::new(alloc);
    for spare in some {
        add_safe_spare(&mut stay, locators, extents, spare)?;
    }
    Ok(stay)
}

/// How many bytes a frame takes: its payload, and what its form adds.
pub(crate) fn frame_bytes(spare: &Standing) -> u64
    ensures { result ≡ frame_bytes spare.now }
{
    spare.length as u64 + spare.form.overhead() as u64
}

/// Adds the doubt that this spare of an owner's locator makes.
fn add_doubt(doubts: &mut Vec<Doubt>, owner: Owner, spare: &Standing) -> Result<(), OutOfMemory>
    ensures { OnOk result (doubts.new.items ≡ doubts.old.items ++ spare_doubt owner spare.now ∷ []) }
{
    doubts.push(Doubt::Spare {
        extent: spare.extent,
        offset: spare.offset,
        length: spare.length,
        uuid: spare.uuid,
        owner,
        bytes: frame_bytes(spare),
    })?;
    Ok(())
}

/// Adds the doubt that the spares of an owner's locator make, unless one of them stays.
fn add_one(
    doubts: &mut Vec<Doubt>,
    owner: Owner,
    some: &[Standing],
    stay: &[Standing],
) -> Result<(), OutOfMemory>
    ensures { OnOk result (doubts.new.items ≡
        doubts.old.items ++ first_doubt (spare_doubt owner) some.now stay.now) }
{
    if !stay.is_empty() {
        return Ok(());
    }
    match some.first() {
        Some(first) => add_doubt(doubts, owner, first),
        None => Ok(()),
    }
}

/// Adds the doubts that the spares of named locators make, in their order, by the spares and those that stay.
fn add_all(
    doubts: &mut Vec<Doubt>,
    spares: &Spares,
    stay: &Spares,
    all: &[Checked],
) -> Result<(), OutOfMemory>
    ensures { OnOk result (doubts.new.items ≡ doubts.old.items ++
        flat_map (spare_doubts_by spares.now stay.now) all.now) }
{
    for one in all {
        add_one(doubts, one.owner, spares.of_one(one), stay.of_one(one))?;
    }
    Ok(())
}

/// Adds the doubts that the spares of the judged locators make if the candidates are reset. Each spare is
/// looked at once.
pub(crate) fn add_spares<D: PageSource>(
    alloc: Global,
    doubts: &mut Vec<Doubt>,
    parts: &ReclaimParts<'_, D>,
) -> Result<(), OutOfMemory>
    requires { AreLists parts.now }
    ensures { (all : List Scanned) → AreSpares all parts.now.judged.checked.items parts.now.copies.spares →
        OnOk result (doubts.new.items ≡ doubts.old.items ++
        spare_doubts all parts.now.judged.checked.items parts.now.candidates.items) }
{
    let spares = parts.copies.all_spares();
    let safe = safe_spares(alloc, &parts.locators, &parts.listed, spares.all())?;
    let stay = Spares::among(safe)?;
    add_all(doubts, spares, &stay, &parts.judged.checked)
}
