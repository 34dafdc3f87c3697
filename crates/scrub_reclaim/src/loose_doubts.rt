//! The doubts that loose copies make: of each locator whose loose copies a reset might all take, the first
//! one; and those of crowded extents, in which no copy was looked for.

ghost use Rattle.std.specs.Prelude.{◌≡◌, ◌++◌, ◌∷◌, [], IfOk, OnOk};
ghost use Rattle.std.specs.List.{flat_map};
ghost use Rattle.scrub_loose.specs.Loose.{LooseValue};
ghost use Rattle.scrub_reclaim.specs.Doubts.{crowded_doubt, first_doubt, is_in, loose_doubt};
ghost use Rattle.scrub_reclaim.specs.Doubts.{loose_doubts, outside};
ghost use Rattle.scrub_reclaim.specs.steps.ReclaimParts.{AreKeptOf, AreLists};
ghost use Rattle.scrub_reclaim.specs.steps.KeptCopies.{loose_doubts_by};

use crate::doubts::Doubt;
use crate::reclaim_parts::ReclaimParts;
use crate::spare_doubts::frame_bytes;
use scrub_check::{Checked, ExtentSet, Owner, Spares};
use scrub_disk::{OutOfMemory, PageSource};
use scrub_loose::Copies;
use scrub_scan::Standing;
use std::alloc::Global;

/// Whether a frame is in one of these extents.
fn is_in(extents: &ExtentSet, frame: &Standing) -> bool
    ensures { result ≡ is_in extents.now frame.now }
{
    extents.has(frame.extent)
}

/// Those of some frames that are in none of these extents, in their order.
fn outside(
    alloc: Global,
    extents: &ExtentSet,
    some: &[Standing],
) -> Result<Vec<Standing>, OutOfMemory>
    ensures { IfOk result (λ v. v.items ≡ outside extents.now some.now) }
{
    some.iter()
        .copied()
        .filter(|frame| !is_in(extents, frame))
        .collect(alloc)
}

/// Adds the doubt that this loose copy of an owner's locator makes.
fn add_doubt(doubts: &mut Vec<Doubt>, owner: Owner, copy: &Standing) -> Result<(), OutOfMemory>
    ensures { OnOk result (doubts.new.items ≡ doubts.old.items ++ loose_doubt owner copy.now ∷ []) }
{
    doubts.push(Doubt::Loose {
        extent: copy.extent,
        offset: copy.offset,
        length: copy.length,
        uuid: copy.uuid,
        owner,
        bytes: frame_bytes(copy),
    })?;
    Ok(())
}

/// Adds the doubt that the loose copies of an owner's locator make, unless one of them stays.
fn add_one(
    doubts: &mut Vec<Doubt>,
    owner: Owner,
    some: &[Standing],
    stay: &[Standing],
) -> Result<(), OutOfMemory>
    ensures { OnOk result (doubts.new.items ≡
        doubts.old.items ++ first_doubt (loose_doubt owner) some.now stay.now) }
{
    if !stay.is_empty() {
        return Ok(());
    }
    match some.first() {
        Some(first) => add_doubt(doubts, owner, first),
        None => Ok(()),
    }
}

/// Adds the doubts that the loose copies of named locators make, in their order, by the copies and by the
/// frames that stay.
fn add_all(
    doubts: &mut Vec<Doubt>,
    copies: &Copies,
    stay: &Spares,
    all: &[Checked],
) -> Result<(), OutOfMemory>
    ensures { OnOk result (doubts.new.items ≡ doubts.old.items ++
        flat_map (loose_doubts_by copies.now stay.now) all.now) }
{
    for one in all {
        add_one(doubts, one.owner, copies.loose_of(one), stay.of_one(one))?;
    }
    Ok(())
}

/// Adds the doubts that the loose copies of the judged locators make if the candidates are reset. Each copy
/// is looked at once.
pub(crate) fn add_loose<D: PageSource>(
    alloc: Global,
    doubts: &mut Vec<Doubt>,
    parts: &ReclaimParts<'_, D>,
) -> Result<(), OutOfMemory>
    requires { AreLists parts.now }
    ensures { (loose : LooseValue) → AreKeptOf loose parts.now →
        OnOk result (doubts.new.items ≡ doubts.old.items ++
        loose_doubts parts.now.judged.scan.all.extents loose.frames parts.now.judged.checked.items
        parts.now.candidates.items) }
{
    let safe = outside(alloc, &parts.listed, parts.copies.all_loose().all())?;
    let stay = Spares::among(safe)?;
    add_all(doubts, &parts.copies, &stay, &parts.judged.checked)
}

/// Adds the doubt of a crowded extent, if it is among these.
fn add_crowded_if(
    doubts: &mut Vec<Doubt>,
    extents: &ExtentSet,
    extent: u32,
) -> Result<(), OutOfMemory>
    ensures { OnOk result (doubts.new.items ≡ doubts.old.items ++ crowded_doubt extents.now extent) }
{
    if !extents.has(extent) {
        return Ok(());
    }
    doubts.push(Doubt::Crowded { extent })?;
    Ok(())
}

/// Adds the doubts of those crowded extents that are among these, in their order.
pub(crate) fn add_crowded(
    doubts: &mut Vec<Doubt>,
    extents: &ExtentSet,
    crowded: &[u32],
) -> Result<(), OutOfMemory>
    ensures { OnOk result (doubts.new.items ≡
        doubts.old.items ++ flat_map (crowded_doubt extents.now) crowded.now) }
{
    for extent in crowded {
        add_crowded_if(doubts, extents, *extent)?;
    }
    Ok(())
}
