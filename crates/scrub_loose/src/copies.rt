//! The copies of what dangling locators ask for: spares, and loose copies of what has no spare.

ghost use Rattle.std.specs.Prelude.{◌≡◌, ℕ, List, IfOk};
ghost use Rattle.scrub_disk.specs.Image.{Image};
ghost use Rattle.scrub_super.specs.Plan.{IsPlan, PlanValue};
ghost use Rattle.scrub_super.specs.Planned.{ArePlanned};
ghost use Rattle.scrub_check.specs.Spares.{spares_by};
ghost use Rattle.scrub_check.specs.WholeScan.{IsWholeScan};
ghost use Rattle.scrub_loose.specs.Copies.{copies_by, loose_by};
ghost use Rattle.scrub_loose.specs.Loose.{AreCopies, AreLoose, LooseValue, best_among};
ghost use Rattle.scrub_loose.specs.steps.Asked.{IsAsked, IsSearchedFor};
ghost use Rattle.scrub_loose.specs.steps.Search.{searched};

use crate::asked::Asked;
use crate::searching::{Found, search};
use scrub_check::{Checked, Spares};
use scrub_disk::{OutOfMemory, PageSource};
use scrub_scan::{AllFindings, Standing};
use scrub_super::Plan;
use std::alloc::Global;
use std::marker::Model;
use std::thread::Threads;

/// The best copy that is left of what a dangling locator asks for.
#[derive(Debug, Clone, Copy, PartialEq, Eq)]
pub enum BestCopy {
    /// There is none; but maybe one in a crowded extent.
    Nowhere,
    /// A loose copy: a frame at any byte, which no entry can name.
    Loose,
    /// A spare: a chunk among the items.
    Spare,
}

/// The copies of what some named locators ask for.
#[derive(Drop)]
pub struct Copies {
    spares: Spares,
    loose: Spares,
    crowded: Vec<u32>,
}

impl Model for Copies {
    ghost use Rattle.scrub_loose.specs.Copies.{CopiesValue};

    ghost Value = { CopiesValue };

    ghost view = { λ s. record { spares = s.spares; loose = s.loose; crowded = s.crowded.items } };
}

/// What is found of what is asked for in these extents, which are planned, but for those that are taken as
/// reset. Nothing is looked for if nothing is asked for.
fn found_of<R: Threads + Sync, D: PageSource>(
    rt: &R,
    alloc: Global,
    disk: &D,
    extents: &[u32],
    resets: &[u32],
    asked: &Asked,
) -> Result<Found, OutOfMemory>
    requires planned { ArePlanned (D.image disk.now).geometry.extents extents.now }
    requires asked { IsAsked asked.now }
    ensures { IfOk result
        (IsSearchedFor asked.now.contents.items (D.image disk.now) (searched resets.now extents.now)) }
{
    if asked.contents.is_empty() {
        Ok(Found::none(alloc))
    } else {
        search(rt, alloc, disk, extents, resets, asked)
    }
}

impl Copies {
    /// The spares of these named locators, and their loose copies outside of the extents that are taken as
    /// reset. The bytes of the extents in use are read once more only if a payload is gone: if one of the
    /// locators dangles, asks for bytes and has no spare.
    pub fn of<R: Threads + Sync, D: PageSource>(
        rt: &R,
        alloc: Global,
        disk: &D,
        plan: &Plan,
        all: &AllFindings<'_, D>,
        resets: &[u32],
        checked: &[Checked],
    ) -> Result<Copies, OutOfMemory>
        requires { IsWholeScan (D.image disk.now) plan.now all.now.extents }
        ensures { IfOk result
            (AreCopies resets.now (D.image disk.now) plan.now all.now.extents checked.now) }
    {
        let spares = Spares::of(alloc, all, checked)?;
        let asked = Asked::by(alloc, &spares, checked)?;
        let found = found_of(rt, alloc, disk, plan.planned(), resets, &asked)?;
        Ok(Copies {
            spares,
            loose: Spares::among(found.frames)?,
            crowded: found.crowded,
        })
    }

    /// The chunks among which the spares are.
    pub fn all_spares(&self) -> &Spares
        ensures { result.now ≡ self.now.spares }
    {
        &self.spares
    }

    /// The frames among which the loose copies are.
    pub fn all_loose(&self) -> &Spares
        ensures { result.now ≡ self.now.loose }
    {
        &self.loose
    }

    /// The spares of a named locator, by extent and then offset.
    pub fn spares_of(&self, one: &Checked) -> &[Standing]
        ensures { result.now ≡ spares_by self.now.spares one.now }
    {
        self.spares.of_one(one)
    }

    /// The loose copies of a named locator, by extent and then offset; none if it has a spare.
    pub fn loose_of(&self, one: &Checked) -> &[Standing]
        ensures { result.now ≡ loose_by self.now one.now }
    {
        let loose = self.loose.of_one(one);
        if self.spares.of_one(one).is_empty() {
            loose
        } else {
            &loose[0..0]
        }
    }

    /// The copies of a named locator: its spares, or its loose copies if it has none; by extent and then
    /// offset.
    pub fn of_one(&self, one: &Checked) -> &[Standing]
        ensures { result.now ≡ copies_by self.now one.now }
    {
        let spares = self.spares.of_one(one);
        if spares.is_empty() {
            self.loose_of(one)
        } else {
            spares
        }
    }

    /// The best copy of a named locator.
    pub fn best(&self, one: &Checked) -> BestCopy
        ensures { result ≡ best_among (spares_by self.now.spares one.now) (loose_by self.now one.now) }
    {
        if !self.spares.of_one(one).is_empty() {
            return BestCopy::Spare;
        }
        if self.loose_of(one).is_empty() {
            BestCopy::Nowhere
        } else {
            BestCopy::Loose
        }
    }

    /// The crowded extents, ascending; none unless a payload is gone.
    pub fn crowded(&self) -> &[u32]
        ensures { result.now ≡ self.now.crowded }
    {
        self.crowded.as_slice()
    }
}

/// A law: an image has one list of loose frames and crowded extents for a plan and extents that are taken as
/// reset. So the copies that are found are the only ones.
pub fn one_list_of_loose_frames()
    ensures { (resets : List ℕ) (image : Image) (plan : PlanValue) (v w : LooseValue) →
        AreLoose resets image plan v → AreLoose resets image plan w → v ≡ w }
{}

/// A law: each image has them, for each plan and extents that are taken as reset.
pub fn each_plan_has_loose_frames()
    ensures { (resets : List ℕ) (image : Image) (plan : PlanValue) → IsPlan plan →
        (v : LooseValue) × AreLoose resets image plan v }
{}
