//! The plan of a scan: what to scan, and what the superblock says about it. `scrub_scan` follows it.

ghost use Rattle.std.specs.Prelude.{◌≡◌, ◌==◌, ◌<◌, ◌≤◌, ◌-◌, ◌*◌, ◌^◌, All, Contains, IfOk, List};
ghost use Rattle.std.specs.Prelude.{Some, length};
ghost use Rattle.std.specs.Prelude.{true};
ghost use Rattle.std.specs.List.{list_any};
ghost use Rattle.std.specs.List.Sorted.{IsStrictlyIncreasing};
ghost use Rattle.scrub_super.specs.Reset.{pointer_reset, pointers_reset};
ghost use Rattle.scrub_super.specs.Planned.{extents_in_use};
ghost use Rattle.scrub_frame.specs.declared.locator.Locator.{Locator};
ghost use Rattle.scrub_super.specs.Chosen.{Choice};
ghost use Rattle.scrub_super.specs.GivenRuns.{ListsRuns, plan_listing};
ghost use Rattle.scrub_super.specs.Plan.{plan_of};

use crate::chosen::Chosen;
use scrub_disk::{Geometry, OutOfMemory};
use scrub_frame::Locator;
use std::alloc::Global;
use std::marker::Model;

/// The extents to scan, the retired extents, the write pointer of each extent, and the locators of the index
/// runs.
#[derive(Drop)]
pub struct Plan {
    geometry: Geometry,
    planned: Vec<u32>,
    retired: Vec<u32>,
    pointers: Vec<u32>,
    runs: Vec<Locator>,
    has_superblock: bool,
}

impl Model for Plan {
    ghost use Rattle.scrub_super.specs.Plan.{PlanValue, IsPlan};

    ghost Value = { PlanValue };

    ghost view = { λ p. record {
      geometry = p.geometry;
      planned = p.planned.items;
      retired = p.retired.items;
      pointers = p.pointers.items;
      runs = p.runs.items;
      has_superblock = p.has_superblock;
    } };

    ghost invariant = { λ p. IsPlan (record {
      geometry = p.geometry;
      planned = p.planned.items;
      retired = p.retired.items;
      pointers = p.pointers.items;
      runs = p.runs.items;
      has_superblock = p.has_superblock;
    }) };
}

impl Plan {
    ghost use Rattle.scrub_super.specs.Planned.{ArePlanned, AreRetired, is_in_use};
    ghost use Rattle.scrub_super.specs.steps.Limits.{AreRunLocators};
    ghost use Rattle.scrub_super.specs.Plan.{plan_of, pointer_of, IsRestricted};
    ghost use Rattle.scrub_super.specs.Reset.{IsReset};
    ghost use Rattle.scrub_frame.specs.Locator.{IsLocator};
    ghost use Rattle.scrub_super.specs.GivenRuns.{plan_listing};
    ghost use Rattle.scrub_super.specs.steps.PlanParts.{IsPlanInParts};

    /// The plan of all extents except extent 0 and the retired ones, from the chosen superblock. If there is
    /// no superblock, each extent counts as full, none is retired, and there are no index runs.
    pub fn make(alloc: Global, chosen: &Chosen, geometry: Geometry) -> Result<Plan, OutOfMemory>
        requires same_geometry { chosen.now.geometry ≡ geometry }
        ensures plan { IfOk result (λ plan. plan ≡ plan_of chosen.now) }
        // The same part by part, for callers.
        ensures parts { IfOk result (IsPlanInParts chosen.now) }
    {
        match chosen.superblock() {
            Some(superblock) => Ok(Plan {
                geometry,
                planned: all_in_use(alloc, geometry.extents(), superblock.retired())?,
                retired: Vec::from_slice(alloc, superblock.retired())?,
                pointers: Vec::from_slice(alloc, superblock.pointers())?,
                runs: Vec::from_slice(alloc, superblock.runs())?,
                has_superblock: true,
            }),
            None => Ok(Plan {
                geometry,
                planned: all_in_use(alloc, geometry.extents(), &[])?,
                retired: Vec::new(alloc),
                pointers: vec![in alloc; geometry.extent_bytes(); geometry.extents() as usize - 1]?,
                runs: Vec::new(alloc),
                has_superblock: false,
            }),
        }
    }

    /// The plan by index runs that are given, newest first, and fewer than 2^32, whatever is in extent 0:
    /// that of a disk on which one superblock counts that lists these runs, retires nothing, and has each
    /// write pointer at its extent's end.
    pub fn listing(
        alloc: Global,
        geometry: Geometry,
        runs: Vec<Locator>,
    ) -> Result<Plan, OutOfMemory>
        requires few { length runs.items < 2 ^ 32 }
        requires located { All IsLocator runs.items }
        ensures { IfOk result (λ plan. plan ≡ plan_listing geometry runs.items) }
    {
        Ok(Plan {
            geometry,
            planned: all_in_use(alloc, geometry.extents(), &[])?,
            retired: Vec::new(alloc),
            pointers: vec![in alloc; geometry.extent_bytes(); geometry.extents() as usize - 1]?,
            runs,
            has_superblock: true,
        })
    }

    /// The same plan, but with only these extents planned.
    pub fn restrict(&self, alloc: Global, extents: &[u32]) -> Result<Plan, OutOfMemory>
        requires rising { IsStrictlyIncreasing extents.now }
        requires each_planned { All (Contains self.now.planned) extents.now }
        ensures { IfOk result (IsRestricted self.now extents.now) }
    {
        Ok(Plan {
            geometry: self.geometry,
            planned: Vec::from_slice(alloc, extents)?,
            retired: Vec::from_slice(alloc, &self.retired)?,
            pointers: Vec::from_slice(alloc, &self.pointers)?,
            runs: Vec::from_slice(alloc, &self.runs)?,
            has_superblock: self.has_superblock,
        })
    }

    /// The same plan, but as if each of these extents, which are ascending, had the write pointer 0. A
    /// retired extent stays retired.
    pub fn with_resets(&self, alloc: Global, extents: &[u32]) -> Result<Plan, OutOfMemory>
        requires rising { IsStrictlyIncreasing extents.now }
        ensures { IfOk result (IsReset self.now extents.now) }
    {
        Ok(Plan {
            geometry: self.geometry,
            planned: Vec::from_slice(alloc, &self.planned)?,
            retired: Vec::from_slice(alloc, &self.retired)?,
            pointers: pointers_reset(alloc, extents, &self.pointers)?,
            runs: Vec::from_slice(alloc, &self.runs)?,
            has_superblock: self.has_superblock,
        })
    }

    /// The disk's sizes.
    pub fn geometry(&self) -> Geometry
        ensures { result ≡ self.now.geometry }
    {
        self.geometry
    }

    /// The extents to scan, ascending. There may be none.
    pub fn planned(&self) -> &[u32]
        ensures planned { result.now ≡ self.now.planned }
        // The type's invariant, for callers that only borrow the plan.
        ensures extents { ArePlanned self.now.geometry.extents self.now.planned }
        ensures in_use { All (λ e. is_in_use self.now.retired e ≡ true) self.now.planned }
    {
        self.planned.as_slice()
    }

    /// The retired extents, ascending. None of them is read.
    pub fn retired(&self) -> &[u32]
        ensures retired { result.now ≡ self.now.retired }
        // The type's invariant, for callers that only borrow the plan.
        ensures extents { AreRetired self.now.geometry.extents self.now.retired }
    {
        self.retired.as_slice()
    }

    /// Whether an extent is retired.
    pub fn is_retired(&self, extent: u32) -> bool
        ensures { result ≡ list_any (λ r. r == extent) self.now.retired }
    {
        has_extent(&self.retired, extent)
    }

    /// The write pointer of an extent, retired or not, in bytes from the extent's start.
    pub fn pointer(&self, extent: u32) -> u32
        requires from_one { 1 ≤ extent }
        requires in_extents { extent < self.now.geometry.extents }
        ensures value { pointer_of self.now extent ≡ Some result }
        ensures within { result ≤ self.now.geometry.page * self.now.geometry.pages }
    {
        self.pointers[extent as usize - 1]
    }

    /// The locators of the index runs, newest first.
    pub fn runs(&self) -> &[Locator]
        ensures runs { result.now ≡ self.now.runs }
        // The type's invariant, for callers that only borrow the plan.
        ensures located { AreRunLocators self.now.runs }
    {
        self.runs.as_slice()
    }

    /// Whether the pointers and the runs come from a superblock.
    pub fn has_superblock(&self) -> bool
        ensures { result ≡ self.now.has_superblock }
    {
        self.has_superblock
    }
}

/// Whether an extent is one of these, which are ascending.
fn has_extent(extents: &[u32], extent: u32) -> bool
    requires { IsStrictlyIncreasing extents.now }
    ensures { result ≡ list_any (λ e. e == extent) extents.now }
{
    extents.binary_search(&extent).is_ok()
}

/// The write pointer of extent `i` + 1, but 0 if it is one of these extents, which are ascending.
fn pointer_reset(extents: &[u32], i: usize, pointer: u32) -> u32
    requires rising { IsStrictlyIncreasing extents.now }
    requires small { i < 2 ^ 32 - 1 }
    ensures { result ≡ pointer_reset extents.now (i, pointer) }
{
    if has_extent(extents, i as u32 + 1) {
        0
    } else {
        pointer
    }
}

/// The write pointers of extents 1, 2 and so on, but 0 for each of these extents, which are ascending.
fn pointers_reset(alloc: Global, extents: &[u32], pointers: &[u32]) -> Result<Vec<u32>, OutOfMemory>
    requires rising { IsStrictlyIncreasing extents.now }
    requires small { length pointers.now < 2 ^ 32 - 1 }
    ensures { IfOk result (λ v. v.items ≡ pointers_reset extents.now pointers.now) }
{
    let mut reset = Vec::with_capacity(alloc, pointers.len())?;
    for (i, pointer) in pointers.iter().enumerate() {
        reset.push(pointer_reset(extents, i, *pointer))?;
    }
    Ok(reset)
}

/// All extents except extent 0 and the retired ones, ascending.
fn all_in_use(alloc: Global, extents: u32, retired: &[u32]) -> Result<Vec<u32>, OutOfMemory>
    requires some { 1 ≤ extents }
    requires rising { IsStrictlyIncreasing retired.now }
    ensures { IfOk result (λ v. v.items ≡ extents_in_use extents retired.now) }
{
    let mut in_use = Vec::new(alloc);
    for extent in 1..extents {
        if !has_extent(retired, extent) {
            in_use.push(extent)?;
        }
    }
    Ok(in_use)
}

/// A law: the plan by given index runs is the one that follows from a superblock that lists these runs,
/// retires nothing, and has each write pointer at its extent's end.
pub fn a_plan_by_given_runs()
    ensures { (choice : Choice) (runs : List Locator) → ListsRuns choice runs →
        plan_of choice ≡ plan_listing choice.geometry runs }
{}
