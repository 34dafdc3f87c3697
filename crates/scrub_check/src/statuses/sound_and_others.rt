//! The named locators, those that the findings show as sound apart from the others, by blocks of bindings.
//! Most locators of most disks are sound, and all that is kept of these is their places. See `drawn` in
//! `lists` for what becomes of the others.

ghost use Rattle.std.specs.Prelude.{◌≡◌, ◌++◌, ◌∷◌, [], ◌↔◌, IfOk, IsTrue, List, OnOk, Some, length};
ghost use Rattle.std.specs.List.{AllZip, flat_map};
ghost use Rattle.scrub_disk.specs.Image.{Image};
ghost use Rattle.scrub_super.specs.Plan.{PlanValue};
ghost use Rattle.scrub_check.specs.Named.{named_by_runs, named_by_shard, named_locators};
ghost use Rattle.scrub_check.specs.Runs.{AreRunStatuses};
ghost use Rattle.scrub_check.specs.declared.named.Named.{Named};
ghost use Rattle.scrub_check.specs.declared.statuses.status.Status.TheVariants.{Sound};
ghost use Rattle.scrub_check.specs.steps.Open.{IsKnownBefore};
ghost use Rattle.scrub_check.specs.steps.SoundAndOthers.{IsApart};

use crate::named::{Named, Owner};
use crate::places::chunk_at::ChunkAt;
use crate::statuses::nearby::Nearby;
use crate::statuses::status::{Status, status_by_findings};
use crate::statuses::whole_scan::WholeScan;
use rayon::prelude::*;
use scrub_disk::{OutOfMemory, PageSource};
use scrub_merge::{Binding, ShardMap};
use scrub_super::Plan;
use std::alloc::Global;
use std::thread::Threads;

/// How many bindings a block has.
const BLOCK: usize = 8_192;

/// Some named locators: the places of the sound ones, and the others.
#[derive(Drop)]
pub(crate) struct SoundAndOthers {
    /// The places of the sound ones, in their order.
    pub sound: Vec<ChunkAt>,
    /// The others, in their order.
    pub others: Vec<Named>,
    /// The status of each of the others that the findings decide.
    pub known: Vec<Option<Status>>,
}

/// Whether a locator is known to be sound.
fn is_known_sound(known: Option<Status>) -> bool
    ensures { IsTrue result ↔ (known ≡ Some Sound) }
{
    matches!(known, Some(Status::Sound))
}

impl SoundAndOthers {
    /// No locators, with room for the places of so many.
    fn new(alloc: Global, room: usize) -> Result<SoundAndOthers, OutOfMemory>
        ensures { (image : Image) (plan : PlanValue) → IfOk result (IsApart image plan []) }
    {
        Ok(SoundAndOthers {
            sound: Vec::with_capacity(alloc, room)?,
            others: Vec::new(alloc),
            known: Vec::new(alloc),
        })
    }

    /// Puts one more locator to these, by what is known of it.
    fn put(&mut self, one: Named, known: Option<Status>) -> Result<(), OutOfMemory>
        ensures { (image : Image) (plan : PlanValue) (named : List Named) →
            IsApart image plan named self.old → IsKnownBefore image plan one known →
            OnOk result (IsApart image plan (named ++ one ∷ []) self.new) }
    {
        if is_known_sound(known) {
            self.sound.push(ChunkAt::named_by(&one.locator))?;
            return Ok(());
        }
        self.others.push(one)?;
        self.known.push(known)?;
        Ok(())
    }

    /// Puts the locators of a shard to these, in the binding's order, by what the findings say of each.
    fn put_shard<D: PageSource>(
        &mut self,
        scan: &WholeScan<'_, D>,
        nearby: &Nearby,
        binding: &Binding,
    ) -> Result<(), OutOfMemory>
        ensures { (named : List Named) →
            IsApart (D.image scan.now.disk.now) scan.now.plan.now named self.old →
            OnOk result (IsApart (D.image scan.now.disk.now) scan.now.plan.now
            (named ++ named_by_shard binding.now) self.new) }
    {
        for locator in binding.locators() {
            let one = Named {
                owner: Owner::Shard(binding.id()),
                locator: *locator,
            };
            self.put(
                one,
                status_by_findings(scan, locator, nearby.first(locator)),
            )?;
        }
        Ok(())
    }

    /// Puts the locators of others behind these.
    fn append(&mut self, others: &SoundAndOthers) -> Result<(), OutOfMemory>
        ensures { (image : Image) (plan : PlanValue) (named more : List Named) →
            IsApart image plan named self.old → IsApart image plan more others.now →
            OnOk result (IsApart image plan (named ++ more) self.new) }
    {
        self.sound.extend_from_slice(&others.sound)?;
        self.others.extend_from_slice(&others.others)?;
        self.known.extend_from_slice(&others.known)?;
        Ok(())
    }

    /// Puts the locators of all of these blocks behind these, in their order.
    fn append_all(&mut self, blocks: &[SoundAndOthers]) -> Result<(), OutOfMemory>
        ensures { (image : Image) (plan : PlanValue) (named : List Named) (parts : List (List Named)) →
            IsApart image plan named self.old → AllZip (IsApart image plan) parts blocks.now →
            OnOk result (IsApart image plan (named ++ flat_map (λ part. part) parts) self.new) }
    {
        for block in blocks {
            self.append(block)?;
        }
        Ok(())
    }
}

/// The locators of the index runs, whose statuses are known, with room for the places of so many.
fn runs_apart(
    alloc: Global,
    plan: &Plan,
    statuses: &[Status],
    room: usize,
) -> Result<SoundAndOthers, OutOfMemory>
    requires { length statuses.now ≡ length plan.now.runs }
    ensures { (image : Image) → AreRunStatuses image plan.now statuses.now →
        IfOk result (IsApart image plan.now (named_by_runs 0 plan.now.runs)) }
{
    let runs = plan.runs();
    let mut apart = SoundAndOthers::new(alloc, room)?;
    for number in 0..runs.len() {
        let one = Named {
            owner: Owner::Run(number as u32),
            locator: runs[number],
        };
        apart.put(one, Some(statuses[number]))?;
    }
    Ok(apart)
}

/// The locators of some bindings, in their order.
fn bindings_apart<D: PageSource>(
    alloc: Global,
    scan: &WholeScan<'_, D>,
    nearby: &Nearby,
    bindings: &[Binding],
) -> Result<SoundAndOthers, OutOfMemory>
    ensures { IfOk result (IsApart (D.image scan.now.disk.now) scan.now.plan.now
        (flat_map named_by_shard bindings.now)) }
{
    let mut apart = SoundAndOthers::new(alloc, bindings.len())?;
    for binding in bindings {
        apart.put_shard(scan, nearby, binding)?;
    }
    Ok(apart)
}

/// The locators of each block of these bindings, in their order. Several threads look through the blocks.
fn blocks_apart<R: Threads + Sync, D: PageSource>(
    rt: &R,
    alloc: Global,
    scan: &WholeScan<'_, D>,
    nearby: &Nearby,
    bindings: &[Binding],
) -> Result<Vec<SoundAndOthers>, OutOfMemory>
    ensures { IfOk result (λ v. (parts : List (List Named)) ×
        AllZip (IsApart (D.image scan.now.disk.now) scan.now.plan.now) parts v.items ×
        (flat_map (λ part. part) parts ≡ flat_map named_by_shard bindings.now)) }
{
    bindings
        .par_chunks(BLOCK)
        .map(
            |block: &[Binding]| -> Result<SoundAndOthers, OutOfMemory>
                ensures { IfOk result (IsApart (D.image scan.entry.now.disk.now) scan.entry.now.plan.now
                    (flat_map named_by_shard block.now)) }
            { bindings_apart(alloc, scan, nearby, block) },
        )
        .collect::<Result<Vec<SoundAndOthers>, OutOfMemory>>(rt, alloc)?
}

/// How many places of sound locators these blocks have: a hint, so that a list of all isn't moved while it
/// grows.
fn places_in(blocks: &[SoundAndOthers]) -> usize {
    blocks
        .iter()
        .map(|block| block.sound.len())
        .fold(0, usize::saturating_add)
}

/// All locators that a disk names, if the statuses of the index runs are known. Several threads look through
/// the bindings. No list of all of them is made but that of the sound ones' places.
pub(crate) fn named_apart<R: Threads + Sync, D: PageSource>(
    rt: &R,
    alloc: Global,
    scan: &WholeScan<'_, D>,
    statuses: &[Status],
    map: &ShardMap,
) -> Result<SoundAndOthers, OutOfMemory>
    requires { AreRunStatuses (D.image scan.now.disk.now) scan.now.plan.now statuses.now }
    ensures { IfOk result (IsApart (D.image scan.now.disk.now) scan.now.plan.now
        (named_locators scan.now.plan.now.runs map.now)) }
{
    let bindings = map.bindings();
    let nearby = Nearby::of(rt, alloc, scan.all, bindings.len())?;
    let blocks = blocks_apart(rt, alloc, scan, &nearby, bindings)?;
    let room = places_in(&blocks).saturating_add(statuses.len());
    let mut apart = runs_apart(alloc, scan.plan, statuses, room)?;
    apart.append_all(&blocks)?;
    Ok(apart)
}
