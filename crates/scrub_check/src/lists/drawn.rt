//! The lists that are drawn from all named locators, without a list of all of them. See `checked` in
//! `statuses` for one of them with their statuses.

ghost use Rattle.std.specs.Prelude.{IfOk, List};
ghost use Rattle.scrub_check.specs.Checked.{AreChecked};
ghost use Rattle.scrub_check.specs.Drawn.{AreDrawnFromNamed};
ghost use Rattle.scrub_check.specs.Named.{named_locators};
ghost use Rattle.scrub_check.specs.Runs.{AreRunStatuses};
ghost use Rattle.scrub_check.specs.WholeScan.{IsWholeScan};
ghost use Rattle.scrub_check.specs.declared.named.Named.{Named};
ghost use Rattle.scrub_check.specs.steps.Open.{AreKnownBefore};
ghost use Rattle.scrub_check.specs.steps.SoundAndOthers.{IsApart};

use crate::lists::broken::broken_shards;
use crate::lists::locator_index::{LocatorIndex, barred_extents};
use crate::lists::sound_places::SoundPlaces;
use crate::named::Named;
use crate::statuses::checked::{Checked, check_others, dangling, hidden};
use crate::statuses::sound_and_others::{SoundAndOthers, named_apart};
use crate::statuses::status::Status;
use crate::statuses::whole_scan::WholeScan;
use scrub_disk::{OutOfMemory, PageSource};
use scrub_merge::ShardMap;
use scrub_run::ShardId;
use scrub_scan::AllFindings;
use scrub_super::Plan;
use std::alloc::Global;
use std::thread::Threads;

/// What is drawn from checked locators, so that they needn't be kept.
#[derive(Drop)]
pub struct FromLocators {
    /// What they say of places and extents.
    pub locators: LocatorIndex,
    /// The dangling ones, in their order.
    pub dangling: Vec<Checked>,
    /// The hidden ones, in their order.
    pub hidden: Vec<Checked>,
    /// The shards with a dangling one, by identifier, each once.
    pub broken: Vec<ShardId>,
}

/// Named locators that aren't sound with their statuses, in their order, if some are known.
fn check_unsound<R: Threads + Sync, D: PageSource>(
    rt: &R,
    alloc: Global,
    scan: &WholeScan<'_, D>,
    others: Vec<Named>,
    known: Vec<Option<Status>>,
) -> Result<Vec<Checked>, OutOfMemory>
    requires { AreKnownBefore (D.image scan.now.disk.now) scan.now.plan.now others.items known.items }
    ensures { IfOk result (λ v.
        AreChecked (D.image scan.now.disk.now) scan.now.plan.now others.items v.items) }
{
    check_others(rt, alloc, scan, &others, known)
}

/// What is drawn from named locators. Those that aren't sound are checked.
fn drawn_apart<R: Threads + Sync, D: PageSource>(
    rt: &R,
    alloc: Global,
    scan: &WholeScan<'_, D>,
    apart: SoundAndOthers,
) -> Result<FromLocators, OutOfMemory>
    requires { AreKnownBefore (D.image scan.now.disk.now) scan.now.plan.now apart.others.items
        apart.known.items }
    ensures { (named : List Named) → IsApart (D.image scan.now.disk.now) scan.now.plan.now named apart →
        IfOk result (AreDrawnFromNamed (D.image scan.now.disk.now) scan.now.plan.now named) }
{
    let SoundAndOthers {
        sound,
        others,
        known,
    } = apart;
    let checked = check_unsound(rt, alloc, scan, others, known)?;
    Ok(FromLocators {
        locators: LocatorIndex {
            sound: SoundPlaces::of_starts(rt, alloc, sound)?,
            barred: barred_extents(alloc, &checked)?,
        },
        dangling: dangling(alloc, &checked)?,
        hidden: hidden(alloc, &checked)?,
        broken: broken_shards(alloc, &checked)?,
    })
}

/// What is drawn from all locators that a disk names, if the statuses of the index runs are known. Several
/// threads search the findings and read the disk if there is much to do. Neither a list of all of them is
/// made nor one of all with their statuses. Each place that the findings don't decide is read once, however
/// many locators point to it.
pub fn draw_named<R: Threads + Sync, D: PageSource>(
    rt: &R,
    alloc: Global,
    disk: &D,
    plan: &Plan,
    all: &AllFindings<'_, D>,
    statuses: &[Status],
    map: &ShardMap,
) -> Result<FromLocators, OutOfMemory>
    requires scan { IsWholeScan (D.image disk.now) plan.now all.now.extents }
    requires statuses { AreRunStatuses (D.image disk.now) plan.now statuses.now }
    ensures { IfOk result
        (AreDrawnFromNamed (D.image disk.now) plan.now (named_locators plan.now.runs map.now)) }
{
    let scan = WholeScan { disk, plan, all };
    let apart = named_apart(rt, alloc, &scan, statuses, map)?;
    drawn_apart(rt, alloc, &scan, apart)
}
