//! The statuses of named locators that the findings don't decide, place by place: each place is read once,
//! however many locators point to it. See `open_place` for what is read there.

ghost use Rattle.std.specs.Prelude.{◌≡◌, ◌<◌, IfOk, All, List, [], length};
ghost use Rattle.std.specs.List.{flat_map};
ghost use Rattle.scrub_disk.specs.Image.{Image};
ghost use Rattle.scrub_super.specs.Plan.{PlanValue};
ghost use Rattle.scrub_check.specs.declared.named.Named.{Named};
ghost use Rattle.scrub_check.specs.steps.Open.{AreKnownBefore, AreOpen, HaveOnePlace, HasEachUnknown};
ghost use Rattle.scrub_check.specs.steps.Open.{AreJudged, AreJudgedByPlace};

use crate::named::Named;
use crate::places::chunk_at::ChunkAt;
use crate::places::sorted_list::into_sorted;
use crate::statuses::open_place::OpenPlace;
use crate::statuses::status::Status;
use crate::statuses::whole_scan::WholeScan;
use rayon::prelude::*;
use scrub_disk::{OutOfMemory, PageSource};
use std::alloc::Global;
use std::thread::Threads;

/// A named locator whose place has to be read.
#[derive(Clone, Copy, PartialEq, Eq, PartialOrd, Ord)]
pub(crate) struct OpenLocator {
    /// Its place.
    pub place: ChunkAt,
    /// Its index among the named locators.
    pub index: usize,
}

/// The named locators whose status isn't known, by place.
pub(crate) fn open_locators(
    alloc: Global,
    named: &[Named],
    known: &[Option<Status>],
) -> Result<Vec<OpenLocator>, OutOfMemory>
    requires { length known.now ≡ length named.now }
    ensures open { (image : Image) (plan : PlanValue) → AreKnownBefore image plan named.now known.now →
        IfOk result (λ v. AreOpen image plan named.now v.items) }
    ensures all { IfOk result (λ v. HasEachUnknown known.now v.items) }
{
    let mut left = Vec::new(alloc);
    for index in 0..named.len() {
        if known[index].is_none() {
            let place = ChunkAt::named_by(&named[index].locator);
            left.push(OpenLocator { place, index })?;
        }
    }
    into_sorted(left)
}

/// The open locators of each place, among locators by place.
fn parted_by_place(alloc: Global, left: &[OpenLocator]) -> Result<Vec<&[OpenLocator]>, OutOfMemory>
    ensures whole { IfOk result (λ v. flat_map (λ part. part.now) v.items ≡ left.now) }
    ensures some { IfOk result (λ v. All (λ part. 0 < length part.now) v.items) }
    ensures one_place { IfOk result (λ v. All (λ part. HaveOnePlace part.now) v.items) }
{
    let parts = left
        .chunk_by(|one, next| one.place == next.place)
        .collect::<Vec<&[OpenLocator]>>(alloc)?;
    Ok(parts)
}

/// The statuses of open locators that have one place, in their order. The place is read once.
fn judge_place<D: PageSource>(
    alloc: Global,
    scan: &WholeScan<'_, D>,
    named: &[Named],
    left: &[OpenLocator],
) -> Result<Vec<Status>, OutOfMemory>
    requires some { 0 < length left.now }
    requires one_place { HaveOnePlace left.now }
    requires left { AreOpen (D.image scan.now.disk.now) scan.now.plan.now named.now left.now }
    ensures { IfOk result (λ v.
        AreJudged (D.image scan.now.disk.now) scan.now.plan.now named.now left.now v.items) }
{
    let mut read = OpenPlace::read(alloc, scan, left[0].place)?;
    let mut judged = Vec::with_capacity(alloc, left.len())?;
    for i in 0..left.len() {
        let index = left[i].index;
        let status = read.status(alloc, scan, &named[index].locator)?;
        judged.push(status)?;
    }
    Ok(judged)
}

/// The statuses of the open locators of each of these places, in their order. Several threads judge them.
fn judge_each_place<R: Threads + Sync, D: PageSource>(
    rt: &R,
    alloc: Global,
    scan: &WholeScan<'_, D>,
    named: &[Named],
    places: &[&[OpenLocator]],
) -> Result<Vec<Vec<Status>>, OutOfMemory>
    requires some { All (λ left. 0 < length left.now) places.now }
    requires one_place { All (λ left. HaveOnePlace left.now) places.now }
    requires left { All (λ left. AreOpen (D.image scan.now.disk.now) scan.now.plan.now named.now left.now)
        places.now }
    ensures { IfOk result (λ v. AreJudgedByPlace (D.image scan.now.disk.now) scan.now.plan.now named.now
        places.now v.items) }
{
    places
        .par_iter()
        .with_min_len(1)
        .map(
            |left: &&[OpenLocator]| -> Result<Vec<Status>, OutOfMemory>
                requires some { 0 < length left.now.now }
                requires one_place { HaveOnePlace left.now.now }
                requires left { AreOpen (D.image scan.now.disk.now) scan.now.plan.now named.now left.now.now }
                ensures { IfOk result (λ v.
                    AreJudged (D.image scan.entry.now.disk.now) scan.entry.now.plan.now named.entry.now
                    left.now.now v.items) }
            { judge_place(alloc, scan, named, left) },
        )
        .collect::<Result<Vec<Vec<Status>>, OutOfMemory>>(rt, alloc)?
}

/// The statuses of open locators by place, in their order. Several threads judge them.
pub(crate) fn judge_places<R: Threads + Sync, D: PageSource>(
    rt: &R,
    alloc: Global,
    scan: &WholeScan<'_, D>,
    named: &[Named],
    left: &[OpenLocator],
) -> Result<Vec<Status>, OutOfMemory>
    requires { AreOpen (D.image scan.now.disk.now) scan.now.plan.now named.now left.now }
    ensures { IfOk result (λ v.
        AreJudged (D.image scan.now.disk.now) scan.now.plan.now named.now left.now v.items) }
{
    let places = parted_by_place(alloc, left)?;
    let judged = judge_each_place(rt, alloc, scan, named, &places)?.concat(alloc)?;
    Ok(judged)
}

/// Puts the statuses of open locators to those that are known, each at its index.
pub(crate) fn write_statuses(known: &mut [Option<Status>], left: &[OpenLocator], judged: &[Status])
    requires below { All (λ one. one.index < length known.old) left.now }
    requires count { length judged.now ≡ length left.now }
    ensures right { (image : Image) (plan : PlanValue) (named : List Named) →
        AreJudged image plan named left.now judged.now →
        AreKnownBefore image plan named known.old → AreKnownBefore image plan named known.new }
    ensures all { HasEachUnknown known.old left.now → HasEachUnknown known.new [] }
{
    for i in 0..left.len() {
        known[left[i].index] = Some(judged[i]);
    }
}
