//! The named locators with their statuses, and the lists that are drawn from them alone. See `lists` for the
//! chunks that they point to.

ghost use Rattle.std.specs.Prelude.{◌≡◌, ◌≤◌, ◌<◌, ◌+◌, ◌++◌, ◌^◌, IfOk, OnOk, IsTrue, List, []};
ghost use Rattle.std.specs.Prelude.{is_some, length};
ghost use Rattle.std.specs.List.{AllZip};
ghost use Rattle.scrub_check.specs.declared.named.Named.{Named};
ghost use Rattle.scrub_disk.specs.Image.{Image};
ghost use Rattle.scrub_super.specs.Plan.{PlanValue};
ghost use Rattle.scrub_merge.specs.Binding.{BindingValue};
ghost use Rattle.scrub_check.specs.Checked.{IsChecked, AreChecked, dangling, hidden};
ghost use Rattle.scrub_check.specs.Named.{named_locators};
ghost use Rattle.scrub_check.specs.declared.named.Named.{Named};
ghost use Rattle.scrub_check.specs.declared.statuses.checked.Checked.{Checked};
ghost use Rattle.scrub_check.specs.Runs.{AreRunStatuses};
ghost use Rattle.scrub_check.specs.WholeScan.{IsWholeScan};
ghost use Rattle.scrub_check.specs.steps.Open.{IsKnownBefore, AreKnownBefore, HasEachUnknown};

use crate::named::{Named, Owner, name_runs, name_shard, named_locators};
use crate::statuses::by_place::{judge_places, open_locators, write_statuses};
use crate::statuses::nearby::Nearby;
use crate::statuses::status::{Status, status_by_findings};
use crate::statuses::whole_scan::WholeScan;
use rayon::prelude::*;
use scrub_disk::{OutOfMemory, PageSource};
use scrub_frame::Locator;
use scrub_merge::{Binding, ShardMap};
use scrub_scan::AllFindings;
use scrub_super::Plan;
use std::alloc::Global;
use std::thread::Threads;

/// A named locator, and its status.
#[derive(Debug, Clone, Copy, PartialEq, Eq)]
pub struct Checked {
    /// Who names it.
    pub owner: Owner,
    /// The locator.
    pub locator: Locator,
    /// Its status.
    pub status: Status,
}

/// The status of each of these locators that the findings decide.
fn known_by_findings<R: Threads + Sync, D: PageSource>(
    rt: &R,
    alloc: Global,
    scan: &WholeScan<'_, D>,
    named: &[Named],
) -> Result<Vec<Option<Status>>, OutOfMemory>
    ensures { IfOk result (λ v.
        AreKnownBefore (D.image scan.now.disk.now) scan.now.plan.now named.now v.items) }
{
    let nearby = Nearby::of(rt, alloc, scan.all, named.len())?;
    let known = named
        .par_iter()
        .map(
            |one: &Named| -> Option<Status>
                ensures { IsKnownBefore (D.image scan.entry.now.disk.now) scan.entry.now.plan.now one.now
                    result }
            { status_by_findings(scan, &one.locator, nearby.first(&one.locator)) },
        )
        .collect::<Vec<Option<Status>>>(rt, alloc)?;
    Ok(known)
}

/// Puts the statuses of the index runs, which are named first, to those that are known.
fn put_run_statuses(known: &mut [Option<Status>], statuses: &[Status])
    requires { length statuses.now ≤ length known.old }
    ensures { (image : Image) (plan : PlanValue) (map : List BindingValue) →
        AreRunStatuses image plan statuses.now →
        AreKnownBefore image plan (named_locators plan.runs map) known.old →
        AreKnownBefore image plan (named_locators plan.runs map) known.new }
{
    for i in 0..statuses.len() {
        known[i] = Some(statuses[i]);
    }
}

/// A named locator with its status, which is known.
fn check_one(one: &Named, known: Option<Status>) -> Checked
    requires { IsTrue (is_some known) }
    ensures { (image : Image) (plan : PlanValue) → IsKnownBefore image plan one.now known →
        IsChecked image plan one.now result }
{
    let Some(status) = known else { unreachable!() };
    Checked {
        owner: one.owner,
        locator: one.locator,
        status,
    }
}

/// These locators with their statuses, which are known, in their order.
fn check_each(
    alloc: Global,
    named: &[Named],
    known: &[Option<Status>],
) -> Result<Vec<Checked>, OutOfMemory>
    requires count { length known.now ≡ length named.now }
    requires all { HasEachUnknown known.now [] }
    ensures { (image : Image) (plan : PlanValue) → AreKnownBefore image plan named.now known.now →
        IfOk result (λ v. AreChecked image plan named.now v.items) }
{
    let mut checked = Vec::with_capacity(alloc, named.len())?;
    for i in 0..named.len() {
        let one = check_one(&named[i], known[i]);
        checked.push(one)?;
    }
    Ok(checked)
}

/// The status of each of these named locators, if some are known.
fn judge_open<R: Threads + Sync, D: PageSource>(
    rt: &R,
    alloc: Global,
    scan: &WholeScan<'_, D>,
    named: &[Named],
    mut known: Vec<Option<Status>>,
) -> Result<Vec<Option<Status>>, OutOfMemory>
    requires { AreKnownBefore (D.image scan.now.disk.now) scan.now.plan.now named.now known.items }
    ensures known { IfOk result (λ v.
        AreKnownBefore (D.image scan.now.disk.now) scan.now.plan.now named.now v.items) }
    ensures all { IfOk result (λ v. HasEachUnknown v.items []) }
{
    let left = open_locators(alloc, named, &known)?;
    let judged = judge_places(rt, alloc, scan, named, &left)?;
    write_statuses(&mut known, &left, &judged);
    Ok(known)
}

/// Named locators with their statuses, in their order, if some are known.
pub(crate) fn check_others<R: Threads + Sync, D: PageSource>(
    rt: &R,
    alloc: Global,
    scan: &WholeScan<'_, D>,
    named: &[Named],
    known: Vec<Option<Status>>,
) -> Result<Vec<Checked>, OutOfMemory>
    requires { AreKnownBefore (D.image scan.now.disk.now) scan.now.plan.now named.now known.items }
    ensures { IfOk result (λ v. AreChecked (D.image scan.now.disk.now) scan.now.plan.now named.now v.items) }
{
    let known = judge_open(rt, alloc, scan, named, known)?;
    check_each(alloc, named, &known)
}

/// Appends named locators with their statuses: the known ones at the places that these locators come to have.
fn append_checked(
    checked: &mut Vec<Checked>,
    named: &[Named],
    known: &[Option<Status>],
) -> Result<(), OutOfMemory>
    requires count { length checked.old.items + length named.now ≤ length known.now }
    requires all { HasEachUnknown known.now [] }
    ensures count { OnOk result (length checked.new.items ≡ length checked.old.items + length named.now) }
    ensures each { (image : Image) (plan : PlanValue) (before later : List Named) →
        AreKnownBefore image plan (before ++ (named.now ++ later)) known.now →
        AllZip (IsChecked image plan) before checked.old.items →
        OnOk result (AllZip (IsChecked image plan) (before ++ named.now) checked.new.items) }
{
    let from = checked.len();
    for i in 0..named.len() {
        let one = check_one(&named[i], known[from + i]);
        checked.push(one)?;
    }
    Ok(())
}

/// The locators that runs and bindings name, with their statuses, which are known. They are named once more,
/// one binding after the other, so that not all are held twice.
fn check_again(
    alloc: Global,
    runs: &[Locator],
    bindings: &[Binding],
    known: &[Option<Status>],
) -> Result<Vec<Checked>, OutOfMemory>
    requires count { length known.now ≡ length (named_locators runs.now bindings.now) }
    requires few { length runs.now < 2 ^ 32 }
    requires all { HasEachUnknown known.now [] }
    ensures { (image : Image) (plan : PlanValue) →
        AreKnownBefore image plan (named_locators runs.now bindings.now) known.now →
        IfOk result (λ v. AreChecked image plan (named_locators runs.now bindings.now) v.items) }
{
    let mut checked = Vec::with_capacity(alloc, known.len())?;
    let mut named = name_runs(alloc, runs)?;
    append_checked(&mut checked, &named, known)?;
    for binding in bindings {
        named.clear();
        name_shard(&mut named, binding)?;
        append_checked(&mut checked, &named, known)?;
    }
    Ok(checked)
}

/// The status of each of these locators, in their order. Several threads search the findings and read the
/// disk if there is much to do. Each place is read once, however many locators point to it. Its payload is
/// hashed only if the frame there is sealed, or if its head has the UUID and the length of one of the
/// locators.
pub fn check_all<R: Threads + Sync, D: PageSource>(
    rt: &R,
    alloc: Global,
    disk: &D,
    plan: &Plan,
    all: &AllFindings<'_, D>,
    named: &[Named],
) -> Result<Vec<Checked>, OutOfMemory>
    requires { IsWholeScan (D.image disk.now) plan.now all.now.extents }
    ensures { IfOk result (λ v. AreChecked (D.image disk.now) plan.now named.now v.items) }
{
    let scan = WholeScan { disk, plan, all };
    let known = known_by_findings(rt, alloc, &scan, named)?;
    check_others(rt, alloc, &scan, named, known)
}

/// The status of each locator that a disk names, if those of the index runs are known.
fn statuses_of<R: Threads + Sync, D: PageSource>(
    rt: &R,
    alloc: Global,
    scan: &WholeScan<'_, D>,
    statuses: &[Status],
    map: &ShardMap,
) -> Result<Vec<Option<Status>>, OutOfMemory>
    requires { AreRunStatuses (D.image scan.now.disk.now) scan.now.plan.now statuses.now }
    ensures known { IfOk result (λ v. AreKnownBefore (D.image scan.now.disk.now) scan.now.plan.now
        (named_locators scan.now.plan.now.runs map.now) v.items) }
    ensures all { IfOk result (λ v. HasEachUnknown v.items []) }
{
    let named = named_locators(alloc, scan.plan, map)?;
    let mut known = known_by_findings(rt, alloc, scan, &named)?;
    put_run_statuses(&mut known, statuses);
    judge_open(rt, alloc, scan, &named, known)
}

/// The same as `check_all` for all locators that a disk names, if the statuses of the index runs are known:
/// their places aren't read again.
pub fn check_named<R: Threads + Sync, D: PageSource>(
    rt: &R,
    alloc: Global,
    disk: &D,
    plan: &Plan,
    all: &AllFindings<'_, D>,
    statuses: &[Status],
    map: &ShardMap,
) -> Result<Vec<Checked>, OutOfMemory>
    requires scan { IsWholeScan (D.image disk.now) plan.now all.now.extents }
    requires statuses { AreRunStatuses (D.image disk.now) plan.now statuses.now }
    ensures { IfOk result (λ v.
        AreChecked (D.image disk.now) plan.now (named_locators plan.now.runs map.now) v.items) }
{
    let scan = WholeScan { disk, plan, all };
    let known = statuses_of(rt, alloc, &scan, statuses, map)?;
    check_again(alloc, plan.runs(), map.bindings(), &known)
}

/// The locators that are neither sound nor hidden, in their order.
pub fn dangling(alloc: Global, checked: &[Checked]) -> Result<Vec<Checked>, OutOfMemory>
    ensures { IfOk result (λ v. v.items ≡ dangling checked.now) }
{
    checked
        .iter()
        .copied()
        .filter(|one| one.status.is_dangling())
        .collect(alloc)
}

/// The hidden locators, in their order: the chunk of each is there, but a scan steps past it.
pub fn hidden(alloc: Global, checked: &[Checked]) -> Result<Vec<Checked>, OutOfMemory>
    ensures { IfOk result (λ v. v.items ≡ hidden checked.now) }
{
    checked
        .iter()
        .copied()
        .filter(|one| one.status.is_hidden())
        .collect(alloc)
}

/// A law: each list of named locators has its checked ones. So by `one_status` it has them once.
pub fn each_list_of_named_is_checked()
    ensures { (image : Image) (plan : PlanValue) (names : List Named) →
        (checked : List Checked) × AreChecked image plan names checked }
{}
