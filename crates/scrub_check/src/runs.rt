//! Which index runs can be read, and why the others are lost. See `scrub_merge` for the entries of several
//! runs.

ghost use Rattle.std.specs.Prelude.{◌≡◌, ◌↔◌, IfOk, List, Option, map as list_map};
ghost use Rattle.scrub_disk.specs.Image.{Image};
ghost use Rattle.scrub_super.specs.Plan.{PlanValue};
ghost use Rattle.scrub_run.specs.Entry.{EntryValue};
ghost use Rattle.scrub_check.specs.WholeScan.{IsWholeScan};
ghost use Rattle.scrub_check.specs.ChunkRun.{StandsThere, HasPayloadThere, IsStateOf};
ghost use Rattle.scrub_check.specs.steps.RunWithStatus.{IsRunWithStatus};
ghost use Rattle.scrub_check.specs.steps.RunsApart.{AreReadApart, HasRunStateIn, IsRunIn};
ghost use Rattle.scrub_check.specs.Runs.{AreReadRuns, AreRunStatuses, HasRunIn, ReadRunsValue};

use crate::statuses::status::{Status, status_of};
use rayon::current_num_threads;
use rayon::prelude::*;
use scrub_disk::{OutOfMemory, PageSource};
use scrub_frame::Locator;
use scrub_run::{Run, RunFault, read_run};
use scrub_scan::{AllFindings, Standing, claimed_frame, read_payload};
use scrub_super::Plan;
use std::alloc::Global;
use std::marker::Model;
use std::thread::Threads;

/// What became of an index run.
#[derive(Debug, Clone, Copy, PartialEq, Eq)]
pub enum RunState {
    /// Its chunk is there, sound or hidden, and its payload is a run.
    Read,
    /// It is lost: its chunk has this status, neither sound nor hidden.
    BadChunk(Status),
    /// It is lost: its chunk is there, and its payload isn't a run.
    NotARun,
}

/// The index runs that a plan names, in its order, which is newest first.
#[derive(Drop)]
pub struct ReadRuns {
    runs: Vec<Option<Run>>,
    states: Vec<RunState>,
}

impl Model for ReadRuns {
    ghost use Rattle.scrub_check.specs.Runs.{ReadRunsValue, AreCounted};

    ghost Value = { ReadRunsValue };

    ghost view = { λ r. record { runs = r.runs.items; states = r.states.items } };

    ghost invariant = { λ r. AreCounted (record { runs = r.runs.items; states = r.states.items }) };
}

impl ReadRuns {
    ghost use Rattle.scrub_check.specs.Runs.{AreCounted};

    /// The runs, `None` for each that is lost: fewer than 2^32.
    pub fn runs(&self) -> &[Option<Run>]
        ensures runs { result.now ≡ self.now.runs }
        // Every value of the type is such.
        ensures counted { AreCounted self.now }
    {
        self.runs.as_slice()
    }

    /// What became of each, as many as runs.
    pub fn states(&self) -> &[RunState]
        ensures states { result.now ≡ self.now.states }
        // Every value of the type is such.
        ensures counted { AreCounted self.now }
    {
        self.states.as_slice()
    }

    /// The runs, and what became of each, handed out.
    pub fn into_parts(self) -> (Vec<Option<Run>>, Vec<RunState>)
        ensures runs { result.0.items ≡ self.runs }
        ensures states { result.1.items ≡ self.states }
        // Every value of the type is such.
        ensures counted { AreCounted self }
    {
        (self.runs, self.states)
    }
}

/// The payload of the chunk that a locator names, which has to be there: the locator is sound or hidden. The
/// locator gives all of the frame but its form, which the head says. The payload isn't hashed again.
pub fn payload_at<D: PageSource>(
    alloc: Global,
    disk: &D,
    locator: &Locator,
) -> Result<Vec<u8>, OutOfMemory>
    requires { StandsThere (D.image disk.now) locator.now }
    ensures { IfOk result (λ b. HasPayloadThere (D.image disk.now) locator.now b.items) }
{
    let end = disk.geometry().extent_bytes();
    let Some(head) = claimed_frame(alloc, disk, end, locator.extent, locator.offset)? else {
        unreachable!()
    };
    let standing = Standing {
        extent: locator.extent,
        offset: locator.offset,
        form: head.form,
        uuid: locator.uuid,
        length: locator.length,
        digest: locator.digest,
    };
    read_payload(alloc, disk, &standing)
}

/// The run in the chunk that a locator names, if the chunk is there, or why it isn't one.
fn run_in_chunk<D: PageSource>(
    alloc: Global,
    disk: &D,
    locator: &Locator,
) -> Result<(Option<Run>, RunState), OutOfMemory>
    requires { StandsThere (D.image disk.now) locator.now }
    ensures { IfOk result (λ r. IsStateOf (D.image disk.now) locator.now r.0 r.1) }
{
    let payload = payload_at(alloc, disk, locator)?;
    match read_run(alloc, &payload) {
        Ok(run) => Ok((Some(run), RunState::Read)),
        Err(RunFault::NotARun) => Ok((None, RunState::NotARun)),
        Err(RunFault::OutOfMemory) => Err(OutOfMemory),
    }
}

/// An index run that was looked for: the run, what became of it, and the status of its locator.
#[derive(Drop)]
pub(crate) struct RunWithStatus {
    run: Option<Run>,
    state: RunState,
    status: Status,
}

/// The run that a locator names, what became of it, and the status of the locator.
fn run_with_status<D: PageSource>(
    alloc: Global,
    disk: &D,
    plan: &Plan,
    all: &AllFindings<'_, D>,
    locator: &Locator,
) -> Result<RunWithStatus, OutOfMemory>
    requires { IsWholeScan (D.image disk.now) plan.now all.now.extents }
    ensures { IfOk result (IsRunWithStatus (D.image disk.now) plan.now locator.now) }
{
    let status = status_of(alloc, disk, plan, all, locator)?;
    match status {
        Status::Sound | Status::Hidden => {
            let (run, state) = run_in_chunk(alloc, disk, locator)?;
            Ok(RunWithStatus { run, state, status })
        }
        _ => Ok(RunWithStatus {
            run: None,
            state: RunState::BadChunk(status),
            status,
        }),
    }
}

/// These runs, what became of each, and the statuses of their locators, in three lists.
fn unzip_runs(
    alloc: Global,
    judged: Vec<RunWithStatus>,
) -> Result<(Vec<Option<Run>>, Vec<RunState>, Vec<Status>), OutOfMemory>
    ensures runs { IfOk result (λ r. r.0.items ≡ list_map (λ one. one.run) judged.items) }
    ensures states { IfOk result (λ r. r.1.items ≡ list_map (λ one. one.state) judged.items) }
    ensures statuses { IfOk result (λ r. r.2.items ≡ list_map (λ one. one.status) judged.items) }
{
    let mut runs = Vec::with_capacity(alloc, judged.len())?;
    let mut states = Vec::with_capacity(alloc, judged.len())?;
    let mut statuses = Vec::with_capacity(alloc, judged.len())?;
    for one in judged {
        runs.push(one.run)?;
        states.push(one.state)?;
        statuses.push(one.status)?;
    }
    Ok((runs, states, statuses))
}

/// The index runs that a plan names, each read if its chunk is there and its payload is a run.
pub fn read_runs<D: PageSource>(
    alloc: Global,
    disk: &D,
    plan: &Plan,
    all: &AllFindings<'_, D>,
) -> Result<ReadRuns, OutOfMemory>
    requires { IsWholeScan (D.image disk.now) plan.now all.now.extents }
    ensures { IfOk result (AreReadRuns (D.image disk.now) plan.now) }
{
    let locators = plan.runs();
    let mut judged = Vec::with_capacity(alloc, locators.len())?;
    for locator in locators {
        let one = run_with_status(alloc, disk, plan, all, locator)?;
        judged.push(one)?;
    }
    let (runs, states, _) = unzip_runs(alloc, judged)?;
    Ok(ReadRuns { runs, states })
}

/// What `read_runs` gives, and the status of each run's locator, by as many threads as there are processors
/// at most. Each holds one payload at a time.
pub fn read_all_runs<R: Threads + Sync, D: PageSource>(
    rt: &R,
    alloc: Global,
    disk: &D,
    plan: &Plan,
    all: &AllFindings<'_, D>,
) -> Result<(ReadRuns, Vec<Status>), OutOfMemory>
    requires { IsWholeScan (D.image disk.now) plan.now all.now.extents }
    ensures runs { IfOk result (λ r. AreReadRuns (D.image disk.now) plan.now r.0) }
    ensures statuses { IfOk result (λ r. AreRunStatuses (D.image disk.now) plan.now r.1.items) }
{
    let locators = plan.runs();
    let judged = locators
        .par_iter()
        .with_min_len(locators.len().div_ceil(current_num_threads(rt)))
        .map(
            |locator: &Locator| -> Result<RunWithStatus, OutOfMemory>
                requires { IsWholeScan (D.image disk.now) plan.now all.now.extents }
                ensures { IfOk result (IsRunWithStatus (D.image disk.entry.now) plan.entry.now locator.now) }
            { run_with_status(alloc, disk, plan, all, locator) },
        )
        .collect::<Result<Vec<RunWithStatus>, OutOfMemory>>(rt, alloc)??;
    let (runs, states, statuses) = unzip_runs(alloc, judged)?;
    Ok((ReadRuns { runs, states }, statuses))
}

/// A law: what is said of a run together with what became of it is what is said of both apart.
pub fn runs_and_states_apart()
    ensures one { (image : Image) (plan : PlanValue) (locator : Locator) (run : Option (List EntryValue))
        (state : RunState) →
        HasRunIn image plan locator run state
        ↔ IsRunIn image plan locator run × HasRunStateIn image plan locator state }
    ensures all { (image : Image) (plan : PlanValue) (read : ReadRunsValue) →
        AreReadRuns image plan read ↔ AreReadApart image plan read }
{}

/// A law: of the runs that a plan names each was read or is lost.
pub fn each_plan_has_read_runs()
    ensures { (image : Image) (plan : PlanValue) → (read : ReadRunsValue) × AreReadRuns image plan read }
{}
