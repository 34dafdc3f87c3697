//! The report's keys and their values, in the order of the keys.

ghost use Rattle.std.specs.Prelude.{◌≡◌, ◌++◌, OnOk};
ghost use Rattle.scrub_report.specs.steps.Tokens.{first_keys, last_keys, members_tokens, middle_keys};

use crate::json_values::{WriteJson, write_list};
use crate::listed::Listed;
use crate::object::write_members;
use crate::sizes::{write_geometry, write_super};
use json::Writer;
use scrub_check::{Candidate, Checked, Place, SharedPlace};
use scrub_disk::{Geometry, OutOfMemory, PageSource};
use scrub_found::RunRow;
use scrub_run::ShardId;
use scrub_super::Chosen;
use std::alloc::Global;

/// The value of a key.
#[derive(Clone, Copy)]
pub(crate) enum KeyValue<'a> {
    /// The extents that can be reclaimed.
    Candidates(&'a [Candidate]),
    /// A number of elements.
    Count(usize),
    /// `true` or `false`.
    Flag(bool),
    /// The sizes of the disk.
    Geometry(Geometry),
    /// Shards.
    Ids(&'a [ShardId]),
    /// Dangling or hidden locators.
    Locators(&'a [Checked]),
    /// Numbers of extents.
    Numbers(&'a [u32]),
    /// Chunks.
    Places(&'a [Place]),
    /// The index runs.
    Runs(&'a [RunRow]),
    /// Places with more than one locator.
    Shared(&'a [SharedPlace]),
    /// The choice of the superblock that counts.
    Super(&'a Chosen),
}

impl WriteJson for KeyValue<'_> {
    ghost use Rattle.scrub_report.specs.steps.Values.{key_data};

    ghost shown = { key_data };

    fn write_json(&self, alloc: Global, out: &mut Writer) -> Result<(), OutOfMemory> {
        match self {
            KeyValue::Candidates(candidates) => write_list(alloc, out, candidates),
            KeyValue::Count(count) => out.u64(*count as u64),
            KeyValue::Flag(flag) => out.boolean(*flag),
            KeyValue::Geometry(geometry) => write_geometry(alloc, out, *geometry),
            KeyValue::Ids(ids) => write_list(alloc, out, ids),
            KeyValue::Locators(locators) => write_list(alloc, out, locators),
            KeyValue::Numbers(numbers) => write_list(alloc, out, numbers),
            KeyValue::Places(places) => write_list(alloc, out, places),
            KeyValue::Runs(runs) => write_list(alloc, out, runs),
            KeyValue::Shared(places) => write_list(alloc, out, places),
            KeyValue::Super(chosen) => write_super(alloc, out, chosen),
        }
    }
}

/// Writes the keys before `extents`.
pub(crate) fn write_keys_before_extents<'a, D: PageSource>(
    alloc: Global,
    out: &mut Writer,
    listed: &'a Listed<'_, D>,
    broken: &'a [ShardId],
    clean: bool,
) -> Result<(), OutOfMemory>
    ensures tokens { OnOk result (out.new.tokens ≡ out.old.tokens ++
        members_tokens (first_keys listed.now broken.now clean)) }
    ensures before { out.new.before ≡ out.old.before }
{
    write_members(
        alloc,
        out,
        &[
            ("broken", KeyValue::Ids(broken)),
            (
                "candidates",
                KeyValue::Candidates(&listed.liveness.candidates),
            ),
            ("clean", KeyValue::Flag(clean)),
            ("dangling", KeyValue::Locators(&listed.dangling)),
            ("doubtful", KeyValue::Ids(&listed.shards.doubtful)),
        ],
    )
}

/// Writes the keys between `extents` and `orphans`.
pub(crate) fn write_middle<D: PageSource>(
    alloc: Global,
    out: &mut Writer,
    listed: &Listed<'_, D>,
) -> Result<(), OutOfMemory>
    ensures tokens { OnOk result (out.new.tokens ≡ out.old.tokens ++
        members_tokens (middle_keys listed.now)) }
    ensures before { out.new.before ≡ out.old.before }
{
    write_members(
        alloc,
        out,
        &[
            ("geometry", KeyValue::Geometry(listed.scan.plan.geometry())),
            ("hidden", KeyValue::Locators(&listed.hidden)),
        ],
    )
}

/// Writes the keys after `orphans`.
pub(crate) fn write_keys_after_extents<D: PageSource>(
    alloc: Global,
    out: &mut Writer,
    listed: &Listed<'_, D>,
) -> Result<(), OutOfMemory>
    ensures tokens { OnOk result (out.new.tokens ≡ out.old.tokens ++ members_tokens (last_keys listed.now)) }
    ensures before { out.new.before ≡ out.old.before }
{
    let plan = &listed.scan.plan;
    write_members(
        alloc,
        out,
        &[
            ("retired", KeyValue::Numbers(plan.retired())),
            ("runs", KeyValue::Runs(&listed.runs)),
            ("shards", KeyValue::Count(listed.shards.count)),
            ("shared", KeyValue::Shared(&listed.liveness.shared)),
            ("super", KeyValue::Super(&listed.scan.chosen)),
            ("twins", KeyValue::Places(&listed.twins)),
        ],
    )
}
