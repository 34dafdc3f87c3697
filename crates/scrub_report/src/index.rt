//! The recovered index: the run of the shards of the map that aren't broken, written from the bindings.

ghost use Rattle.std.specs.Prelude.{◌≡◌, ◌+◌, ◌*◌, ◌++◌, ◌≤◌, ◌<◌, ◌^◌, ◌↔◌, All, AllPairs, Contains, IfOk};
ghost use Rattle.std.specs.Prelude.{IsTrue, List, OnOk, length, not};
ghost use Rattle.std.specs.List.{flat_map};
ghost use Rattle.scrub_run.specs.Entry.{IsBelow};
ghost use Rattle.scrub_run.specs.Run.{run_bytes};
ghost use Rattle.scrub_run.specs.steps.Parts.{entry_bytes, run_body};
ghost use Rattle.scrub_check.specs.declared.statuses.checked.Checked.{Checked};
ghost use Rattle.scrub_check.specs.Checked.{AreBrokenShards, is_broken};
ghost use Rattle.scrub_report.specs.Index.{index_entries};
ghost use Rattle.scrub_report.specs.steps.IndexLocators.{all_locators};

use scrub_disk::OutOfMemory;
use scrub_merge::{Binding, ShardMap};
use scrub_run::{RunWriter, ShardId};
use std::alloc::Global;

/// Whether these shards have this one, by binary search.
fn is_among(ids: &[ShardId], id: ShardId) -> bool
    requires { AllPairs IsBelow ids.now }
    ensures { IsTrue result ↔ Contains ids.now id }
{
    ids.binary_search_by_key(&id, |other| *other).is_ok()
}

/// Whether a binding's shard isn't broken.
fn is_kept(binding: &Binding, broken: &[ShardId]) -> bool
    requires { AllPairs IsBelow broken.now }
    ensures { (checked : List Checked) → AreBrokenShards checked broken.now →
        result ≡ not (is_broken checked binding.now.id) }
{
    !is_among(broken, binding.id())
}

/// How many shards aren't broken, and how many locators they have together.
fn kept_sizes(bindings: &[Binding], broken: &[ShardId]) -> (usize, usize)
    requires sorted { AllPairs IsBelow broken.now }
    requires few { All (λ b. length b.locators ≤ 64) bindings.now }
    requires count { length bindings.now < 2 ^ 32 }
    ensures few { result.0 ≤ length bindings.now }
    ensures bound { result.1 ≤ 64 * result.0 }
    ensures entries { (checked : List Checked) → AreBrokenShards checked broken.now →
        result.0 ≡ length (index_entries checked bindings.now) }
    ensures locators { (checked : List Checked) → AreBrokenShards checked broken.now →
        result.1 ≡ length (all_locators (index_entries checked bindings.now)) }
{
    let mut entries = 0;
    let mut locators = 0;
    for binding in bindings {
        if is_kept(binding, broken) {
            entries += 1;
            locators += binding.locators().len();
        }
    }
    (entries, locators)
}

/// Appends the entries of the shards that aren't broken, in their order.
fn append_kept(
    run: &mut RunWriter,
    bindings: &[Binding],
    broken: &[ShardId],
) -> Result<(), OutOfMemory>
    requires sorted { AllPairs IsBelow broken.now }
    requires few { All (λ b. length b.locators ≤ 64) bindings.now }
    ensures { (checked : List Checked) → AreBrokenShards checked broken.now →
        OnOk result (run.new ≡ run.old ++ flat_map entry_bytes (index_entries checked bindings.now)) }
{
    for binding in bindings {
        if is_kept(binding, broken) {
            run.append(binding.entry())?;
        }
    }
    Ok(())
}

/// The recovered index but for its digest, in a buffer with room for just the whole. The shard map is freed.
fn begun_index(alloc: Global, map: ShardMap, broken: &[ShardId]) -> Result<RunWriter, OutOfMemory>
    requires sorted { AllPairs IsBelow broken.now }
    requires few { All (λ b. length b.locators ≤ 64) map }
    requires count { length map < 2 ^ 32 }
    ensures { (checked : List Checked) → AreBrokenShards checked broken.now →
        IfOk result (λ run. run ≡ run_body (index_entries checked map)) }
{
    let bindings = map.bindings();
    let (entries, locators) = kept_sizes(bindings, broken);
    let mut run = RunWriter::new(alloc, entries as u32, locators)?;
    append_kept(&mut run, bindings, broken)?;
    Ok(run)
}

/// The bytes of the recovered index. The shard map is freed before they are hashed.
pub(crate) fn index_bytes(
    alloc: Global,
    map: ShardMap,
    broken: &[ShardId],
) -> Result<Vec<u8>, OutOfMemory>
    requires sorted { AllPairs IsBelow broken.now }
    requires few { All (λ b. length b.locators ≤ 64) map }
    requires count { length map < 2 ^ 32 }
    ensures { (checked : List Checked) → AreBrokenShards checked broken.now →
        IfOk result (λ bytes. bytes.items ≡ run_bytes (index_entries checked map)) }
{
    let run = begun_index(alloc, map, broken)?;
    run.finish()
}
