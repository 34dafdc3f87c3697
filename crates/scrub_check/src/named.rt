//! The locators that a disk names, and who names them. See `status` for their statuses.

ghost use Rattle.std.specs.Prelude.{◌≡◌, ◌<◌, ◌^◌, ◌++◌, ℕ, IfOk, OnErr, OnOk, length, take};
ghost use Rattle.scrub_check.specs.Named.{named_by_runs, named_by_shard, named_locators};

use scrub_disk::OutOfMemory;
use scrub_frame::Locator;
use scrub_merge::{Binding, ShardMap};
use scrub_run::ShardId;
use scrub_super::Plan;
use std::alloc::Global;

/// Who names a locator.
#[derive(Debug, Clone, Copy, PartialEq, Eq)]
pub enum Owner {
    /// The superblock, as that of the index run of this number; run 0 is the newest.
    Run(u32),
    /// The newest binding of this shard.
    Shard(ShardId),
}

/// A locator, and who names it.
#[derive(Debug, Clone, Copy, PartialEq, Eq)]
pub struct Named {
    /// Who names it.
    pub owner: Owner,
    /// The locator.
    pub locator: Locator,
}

/// The locators of index runs, numbered from 0.
pub(crate) fn name_runs(alloc: Global, runs: &[Locator]) -> Result<Vec<Named>, OutOfMemory>
    requires { length runs.now < 2 ^ 32 }
    ensures { IfOk result (λ v. v.items ≡ named_by_runs 0 runs.now) }
{
    let mut named = Vec::with_capacity(alloc, runs.len())?;
    for number in 0..runs.len() {
        named.push(Named {
            owner: Owner::Run(number as u32),
            locator: runs[number],
        })?;
    }
    Ok(named)
}

/// Appends the locators of a shard, in the binding's order. If memory lacks, only the first ones of them are
/// appended.
pub fn name_shard(named: &mut Vec<Named>, binding: &Binding) -> Result<(), OutOfMemory>
    ensures appended { OnOk result (named.new.items ≡ named.old.items ++ named_by_shard binding.now) }
    ensures refused { OnErr result ((count : ℕ) ×
        (named.new.items ≡ named.old.items ++ take count (named_by_shard binding.now))) }
{
    for locator in binding.locators() {
        named.push(Named {
            owner: Owner::Shard(binding.id()),
            locator: *locator,
        })?;
    }
    Ok(())
}

/// The locators of the index runs in their order, lost runs included, and then those of the shard map, by
/// identifier and in the binding's order.
pub fn named_locators(alloc: Global, plan: &Plan, map: &ShardMap) -> Result<Vec<Named>, OutOfMemory>
    ensures { IfOk result (λ v. v.items ≡ named_locators plan.now.runs map.now) }
{
    let mut named = name_runs(alloc, plan.runs())?;
    for binding in map.bindings() {
        name_shard(&mut named, binding)?;
    }
    Ok(named)
}
