//! The shards with a dangling locator.

ghost use Rattle.std.specs.Prelude.{◌≡◌, IfOk, List};
ghost use Rattle.std.specs.List.{filter_map};
ghost use Rattle.scrub_run.specs.declared.shard_id.ShardId.{ShardId};
ghost use Rattle.scrub_check.specs.declared.statuses.checked.Checked.{Checked};
ghost use Rattle.scrub_check.specs.Checked.{AreBrokenShards};
ghost use Rattle.scrub_check.specs.steps.BrokenShards.{broken_owner};

use crate::named::Owner;
use crate::statuses::checked::Checked;
use scrub_disk::OutOfMemory;
use scrub_run::ShardId;
use std::alloc::Global;

/// The shard that names a locator, if the locator dangles.
fn broken_owner(one: &Checked) -> Option<ShardId>
    ensures { result ≡ broken_owner one.now }
{
    match one.owner {
        Owner::Shard(id) if one.status.is_dangling() => Some(id),
        _ => None,
    }
}

/// The shards that name the dangling ones of these locators, in their order; a shard is there once for each.
fn broken_owners(alloc: Global, checked: &[Checked]) -> Result<Vec<ShardId>, OutOfMemory>
    ensures { IfOk result (λ v. v.items ≡ filter_map broken_owner checked.now) }
{
    checked
        .iter()
        .filter_map(|one| broken_owner(one))
        .collect(alloc)
}

/// The shards with a dangling locator, by identifier, each once.
pub fn broken_shards(alloc: Global, checked: &[Checked]) -> Result<Vec<ShardId>, OutOfMemory>
    ensures { IfOk result (λ v. AreBrokenShards checked.now v.items) }
{
    let mut shards = broken_owners(alloc, checked)?;
    shards.sort()?;
    shards.dedup();
    Ok(shards)
}

/// A law: there is one list of broken shards at most.
pub fn one_list_of_broken_shards()
    ensures { (checked : List Checked) (ids others : List ShardId) →
        AreBrokenShards checked ids → AreBrokenShards checked others → ids ≡ others }
{}

/// A law: there is a list of broken shards. With `one_list_of_broken_shards`, there is exactly one.
pub fn each_scan_has_broken_shards()
    ensures { (checked : List Checked) → (ids : List ShardId) × AreBrokenShards checked ids }
{}
