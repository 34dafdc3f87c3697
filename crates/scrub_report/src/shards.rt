//! What the report says of the shard map: how many shards it has, and which of them are doubtful.

ghost use Rattle.std.specs.Prelude.{◌≡◌, IfOk};
ghost use Rattle.scrub_report.specs.steps.Lists.{AreShardsOf, doubtful_ids};

use scrub_disk::OutOfMemory;
use scrub_merge::{Binding, ShardMap};
use scrub_run::ShardId;
use std::alloc::Global;

/// What the report says of a shard map.
#[derive(Drop)]
pub(crate) struct Shards {
    /// How many shards it has.
    pub count: usize,
    /// Those whose binding is doubtful, in the order of the bindings.
    pub doubtful: Vec<ShardId>,
}

/// The shards whose binding is doubtful, in the order of the bindings.
fn doubtful_ids(alloc: Global, bindings: &[Binding]) -> Result<Vec<ShardId>, OutOfMemory>
    ensures { IfOk result (λ ids. ids.items ≡ doubtful_ids bindings.now) }
{
    bindings
        .iter()
        .filter(|binding| binding.doubtful())
        .map(|binding| binding.id())
        .collect(alloc)
}

/// What the report says of this shard map.
pub(crate) fn shards_of(alloc: Global, map: &ShardMap) -> Result<Shards, OutOfMemory>
    ensures { IfOk result (AreShardsOf map.now) }
{
    let bindings = map.bindings();
    Ok(Shards {
        count: bindings.len(),
        doubtful: doubtful_ids(alloc, bindings)?,
    })
}
