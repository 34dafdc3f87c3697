//! The identifiers that are bound on one of two disks.

ghost use Rattle.std.specs.Prelude.{◌≡◌, IfOk, map};
ghost use Rattle.scrub_compare.specs.Compare.{AreBoundIds};

use scrub_disk::OutOfMemory;
use scrub_merge::Binding;
use scrub_run::ShardId;
use std::alloc::Global;

/// The identifiers of bindings, in their order.
fn ids_of(alloc: Global, bindings: &[Binding]) -> Result<Vec<ShardId>, OutOfMemory>
    ensures { IfOk result (λ v. v.items ≡ map (λ b. b.id) bindings.now) }
{
    bindings.iter().map(|binding| binding.id()).collect(alloc)
}

/// The identifiers that are bound on one of two disks, ascending, each once.
pub(crate) fn bound_ids(
    alloc: Global,
    old: &[Binding],
    new: &[Binding],
) -> Result<Vec<ShardId>, OutOfMemory>
    ensures { IfOk result (λ v. AreBoundIds old.now new.now v.items) }
{
    let mut ids = ids_of(alloc, old)?;
    ids.extend_from_slice(&ids_of(alloc, new)?)?;
    ids.sort()?;
    ids.dedup();
    Ok(ids)
}
