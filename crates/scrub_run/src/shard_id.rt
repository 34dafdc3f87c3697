//! Identifiers of shards. For what an identifier is bound to, see `entry`.

ghost use Rattle.std.specs.Prelude.{◌↔◌, IsTrue};

/// The identifier of a shard: any sixteen bytes. Identifiers are ordered as bytes, the first byte first.
#[derive(Debug, Clone, Copy, PartialEq, Eq, PartialOrd, Ord)]
pub struct ShardId(pub [u8; 16]);

ghost use Rattle.scrub_run.specs.Entry.{IsBelow};

/// Whether an identifier is less than another.
pub(crate) fn is_below(first: ShardId, second: ShardId) -> bool
    ensures { IsTrue result ↔ IsBelow first second }
{
    first < second
}
