//! The argument for a shard's identifier.

ghost use Rattle.std.specs.Prelude.{MatchOption};
ghost use Rattle.scrub_args.specs.ShardId.{IsIdText, IsNoIdText};

use hex::FromHex;
use scrub_run::ShardId;

/// Parses an identifier: 32 hexadecimal digits, in either case.
pub fn shard_id(arg: &str) -> Option<ShardId>
    ensures { MatchOption result (IsNoIdText arg.now) (IsIdText arg.now) }
{
    match <[u8; 16] as FromHex>::from_hex(arg) {
        Ok(bytes) => Some(ShardId(bytes)),
        Err(_) => None,
    }
}
