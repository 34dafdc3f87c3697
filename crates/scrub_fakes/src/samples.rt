//! Samples: UUIDs, digests and identifiers, as the format's description has them.

ghost use Rattle.std.specs.Prelude.{◌≡◌, List, replicate};

use scrub_frame::Locator;
use scrub_run::ShardId;
use uuid::Uuid;

/// The SHA-256 of `abc`, as FIPS 180-4 gives it.
pub const ABC_DIGEST: [u8; 32] = [
    0xba, 0x78, 0x16, 0xbf, 0x8f, 0x01, 0xcf, 0xea, 0x41, 0x41, 0x40, 0xde, 0x5d, 0xae, 0x22, 0x23,
    0xb0, 0x03, 0x61, 0xa3, 0x96, 0x17, 0x7a, 0x9c, 0xb4, 0x10, 0xff, 0x61, 0xf2, 0x00, 0x15, 0xad,
];

/// The UUID of sixteen bytes 11.
pub const ONES: [u8; 16] = [0x11; 16];

/// The UUID of sixteen bytes 22.
pub const TWOS: [u8; 16] = [0x22; 16];

/// The UUID of sixteen bytes 33.
pub const THREES: [u8; 16] = [0x33; 16];

/// The UUID of sixteen bytes 44.
pub const FOURS: [u8; 16] = [0x44; 16];

/// The UUID of fourteen bytes 33 and the magic of a frame.
pub const ENDS_IN_MAGIC: [u8; 16] = [
    0x33, 0x33, 0x33, 0x33, 0x33, 0x33, 0x33, 0x33, 0x33, 0x33, 0x33, 0x33, 0x33, 0x33, 0xC5, 0x5E,
];

/// The identifier of fifteen zero bytes and 01.
pub const SHARD: ShardId = ShardId([0, 0, 0, 0, 0, 0, 0, 0, 0, 0, 0, 0, 0, 0, 0, 1]);

/// The identifier of fifteen zero bytes and this one.
pub fn shard_of(last: u8) -> ShardId {
    let mut bytes = [0; 16];
    bytes[15] = last;
    ShardId(bytes)
}

/// The identifier of twelve zero bytes and a big-endian number.
pub fn shard_numbered(number: u32) -> ShardId {
    let mut bytes = [0; 16];
    bytes[12..].copy_from_slice(&number.to_be_bytes());
    ShardId(bytes)
}

/// The locator of the frame of `abc` and `ONES` at a place.
pub fn abc_at(extent: u32, offset: u32) -> Locator
    ensures place { (result.extent ≡ extent) × (result.offset ≡ offset) }
    ensures payload { (result.length ≡ 3) × (result.uuid ≡ ONES) × (result.digest ≡ ABC_DIGEST) }
{
    Locator {
        extent,
        offset,
        length: 3,
        uuid: Uuid::from_bytes(ONES),
        digest: ABC_DIGEST,
    }
}
