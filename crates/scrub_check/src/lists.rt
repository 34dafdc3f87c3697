//! What follows from the statuses: live chunks, orphans, twins, shared places, broken shards and candidates.

pub(crate) mod broken;
pub mod candidate;
pub(crate) mod chunk_uuids;
pub(crate) mod chunks;
pub(crate) mod cursor;
pub(crate) mod drawn;
pub(crate) mod extent_set;
pub mod kept_chunk;
pub(crate) mod live;
pub(crate) mod live_and_orphans;
pub(crate) mod liveness;
pub(crate) mod locator_index;
pub mod place;
pub mod reclaiming;
pub(crate) mod shared_places;
pub(crate) mod sound_places;
pub mod spares;
