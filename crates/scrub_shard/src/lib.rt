//! The bytes of one shard of a disk, or of all its shards: the payloads of a shard's chunks, each from its
//! own place, from a spare or from a loose copy.
#![tactic(auto)]

pub mod archiving;
mod payloads;
pub mod shard;
mod tar;

pub use archiving::{
    Archive, Remark, a_partial_archive_has_each_payload, a_partial_archive_without_losses,
    an_archive_has_each_shard, each_image_has_an_archive, one_archive, read_shards,
};
pub use shard::{
    ShardAnswer, ShardBytes, ShardReading, a_lost_payload_is_nowhere,
    a_lost_payload_is_on_no_extent, bytes_are_as_the_entry_says, each_shard_has_an_answer,
    one_shard_answer, read_shard, the_own_list_gives_each_shard,
    the_own_list_gives_the_same_answers,
};
