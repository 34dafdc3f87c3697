//! For tests: raw images, writers and page sources that misbehave or count, builders that put bytes, chunks
//! and records on disks in memory, the worked disks of the format's description, and published reports.
#![tactic(auto)]

pub mod disk;
pub mod payloads;
pub mod published;
pub mod raw;
pub mod samples;
pub mod source;
pub mod worked;
pub mod writer;

pub use disk::{
    Misfit, mark_bad, plan_of, put, put_chunk, put_contents, put_record, put_sealed,
    put_superblock, run_of, small_disk, small_geometry,
};
pub use raw::RawBytes;
pub use samples::{
    ABC_DIGEST, ENDS_IN_MAGIC, FOURS, ONES, SHARD, THREES, TWOS, abc_at, shard_numbered, shard_of,
};
pub use source::CountingSource;
pub use std::alloc::AllocError as OutOfMemory;
pub use writer::NarrowWriter;
