//! Reads and writes the bytes of chunk frames and locators, and computes digests of payloads. A frame holds a
//! chunk's payload on disk; a locator names a chunk by its place, length, UUID and digest. Nothing here knows
//! of disks or pages.
#![tactic(auto)]

pub mod digest;
pub mod form;
pub mod frame;
pub mod locator;
pub mod matcher;
pub mod writing;

pub use digest::{DIGEST_BYTES, digest_of};
pub use form::{CLOSE_BYTES, Form, HEAD_BYTES, LEAST_OVERHEAD};
pub use frame::{
    Frame, Head, bytes_besides_the_payload, no_frame_begins_another, one_frame, read_frame,
    read_head,
};
pub use locator::{
    LOCATOR_BYTES, Locator, append_locators, locate, one_locator, put_part, read_locator,
    read_locators, write_locator,
};
pub use matcher::{Fed, Matcher};
pub use std::alloc::AllocError as OutOfMemory;
pub use writing::{FrameFault, append, write_frame, write_sealed};
