//! Frames of both forms, appended and compared with their bytes field by field.

use crate::calls::Trial;
use crate::ending::{Stop, Wanted, refused, right};
use scrub_fakes::payloads::one_shard_payload;
use scrub_fakes::{ABC_DIGEST, ONES, TWOS};
use scrub_frame::FrameFault;
use std::alloc::Global;
use std::io::Write;
use uuid::Uuid;

/// What a list has before a frame is appended.
const BEFORE: [u8; 1] = [7];

/// `BEFORE`, and after it the frame with these first two bytes, this UUID and this payload. A sealed frame
/// has a seal before the payload and a mark at the end; a plain one has neither.
fn framed(
    alloc: Global,
    magic: [u8; 2],
    uuid: [u8; 16],
    seal: &[u8],
    payload: &[u8],
    mark: &[u8],
) -> Result<Vec<u8>, Stop> {
    let length = u32::try_from(payload.len()).map_err(|_| Stop::Wrong)?;
    let mut bytes = Vec::from_slice(alloc, &BEFORE)?;
    bytes.extend_from_slice(&magic)?;
    bytes.extend_from_slice(&uuid)?;
    bytes.extend_from_slice(&length.to_be_bytes())?;
    bytes.extend_from_slice(seal)?;
    bytes.extend_from_slice(payload)?;
    bytes.extend_from_slice(&uuid)?;
    bytes.extend_from_slice(mark)?;
    Ok(bytes)
}

/// The outcome of appending to `BEFORE`. A refusal leaves the list as it was.
fn appended(answer: Result<(), FrameFault>, out: &[u8]) -> Result<(), Stop> {
    match answer {
        Ok(()) => Ok(()),
        Err(FrameFault::OutOfMemory) => refused(out == BEFORE.as_slice()),
        Err(FrameFault::TooLong) => Err(Stop::Wrong),
    }
}

/// The frame of `abc`, and that of the run of one shard.
pub fn write_frame(alloc: Global, wanted: Wanted) -> Result<(), Stop> {
    let run = one_shard_payload(alloc)?;
    let abc_frame = framed(alloc, [0xC5, 0x5E], ONES, &[], b"abc", &[])?;
    let run_frame = framed(alloc, [0xC5, 0x5E], TWOS, &[], &run, &[])?;
    let mut abc_out = Vec::from_slice(alloc, &BEFORE)?;
    let mut run_out = Vec::from_slice(alloc, &BEFORE)?;
    wanted.made()?;
    let answer = scrub_frame::write_frame(&mut abc_out, Uuid::from_bytes(ONES), b"abc");
    appended(answer, &abc_out)?;
    let answer = scrub_frame::write_frame(&mut run_out, Uuid::from_bytes(TWOS), &run);
    appended(answer, &run_out)?;
    right(abc_out.as_slice() == abc_frame.as_slice() && run_out.as_slice() == run_frame.as_slice())
}

/// The sealed frame of `abc`.
pub fn write_sealed(alloc: Global, wanted: Wanted) -> Result<(), Stop> {
    let magic = [0xC5, 0x5F];
    let frame = framed(alloc, magic, ONES, &ABC_DIGEST, b"abc", &[0x3A, 0xA3])?;
    let mut out = Vec::from_slice(alloc, &BEFORE)?;
    wanted.made()?;
    let answer = scrub_frame::write_sealed(&mut out, Uuid::from_bytes(ONES), b"abc");
    appended(answer, &out)?;
    right(out.as_slice() == frame.as_slice())
}

/// The calls of this module.
pub fn calls<O: Write>(alloc: Global, trial: &mut Trial<'_, O>) {
    made!(trial, "write_frame", "", wanted => write_frame(alloc, wanted));
    made!(trial, "write_sealed", "", wanted => write_sealed(alloc, wanted));
}
