//! Searches bytes, with some blocks lost, for records. Each multiple of 64 is judged by itself.
//!
//! A forged file can't make the search hash much, since a record is hashed only if its fields are in range.
//! The numbers of such a record (pointers and retired extents) can't contain the first bytes of another
//! record: read as a number, `SSB1` or `SSB2` is above each range, and so is a number that begins with its
//! last two bytes, as in records of the first kind. So the numbers of hashed records don't overlap, and have
//! at most 67,108,864 bytes together. In addition each record has 28 bytes before its numbers and at most
//! 1,920 bytes of locators. Records begin at no more than 196,608 places, since a page has to be larger than
//! offset / 65,536: 65,536 places below 4 MiB, and 32,768 from each of 4, 8, 16 and 32 MiB up to twice as
//! much. In all, fewer than 451 million bytes are hashed.

ghost use Rattle.std.specs.Prelude.{◌≡◌, ◌+◌, ◌*◌, ◌%◌, ◌<◌, ◌≤◌, ◌^◌, ◌++◌, ℕ, Option, Some, IfOk, IfSome};
ghost use Rattle.std.specs.Prelude.{OnOk, length, option_to_list};
ghost use Rattle.scrub_disk.specs.declared.geometry.Geometry.{Geometry};
ghost use Rattle.scrub_super.specs.declared.unknown_sizes.FoundRecord.{FoundRecord};
ghost use Rattle.scrub_super.specs.UnknownSizes.{AreFoundRecords};
ghost use Rattle.scrub_super.specs.Blocks.{AreBlockMarks, byte_left};
ghost use Rattle.scrub_super.specs.steps.BlocksRead.{IsReadableTo, TellsRecord};
ghost use Rattle.scrub_super.specs.Contents.{Contents};
ghost use Rattle.scrub_super.specs.Record.{BeginsWithRecord};

use crate::kind::RecordKind;
use crate::record::record_at;
use crate::unknown_sizes::FoundRecord;
use crate::unknown_sizes::blocks::BLOCK_BYTES;
use byteorder::{BigEndian, ByteOrder};
use scrub_disk::{Geometry, OutOfMemory};
use std::alloc::Global;

/// The sizes in the record that the bytes begin with, if they begin with one. The letters of a kind rule out
/// nearly all other bytes.
fn sizes_in(bytes: &[u8]) -> Option<Geometry>
    ensures { (g : Geometry) (c : Contents) → BeginsWithRecord g bytes.now c → result ≡ Some g }
{
    let front = bytes.first_chunk::<26>()?;
    RecordKind::at(front)?;
    let page = BigEndian::read_u32(&front[12..16]);
    let pages = BigEndian::read_u32(&front[16..20]);
    let extents = BigEndian::read_u32(&front[20..24]);
    Geometry::new(page, pages, extents).ok()
}

/// How many of `len` bytes from an offset on are in extent 0. None if no page begins at the offset.
fn room_at(offset: u32, len: usize, geometry: Geometry) -> usize
    ensures within { result ≤ len }
    ensures page_bound { 0 < result → offset % geometry.page ≡ 0 }
    ensures inside { 0 < result → offset + result ≤ geometry.page * geometry.pages }
    ensures all { (n : ℕ) → n ≤ len → offset % geometry.page ≡ 0 →
        offset + n ≤ geometry.page * geometry.pages → n ≤ result }
{
    if offset % geometry.page() != 0 || offset >= geometry.extent_bytes() {
        return 0;
    }
    len.min((geometry.extent_bytes() - offset) as usize)
}

/// The record that the bytes begin with, judged by its own sizes, if there is one. `offset` is their place in
/// the image.
fn record_from(bytes: &[u8], offset: u32) -> Option<FoundRecord>
    ensures found { IfSome result (TellsRecord bytes.now offset) }
    ensures only { (r : FoundRecord) → TellsRecord bytes.now offset r → result ≡ Some r }
{
    let geometry = sizes_in(bytes)?;
    let room = room_at(offset, bytes.len(), geometry);
    let head = record_at(&bytes[..room], geometry)?;
    Some(FoundRecord {
        offset,
        kind: RecordKind::of(head.retired),
        generation: head.generation,
        geometry,
    })
}

/// The end of the readable bytes from an offset on: the first lost block, or the end of the bytes. `known` is
/// the answer for a lower offset; if it is above this offset, it is the answer here too.
fn readable_end(bytes: &[u8], lost: &[bool], offset: usize, known: usize) -> usize
    requires marks { AreBlockMarks bytes.now lost.now }
    requires within { offset ≤ length bytes.now }
    requires known { offset < known → IsReadableTo (length bytes.now) lost.now offset known }
    ensures { IsReadableTo (length bytes.now) lost.now offset result }
{
    if offset < known {
        return known;
    }
    for block in offset / BLOCK_BYTES..lost.len() {
        if lost[block] {
            return offset.max(block * BLOCK_BYTES);
        }
    }
    bytes.len()
}

/// Adds a record, if there is one.
fn add_record(found: &mut Vec<FoundRecord>, one: Option<FoundRecord>) -> Result<(), OutOfMemory>
    ensures { OnOk result (found.new.items ≡ found.old.items ++ option_to_list one) }
{
    if let Some(one) = one {
        found.push(one)?;
    }
    Ok(())
}

/// All records in the front of a raw image, in ascending order of offset.
pub(crate) fn find_records(
    alloc: Global,
    bytes: &[u8],
    lost: &[bool],
) -> Result<Vec<FoundRecord>, OutOfMemory>
    requires { AreBlockMarks bytes.now lost.now }
    ensures { IfOk result (λ v. AreFoundRecords (byte_left bytes.now lost.now) v.items) }
{
    let mut found = Vec::new(alloc);
    let mut end = 0;
    for slot in 0..bytes.len().div_ceil(64) {
        let offset = slot * 64;
        end = readable_end(bytes, lost, offset, end);
        add_record(&mut found, record_from(&bytes[offset..end], offset as u32))?;
    }
    Ok(found)
}
