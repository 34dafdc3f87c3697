//! Reads and writes superblock records. `choosing` finds them on a disk.

ghost use Rattle.std.specs.Prelude.{◌≡◌, ◌+◌, ◌*◌, ◌-◌, ◌≤◌, ◌<◌, ◌^◌, ◌++◌, ◌↔◌, ℕ, List, [], Option};
ghost use Rattle.std.specs.Prelude.{IsTrue, IfSome, IfNone, IfOk, All, take, drop, length, vec_len};
ghost use Rattle.std.specs.Prelude.{vec_capacity, option_map, OnOk, OnErr};
ghost use Rattle.std.specs.List.{flat_map};
ghost use Rattle.std.specs.Option.{unwrap_or};
ghost use Rattle.scrub_frame.specs.Frame.{digest_size};
ghost use Rattle.byteorder.specs.Endian.{big_bytes};
ghost use Rattle.sha2.specs.Sha256.{sha256};
ghost use Rattle.scrub_frame.specs.Locator.{IsLocator};
ghost use Rattle.scrub_disk.specs.declared.geometry.Geometry.{Geometry};
ghost use Rattle.scrub_super.specs.Contents.{Contents};
ghost use Rattle.scrub_super.specs.Planned.{AreRetired};
ghost use Rattle.scrub_super.specs.Record.{BeginsWithRecord, record_bytes};
ghost use Rattle.scrub_super.specs.steps.Limits.{ArePointers};
ghost use Rattle.scrub_super.specs.steps.RecordRead.{record_body, BeginsWithSome, SpellExtents};
ghost use Rattle.scrub_super.specs.steps.RecordRead.{body_size, digest_place};
ghost use Rattle.scrub_super.specs.steps.RecordRead.{number_in, pointer_bytes, retired_bytes};
ghost use Rattle.scrub_super.specs.steps.RecordRead.{retired_count, run_locator_bytes};

pub use crate::head::MAX_RUNS;
use crate::head::{Head, append_head, body_len, head_len, head_of, read_head};
use crate::superblock::Superblock;
use byteorder::{BigEndian, ByteOrder};
use scrub_disk::{Geometry, OutOfMemory};
use scrub_frame::{DIGEST_BYTES, LOCATOR_BYTES, append, append_locators, digest_of, read_locators};
use std::alloc::Global;

/// Whether each four-byte number is at most `most`.
fn are_within(bytes: &[u8], most: u32) -> bool
    ensures { IsTrue result ↔ ((k : ℕ) → 4 * k + 4 ≤ length bytes.now → number_in bytes.now k ≤ most) }
{
    for i in 0..bytes.len() / 4 {
        if BigEndian::read_u32(&bytes[4 * i..]) > most {
            return false;
        }
    }
    true
}

/// Whether the four-byte numbers are ascending, from 1 up to less than `extents`.
fn are_extents(bytes: &[u8], extents: u32) -> bool
    ensures { IsTrue result ↔ SpellExtents extents bytes.now }
{
    let mut last = 0;
    for i in 0..bytes.len() / 4 {
        let extent = BigEndian::read_u32(&bytes[4 * i..]);
        if extent <= last || extent >= extents {
            return false;
        }
        last = extent;
    }
    true
}

/// Whether the rest of the bytes begins with the digest of the part before it.
fn has_digest(body: &[u8], rest: &[u8]) -> bool
    requires { digest_size ≤ length rest.now }
    ensures { IsTrue result ↔ (take digest_size rest.now ≡ sha256 body.now) }
{
    digest_of(body).as_slice() == &rest[..DIGEST_BYTES]
}

/// The parts of a record between its head and its digest.
#[derive(Clone, Copy)]
struct RecordParts<'a> {
    pointers: &'a [u8],
    retired: &'a [u8],
    runs: &'a [u8],
}

/// Cuts the parts off the bytes that begin with a record with this head.
fn parts_of(bytes: &[u8], geometry: Geometry, head: Head) -> RecordParts<'_>
    requires { digest_place geometry head.runs head.retired ≤ length bytes.now }
    ensures pointers { result.pointers.now ≡ pointer_bytes geometry head.retired bytes.now }
    ensures retired { result.retired.now ≡ retired_bytes geometry head.retired bytes.now }
    ensures runs { result.runs.now ≡ run_locator_bytes geometry head.runs head.retired bytes.now }
{
    let (_, rest) = bytes.split_at(head_len(head.retired));
    let (pointers, rest) = rest.split_at(4 * (geometry.extents() as usize - 1));
    let (retired, rest) = rest.split_at(4 * head.retired.unwrap_or(0));
    let (runs, _) = rest.split_at(LOCATOR_BYTES * head.runs);
    RecordParts {
        pointers,
        retired,
        runs,
    }
}

/// The head of the record that the bytes begin with, if they begin with one. The bytes are hashed only if all
/// fields are in range. Takes no memory.
pub(crate) fn record_at(bytes: &[u8], geometry: Geometry) -> Option<Head>
    ensures found { IfSome result (λ h. BeginsWithSome geometry bytes.now h.generation h.runs h.retired) }
    ensures within { IfSome result (λ h. digest_place geometry h.runs h.retired ≤ length bytes.now) }
    ensures none { IfNone result ((c : Contents) → ¬ BeginsWithRecord geometry bytes.now c) }
{
    let head = read_head(bytes, geometry)?;
    let size = body_len(geometry, head);
    if bytes.len() < size + DIGEST_BYTES {
        return None;
    }
    let parts = parts_of(bytes, geometry, head);
    if !are_within(parts.pointers, geometry.extent_bytes()) {
        return None;
    }
    if !are_extents(parts.retired, geometry.extents()) {
        return None;
    }
    let (body, rest) = bytes.split_at(size);
    if !has_digest(body, rest) {
        return None;
    }
    Some(head)
}

/// Parses `count` numbers of four bytes each.
fn read_numbers(alloc: Global, bytes: &[u8], count: usize) -> Result<Vec<u32>, OutOfMemory>
    requires { length bytes.now ≡ 4 * count }
    ensures count { IfOk result (λ v. length v.items ≡ count) }
    ensures fit { IfOk result (λ v. All (λ w. w < 2 ^ 32) v.items) }
    ensures spelled { IfOk result (λ v. flat_map (big_bytes 4) v.items ≡ bytes.now) }
{
    let mut numbers = vec![in alloc; 0u32; count]?;
    BigEndian::read_u32_into(bytes, &mut numbers);
    Ok(numbers)
}

/// Parses the list of retired extents, if there is one.
fn read_retired(
    alloc: Global,
    bytes: &[u8],
    count: Option<usize>,
) -> Result<Option<Vec<u32>>, OutOfMemory>
    requires { length bytes.now ≡ 4 * retired_count count }
    ensures count { IfOk result (λ o. option_map length (option_map (λ v. v.items) o) ≡ count) }
    ensures fit { IfOk result (λ o. IfSome (option_map (λ v. v.items) o) (λ ws. All (λ w. w < 2 ^ 32) ws)) }
    ensures spelled { IfOk result (λ o.
        flat_map (big_bytes 4) (unwrap_or (option_map (λ v. v.items) o) []) ≡ bytes.now) }
{
    match count {
        None => Ok(None),
        Some(count) => Ok(Some(read_numbers(alloc, bytes, count)?)),
    }
}

/// Parses the record that the bytes begin with, if they begin with one of this geometry. Bytes after it don't
/// matter.
pub fn read_record(
    alloc: Global,
    bytes: &[u8],
    geometry: Geometry,
) -> Result<Option<Superblock>, OutOfMemory>
    ensures found { IfOk result (λ found. IfSome found (BeginsWithRecord geometry bytes.now)) }
    ensures none { IfOk result (λ found. IfNone found
        ((c : Contents) → ¬ BeginsWithRecord geometry bytes.now c)) }
{
    let Some(head) = record_at(bytes, geometry) else {
        return Ok(None);
    };
    let parts = parts_of(bytes, geometry, head);
    let pointers = read_numbers(alloc, parts.pointers, geometry.extents() as usize - 1)?;
    let retired = read_retired(alloc, parts.retired, head.retired)?;
    let runs = read_locators(alloc, parts.runs, head.runs)?;
    Ok(Some(Superblock::of(head.generation, pointers, retired, runs)))
}

/// Appends numbers, four bytes each.
fn append_numbers(out: &mut Vec<u8>, numbers: &[u32])
    requires { vec_len out.old + 4 * length numbers.now ≤ vec_capacity out.old }
    ensures items { out.new.items ≡ out.old.items ++ flat_map (big_bytes 4) numbers.now }
    ensures capacity { vec_capacity out.old ≤ vec_capacity out.new }
{
    for number in numbers {
        append(out, &number.to_be_bytes());
    }
}

/// Appends a record without its digest to a list that has room for it. Takes no memory.
fn append_body(out: &mut Vec<u8>, geometry: Geometry, superblock: &Superblock)
    requires few { length superblock.now.runs ≤ MAX_RUNS }
    requires retired { IfSome superblock.now.retired (AreRetired geometry.extents) }
    requires room { vec_len out.old + body_size superblock.now ≤ vec_capacity out.old }
    ensures generation { superblock.now.generation < 2 ^ 64 }
    ensures fit { All IsLocator superblock.now.runs }
    ensures items { out.new.items ≡ out.old.items ++ record_body geometry superblock.now }
    ensures size { vec_len out.new ≡ vec_len out.old + body_size superblock.now }
    ensures capacity { vec_capacity out.old ≤ vec_capacity out.new }
{
    append_head(out, geometry, head_of(superblock));
    append_numbers(out, superblock.pointers());
    append_numbers(out, superblock.retired());
    append_locators(out, superblock.runs());
}

/// Appends the record of a superblock for a disk of this geometry: 58 bytes, 4 for each pointer and 60 for
/// each run; with a list of retired extents, 2 more and 4 for each of these. After `OutOfMemory`, `out` is
/// unchanged.
pub fn write_record(
    out: &mut Vec<u8>,
    geometry: Geometry,
    superblock: &Superblock,
) -> Result<(), OutOfMemory>
    requires pointers { ArePointers geometry superblock.now.pointers }
    requires retired { IfSome superblock.now.retired (AreRetired geometry.extents) }
    requires runs { length superblock.now.runs ≤ MAX_RUNS }
    ensures ok { OnOk result (out.new.items ≡ out.old.items ++ record_bytes geometry superblock.now) }
    ensures err { OnErr result (out.new.items ≡ out.old.items) }

    // The record reads back, whatever follows it.
    ensures read_again { OnOk result ((rest : List ℕ) →
        BeginsWithRecord geometry (drop (vec_len out.old) out.new.items ++ rest) superblock.now) }
{
    let start = out.len();
    out.reserve(body_len(geometry, head_of(superblock)) + DIGEST_BYTES)?;
    append_body(out, geometry, superblock);
    let digest = digest_of(&out[start..]);
    append(out, &digest);
    Ok(())
}

/// A law: bytes begin with at most one record of a geometry.
pub fn one_record()
    ensures { (geometry : Geometry) (bytes : List ℕ) (c d : Contents) →
        BeginsWithRecord geometry bytes c → BeginsWithRecord geometry bytes d → c ≡ d }
{}
