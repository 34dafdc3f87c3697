//! The head of a record, which comes before its write pointers, and how long that makes the record. `record`
//! reads and writes what comes after it.

ghost use Rattle.std.specs.Prelude.{◌≡◌, ◌+◌, ◌≤◌, ◌<◌, ◌^◌, ◌++◌, ℕ, IfSome, IfNone, length, take, vec_len};
ghost use Rattle.std.specs.Prelude.{vec_capacity, option_map};
ghost use Rattle.scrub_super.specs.Contents.{Contents};
ghost use Rattle.scrub_super.specs.Record.{BeginsWithRecord};
ghost use Rattle.scrub_super.specs.steps.RecordRead.{IsFront, IsHead, digest_place, digit_by};
ghost use Rattle.scrub_super.specs.steps.RecordRead.{front_bytes, head_bytes};
ghost use Rattle.scrub_super.specs.steps.RecordRead.{record_head_size, retired_count};
ghost use Rattle.scrub_super.specs.declared.kind.RecordKind.{RecordKind};

use crate::kind::RecordKind;
use crate::superblock::Superblock;
use byteorder::{BigEndian, ByteOrder};
use scrub_disk::Geometry;
use scrub_frame::{LOCATOR_BYTES, append};

/// The most index runs that a record names.
pub const MAX_RUNS: usize = 32;

/// The fields that both kinds of record begin with, without the disk's sizes.
#[derive(Clone, Copy)]
struct CommonHead {
    kind: RecordKind,
    generation: u64,
    runs: usize,
}

/// The fields of a record before its write pointers, without the disk's sizes.
#[derive(Clone, Copy)]
pub(crate) struct Head {
    pub generation: u64,
    pub runs: usize,
    /// The number of retired extents, if they are listed.
    pub retired: Option<usize>,
}

/// The bytes that both kinds of record begin with.
fn common_head_of(kind: RecordKind, geometry: Geometry, generation: u64, runs: u16) -> [u8; 26]
    ensures { result ≡ front_bytes (digit_by kind) geometry generation runs }
{
    let mut bytes = [0u8; 26];
    bytes[0..4].copy_from_slice(kind.letters().as_bytes());
    bytes[4..12].copy_from_slice(&generation.to_be_bytes());
    bytes[12..16].copy_from_slice(&geometry.page().to_be_bytes());
    bytes[16..20].copy_from_slice(&geometry.pages().to_be_bytes());
    bytes[20..24].copy_from_slice(&geometry.extents().to_be_bytes());
    bytes[24..26].copy_from_slice(&runs.to_be_bytes());
    bytes
}

/// Parses the bytes that both kinds of record begin with, if they are those of a record of this geometry.
fn read_common_head(bytes: &[u8; 26], geometry: Geometry) -> Option<CommonHead>
    ensures found { IfSome result (λ h. IsFront geometry bytes.now h.kind h.generation h.runs) }
    ensures none { IfNone result ((kind : RecordKind) (generation runs : ℕ) →
        ¬ IsFront geometry bytes.now kind generation runs) }
{
    let kind = RecordKind::at(bytes)?;
    let generation = BigEndian::read_u64(&bytes[4..12]);
    let runs = BigEndian::read_u16(&bytes[24..26]);
    if runs as usize > MAX_RUNS || *bytes != common_head_of(kind, geometry, generation, runs) {
        return None;
    }
    Some(CommonHead {
        kind,
        generation,
        runs: runs as usize,
    })
}

/// Parses the head that the bytes begin with, if it is that of a record of this geometry.
pub(crate) fn read_head(bytes: &[u8], geometry: Geometry) -> Option<Head>
    ensures found { IfSome result (λ h.
        IsHead geometry (take (record_head_size h.retired) bytes.now) h.generation h.runs h.retired) }
    ensures none { IfNone result ((c : Contents) → ¬ BeginsWithRecord geometry bytes.now c) }
{
    let (first, rest) = bytes.split_first_chunk::<26>()?;
    let CommonHead {
        kind,
        generation,
        runs,
    } = read_common_head(first, geometry)?;
    match kind {
        RecordKind::Ssb1 => Some(Head {
            generation,
            runs,
            retired: None,
        }),
        RecordKind::Ssb2 => {
            let count = rest.first_chunk::<2>()?;
            Some(Head {
                generation,
                runs,
                retired: Some(BigEndian::read_u16(count) as usize),
            })
        }
    }
}

/// How many bytes a record has before its write pointers.
pub(crate) fn head_len(retired: Option<usize>) -> usize
    ensures { result ≡ record_head_size retired }
{
    match retired {
        None => 26,
        Some(_) => 28,
    }
}

/// How many bytes a record with this head has before its digest.
pub(crate) fn body_len(geometry: Geometry, head: Head) -> usize
    requires few { head.runs ≤ MAX_RUNS }
    requires small { retired_count head.retired < 2 ^ 16 }
    ensures { result ≡ digest_place geometry head.runs head.retired }
{
    let numbers = geometry.extents() as usize - 1 + head.retired.unwrap_or(0);
    head_len(head.retired) + 4 * numbers + LOCATOR_BYTES * head.runs
}

/// The head of a superblock's record.
pub(crate) fn head_of(superblock: &Superblock) -> Head
    ensures { result ≡ record {
      generation = superblock.now.generation;
      runs = length superblock.now.runs;
      retired = option_map length superblock.now.retired;
    } }
{
    let retired = match superblock.retired_list() {
        None => None,
        Some(list) => Some(list.len()),
    };
    Head {
        generation: superblock.generation(),
        runs: superblock.runs().len(),
        retired,
    }
}

/// Appends a head to a list that has room for it. Takes no memory.
pub(crate) fn append_head(out: &mut Vec<u8>, geometry: Geometry, head: Head)
    requires few { head.runs ≤ MAX_RUNS }
    requires small { retired_count head.retired < 2 ^ 16 }
    requires room { vec_len out.old + record_head_size head.retired ≤ vec_capacity out.old }
    ensures items { out.new.items ≡
        out.old.items ++ head_bytes geometry head.generation head.runs head.retired }
    ensures capacity { vec_capacity out.old ≤ vec_capacity out.new }
{
    let runs = head.runs as u16;
    match head.retired {
        None => append(
            out,
            &common_head_of(RecordKind::Ssb1, geometry, head.generation, runs),
        ),
        Some(retired) => {
            append(
                out,
                &common_head_of(RecordKind::Ssb2, geometry, head.generation, runs),
            );
            append(out, &(retired as u16).to_be_bytes());
        }
    }
}
