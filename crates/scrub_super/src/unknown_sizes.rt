//! Finds the superblock records of a raw image whose sizes aren't known: each record is judged by its own
//! sizes.

ghost use Rattle.std.specs.Prelude.{◌≡◌, ℕ, List, Bool, Option};
ghost use Rattle.scrub_super.specs.declared.unknown_sizes.FoundRecord.{FoundRecord};
ghost use Rattle.scrub_super.specs.declared.unknown_sizes.LostBytes.{LostBytes};
ghost use Rattle.scrub_super.specs.UnknownSizes.{AreFoundByOwnSizes, AreFoundInSome};

mod blocks;
mod front;
mod ranges;
mod search;

use crate::kind::RecordKind;
pub use blocks::BLOCK_BYTES;
pub use front::Front;
use scrub_disk::Geometry;

/// A superblock record that was found.
#[derive(Debug, Clone, Copy, PartialEq, Eq)]
pub struct FoundRecord {
    /// Where it begins, in bytes from the image's start: a multiple of 64 and of its page size, below
    /// 67,108,864.
    pub offset: u32,
    pub kind: RecordKind,
    pub generation: u64,
    /// The disk's sizes according to the record.
    pub geometry: Geometry,
}

/// A longest range of lost blocks, of 512 bytes each.
#[derive(Debug, Clone, Copy, PartialEq, Eq)]
pub struct LostBytes {
    /// The first lost byte, a multiple of 512.
    pub from: u32,
    /// The byte after the last lost one, a multiple of 512, at most 67,108,864. The image may end before it.
    pub to: u32,
}

/// The superblock records and the lost bytes in the first 67,108,864 bytes of a raw image.
#[derive(Debug, Drop)]
pub struct FoundSuperblocks {
    /// By ascending offset. Records may overlap.
    pub records: Vec<FoundRecord>,
    /// By ascending start.
    pub lost: Vec<LostBytes>,
}

/// A law: for given bytes and lost blocks there is at most one list of records and one of lost bytes.
pub fn one_answer_for_lost_blocks()
    ensures { (bytes : List ℕ) (lost : List Bool) (a b : List FoundRecord) (r s : List LostBytes) →
        AreFoundByOwnSizes bytes lost a r → AreFoundByOwnSizes bytes lost b s → (a ≡ b) × (r ≡ s) }
{}

/// A law: for given bytes and lost blocks there is a list of all records and one of all lost bytes; so there
/// is an answer whichever bytes are lacking and whichever reads fail. With `one_answer_for_lost_blocks`,
/// there is exactly one list of each for given lost blocks.
pub fn each_front_has_an_answer()
    ensures blocks { (bytes : List ℕ) (lost : List Bool) →
        (records : List FoundRecord) × (ranges : List LostBytes) ×
        AreFoundByOwnSizes bytes lost records ranges }
    ensures raw { (raw : Option (List ℕ)) (lacking : ℕ → Bool) (fails : ℕ → ℕ → Bool) (failures : ℕ) →
        (records : List FoundRecord) × (ranges : List LostBytes) ×
        AreFoundInSome raw lacking fails failures records ranges }
{}
