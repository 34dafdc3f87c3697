//! What a page of extent 0 holds: a superblock record, the rest of one, a damaged one, or anything else.

ghost use Rattle.std.specs.Prelude.{◌≡◌, ◌↔◌, ◌*◌, ℕ, IsTrue, MatchOption};
ghost use Rattle.scrub_disk.specs.Image.{Image};
ghost use Rattle.scrub_super.specs.Pages.{HasLooseLetters, HasRecord, IsHeldByte};
ghost use Rattle.scrub_super.specs.Pages.{IsSuperblockPage, is_damaged, is_stray};
ghost use Rattle.scrub_super.specs.Record.{AreContents};
ghost use Rattle.scrub_super.specs.steps.PagesFound.{IsFoundOf, IsKnownOfPage, IsSeenPage, IsUsedTo};
ghost use Rattle.scrub_super.specs.declared.kind.RecordKind.{RecordKind};

use crate::head::{body_len, head_of};
use crate::kind::RecordKind;
use crate::superblock::Superblock;
use scrub_disk::Geometry;
use scrub_frame::DIGEST_BYTES;

/// How new a record is, compared with the other records of its disk.
#[derive(Debug, Clone, Copy, PartialEq, Eq)]
pub enum Rank {
    /// Its generation is the greatest, and another page has a record of the same generation. Of these records
    /// the one on the lowest page is the superblock that counts.
    Tie,
    /// Its generation is the greatest, and no other page has a record of that generation: this record counts.
    Counts,
    /// Another record has a greater generation.
    Older,
}

/// What a page of extent 0 holds: the first of these that applies. A valid record holds the bytes from the
/// start of its page to its own end. A byte is stray if it isn't zero and no valid record holds it.
#[derive(Debug, Clone, Copy, PartialEq, Eq)]
pub enum SuperblockPage {
    /// The page is unreadable.
    Lost,
    /// A valid record of the disk's geometry begins at the page's first byte.
    Record {
        kind: RecordKind,
        generation: u64,
        /// The byte of extent 0 after its last one.
        to: usize,
        rank: Rank,
        /// Whether a byte of the page is stray.
        is_stray: bool,
    },
    /// The page begins with the four bytes of a kind, but no valid record begins there or holds the first of
    /// them. The digest is wrong, the record has other sizes or a field out of range, or an unreadable page
    /// or the end of the extent cuts it off.
    Damaged {
        kind: RecordKind,
    },
    /// A byte of the page is stray.
    Stray,
    /// Valid records that begin on earlier pages hold all bytes of the page that aren't zero.
    Held,
}

impl SuperblockPage {
    /// Whether the page is damaged.
    pub fn is_damaged(&self) -> bool
        ensures { result ≡ is_damaged self.now }
    {
        matches!(self, SuperblockPage::Damaged { .. })
    }

    /// Whether a byte of the page is stray, and the page isn't damaged.
    pub fn is_stray(&self) -> bool
        ensures { result ≡ is_stray self.now }
    {
        match self {
            SuperblockPage::Record { is_stray, .. } => *is_stray,
            SuperblockPage::Stray => true,
            SuperblockPage::Lost | SuperblockPage::Damaged { .. } | SuperblockPage::Held => false,
        }
    }
}

/// What is kept of the record that begins on a page.
#[derive(Clone, Copy)]
pub(crate) struct PageRecord {
    pub kind: RecordKind,
    pub generation: u64,
    /// The byte of extent 0 after its last one.
    pub to: usize,
}

impl PageRecord {
    /// What is kept of the record of a superblock.
    pub fn of(geometry: Geometry, page: u32, superblock: &Superblock) -> PageRecord
        requires { AreContents geometry superblock.now }
        ensures { IsFoundOf geometry (page * geometry.page) superblock.now result }
    {
        let head = head_of(superblock);
        let start = page as usize * geometry.page() as usize;
        PageRecord {
            kind: RecordKind::of(head.retired),
            generation: head.generation,
            to: start + body_len(geometry, head) + DIGEST_BYTES,
        }
    }
}

/// What is seen of a page by itself.
#[derive(Clone, Copy)]
pub(crate) struct SeenPage {
    pub found: Option<PageRecord>,
    pub is_readable: bool,
    /// The kind whose letters it begins with.
    pub letters: Option<RecordKind>,
    /// How many bytes it has up to the last one that isn't zero.
    pub used: usize,
}

/// How many bytes there are up to the last one that isn't zero.
pub(crate) fn used_len(bytes: &[u8]) -> usize
    ensures { IsUsedTo bytes.now result }
{
    for place in (0..bytes.len()).rev() {
        if bytes[place] != 0 {
            return place + 1;
        }
    }
    0
}

/// The kind whose letters a page begins with, if no record holds them.
fn loose_letters(page: &SeenPage, is_held: bool) -> Option<RecordKind>
    ensures { (image : Image) (q : ℕ) (seen : IsSeenPage image q page.now) →
        IsTrue is_held ↔ IsHeldByte image (q * image.geometry.page) →
        MatchOption result ((kind : RecordKind) → ¬ HasLooseLetters image q seen.bytes kind)
        (HasLooseLetters image q seen.bytes) }
{
    if is_held { None } else { page.letters }
}

/// What a page holds if no record begins on it.
pub(crate) fn page_without_record(page: &SeenPage, is_held: bool, is_stray: bool) -> SuperblockPage
    ensures { (image : Image) (q : ℕ) → IsKnownOfPage image q page.now is_held is_stray →
        ¬ HasRecord image q → IsSuperblockPage image q result }
{
    if !page.is_readable {
        return SuperblockPage::Lost;
    }
    if let Some(kind) = loose_letters(page, is_held) {
        return SuperblockPage::Damaged { kind };
    }
    if is_stray {
        SuperblockPage::Stray
    } else {
        SuperblockPage::Held
    }
}
