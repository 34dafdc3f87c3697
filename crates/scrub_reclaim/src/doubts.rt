//! Doubts: what may have hidden a newer superblock, a newer binding, or a chunk past a write pointer; and
//! which of them were accepted. `doubting` finds them.

ghost use Rattle.std.specs.Prelude.{◌≡◌, ◌++◌, ◌∷◌, ◌&&◌, [], IfOk, OnOk, codes, map, string_bytes};
ghost use Rattle.std.specs.Prelude.{if◌then◌else◌};
ghost use Rattle.std.specs.List.{list_any};
ghost use Rattle.std.specs.Str.{bytes_eq};
ghost use Rattle.scrub_scan.specs.Line.{spaced};
ghost use Rattle.scrub_reclaim.specs.declared.doubts.Doubt.TheVariants.{Last, Loose, Spare};
ghost use Rattle.scrub_reclaim.specs.Doubts.{accepted_on, are_accepted, doubt_text, generation_text};
ghost use Rattle.scrub_reclaim.specs.Doubts.{is_accepted, is_last, is_named, is_settled_by_last};
ghost use Rattle.scrub_reclaim.specs.Doubts.{may_be_accepted};
ghost use Rattle.scrub_reclaim.specs.Reclaimable.{doubt_line, doubt_lines};

use scrub_check::{Owner, RunState};
use scrub_disk::OutOfMemory;
use scrub_found::texts::{owner_text, state_text};
use scrub_listings::listing::PlaceText;
use scrub_listings::summary::counts_as;
use scrub_super::Chosen;
use std::alloc::Global;
use std::fmt::Write;
use std::marker::Model;
use uuid::Uuid;

/// What may have hidden something that a disk holds, or what a reset would take the last copy of.
#[derive(Clone, Copy)]
pub enum Doubt {
    /// No superblock counts.
    NoSuperblock,
    /// Two superblocks or more have the greatest generation.
    Tie,
    /// The last superblock that was written has the generation `last`, and the one that counts, if there is
    /// one, another.
    Last {
        counts: Option<u64>,
        last: u64,
    },
    /// This page of extent 0 is unreadable.
    SuperblockLost {
        page: usize,
    },
    /// This page of extent 0 begins with the four bytes of a kind of record, and no valid record holds the
    /// first of them.
    SuperblockDamaged {
        page: usize,
    },
    /// This page of extent 0 isn't damaged, and has a nonzero byte that no valid record holds. A record may
    /// begin on it.
    SuperblockStray {
        page: usize,
    },
    /// The index run of this number is lost.
    RunLost {
        number: usize,
        state: RunState,
    },
    /// The spares of this owner's locator, the first of which is this chunk with its frame of so many bytes,
    /// aren't live and are in extents that may be reclaimed.
    Spare {
        extent: u32,
        offset: u32,
        length: u32,
        uuid: Uuid,
        owner: Owner,
        bytes: u64,
    },
    /// The loose copies of this owner's locator, the first of which is this frame of so many bytes, are in
    /// extents that may be reclaimed.
    Loose {
        extent: u32,
        offset: u32,
        length: u32,
        uuid: Uuid,
        owner: Owner,
        bytes: u64,
    },
    /// A payload is gone, and in this extent, which may be reclaimed, no copy of it was looked for: the
    /// extent is crowded.
    Crowded {
        extent: u32,
    },
    /// An extent has this many nonzero bytes at or past its write pointer, the first of them at this
    /// offset.
    Tail {
        extent: u32,
        offset: u32,
        bytes: u32,
    },
    /// The pages `first` to `last` of an extent, both included, are unreadable. Each has a byte at or past
    /// the write pointer.
    TailLost {
        extent: u32,
        first: u32,
        last: u32,
    },
}

/// Appends the text of the doubt that a spare at this place makes, whose frame takes so many bytes.
fn append_spare_text(
    alloc: Global,
    text: &mut String,
    place: &PlaceText,
    owner: Owner,
    bytes: u64,
) -> Result<(), OutOfMemory>
    ensures { OnOk result (string_bytes text.new ≡ string_bytes text.old ++
        doubt_text (Spare place.now.extent place.now.offset place.now.length place.now.uuid owner bytes)) }
{
    let owner = owner_text(alloc, owner)?;
    write!(text, "spare {place} {owner} {bytes}")
}

/// Appends the text of the doubt that a loose copy at this place makes, whose frame takes so many bytes.
fn append_loose_text(
    alloc: Global,
    text: &mut String,
    place: &PlaceText,
    owner: Owner,
    bytes: u64,
) -> Result<(), OutOfMemory>
    ensures { OnOk result (string_bytes text.new ≡ string_bytes text.old ++
        doubt_text (Loose place.now.extent place.now.offset place.now.length place.now.uuid owner bytes)) }
{
    let owner = owner_text(alloc, owner)?;
    write!(text, "loose {place} {owner} {bytes}")
}

/// Appends the generation that counts, or `none`.
fn append_generation(text: &mut String, counts: Option<u64>) -> Result<(), OutOfMemory>
    ensures { OnOk result (string_bytes text.new ≡ string_bytes text.old ++ generation_text counts) }
{
    match counts {
        Some(generation) => write!(text, "{generation}"),
        None => write!(text, "none"),
    }
}

/// Appends the text of the doubt that the last superblock isn't the one that counts.
fn append_last_text(text: &mut String, counts: Option<u64>, last: u64) -> Result<(), OutOfMemory>
    ensures { OnOk result (string_bytes text.new ≡ string_bytes text.old ++ doubt_text (Last counts last)) }
{
    write!(text, "last ")?;
    append_generation(text, counts)?;
    write!(text, " {last}")
}

/// Appends a doubt's kind and its numbers.
pub fn append_doubt_text(alloc: Global, text: &mut String, doubt: &Doubt) -> Result<(), OutOfMemory>
    ensures { OnOk result (string_bytes text.new ≡ string_bytes text.old ++ doubt_text doubt.now) }
{
    match *doubt {
        Doubt::NoSuperblock => write!(text, "no-superblock"),
        Doubt::Tie => write!(text, "tie"),
        Doubt::Last { counts, last } => append_last_text(text, counts, last),
        Doubt::SuperblockLost { page } => write!(text, "superblock-lost {page}"),
        Doubt::SuperblockDamaged { page } => write!(text, "superblock-damaged {page}"),
        Doubt::SuperblockStray { page } => write!(text, "superblock-stray {page}"),
        Doubt::RunLost { number, state } => {
            let state = state_text(state);
            write!(text, "run-lost {number} {state}")
        }
        Doubt::Spare {
            extent,
            offset,
            length,
            uuid,
            owner,
            bytes,
        } => {
            let place = PlaceText {
                extent,
                offset,
                length,
                uuid,
            };
            append_spare_text(alloc, text, &place, owner, bytes)
        }
        Doubt::Loose {
            extent,
            offset,
            length,
            uuid,
            owner,
            bytes,
        } => {
            let place = PlaceText {
                extent,
                offset,
                length,
                uuid,
            };
            append_loose_text(alloc, text, &place, owner, bytes)
        }
        Doubt::Crowded { extent } => write!(text, "crowded {extent}"),
        Doubt::Tail {
            extent,
            offset,
            bytes,
        } => write!(text, "tail {extent} {offset} {bytes}"),
        Doubt::TailLost {
            extent,
            first,
            last,
        } => write!(text, "tail-lost {extent} {first} {last}"),
    }
}

/// A doubt's kind and its numbers.
fn doubt_text(alloc: Global, doubt: &Doubt) -> Result<String, OutOfMemory>
    ensures { IfOk result (λ text. string_bytes text ≡ doubt_text doubt.now) }
{
    let mut text = String::new(alloc);
    append_doubt_text(alloc, &mut text, doubt)?;
    Ok(text)
}

/// What a person accepts, knowing what made the doubts: single doubts, by what their lines have after
/// `doubt`; and, if it is given, that the last superblock that was written to the disk has this generation,
/// and that nothing was written to the disk after it.
#[derive(Drop)]
pub struct Acceptance<'v, 'a> {
    lines: &'v [&'a str],
    last: Option<u64>,
}

impl<'v, 'a> Model for Acceptance<'v, 'a> {
    ghost use Rattle.std.specs.Prelude.{map};
    ghost use Rattle.scrub_reclaim.specs.Doubts.{Acceptance};

    ghost Value = { Acceptance };

    ghost view = { λ a. record { lines = map (λ line. line.now) a.lines.now; last = a.last } };
}

impl<'v, 'a> Acceptance<'v, 'a> {
    /// These lines, without the word `doubt`, and this generation. What has to be mended first isn't accepted
    /// by any line.
    pub fn new(lines: &'v [&'a str], last: Option<u64>) -> Acceptance<'v, 'a>
        ensures lines { result.lines ≡ map (λ line. line.now) lines.now }
        ensures last { result.last ≡ last }
    {
        Acceptance { lines, last }
    }

    /// The generation of the last superblock that was written, if it is given.
    pub(crate) fn last(&self) -> Option<u64>
        ensures { result ≡ self.now.last }
    {
        self.last
    }

    /// What is accepted on a disk whose superblock was chosen so.
    pub(crate) fn on(&self, chosen: &Chosen) -> Accepted<'v, 'a>
        ensures { result ≡ accepted_on self.now chosen.now }
    {
        Accepted {
            lines: self.lines,
            is_last: is_last(self.last, chosen),
        }
    }
}

/// Whether the superblock that counts has the generation that was given.
fn is_last(last: Option<u64>, chosen: &Chosen) -> bool
    ensures { result ≡ is_last last chosen.now }
{
    match last {
        Some(generation) => counts_as(chosen, generation),
        None => false,
    }
}

/// What is accepted on a disk: single doubts, and whether the superblock that counts is known to be the last
/// one that was written.
#[derive(Drop)]
pub(crate) struct Accepted<'v, 'a> {
    lines: &'v [&'a str],
    is_last: bool,
}

impl<'v, 'a> Model for Accepted<'v, 'a> {
    ghost use Rattle.std.specs.Prelude.{map};
    ghost use Rattle.scrub_reclaim.specs.Doubts.{Accepted};

    ghost Value = { Accepted };

    ghost view = { λ a. record { lines = map (λ line. line.now) a.lines.now; is_last = a.is_last } };
}

/// Whether a doubt is none if the superblock that counts is the last one that was written, and nothing was
/// written after it.
fn is_settled_by_last(doubt: &Doubt) -> bool
    ensures { result ≡ is_settled_by_last doubt.now }
{
    matches!(
        doubt,
        Doubt::SuperblockDamaged { .. }
            | Doubt::SuperblockStray { .. }
            | Doubt::Tail { .. }
            | Doubt::TailLost { .. }
    )
}

/// Whether a doubt may be accepted.
fn may_be_accepted(doubt: &Doubt) -> bool
    ensures { result ≡ may_be_accepted doubt.now }
{
    is_settled_by_last(doubt)
        || matches!(
            doubt,
            Doubt::Spare { .. } | Doubt::Loose { .. } | Doubt::Crowded { .. }
        )
}

fn is_among(lines: &[&str], text: &str) -> bool
    ensures { result ≡ list_any (λ line. bytes_eq line.now text.now) lines.now }
{
    lines.iter().any(|line| *line == text)
}

/// Whether a doubt, whose text is given, is accepted by one of the lines.
fn is_named(lines: &[&str], doubt: &Doubt, text: &str) -> bool
    requires { text.now ≡ doubt_text doubt.now }
    ensures { result ≡ is_named (map (λ line. line.now) lines.now) doubt.now }
{
    may_be_accepted(doubt) && is_among(lines, text)
}

/// Whether a doubt is settled by what is known of the last superblock.
fn is_settled(is_last: bool, doubt: &Doubt) -> bool
    ensures { result ≡ is_last && is_settled_by_last doubt.now }
{
    is_last && is_settled_by_last(doubt)
}

/// Whether a doubt, whose text is given, is accepted.
fn is_accepted(accepted: &Accepted<'_, '_>, doubt: &Doubt, text: &str) -> bool
    requires { text.now ≡ doubt_text doubt.now }
    ensures { result ≡ is_accepted accepted.now doubt.now }
{
    is_named(accepted.lines, doubt, text) || is_settled(accepted.is_last, doubt)
}

/// The lines of doubts, and what they say together.
#[derive(Drop)]
pub(crate) struct DoubtLines {
    /// A line for each doubt: `doubt` or `accepted`, the kind, and what else it says.
    pub text: String,
    /// Whether each doubt is accepted.
    pub is_clear: bool,
}

/// The first word of the line of a doubt, by whether that is accepted.
fn doubt_word(is_accepted: bool) -> &'static str
    ensures { result.now ≡ (if is_accepted then codes "accepted" else codes "doubt") }
{
    if is_accepted { "accepted" } else { "doubt" }
}

/// Appends the line of a doubt, whose text is given, with its line feed.
fn append_line(lines: &mut String, is_accepted: bool, text: &str) -> Result<(), OutOfMemory>
    ensures { OnOk result (string_bytes lines.new ≡ string_bytes lines.old ++
        (if is_accepted then codes "accepted" else codes "doubt") ++ spaced text.now ++ 10 ∷ []) }
{
    let word = doubt_word(is_accepted);
    writeln!(lines, "{word} {text}")
}

/// Adds a doubt. Its text is made once: the doubt is judged by it, and it is written.
fn add_doubt(
    alloc: Global,
    lines: &mut DoubtLines,
    accepted: &Accepted<'_, '_>,
    doubt: &Doubt,
) -> Result<(), OutOfMemory>
    ensures text { OnOk result (string_bytes lines.new.text ≡
        string_bytes lines.old.text ++ doubt_line accepted.now doubt.now) }
    ensures clear { OnOk result (lines.new.is_clear ≡
        (lines.old.is_clear && is_accepted accepted.now doubt.now)) }
{
    let text = doubt_text(alloc, doubt)?;
    let passes = is_accepted(accepted, doubt, &text);
    append_line(&mut lines.text, passes, &text)?;
    lines.is_clear = lines.is_clear && passes;
    Ok(())
}

/// The lines of doubts, in their order, and whether each doubt is accepted.
pub(crate) fn doubt_lines(
    alloc: Global,
    accepted: &Accepted<'_, '_>,
    doubts: &[Doubt],
) -> Result<DoubtLines, OutOfMemory>
    ensures text { IfOk result (λ l. string_bytes l.text ≡ doubt_lines accepted.now doubts.now) }
    ensures clear { IfOk result (λ l. l.is_clear ≡ are_accepted accepted.now doubts.now) }
{
    let mut lines = DoubtLines {
        text: String::new(alloc),
        is_clear: true,
    };
    for doubt in doubts {
        add_doubt(alloc, &mut lines, accepted, doubt)?;
    }
    Ok(lines)
}
