//! The items of an extent, and their lines of text. `tiling` finds where they begin and end.

ghost use Rattle.std.specs.Prelude.{◌≡◌, ◌↔◌, ◌++◌, IsTrue, IfOk, OnOk, length, string_bytes};
ghost use Rattle.std.specs.Fmt.{decimal};

use itoa::Buffer;
use scrub_disk::OutOfMemory;
use scrub_frame::{DIGEST_BYTES, Form};
use std::alloc::Global;
use std::fmt;
use std::marker::Model;
use uuid::Uuid;

/// Room for the longest line: six letters, three numbers of ten digits, a UUID of 36 characters, four spaces.
const LINE_BYTES: usize = 76;

/// The length of a UUID's text, in bytes.
const UUID_TEXT_BYTES: usize = 36;

/// A part of an extent, from byte `start` up to but not including byte `stop`. All items except chunks stop
/// at the next page boundary above their start, or at the write pointer if that comes first.
#[derive(Debug, Clone, Copy, PartialEq, Eq)]
pub enum Item {
    /// A whole frame on readable pages, with its form, its UUID, the length of its payload in bytes (`stop -
    /// start` is 38 more, or 72 if it is sealed), and the SHA-256 of its payload. The payload may still not
    /// be what its writer meant.
    Chunk {
        form: Form,
        start: u32,
        stop: u32,
        uuid: Uuid,
        length: u32,
        digest: [u8; DIGEST_BYTES],
    },
    /// Readable, and all zero.
    Pad {
        start: u32,
        stop: u32,
    },
    /// A magic of one of the forms without a whole frame, as an interrupted write leaves it.
    Torn {
        start: u32,
        stop: u32,
    },
    /// Readable, and none of the others.
    Noise {
        start: u32,
        stop: u32,
    },
    /// On an unreadable page.
    Lost {
        start: u32,
        stop: u32,
    },
}

/// The items of an extent in ascending order, without gaps or overlaps. Contracts see them as a list.
#[derive(Drop)]
pub struct Items {
    pub(crate) items: Vec<Item>,
}

impl Model for Items {
    ghost use Rattle.std.specs.Prelude.{List};
    ghost use Rattle.scrub_scan.specs.declared.item.Item.{Item};

    ghost Value = { List Item };

    ghost view = { λ a. a.items.items };
}

impl Item {
    ghost use Rattle.scrub_scan.specs.Item.{span_of, start_of, stop_of};
    ghost use Rattle.scrub_scan.specs.steps.Gathering.{with_digest, AgreesWith};

    /// The byte of the extent at which the item begins, and the one after its last.
    fn span(&self) -> (u32, u32)
        ensures { result ≡ span_of self.now }
    {
        match self {
            Item::Chunk { start, stop, .. } => (*start, *stop),
            Item::Pad { start, stop } => (*start, *stop),
            Item::Torn { start, stop } => (*start, *stop),
            Item::Noise { start, stop } => (*start, *stop),
            Item::Lost { start, stop } => (*start, *stop),
        }
    }

    /// The item with another digest, if it is a chunk.
    pub(crate) fn with_digest(self, digest: [u8; DIGEST_BYTES]) -> Item
        ensures { result ≡ with_digest self digest }
    {
        match self {
            Item::Chunk {
                form,
                start,
                stop,
                uuid,
                length,
                ..
            } => {
                Item::Chunk {
                    form,
                    start,
                    stop,
                    uuid,
                    length,
                    digest,
                }
            }
            _ => self,
        }
    }

    /// Whether this digest is its seal, or it has no seal.
    pub(crate) fn agrees_with(&self, digest: &[u8; DIGEST_BYTES]) -> bool
        ensures { IsTrue result ↔ AgreesWith self.now digest.now }
    {
        match self {
            Item::Chunk {
                form: Form::Sealed,
                digest: seal,
                ..
            } => digest == seal,
            _ => true,
        }
    }

    /// The byte of the extent at which the item begins.
    pub fn start(&self) -> u32
        ensures { result ≡ start_of self.now }
    {
        self.span().0
    }

    /// The byte of the extent after the item's last one.
    pub fn stop(&self) -> u32
        ensures { result ≡ stop_of self.now }
    {
        self.span().1
    }
}

/// The word for a chunk of a form.
fn chunk_word(form: Form) -> &'static str
    ensures { result.now ≡ chunk_word form }
{
    match form {
        Form::Plain => "chunk",
        Form::Sealed => "sealed",
    }
}

impl fmt::Display for Item {
    ghost use Rattle.std.specs.Prelude.{Some};
    ghost use Rattle.scrub_scan.specs.Line.{line_of};

    ghost output = { λ item. Some (line_of item) };

    fn fmt<W: fmt::Write>(&self, f: &mut fmt::Formatter<W>) -> fmt::Result {
        match self {
            Item::Chunk {
                form,
                start,
                stop,
                uuid,
                length,
                ..
            } => {
                let word = chunk_word(*form);
                write!(f, "{word} {start} {stop} {uuid} {length}")
            }
            Item::Pad { start, stop } => write!(f, "pad {start} {stop}"),
            Item::Torn { start, stop } => write!(f, "torn {start} {stop}"),
            Item::Noise { start, stop } => write!(f, "noise {start} {stop}"),
            Item::Lost { start, stop } => write!(f, "lost {start} {stop}"),
        }
    }
}

ghost use Rattle.uuid.specs.Text.{hyphenated_text, lower};
ghost use Rattle.scrub_scan.specs.Line.{chunk_word, line_of, places, spaced};

/// Appends a space, and a number in decimal.
fn push_number(line: &mut String, number: u32) -> Result<(), OutOfMemory>
    ensures { OnOk result (string_bytes line.new ≡ string_bytes line.old ++ spaced (decimal number)) }
{
    let mut buffer = Buffer::new();
    line.push_str(" ")?;
    line.push_str(buffer.format(number))
}

/// Appends a space, and a UUID (RFC 9562, lower case).
fn push_uuid(line: &mut String, uuid: Uuid) -> Result<(), OutOfMemory>
    ensures { OnOk result (string_bytes line.new ≡
        string_bytes line.old ++ spaced (hyphenated_text lower uuid)) }
{
    let mut buffer = [0; UUID_TEXT_BYTES];
    line.push_str(" ")?;
    line.push_str(uuid.hyphenated().encode_lower(&mut buffer))
}

/// Appends where an item begins and stops.
fn push_places(line: &mut String, start: u32, stop: u32) -> Result<(), OutOfMemory>
    ensures { OnOk result (string_bytes line.new ≡ string_bytes line.old ++ places start stop) }
{
    push_number(line, start)?;
    push_number(line, stop)
}

/// Appends a word, and where an item begins and stops.
fn push_placed(line: &mut String, word: &str, start: u32, stop: u32) -> Result<(), OutOfMemory>
    ensures { OnOk result (string_bytes line.new ≡
        string_bytes line.old ++ (word.now ++ places start stop)) }
{
    line.push_str(word)?;
    push_places(line, start, stop)
}

/// Appends the line of an item, without a line feed: the word for its kind (`chunk` or `sealed` for a chunk,
/// by its form), its start and stop in decimal, and for a chunk also its UUID (RFC 9562, lower case) and the
/// length of its payload. It is put together piece by piece, since a report has one for each item. On an
/// error a part of the line may have been appended.
pub fn push_item_line(line: &mut String, item: &Item) -> Result<(), OutOfMemory>
    ensures { OnOk result (string_bytes line.new ≡ string_bytes line.old ++ line_of item.now) }
{
    match item {
        Item::Chunk {
            form,
            start,
            stop,
            uuid,
            length,
            ..
        } => {
            push_placed(line, chunk_word(*form), *start, *stop)?;
            push_uuid(line, *uuid)?;
            push_number(line, *length)
        }
        Item::Pad { start, stop } => push_placed(line, "pad", *start, *stop),
        Item::Torn { start, stop } => push_placed(line, "torn", *start, *stop),
        Item::Noise { start, stop } => push_placed(line, "noise", *start, *stop),
        Item::Lost { start, stop } => push_placed(line, "lost", *start, *stop),
    }
}

/// The line of an item, as `push_item_line` appends it.
pub fn item_line(alloc: Global, item: &Item) -> Result<String, OutOfMemory>
    ensures { IfOk result (λ line. string_bytes line ≡ line_of item.now) }
{
    let mut line = String::with_capacity(alloc, LINE_BYTES)?;
    push_item_line(&mut line, item)?;
    Ok(line)
}

impl Items {
    /// The items as a slice, by ascending start.
    pub fn as_slice(&self) -> &[Item]
        ensures { result.now ≡ self.now }
    {
        self.items.as_slice()
    }
}
