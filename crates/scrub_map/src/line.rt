//! Single lines of a map: a comment, the state, or a block.

ghost use Rattle.std.specs.Prelude.{◌≡◌, ◌≢◌, ◌≤◌, ◌<◌, ◌==◌, ◌∷◌, [], ℕ, length, MatchOption};
ghost use Rattle.std.specs.Bool.{MatchBool};
ghost use Rattle.std.specs.List.{position_or_len};
ghost use Rattle.std.specs.Str.Lines.{strip_carriage_return};
ghost use Rattle.scrub_map.specs.Fields.{fields_of};
ghost use Rattle.scrub_map.specs.Lines.{IsBlock, IsState, map_lines, says_nothing};
ghost use Rattle.scrub_map.specs.declared.block.MapBlock.{MapBlock};

use crate::block::MapBlock;
use crate::field::{is_letter_of, next_field};
use crate::number::{LIMIT, number, numeral};

/// The letters of a state: what ddrescue was doing when it wrote the map.
const STATE_LETTERS: &[u8] = b"?*/-FG+";

/// The letters of a block's status. Only `+` means that the block was rescued.
const BLOCK_LETTERS: &[u8] = b"?*/-+";

/// The first line of a text, and the bytes after its line feed.
pub(crate) fn next_line(text: &[u8]) -> (&[u8], &[u8])
    requires { 0 < length text.now }
    ensures lines { map_lines text.now ≡ result.0.now ∷ map_lines result.1.now }
    ensures shorter { length result.1.now < length text.now }
{
    let end = line_length(text);
    if end < text.len() {
        (&text[..end], &text[end + 1..])
    } else {
        (text, &text[end..])
    }
}

/// The number of bytes before the first line feed.
fn line_length(text: &[u8]) -> usize
    ensures value { result ≡ position_or_len (λ byte. byte == 10) text.now }
    ensures within { result ≤ length text.now }
{
    text.iter().take_while(|byte| **byte != b'\n').count()
}

/// A line without the carriage return at its end, if it has one.
pub(crate) fn without_carriage_return(line: &[u8]) -> &[u8]
    ensures { result.now ≡ strip_carriage_return line.now }
{
    match line {
        [front @ .., b'\r'] => front,
        _ => line,
    }
}

/// Whether a line is blank or a comment.
pub(crate) fn is_silent(line: &[u8]) -> bool
    ensures { result ≡ says_nothing (fields_of line.now) }
{
    match next_field(line) {
        None => true,
        Some((first, _)) => first.first() == Some(&b'#'),
    }
}

/// Whether a line is a state.
pub(crate) fn is_state(line: &[u8]) -> bool
    ensures { MatchBool result (IsState (fields_of line.now)) (¬ IsState (fields_of line.now)) }
{
    let Some((position, rest)) = next_field(line) else {
        return false;
    };
    let Some((state, rest)) = next_field(rest) else {
        return false;
    };
    if number(position).is_none() || !is_letter_of(STATE_LETTERS, state) {
        return false;
    }
    match next_field(rest) {
        None => true,
        Some((pass, rest)) => numeral(10, pass).is_some() && next_field(rest).is_none(),
    }
}

/// The block that a line describes. None if it isn't a block.
pub(crate) fn block_of(line: &[u8]) -> Option<MapBlock>
    ensures { MatchOption result ((block : MapBlock) → ¬ IsBlock (fields_of line.now) block)
        (IsBlock (fields_of line.now)) }
{
    let (position, size, status) = three_fields(line)?;
    let position = number(position)?;
    let size = number(size)?;
    if size >= LIMIT - position || !is_letter_of(BLOCK_LETTERS, status) {
        return None;
    }
    Some(MapBlock {
        position,
        size,
        is_rescued: status[0] == b'+',
    })
}

/// The three fields of a line. None if it has fewer or more.
fn three_fields(line: &[u8]) -> Option<(&[u8], &[u8], &[u8])>
    ensures { MatchOption result (length (fields_of line.now) ≢ 3)
        (λ three. fields_of line.now ≡ three.0.now ∷ three.1.now ∷ three.2.now ∷ []) }
{
    let (first, rest) = next_field(line)?;
    let (second, rest) = next_field(rest)?;
    let (third, rest) = next_field(rest)?;
    match next_field(rest) {
        None => Some((first, second, third)),
        Some(_) => None,
    }
}
