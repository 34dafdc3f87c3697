//! The fields of a line: the parts between its blanks.

ghost use Rattle.std.specs.Prelude.{◌≡◌, ◌≤◌, ◌<◌, [], ◌∷◌, List, ℕ, MatchOption, length};
ghost use Rattle.std.specs.List.{position_or_len, prefix_len};
ghost use Rattle.scrub_map.specs.Fields.{fields_of, is_field_blank, is_one_of};

/// The first field of a text, and the bytes after it. None if the text has no field.
pub(crate) fn next_field(text: &[u8]) -> Option<(&[u8], &[u8])>
    ensures { MatchOption result (fields_of text.now ≡ [])
        (λ cut. fields_of text.now ≡ cut.0.now ∷ fields_of cut.1.now) }
{
    let text = &text[blanks_before(text)..];
    if text.is_empty() {
        return None;
    }
    Some(text.split_at(field_length(text)))
}

/// The number of blanks that a text begins with.
fn blanks_before(text: &[u8]) -> usize
    ensures value { result ≡ prefix_len is_field_blank text.now }
    ensures within { result ≤ length text.now }
{
    text.iter().take_while(|byte| is_blank(**byte)).count()
}

/// The number of bytes before the first blank.
fn field_length(text: &[u8]) -> usize
    ensures value { result ≡ position_or_len is_field_blank text.now }
    ensures within { result ≤ length text.now }
{
    text.iter().take_while(|byte| !is_blank(**byte)).count()
}

/// Whether a byte is a space or a tab.
fn is_blank(byte: u8) -> bool
    ensures { result ≡ is_field_blank byte }
{
    byte == b' ' || byte == b'\t'
}

/// Whether a field is one of these letters.
pub(crate) fn is_letter_of(letters: &[u8], field: &[u8]) -> bool
    ensures { result ≡ is_one_of letters.now field.now }
{
    field.len() == 1 && letters.contains(&field[0])
}
