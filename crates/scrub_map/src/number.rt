//! Numbers as C writes them, without a sign.

ghost use Rattle.std.specs.Prelude.{◌≡◌, ◌≤◌, ◌<◌, ◌+◌, ◌*◌, ◌^◌, ℕ, IsTrue, MatchOption, length};
ghost use Rattle.std.specs.Char.{digit_value};
ghost use Rattle.scrub_map.specs.Number.{AppendsDigit, IsNumber, WritesNumber, is_hexadecimal, radix_of};

/// Each number of a map is below this, and so is the end of each block.
pub(crate) const LIMIT: u64 = 1 << 63;

/// The number that a text spells: hexadecimal digits after `0x` or `0X`, octal digits if it begins with 0,
/// else decimal digits. None if it is anything else, or above 2^63 - 1.
#[tactic(auto, unfolding(crate::specs::Number::digits_of_number))]
pub(crate) fn number(text: &[u8]) -> Option<u64>
    ensures { MatchOption result ((n : ℕ) → ¬ IsNumber text.now n) (IsNumber text.now) }
{
    let digits = if is_hexadecimal_text(text) {
        &text[2..]
    } else {
        text
    };
    numeral(radix(text), digits)
}

/// Whether a text begins with `0x` or `0X`.
#[tactic(auto, unfolding(crate::specs::Number::is_hexadecimal))]
fn is_hexadecimal_text(text: &[u8]) -> bool
    ensures value { result ≡ is_hexadecimal text.now }
    ensures has_digits { IsTrue result → 2 ≤ length text.now }
{
    text.len() >= 2 && text[0] == b'0' && (text[1] == b'x' || text[1] == b'X')
}

/// The radix of the digits of a number.
#[tactic(auto, unfolding(crate::specs::Number::radix_of))]
fn radix(text: &[u8]) -> u32
    ensures value { result ≡ radix_of text.now }
    ensures low { 2 ≤ result }
    ensures high { result ≤ 16 }
{
    if is_hexadecimal_text(text) {
        16
    } else if !text.is_empty() && text[0] == b'0' {
        8
    } else {
        10
    }
}

/// The number that digits of this radix spell. None if there is no digit or anything else, or the number is
/// above 2^63 - 1.
pub(crate) fn numeral(radix: u32, digits: &[u8]) -> Option<u64>
    requires low { 2 ≤ radix }
    requires high { radix ≤ 16 }
    ensures { MatchOption result ((n : ℕ) → ¬ WritesNumber radix digits.now n)
        (WritesNumber radix digits.now) }
{
    if digits.is_empty() {
        return None;
    }
    let mut value = 0;
    for digit in digits {
        value = with_digit(value, radix, *digit)?;
    }
    Some(value)
}

/// The value with one more digit appended. None if that isn't a digit of the radix, or the number is above
/// 2^63 - 1.
fn with_digit(value: u64, radix: u32, digit: u8) -> Option<u64>
    requires low { 2 ≤ radix }
    requires high { radix ≤ 16 }
    ensures { MatchOption result ((n : ℕ) → ¬ AppendsDigit radix value digit n)
        (AppendsDigit radix value digit) }
{
    let digit = char::from(digit).to_digit(radix)?;
    let more = value
        .checked_mul(u64::from(radix))?
        .checked_add(u64::from(digit))?;
    if more < LIMIT { Some(more) } else { None }
}
