//! The arguments `EXTENT:PAGE`, which name unreadable pages. Whether the disk has such a page is checked in
//! `disk_image`.
ghost use Rattle.std.specs.Prelude.{◌≡◌, ◌^◌, ◌<◌, ℕ, MatchOption, IfSome};
ghost use Rattle.scrub_args.specs.Pair.{IsDecimal, IsPair};

/// Parses `EXTENT:PAGE`: two numbers in decimal digits, each at most 4,294,967,295, with a colon between
/// them. Leading zeros are ignored; a sign or a blank is refused.
pub fn bad_page(arg: &str) -> Option<(u32, u32)>
    ensures pair { MatchOption result
        ((extent page : ℕ) → extent < 2 ^ 32 → page < 2 ^ 32 → ¬ IsPair arg.now extent page)
        (λ pair. IsPair arg.now pair.0 pair.1) }
    ensures only { IfSome result (λ pair. (extent page : ℕ) → IsPair arg.now extent page →
        (extent ≡ pair.0) × (page ≡ pair.1)) }
{
    let (extent, page) = arg.split_once(':')?;
    Some((decimal(extent)?, decimal(page)?))
}

/// The number that the text writes, if the text is decimal digits alone and the number fits.
fn decimal(text: &str) -> Option<u32>
    ensures { MatchOption result ((n : ℕ) → n < 2 ^ 32 → ¬ IsDecimal text.now n) (IsDecimal text.now) }
{
    if text.starts_with('+') {
        return None;
    }
    text.parse::<u32>().ok()
}
