//! The lines of doubts that `--accept` may have, and the refusal of other texts.

ghost use Rattle.std.specs.Prelude.{◌≡◌, ℕ, IfOk, List, find, map, nat_eq, not};
ghost use Rattle.std.specs.List.{starts_with};
ghost use Rattle.scrub_args.specs.Accepting.{is_acceptable, refusal_of};

use std::alloc::{AllocError, Global};
use std::marker::Model;

/// The lines of doubts that the arguments accept, as given.
#[derive(Debug, Drop)]
pub struct AcceptedDoubts<'a> {
    pub texts: Vec<&'a str>,
}

impl<'a> Model for AcceptedDoubts<'a> {
    ghost Value = { List (List ℕ) };

    ghost view = { λ a. map (λ text. text.now) a.texts.items };
}

impl<'a> AcceptedDoubts<'a> {
    /// These texts.
    pub fn new(texts: Vec<&'a str>) -> AcceptedDoubts<'a>
        ensures { result ≡ map (λ text. text.now) texts.entry.items }
    {
        AcceptedDoubts { texts }
    }
}

/// Whether a text begins with another.
fn begins(text: &[u8], front: &[u8]) -> bool
    ensures { result ≡ starts_with nat_eq text.now front.now }
{
    text.starts_with(front)
}

/// Whether the text begins as the line of a doubt that can be accepted does after the word `doubt`.
fn is_acceptable(text: &str) -> bool
    ensures { result ≡ is_acceptable text.now }
{
    let text = text.as_bytes();
    begins(text, b"superblock-damaged ")
        || begins(text, b"superblock-stray ")
        || begins(text, b"spare ")
        || begins(text, b"loose ")
        || begins(text, b"crowded ")
        || begins(text, b"tail ")
        || begins(text, b"tail-lost ")
}

/// The first text that can't be accepted.
pub fn unacceptable<'a>(texts: &[&'a str]) -> Option<&'a str>
    ensures { result ≡ find (λ text. not (is_acceptable text.now)) texts.now }
{
    texts.iter().copied().find(|text| !is_acceptable(text))
}

/// The refusal of a text that can't be accepted, in the words of `clap`.
pub fn refusal_of(alloc: Global, text: &str) -> Result<String, AllocError>
    ensures { IfOk result (λ refusal. refusal.bytes.items ≡ refusal_of text.now) }
{
    let reason = "not a line of a doubt that can be accepted, without the word doubt";
    let refusal = format!(in alloc;
        "error: invalid value '{text}' for '--accept <LINE>': {reason}\n\n\
         For more information, try '--help'.\n"
    )?;
    Ok(refusal)
}
