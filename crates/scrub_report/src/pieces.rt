//! A list's text in pieces, which threads make.

ghost use Rattle.std.specs.Prelude.{◌≡◌, ◌<◌, ◌++◌, ℕ, IfOk, List, OnOk};
ghost use Rattle.json.specs.Print.{print};
ghost use Rattle.serde_json.specs.Data.{Data};
ghost use Rattle.serde_json.specs.Written.{comma_if};
ghost use Rattle.scrub_report.specs.steps.Tokens.{ArePieces, values_tokens};

use scrub_disk::OutOfMemory;
use std::alloc::Global;

/// A text that is a comma if something comes before it, or else empty, with this much room.
pub(crate) fn comma_if(alloc: Global, later: bool, room: usize) -> Result<Vec<u8>, OutOfMemory>
    ensures { IfOk result (λ text. text.items ≡ comma_if later) }
{
    let mut text = Vec::with_capacity(alloc, room)?;
    if later {
        text.push(b',')?;
    }
    Ok(text)
}

/// How many bytes the pieces have together, or as many as a number can say.
pub(crate) fn pieces_size(pieces: &[Result<Vec<u8>, OutOfMemory>]) -> usize {
    let mut size: usize = 0;
    for piece in pieces {
        if let Ok(text) = piece {
            size = size.saturating_add(text.len());
        }
    }
    size
}

/// Appends the texts of all pieces.
pub(crate) fn append_pieces(
    text: &mut Vec<u8>,
    pieces: Vec<Result<Vec<u8>, OutOfMemory>>,
) -> Result<(), OutOfMemory>
    ensures { (values : List Data) (size : ℕ) → 0 < size → ArePieces values size pieces.items →
        OnOk result (text.new.items ≡ text.old.items ++ print (values_tokens values)) }
{
    for piece in pieces {
        text.extend_from_slice(&piece?)?;
    }
    Ok(())
}
