//! Tests whether bytes are zero by the largest of them. That is fast: many are compared by one instruction.

ghost use Rattle.std.specs.Prelude.{◌≡◌, ◌<◌, ◌↔◌, ℕ, IsTrue, length, slice_index};

/// How many bytes the test looks at before it may end.
const STEP: usize = 1024;

/// The largest of these bytes; 0 if there is none.
fn largest(part: &[u8]) -> u8
    ensures { (result ≡ 0) ↔ ((k : ℕ) → k < length part.now → slice_index part.now k ≡ 0) }
{
    let mut most = 0u8;
    for byte in part {
        most = most.max(*byte);
    }
    most
}

/// Whether all bytes of a part are zero.
pub fn is_zero(part: &[u8]) -> bool
    ensures { IsTrue result ↔ ((k : ℕ) → k < length part.now → slice_index part.now k ≡ 0) }
{
    // Most parts that aren't zero begin with another byte.
    if !part.is_empty() && part[0] != 0 {
        return false;
    }
    let mut place = 0;
    while place < part.len() {
        let stop = part.len().min(place + STEP);
        let most = largest(&part[place..stop]);
        if 0 < most {
            return false;
        }
        place = stop;
    }
    true
}
