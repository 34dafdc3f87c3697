//! The two forms of a frame, and everything that depends on the form: the magic, where the payload begins,
//! and what closes the frame. `frame` and `matcher` read the bytes; `writing` writes them.

ghost use Rattle.std.specs.Prelude.{◌≡◌, ◌≤◌, ◌++◌, ◌∷◌, [], IfSome, IfNone, length, take};
ghost use Rattle.scrub_frame.specs.declared.form.Form.{Form};
ghost use Rattle.scrub_frame.specs.Frame.{magic, mark, seal_size, payload_start, close_size, frame_overhead};
ghost use Rattle.scrub_frame.specs.Frame.{longest_payload};

use crate::digest::DIGEST_BYTES;
use uuid::Uuid;

/// The size of a head in bytes, in either form: a magic (2), a UUID (16), and the payload's length,
/// big-endian (4).
pub const HEAD_BYTES: usize = 22;

/// The most bytes that follow a payload: the second UUID (16), and the closing mark of a sealed frame (2).
pub const CLOSE_BYTES: usize = 18;

/// The least number of bytes that a frame has besides its payload, in either form.
pub const LEAST_OVERHEAD: usize = 38;

/// The size of the longest frame that is written, in bytes: it fills the largest extent.
const LONGEST_FRAME: usize = 67_108_864;

/// The form of a frame.
#[derive(Debug, Clone, Copy, PartialEq, Eq)]
pub enum Form {
    /// The head (magic, UUID and length), the payload, and the UUID once more. Nothing in it shows whether
    /// the payload was changed.
    Plain,
    /// The head, the payload's SHA-256 (32), the payload, the UUID once more, and a closing mark (2).
    Sealed,
}

impl Form {
    /// The form with this magic, if there is one.
    pub fn with_magic(first: u8, second: u8) -> Option<Form>
        ensures found { IfSome result (λ form. first ∷ second ∷ [] ≡ magic form) }
        ensures none { IfNone result ((form : Form) → ¬ (first ∷ second ∷ [] ≡ magic form)) }
    {
        match (first, second) {
            (0xC5, 0x5E) => Some(Form::Plain),
            (0xC5, 0x5F) => Some(Form::Sealed),
            _ => None,
        }
    }

    /// The two bytes that a frame begins with.
    pub fn magic(self) -> [u8; 2]
        ensures { result ≡ magic self }
    {
        match self {
            Form::Plain => [0xC5, 0x5E],
            Form::Sealed => [0xC5, 0x5F],
        }
    }

    /// How many bytes are between the head and the payload.
    pub fn seal_bytes(self) -> usize
        ensures value { result ≡ seal_size self }
        ensures few { result ≤ 32 }
    {
        match self {
            Form::Plain => 0,
            Form::Sealed => DIGEST_BYTES,
        }
    }

    /// The offset in a frame at which its payload begins, in bytes.
    pub fn payload_start(self) -> usize
        ensures value { result ≡ payload_start self }
        ensures few { result ≤ 54 }
    {
        HEAD_BYTES + self.seal_bytes()
    }

    /// How many bytes follow the payload.
    pub fn close_bytes(self) -> usize
        ensures value { result ≡ close_size self }
        ensures few { result ≤ 18 }
    {
        match self {
            Form::Plain => 16,
            Form::Sealed => CLOSE_BYTES,
        }
    }

    /// How many bytes a frame has besides its payload.
    pub fn overhead(self) -> usize
        ensures value { result ≡ frame_overhead self }
        ensures few { result ≤ 72 }
    {
        self.payload_start() + self.close_bytes()
    }

    /// The longest payload that is written, in bytes: its frame fills the largest extent, which has 2^26
    /// bytes.
    pub fn longest_payload(self) -> usize
        ensures { result ≡ longest_payload self }
    {
        LONGEST_FRAME - self.overhead()
    }

    /// What follows the payload in a frame with this UUID: the first `close_bytes` of these bytes.
    pub fn close(self, uuid: &Uuid) -> [u8; CLOSE_BYTES]
        ensures { take (close_size self) result ≡ uuid.now ++ mark self }
    {
        let mut close = [0u8; CLOSE_BYTES];
        close[..16].copy_from_slice(uuid.as_bytes());
        close[16] = 0x3A;
        close[17] = 0xA3;
        close
    }
}
