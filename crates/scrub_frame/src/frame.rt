//! Reads frames from bytes. `scrub_scan` decides which bytes of a disk to read.

ghost use Rattle.std.specs.Prelude.{◌≡◌, ◌+◌, ◌≤◌, ◌++◌, ◌↔◌, List, [], ℕ, length, take, slice_range, IfSome};
ghost use Rattle.std.specs.Prelude.{IfNone, IsTrue};
ghost use Rattle.scrub_frame.specs.declared.form.Form.{Form};
ghost use Rattle.scrub_frame.specs.Frame.{magic, head, seal, seal_size, payload_start, frame_overhead};
ghost use Rattle.scrub_frame.specs.Frame.{frame_of};
ghost use Rattle.scrub_frame.specs.Frame.{HasFrame, BeginsWithFrame, BeginsWithNoFrame};

use crate::digest::digest_of;
use crate::form::{Form, HEAD_BYTES};
use byteorder::{BigEndian, ByteOrder};
use uuid::Uuid;

/// The head of a frame: a magic, a UUID, and the length of the payload.
#[derive(Debug, Clone, Copy, PartialEq, Eq)]
pub struct Head {
    /// The form of the frame, from its magic.
    pub form: Form,
    /// The UUID of the frame.
    pub uuid: Uuid,
    /// The length that the head claims for its payload, in bytes. It can be any `u32`.
    pub length: u32,
}

impl Head {
    /// The size of the frame that the head claims, in bytes.
    pub fn frame_bytes(&self) -> u64
        ensures value { result ≡ self.now.length + frame_overhead self.now.form }
        ensures few { result ≤ 4294967367 }
    {
        self.length as u64 + self.form.overhead() as u64
    }

    /// The offset in that frame just past its payload, in bytes.
    pub fn payload_end(&self) -> u64
        ensures value { result ≡ payload_start self.now.form + self.now.length }
        ensures few { result ≤ 4294967349 }
    {
        self.form.payload_start() as u64 + self.length as u64
    }
}

/// A frame that was found, without its payload. Its bytes are the magic of its form (2), a UUID (16), the
/// payload's length as a big-endian number (4), the payload's SHA-256 (32, sealed only), the payload, the
/// same UUID again (16), and the closing mark 3A A3 (2, sealed only).
#[derive(Debug, Clone, Copy, PartialEq, Eq)]
pub struct Frame {
    /// The form of the frame.
    pub form: Form,
    /// The UUID on both sides of the payload.
    pub uuid: Uuid,
    /// The length of the payload, in bytes. The frame is `form.overhead()` bytes longer.
    pub length: u32,
}

/// Parses a head of 22 bytes: a magic, a UUID, and a big-endian length. `None` if the magic is of neither
/// form. A valid head doesn't mean that a whole frame follows.
pub fn read_head(bytes: &[u8; HEAD_BYTES]) -> Option<Head>
    ensures found { IfSome result (λ h. bytes.now ≡ head h.form h.uuid h.length) }
    ensures none { IfNone result ((form : Form) → ¬ (take 2 bytes.now ≡ magic form)) }
{
    let form = Form::with_magic(bytes[0], bytes[1])?;
    Some(Head {
        form,
        uuid: uuid_at(&bytes[2..]),
        length: BigEndian::read_u32(&bytes[18..]),
    })
}

/// The frame that the bytes begin with; its payload is the `length` bytes from `form.payload_start()` on.
/// `None` if they begin with no frame, or end before the frame does. Only the payload of a sealed frame is
/// checked, by its digest.
pub fn read_frame(bytes: &[u8]) -> Option<Frame>
    ensures found { IfSome result (λ f.
        BeginsWithFrame bytes.now f.form f.uuid
        (slice_range bytes.now (payload_start f.form) (payload_start f.form + f.length))) }
    ensures whole { IfSome result (λ f. f.length + frame_overhead f.form ≤ length bytes.now) }
    ensures none { IfNone result (BeginsWithNoFrame bytes.now) }
{
    let head = read_head(bytes.first_chunk::<HEAD_BYTES>()?)?;
    let start = head.form.payload_start();
    let end = start + head.length as usize;
    let close = head.form.close_bytes();
    if bytes.len() < end + close {
        return None;
    }
    if bytes[end..end + close] != head.form.close(&head.uuid)[..close] {
        return None;
    }
    if !is_sealed(head.form, &bytes[HEAD_BYTES..start], &bytes[start..end]) {
        return None;
    }
    Some(Frame {
        form: head.form,
        uuid: head.uuid,
        length: head.length,
    })
}

/// Whether these are the bytes between head and payload in a frame of the form. Takes no memory.
fn is_sealed(form: Form, sealed: &[u8], payload: &[u8]) -> bool
    requires { length sealed.now ≡ seal_size form }
    ensures { IsTrue result ↔ (sealed.now ≡ seal form payload.now) }
{
    match form {
        Form::Plain => true,
        Form::Sealed => sealed == digest_of(payload).as_slice(),
    }
}

/// The UUID that the bytes begin with.
pub(crate) fn uuid_at(bytes: &[u8]) -> Uuid
    requires { 16 ≤ length bytes.now }
    ensures { result ≡ take 16 bytes.now }
{
    let mut uuid = [0u8; 16];
    uuid.copy_from_slice(&bytes[..16]);
    Uuid::from_bytes(uuid)
}

/// A law: bytes begin with at most one frame, of either form. So `read_frame` finds the only one.
pub fn one_frame()
    ensures { (bytes : List ℕ) (form : Form) (uuid payload : List ℕ) (other_form : Form)
        (other_uuid other_payload : List ℕ) →
        BeginsWithFrame bytes form uuid payload → BeginsWithFrame bytes other_form other_uuid other_payload →
        (form ≡ other_form) × (uuid ≡ other_uuid) × (payload ≡ other_payload) }
{}

/// A law: no frame is a proper prefix of a frame, in either form. If one begins with another, nothing is left
/// over, and both have the same form, UUID and payload.
pub fn no_frame_begins_another()
    ensures { (form : Form) (uuid payload rest : List ℕ) (other_form : Form)
        (other_uuid other_payload : List ℕ) →
        HasFrame uuid payload → HasFrame other_uuid other_payload →
        frame_of form uuid payload ++ rest ≡ frame_of other_form other_uuid other_payload →
        (rest ≡ []) × (form ≡ other_form) × (uuid ≡ other_uuid) × (payload ≡ other_payload) }
{}

/// A law: besides its payload a frame has 38 bytes, or 72 if it is sealed.
pub fn bytes_besides_the_payload()
    ensures { (form : Form) (uuid payload : List ℕ) → HasFrame uuid payload →
        length (frame_of form uuid payload) ≡ frame_overhead form + length payload }
{}
