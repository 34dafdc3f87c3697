//! Writes frames to the end of a byte list.

ghost use Rattle.std.specs.Prelude.{◌≡◌, ◌+◌, ◌<◌, ◌≤◌, ◌++◌, ◌↔◌, length, vec_len, vec_capacity, OnOk};
ghost use Rattle.std.specs.Prelude.{OnErr};
ghost use Rattle.scrub_frame.specs.declared.form.Form.{Form};
ghost use Rattle.scrub_frame.specs.Frame.{seal, seal_size, mark, close_size, frame_of, longest_payload};

use crate::digest::digest_of;
use crate::form::Form;
use byteorder::{BigEndian, ByteOrder};
use thiserror::Error;
use uuid::Uuid;

/// Why a frame was not written.
#[derive(Debug, Clone, Copy, PartialEq, Eq, Error)]
pub enum FrameFault {
    /// The payload has more bytes than the form's `longest_payload`.
    #[error("the payload is too long for a frame")]
    TooLong,
    /// The list could not grow by the frame.
    #[error("out of memory")]
    OutOfMemory,
}

/// Appends the plain frame of a UUID and a payload. Faults, in this order: `TooLong`, `OutOfMemory`. After
/// either, `out` is unchanged.
pub fn write_frame(out: &mut Vec<u8>, uuid: Uuid, payload: &[u8]) -> Result<(), FrameFault>
    ensures ok { OnOk result (out.new.items ≡ out.old.items ++ frame_of Form.Plain uuid payload.now) }
    ensures fits { OnOk result (length payload.now ≤ longest_payload Form.Plain) }
    ensures too_long { (result ≡ Err FrameFault.TooLong) ↔ (longest_payload Form.Plain < length payload.now) }
    ensures err { OnErr result (out.new.items ≡ out.old.items) }
{
    write_form(out, Form::Plain, uuid, payload)
}

/// Appends the sealed frame of a UUID and a payload. Faults, in this order: `TooLong`, `OutOfMemory`. After
/// either, `out` is unchanged.
pub fn write_sealed(out: &mut Vec<u8>, uuid: Uuid, payload: &[u8]) -> Result<(), FrameFault>
    ensures ok { OnOk result (out.new.items ≡ out.old.items ++ frame_of Form.Sealed uuid payload.now) }
    ensures fits { OnOk result (length payload.now ≤ longest_payload Form.Sealed) }
    ensures too_long { (result ≡ Err FrameFault.TooLong) ↔
        (longest_payload Form.Sealed < length payload.now) }
    ensures err { OnErr result (out.new.items ≡ out.old.items) }
{
    write_form(out, Form::Sealed, uuid, payload)
}

/// Appends the frame of this form, with a UUID and a payload.
fn write_form(out: &mut Vec<u8>, form: Form, uuid: Uuid, payload: &[u8]) -> Result<(), FrameFault>
    ensures ok { OnOk result (out.new.items ≡ out.old.items ++ frame_of form uuid payload.now) }
    ensures fits { OnOk result (length payload.now ≤ longest_payload form) }
    ensures too_long { (result ≡ Err FrameFault.TooLong) ↔ (longest_payload form < length payload.now) }
    ensures err { OnErr result (out.new.items ≡ out.old.items) }
{
    if payload.len() > form.longest_payload() {
        return Err(FrameFault::TooLong);
    }
    let mut size = [0u8; 4];
    BigEndian::write_u32(&mut size, payload.len() as u32);
    out.reserve(payload.len() + form.overhead())
        .map_err(|_| FrameFault::OutOfMemory)?;
    append(out, &form.magic());
    append(out, uuid.as_bytes());
    append(out, &size);
    append_seal(out, form, payload);
    append(out, payload);
    append(out, &form.close(&uuid)[..form.close_bytes()]);
    Ok(())
}

/// Appends the bytes between head and payload in a frame of the form. The list has room for them.
fn append_seal(out: &mut Vec<u8>, form: Form, payload: &[u8])
    requires { vec_len out.old + seal_size form ≤ vec_capacity out.old }
    ensures items { out.new.items ≡ out.old.items ++ seal form payload.now }
    ensures size { vec_len out.new ≡ vec_len out.old + seal_size form }
    ensures capacity { vec_capacity out.old ≤ vec_capacity out.new }
{
    match form {
        Form::Plain => {}
        Form::Sealed => append(out, &digest_of(payload)),
    }
}

/// Appends bytes to a list that has room for them. Takes no memory.
pub fn append(out: &mut Vec<u8>, bytes: &[u8])
    requires { vec_len out.old + length bytes.now ≤ vec_capacity out.old }
    ensures items { out.new.items ≡ out.old.items ++ bytes.now }
    ensures capacity { vec_capacity out.old ≤ vec_capacity out.new }
{
    match out.extend_from_slice(bytes) {
        Ok(()) => {}
        Err(_) => unreachable!(),
    }
}
