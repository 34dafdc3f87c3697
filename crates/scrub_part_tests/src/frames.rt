//! Digests and chunk frames of both forms, with bytes from the formats' description and from FIPS 180-4. For
//! frames that come in pieces see `matching`.

use scrub_fakes::{ABC_DIGEST, ONES};
use scrub_frame::{
    Form, Frame, FrameFault, Head, append, digest_of, read_frame, read_head, write_frame,
    write_sealed,
};
use std::test::Fail;
use uuid::Uuid;

/// The SHA-256 of no bytes.
const EMPTY_DIGEST: [u8; 32] = [
    0xe3, 0xb0, 0xc4, 0x42, 0x98, 0xfc, 0x1c, 0x14, 0x9a, 0xfb, 0xf4, 0xc8, 0x99, 0x6f, 0xb9, 0x24,
    0x27, 0xae, 0x41, 0xe4, 0x64, 0x9b, 0x93, 0x4c, 0xa4, 0x95, 0x99, 0x1b, 0x78, 0x52, 0xb8, 0x55,
];

/// The frame of `abc` whose UUID is sixteen bytes 11.
pub(crate) const ABC_FRAME: [u8; 41] = [
    0xc5, 0x5e, 0x11, 0x11, 0x11, 0x11, 0x11, 0x11, 0x11, 0x11, 0x11, 0x11, 0x11, 0x11, 0x11, 0x11,
    0x11, 0x11, 0x00, 0x00, 0x00, 0x03, 0x61, 0x62, 0x63, 0x11, 0x11, 0x11, 0x11, 0x11, 0x11, 0x11,
    0x11, 0x11, 0x11, 0x11, 0x11, 0x11, 0x11, 0x11, 0x11,
];

/// The frame without payload with that UUID.
pub(crate) const EMPTY_FRAME: [u8; 38] = [
    0xc5, 0x5e, 0x11, 0x11, 0x11, 0x11, 0x11, 0x11, 0x11, 0x11, 0x11, 0x11, 0x11, 0x11, 0x11, 0x11,
    0x11, 0x11, 0x00, 0x00, 0x00, 0x00, 0x11, 0x11, 0x11, 0x11, 0x11, 0x11, 0x11, 0x11, 0x11, 0x11,
    0x11, 0x11, 0x11, 0x11, 0x11, 0x11,
];

/// The sealed frame of `abc` with that UUID.
pub(crate) const SEALED_ABC: [u8; 75] = [
    0xc5, 0x5f, 0x11, 0x11, 0x11, 0x11, 0x11, 0x11, 0x11, 0x11, 0x11, 0x11, 0x11, 0x11, 0x11, 0x11,
    0x11, 0x11, 0x00, 0x00, 0x00, 0x03, 0xba, 0x78, 0x16, 0xbf, 0x8f, 0x01, 0xcf, 0xea, 0x41, 0x41,
    0x40, 0xde, 0x5d, 0xae, 0x22, 0x23, 0xb0, 0x03, 0x61, 0xa3, 0x96, 0x17, 0x7a, 0x9c, 0xb4, 0x10,
    0xff, 0x61, 0xf2, 0x00, 0x15, 0xad, 0x61, 0x62, 0x63, 0x11, 0x11, 0x11, 0x11, 0x11, 0x11, 0x11,
    0x11, 0x11, 0x11, 0x11, 0x11, 0x11, 0x11, 0x11, 0x11, 0x3a, 0xa3,
];

/// The sealed frame without payload with that UUID.
const SEALED_EMPTY: [u8; 72] = [
    0xc5, 0x5f, 0x11, 0x11, 0x11, 0x11, 0x11, 0x11, 0x11, 0x11, 0x11, 0x11, 0x11, 0x11, 0x11, 0x11,
    0x11, 0x11, 0x00, 0x00, 0x00, 0x00, 0xe3, 0xb0, 0xc4, 0x42, 0x98, 0xfc, 0x1c, 0x14, 0x9a, 0xfb,
    0xf4, 0xc8, 0x99, 0x6f, 0xb9, 0x24, 0x27, 0xae, 0x41, 0xe4, 0x64, 0x9b, 0x93, 0x4c, 0xa4, 0x95,
    0x99, 0x1b, 0x78, 0x52, 0xb8, 0x55, 0x11, 0x11, 0x11, 0x11, 0x11, 0x11, 0x11, 0x11, 0x11, 0x11,
    0x11, 0x11, 0x11, 0x11, 0x11, 0x11, 0x3a, 0xa3,
];

/// The UUID of sixteen bytes 11.
pub(crate) fn ones() -> Uuid {
    Uuid::from_bytes(ONES)
}

/// Whether the bytes begin with a frame of that UUID, of this form and with a payload of this length.
fn begin_with_frame(bytes: &[u8], form: Form, length: u32) -> bool {
    let frame = Frame {
        form,
        uuid: ones(),
        length,
    };
    read_frame(bytes) == Some(frame)
}

/// Whether such a frame is read, and none without its last byte.
fn is_read_whole(frame: &[u8], form: Form, length: u32) -> bool {
    match frame.split_last() {
        Some((_, front)) => begin_with_frame(frame, form, length) && read_frame(front).is_none(),
        None => false,
    }
}

/// The frame of `abc`, followed by the magic and a zero byte.
pub(crate) fn followed_frame() -> [u8; 44] {
    let mut bytes = [0; 44];
    bytes[..41].copy_from_slice(&ABC_FRAME);
    bytes[41..43].copy_from_slice(&Form::Plain.magic());
    bytes
}

/// The frame of `abc` with another last byte.
pub(crate) fn changed_frame() -> [u8; 41] {
    let mut bytes = ABC_FRAME;
    bytes[40] = 0x10;
    bytes
}

/// A head of these two bytes, and then bytes FF: it claims the greatest length.
fn head_bytes(first: u8, second: u8) -> [u8; 22] {
    let mut bytes = [0xFF; 22];
    bytes[0] = first;
    bytes[1] = second;
    bytes
}

/// A page of that head and bytes FF. If the end of the claimed payload wrapped, the UUID would be found there
/// once more.
fn page_of(head: &[u8; 22]) -> [u8; 64] {
    let mut page = [0xFF; 64];
    page[..22].copy_from_slice(head);
    page
}

#[test]
fn abc_and_no_bytes_have_their_published_digests(rt: HostRuntime) {
    assert!(rt; digest_of(b"abc") == ABC_DIGEST);
    assert!(rt; digest_of(b"") == EMPTY_DIGEST);
}

#[test]
fn the_frame_of_abc_is_appended_and_one_too_long_is_not(rt: HostRuntime) -> Result<(), Fail> {
    let mut out = Vec::with_capacity(rt.alloc(), 1)?;
    append(&mut out, &[7]);
    let too_long = vec![in rt.alloc(); 0u8; 67_108_827]?;
    assert!(rt; write_frame(&mut out, ones(), &too_long) == Err(FrameFault::TooLong));
    assert!(rt; write_frame(&mut out, ones(), b"abc").is_ok());
    assert!(rt; out.len() == 42 && out.starts_with(&[7]) && out.ends_with(&ABC_FRAME));
    Ok(())
}

#[test]
fn the_frame_of_abc_is_read_whole_or_not_at_all(rt: HostRuntime) {
    assert!(rt; is_read_whole(&ABC_FRAME, Form::Plain, 3));
    assert!(rt; begin_with_frame(&followed_frame(), Form::Plain, 3));
    assert!(rt; read_frame(&changed_frame()).is_none() && read_frame(b"").is_none());
}

#[test]
fn a_frame_without_payload_has_38_bytes(rt: HostRuntime) {
    assert!(rt; is_read_whole(&EMPTY_FRAME, Form::Plain, 0));
}

#[test]
fn the_sealed_frame_of_abc_is_appended_and_one_too_long_is_not(
    rt: HostRuntime,
) -> Result<(), Fail> {
    let mut out = Vec::with_capacity(rt.alloc(), 1)?;
    append(&mut out, &[7]);
    let too_long = vec![in rt.alloc(); 0u8; 67_108_793]?;
    assert!(rt; write_sealed(&mut out, ones(), &too_long) == Err(FrameFault::TooLong));
    assert!(rt; write_sealed(&mut out, ones(), b"abc").is_ok());
    assert!(rt; out.len() == 76 && out.starts_with(&[7]) && out.ends_with(&SEALED_ABC));
    Ok(())
}

#[test]
fn sealed_frames_are_read_whole_or_not_at_all(rt: HostRuntime) {
    assert!(rt; is_read_whole(&SEALED_ABC, Form::Sealed, 3));
    assert!(rt; is_read_whole(&SEALED_EMPTY, Form::Sealed, 0));
}

#[test]
fn a_head_begins_with_the_magic_and_claims_any_length(rt: HostRuntime) {
    assert!(rt; read_head(&head_bytes(0xFF, 0xFF)).is_none());
    assert!(rt; read_head(&head_bytes(0xC5, 0xFF)).is_none());
    let bytes = head_bytes(0xC5, 0x5E);
    let head = Head {
        form: Form::Plain,
        uuid: Uuid::from_bytes([0xFF; 16]),
        length: 4_294_967_295,
    };
    assert!(rt; read_head(&bytes) == Some(head));
    // The page ends before the claimed payload.
    assert!(rt; read_frame(&page_of(&bytes)).is_none());
    let sealed = head_bytes(0xC5, 0x5F);
    assert!(rt; read_head(&sealed).is_some_and(|head| head.form == Form::Sealed));
    assert!(rt; read_frame(&page_of(&sealed)).is_none());
}
