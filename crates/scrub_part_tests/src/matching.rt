//! Frames of both forms, found in bytes that come in pieces. The bytes are those of `frames`.

ghost use Rattle.std.specs.Prelude.{◌<◌, ◌≤◌, length};

use crate::frames::{ABC_FRAME, EMPTY_FRAME, SEALED_ABC, changed_frame, followed_frame, ones};
use scrub_fakes::ABC_DIGEST;
use scrub_frame::{Fed, Form, Matcher, read_frame};

/// The answer to bytes fed in two pieces, cut at a place.
fn fed_in_two(bytes: &[u8], place: usize) -> Fed
    requires some { 0 < place }
    requires more { place < length bytes.now }
{
    let mut matcher = Matcher::new(bytes.len() as u64);
    match matcher.feed(&bytes[..place]) {
        Fed::More => matcher.feed(&bytes[place..]),
        answer => answer,
    }
}

/// The answer to bytes fed one by one: the first that isn't `More`.
fn fed_by_bytes(bytes: &[u8], room: u64) -> Fed
    requires { length bytes.now ≤ room }
{
    if bytes.is_empty() {
        return Fed::More;
    }
    let mut matcher = Matcher::new(room);
    for i in 0..bytes.len() {
        match matcher.feed(&bytes[i..i + 1]) {
            Fed::More => {}
            answer => return answer,
        }
    }
    Fed::More
}

/// The answer for a frame of `abc`, if `used` bytes of the last piece belong to it.
fn abc_found(form: Form, used: usize) -> Fed {
    Fed::Whole {
        used,
        form,
        uuid: ones(),
        length: 3,
        digest: ABC_DIGEST,
    }
}

/// The sealed frame of `abc` with one byte changed.
fn changed_at(place: usize) -> [u8; 75]
    requires { place < 75 }
{
    let mut bytes = SEALED_ABC;
    bytes[place] ^= 1;
    bytes
}

#[test]
fn the_frame_of_abc_is_found_in_any_two_pieces_and_byte_by_byte(rt: HostRuntime) {
    for place in 1..41 {
        assert!(rt; fed_in_two(&ABC_FRAME, place) == abc_found(Form::Plain, 41 - place));
        assert!(rt; fed_in_two(&changed_frame(), place) == Fed::No);
    }
    assert!(rt; fed_by_bytes(&ABC_FRAME, 41) == abc_found(Form::Plain, 1));
    assert!(rt; fed_by_bytes(&followed_frame(), 44) == abc_found(Form::Plain, 1));
    assert!(rt; fed_in_two(&followed_frame(), 40) == abc_found(Form::Plain, 1));
    assert!(rt; fed_in_two(&followed_frame(), 43) == abc_found(Form::Plain, 41));
}

#[test]
fn the_sealed_frame_of_abc_is_found_in_any_two_pieces_and_byte_by_byte(rt: HostRuntime) {
    for place in 1..75 {
        assert!(rt; fed_in_two(&SEALED_ABC, place) == abc_found(Form::Sealed, 75 - place));
    }
    assert!(rt; fed_by_bytes(&SEALED_ABC, 75) == abc_found(Form::Sealed, 1));
    assert!(rt; fed_by_bytes(&SEALED_ABC[..74], 75) == Fed::More);
    assert!(rt; fed_by_bytes(&SEALED_ABC[..74], 74) == Fed::No);
}

#[test]
fn a_sealed_frame_with_any_byte_changed_is_not_found(rt: HostRuntime) {
    for place in 0..75 {
        let bytes = changed_at(place);
        assert!(rt; read_frame(&bytes).is_none(), "{place}");
        assert!(rt; fed_by_bytes(&bytes, 75) == Fed::No, "{place}");
    }
}

#[test]
fn a_frame_without_room_is_not_found(rt: HostRuntime) {
    assert!(rt; fed_by_bytes(&ABC_FRAME[..40], 40) == Fed::No);
    assert!(rt; fed_by_bytes(&ABC_FRAME[..40], 41) == Fed::More);
    assert!(rt; fed_by_bytes(&changed_frame(), 64) == Fed::No);
    assert!(rt; fed_by_bytes(&EMPTY_FRAME[..21], 21) == Fed::No);
}
