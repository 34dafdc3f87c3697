//! Locators and their sixty bytes, one by one and in lists. For the status of a locator on a disk see
//! `status` in `scrub_tests`.

ghost use Rattle.std.specs.Prelude.{◌≡◌};

use crate::frames::ones;
use scrub_fakes::abc_at;
use scrub_frame::{Locator, append_locators, locate, read_locator, read_locators, write_locator};
use std::test::Fail;

/// The locator of the chunk `abc` at extent 1, offset 0.
const ABC_LOCATOR: [u8; 60] = [
    0x00, 0x00, 0x00, 0x01, 0x00, 0x00, 0x00, 0x00, 0x00, 0x00, 0x00, 0x03, 0x11, 0x11, 0x11, 0x11,
    0x11, 0x11, 0x11, 0x11, 0x11, 0x11, 0x11, 0x11, 0x11, 0x11, 0x11, 0x11, 0xba, 0x78, 0x16, 0xbf,
    0x8f, 0x01, 0xcf, 0xea, 0x41, 0x41, 0x40, 0xde, 0x5d, 0xae, 0x22, 0x23, 0xb0, 0x03, 0x61, 0xa3,
    0x96, 0x17, 0x7a, 0x9c, 0xb4, 0x10, 0xff, 0x61, 0xf2, 0x00, 0x15, 0xad,
];

#[test]
fn the_locator_of_abc_is_read_and_written(rt: HostRuntime) {
    let locator = locate(1, 0, ones(), b"abc");
    assert!(rt; locator == abc_at(1, 0));
    assert!(rt; write_locator(&locator) == ABC_LOCATOR);
    assert!(rt; read_locator(&ABC_LOCATOR) == locator);
    assert!(rt; written_and_read(&locator) == locator);
}

/// Any locator that was written is read back: this follows from the contracts alone.
fn written_and_read(locator: &Locator) -> Locator
    ensures { result ≡ locator.now }
{
    read_locator(&write_locator(locator))
}

/// Any bytes that were read as a locator are written again.
fn read_and_written(bytes: &[u8; 60]) -> [u8; 60]
    ensures { result ≡ bytes.now }
{
    write_locator(&read_locator(bytes))
}

#[test]
fn any_sixty_bytes_are_a_locator(rt: HostRuntime) {
    let bytes = [0xFF; 60];
    assert!(rt; read_and_written(&bytes) == bytes);
}

/// The bytes of the locator of `abc` at offset 41.
fn moved_locator() -> [u8; 60] {
    let mut bytes = ABC_LOCATOR;
    bytes[7] = 41;
    bytes
}

/// Whether these locators are that of `abc` and the one at offset 41, in this order.
fn are_in_order(locators: &[Locator]) -> bool {
    let abc = read_locator(&ABC_LOCATOR);
    locators == [abc, Locator { offset: 41, ..abc }].as_slice()
}

#[test]
fn two_locators_are_written_and_read_in_their_order(rt: HostRuntime) -> Result<(), Fail> {
    let bytes = [ABC_LOCATOR, moved_locator()];
    let read = read_locators(rt.alloc(), bytes.as_flattened(), 2)?;
    assert!(rt; are_in_order(&read));
    let mut out = Vec::with_capacity(rt.alloc(), 120)?;
    append_locators(&mut out, &read);
    assert!(rt; out.as_slice() == bytes.as_flattened());
    Ok(())
}
