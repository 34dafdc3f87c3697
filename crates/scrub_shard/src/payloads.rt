//! The payloads for the locators of a shard: each from the locator's own place, or else from its first spare,
//! or else from its first loose copy. An empty payload is read nowhere.

ghost use Rattle.std.specs.Prelude.{◌≡◌, All, IfOk};
ghost use Rattle.std.specs.List.{list_any, position};
ghost use Rattle.scrub_shard.specs.Shard.{asks_for_nothing};
ghost use Rattle.scrub_shard.specs.steps.Payloads.{AreBytesBy, HasPayloadLeft, IsPayloadBy, is_lost_by};

use scrub_check::{Checked, payload_at};
use scrub_disk::{OutOfMemory, PageSource};
use scrub_frame::{Locator, digest_of};
use scrub_loose::Copies;
use scrub_scan::read_payload;
use std::alloc::Global;

/// Whether a locator asks for no bytes: its length is 0, and its digest is that of no bytes.
fn asks_for_nothing(locator: &Locator) -> bool
    ensures { result ≡ asks_for_nothing locator.now }
{
    locator.length == 0 && locator.digest == digest_of(&[])
}

/// Whether no payload is left for a locator: it asks for bytes, dangles, and has no copy.
pub(crate) fn is_lost(copies: &Copies, one: &Checked) -> bool
    ensures { result ≡ is_lost_by copies.now one.now }
{
    !asks_for_nothing(&one.locator) && one.status.is_dangling() && copies.of_one(one).is_empty()
}

/// The number of the first locator without a payload, if there is one.
pub(crate) fn first_lost(copies: &Copies, own: &[Checked]) -> Option<usize>
    ensures { result ≡ position (is_lost_by copies.now) own.now }
{
    own.iter().position(|one| is_lost(copies, one))
}

/// Whether one of these locators has no payload.
pub(crate) fn is_broken(copies: &Copies, own: &[Checked]) -> bool
    ensures { result ≡ list_any (is_lost_by copies.now) own.now }
{
    own.iter().any(|one| is_lost(copies, one))
}

/// The payload for a locator: no bytes if it asks for none; or else that of its chunk if the locator is sound
/// or hidden, or that of its first copy.
pub(crate) fn payload_for<D: PageSource>(
    alloc: Global,
    disk: &D,
    copies: &Copies,
    one: &Checked,
) -> Result<Vec<u8>, OutOfMemory>
    requires { HasPayloadLeft (D.image disk.now) copies.now one.now }
    ensures { IfOk result (λ payload. IsPayloadBy (D.image disk.now) copies.now one.now payload.items) }
{
    if asks_for_nothing(&one.locator) {
        return Ok(Vec::new(alloc));
    }
    if !one.status.is_dangling() {
        return payload_at(alloc, disk, &one.locator);
    }
    match copies.of_one(one).first() {
        Some(copy) => read_payload(alloc, disk, copy),
        None => unreachable!(),
    }
}

/// The payloads for these locators, one directly after another.
pub(crate) fn bytes_for<D: PageSource>(
    alloc: Global,
    disk: &D,
    copies: &Copies,
    own: &[Checked],
) -> Result<Vec<u8>, OutOfMemory>
    requires { All (HasPayloadLeft (D.image disk.now) copies.now) own.now }
    ensures { IfOk result (λ bytes. AreBytesBy (D.image disk.now) copies.now own.now bytes.items) }
{
    let mut bytes = Vec::new(alloc);
    for one in own {
        let payload = payload_for(alloc, disk, copies, one)?;
        bytes.extend_from_slice(&payload)?;
    }
    Ok(bytes)
}
