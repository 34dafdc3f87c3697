//! Claims in an extent in memory: a head, and what closes the frame that it claims, where that would end. The
//! frame is there, but for the digest that a seal may have.

ghost use Rattle.std.specs.Prelude.{◌≡◌, ◌≤◌, ◌<◌, ◌*◌, ◌^◌, ℕ, List, IfSome, IfNone, IsTrue, length};
ghost use Rattle.std.specs.Prelude.{sum, ◌↔◌};
ghost use Rattle.sha2.specs.Sha256.{sha256};
ghost use Rattle.scrub_frame.specs.declared.frame.Head.{Head};
ghost use Rattle.scrub_frame.specs.Frame.{seal, seal_size};
ghost use Rattle.scrub_scan.specs.Extent.{NoFrameAt};
ghost use Rattle.scrub_loose.specs.Anywhere.{AreClaimedLengths, HasCrowd, IsClaimedLength, IsReadableClaim};
ghost use Rattle.scrub_loose.specs.steps.Held.{BeginsWithClaim, IsHeld, extent_held};
ghost use Rattle.scrub_loose.specs.steps.Search.{IsFrameHere};

use crate::held::HeldExtent;
use scrub_frame::{DIGEST_BYTES, Form, HEAD_BYTES, Head, digest_of, read_head};
use scrub_scan::Standing;

/// The first byte of a frame, in either form.
const FIRST_BYTE: u8 = 0xC5;

/// The head that the bytes begin with, if what closes the frame that it claims is where that would end. No
/// payload is looked at.
fn closed_head(bytes: &[u8]) -> Option<Head>
    ensures found { IfSome result (BeginsWithClaim bytes.now) }
    ensures none { IfNone result ((h : Head) → ¬ BeginsWithClaim bytes.now h) }
{
    let head = read_head(bytes.first_chunk::<HEAD_BYTES>()?)?;
    let end = head.form.payload_start() + head.length as usize;
    let close = head.form.close_bytes();
    if bytes.len() < end + close {
        return None;
    }
    if bytes[end..end + close] != head.form.close(&head.uuid)[..close] {
        return None;
    }
    Some(head)
}

/// The same at a place of an extent, if each byte of the frame can be read.
fn readable_claim(extent: &HeldExtent, place: usize) -> Option<Head>
    requires held { IsHeld extent.now }
    requires place { place < length extent.now.bytes.items }
    ensures found { IfSome result (IsReadableClaim (extent_held extent.now) place) }
    ensures none { IfNone result ((h : Head) → ¬ IsReadableClaim (extent_held extent.now) place h) }
{
    let head = closed_head(&extent.bytes[place..])?;
    if !extent.is_readable(place, head.frame_bytes() as usize) {
        return None;
    }
    Some(head)
}

/// The head of the frame that is claimed at a place of an extent, if each byte of that frame can be read.
/// Most places have another first byte, and nothing else of them is looked at.
pub(crate) fn claim_at(extent: &HeldExtent, place: usize) -> Option<Head>
    requires held { IsHeld extent.now }
    requires place { place < length extent.now.bytes.items }
    ensures found { IfSome result (IsReadableClaim (extent_held extent.now) place) }
    ensures none { IfNone result ((h : Head) → ¬ IsReadableClaim (extent_held extent.now) place h) }
{
    if extent.bytes[place] != FIRST_BYTE {
        return None;
    }
    readable_claim(extent, place)
}

/// The length of the payload that is claimed at a place, in bytes, or 0 if none is.
fn claimed_length(extent: &HeldExtent, place: usize) -> u32
    requires held { IsHeld extent.now }
    requires place { place < length extent.now.bytes.items }
    ensures length { IsClaimedLength (extent_held extent.now) place result }
    ensures few { result ≤ 2 ^ 26 }
{
    match claim_at(extent, place) {
        Some(head) => head.length,
        None => 0,
    }
}

/// How many bytes the payloads have that are claimed at all bytes of an extent, together.
fn claimed_bytes(extent: &HeldExtent) -> u64
    requires { IsHeld extent.now }
    ensures { (lengths : List ℕ)
        × AreClaimedLengths (extent_held extent.now) (length extent.now.bytes.items) lengths
        × (result ≡ sum lengths) }
{
    let mut all = 0;
    for place in 0..extent.bytes.len() {
        all += claimed_length(extent, place) as u64;
    }
    all
}

/// Whether an extent is crowded.
pub(crate) fn is_crowded(extent: &HeldExtent) -> bool
    requires { IsHeld extent.now }
    ensures { IsTrue result ↔ HasCrowd (extent_held extent.now) }
{
    claimed_bytes(extent) > 4 * extent.bytes.len() as u64
}

/// Whether these are the bytes between the head and a payload with this digest, in a frame of the form.
fn is_sealed(form: Form, sealed: &[u8], digest: &[u8; DIGEST_BYTES]) -> bool
    requires { length sealed.now ≡ seal_size form }
    ensures { (payload : List ℕ) → digest.now ≡ sha256 payload →
        IsTrue result ↔ (sealed.now ≡ seal form payload) }
{
    match form {
        Form::Plain => true,
        Form::Sealed => sealed == digest.as_slice(),
    }
}

/// The frame that is claimed at a place, unless it is sealed with another digest than its payload's. The
/// payload is hashed.
pub(crate) fn frame_of_claim(
    inside: &HeldExtent,
    extent: u32,
    place: usize,
    head: &Head,
) -> Option<Standing>
    requires held { IsHeld inside.now }
    requires claim { IsReadableClaim (extent_held inside.now) place head.now }
    ensures found { IfSome result (IsFrameHere (extent_held inside.now) extent place) }
    ensures none { IfNone result (NoFrameAt (extent_held inside.now) place) }
{
    let start = place + head.form.payload_start();
    let digest = digest_of(&inside.bytes[start..start + head.length as usize]);
    if !is_sealed(head.form, &inside.bytes[place + HEAD_BYTES..start], &digest) {
        return None;
    }
    Some(Standing {
        extent,
        offset: place as u32,
        form: head.form,
        uuid: head.uuid,
        length: head.length,
        digest,
    })
}
