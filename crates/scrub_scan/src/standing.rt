//! The frame at a given place of an extent, without the tiling. `scrub_check` finds out whether an item
//! begins there.

ghost use Rattle.std.specs.Prelude.{◌≡◌, ◌<◌, ◌≤◌, ◌+◌, ℕ, List, IfOk, IfSome, IfNone};
ghost use Rattle.scrub_disk.specs.Image.{Image, extent_bytes};
ghost use Rattle.scrub_frame.specs.declared.form.Form.{Form};
ghost use Rattle.scrub_frame.specs.declared.frame.Head.{Head};
ghost use Rattle.scrub_frame.specs.Frame.{frame_overhead};
ghost use Rattle.scrub_scan.specs.Extent.{Extent, extent_of, FrameAt, NoFrameAt, HasGap};
ghost use Rattle.scrub_scan.specs.Standing.{IsStandingAt, Stands, HasPayload, IsClaimedAt, IsOnlyFrame};
ghost use Rattle.scrub_scan.specs.Standing.{HasPlainFrame};

use crate::counted_source::count_reads;
use crate::pages::{PageMemory, Target};
use crate::reading::read_bytes;
use crate::scanner::Scanner;
use scrub_disk::{OutOfMemory, PageSource};
use scrub_frame::{DIGEST_BYTES, Form, Head};
use std::alloc::Global;
use uuid::Uuid;

/// A frame that was found in an extent.
#[derive(Debug, Clone, Copy, PartialEq, Eq)]
pub struct Standing {
    /// The number of the extent.
    pub extent: u32,
    /// The byte of the extent at which the frame begins.
    pub offset: u32,
    /// The form of the frame.
    pub form: Form,
    /// The UUID of the frame.
    pub uuid: Uuid,
    /// The length of its payload, in bytes.
    pub length: u32,
    /// The SHA-256 of its payload.
    pub digest: [u8; DIGEST_BYTES],
}

/// The frame at byte `offset` of an extent, if there is one, all of it is readable, and it ends at or before
/// the pointer (in bytes too). Only the pages that its head claims are read.
pub fn frame_stands<D: PageSource>(
    alloc: Global,
    disk: &D,
    pointer: u32,
    extent: u32,
    offset: u32,
) -> Result<Option<Standing>, OutOfMemory>
    requires in_extents { extent < (D.image disk.now).geometry.extents }
    requires pointer { pointer ≤ extent_bytes (D.image disk.now).geometry }
    requires offset { offset ≤ extent_bytes (D.image disk.now).geometry }
    ensures found { IfOk result (λ found.
        IfSome found (IsStandingAt (D.image disk.now) pointer extent offset)) }
    ensures none { IfOk result (λ found.
        IfNone found (NoFrameAt (extent_of (D.image disk.now) extent pointer) offset)) }
{
    if offset >= pointer {
        return Ok(None);
    }
    let (counted, asked) = count_reads(disk);
    let target = Target::new(&counted, extent, pointer);
    let mut scanner = Scanner::new(PageMemory::new(alloc), target.page, asked)?;
    match scanner.frame_at(&counted, &target, offset as usize) {
        Some(found) => Ok(Some(found.into_standing(extent, offset))),
        None => Ok(None),
    }
}

/// The head at a place of an extent, if the frame that it claims is closed where it would end, at or before
/// the pointer. If a frame is there, it has this form, UUID and length. But there may be none: what is
/// between the head and the close isn't read, and no payload is hashed. At most four pages are read.
pub fn claimed_frame<D: PageSource>(
    alloc: Global,
    disk: &D,
    pointer: u32,
    extent: u32,
    offset: u32,
) -> Result<Option<Head>, OutOfMemory>
    requires in_extents { extent < (D.image disk.now).geometry.extents }
    requires pointer { pointer ≤ extent_bytes (D.image disk.now).geometry }
    requires offset { offset ≤ extent_bytes (D.image disk.now).geometry }
    ensures found { IfOk result (λ found.
        IfSome found (IsClaimedAt (extent_of (D.image disk.now) extent pointer) offset)) }
    ensures none { IfOk result (λ found.
        IfNone found (NoFrameAt (extent_of (D.image disk.now) extent pointer) offset)) }
{
    if offset >= pointer {
        return Ok(None);
    }
    let (counted, asked) = count_reads(disk);
    let target = Target::new(&counted, extent, pointer);
    let mut scanner = Scanner::new(PageMemory::new(alloc), target.page, asked)?;
    Ok(scanner.claimed_head(&counted, &target, offset as usize))
}

/// The payload of a frame that is in the disk's image.
pub fn read_payload<D: PageSource>(
    alloc: Global,
    disk: &D,
    standing: &Standing,
) -> Result<Vec<u8>, OutOfMemory>
    requires { Stands (D.image disk.now) standing.now }
    ensures { IfOk result (λ payload. HasPayload (D.image disk.now) standing.now payload.items) }
{
    let start = standing.offset as usize + standing.form.payload_start();
    match read_bytes(
        alloc,
        disk,
        standing.extent,
        start,
        standing.length as usize,
    )? {
        Some(payload) => Ok(payload),
        None => unreachable!(),
    }
}

/// A law: at most one frame is at a place of an extent, whatever the pointers. So `frame_stands` finds the
/// only one, and `read_payload` gives its payload.
pub fn one_frame_stands()
    ensures { (image : Image) (e v w place : ℕ) (f : Form) (t b : List ℕ) (g : Form) (u c : List ℕ) →
        FrameAt (extent_of image e v) place f t b → FrameAt (extent_of image e w) place g u c →
        (f ≡ g) × (t ≡ u) × (b ≡ c) }
{}

/// A law: where `claimed_frame` finds a head, there is a frame with these fields or none; and if the head is
/// plain and all its frame's bytes are readable, the frame is there.
pub fn a_claim_is_of_one_frame()
    ensures only { (x : Extent) (place : ℕ) (h : Head) → IsClaimedAt x place h → IsOnlyFrame x place h }
    ensures plain { (x : Extent) (place : ℕ) (h : Head) → IsClaimedAt x place h → h.form ≡ Form.Plain →
        ¬ HasGap x.byte place (h.length + frame_overhead h.form) → HasPlainFrame x place h }
{}
