//! Finds the first byte of an extent that changed between two images and may not have.

ghost use Rattle.std.specs.Prelude.{◌≡◌, ◌<◌, ◌≤◌, ◌+◌, ◌*◌, ◌/◌, ℕ, IfOk, IsTrue, Some, None, length, true};
ghost use Rattle.std.specs.Str.{bytes_eq};
ghost use Rattle.scrub_disk.specs.Image.{extent_bytes};
ghost use Rattle.scrub_disk.specs.Limits.{max_extent_bytes};
ghost use Rattle.scrub_compare.specs.Written.{IsLeastNumber, IsWrittenIn};
ghost use Rattle.scrub_compare.specs.steps.Changes.{may_change};
ghost use Rattle.scrub_compare.specs.steps.Changes.{IsFirstWithin, IsLeastWithin, byte_at, is_refused};
ghost use Rattle.scrub_compare.specs.steps.Changes.{is_refused_at, is_refused_in, is_same_byte, is_zeroed};

use scrub_disk::{BufferedExtent, Geometry, OutOfMemory, PageSource, read_extent};
use std::alloc::Global;

/// Where a byte may change: not in front of the place of room, and before byte `to` or zero now. Without room
/// none may.
#[derive(Clone, Copy)]
pub(crate) struct MayChange {
    pub room: Option<u64>,
    pub to: u64,
}

/// Whether two bytes are the same, or neither can be read.
fn is_same_byte(old: Option<u8>, new: Option<u8>) -> bool
    ensures { result ≡ is_same_byte old new }
{
    match (old, new) {
        (Some(old), Some(new)) => old == new,
        (None, None) => true,
        _ => false,
    }
}

/// Whether both bytes can be read, and the later one is zero.
fn is_zeroed(old: Option<u8>, new: Option<u8>) -> bool
    ensures { result ≡ is_zeroed old new }
{
    match (old, new) {
        (Some(_), Some(new)) => new == 0,
        _ => false,
    }
}

/// Whether the byte at a place may change.
fn may_change(allowed: MayChange, place: u64, old: Option<u8>, new: Option<u8>) -> bool
    ensures { result ≡ may_change allowed.room allowed.to place old new }
{
    match allowed.room {
        Some(from) => place >= from && (place < allowed.to || is_zeroed(old, new)),
        None => false,
    }
}

/// Whether the byte at a place changed, and may not.
fn is_refused(allowed: MayChange, place: u64, old: Option<u8>, new: Option<u8>) -> bool
    ensures { result ≡ is_refused allowed.room allowed.to place old new }
{
    !is_same_byte(old, new) && !may_change(allowed, place, old, new)
}

/// The byte at a place of an extent that was read, in a page of this number, if that page could be read.
fn byte_at(extent: &BufferedExtent, page: usize, place: usize) -> Option<u8>
    requires page { page < length extent.now.readable.items }
    requires place { place < length extent.now.bytes.items }
    ensures { result ≡ byte_at extent.now page place }
{
    if extent.readable[page] {
        Some(extent.bytes[place])
    } else {
        None
    }
}

fn are_same(old: &[u8], new: &[u8]) -> bool
    ensures { result ≡ bytes_eq old.now new.now }
{
    old == new
}

/// Whether the bytes from `start` up to `end` of page `page` are the same in two extents.
fn is_same_page(
    old: &BufferedExtent,
    new: &BufferedExtent,
    page: usize,
    start: usize,
    end: usize,
) -> bool
    requires order { start ≤ end }
    requires old_page { page < length old.now.readable.items }
    requires old_bytes { end ≤ length old.now.bytes.items }
    requires new_page { page < length new.now.readable.items }
    requires new_bytes { end ≤ length new.now.bytes.items }
    ensures { IsTrue result → (place : ℕ) → start ≤ place → place < end →
        byte_at old.now page place ≡ byte_at new.now page place }
{
    if old.readable[page] != new.readable[page] {
        return false;
    }
    are_same(&old.bytes[start..end], &new.bytes[start..end])
}

/// The first byte from `start` up to `end` of page `page` that changed and may not.
fn search(
    old: &BufferedExtent,
    new: &BufferedExtent,
    page: usize,
    start: usize,
    end: usize,
    allowed: MayChange,
) -> Option<u32>
    requires few { end ≤ max_extent_bytes }
    requires old_page { page < length old.now.readable.items }
    requires old_bytes { end ≤ length old.now.bytes.items }
    requires new_page { page < length new.now.readable.items }
    requires new_bytes { end ≤ length new.now.bytes.items }
    ensures { IsFirstWithin start end (is_refused_at old.now new.now allowed.room allowed.to page) result }
{
    for place in start..end {
        let (before, after) = (byte_at(old, page, place), byte_at(new, page, place));
        if is_refused(allowed, place as u64, before, after) {
            return Some(place as u32);
        }
    }
    None
}

/// The first byte of page `page`, which has `size` bytes, that changed and may not.
pub(crate) fn first_in_page(
    old: &BufferedExtent,
    new: &BufferedExtent,
    page: usize,
    size: usize,
    allowed: MayChange,
) -> Option<u32>
    requires few { page * size + size ≤ max_extent_bytes }
    requires old_page { page < length old.now.readable.items }
    requires old_bytes { page * size + size ≤ length old.now.bytes.items }
    requires new_page { page < length new.now.readable.items }
    requires new_bytes { page * size + size ≤ length new.now.bytes.items }
    ensures { IsFirstWithin (page * size) (page * size + size)
        (is_refused_at old.now new.now allowed.room allowed.to page) result }
{
    let start = page * size;
    let end = start + size;
    if is_same_page(old, new, page, start, end) {
        return None;
    }
    search(old, new, page, start, end, allowed)
}

/// The first byte of an extent that changed and may not.
fn first_in_extent(
    old: &BufferedExtent,
    new: &BufferedExtent,
    geometry: Geometry,
    allowed: MayChange,
) -> Option<u32>
    requires old_pages { length old.now.readable.items ≡ geometry.pages }
    requires old_bytes { length old.now.bytes.items ≡ geometry.page * geometry.pages }
    requires new_pages { length new.now.readable.items ≡ geometry.pages }
    requires new_bytes { length new.now.bytes.items ≡ geometry.page * geometry.pages }
    ensures { IsLeastWithin 0 (geometry.page * geometry.pages)
        (λ p. is_refused_at old.now new.now allowed.room allowed.to (p / geometry.page) p ≡ true) result }
{
    let size = geometry.page() as usize;
    for page in 0..geometry.pages() as usize {
        let first = first_in_page(old, new, page, size, allowed);
        if first.is_some() {
            return first;
        }
    }
    None
}

/// The first byte of an extent that changed between two images and may not have. The extent is read whole
/// from both.
fn first_refused<D: PageSource, E: PageSource>(
    alloc: Global,
    before: &D,
    after: &E,
    extent: u32,
    allowed: MayChange,
) -> Result<Option<u32>, OutOfMemory>
    requires sizes { (E.image after.now).geometry ≡ (D.image before.now).geometry }
    requires extent { extent < (D.image before.now).geometry.extents }
    ensures { IfOk result (IsLeastWithin 0 (extent_bytes (D.image before.now).geometry)
        (λ p. is_refused_in (D.image before.now) (E.image after.now) allowed.room allowed.to extent p ≡
        true)) }
{
    let old = read_extent(alloc, before, extent)?;
    let new = read_extent(alloc, after, extent)?;
    Ok(first_in_extent(&old, &new, before.geometry(), allowed))
}

/// The first byte of an extent from 1 on that changed between two images and may not have, by where the
/// extent had room, and by its write pointer now.
pub(crate) fn first_written<D: PageSource, E: PageSource>(
    alloc: Global,
    before: &D,
    after: &E,
    extent: u32,
    room: Option<u64>,
    pointer: u32,
) -> Result<Option<u32>, OutOfMemory>
    requires sizes { (E.image after.now).geometry ≡ (D.image before.now).geometry }
    requires extent { extent < (D.image before.now).geometry.extents }
    ensures { IfOk result
        (IsLeastNumber (IsWrittenIn (D.image before.now) (E.image after.now) room pointer extent)) }
{
    let to = pointer as u64;
    first_refused(alloc, before, after, extent, MayChange { room, to })
}
