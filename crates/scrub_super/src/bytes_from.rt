//! Extent 0, read from its last page to its first. Only as many bytes are held as a record can have.

ghost use Rattle.std.specs.Prelude.{◌≡◌, ◌+◌, ◌<◌, ◌≤◌, ℕ, List, Option, None, IfOk, false, is_none, length};
ghost use Rattle.std.specs.Prelude.{min, not, take, true};
ghost use Rattle.scrub_disk.specs.Image.{extent_bytes};
ghost use Rattle.scrub_super.specs.steps.BytesFrom.{IsReadInFront, longest_record};
ghost use Rattle.scrub_super.specs.steps.PagesFound.{image_with};

use crate::head::{Head, MAX_RUNS, body_len};
use scrub_disk::{Geometry, OutOfMemory, PageSource};
use scrub_frame::DIGEST_BYTES;
use std::alloc::Global;

/// The bytes of extent 0 from a page on: at least as many as the longest record has, or up to the first byte
/// that can't be read.
#[derive(Drop)]
pub(crate) struct BytesFrom {
    /// Room for them and one page more.
    bytes: Vec<u8>,
    /// How many there are.
    length: usize,
}

/// How many bytes of extent 0 the longest record can have.
fn longest_in_extent(geometry: Geometry) -> usize
    ensures { result ≡ min (longest_record geometry) (extent_bytes geometry) }
{
    let head = Head {
        generation: 0,
        runs: MAX_RUNS,
        retired: Some(geometry.extents() as usize - 1),
    };
    let longest = body_len(geometry, head) + DIGEST_BYTES;
    longest.min(geometry.extent_bytes() as usize)
}

/// Moves the first `kept` bytes of a buffer behind a page, and reads the page in front of them. Returns
/// whether it is readable.
fn read_in_front<D: PageSource>(disk: &D, page: u32, kept: usize, buffer: &mut [u8]) -> bool
    requires in_pages { page < (D.image disk.now).geometry.pages }
    requires room { (D.image disk.now).geometry.page + kept ≤ length buffer.old }
    ensures length { length buffer.new ≡ length buffer.old }
    ensures readable { result ≡ true → IsReadInFront (D.image disk.now) page kept buffer.old buffer.new }
    ensures lost { result ≡ false → (D.image disk.now).page 0 page ≡ None }
{
    let size = disk.geometry().page() as usize;
    buffer.copy_within(0..kept, size);
    let (front, _) = buffer.split_at_mut(size);
    disk.read_page(0, page, front).is_ok()
}

impl BytesFrom {
    ghost use Rattle.scrub_super.specs.steps.BytesFrom.{HoldsBytesFrom};

    /// None, as after the last page.
    pub fn new(alloc: Global, geometry: Geometry) -> Result<BytesFrom, OutOfMemory>
        ensures { IfOk result (λ held. (page : ℕ → ℕ → Option (List ℕ)) →
            HoldsBytesFrom (image_with geometry page) geometry.pages held) }
    {
        let size = geometry.page() as usize + longest_in_extent(geometry);
        Ok(BytesFrom {
            bytes: vec![in alloc; 0u8; size]?,
            length: 0,
        })
    }

    /// Reads a page in front of the bytes from the next page on. If it is unreadable, there are no bytes.
    /// Returns whether it is readable.
    pub fn read<D: PageSource>(&mut self, disk: &D, page: u32) -> bool
        requires in_pages { page < (D.image disk.now).geometry.pages }
        requires held { HoldsBytesFrom (D.image disk.now) (page + 1) self.old }
        ensures held { HoldsBytesFrom (D.image disk.now) page self.new }
        ensures readable { is_none ((D.image disk.now).page 0 page) ≡ not result }
    {
        let size = disk.geometry().page() as usize;
        let kept = self.length.min(self.bytes.len() - size);
        if !read_in_front(disk, page, kept, &mut self.bytes) {
            self.length = 0;
            return false;
        }
        self.length = size + kept;
        true
    }

    /// The bytes.
    pub fn as_slice(&self) -> &[u8]
        requires { self.now.length ≤ length self.now.bytes.items }
        ensures { result.now ≡ take self.now.length self.now.bytes.items }
    {
        &self.bytes[..self.length]
    }

    /// The bytes of the page itself, none if it is unreadable.
    pub fn page(&self, geometry: Geometry) -> &[u8]
        requires { self.now.length ≤ length self.now.bytes.items }
        ensures { result.now ≡ take (min geometry.page self.now.length) self.now.bytes.items }
    {
        let size = geometry.page() as usize;
        &self.bytes[..size.min(self.length)]
    }
}
