//! Pages in memory, many of which may be zero: those aren't stored. For a whole disk of such blocks see
//! `parts`.

ghost use Rattle.std.specs.Prelude.{◌≡◌, ◌+◌, ◌*◌, ◌<◌, ◌≤◌, ◌^◌, ◌++◌, [], None, IfOk, OnOk, length};
ghost use Rattle.std.specs.Prelude.{if◌then◌else◌, replicate, slice_index_or};
ghost use Rattle.std.specs.Bool.{OnFalse};
ghost use Rattle.scrub_disk.specs.Stored.{HasPages, block_text, page_text};
ghost use Rattle.scrub_disk.specs.steps.Added.{AddsPages};

use crate::OutOfMemory;
use crate::zeros::is_zero;
use std::alloc::Global;

/// Pages that follow one another, of which only those with a byte that isn't zero are stored.
#[derive(Drop)]
pub(crate) struct Block {
    /// The bytes of the stored pages, one page after another.
    bytes: Vec<u8>,
    /// For each page its number among the stored ones, or None if all its bytes are zero.
    slots: Vec<Option<u16>>,
}

/// Whether a page has to be stored: it was read, and has a byte that isn't zero.
fn is_kept(page: &[u8], unreadable: bool) -> bool
    ensures { OnFalse unreadable (OnFalse result (page.now ≡ replicate (length page.now) 0)) }
{
    !unreadable && !is_zero(page)
}

impl Block {
    /// No page yet, with room for `pages` of `page` bytes each. Room that nothing was put into takes
    /// addresses, and no memory.
    pub(crate) fn with_room(alloc: Global, page: usize, pages: usize) -> Result<Block, OutOfMemory>
        requires { page * pages < 2 ^ 63 }
        ensures { IfOk result (λ b. (b.bytes.items ≡ []) × (b.slots.items ≡ [])) }
    {
        Ok(Block {
            bytes: Vec::with_capacity(alloc, page * pages)?,
            slots: Vec::with_capacity(alloc, pages)?,
        })
    }

    /// One more page: its bytes if it is kept, else zeros. Takes and returns how many pages are stored.
    fn add(&mut self, stored: usize, page: &[u8], is_kept: bool) -> Result<usize, OutOfMemory>
        requires few { stored < 2 ^ 16 }
        requires stored { length self.old.bytes.items ≡ stored * length page.now }
        requires pages { HasPages (length page.now) self.old }
        ensures text { OnOk result (block_text (length page.now) self.new
            ≡ block_text (length page.now) self.old ++
            (if is_kept then page.now else replicate (length page.now) 0)) }
        ensures pages { OnOk result (HasPages (length page.now) self.new) }
        ensures stored { IfOk result (λ n. length self.new.bytes.items ≡ n * length page.now) }
        ensures few { IfOk result (λ n. n ≤ stored + 1) }
    {
        if !is_kept {
            self.slots.push(None)?;
            return Ok(stored);
        }
        self.bytes.extend_from_slice(page)?;
        self.slots.push(Some(stored as u16))?;
        Ok(stored + 1)
    }

    /// More pages. The bytes of an unreadable page mean nothing, and aren't kept. Takes and returns how many
    /// pages are stored.
    pub(crate) fn add_pages(
        &mut self,
        stored: usize,
        page: usize,
        bytes: &[u8],
        unreadable: &[bool],
    ) -> Result<usize, OutOfMemory>
        requires page { 0 < page }
        requires few { stored + length unreadable.now ≤ 2 ^ 16 }
        requires whole { length bytes.now ≡ page * length unreadable.now }
        requires stored { length self.old.bytes.items ≡ stored * page }
        requires pages { HasPages page self.old }
        ensures pages { OnOk result (HasPages page self.new) }
        ensures added { OnOk result
            (AddsPages page self.old self.new (length unreadable.now) bytes.now unreadable.now) }
        ensures stored { IfOk result (λ n. length self.new.bytes.items ≡ n * page) }
        ensures few { IfOk result (λ n. n ≤ stored + length unreadable.now) }
    {
        let mut stored = stored;
        for (number, &is_unreadable) in unreadable.iter().enumerate() {
            let start = number * page;
            let bytes = &bytes[start..start + page];
            stored = self.add(stored, bytes, is_kept(bytes, is_unreadable))?;
        }
        Ok(stored)
    }

    /// Gives back the room that no page took. If that fails, the block keeps it.
    pub(crate) fn give_back(&mut self)
        ensures bytes { self.new.bytes.items ≡ self.old.bytes.items }
        ensures slots { self.new.slots.items ≡ self.old.slots.items }
    {
        self.bytes.shrink_to_fit();
    }

    /// Reads one page of the block, counted from 0, into `out`, which is one page long.
    pub(crate) fn read_page(&self, number: usize, out: &mut [u8])
        requires pages { HasPages (length out.old) self.now }
        requires in_block { number < length self.now.slots.items }
        ensures { out.new ≡ page_text (length out.old) self.now.bytes.items
            (slice_index_or self.now.slots.items number None) }
    {
        match self.slots[number] {
            None => out.fill(0),
            Some(slot) => {
                let start = slot as usize * out.len();
                out.copy_from_slice(&self.bytes[start..start + out.len()]);
            }
        }
    }
}
