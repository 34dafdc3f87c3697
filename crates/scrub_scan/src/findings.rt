//! What was found in an extent: its items, its tail and its unreadable pages. `scanning` finds them.

ghost use Rattle.std.specs.Prelude.{◌≡◌};

use crate::item::Items;
use std::marker::Model;

/// Numbers of pages of an extent, ascending.
#[derive(Drop)]
pub struct PageNumbers {
    pub(crate) pages: Vec<u32>,
}

impl Model for PageNumbers {
    ghost use Rattle.std.specs.Prelude.{List, ℕ};

    ghost Value = { List ℕ };

    ghost view = { λ a. a.pages.items };
}

impl PageNumbers {
    /// The numbers as a slice.
    pub fn as_slice(&self) -> &[u32]
        ensures { result.now ≡ self.now }
    {
        self.pages.as_slice()
    }
}

/// What was found in an extent with a write pointer.
#[derive(Drop)]
pub struct Findings {
    /// The items below the pointer, in order.
    pub items: Items,
    /// How many readable bytes at or past the pointer aren't zero.
    pub tail_count: u32,
    /// The place of the first of these, in bytes.
    pub tail_first: Option<u32>,
    /// All unreadable pages of the extent, on both sides of the pointer.
    pub bad_pages: PageNumbers,
}

impl Findings {
    /// The items below the write pointer, in order.
    pub fn items(&self) -> &[crate::item::Item]
        ensures { result.now ≡ self.now.items }
    {
        self.items.as_slice()
    }

    /// How many readable bytes at or past the write pointer aren't zero.
    pub fn tail_count(&self) -> u32
        ensures { result ≡ self.now.tail_count }
    {
        self.tail_count
    }

    /// The place of the first such byte, counted from the start of the extent.
    pub fn tail_first(&self) -> Option<u32>
        ensures { result ≡ self.now.tail_first }
    {
        self.tail_first
    }

    /// The numbers of all unreadable pages of the extent, ascending.
    pub fn bad_pages(&self) -> &[u32]
        ensures { result.now ≡ self.now.bad_pages }
    {
        self.bad_pages.as_slice()
    }
}
