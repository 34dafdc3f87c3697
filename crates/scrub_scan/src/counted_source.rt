//! A source whose reads are counted. Only a read raises the count, and code that has only the counted source
//! can't read without raising it. `pages` decides which pages are read.

ghost use Rattle.std.specs.Prelude.{◌≡◌, ◌+◌, ◌-◌, ◌^◌, ◌<◌, min, length, OnOk, OnErr, Some, None};
ghost use Rattle.scrub_disk.specs.Image.{HasWholePages};

use scrub_disk::{Geometry, PageSource, Unreadable};
use std::marker::Model;

/// A source that counts each read. Its field is private, so nobody gets the bare source back. Contracts see
/// the source.
#[derive(Drop)]
pub(crate) struct CountedSource<'d, D: PageSource> {
    source: &'d D,
}

impl<'d, D: PageSource> Model for CountedSource<'d, D> {
    ghost Value = { D };

    ghost view = { λ c. c.source.now };
}

/// How often a counted source was asked for a page. It can't be copied or made from a number: `count_reads`
/// makes it at 0, and only `read_page` raises it.
#[derive(Drop)]
pub(crate) struct PagesAsked {
    count: u64,
}

impl Model for PagesAsked {
    ghost use Rattle.std.specs.Prelude.{ℕ};

    ghost Value = { ℕ };

    ghost view = { λ a. a.count };
}

/// Wraps a source so that its reads are counted, from 0 on.
pub(crate) fn count_reads<'d, D: PageSource>(source: &'d D) -> (CountedSource<'d, D>, PagesAsked)
    ensures source { result.0 ≡ source.now }
    ensures none { result.1 ≡ 0 }
{
    (CountedSource { source }, PagesAsked { count: 0 })
}

impl PagesAsked {
    /// The count, as a number.
    pub fn count(&self) -> u64
        ensures { result ≡ self.now }
    {
        self.count
    }
}

impl<'d, D: PageSource> CountedSource<'d, D> {
    /// The disk's sizes.
    pub fn geometry(&self) -> Geometry
        ensures value { result ≡ (D.image self.now).geometry }
        // The law of each source, for callers in this crate.
        ensures whole_pages { HasWholePages (D.image self.now) }
    {
        self.source.geometry()
    }

    /// Reads one page of an extent into `out`, as the source does, and counts the call. The count stays at
    /// 2^64 - 1.
    pub fn read_page(
        &self,
        asked: &mut PagesAsked,
        extent: u32,
        page: u32,
        out: &mut [u8],
    ) -> Result<(), Unreadable>
        requires in_extents { extent < (D.image self.now).geometry.extents }
        requires in_pages { page < (D.image self.now).geometry.pages }
        requires one_page { length out.old ≡ (D.image self.now).geometry.page }
        ensures counted { asked.new ≡ min (asked.old + 1) (2 ^ 64 - 1) }
        ensures readable { OnOk result ((D.image self.now).page extent page ≡ Some out.new) }
        ensures unreadable { OnErr result ((D.image self.now).page extent page ≡ None) }
        ensures unchanged { OnErr result (out.new ≡ out.old) }
    {
        asked.count = asked.count.saturating_add(1);
        self.source.read_page(extent, page, out)
    }
}
