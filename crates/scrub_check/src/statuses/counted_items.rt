//! Items that show their starts one by one and count each. Only this module sees the fields, so nothing else
//! changes the count. See `searching` for the search.

ghost use Rattle.std.specs.Prelude.{◌≡◌, ◌<◌, ◌+◌, ◌^◌, ℕ, List, map, length, slice_index};
ghost use Rattle.scrub_scan.specs.Item.{start_of};

use scrub_scan::Item;

/// Places that are shown one by one, and counted. A search that sees them only through this trait can't see
/// an uncounted one.
pub(crate) trait ShowsStarts {
    /// The places, in their order.
    ghost starts: { Self → List ℕ };
    /// How many were shown, with repetitions.
    ghost shown: { Self → ℕ };

    /// How many places there are.
    fn count(&self) -> usize
        ensures { result ≡ length (starts self.now) };

    /// The place with this index.
    fn start(&mut self, i: usize) -> u32
        requires inside { i < length (starts self.old) }
        requires counts { shown self.old + 1 < 2 ^ 32 }
        ensures start { result ≡ slice_index (starts self.old) i }
        ensures same { starts self.new ≡ starts self.old }
        ensures one_more { shown self.new ≡ shown self.old + 1 };

    /// How many were shown so far.
    fn probes(&self) -> u32
        ensures { result ≡ shown self.now };
}

/// Items that show their starts, and how many they have shown.
#[derive(Drop)]
pub(crate) struct CountedItems<'a> {
    items: &'a [Item],
    shown: u32,
}

impl<'a> CountedItems<'a> {
    /// Items, none of them shown yet.
    pub(crate) fn new(items: &'a [Item]) -> CountedItems<'a>
        ensures items { result.items.now ≡ items.now }
        ensures unseen { result.shown ≡ 0 }
    {
        CountedItems { items, shown: 0 }
    }
}

impl ShowsStarts for CountedItems<'_> {
    ghost starts = { λ c. map start_of c.items.now };

    ghost shown = { λ c. c.shown };

    fn count(&self) -> usize {
        self.items.len()
    }

    fn start(&mut self, i: usize) -> u32 {
        self.shown += 1;
        self.items[i].start()
    }

    fn probes(&self) -> u32 {
        self.shown
    }
}
