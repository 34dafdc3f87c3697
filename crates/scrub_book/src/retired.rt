//! What a retired worker took and found. For a worker at work, see `worker_core`.

ghost use Rattle.std.specs.Prelude.{◌≡◌};
ghost use Rattle.scrub_book.specs.Extents.{extents_in};

use scrub_disk::PageSource;
use scrub_scan::ExtentResult;

/// The extents that a worker took, and their results in the same order, one for each extent.
#[derive(Drop)]
pub struct Retired<'d, D: PageSource> {
    taken: Vec<u32>,
    results: Vec<ExtentResult<'d, D>>,
    ghost matched: { taken.items ≡ extents_in results.items },
}

impl<'d, D: PageSource> Retired<'d, D> {
    ghost use Rattle.scrub_book.specs.Worker.{retired_taken, retired_results};

    /// Made of the extents taken and their results.
    pub(crate) fn new(taken: Vec<u32>, results: Vec<ExtentResult<'d, D>>) -> Retired<'d, D>
        requires { taken.items ≡ extents_in results.items }
        ensures taken { retired_taken result ≡ taken.items }
        ensures results { retired_results result ≡ results.entry.items }
    {
        Retired { taken, results }
    }

    /// The numbers of the extents that the worker took, in the order in which it took them.
    pub fn taken(&self) -> &[u32]
        ensures taken { result.now ≡ retired_taken self.now }
        // True of every value of the type.
        ensures matched { result.now ≡ extents_in (retired_results self.now) }
    {
        self.taken.as_slice()
    }

    /// The results of these extents, in that order.
    pub fn results(&self) -> &[ExtentResult<'d, D>]
        ensures results { result.now ≡ retired_results self.now }
        // True of every value of the type.
        ensures matched { extents_in result.now ≡ retired_taken self.now }
    {
        self.results.as_slice()
    }

    /// The results of these extents by value, in that order. Takes no memory.
    pub fn into_results(self) -> Vec<ExtentResult<'d, D>>
        ensures results { result.items ≡ retired_results self.entry }
        // True of every value of the type.
        ensures matched { extents_in result.items ≡ retired_taken self.entry }
    {
        self.into_parts().1
    }

    /// The extents and their results by value, both in that order. Takes no memory.
    pub fn into_parts(self) -> (Vec<u32>, Vec<ExtentResult<'d, D>>)
        ensures taken { result.0.items ≡ retired_taken self.entry }
        ensures results { result.1.items ≡ retired_results self.entry }
        // True of every value of the type.
        ensures matched { result.0.items ≡ extents_in result.1.items }
    {
        let Retired { taken, results } = self;
        (taken, results)
    }
}
