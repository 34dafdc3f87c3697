//! What one worker took and found so far. For the queue that it takes from, see `pool_core` here or
//! `scrub_pool`.

ghost use Rattle.std.specs.Prelude.{◌≡◌, ◌≢◌, ◌+◌, ◌≤◌, ◌++◌, [], ◌∷◌, length, vec_len, Some, None, OnOk};
ghost use Rattle.std.specs.Prelude.{OnErr, IfOk, IfErr};
ghost use Rattle.std.specs.Vec.{vec_capacity};
ghost use Rattle.std.specs.Option.{option_to_list};
ghost use Rattle.scrub_book.specs.Extents.{extents_in};

use crate::OutOfMemory;
use crate::retired::Retired;
use scrub_disk::PageSource;
use scrub_scan::ExtentResult;
use std::alloc::Global;

/// The extents that a worker took, and the results of those that it doesn't hold, in the same order. It holds
/// an extent from taking it until its result is there. Spare is the number of extents that it has room for,
/// including the held one.
#[derive(Drop)]
pub struct WorkerCore<'d, D: PageSource> {
    held: Option<u32>,
    taken: Vec<u32>,
    results: Vec<ExtentResult<'d, D>>,
    spare: usize,
    ghost matched: { taken.items ≡ extents_in results.items ++ option_to_list held },
    ghost room_to_take: { vec_len taken + spare ≤ vec_capacity taken + length (option_to_list held) },
    ghost room_for_results: { vec_len results + spare ≤ vec_capacity results },
    ghost room_for_held: { length (option_to_list held) ≤ spare },
}

impl<'d, D: PageSource> WorkerCore<'d, D> {
    ghost use Rattle.scrub_scan.specs.Scanned.{scanned};
    ghost use Rattle.scrub_book.specs.Worker.{held_by, taken_by, results_of, spare_of, HasResults};
    ghost use Rattle.scrub_book.specs.Worker.{retired_taken, retired_results};

    /// A worker that took nothing and has no spare. Takes no memory.
    pub fn new(alloc: Global) -> WorkerCore<'d, D>
        ensures held { held_by result ≡ None }
        ensures taken { taken_by result ≡ [] }
        ensures results { results_of result ≡ [] }
        ensures spare { spare_of result ≡ 0 }
    {
        WorkerCore {
            held: None,
            taken: Vec::new(alloc),
            results: Vec::new(alloc),
            spare: 0,
        }
    }

    /// The number of the extent that the worker holds.
    pub(crate) fn held(&self) -> Option<u32>
        ensures held { result ≡ held_by self.now }
        // True of every value of the type.
        ensures results { HasResults self.now }
    {
        self.held
    }

    /// Makes spare at least `n` extents. If that fails, nothing changes.
    pub fn reserve(&mut self, n: usize) -> Result<(), OutOfMemory>
        ensures held { held_by self.new ≡ held_by self.old }
        ensures taken { taken_by self.new ≡ taken_by self.old }
        ensures results { results_of self.new ≡ results_of self.old }
        ensures wanted { OnOk result (n ≤ spare_of self.new) }
        ensures kept { OnOk result (spare_of self.old ≤ spare_of self.new) }
        ensures refused { OnErr result (spare_of self.new ≡ spare_of self.old) }
    {
        if n <= self.spare {
            return Ok(());
        }
        let WorkerCore {
            taken,
            results,
            spare,
            ..
        } = self;
        taken.reserve(n)?;
        results.reserve(n)?;
        *spare = n;
        Ok(())
    }

    /// Records that the worker took an extent, which it then holds. It held none, and its spare is at least
    /// 1. Takes no memory.
    pub fn took(&mut self, extent: u32)
        requires free { held_by self.old ≡ None }
        requires spare { 1 ≤ spare_of self.old }
        ensures held { held_by self.new ≡ Some extent }
        ensures taken { taken_by self.new ≡ taken_by self.old ++ extent ∷ [] }
        ensures results { results_of self.new ≡ results_of self.old }
        ensures spare { spare_of self.new ≡ spare_of self.old }
    {
        let WorkerCore { held, taken, .. } = self;
        taken.push_reserved(extent);
        *held = Some(extent);
    }

    /// Records what the worker found in the extent that it holds. Then it holds none, and its spare is one
    /// less. Takes no memory.
    pub fn done(&mut self, found: ExtentResult<'d, D>)
        requires { held_by self.old ≡ Some (scanned found).extent }
        ensures held { held_by self.new ≡ None }
        ensures taken { taken_by self.new ≡ taken_by self.old }
        ensures results { results_of self.new ≡ results_of self.old ++ found.entry ∷ [] }
        ensures spare { spare_of self.new + 1 ≡ spare_of self.old }
    {
        let WorkerCore {
            held,
            results,
            spare,
            ..
        } = self;
        results.push_reserved(found);
        *held = None;
        *spare -= 1;
    }

    /// The extents that the worker took, and their results. A worker that holds an extent is given back as it
    /// is. Takes no memory.
    pub fn retire(self) -> Result<Retired<'d, D>, WorkerCore<'d, D>>
        ensures free { IfOk result (λ r. held_by self.entry ≡ None) }
        ensures taken { IfOk result (λ r. retired_taken r ≡ taken_by self.entry) }
        ensures results { IfOk result (λ r. retired_results r ≡ results_of self.entry) }
        ensures matched { IfOk result (λ r. extents_in (retired_results r) ≡ taken_by self.entry) }
        ensures holds { OnErr result (held_by self.entry ≢ None) }
        ensures same { IfErr result (λ core. core ≡ self.entry) }
    {
        if self.held.is_some() {
            return Err(self);
        }
        let WorkerCore { taken, results, .. } = self;
        Ok(Retired::new(taken, results))
    }
}
