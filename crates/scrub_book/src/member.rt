//! A member of the pool: a worker, or what is kept of one that retired. For which extent it takes, see
//! `pool_core`.

ghost use Rattle.std.specs.Prelude.{◌≡◌, ◌&&◌, ◌++◌, is_none, [], ◌∷◌, Some, None, true, false, OnOk, OnErr};
ghost use Rattle.std.specs.Prelude.{IfOk, map};
ghost use Rattle.scrub_scan.specs.Scanned.{scanned};
ghost use Rattle.scrub_book.specs.steps.Member.{member_value, results_in, HasRoom};
ghost use Rattle.scrub_book.specs.Pool.{idle, taking, having_found, through};

use crate::OutOfMemory;
use crate::worker_core::WorkerCore;
use scrub_disk::PageSource;
use scrub_scan::ExtentResult;
use std::alloc::Global;
use std::mem;

/// A worker, or the extents that a retired worker took.
#[derive(Drop)]
pub(crate) enum Member<'d, D: PageSource> {
    Working(WorkerCore<'d, D>),
    Through(Vec<u32>),
}

impl<'d, D: PageSource> Member<'d, D> {
    /// A worker that did nothing yet, with room for an extent.
    pub(crate) fn new(alloc: Global) -> Result<Member<'d, D>, OutOfMemory>
        ensures value { IfOk result (λ m. member_value m ≡ idle) }
        ensures results { IfOk result (λ m. results_in m ≡ []) }
        ensures room { IfOk result HasRoom }
    {
        let mut core = WorkerCore::new(alloc);
        core.reserve(1)?;
        Ok(Member::Working(core))
    }

    /// The extent that it holds.
    pub(crate) fn held(&self) -> Option<u32>
        ensures { result ≡ (member_value self.now).held }
    {
        match self {
            Member::Working(core) => core.held(),
            Member::Through(_) => None,
        }
    }

    /// Whether it has retired.
    pub(crate) fn has_retired(&self) -> bool
        ensures { result ≡ (member_value self.now).has_retired }
    {
        matches!(self, Member::Through(_))
    }

    /// Whether it has retired, and holds nothing.
    pub(crate) fn is_through(&self) -> bool
        ensures { result ≡ (is_none (member_value self.now).held && (member_value self.now).has_retired) }
    {
        self.held().is_none() && self.has_retired()
    }

    /// Takes an extent, which it then holds. Takes no memory.
    pub(crate) fn took(&mut self, extent: u32)
        requires working { (member_value self.old).has_retired ≡ false }
        requires free { (member_value self.old).held ≡ None }
        requires room { HasRoom self.old }
        ensures value { member_value self.new ≡ taking (member_value self.old) extent }
        ensures results { results_in self.new ≡ results_in self.old }
        ensures room { HasRoom self.new }
    {
        match self {
            Member::Working(core) => core.took(extent),
            Member::Through(_) => unreachable!(),
        }
    }

    /// Finishes the extent that it holds, and makes room for another. If that fails, nothing changes.
    pub(crate) fn done(&mut self, found: ExtentResult<'d, D>) -> Result<(), OutOfMemory>
        requires held { (member_value self.old).held ≡ Some found.extent }
        ensures value { OnOk result (member_value self.new ≡
            having_found (member_value self.old) (scanned found.entry)) }
        ensures results { OnOk result (results_in self.new ≡ results_in self.old ++ found.entry ∷ []) }
        ensures same { OnErr result ((member_value self.new ≡ member_value self.old) ×
            (results_in self.new ≡ results_in self.old)) }
        ensures room { HasRoom self.old → HasRoom self.new }
    {
        match self {
            Member::Working(core) => {
                core.reserve(2)?;
                core.done(found);
                Ok(())
            }
            Member::Through(_) => unreachable!(),
        }
    }

    /// Retires, and hands on its results. Takes no memory.
    pub(crate) fn retire(&mut self, alloc: Global) -> Vec<ExtentResult<'d, D>>
        requires working { (member_value self.old).has_retired ≡ false }
        requires free { (member_value self.old).held ≡ None }
        ensures value { member_value self.new ≡ through (member_value self.old) }
        ensures results { (result.items ≡ results_in self.old) × (results_in self.new ≡ []) }
        ensures room { HasRoom self.new }
    {
        let Member::Working(core) = mem::replace(self, Member::Through(Vec::new(alloc))) else {
            unreachable!()
        };
        let Ok(retired) = core.retire() else {
            unreachable!()
        };
        let (taken, results) = retired.into_parts();
        *self = Member::Through(taken);
        results
    }
}
