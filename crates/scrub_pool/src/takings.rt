//! Who took which extents, and how many were counted. For how they were taken, see `worker`.

ghost use Rattle.std.specs.Prelude.{◌≡◌, ◌+◌, ◌<◌, ℕ, List, length, Some, slice_get};
ghost use Rattle.std.specs.List.Sorted.{IsStrictlyIncreasing};
ghost use Rattle.scrub_disk.specs.Image.{Image};
ghost use Rattle.scrub_super.specs.Plan.{PlanValue};
ghost use Rattle.scrub_scan.specs.Scanned.{Scanned};
ghost use Rattle.scrub_scan.specs.AllFindings.{AreAllFindings};
ghost use Rattle.scrub_pool.specs.Takings.{IsPartition, AreTakenInSomeSchedule};

use std::marker::Model;

/// The extents that each worker took, and last those of the caller, each list in the order in which they were
/// taken; and the ledger's total.
#[derive(Drop)]
pub struct Takings {
    // By the workers' numbers, the caller's last.
    lists: Vec<Vec<u32>>,
    counted: u64,
}

impl Model for Takings {
    ghost use Rattle.std.specs.Prelude.{◌<◌, ◌≤◌, length, map};
    ghost use Rattle.scrub_pool.specs.Takings.{TakingsValue};

    ghost Value = { TakingsValue };

    ghost view = { λ t. record { lists = map (λ l. l.items) t.lists.items; counted = t.counted } };

    ghost invariant = { λ t. (0 < length t.lists.items) × (length t.lists.items ≤ 65) };
}

impl Takings {
    ghost use Rattle.std.specs.Prelude.{◌≤◌, map};
    ghost use Rattle.scrub_pool.specs.Takings.{TakingsValue};

    /// The lists of the workers, by their numbers, the caller's last, and the ledger's total.
    pub(crate) fn new(lists: Vec<Vec<u32>>, counted: u64) -> Takings
        requires caller { 0 < length lists.items }
        requires few { length lists.items ≤ 65 }
        ensures lists { result.lists ≡ map (λ l. l.items) lists.items }
        ensures counted { result.counted ≡ counted }
    {
        Takings { lists, counted }
    }

    /// The number of workers that were asked for besides the caller.
    pub fn workers(&self) -> u32
        ensures { result + 1 ≡ length self.now.lists }
    {
        self.lists.len() as u32 - 1
    }

    /// The extents that a worker took, ascending; there may be none. The caller's number is `workers()`.
    pub fn taken_by(&self, worker: u32) -> &[u32]
        requires { worker < length self.now.lists }
        ensures { slice_get self.now.lists worker ≡ Some result.now }
    {
        self.lists[worker as usize].as_slice()
    }

    /// The ledger's total: the number of extents that were counted.
    pub fn counted(&self) -> u64
        ensures { result ≡ self.now.counted }
    {
        self.counted
    }
}

/// A law: lists that are a partition of the planned extents are what the members of a complete pool took,
/// after some schedule. `all` shows that each planned extent has findings, so that a member can finish it.
pub fn some_schedule_takes_so()
    ensures { (image : Image) (plan : PlanValue) (all : List Scanned) (lists : List (List ℕ)) →
        IsStrictlyIncreasing plan.planned → AreAllFindings image plan all → IsPartition plan.planned lists →
        AreTakenInSomeSchedule image plan lists }
{}
