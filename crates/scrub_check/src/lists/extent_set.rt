//! Extents by number, sorted, so that whether one is among them is found by search.

ghost use Rattle.std.specs.Prelude.{◌≡◌, ◌==◌, IfOk};
ghost use Rattle.std.specs.Ordering.{nat_cmp};
ghost use Rattle.std.specs.List.{list_any};
ghost use Rattle.std.specs.List.Sorted.{IsPermutation, IsSorted};

use crate::places::sorted_list::into_sorted;
use scrub_disk::OutOfMemory;
use std::marker::Model;

/// Extents, by ascending number; one that was given several times is there as often.
#[derive(Drop)]
pub struct ExtentSet {
    numbers: Vec<u32>,
}

impl Model for ExtentSet {
    ghost use Rattle.std.specs.Prelude.{List, ℕ};
    ghost use Rattle.std.specs.Ordering.{nat_cmp};
    ghost use Rattle.std.specs.List.Sorted.{IsSorted};

    ghost Value = { List ℕ };

    ghost view = { λ s. s.numbers.items };

    ghost invariant = { λ s. IsSorted nat_cmp s.numbers.items };
}

/// Whether a number is among sorted ones.
fn has_number(numbers: &[u32], number: u32) -> bool
    requires { IsSorted nat_cmp numbers.now }
    ensures { result ≡ list_any (λ n. n == number) numbers.now }
{
    numbers.binary_search(&number).is_ok()
}

impl ExtentSet {
    /// The extents of these numbers. They are sorted once, here, for all that asks for them.
    pub fn of(numbers: Vec<u32>) -> Result<ExtentSet, OutOfMemory>
        ensures { IfOk result (λ s. IsPermutation numbers.items s) }
    {
        let numbers = into_sorted(numbers)?;
        Ok(ExtentSet { numbers })
    }

    /// Whether an extent is one of them.
    pub fn has(&self, extent: u32) -> bool
        ensures { result ≡ list_any (λ n. n == extent) self.now }
    {
        has_number(&self.numbers, extent)
    }
}
