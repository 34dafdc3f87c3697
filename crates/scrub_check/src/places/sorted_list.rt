//! Sorted lists: how often an element occurs in one, found by search, and whether each occurs once.

ghost use Rattle.std.specs.Prelude.{◌≡◌, ◌↔◌, IsTrue, IfOk};
ghost use Rattle.std.specs.Ordering.{is_eq};
ghost use Rattle.std.specs.List.{count_by};
ghost use Rattle.std.specs.List.Sorted.{IsPermutation, IsSorted, IsStrictlySortedBy};

use rayon::prelude::*;
use scrub_disk::OutOfMemory;
use std::alloc::Global;
use std::thread::Threads;

/// How often an element occurs in a sorted list: as often as it lies between those that are less and those
/// that are greater.
pub(crate) fn count_of<T: Ord>(sorted: &[T], one: &T) -> usize
    requires { IsSorted T.cmp sorted.now }
    ensures { result ≡ count_by (λ other. is_eq (T.cmp other one.now)) sorted.now }
{
    let below = sorted.partition_point(|other| other.cmp(one).is_lt());
    let through = sorted.partition_point(|other| other.cmp(one).is_le());
    through - below
}

/// Whether each element of a list is below the next one, so that none occurs twice.
pub(crate) fn rises_strictly<T: Ord>(list: &[T]) -> bool
    ensures { IsTrue result ↔ IsStrictlySortedBy T.cmp list.now }
{
    list.is_sorted_by(|one, next| one.cmp(next).is_lt())
}

/// A list in the order of its elements.
pub(crate) fn into_sorted<T: Ord + Drop>(mut list: Vec<T>) -> Result<Vec<T>, OutOfMemory>
    ensures sorted { IfOk result (λ v. IsSorted T.cmp v.items) }
    ensures same { IfOk result (λ v. IsPermutation list.items v.items) }
{
    list.sort()?;
    Ok(list)
}

/// The same, by two threads and one to join what they sorted.
pub(crate) fn into_sorted_by_threads<T: Ord + Drop + Send, R: Threads + Sync>(
    rt: &R,
    alloc: Global,
    mut list: Vec<T>,
) -> Result<Vec<T>, OutOfMemory>
    ensures sorted { IfOk result (λ v. IsSorted T.cmp v.items) }
    ensures same { IfOk result (λ v. IsPermutation list.items v.items) }
{
    par_sort(rt, alloc, &mut list)?;
    Ok(list)
}
