//! The search for the item that begins at a place. It sees the starts only through `counted_items`, which
//! counts them.

ghost use Rattle.std.specs.Prelude.{◌≡◌, ◌≤◌, ◌<◌, ◌^◌, ℕ, IfSome, IfNone, Contains, map, length};
ghost use Rattle.std.specs.Prelude.{slice_index};
ghost use Rattle.std.specs.List.Sorted.{IsStrictlyIncreasing};
ghost use Rattle.scrub_scan.specs.Item.{start_of};
ghost use Rattle.scrub_check.specs.steps.Places.{IsIndexOf};

use crate::statuses::counted_items::{CountedItems, ShowsStarts};
use scrub_scan::Item;

/// How many items from the one to look at first are looked at, before all are searched.
const MOST_LOOKS: usize = 16;

/// What a search for an item came to.
#[derive(Debug, Clone, Copy, PartialEq, Eq)]
pub struct Found {
    /// The index of the item that begins at the place, if one does.
    pub at: Option<usize>,
    /// How many items were looked at.
    pub probes: u32,
}

/// The index of a place among ascending places. Each probe halves them.
fn search<S: ShowsStarts>(among: &mut S, start: u32) -> Option<usize>
    requires rising { IsStrictlyIncreasing (S.starts among.old) }
    requires unseen { S.shown among.old ≡ 0 }
    ensures found { IsIndexOf (S.starts among.old) start result }
    ensures few { (digits : ℕ) → length (S.starts among.old) < 2 ^ digits → S.shown among.new ≤ digits }
    ensures some { 0 < length (S.starts among.old) → 1 ≤ S.shown among.new }
{
    let mut low = 0;
    let mut high = among.count();
    while low < high {
        let middle = low + (high - low) / 2;
        let other = among.start(middle);
        if other == start {
            return Some(middle);
        }
        if other < start {
            low = middle + 1;
        } else {
            high = middle;
        }
    }
    None
}

/// What the search for a place comes to, with as many probes as the places counted.
fn find<S: ShowsStarts>(among: &mut S, start: u32) -> Found
    requires rising { IsStrictlyIncreasing (S.starts among.old) }
    requires unseen { S.shown among.old ≡ 0 }
    ensures found { IsIndexOf (S.starts among.old) start result.at }
    ensures counted { result.probes ≡ S.shown among.new }
    ensures few { (digits : ℕ) → length (S.starts among.old) < 2 ^ digits → S.shown among.new ≤ digits }
    ensures some { 0 < length (S.starts among.old) → 1 ≤ S.shown among.new }
{
    let at = search(among, start);
    Found {
        at,
        probes: among.probes(),
    }
}

/// The item that begins at a byte of the extent, among items whose starts ascend. Each probe halves the
/// items, so there are at most as many probes as the number of items has binary digits, and at least one if
/// there are items.
pub fn find_start(items: &[Item], start: u32) -> Found
    requires { IsStrictlyIncreasing (map start_of items.now) }
    ensures found { IfSome result.at (λ i.
        (i < length items.now) × (slice_index (map start_of items.now) i ≡ start)) }
    ensures none { IfNone result.at (¬ Contains (map start_of items.now) start) }
    ensures probes { (digits : ℕ) → length items.now < 2 ^ digits → result.probes ≤ digits }
    ensures looked { 0 < length items.now → 1 ≤ result.probes }
{
    find(&mut CountedItems::new(items), start)
}

/// The item that begins at a byte of the extent, if it is one of the first from this index on.
fn found_near(items: &[Item], start: u32, near: usize) -> Option<usize>
    ensures { IfSome result (λ i. (i < length items.now) × (slice_index (map start_of items.now) i ≡ start)) }
{
    for i in near..near.saturating_add(MOST_LOOKS).min(items.len()) {
        if items[i].start() == start {
            return Some(i);
        }
    }
    None
}

/// The item that begins at a byte of the extent, as `find_start` finds it, looked for from this index on
/// first.
pub(crate) fn find_near(items: &[Item], start: u32, near: usize) -> Option<usize>
    requires { IsStrictlyIncreasing (map start_of items.now) }
    ensures { IsIndexOf (map start_of items.now) start result }
{
    match found_near(items, start, near) {
        Some(i) => Some(i),
        None => find_start(items, start).at,
    }
}
