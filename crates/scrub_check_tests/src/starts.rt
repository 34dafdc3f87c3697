//! The search for the item that begins at a place, and how many items it looks at.

use crate::compare::same;
use scrub_check::{Found, find_start};
use scrub_scan::Item;

/// The item at `start` among items that begin at 0, 41, 64 and 128, and how many of them the search looked
/// at.
fn found_at(start: u32) -> Found {
    let items = [
        Item::Noise { start: 0, stop: 41 },
        Item::Noise {
            start: 41,
            stop: 64,
        },
        Item::Pad {
            start: 64,
            stop: 128,
        },
        Item::Lost {
            start: 128,
            stop: 169,
        },
    ];
    find_start(&items, start)
}

#[test]
fn an_item_is_found_at_its_start_and_nowhere_else(rt: HostRuntime) {
    let found = [0, 41, 64, 128].map(|start| found_at(start).at);
    same(&rt, found, [Some(0), Some(1), Some(2), Some(3)]);
    let missed = [1, 40, 63, 129].map(|start| found_at(start).at);
    same(&rt, missed, [None; 4]);
}

#[test]
fn the_search_among_four_items_looks_at_three_at_most(rt: HostRuntime) {
    for start in [0, 41, 64, 128, 129] {
        assert!(rt; found_at(start).probes <= 3);
    }
    same(
        &rt,
        find_start(&[], 0),
        Found {
            at: None,
            probes: 0,
        },
    );
}
