//! Where to look first for the item that begins at a place, so that most items are found in a look or two,
//! wherever they lie. These are hints: nothing rests on them, since what is looked at is compared. See
//! `searching` for the search.

ghost use Rattle.std.specs.Prelude.{◌<◌, length};

use scrub_disk::{OutOfMemory, PageSource};
use scrub_frame::Locator;
use scrub_scan::{AllFindings, ExtentResult, Item};
use std::alloc::Global;
use std::thread::{Threads, map_indices};

/// With fewer locators than this, they are searched for without hints.
const WORTH_HINTS: usize = 4_096;

/// How many items there are for each share of an extent, on average.
const ITEMS_A_SHARE: usize = 2;

/// Where the items of an extent are, by equal shares of its bytes.
#[derive(Drop)]
struct Shares {
    /// The number of the extent.
    extent: u32,
    /// How many bytes a share has: at least one.
    bytes: u32,
    /// The index of the first item that begins in each share; 0 where none does.
    firsts: Vec<u32>,
}

/// Where the items of all extents are.
#[derive(Drop)]
pub(crate) struct Nearby {
    /// By ascending extent.
    extents: Vec<Shares>,
}

/// The index of the first of these items that begins in each of `count` shares of so many bytes.
fn firsts_of(
    alloc: Global,
    items: &[Item],
    bytes: u32,
    count: usize,
) -> Result<Vec<u32>, OutOfMemory>
    requires { 0 < bytes }
{
    let mut firsts = vec![in alloc; 0; count]?;
    let mut last = count;
    for i in 0..items.len() {
        let share = (items[i].start() / bytes) as usize;
        if share != last && share < firsts.len() {
            firsts[share] = u32::try_from(i).unwrap_or(0);
            last = share;
        }
    }
    Ok(firsts)
}

/// Where the items of an extent are.
fn shares_of<D: PageSource>(
    alloc: Global,
    found: &ExtentResult<'_, D>,
) -> Result<Shares, OutOfMemory> {
    let items = found.findings().items();
    let count = items.len() / ITEMS_A_SHARE + 1;
    let bytes = (found.pointer() as usize / count).saturating_add(1);
    let bytes = u32::try_from(bytes).unwrap_or(u32::MAX).max(1);
    Ok(Shares {
        extent: found.extent(),
        bytes,
        firsts: firsts_of(alloc, items, bytes, count)?,
    })
}

/// Where the items of each extent are, found by several threads.
fn all_shares<R: Threads + Sync, D: PageSource>(
    rt: &R,
    alloc: Global,
    all: &AllFindings<'_, D>,
) -> Result<Vec<Result<Shares, OutOfMemory>>, OutOfMemory> {
    map_indices(
        rt,
        alloc,
        all.len(),
        &|i: usize| -> Result<Shares, OutOfMemory>
            requires { i < length all.now.extents }
        { shares_of(alloc, all.result_at(i)) },
    )
}

impl Nearby {
    /// Where the items are, for so many locators; nothing is known for few of them.
    pub(crate) fn of<R: Threads + Sync, D: PageSource>(
        rt: &R,
        alloc: Global,
        all: &AllFindings<'_, D>,
        locators: usize,
    ) -> Result<Nearby, OutOfMemory> {
        let mut extents = Vec::new(alloc);
        if locators >= WORTH_HINTS {
            for shares in all_shares(rt, alloc, all)? {
                extents.push(shares?)?;
            }
        }
        Ok(Nearby { extents })
    }

    /// The index of the item to look at first for a locator, among those of its extent.
    pub(crate) fn first(&self, locator: &Locator) -> usize {
        let Ok(at) = self
            .extents
            .binary_search_by_key(&locator.extent, |shares| shares.extent)
        else {
            return 0;
        };
        let shares = &self.extents[at];
        let share = (locator.offset / shares.bytes.max(1)) as usize;
        match shares.firsts.get(share) {
            Some(first) => *first as usize,
            None => 0,
        }
    }
}
