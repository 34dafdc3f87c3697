//! Finds the first byte of extent 0 that changed between two images and that no valid record of the later one
//! holds.

ghost use Rattle.std.specs.Prelude.{◌≡◌, IfOk};
ghost use Rattle.scrub_super.specs.Pages.{AreSuperblockPages};
ghost use Rattle.scrub_compare.specs.Written.{IsLeastNumber, IsWrittenInRecords};
ghost use Rattle.scrub_compare.specs.steps.Changes.{reach_with};

use crate::bytes::{MayChange, first_in_page};
use scrub_disk::{OutOfMemory, PageSource, read_extent};
use scrub_super::SuperblockPage;
use std::alloc::Global;

/// How far records reach, with that of a page, if it has one.
fn reach_with(reach: usize, held: &SuperblockPage) -> usize
    ensures { result ≡ reach_with reach held.now }
{
    match held {
        SuperblockPage::Record { to, .. } => reach.max(*to),
        SuperblockPage::Lost
        | SuperblockPage::Damaged { .. }
        | SuperblockPage::Stray
        | SuperblockPage::Held => reach,
    }
}

/// The first byte of extent 0 that changed between two images and may not have. The later one has these pages
/// there.
pub(crate) fn first_in_records<D: PageSource, E: PageSource>(
    alloc: Global,
    before: &D,
    after: &E,
    pages: &[SuperblockPage],
) -> Result<Option<u32>, OutOfMemory>
    requires sizes { (E.image after.now).geometry ≡ (D.image before.now).geometry }
    requires held { AreSuperblockPages (E.image after.now) pages.now }
    ensures { IfOk result (IsLeastNumber (IsWrittenInRecords (D.image before.now) (E.image after.now))) }
{
    let size = after.geometry().page() as usize;
    let old = read_extent(alloc, before, 0)?;
    let new = read_extent(alloc, after, 0)?;
    // How far the records up to this page reach.
    let mut reach = 0;
    for page in 0..pages.len() {
        reach = reach_with(reach, &pages[page]);
        let allowed = MayChange {
            room: Some(0),
            to: reach as u64,
        };
        let first = first_in_page(&old, &new, page, size, allowed);
        if first.is_some() {
            return Ok(first);
        }
    }
    Ok(None)
}
