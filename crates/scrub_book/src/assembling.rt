//! The findings of one reader, assembled from results that arrived in any order. For who scans, see
//! `scrub_pool`.

ghost use Rattle.std.specs.Prelude.{◌≡◌, [], All, Some, map};
ghost use Rattle.std.specs.List.Sorted.{IsPermutation};
ghost use Rattle.scrub_super.specs.Plan.{pointer_of};
ghost use Rattle.scrub_scan.specs.Scanned.{result_image, scanned};
ghost use Rattle.scrub_scan.specs.AllFindings.{AreAllFindings, IsOfImage};
ghost use Rattle.scrub_book.specs.Extents.{extents_in};

use crate::book::Book;
use scrub_disk::PageSource;
use scrub_scan::{AllFindings, ExtentResult};

/// What one reader finds, assembled from results that arrived in any order: one result for each planned
/// extent of the book and no other, all of the book's disk and under the write pointers of its plan. The book
/// has no result yet. Takes no memory.
pub fn assemble<'d, D: PageSource>(
    mut book: Book<'d, D>,
    arrived: Vec<ExtentResult<'d, D>>,
) -> AllFindings<'d, D>
    requires nothing { book.came ≡ [] }
    requires images { All (λ r. result_image r ≡ D.image book.source) arrived.items }
    requires pointers { All (λ r. pointer_of book.plan r.extent ≡ Some r.pointer) arrived.items }
    requires each { IsPermutation (extents_in arrived.items) book.plan.planned }
    ensures found { AreAllFindings (D.image book.entry.source) book.entry.plan result.extents }
    ensures image { IsOfImage (λ s. D.image s) result (D.image book.entry.source) }
    ensures arrived { IsPermutation (map scanned arrived.entry.items) result.extents }
{
    for found in arrived {
        match book.add(found) {
            Ok(()) => (),
            Err(_) => unreachable!(),
        }
    }
    match book.finish() {
        Ok(all) => all,
        Err(_) => unreachable!(),
    }
}
