//! The superblock records of a raw image of any sizes, and what is lost of it, as lines.

ghost use Rattle.std.specs.Prelude.{◌≡◌, ◌↔◌, ℕ, All, List, Bool, IfOk, IsTrue};
ghost use Rattle.std.specs.Prelude.{Option, Some};
ghost use Rattle.scrub_listings.specs.declared.sizes_listing.SizesFound.{SizesFound};
ghost use Rattle.scrub_listings.specs.declared.sizes_listing.SizesFound.TheVariants.{Certain};
ghost use Rattle.scrub_listings.specs.Sizes.{AreSizesLines, AreSizesOf, IsCleanFront, IsSizesListingOf};
ghost use Rattle.scrub_disk.specs.declared.geometry.Geometry.{Geometry};
ghost use Rattle.scrub_super.specs.UnknownSizes.{IsFrontOf};
ghost use Rattle.scrub_listings.specs.steps.Sizes.{AreCleanLists, AreSizesIn, AreUncertainLists};

mod lines;

use crate::listing::Listing;
use crate::sizes_listing::lines::{lines_in_order, lines_text};
use scrub_disk::{Geometry, OutOfMemory};
use scrub_super::{FoundRecord, FoundSuperblocks, Front};
use std::alloc::Global;

/// What the superblock records in the front of a raw image say of the sizes of its disk.
#[derive(Debug, Clone, Copy, PartialEq, Eq)]
pub enum SizesFound {
    /// All records have these sizes, and nothing is lost.
    Certain(Geometry),
    /// There is a record, but something is lost.
    Uncertain,
    /// There is no record, or nothing is lost and not all records have the same sizes.
    NotFound,
}

/// Whether each record has these sizes.
fn have_sizes(records: &[FoundRecord], geometry: Geometry) -> bool
    ensures { IsTrue result ↔ All (λ r. r.geometry ≡ geometry) records.now }
{
    for found in records {
        if found.geometry != geometry {
            return false;
        }
    }
    true
}

/// Whether there is a record, all records have the same sizes, and nothing is lost.
fn is_clean(found: &FoundSuperblocks) -> bool
    ensures { IsTrue result ↔ AreCleanLists found.now.records.items found.now.lost.items }
{
    if found.records.is_empty() || !found.lost.is_empty() {
        return false;
    }
    have_sizes(&found.records, found.records[0].geometry)
}

/// Whether there is a record, and something is lost.
fn is_uncertain(found: &FoundSuperblocks) -> bool
    ensures { IsTrue result ↔ AreUncertainLists found.now.records.items found.now.lost.items }
{
    !found.records.is_empty() && !found.lost.is_empty()
}

/// What the records say of the sizes.
fn sizes_in(found: &FoundSuperblocks) -> SizesFound
    ensures { AreSizesIn found.now.records.items found.now.lost.items result }
{
    if is_clean(found) {
        SizesFound::Certain(found.records[0].geometry)
    } else if is_uncertain(found) {
        SizesFound::Uncertain
    } else {
        SizesFound::NotFound
    }
}

/// Finds the sizes of the disk in the front of a raw image: those that all its superblock records have. They
/// are uncertain if there is a record, but something is lost there, and not found if there is no record, or
/// if nothing is lost and not all records have the same sizes. The only fault is `OutOfMemory`.
pub fn find_sizes(alloc: Global, front: &Front) -> Result<SizesFound, OutOfMemory>
    ensures { IfOk result (λ found. (raw : Option (List ℕ)) (lacking : ℕ → Bool) (fails : ℕ → ℕ → Bool)
        (failures : ℕ) → IsFrontOf raw lacking fails failures front.now →
        AreSizesOf raw lacking fails failures found) }
{
    let found = front.superblocks(alloc)?;
    Ok(sizes_in(&found))
}

/// A law: the sizes that are found in given bytes are the same whichever bytes are lacking and whichever
/// reads fail.
pub fn one_size()
    ensures { (bytes : List ℕ) (lacking others : ℕ → Bool) (fails faults : ℕ → ℕ → Bool) (failures more : ℕ)
        (g h : Geometry) →
        AreSizesOf (Some bytes) lacking fails failures (Certain g) →
        AreSizesOf (Some bytes) others faults more (Certain h) →
        g ≡ h }
{}

/// Lists the superblock records in the front of a raw image, each with its own sizes, and what is lost of it.
/// It is clean if there is a record, all records have the same sizes, and nothing is lost.
///
/// The lines come by ascending start: `OFFSET KIND GENERATION PAGE PAGES EXTENTS` for each record, and
/// `lost FROM TO` for each run of lost blocks. OFFSET, PAGE, FROM and TO are in bytes. TO is the byte after
/// the last lost byte. The only fault is `OutOfMemory`.
pub fn list_sizes(alloc: Global, front: &Front) -> Result<Listing, OutOfMemory>
    ensures { IfOk result (λ l. (raw : Option (List ℕ)) (lacking : ℕ → Bool) (fails : ℕ → ℕ → Bool)
        (failures : ℕ) → IsFrontOf raw lacking fails failures front.now →
        IsSizesListingOf raw lacking fails failures l.text.items l.is_clean) }
{
    let found = front.superblocks(alloc)?;
    let lines = lines_in_order(alloc, &found.records, &found.lost)?;
    let text = lines_text(alloc, &lines)?;
    let is_clean = is_clean(&found);
    Ok(Listing { text, is_clean })
}

/// A law: for given bytes and lost blocks there is at most one listing.
pub fn one_sizes_listing()
    ensures { (bytes : List ℕ) (lost : List Bool) (a b : List ℕ) →
        AreSizesLines bytes lost a → AreSizesLines bytes lost b → a ≡ b }
{}

/// A law: for given bytes and lost blocks there is a listing, and with `one_sizes_listing` exactly one. It is
/// decided whether it is clean. So raw bytes have a listing, and it is known whether their sizes are certain,
/// uncertain or not found, whichever bytes are lacking and whichever reads fail.
pub fn each_front_has_a_sizes_listing()
    ensures text { (bytes : List ℕ) (lost : List Bool) → (text : List ℕ) × AreSizesLines bytes lost text }
    ensures clean { (bytes : List ℕ) (lost : List Bool) →
        (clean : Bool) × (IsTrue clean ↔ IsCleanFront bytes lost) }
    ensures listing { (raw : Option (List ℕ)) (lacking : ℕ → Bool) (fails : ℕ → ℕ → Bool) (failures : ℕ) →
        (text : List ℕ) × (clean : Bool) × IsSizesListingOf raw lacking fails failures text clean }
    ensures sizes { (raw : Option (List ℕ)) (lacking : ℕ → Bool) (fails : ℕ → ℕ → Bool) (failures : ℕ) →
        (found : SizesFound) × AreSizesOf raw lacking fails failures found }
{}
