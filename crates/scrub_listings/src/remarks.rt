//! What is said of the superblocks of a disk beside a text: that a page of extent 0 may have had a newer one,
//! or that there is a tie.

ghost use Rattle.std.specs.Prelude.{◌≡◌, IfOk, List, Option};
ghost use Rattle.scrub_disk.specs.Image.{Image};
ghost use Rattle.scrub_frame.specs.declared.locator.Locator.{Locator};
ghost use Rattle.scrub_listings.specs.Remarks.{AreSaidFrom, page_remark, page_remarks};
ghost use Rattle.scrub_listings.specs.Remarks.{superblock_remarks};
ghost use Rattle.scrub_listings.specs.declared.remarks.SuperblockRemark.{SuperblockRemark};

use scrub_disk::OutOfMemory;
use scrub_super::{Chosen, SuperblockPage};
use std::alloc::Global;

/// What is to be said of the superblocks of a disk.
#[derive(Debug, Clone, Copy, PartialEq, Eq)]
pub enum SuperblockRemark {
    /// This page of extent 0 can't be read, or has a damaged record.
    Lost { page: usize },
    /// Two or more pages have a record of the greatest generation.
    Tie,
}

/// What is said of a page of extent 0.
fn page_remark(page: usize, held: &SuperblockPage) -> Option<SuperblockRemark>
    ensures { result ≡ page_remark page held.now }
{
    match held {
        SuperblockPage::Lost | SuperblockPage::Damaged { .. } => Some(SuperblockRemark::Lost {
            page,
        }),
        SuperblockPage::Record { .. } | SuperblockPage::Stray | SuperblockPage::Held => None,
    }
}

/// What is said of the pages of extent 0, ascending.
fn page_remarks(
    alloc: Global,
    pages: &[SuperblockPage],
) -> Result<Vec<SuperblockRemark>, OutOfMemory>
    ensures { IfOk result (λ v. v.items ≡ page_remarks pages.now) }
{
    pages
        .iter()
        .enumerate()
        .filter_map(|(page, held)| page_remark(page, held))
        .collect(alloc)
}

/// What is said of the superblocks of a disk, by what was chosen of them and by the pages of extent 0: each
/// page that can't be read or is damaged, ascending, and then whether there is a tie.
pub fn superblock_remarks(
    alloc: Global,
    chosen: &Chosen,
    pages: &[SuperblockPage],
) -> Result<Vec<SuperblockRemark>, OutOfMemory>
    ensures { IfOk result (λ v. v.items ≡ superblock_remarks chosen.now.tie pages.now) }
{
    let mut remarks = page_remarks(alloc, pages)?;
    if chosen.tie() {
        remarks.push(SuperblockRemark::Tie)?;
    }
    Ok(remarks)
}

/// A law: by index runs that are given, or else by the superblock that counts, an image has at most one list
/// of remarks on its superblocks.
pub fn one_list_of_remarks()
    ensures { (given : Option (List Locator)) (image : Image) (a b : List SuperblockRemark) →
        AreSaidFrom given image a → AreSaidFrom given image b → a ≡ b }
{}

/// A law: by index runs that are given, or else by the superblock that counts, each image has a list of
/// remarks on its superblocks. With `one_list_of_remarks`, it has exactly one.
pub fn each_image_has_remarks()
    ensures { (given : Option (List Locator)) (image : Image) →
        (remarks : List SuperblockRemark) × AreSaidFrom given image remarks }
{}
