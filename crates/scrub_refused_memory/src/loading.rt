//! Disks in memory, blank or loaded.

use crate::calls::Trial;
use crate::disks::one_shard;
use crate::ending::{Stop, Wanted, right};
use scrub_disk::{MemDisk, PageSource};
use scrub_fakes::{RawBytes, small_geometry};
use std::alloc::Global;
use std::io::Write;

/// The bytes of a page of a small disk, or None if it is unreadable.
fn page_of<D: PageSource>(disk: &D, number: u32) -> Option<[u8; 64]> {
    let geometry = disk.geometry();
    if geometry.page() != 64 || geometry.pages() != 4 || geometry.extents() != 3 || number >= 12 {
        return None;
    }
    let mut page = [7; 64];
    match disk.read_page(number / 4, number % 4, &mut page) {
        Ok(()) => Some(page),
        Err(_) => None,
    }
}

/// Whether a small disk has these bytes, except for two unreadable pages, given by their numbers on the whole
/// disk.
fn has_bytes<D: PageSource>(disk: &D, bytes: &[u8], unreadable: [u32; 2]) -> bool {
    for number in 0..12 {
        let start = number as usize * 64;
        let found = page_of(disk, number);
        let is_right = match found {
            Some(page) => bytes.get(start..start + 64) == Some(page.as_slice()),
            None => false,
        };
        if is_right == unreadable.contains(&number) || found.is_some() != is_right {
            return false;
        }
    }
    true
}

/// A number that no page has.
const NONE: u32 = 12;

/// A blank disk.
pub fn blank(alloc: Global, wanted: Wanted) -> Result<(), Stop> {
    wanted.made()?;
    let disk = MemDisk::blank(alloc, small_geometry())?;
    right(has_bytes(&disk, &[0; 768], [NONE; 2]))
}

/// The bytes of the disk with one shard.
fn one_shard_bytes(alloc: Global) -> Result<Vec<u8>, Stop> {
    let (disk, _) = one_shard(alloc)?;
    let mut bytes = Vec::new(alloc);
    for number in 0..12 {
        let page = page_of(&disk, number).ok_or(Stop::Wrong)?;
        bytes.extend_from_slice(&page)?;
    }
    Ok(bytes)
}

/// Loads the disk with one shard twice: from bytes cut off within page 2 of extent 2, and from all bytes with
/// one failure at page 0 of extent 1.
pub fn load(alloc: Global, wanted: Wanted) -> Result<(), Stop> {
    let bytes = one_shard_bytes(alloc)?;
    let cut = bytes.get(..668).ok_or(Stop::Wrong)?;
    let mut short = RawBytes::new(cut);
    let mut failing = RawBytes::failing(&bytes, 64, 4, 1);
    wanted.made()?;
    let of_short = scrub_disk::load(alloc, &mut short, small_geometry(), &[])?;
    let of_failing = scrub_disk::load(alloc, &mut failing, small_geometry(), &[])?;
    right(has_bytes(&of_short, &bytes, [10, 11]) && has_bytes(&of_failing, &bytes, [4, NONE]))
}

/// The calls of this module.
pub fn calls<O: Write>(alloc: Global, trial: &mut Trial<'_, O>) {
    made!(trial, "MemDisk::blank", "", wanted => blank(alloc, wanted));
    made!(trial, "load", "", wanted => load(alloc, wanted));
}
