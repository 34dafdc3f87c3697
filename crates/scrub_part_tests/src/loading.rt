//! Raw images that give few bytes at once or fail, and the disks loaded from them.

ghost use Rattle.std.specs.Prelude.{◌<◌, ◌^◌, All};

use crate::compare::same;
use scrub_disk::{Geometry, LoadFault, PageSource, RawImage, Unreadable, load};
use scrub_fakes::RawBytes;
use std::alloc::Global;
use std::process::Abort;
use std::test::Fail;

/// Bytes in which no two pages of 64 are equal: twelve such pages, and one byte more.
fn numbered() -> [u8; 769] {
    let mut bytes = [0; 769];
    for (place, byte) in bytes.iter_mut().enumerate() {
        *byte = (place % 251) as u8;
    }
    bytes
}

/// Loads three extents of four pages of 64 bytes, checks that each readable page has its own of these bytes,
/// and returns the unreadable pages as pairs of extent and page.
fn unreadable_pages<R: RawImage>(
    rt: &impl Abort,
    alloc: Global,
    raw: &mut R,
    bad: &[(u32, u32)],
    bytes: &[u8; 769],
) -> Result<Vec<(u32, u32)>, Fail>
    requires few_reads { R.reads raw.old < 2 ^ 62 }
    requires in_range { All (λ at. (at.0 < 3) × (at.1 < 4)) bad.now }
{
    let disk = load(alloc, raw, Geometry::new(64, 4, 3)?, bad)?;
    let mut unreadable = Vec::new(alloc);
    for number in 0..12 {
        let mut out = [0; 64];
        match disk.read_page(number / 4, number % 4, &mut out) {
            Ok(()) => {
                let place = number as usize * 64;
                same(rt, out.as_slice(), &bytes[place..place + 64]);
            }
            Err(Unreadable) => unreadable.push((number / 4, number % 4))?,
        }
    }
    Ok(unreadable)
}

/// All pages.
const ALL: &[(u32, u32)] = &[
    (0, 0),
    (0, 1),
    (0, 2),
    (0, 3),
    (1, 0),
    (1, 1),
    (1, 2),
    (1, 3),
    (2, 0),
    (2, 1),
    (2, 2),
    (2, 3),
];

/// What happens; the number of bytes of the image; how many a read gives at most; the first read that fails,
/// and how many may; the unreadable pages; the number of reads, and of those that failed. In the short image
/// page 2 of extent 2 takes two reads. All pages are first asked for at once.
const ROWS: [(&str, usize, usize, (u64, u64), &[(u32, u32)], (u64, u64)); 10] = [
    ("whole", 768, 64, (0, 0), &[], (13, 0)),
    ("whole, at once", 768, 4096, (0, 0), &[], (2, 0)),
    ("short", 668, 64, (0, 0), &[(2, 2), (2, 3)], (14, 0)),
    ("empty", 0, 4096, (0, 0), ALL, (13, 0)),
    (
        "a byte too long, which can't be read",
        769,
        64,
        (12, 1),
        &[],
        (13, 1),
    ),
    ("one byte at a time", 768, 1, (0, 0), &[], (769, 0)),
    ("a failed page", 768, 64, (4, 1), &[(1, 0)], (13, 1)),
    (
        "a failed read of all pages",
        768,
        4096,
        (0, 1),
        &[],
        (14, 1),
    ),
    ("a failed byte", 768, 1, (319, 1), &[(1, 0)], (769, 1)),
    ("each read fails", 769, 4096, (0, u64::MAX), ALL, (14, 14)),
];

#[test]
fn pages_that_cannot_be_read_whole_are_unreadable_and_no_others(
    rt: HostRuntime,
) -> Result<(), Fail> {
    let bytes = numbered();
    for (what, len, most, (failing, faults), unreadable, reads) in &ROWS {
        assert!(rt; *len <= 769 && *most >= 1);
        let mut raw = RawBytes::failing(&bytes[..*len], *most, *failing, *faults);
        let found = unreadable_pages(&rt, rt.alloc(), &mut raw, &[], &bytes)?;
        assert!(rt; found.as_slice() == *unreadable, "{what}");
        assert!(rt; (raw.reads, raw.failures) == *reads, "{what}");
    }
    Ok(())
}

#[test]
fn one_byte_after_the_last_page_is_too_long(rt: HostRuntime) -> Result<(), Fail> {
    let bytes = numbered();
    let geometry = Geometry::new(64, 4, 3)?;
    let mut raw = RawBytes::failing(&bytes, 4096, 0, 0);
    let refused = load(rt.alloc(), &mut raw, geometry, &[]);
    same(
        &rt,
        refused.map(|disk| disk.geometry()),
        Err(LoadFault::TooLong),
    );
    Ok(())
}

#[test]
fn a_named_page_is_unreadable(rt: HostRuntime) -> Result<(), Fail> {
    let bytes = numbered();
    let mut raw = RawBytes::failing(&bytes[..768], 4096, 0, 0);
    let bad = [(2, 3), (0, 0), (2, 3)];
    let unreadable = unreadable_pages(&rt, rt.alloc(), &mut raw, &bad, &bytes)?;
    same(&rt, unreadable.as_slice(), [(0, 0), (2, 3)].as_slice());
    Ok(())
}
