//! Places at which no frame stands. That frames stand where they were written is shown by statuses of
//! locators, in `tests/`.

use scrub_disk::{MemDisk, PageSource};
use scrub_fakes::worked::collision;
use scrub_fakes::{ONES, mark_bad, put_chunk};
use scrub_scan::frame_stands;
use std::alloc::Global;
use std::process::Abort;
use std::test::Fail;

/// The disk of the collision, with `abc` at 0 of extent 1. Page 1 of that extent is unreadable.
fn two_extents(alloc: Global) -> Result<MemDisk, Fail> {
    let mut disk = collision(alloc)?;
    put_chunk(alloc, &mut disk, 1, 0, ONES, b"abc")?;
    mark_bad(&mut disk, 1, 1)?;
    Ok(disk)
}

/// A pointer, and a place under it: an extent and an offset in bytes.
type Place = (u32, u32, u32);

/// Checks that no frame stands at a place.
fn check_none(rt: &impl Abort, alloc: Global, disk: &MemDisk, place: Place) -> Result<(), Fail> {
    let (pointer, extent, offset) = place;
    let geometry = disk.geometry();
    assert!(rt; extent < geometry.extents());
    assert!(rt; pointer <= geometry.extent_bytes());
    assert!(rt; offset <= geometry.extent_bytes());
    let found = frame_stands(alloc, disk, pointer, extent, offset)?;
    assert!(rt;
        found.is_none(),
        "at {offset} of extent {extent} under {pointer}"
    );
    Ok(())
}

/// Places without a frame, and places of frames under a pointer one byte before their end.
const PLACES_WITHOUT_FRAME: [Place; 7] = [
    (512, 1, 41),
    (512, 1, 300),
    (512, 1, 2048),
    (0, 3, 0),
    (40, 1, 0),
    (257, 2, 0),
    (296, 2, 256),
];

#[test]
fn no_frame_stands_where_none_was_written_or_past_the_pointer(rt: HostRuntime) -> Result<(), Fail> {
    let disk = two_extents(rt.alloc())?;
    for place in &PLACES_WITHOUT_FRAME {
        check_none(&rt, rt.alloc(), &disk, *place)?;
    }
    Ok(())
}
