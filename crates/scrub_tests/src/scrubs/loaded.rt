//! The disk with one shard, loaded from raw bytes that come one by one. The program reads its files in larger
//! pieces.

use crate::support::compare::same;
use crate::support::reported::scrubbed;
use scrub_disk::{PageSource, load};
use scrub_fakes::published::ONE_SHARD;
use scrub_fakes::worked::one_shard;
use scrub_fakes::{RawBytes, small_geometry};
use std::alloc::Global;
use std::process::Abort;
use std::test::Fail;

/// The bytes of the disk with one shard: twelve pages of 64 bytes, extent by extent.
fn raw_bytes(rt: &impl Abort, alloc: Global) -> Result<Vec<u8>, Fail> {
    let disk = one_shard(alloc)?;
    let geometry = disk.geometry();
    assert!(rt; geometry.page() == 64 && geometry.pages() == 4 && geometry.extents() == 3);
    let mut raw = Vec::new(alloc);
    for number in 0..12 {
        let mut page = [0; 64];
        disk.read_page(number / 4, number % 4, &mut page)?;
        raw.extend_from_slice(&page)?;
    }
    assert!(rt; raw.len() == 768);
    Ok(raw)
}

/// Either no read fails, or the last one, which asks for a byte past the end of the disk.
#[test]
fn bytes_that_come_one_by_one_make_the_whole_disk(rt: HostRuntime) -> Result<(), Fail> {
    let bytes = raw_bytes(&rt, rt.alloc())?;
    for (failing, failures) in [(0, 0), (768, 1)] {
        let mut raw = RawBytes::failing(&bytes, 1, failing, failures);
        let disk = load(rt.alloc(), &mut raw, small_geometry(), &[])?;
        same(&rt, (raw.reads, raw.failures), (769, failures));
        let answer = scrubbed(&rt, rt.alloc(), &disk)?;
        // The report lists no unreadable page.
        same(&rt, str::from_utf8(answer.report())?, ONE_SHARD);
    }
    Ok(())
}
