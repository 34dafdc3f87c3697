//! That the writer with little room has little. What the other fakes do is seen where they are used.

use crate::compare::same;
use scrub_fakes::NarrowWriter;
use std::io::Write;
use std::test::Fail;

#[test]
fn a_writer_takes_three_bytes_a_call_until_it_is_full(rt: HostRuntime) -> Result<(), Fail> {
    let mut writer = NarrowWriter::new(rt.alloc(), 5, false);
    same(&rt, writer.write(b"abcd")?, 3);
    same(&rt, writer.write(b"def")?, 2);
    same(&rt, writer.write(b"f")?, 0);
    same(&rt, writer.taken.as_slice(), b"abcde".as_slice());
    let mut full = NarrowWriter::new(rt.alloc(), 0, true);
    assert!(rt; full.write(b"a").is_err());
    Ok(())
}
