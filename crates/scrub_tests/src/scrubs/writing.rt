//! `write_out` to writers that have room, that fail, that take no byte, and that count their calls.

ghost use Rattle.std.specs.Prelude.{Some};

use crate::support::compare::same;
use scrub_fakes::NarrowWriter;
use scrub_report::{WriteFault, write_out};
use std::alloc::Global;
use std::io;
use std::io::{ErrorKind, Write};
use std::test::Fail;

#[test]
fn all_bytes_are_written_in_order(rt: HostRuntime) -> Result<(), Fail> {
    let mut bytes = Vec::new(rt.alloc());
    write_out(&mut bytes, b"chunk")?;
    write_out(&mut bytes, b"s")?;
    same(&rt, bytes.as_slice(), b"chunks".as_slice());
    Ok(())
}

#[test]
fn short_writes_are_continued(rt: HostRuntime) -> Result<(), Fail> {
    let mut narrow = NarrowWriter::new(rt.alloc(), 11, true);
    write_out(&mut narrow, b"ten bytes.")?;
    same(&rt, narrow.taken.as_slice(), b"ten bytes.".as_slice());
    Ok(())
}

#[test]
fn a_write_fault_has_the_number_of_written_bytes(rt: HostRuntime) {
    let bytes = b"more than ten bytes";
    for room in 0..bytes.len() {
        for fails in [true, false] {
            let mut narrow = NarrowWriter::new(rt.alloc(), room, fails);
            let outcome = write_out(&mut narrow, bytes);
            same(&rt, outcome, Err(WriteFault { written: room }));
            same(&rt, narrow.taken.as_slice(), &bytes[..room]);
        }
    }
}

/// Takes at most `most` bytes a call, and counts the calls.
#[derive(Drop)]
struct CountingWriter {
    taken: Vec<u8>,
    most: usize,
    calls: u64,
}

impl CountingWriter {
    /// A writer that hasn't been called.
    fn new(alloc: Global, most: usize) -> CountingWriter {
        CountingWriter {
            taken: Vec::new(alloc),
            most,
            calls: 0,
        }
    }
}

impl Write for CountingWriter {
    ghost contents = { λ writer. Some writer.taken.items };

    fn write(&mut self, buf: &[u8]) -> io::Result<usize> {
        self.calls = self.calls.saturating_add(1);
        let count = buf.len().min(self.most);
        match self.taken.extend_from_slice(&buf[..count]) {
            Ok(()) => Ok(count),
            Err(_) => Err(io::Error::from(ErrorKind::OutOfMemory)),
        }
    }

    fn flush(&mut self) -> io::Result<()> {
        Ok(())
    }
}

#[test]
fn a_writer_is_called_no_more_often_than_needed(rt: HostRuntime) -> Result<(), Fail> {
    let text = vec![in rt.alloc(); b'x'; 100_000]?;
    let cases = [(usize::MAX, 1), (100_000, 1), (99_999, 2), (4_096, 25)];
    for (most, calls) in cases {
        let mut writer = CountingWriter::new(rt.alloc(), most);
        write_out(&mut writer, &text)?;
        same(&rt, writer.calls, calls);
        assert!(rt; writer.taken.as_slice() == text.as_slice());
    }
    Ok(())
}
