//! A writer with little room.

ghost use Rattle.std.specs.Prelude.{◌≡◌, [], Some};

use std::alloc::Global;
use std::io;
use std::io::{ErrorKind, Write};

/// Takes at most three bytes a call, and none once it is full.
#[derive(Drop)]
pub struct NarrowWriter {
    /// The bytes that it took.
    pub taken: Vec<u8>,
    /// How many more bytes it takes.
    pub room: usize,
    /// Whether a full writer returns an error; else it returns 0 bytes.
    pub fails: bool,
}

impl NarrowWriter {
    /// A writer that takes this many bytes.
    pub fn new(alloc: Global, room: usize, fails: bool) -> NarrowWriter
        ensures taken { result.taken.items ≡ [] }
        ensures room { result.room ≡ room }
        ensures fails { result.fails ≡ fails }
    {
        NarrowWriter {
            taken: Vec::new(alloc),
            room,
            fails,
        }
    }
}

impl Write for NarrowWriter {
    ghost contents = { λ writer. Some writer.taken.items };

    fn write(&mut self, buf: &[u8]) -> io::Result<usize> {
        if self.room == 0 && self.fails {
            return Err(io::Error::from(ErrorKind::StorageFull));
        }
        let count = buf.len().min(3).min(self.room);
        if self.taken.extend_from_slice(&buf[..count]).is_err() {
            return Err(io::Error::from(ErrorKind::OutOfMemory));
        }
        self.room -= count;
        Ok(count)
    }

    fn flush(&mut self) -> io::Result<()> {
        Ok(())
    }
}
