//! Writes bytes whole, or says how many of them were written before a fault.

ghost use Rattle.std.specs.Prelude.{◌<◌, OnOk, IfErr, length, take};
ghost use Rattle.std.specs.Io.KnownBytes.{Appends};
ghost use Rattle.scrub_report.specs.Output.{AppendsFront};

use std::io::Write;

/// Writing ended early: the writer returned an error, or took no byte.
#[derive(Clone, Copy, Debug, PartialEq, Eq)]
pub struct WriteFault {
    /// How many bytes were written before the fault.
    pub written: usize,
}

/// Writes all of `bytes`, with as few calls of `write` as the writer allows.
///
/// It ends at an error of the writer, also at `Interrupted`, and at a call that takes 0 bytes. It doesn't
/// flush and takes no memory.
pub fn write_out<W: Write>(writer: &mut W, bytes: &[u8]) -> Result<(), WriteFault>
    ensures whole { OnOk result (Appends (W.contents writer.old) (W.contents writer.new) bytes.now) }
    ensures part { IfErr result (λ fault. Appends (W.contents writer.old) (W.contents writer.new)
        (take fault.written bytes.now)) }
    ensures short { IfErr result (λ fault. fault.written < length bytes.now) }
    ensures front { AppendsFront (W.contents writer.old) (W.contents writer.new) bytes.now }
{
    let mut written = 0;
    while written < bytes.len() {
        match writer.write(&bytes[written..]) {
            Ok(0) | Err(_) => return Err(WriteFault { written }),
            Ok(count) => written += count,
        }
    }
    Ok(())
}
