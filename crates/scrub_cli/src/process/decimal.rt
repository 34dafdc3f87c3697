//! Writing numbers without allocating. For writing bytes see `write_out` of `scrub_report`.

ghost use Rattle.std.specs.Prelude.{OnOk};
ghost use Rattle.std.specs.Fmt.{decimal};
ghost use Rattle.std.specs.Io.KnownBytes.{Appends};
ghost use Rattle.scrub_report.specs.Output.{AppendsFront};

use scrub_report::{WriteFault, write_out};
use std::io::Write;

/// Writes the number in decimal, without allocating.
pub fn write_decimal<W: Write>(writer: &mut W, number: usize) -> Result<(), WriteFault>
    ensures whole { OnOk result (Appends (W.contents writer.old) (W.contents writer.new) (decimal number)) }
    ensures front { AppendsFront (W.contents writer.old) (W.contents writer.new) (decimal number) }
{
    if number < 10 {
        return write_out(writer, &[b'0' + number as u8]);
    }
    write_decimal(writer, number / 10)?;
    write_out(writer, &[b'0' + (number % 10) as u8])
}
