//! Why a run ends without a whole answer: the status and the line on the error stream for each reason, in one
//! place.

ghost use Rattle.std.specs.Prelude.{◌≡◌, ◌++◌, OnOk, codes, is_ok};
ghost use Rattle.std.specs.Fmt.{decimal};
ghost use Rattle.std.specs.Io.KnownBytes.{Appends};
ghost use Rattle.scrub_cli.specs.declared.process.fault.Fault.TheVariants.{Geometry, OutOfMemory};
ghost use Rattle.scrub_cli.specs.Fault.{line, text_of};
ghost use Rattle.scrub_listings.specs.Manifest.{two_digits};
ghost use Rattle.scrub_report.specs.Output.{AppendsFront};

use crate::process::decimal::write_decimal;
use scrub_args::ArgsFault;
use scrub_disk::{GeometryFault, LoadFault, OutOfMemory};
use scrub_map::MapFault;
use scrub_report::{ScrubFault, WriteFault, write_out};
use std::alloc::AllocFailed;
use std::io::Write;

/// Why a run ends without a whole answer, in the order of the checks. Memory may run out at any point.
#[derive(Drop)]
pub enum Fault<'a> {
    /// An argument isn't UTF-8.
    NotUtf8,
    /// The arguments ask for help; the text is the help.
    Help(String),
    /// The arguments are refused; the text says why.
    Args(String),
    /// The sizes are refused; this is the first limit that they break.
    Geometry(GeometryFault),
    /// No sizes are given, and the image has no superblock record, or not all have the same sizes.
    NoSizes,
    /// No sizes are given, and the image has superblock records, but something is lost where they may be.
    UncertainSizes,
    /// The disk has no such extent, or it is extent 0 and can't be reset.
    Extent,
    /// This argument isn't the identifier of a shard.
    BadShard(&'a str),
    /// The write pointer is past the end of the extent.
    Pointer,
    /// This argument isn't `EXTENT:OFFSET`, the extent is extent 0, or the disk has no such place.
    BadRun(&'a str),
    /// This argument isn't `EXTENT:PAGE`, or the disk has no such page.
    BadPage(&'a str),
    /// The map of this name can't be opened, or a read of it failed.
    NoMap(&'a str),
    /// The first line of the map that breaks the rules, counted from 1, or one more than it has lines if none
    /// is the state.
    MapLine(u64),
    /// The image of this name can't be opened.
    NoImage(&'a str),
    /// The image has a byte after the disk's last page.
    TooLong,
    /// No index run is at the place that this argument names.
    NoRun(&'a str),
    /// The shard map has no such shard.
    NoShard,
    /// The payload of this number, from 0 in the order of the shard's entry, is lost. It is the first such.
    PayloadLost(usize),
    /// The output failed after this many bytes.
    Output { written: usize },
    /// Memory ran out.
    OutOfMemory,
}

impl From<OutOfMemory> for Fault<'_> {
    ghost from_gives = { λ _ fault. fault ≡ OutOfMemory };

    fn from(_fault: OutOfMemory) -> Self {
        Fault::OutOfMemory
    }
}

impl<T: Drop> From<AllocFailed<T>> for Fault<'_> {
    ghost from_gives = { λ _ fault. fault ≡ OutOfMemory };

    fn from(_fault: AllocFailed<T>) -> Self {
        Fault::OutOfMemory
    }
}

impl From<ScrubFault> for Fault<'_> {
    ghost from_gives = { λ _ fault. fault ≡ OutOfMemory };

    fn from(fault: ScrubFault) -> Self {
        match fault {
            ScrubFault::OutOfMemory => Fault::OutOfMemory,
        }
    }
}

impl From<GeometryFault> for Fault<'_> {
    ghost from_gives = { λ geometry fault. fault ≡ Geometry geometry };

    fn from(fault: GeometryFault) -> Self {
        Fault::Geometry(fault)
    }
}

impl From<LoadFault> for Fault<'_> {
    ghost use Rattle.scrub_cli.specs.Fault.{fault_of_load};

    ghost from_gives = { λ load fault. fault ≡ fault_of_load load };

    fn from(fault: LoadFault) -> Self {
        match fault {
            LoadFault::OutOfMemory => Fault::OutOfMemory,
            LoadFault::TooLong => Fault::TooLong,
        }
    }
}

impl From<MapFault> for Fault<'_> {
    ghost use Rattle.scrub_cli.specs.Fault.{fault_of_map};

    ghost from_gives = { λ map fault. fault ≡ fault_of_map map };

    fn from(fault: MapFault) -> Self {
        match fault {
            MapFault::OutOfMemory => Fault::OutOfMemory,
            MapFault::Line(line) => Fault::MapLine(line),
        }
    }
}

impl From<ArgsFault> for Fault<'_> {
    ghost use Rattle.scrub_cli.specs.Fault.{fault_of_args};

    ghost from_gives = { λ args fault. fault ≡ fault_of_args args };

    fn from(fault: ArgsFault) -> Self {
        match fault {
            ArgsFault::Help(text) => Fault::Help(text),
            ArgsFault::Refused(text) => Fault::Args(text),
            ArgsFault::OutOfMemory => Fault::OutOfMemory,
        }
    }
}

impl Fault<'_> {
    ghost use Rattle.scrub_cli.specs.Fault.{status_of, text_of, IsReported};
    ghost use Rattle.scrub_report.specs.Output.{AppendsFront};

    /// The exit status.
    pub fn status(&self) -> u8
        ensures { result ≡ status_of self.now }
    {
        match self {
            Fault::Help(_) => 0,
            Fault::NoShard | Fault::PayloadLost(_) => 1,
            Fault::NotUtf8
            | Fault::Args(_)
            | Fault::Geometry(_)
            | Fault::NoSizes
            | Fault::UncertainSizes
            | Fault::Extent
            | Fault::BadShard(_)
            | Fault::Pointer
            | Fault::BadRun(_)
            | Fault::BadPage(_)
            | Fault::MapLine(_)
            | Fault::NoRun(_) => 2,
            Fault::NoMap(_) | Fault::NoImage(_) | Fault::TooLong | Fault::Output { .. } => 3,
            Fault::OutOfMemory => 4,
        }
    }

    /// Writes the fault's text to the error stream, up to the first failure of the stream, which is the
    /// error. It doesn't allocate.
    fn write_to<E: Write>(&self, err: &mut E) -> Result<(), WriteFault>
        ensures front { AppendsFront (E.contents err.old) (E.contents err.new) (text_of self.now) }
        ensures whole { OnOk result (Appends (E.contents err.old) (E.contents err.new) (text_of self.now)) }
    {
        match self {
            Fault::Help(text) | Fault::Args(text) => write_out(err, text.as_bytes()),
            Fault::NotUtf8 => write_line(err, "a word is not UTF-8", ""),
            Fault::Geometry(fault) => write_line(err, "geometry refused: ", limit(*fault)),
            Fault::NoSizes => write_line(err, "sizes not found: run shardscrub sizes", ""),
            Fault::UncertainSizes => write_line(
                err,
                "sizes not certain: records were found, but bytes of the first 64 MiB can't be read; ",
                "give --page, --pages and --extents (shardscrub sizes lists them)",
            ),
            Fault::Extent => write_line(err, "extent out of range", ""),
            Fault::BadShard(arg) => write_line(err, "shard refused: ", arg),
            Fault::Pointer => write_line(err, "pointer out of range", ""),
            Fault::BadRun(arg) => write_line(err, "run refused: ", arg),
            Fault::BadPage(arg) => write_line(err, "bad page refused: ", arg),
            Fault::NoMap(name) => write_line(err, "map cannot be opened: ", name),
            Fault::MapLine(line) => write_number(err, "map refused: line ", *line as usize, ""),
            Fault::NoImage(name) => write_line(err, "image cannot be opened: ", name),
            Fault::TooLong => write_line(err, "image too long", ""),
            Fault::NoRun(arg) => write_line(err, "run not found: ", arg),
            Fault::NoShard => write_line(err, "no such shard", ""),
            Fault::PayloadLost(number) => write_number(err, before_number(*number), *number, ""),
            Fault::Output { written } => write_number(
                err,
                "output failed after ",
                *written,
                " bytes",
            ),
            Fault::OutOfMemory => write_line(err, "out of memory", ""),
        }
    }

    /// Reports the fault on the error stream, and returns the exit status, and a fault of that stream, if it
    /// didn't take the whole text.
    pub fn end<E: Write>(&self, err: &mut E) -> (u8, Result<(), WriteFault>)
        ensures { IsReported self.now result.0 (is_ok result.1) (E.contents err.old, E.contents err.new) }
    {
        (self.status(), self.write_to(err))
    }
}

/// The name of the limit that the sizes break, as it ends the line.
fn limit(fault: GeometryFault) -> &'static str
    ensures { text_of (Geometry fault) ≡ line (codes "geometry refused: " ++ result.now) }
{
    match fault {
        GeometryFault::PageSize => "PageSize",
        GeometryFault::Pages => "Pages",
        GeometryFault::Extents => "Extents",
        GeometryFault::ExtentBytes => "ExtentBytes",
        GeometryFault::TotalBytes => "TotalBytes",
    }
}

/// What comes before the number of a lost payload, which has two digits.
fn before_number(number: usize) -> &'static str
    ensures { result.now ++ decimal number ≡ codes "payload lost: " ++ two_digits number }
{
    if number < 10 {
        "payload lost: 0"
    } else {
        "payload lost: "
    }
}

/// Writes a line: the program's name, then two parts.
pub fn write_line<E: Write>(err: &mut E, what: &str, which: &str) -> Result<(), WriteFault>
    ensures front { AppendsFront (E.contents err.old) (E.contents err.new) (line (what.now ++ which.now)) }
    ensures whole { OnOk result (Appends (E.contents err.old) (E.contents err.new)
        (line (what.now ++ which.now))) }
{
    write_out(err, b"shardscrub: ")?;
    write_out(err, what.as_bytes())?;
    write_out(err, which.as_bytes())?;
    write_out(err, b"\n")
}

/// Writes a line: the program's name, then a number between two parts.
fn write_number<E: Write>(
    err: &mut E,
    before: &str,
    number: usize,
    after: &str,
) -> Result<(), WriteFault>
    ensures front { AppendsFront (E.contents err.old) (E.contents err.new)
        (line (before.now ++ decimal number ++ after.now)) }
    ensures whole { OnOk result (Appends (E.contents err.old) (E.contents err.new)
        (line (before.now ++ decimal number ++ after.now))) }
{
    write_out(err, b"shardscrub: ")?;
    write_out(err, before.as_bytes())?;
    write_decimal(err, number)?;
    write_out(err, after.as_bytes())?;
    write_out(err, b"\n")
}
