//! The lines of the named locators whose extents are to be reset.

ghost use Rattle.std.specs.Prelude.{◌≡◌, ◌++◌, OnOk, string_bytes};
ghost use Rattle.std.specs.List.Sorted.{IsStrictlyIncreasing};
ghost use Rattle.scrub_compare.specs.Compare.{named_line, named_lines};

use crate::extents::is_reset;
use scrub_check::Checked;
use scrub_disk::OutOfMemory;
use scrub_listings::listing::append_line;
use std::alloc::Global;
use std::fmt::Write;

/// Appends the line of a named locator, if its extent is one of these, which rise.
fn append_named_line(
    alloc: Global,
    text: &mut String,
    resets: &[u32],
    one: &Checked,
) -> Result<(), OutOfMemory>
    requires { IsStrictlyIncreasing resets.now }
    ensures { OnOk result (string_bytes text.new ≡ string_bytes text.old ++ named_line resets.now one.now) }
{
    if !is_reset(resets, one.locator.extent) {
        return Ok(());
    }
    write!(text, "named ")?;
    append_line(alloc, text, one)
}

/// Appends the lines of those named locators whose extents are among these, which rise.
pub(crate) fn append_named(
    alloc: Global,
    text: &mut String,
    resets: &[u32],
    checked: &[Checked],
) -> Result<(), OutOfMemory>
    requires { IsStrictlyIncreasing resets.now }
    ensures { OnOk result (string_bytes text.new ≡ string_bytes text.old ++
        named_lines resets.now checked.now) }
{
    for one in checked {
        append_named_line(alloc, text, resets, one)?;
    }
    Ok(())
}
