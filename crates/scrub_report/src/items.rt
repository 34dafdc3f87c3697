//! The items of an extent, each by its line. One text serves for the lines of all of them.

ghost use Rattle.std.specs.Prelude.{◌≡◌, ◌++◌, OnOk};
ghost use Rattle.scrub_report.specs.steps.Tokens.{shown_tokens, value_tokens};
ghost use Rattle.scrub_report.specs.steps.Values.{item_data, items_data};

use json::Writer;
use scrub_disk::OutOfMemory;
use scrub_scan::{Item, push_item_line};
use std::alloc::Global;

/// Room for the longest line.
const LINE_ROOM: usize = 76;

/// Room for an item: its line, and two quotes and a comma beside it.
pub(crate) const ITEM_ROOM: usize = LINE_ROOM + 3;

/// Writes the line of an item, by a text that was there for another one.
fn write_line(line: &mut String, out: &mut Writer, item: &Item) -> Result<(), OutOfMemory>
    ensures tokens { OnOk result (out.new.tokens ≡ out.old.tokens ++ value_tokens (item_data item.now)) }
    ensures before { out.new.before ≡ out.old.before }
{
    line.clear();
    push_item_line(line, item)?;
    out.string(line)
}

/// Writes the lines of these items, one after another.
fn write_lines(alloc: Global, out: &mut Writer, items: &[Item]) -> Result<(), OutOfMemory>
    ensures tokens { OnOk result (out.new.tokens ≡ out.old.tokens ++ shown_tokens item_data items.now) }
    ensures before { out.new.before ≡ out.old.before }
{
    let mut line = String::with_capacity(alloc, LINE_ROOM)?;
    for item in items {
        write_line(&mut line, out, item)?;
    }
    Ok(())
}

/// Writes the list of these items.
pub(crate) fn write_items(
    alloc: Global,
    out: &mut Writer,
    items: &[Item],
) -> Result<(), OutOfMemory>
    ensures tokens { OnOk result (out.new.tokens ≡ out.old.tokens ++ value_tokens (items_data items.now)) }
    ensures before { out.new.before ≡ out.old.before }
{
    out.begin_array()?;
    write_lines(alloc, out, items)?;
    out.end_array()
}
