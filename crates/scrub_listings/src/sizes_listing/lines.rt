//! The lines of superblock records and of lost ranges: their order and their texts.

ghost use Rattle.std.specs.Prelude.{◌≡◌, ◌+◌, ◌<◌, ◌≤◌, ◌++◌, IfOk, OnOk, length, string_bytes};
ghost use Rattle.scrub_listings.specs.Sizes.{size_line, size_lines};
ghost use Rattle.scrub_listings.specs.declared.sizes_listing.lines.SizesLine.{SizesLine};
ghost use Rattle.scrub_listings.specs.steps.Sizes.{AreInOrder, CanMerge, IsNextLine, record_count};

use scrub_disk::OutOfMemory;
use scrub_super::{FoundRecord, LostBytes};
use std::alloc::Global;
use std::fmt::Write;

/// What a line is about.
#[derive(Clone, Copy)]
pub(crate) enum SizesLine {
    Record(FoundRecord),
    Lost(LostBytes),
}

/// Appends the line of a record.
fn append_record(text: &mut String, found: FoundRecord) -> Result<(), OutOfMemory>
    ensures { OnOk result (string_bytes text.new ≡ string_bytes text.old ++
        size_line (SizesLine.Record found)) }
{
    let FoundRecord {
        offset,
        kind,
        generation,
        geometry,
    } = found;
    let kind = kind.letters();
    let page = geometry.page();
    let pages = geometry.pages();
    let extents = geometry.extents();
    writeln!(
        text,
        "{offset} {kind} {generation} {page} {pages} {extents}"
    )
}

/// Appends a line, with its line feed.
fn append_line(text: &mut String, line: SizesLine) -> Result<(), OutOfMemory>
    ensures { OnOk result (string_bytes text.new ≡ string_bytes text.old ++ size_line line) }
{
    match line {
        SizesLine::Record(found) => append_record(text, found),
        SizesLine::Lost(LostBytes { from, to }) => writeln!(text, "lost {from} {to}"),
    }
}

/// The lines, in their order.
pub(crate) fn lines_text(alloc: Global, lines: &[SizesLine]) -> Result<Vec<u8>, OutOfMemory>
    ensures { IfOk result (λ text. text.items ≡ size_lines lines.now) }
{
    let mut text = String::new(alloc);
    for line in lines {
        append_line(&mut text, *line)?;
    }
    Ok(text.into_bytes())
}

/// The line that begins first, after the first `records_before` records and `lost_before` lost ranges.
fn next_line(
    records: &[FoundRecord],
    lost: &[LostBytes],
    records_before: usize,
    lost_before: usize,
) -> SizesLine
    requires records { records_before ≤ length records.now }
    requires lost { lost_before ≤ length lost.now }
    requires more { records_before + lost_before < length records.now + length lost.now }
    ensures { IsNextLine records.now lost.now records_before lost_before result }
{
    if lost_before == lost.len() {
        return SizesLine::Record(records[records_before]);
    }
    let range = lost[lost_before];
    if records_before < records.len() && records[records_before].offset < range.from {
        return SizesLine::Record(records[records_before]);
    }
    SizesLine::Lost(range)
}

/// How many records a line has: 1 or 0.
fn records_in(line: SizesLine) -> usize
    ensures { result ≡ record_count line }
{
    match line {
        SizesLine::Record(_) => 1,
        SizesLine::Lost(_) => 0,
    }
}

/// The lines of records and lost ranges, by ascending start, if both ascend and no two begin at the same
/// byte.
pub(crate) fn lines_in_order(
    alloc: Global,
    records: &[FoundRecord],
    lost: &[LostBytes],
) -> Result<Vec<SizesLine>, OutOfMemory>
    ensures { IfOk result (λ v. CanMerge records.now lost.now → AreInOrder records.now lost.now v.items) }
{
    let mut lines = Vec::new(alloc);
    let mut records_before = 0;
    for number in 0..records.len() + lost.len() {
        let line = next_line(records, lost, records_before, number - records_before);
        lines.push(line)?;
        records_before += records_in(line);
    }
    Ok(lines)
}
