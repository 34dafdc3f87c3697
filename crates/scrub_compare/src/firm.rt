//! The lines of those doubts of an image that can't be accepted.

ghost use Rattle.std.specs.Prelude.{◌≡◌, ◌++◌, IfOk, OnOk, string_bytes};
ghost use Rattle.std.specs.List.{flat_map};
ghost use Rattle.scrub_disk.specs.Image.{Image};
ghost use Rattle.scrub_found.specs.Judged.{Beside, IsFoundOn, found_in, run_states};
ghost use Rattle.scrub_reclaim.specs.Doubts.{choice_doubts, page_doubts, run_doubts, superblock_lost};
ghost use Rattle.scrub_compare.specs.Compare.{firm_line, firm_lines};

use scrub_disk::{OutOfMemory, PageSource};
use scrub_found::Judged;
use scrub_reclaim::doubting::{PageDoubt, choice_doubts, lost_runs, page_doubts};
use scrub_reclaim::doubts::{Doubt, append_doubt_text};
use scrub_super::SuperblockPage;
use std::alloc::Global;
use std::fmt::Write;

/// The doubts of an image that can't be accepted.
fn firm_doubts<D: PageSource>(
    alloc: Global,
    pages: &[SuperblockPage],
    judged: &Judged<'_, D>,
) -> Result<Vec<Doubt>, OutOfMemory>
    ensures { IfOk result (λ v. v.items ≡ choice_doubts judged.now.scan.chosen ++
        page_doubts superblock_lost pages.now ++ run_doubts (run_states judged.now.runs.items)) }
{
    let mut doubts = choice_doubts(alloc, &judged.scan.chosen)?;
    doubts.extend_from_slice(&page_doubts(alloc, PageDoubt::Lost, pages)?)?;
    doubts.extend_from_slice(&lost_runs(alloc, &judged.runs)?)?;
    Ok(doubts)
}

/// Appends the line of a doubt, with the word for its image.
fn append_doubt(
    alloc: Global,
    text: &mut String,
    image: &str,
    doubt: &Doubt,
) -> Result<(), OutOfMemory>
    ensures { OnOk result (string_bytes text.new ≡ string_bytes text.old ++ firm_line image.now doubt.now) }
{
    write!(text, "doubt {image} ")?;
    append_doubt_text(alloc, text, doubt)?;
    writeln!(text)
}

/// Appends the lines of doubts, with the word for their image.
fn append_doubts(
    alloc: Global,
    text: &mut String,
    image: &str,
    doubts: &[Doubt],
) -> Result<(), OutOfMemory>
    ensures { OnOk result (string_bytes text.new ≡ string_bytes text.old ++
        flat_map (firm_line image.now) doubts.now) }
{
    for doubt in doubts {
        append_doubt(alloc, text, image, doubt)?;
    }
    Ok(())
}

/// Appends the lines of those doubts of an image that can't be accepted, with the word for the image.
pub(crate) fn append_firm<D: PageSource>(
    alloc: Global,
    text: &mut String,
    image: &str,
    pages: &[SuperblockPage],
    judged: &Judged<'_, D>,
) -> Result<(), OutOfMemory>
    ensures { (other : Image) (b : Beside) → IsFoundOn other judged.now b →
        OnOk result (string_bytes text.new ≡ string_bytes text.old ++
        firm_lines image.now pages.now (found_in judged.now b)) }
{
    let doubts = firm_doubts(alloc, pages, judged)?;
    append_doubts(alloc, text, image, &doubts)
}
