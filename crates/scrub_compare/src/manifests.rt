//! The lines of what became of a manifest: its retired extents, its index runs, and the locators of shards.

ghost use Rattle.std.specs.Prelude.{◌≡◌, ◌++◌, ◌&&◌, [], ℕ, List, IfOk, OnOk, is_none, string_bytes};
ghost use Rattle.std.specs.List.{count_by};
ghost use Rattle.std.specs.Str.{bytes_eq};
ghost use Rattle.scrub_disk.specs.Image.{Image};
ghost use Rattle.scrub_run.specs.declared.shard_id.ShardId.{ShardId};
ghost use Rattle.scrub_merge.specs.Binding.{BindingValue};
ghost use Rattle.scrub_scan.specs.declared.standing.Standing.{Standing};
ghost use Rattle.scrub_check.specs.Checked.{is_hidden};
ghost use Rattle.scrub_loose.specs.Loose.{AreCopies, AreLoose, LooseValue, best_of};
ghost use Rattle.scrub_found.specs.Judged.{AreJudgedBut, AreRowsOf, Beside, found_in};
ghost use Rattle.scrub_listings.specs.Manifest.{of_shards};
ghost use Rattle.scrub_listings.specs.steps.Manifest.{is_of_read_row};
ghost use Rattle.scrub_compare.specs.Compare.{AreBoundIds, manifest_changes, retired_change, row_by};
ghost use Rattle.scrub_compare.specs.Compare.{runs_change, shard_changes};
ghost use Rattle.scrub_compare.specs.steps.Rows.{AreBestBy, AreByOwner, AreNamedBy};

use crate::ids::bound_ids;
use crate::rows::{ManifestLines, append_shards};
use scrub_check::Checked;
use scrub_disk::{OutOfMemory, PageSource};
use scrub_found::Judged;
use scrub_listings::manifest::{append_retired, append_runs, hidden_runs, lost_run_count};
use scrub_loose::Copies;
use scrub_run::ShardId;
use std::alloc::Global;
use std::fmt::Write;
use std::thread::Threads;

fn are_same(old: &[u32], new: &[u32]) -> bool
    ensures { result ≡ bytes_eq old.now new.now }
{
    old == new
}

/// Appends the lines of a change of the retired extents.
fn append_retired_change(text: &mut String, old: &[u32], new: &[u32]) -> Result<(), OutOfMemory>
    ensures { OnOk result (string_bytes text.new ≡ string_bytes text.old ++ retired_change old.now new.now) }
{
    if are_same(old, new) {
        return Ok(());
    }
    write!(text, "lost ")?;
    append_retired(text, old)?;
    write!(text, "new ")?;
    append_retired(text, new)
}

/// How many index runs are lost, and how many are read though their locator is hidden.
#[derive(Clone, Copy)]
struct RunCounts {
    lost: usize,
    hidden: usize,
}

/// The numbers of index runs of a disk.
fn run_counts<D: PageSource>(judged: &Judged<'_, D>) -> RunCounts
    ensures lost { result.lost ≡ count_by (λ r. is_none r.entries) judged.now.runs.items }
    ensures hidden { result.hidden ≡
        count_by (λ c. is_hidden c.status && is_of_read_row judged.now.runs.items c.owner)
        judged.now.checked.items }
{
    RunCounts {
        lost: lost_run_count(&judged.runs),
        hidden: hidden_runs(&judged.runs, &judged.checked),
    }
}

/// Appends the lines of a change of the numbers of index runs. Fewer hidden ones are none.
fn append_runs_change(text: &mut String, old: RunCounts, new: RunCounts) -> Result<(), OutOfMemory>
    ensures { OnOk result (string_bytes text.new ≡ string_bytes text.old ++
        runs_change old.lost old.hidden new.lost new.hidden) }
{
    if new.lost == old.lost && new.hidden <= old.hidden {
        return Ok(());
    }
    write!(text, "lost ")?;
    append_runs(text, old.lost, old.hidden)?;
    write!(text, "new ")?;
    append_runs(text, new.lost, new.hidden)
}

/// The named locators of shards, which follow those of the index runs.
fn shards_of<'p, 'd, D: PageSource>(judged: &'p Judged<'d, D>) -> &'p [Checked]
    requires { (bindings : List BindingValue) ×
        AreNamedBy judged.now.scan.plan.runs judged.now.checked.items bindings }
    ensures shards { result.now ≡ of_shards judged.now.checked.items }
    ensures ordered { AreByOwner result.now }
{
    let (_runs, shards) = judged.checked.split_at(judged.scan.plan.runs().len());
    shards
}

/// The copies of what the named locators of a disk ask for, outside of the extents that are taken as reset.
fn copies_in<D: PageSource, R: Threads + Sync>(
    rt: &R,
    alloc: Global,
    disk: &D,
    judged: &Judged<'_, D>,
    resets: &[u32],
) -> Result<Copies, OutOfMemory>
    requires { AreJudgedBut resets.now (D.image disk.now) judged.now }
    ensures { IfOk result (AreCopies resets.now (D.image disk.now) judged.now.scan.plan
        judged.now.scan.all.extents judged.now.checked.items) }
{
    let scan = &judged.scan;
    Copies::of(
        rt,
        alloc,
        disk,
        &scan.plan,
        &scan.all,
        resets,
        &judged.checked,
    )
}

/// Appends the lines of what became of the lines of these shards.
fn append_shard_changes<D: PageSource, E: PageSource>(
    alloc: Global,
    text: &mut String,
    old: &Judged<'_, D>,
    new: &Judged<'_, E>,
    copies: &Copies,
    copies_now: &Copies,
    ids: &[ShardId],
) -> Result<(), OutOfMemory>
    requires old { (bindings : List BindingValue) ×
        AreNamedBy old.now.scan.plan.runs old.now.checked.items bindings }
    requires new { (bindings : List BindingValue) ×
        AreNamedBy new.now.scan.plan.runs new.now.checked.items bindings }
    ensures { (loose loose_now : List Standing) →
        AreBestBy old.now.scan.all.extents old.now.checked.items loose copies.now →
        AreBestBy new.now.scan.all.extents new.now.checked.items loose_now copies_now.now →
        OnOk result (string_bytes text.new ≡ string_bytes text.old ++ shard_changes
        (row_by (best_of old.now.scan.all.extents loose) old.now.scan.all.extents)
        (row_by (best_of new.now.scan.all.extents loose_now) new.now.scan.all.extents)
        (of_shards old.now.checked.items) (of_shards new.now.checked.items) ids.now) }
{
    let before = ManifestLines {
        all: &old.scan.all,
        copies,
        shards: shards_of(old),
    };
    let after = ManifestLines {
        all: &new.scan.all,
        copies: copies_now,
        shards: shards_of(new),
    };
    append_shards(alloc, text, &before, &after, ids)
}

/// Appends the lines of what became of a manifest but its last line, by the copies of both disks.
fn append_changes_by<D: PageSource, E: PageSource>(
    alloc: Global,
    text: &mut String,
    old: &Judged<'_, D>,
    new: &Judged<'_, E>,
    copies: &Copies,
    copies_now: &Copies,
) -> Result<(), OutOfMemory>
    requires old { (resets : List ℕ) × (image : Image) × AreJudgedBut resets image old.now }
    requires new { (resets : List ℕ) × (image : Image) × AreJudgedBut resets image new.now }
    ensures { (b c : Beside) (loose loose_now : List Standing) →
        AreRowsOf old.now.scan.plan.runs b.read old.now.runs.items →
        AreRowsOf new.now.scan.plan.runs c.read new.now.runs.items →
        AreBestBy old.now.scan.all.extents old.now.checked.items loose copies.now →
        AreBestBy new.now.scan.all.extents new.now.checked.items loose_now copies_now.now →
        OnOk result ((ids : List ShardId) × AreBoundIds old.now.map new.now.map ids ×
        (string_bytes text.new ≡ string_bytes text.old ++
        manifest_changes (found_in old.now b) (found_in new.now c) loose loose_now ids)) }
{
    let (plan, plan_now) = (&old.scan.plan, &new.scan.plan);
    let ids = bound_ids(alloc, old.map.bindings(), new.map.bindings())?;
    append_retired_change(text, plan.retired(), plan_now.retired())?;
    append_runs_change(text, run_counts(old), run_counts(new))?;
    append_shard_changes(alloc, text, old, new, copies, copies_now, &ids)
}

/// Appends the lines of what became of a manifest but its last line. The extents of `resets` are taken as
/// reset in the later image.
pub(crate) fn append_manifest_changes<D: PageSource, E: PageSource, R: Threads + Sync>(
    rt: &R,
    alloc: Global,
    text: &mut String,
    before: &D,
    after: &E,
    old: &Judged<'_, D>,
    new: &Judged<'_, E>,
    resets: &[u32],
) -> Result<(), OutOfMemory>
    requires old { AreJudgedBut [] (D.image before.now) old.now }
    requires new { AreJudgedBut resets.now (E.image after.now) new.now }
    ensures { (b c : Beside) → AreRowsOf old.now.scan.plan.runs b.read old.now.runs.items →
        AreRowsOf new.now.scan.plan.runs c.read new.now.runs.items →
        OnOk result ((loose : LooseValue) × AreLoose [] (D.image before.now) old.now.scan.plan loose ×
        (loose_now : LooseValue) × AreLoose resets.now (E.image after.now) new.now.scan.plan loose_now ×
        (ids : List ShardId) × AreBoundIds old.now.map new.now.map ids ×
        (string_bytes text.new ≡ string_bytes text.old ++
        manifest_changes (found_in old.now b) (found_in new.now c) loose.frames loose_now.frames ids)) }
{
    let copies = copies_in(rt, alloc, before, old, &[])?;
    let copies_now = copies_in(rt, alloc, after, new, resets)?;
    append_changes_by(alloc, text, old, new, &copies, &copies_now)
}
