//! Reads one shard of a disk: its entry in the shard map, and the payloads for the locators of that entry.

ghost use Rattle.std.specs.Prelude.{◌≡◌, ◌↔◌, ◌<◌, ◌≤◌, ◌^◌, [], ℕ, All, Contains, IfOk, IfSome, List};
ghost use Rattle.std.specs.Prelude.{Option, Some, false, length, true};
ghost use Rattle.scrub_disk.specs.Image.{Image};
ghost use Rattle.scrub_frame.specs.declared.locator.Locator.{Locator};
ghost use Rattle.scrub_frame.specs.Locator.{IsLocator};
ghost use Rattle.scrub_run.specs.declared.shard_id.ShardId.{ShardId};
ghost use Rattle.scrub_check.specs.Named.{named_by_shard};
ghost use Rattle.scrub_check.specs.WholeScan.{IsWholeScan};
ghost use Rattle.scrub_check.specs.declared.statuses.checked.Checked.{Checked};
ghost use Rattle.scrub_check.specs.declared.statuses.status.Status.{Status};
ghost use Rattle.scrub_check.specs.Checked.{AreChecked, is_dangling};
ghost use Rattle.scrub_check.specs.Status.{HasStatusIn};
ghost use Rattle.scrub_merge.specs.Binding.{BindingValue};
ghost use Rattle.scrub_found.specs.GivenRuns.{AreTakingsFrom, given_in};
ghost use Rattle.scrub_found.specs.Judged.{IsScanFrom};
ghost use Rattle.scrub_loose.specs.Loose.{AreLoose, LooseValue};
ghost use Rattle.scrub_listings.specs.Remarks.{AreSaidFrom};
ghost use Rattle.scrub_shard.specs.Bytes.{BytesValue};
ghost use Rattle.scrub_shard.specs.Shard.{AreAlike, EachRunIsRead, HasBytesByOwnList, HaveContentsOfEntry};
ghost use Rattle.scrub_shard.specs.Shard.{HaveContentsOfEntryFrom, IsEntryAnswer, IsLostInEntry};
ghost use Rattle.scrub_shard.specs.Shard.{IsLostInEntryFrom, IsMapped};
ghost use Rattle.scrub_shard.specs.Shard.{IsMappedFrom, IsOnNoExtent, IsShardAnswer, IsShardAnswerFrom};
ghost use Rattle.scrub_shard.specs.Shard.{Mapped};
ghost use Rattle.scrub_shard.specs.Shard.{NoExtentIsCrowded, is_payload_lost};
ghost use Rattle.scrub_shard.specs.steps.Payloads.{HasPayloadUnlessLost, IsAnswerWith};
ghost use Rattle.scrub_shard.specs.declared.shard.ShardAnswer.{ShardAnswer};
ghost use Rattle.scrub_shard.specs.declared.shard.ShardAnswer.TheVariants.{Found, PayloadLost};

use crate::payloads::{bytes_for, first_lost};
use scrub_check::{Checked, Named, check_all, name_shard, read_all_runs};
use scrub_disk::{OutOfMemory, PageSource};
use scrub_found::{Scan, ScrubFault};
use scrub_frame::Locator;
use scrub_listings::{SuperblockRemark, scan_with_remarks};
use scrub_loose::Copies;
use scrub_merge::{Binding, merge_by_threads};
use scrub_pool::{Gate, Takings};
use scrub_run::ShardId;
use scrub_scan::AllFindings;
use scrub_super::Plan;
use std::alloc::Global;
use std::marker::Model;
use std::sync::Wait;
use std::thread::Threads;

/// The bytes of a shard: the payloads of its chunks, one directly after another.
#[derive(Drop)]
pub struct ShardBytes {
    bytes: Vec<u8>,
    is_doubtful: bool,
}

impl Model for ShardBytes {
    ghost use Rattle.scrub_shard.specs.Bytes.{BytesValue};

    ghost Value = { BytesValue };

    ghost view = { λ s. record { bytes = s.bytes.items; is_doubtful = s.is_doubtful } };
}

impl ShardBytes {
    /// Whether the shard's entry is doubtful: a lost index run may have a newer one.
    pub fn is_doubtful(&self) -> bool
        ensures { result ≡ self.now.is_doubtful }
    {
        self.is_doubtful
    }

    /// The bytes of the shard.
    pub fn bytes(&self) -> &[u8]
        ensures { result.now ≡ self.now.bytes }
    {
        self.bytes.as_slice()
    }

    /// Hands out the bytes of the shard.
    pub fn into_bytes(self) -> Vec<u8>
        ensures { result.items ≡ self.bytes }
    {
        self.bytes
    }
}

/// What is read of a shard.
#[derive(Drop)]
pub enum ShardAnswer {
    /// The shard map has no such shard: its newest readable entry says deleted, or no readable run has one.
    NoSuchShard,
    /// The payload for the locator of this number, from 0 in the order of the entry, is lost: the locator
    /// asks for bytes, dangles and has no copy, neither a spare nor a loose one. It is the first such.
    PayloadLost(usize),
    /// The payloads of all its locators.
    Found(ShardBytes),
}

/// What is read of a shard, and what is said of the disk's superblocks beside it.
#[derive(Drop)]
pub struct ShardReading {
    /// What is read of the shard.
    pub answer: ShardAnswer,
    /// What is said of the superblocks: of the pages of extent 0, ascending, and then that there is a tie.
    pub remarks: Vec<SuperblockRemark>,
}

/// The locators of a shard's entry, each owned by that shard.
fn own_locators(alloc: Global, binding: &Binding) -> Result<Vec<Named>, OutOfMemory>
    ensures { IfOk result (λ v. v.items ≡ named_by_shard binding.now) }
{
    let mut own = Vec::with_capacity(alloc, binding.locators().len())?;
    name_shard(&mut own, binding)?;
    Ok(own)
}

/// The answer by the locators of an entry. No payload is read unless each locator has one.
pub(crate) fn answer_by<D: PageSource>(
    alloc: Global,
    disk: &D,
    copies: &Copies,
    own: &[Checked],
    is_doubtful: bool,
) -> Result<ShardAnswer, OutOfMemory>
    requires { All (HasPayloadUnlessLost (D.image disk.now) copies.now) own.now }
    ensures { IfOk result (IsAnswerWith (D.image disk.now) copies.now is_doubtful own.now) }
{
    match first_lost(copies, own) {
        Some(number) => Ok(ShardAnswer::PayloadLost(number)),
        None => Ok(ShardAnswer::Found(ShardBytes {
            bytes: bytes_for(alloc, disk, copies, own)?,
            is_doubtful,
        })),
    }
}

/// The answer by an entry of the shard map.
fn entry_answer<R: Threads + Sync, D: PageSource>(
    rt: &R,
    alloc: Global,
    disk: &D,
    plan: &Plan,
    all: &AllFindings<'_, D>,
    binding: &Binding,
) -> Result<ShardAnswer, OutOfMemory>
    requires { IsWholeScan (D.image disk.now) plan.now all.now.extents }
    ensures { IfOk result (IsEntryAnswer (D.image disk.now) plan.now all.now.extents binding.now) }
{
    let names = own_locators(alloc, binding)?;
    let own = check_all(rt, alloc, disk, plan, all, &names)?;
    let copies = Copies::of(rt, alloc, disk, plan, all, &[], &own)?;
    answer_by(alloc, disk, &copies, &own, binding.doubtful())
}

/// The answer for a shard of a scanned disk.
fn shard_of<R: Threads + Sync, D: PageSource>(
    rt: &R,
    alloc: Global,
    scan: Scan<'_, D>,
    id: ShardId,
) -> Result<ShardAnswer, OutOfMemory>
    requires { IsWholeScan (D.image scan.disk.now) scan.plan scan.all.extents }
    ensures { (given : Option (List Locator)) → IsScanFrom given [] (D.image scan.entry.disk.now) scan.entry →
        IfOk result (IsShardAnswerFrom given (D.image scan.entry.disk.now) id) }
{
    let Scan {
        disk,
        plan,
        all,
        ..
    } = scan;
    let (read, _) = read_all_runs(rt, alloc, disk, &plan, &all)?;
    let (runs, _) = read.into_parts();
    let map = merge_by_threads(rt, alloc, &runs)?;
    match map.get(&id) {
        Some(binding) => entry_answer(rt, alloc, disk, &plan, &all, binding),
        None => Ok(ShardAnswer::NoSuchShard),
    }
}

/// Reads a shard of a disk, by its newest entry in the index runs that can be read, with what is said of the
/// superblocks, and returns which extents the caller and each worker took. It scans as `scrub` does, with
/// this many workers (0 to 64) beside the caller. The bytes of the extents in use are read once more if a
/// locator of the entry dangles, asks for bytes and has no spare. The only fault is `OutOfMemory`, returned
/// once every started worker has ended.
///
/// If index runs are given, newest first and fewer than 2^32, it is as if one superblock counted that lists
/// these, retires nothing, and has each write pointer at its extent's end. What is in extent 0 doesn't matter
/// then, so nothing is said of superblocks.
pub fn read_shard<D: PageSource, G: Gate, R: Threads + Wait + Sync>(
    rt: &R,
    alloc: Global,
    disk: &D,
    workers: u32,
    gate: &G,
    given: Option<&[Locator]>,
    id: ShardId,
) -> Result<(ShardReading, Takings), ScrubFault>
    requires workers { workers ≤ 64 }
    requires few { IfSome given (λ runs. length runs.now < 2 ^ 32) }
    requires located { IfSome given (λ runs. All IsLocator runs.now) }
    ensures shard { IfOk result (λ r.
        IsShardAnswerFrom (given_in given.entry) (D.image disk.now) id r.0.answer) }
    ensures remarks { IfOk result (λ r.
        AreSaidFrom (given_in given.entry) (D.image disk.now) r.0.remarks.items) }
    ensures takings { IfOk result (λ r.
        AreTakingsFrom (given_in given.entry) (D.image disk.now) workers r.1) }
{
    let (scan, remarks, takings) = scan_with_remarks(rt, alloc, disk, workers, gate, given, &[])?;
    let answer = shard_of(rt, alloc, scan, id)?;
    Ok((ShardReading { answer, remarks }, takings))
}

/// A law: there is at most one answer for each shard of an image, by the superblock that counts or by given
/// index runs.
pub fn one_shard_answer()
    ensures by_superblock { (image : Image) (id : ShardId) (a b : ShardAnswer) → IsShardAnswer image id a →
        IsShardAnswer image id b → a ≡ b }
    ensures by_runs { (runs : List Locator) (image : Image) (id : ShardId) (a b : ShardAnswer) →
        IsShardAnswerFrom (Some runs) image id a → IsShardAnswerFrom (Some runs) image id b → a ≡ b }
{}

/// A law: the bytes of a shard are a list of bytes for each locator of its entry, in their order, each with
/// the locator's length and SHA-256.
pub fn bytes_are_as_the_entry_says()
    ensures by_superblock { (image : Image) (id : ShardId) (found : BytesValue) →
        IsShardAnswer image id (Found found) → HaveContentsOfEntry image id found.bytes }
    ensures by_runs { (runs : List Locator) (image : Image) (id : ShardId) (found : BytesValue) →
        IsShardAnswerFrom (Some runs) image id (Found found) →
        HaveContentsOfEntryFrom (Some runs) image id found.bytes }
{}

/// A law: the payload for a locator is lost exactly if it is the first of its entry whose length and SHA-256
/// aren't those of no bytes, which dangles, and whose length and SHA-256 no chunk in the tiling of an extent
/// in use has, and no frame at any byte of an extent in use that isn't crowded.
pub fn a_lost_payload_is_nowhere()
    ensures by_superblock { (image : Image) (id : ShardId) (number : ℕ) →
        IsShardAnswer image id (PayloadLost number) ↔ IsLostInEntry image id number }
    ensures by_runs { (runs : List Locator) (image : Image) (id : ShardId) (number : ℕ) →
        length runs < 2 ^ 32 → All IsLocator runs →
        IsShardAnswerFrom (Some runs) image id (PayloadLost number) ↔
        IsLostInEntryFrom (Some runs) image id number }
{}

/// A law: if no extent is retired or crowded, a payload is lost exactly if its locator asks for bytes, or for
/// a digest that isn't that of no bytes, and no frame at any byte of an extent other than extent 0 has its
/// length and SHA-256. By given index runs no extent is retired.
pub fn a_lost_payload_is_on_no_extent()
    ensures none_retired { (given : Option (List Locator)) (image : Image) (m : Mapped) →
        IsMappedFrom given image m → m.plan.retired ≡ [] → NoExtentIsCrowded image → (b : BindingValue)
        (own : List Checked) → AreChecked image m.plan (named_by_shard b) own → (loose : LooseValue) →
        AreLoose [] image m.plan loose → (c : Checked) → Contains own c →
        (is_payload_lost m.all loose.frames c ≡ true) ↔ IsOnNoExtent image c.locator }
    ensures by_runs { (runs : List Locator) (image : Image) (m : Mapped) → IsMappedFrom (Some runs) image m →
        NoExtentIsCrowded image → (b : BindingValue) (own : List Checked) →
        AreChecked image m.plan (named_by_shard b) own → (loose : LooseValue) →
        AreLoose [] image m.plan loose → (c : Checked) → Contains own c →
        (is_payload_lost m.all loose.frames c ≡ true) ↔ IsOnNoExtent image c.locator }
{}

/// A law: if each index run of the superblock that counts is read, then with this list of runs given the
/// shard map is the same, and each locator that is sound or hidden is one of these; and if no extent is
/// crowded, each shard that has bytes has bytes, with the same lengths and SHA-256.
pub fn the_own_list_gives_each_shard()
    ensures map { (image : Image) (m own : Mapped) → IsMapped image m → EachRunIsRead m →
        IsMappedFrom (Some m.plan.runs) image own → own.bindings ≡ m.bindings }
    ensures statuses { (image : Image) (m own : Mapped) → IsMapped image m →
        IsMappedFrom (Some m.plan.runs) image own → (l : Locator) (s t : Status) →
        HasStatusIn image m.plan l s → HasStatusIn image own.plan l t → is_dangling s ≡ false →
        is_dangling t ≡ false }
    ensures bytes { (image : Image) (m : Mapped) → IsMapped image m → EachRunIsRead m →
        NoExtentIsCrowded image → (id : ShardId) (found : BytesValue) → IsShardAnswer image id (Found found) →
        HasBytesByOwnList image m id found }
{}

/// A law: if each index run of the superblock that counts is read, it retires nothing, and no extent is
/// crowded, then with this list of runs given the answer for each shard is as by the superblock, and the
/// states of the runs are.
pub fn the_own_list_gives_the_same_answers()
    ensures answers { (image : Image) (m : Mapped) → IsMapped image m → EachRunIsRead m →
        NoExtentIsCrowded image → m.plan.retired ≡ [] → (id : ShardId) (a b : ShardAnswer) →
        IsShardAnswer image id a → IsShardAnswerFrom (Some m.plan.runs) image id b → AreAlike m id a b }
    ensures runs { (image : Image) (m own : Mapped) → IsMapped image m → EachRunIsRead m →
        IsMappedFrom (Some m.plan.runs) image own → own.read ≡ m.read }
{}

/// A law: there is an answer for each shard of an image, by the superblock that counts or by index runs that
/// can be given. With `one_shard_answer`, there is exactly one.
pub fn each_shard_has_an_answer()
    ensures by_superblock { (image : Image) (id : ShardId) → (a : ShardAnswer) × IsShardAnswer image id a }
    ensures by_runs { (runs : List Locator) (image : Image) (id : ShardId) → length runs < 2 ^ 32 →
        All IsLocator runs → (a : ShardAnswer) × IsShardAnswerFrom (Some runs) image id a }
{}
