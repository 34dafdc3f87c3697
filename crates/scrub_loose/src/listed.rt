//! Where in extent 0 the locators of found runs are, as in the superblocks that list them. The superblocks
//! may be damaged, older, or of other sizes: only the sixty bytes of a locator are looked for.

ghost use Rattle.std.specs.Prelude.{◌≡◌, ◌<◌, ◌++◌, ◌∷◌, ◌↔◌, [], ℕ, All, HoldsAt, IsTrue, List, IfOk};
ghost use Rattle.std.specs.Prelude.{IfNone};
ghost use Rattle.std.specs.Prelude.{IfSome, OnOk, length, map};
ghost use Rattle.scrub_disk.specs.Image.{AreBytesAt, Image};
ghost use Rattle.scrub_frame.specs.declared.locator.Locator.{Locator};
ghost use Rattle.scrub_frame.specs.Locator.{IsLocator, locator_bytes};
ghost use Rattle.scrub_loose.specs.Listed.{AreListedRuns, ListedValue};
ghost use Rattle.scrub_loose.specs.Outer.{IsReadableDisk};
ghost use Rattle.scrub_loose.specs.steps.Held.{IsHeld, extent_held};
ghost use Rattle.scrub_loose.specs.steps.Naming.{AreSortedRuns, AreListedBefore, locator_in};

use crate::held::HeldExtent;
use crate::outer::{FoundRun, are_readable, locator_of, runs_of, walk_disk};
use scrub_disk::{OutOfMemory, PageSource};
use scrub_frame::{LOCATOR_BYTES, Locator, read_locator, write_locator};
use std::alloc::Global;
use std::marker::Model;
use std::thread::Threads;

/// A found run, and where its locator is.
#[derive(Drop)]
pub struct ListedRun {
    run: FoundRun,
    places: Vec<u32>,
}

impl Model for ListedRun {
    ghost use Rattle.scrub_loose.specs.Listed.{ListedValue};

    ghost Value = { ListedValue };

    ghost view = { λ l. record { run = l.run; places = l.places.items } };
}

impl ListedRun {
    /// The run.
    pub fn run(&self) -> &FoundRun
        ensures { result.now ≡ self.now.run }
    {
        &self.run
    }

    /// The offsets of extent 0 at which its locator is, in bytes, ascending.
    pub fn places(&self) -> &[u32]
        ensures { result.now ≡ self.now.places }
    {
        self.places.as_slice()
    }

    /// The locator of the run.
    fn locator(&self) -> Locator
        ensures { result ≡ locator_in self.now }
    {
        locator_of(&self.run.frame)
    }

    /// Adds a place behind the others.
    fn add(&mut self, place: u32) -> Result<(), OutOfMemory>
        ensures run { OnOk result (self.new.run ≡ self.old.run) }
        ensures places { OnOk result (self.new.places ≡ self.old.places ++ place ∷ []) }
    {
        self.places.push(place)?;
        Ok(())
    }
}

/// These runs, without any place yet.
fn without_places(alloc: Global, runs: &[FoundRun]) -> Result<Vec<ListedRun>, OutOfMemory>
    ensures runs { IfOk result (λ v. map (λ one. one.run) v.items ≡ runs.now) }
    ensures none { IfOk result (λ v. All (λ one. one.places ≡ []) v.items) }
{
    let mut listed = Vec::with_capacity(alloc, runs.len())?;
    for run in runs {
        listed.push(ListedRun {
            run: *run,
            places: Vec::new(alloc),
        })?;
    }
    Ok(listed)
}

/// The index of the run that begins where a locator points, if one does.
fn index_of(listed: &[ListedRun], locator: &Locator) -> Option<usize>
    requires { AreSortedRuns listed.now }
    ensures found { IfSome result (λ i. i < length listed.now) }
    ensures there { IfSome result (HoldsAt (λ v. (v.run.frame.extent ≡ locator.now.extent) ×
        (v.run.frame.offset ≡ locator.now.offset)) listed.now) }
    ensures none { IfNone result (All (λ v. ¬ ((v.run.frame.extent ≡ locator.now.extent) ×
        (v.run.frame.offset ≡ locator.now.offset))) listed.now) }
{
    listed
        .binary_search_by_key(&(locator.extent, locator.offset), |one| {
            (one.run.frame.extent, one.run.frame.offset)
        })
        .ok()
}

/// The index of the run whose locator is at a place of an extent, if one's is.
fn named_at(inside: &HeldExtent, place: usize, listed: &[ListedRun]) -> Option<usize>
    requires held { IsHeld inside.now }
    requires place { place < length inside.now.bytes.items }
    requires order { AreSortedRuns listed.now }
    ensures found { IfSome result (λ i. i < length listed.now) }
    ensures there { IfSome result (HoldsAt (λ v.
        AreBytesAt (extent_held inside.now).byte place (locator_bytes (locator_in v))) listed.now) }
    ensures none { IfNone result (All (λ v.
        ¬ AreBytesAt (extent_held inside.now).byte place (locator_bytes (locator_in v))) listed.now) }
{
    let bytes = inside.bytes[place..].first_chunk::<LOCATOR_BYTES>()?;
    let index = index_of(listed, &read_locator(bytes))?;
    if write_locator(&listed[index].locator()) != *bytes {
        return None;
    }
    if !inside.is_readable(place, LOCATOR_BYTES) {
        return None;
    }
    Some(index)
}

/// Adds to each run the places in an extent at which its locator is.
fn add_places(listed: &mut [ListedRun], inside: &HeldExtent) -> Result<(), OutOfMemory>
    requires held { IsHeld inside.now }
    requires order { AreSortedRuns listed.old }
    requires none { All (λ v. v.places ≡ []) listed.old }
    ensures runs { OnOk result (map (λ v. v.run) listed.new ≡ map (λ v. v.run) listed.old) }
    ensures places { OnOk result
        (AreListedBefore (extent_held inside.now) (length inside.now.bytes.items) listed.new) }
{
    for place in 0..inside.bytes.len() {
        match named_at(inside, place, listed) {
            Some(index) => listed[index].add(place as u32)?,
            None => {}
        }
    }
    Ok(())
}

/// The index runs of a disk, and whether each of its pages can be read.
#[derive(Drop)]
pub struct DiskRuns {
    /// The runs, by extent and then offset.
    pub runs: Vec<ListedRun>,
    /// Whether each page of the disk can be read.
    pub is_readable: bool,
}

/// Finds the index runs of a disk in all extents but extent 0: the frames at any byte that begin within no
/// other such frame, and whose payload is a run. No superblock, no write pointer and no retired extent is
/// looked at. Beside each run are the places in extent 0 at which its locator is.
///
/// Each extent is read once, by the caller and at most this many threads beside it. Each of them holds one
/// extent at a time.
pub fn find_runs<R: Threads + Sync, D: PageSource>(
    rt: &R,
    alloc: Global,
    disk: &D,
    workers: u32,
) -> Result<DiskRuns, OutOfMemory>
    ensures runs { IfOk result (λ r. AreListedRuns (D.image disk.now) r.runs.items) }
    ensures readable { IfOk result (λ r. IsTrue r.is_readable ↔ IsReadableDisk (D.image disk.now)) }
{
    let each = walk_disk(rt, alloc, disk, workers)?;
    let found = runs_of(alloc, &each)?;
    let mut runs = without_places(alloc, &found)?;
    let first = HeldExtent::read(alloc, disk, 0)?;
    add_places(&mut runs, &first)?;
    let is_readable = first.is_whole() && are_readable(&each);
    Ok(DiskRuns { runs, is_readable })
}

/// A law: a disk has one list of index runs and of their places.
pub fn one_list_of_runs()
    ensures { (image : Image) (listed others : List ListedValue) → AreListedRuns image listed →
        AreListedRuns image others → listed ≡ others }
{}

/// A law: each disk has it.
pub fn each_disk_has_runs()
    ensures { (image : Image) → (listed : List ListedValue) × AreListedRuns image listed }
{}
