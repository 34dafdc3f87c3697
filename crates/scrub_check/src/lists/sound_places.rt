//! The places that sound named locators point to, sorted, so that whether one points to a place is found by
//! search.

ghost use Rattle.std.specs.Prelude.{◌≡◌, ◌↔◌, IsTrue, IfOk};
ghost use Rattle.std.specs.List.{count_by};
ghost use Rattle.std.specs.List.Sorted.{IsPermutation, IsSorted, IsStrictlySortedBy};
ghost use Rattle.scrub_check.specs.steps.Distinct.{AreDistinct};
ghost use Rattle.scrub_check.specs.steps.Places.{chunk_at_cmp, is_place};
ghost use Rattle.scrub_check.specs.steps.SoundPlaces.{sound_places, AreSoundPlaces};

use crate::places::chunk_at::ChunkAt;
use crate::places::sorted_list::{count_of, into_sorted, into_sorted_by_threads, rises_strictly};
use crate::statuses::checked::Checked;
use scrub_disk::OutOfMemory;
use std::alloc::Global;
use std::marker::Model;
use std::thread::Threads;

/// The places that sound locators point to, by extent and then byte; one that several point to is there as
/// often.
#[derive(Drop)]
pub struct SoundPlaces {
    starts: Vec<ChunkAt>,
}

impl Model for SoundPlaces {
    ghost use Rattle.std.specs.Prelude.{List};
    ghost use Rattle.std.specs.List.Sorted.{IsSorted};
    ghost use Rattle.scrub_check.specs.declared.places.chunk_at.ChunkAt.{ChunkAt};
    ghost use Rattle.scrub_check.specs.steps.Places.{chunk_at_cmp};

    ghost Value = { List ChunkAt };

    ghost view = { λ s. s.starts.items };

    ghost invariant = { λ s. IsSorted chunk_at_cmp s.starts.items };
}

/// The places that the sound ones of these locators point to, in their order.
fn starts_of(alloc: Global, checked: &[Checked]) -> Result<Vec<ChunkAt>, OutOfMemory>
    ensures { IfOk result (λ v. v.items ≡ sound_places checked.now) }
{
    checked
        .iter()
        .filter(|one| one.status.is_sound())
        .map(|one| ChunkAt::named_by(&one.locator))
        .collect(alloc)
}

impl SoundPlaces {
    /// The places that the sound ones of these locators point to. They are sorted once, here, for all that
    /// asks for them.
    pub fn of(alloc: Global, checked: &[Checked]) -> Result<SoundPlaces, OutOfMemory>
        ensures { IfOk result (AreSoundPlaces checked.now) }
    {
        let starts = into_sorted(starts_of(alloc, checked)?)?;
        Ok(SoundPlaces { starts })
    }

    /// The places that the sound ones of these locators point to, sorted by threads.
    pub(crate) fn by_threads<R: Threads + Sync>(
        rt: &R,
        alloc: Global,
        checked: &[Checked],
    ) -> Result<SoundPlaces, OutOfMemory>
        ensures { IfOk result (AreSoundPlaces checked.now) }
    {
        let starts = starts_of(alloc, checked)?;
        SoundPlaces::of_starts(rt, alloc, starts)
    }

    /// These places, sorted by threads.
    pub(crate) fn of_starts<R: Threads + Sync>(
        rt: &R,
        alloc: Global,
        starts: Vec<ChunkAt>,
    ) -> Result<SoundPlaces, OutOfMemory>
        ensures { IfOk result (λ sound. IsPermutation starts.items sound) }
    {
        let starts = into_sorted_by_threads(rt, alloc, starts)?;
        Ok(SoundPlaces { starts })
    }

    /// All the places, by extent and then byte.
    pub(crate) fn starts(&self) -> &[ChunkAt]
        ensures places { result.now ≡ self.now }
        // Those of every value of the type are sorted.
        ensures sorted { IsSorted chunk_at_cmp self.now }
    {
        &self.starts
    }

    /// Whether each place is there once.
    pub(crate) fn are_distinct(&self) -> bool
        ensures { IsTrue result ↔ IsStrictlySortedBy chunk_at_cmp self.now }
    {
        rises_strictly(&self.starts)
    }

    /// The places, each once, by extent and then byte.
    pub(crate) fn distinct(&self, alloc: Global) -> Result<Vec<ChunkAt>, OutOfMemory>
        ensures { IfOk result (λ v. AreDistinct chunk_at_cmp self.now v.items) }
    {
        let mut starts = self.starts.to_vec(alloc)?;
        starts.dedup();
        Ok(starts)
    }

    /// How often a place is there.
    pub(crate) fn count(&self, start: ChunkAt) -> usize
        ensures { result ≡ count_by (is_place start) self.now }
    {
        count_of(&self.starts, &start)
    }
}
