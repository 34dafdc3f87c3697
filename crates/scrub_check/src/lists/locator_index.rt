//! What the named locators say, sorted so that it is found by search: the places that sound ones point to,
//! and the extents that others name.

ghost use Rattle.std.specs.Prelude.{◌≡◌, not, map, IfOk, List};
ghost use Rattle.std.specs.List.{filter};
ghost use Rattle.scrub_check.specs.declared.statuses.checked.Checked.{Checked};
ghost use Rattle.scrub_check.specs.Checked.{is_sound};
ghost use Rattle.scrub_check.specs.Live.{has_sound_at};
ghost use Rattle.scrub_check.specs.steps.LocatorIndex.{AreBarredExtents, IsLocatorIndex};

use crate::lists::extent_set::ExtentSet;
use crate::lists::sound_places::SoundPlaces;
use crate::places::chunk_at::ChunkAt;
use crate::statuses::checked::Checked;
use scrub_disk::OutOfMemory;
use std::alloc::Global;
use std::thread::Threads;

/// What the named locators say of places and extents.
#[derive(Drop)]
pub struct LocatorIndex {
    /// The places that sound ones point to.
    pub(crate) sound: SoundPlaces,
    /// The extents that others name.
    pub(crate) barred: ExtentSet,
}

/// The extents that those of these locators name that aren't sound, in the order of the locators.
fn extents_of_unsound(alloc: Global, checked: &[Checked]) -> Result<Vec<u32>, OutOfMemory>
    ensures { IfOk result (λ v.
        v.items ≡ map (λ c. c.locator.extent) (filter (λ c. not (is_sound c.status)) checked.now)) }
{
    checked
        .iter()
        .filter(|one| !one.status.is_sound())
        .map(|one| one.locator.extent)
        .collect(alloc)
}

/// The extents that those of these locators name that aren't sound: nothing may be put there or reclaimed.
pub fn barred_extents(alloc: Global, checked: &[Checked]) -> Result<ExtentSet, OutOfMemory>
    ensures { IfOk result (AreBarredExtents checked.now) }
{
    ExtentSet::of(extents_of_unsound(alloc, checked)?)
}

impl LocatorIndex {
    /// What these locators say. They are sorted once, here, for all that asks for them.
    pub fn of(alloc: Global, checked: &[Checked]) -> Result<LocatorIndex, OutOfMemory>
        ensures { IfOk result (IsLocatorIndex checked.now) }
    {
        let sound = SoundPlaces::of(alloc, checked)?;
        let barred = barred_extents(alloc, checked)?;
        Ok(LocatorIndex { sound, barred })
    }

    /// What these locators say, the sound ones sorted by threads.
    pub fn by_threads<R: Threads + Sync>(
        rt: &R,
        alloc: Global,
        checked: &[Checked],
    ) -> Result<LocatorIndex, OutOfMemory>
        ensures { IfOk result (IsLocatorIndex checked.now) }
    {
        let sound = SoundPlaces::by_threads(rt, alloc, checked)?;
        let barred = barred_extents(alloc, checked)?;
        Ok(LocatorIndex { sound, barred })
    }

    /// The extents that unsound ones name.
    pub fn barred(&self) -> &ExtentSet
        ensures { result.now ≡ self.now.barred }
    {
        &self.barred
    }

    /// Whether a sound one points to a byte of an extent.
    pub fn has_sound(&self, extent: u32, offset: u32) -> bool
        ensures { (checked : List Checked) → IsLocatorIndex checked self.now →
            result ≡ has_sound_at checked extent offset }
    {
        self.sound.count(ChunkAt { extent, offset }) > 0
    }
}
