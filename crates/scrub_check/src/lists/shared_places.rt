//! The places that several sound named locators point to.

ghost use Rattle.std.specs.Prelude.{◌≡◌, IfOk, List};
ghost use Rattle.scrub_check.specs.declared.lists.place.SharedPlace.{SharedPlace};
ghost use Rattle.scrub_check.specs.declared.statuses.checked.Checked.{Checked};
ghost use Rattle.scrub_check.specs.Shared.{AreShared};
ghost use Rattle.scrub_check.specs.steps.SoundPlaces.{AreSoundPlaces, place_counted, shared_by};

use crate::lists::place::SharedPlace;
use crate::lists::sound_places::SoundPlaces;
use crate::places::chunk_at::ChunkAt;
use crate::statuses::checked::Checked;
use scrub_disk::OutOfMemory;
use std::alloc::Global;

/// A place, and how many sound locators point to it.
fn place_counted(sound: &SoundPlaces, start: &ChunkAt) -> SharedPlace
    ensures { result ≡ place_counted sound.now start.now }
{
    SharedPlace {
        extent: start.extent,
        offset: start.offset,
        count: sound.count(*start),
    }
}

/// Those of these places that two sound locators or more point to.
fn shared_among(
    alloc: Global,
    sound: &SoundPlaces,
    places: &[ChunkAt],
) -> Result<Vec<SharedPlace>, OutOfMemory>
    ensures { IfOk result (λ v. v.items ≡ shared_by sound.now places.now) }
{
    places
        .iter()
        .map(|start| place_counted(sound, start))
        .filter(|place| place.count > 1)
        .collect(alloc)
}

/// The places that two sound locators or more point to, by extent and then byte.
pub fn shared(alloc: Global, checked: &[Checked]) -> Result<Vec<SharedPlace>, OutOfMemory>
    ensures { IfOk result (λ v. AreShared checked.now v.items) }
{
    let sound = SoundPlaces::of(alloc, checked)?;
    shared_by(alloc, &sound)
}

/// The same, if the places that sound locators point to are known.
pub(crate) fn shared_by(alloc: Global, sound: &SoundPlaces) -> Result<Vec<SharedPlace>, OutOfMemory>
    ensures { (checked : List Checked) → AreSoundPlaces checked sound.now →
        IfOk result (λ v. AreShared checked v.items) }
{
    if sound.are_distinct() {
        return Ok(Vec::new(alloc));
    }
    let places = sound.distinct(alloc)?;
    shared_among(alloc, sound, &places)
}

/// A law: there is one list of shared places at most.
pub fn one_list_of_shared_places()
    ensures { (checked : List Checked) (ps qs : List SharedPlace) →
        AreShared checked ps → AreShared checked qs → ps ≡ qs }
{}

/// A law: there is a list of shared places. With `one_list_of_shared_places`, there is exactly one.
pub fn each_scan_has_shared_places()
    ensures { (checked : List Checked) → (places : List SharedPlace) × AreShared checked places }
{}
