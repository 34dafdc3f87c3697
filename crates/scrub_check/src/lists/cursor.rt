//! A cursor over the sorted places that sound locators point to. It only moves forward, so ascending places
//! are all found in one pass.

ghost use Rattle.std.specs.Prelude.{◌≡◌, ◌≤◌, ◌+◌, nat_lt, length};
ghost use Rattle.std.specs.List.{count_by};
ghost use Rattle.std.specs.List.Sorted.{IsSorted};
ghost use Rattle.scrub_check.specs.steps.Places.{chunk_at_cmp, is_place};
ghost use Rattle.scrub_check.specs.steps.LiveAndOrphans.{AreBefore, IsFirstFrom, HasPassed};

use crate::lists::sound_places::SoundPlaces;
use crate::places::chunk_at::ChunkAt;

/// The index of the first place that isn't below a start, if all before `from` are below it.
fn first_from(starts: &[ChunkAt], from: usize, start: ChunkAt) -> usize
    requires within { from ≤ length starts.now }
    requires before { AreBefore starts.now from start.extent start.offset }
    ensures { IsFirstFrom starts.now start result }
{
    for at in from..starts.len() {
        if !starts[at].cmp(&start).is_lt() {
            return at;
        }
    }
    starts.len()
}

/// Sorted places, and how far they have been asked for.
#[derive(Drop)]
pub(crate) struct Cursor<'s> {
    /// The places, by extent and then byte.
    starts: &'s [ChunkAt],
    /// How many of them the cursor has passed.
    at: usize,
}

impl<'s> Cursor<'s> {
    /// A cursor that has passed none of them.
    pub(crate) fn new(sound: &'s SoundPlaces) -> Cursor<'s>
        ensures over { result.starts.now ≡ sound.now }
        ensures passed { HasPassed result 0 0 }
    {
        Cursor {
            starts: sound.starts(),
            at: 0,
        }
    }

    /// Whether a place is there, if the cursor hasn't passed it yet.
    pub(crate) fn has(&mut self, start: ChunkAt) -> bool
        requires { HasPassed self.old start.extent start.offset }
        ensures stands { result ≡ nat_lt 0 (count_by (is_place start) self.old.starts.now) }
        ensures same { self.new.starts.now ≡ self.old.starts.now }
        ensures passed { HasPassed self.new start.extent start.offset }
    {
        self.at = first_from(self.starts, self.at, start);
        self.at < self.starts.len() && self.starts[self.at] == start
    }
}
