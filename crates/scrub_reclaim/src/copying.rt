//! What an image keeps when something is copied into rooms of it: a law alone, without code. Which extents
//! have room is listed by `reclaiming`.

ghost use Rattle.std.specs.Prelude.{◌≡◌, ℕ, All, Bool, List};
ghost use Rattle.scrub_disk.specs.Image.{Image};
ghost use Rattle.scrub_found.specs.Scrubbed.{Scrubbed, IsScrubbed};
ghost use Rattle.scrub_listings.specs.Manifest.{IsManifest};
ghost use Rattle.scrub_reclaim.specs.Copy.{HoldsCopies, IsAfterCopies, IsSameButRisen, RoomValue};
ghost use Rattle.scrub_reclaim.specs.Reset.{NameTheSame};

/// A law: a copy loses nothing that is named. Let extents have room that is offered, each at a place, let
/// anything be written from there on, and let the new write pointers be at these places or above. Then the
/// same is named, with the same statuses and forms, and the manifest and its verdict are the same, but that
/// the last words of lines may have risen: a locator may have got a spare, or a loose copy where it had none.
/// Each chunk of these extents is still one, and whole frames from the places on, one directly after the
/// other, are chunks.
pub fn a_copy_loses_nothing()
    ensures named { (rooms : List RoomValue) (before after : Image) (found rest : Scrubbed) →
        IsAfterCopies rooms before after → IsScrubbed before found → IsScrubbed after rest →
        NameTheSame found rest }
    ensures manifest { (rooms : List RoomValue) (before after : Image) (a b : List ℕ) (v w : Bool) →
        IsAfterCopies rooms before after → IsManifest before a v → IsManifest after b w →
        IsSameButRisen a b × (v ≡ w) }
    ensures holds { (rooms : List RoomValue) (before after : Image) (found rest : Scrubbed) →
        IsAfterCopies rooms before after → IsScrubbed before found → IsScrubbed after rest →
        All (HoldsCopies after found rest) rooms }
{}
