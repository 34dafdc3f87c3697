//! A reset as `manifest` foresees it: a law alone, without code. That a reset loses nothing is a law of
//! `reclaiming`.

ghost use Rattle.std.specs.Prelude.{◌≡◌, Bool, List, ℕ};
ghost use Rattle.scrub_disk.specs.Image.{Image};
ghost use Rattle.scrub_listings.specs.Manifest.{IsManifest, IsManifestBut};
ghost use Rattle.scrub_reclaim.specs.Copy.{IsSameButRisen};
ghost use Rattle.scrub_reclaim.specs.Reset.{IsForeseen};

/// A law: a reset is foreseen. Once extents have been reset, and their write pointers are 0, the manifest and
/// the exit status are those that the image had before as if they had been reset, whatever these extents hold
/// now; but the last words of lines may have risen, since a loose copy may be there.
pub fn a_reset_is_foreseen()
    ensures { (extents : List ℕ) (before after : Image) (a b : List ℕ) (v w : Bool) →
        IsForeseen extents before after →
        IsManifestBut extents before a v → IsManifest after b w → IsSameButRisen a b × (v ≡ w) }
{}
