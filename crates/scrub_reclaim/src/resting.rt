//! What a manifest rests on: a law alone, without code.

ghost use Rattle.std.specs.Prelude.{◌≡◌, Bool, List, ℕ};
ghost use Rattle.scrub_disk.specs.Image.{Image};
ghost use Rattle.scrub_listings.specs.Manifest.{IsManifest};
ghost use Rattle.scrub_reclaim.specs.Same.{AreTheSameBelow, AreTheSameInUse, IsSameButLastWords};

/// A law: a manifest rests on the superblock that counts, but for its generation, and on the bytes below the
/// write pointers of the extents in use. Two images that have the same of these have the same manifest and
/// the same verdict, but that last words may differ. So what is written past the pointers, whole or torn,
/// changes nothing else; nor does anything in retired extents, or in extent 0 beside that superblock. Last
/// words, which are of copies anywhere, rest on the other bytes of the extents in use: with the same bytes in
/// all of these the two images have the same manifest to the byte.
pub fn a_manifest_rests_on_bytes_below_pointers()
    ensures below { (before after : Image) (a b : List ℕ) (v w : Bool) → AreTheSameBelow before after →
        IsManifest before a v → IsManifest after b w → IsSameButLastWords a b × (v ≡ w) }
    ensures in_use { (before after : Image) (a b : List ℕ) (v w : Bool) → AreTheSameInUse before after →
        IsManifest before a v → IsManifest after b w → (b ≡ a) × (v ≡ w) }
{}
