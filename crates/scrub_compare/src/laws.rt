//! What follows for two images of a disk if what was written between them is safe: laws alone, without code.

ghost use Rattle.std.specs.Prelude.{◌≡◌, [], Bool, List, ℕ};
ghost use Rattle.scrub_disk.specs.Image.{HasWholePages, Image};
ghost use Rattle.scrub_super.specs.Pages.{AreSuperblockPages};
ghost use Rattle.scrub_super.specs.declared.pages.SuperblockPage.{SuperblockPage};
ghost use Rattle.scrub_found.specs.Scrubbed.{Scrubbed, IsScrubbed};
ghost use Rattle.scrub_listings.specs.Manifest.{IsManifest};
ghost use Rattle.scrub_reclaim.specs.Copy.{IsSameButRisen};
ghost use Rattle.scrub_reclaim.specs.Reset.{IsAfterReset};
ghost use Rattle.scrub_compare.specs.Compare.{firm_doubts};
ghost use Rattle.scrub_compare.specs.Laws.{IsSafe, IsSameButMore, IsUndone, KeepsBytes, KeepsChunks};
ghost use Rattle.scrub_compare.specs.Laws.{NoneIsCrowded, NonePointsInto};

/// A law: if what was written between two images is safe, nothing that is named is lost. Take an image that
/// differs from the later one only in this: the extents to be reset have any write pointers and any bytes,
/// and the generation and the bytes of extent 0 may be others. All its index runs are read. Its manifest is
/// that of the earlier image, except that fewer runs may be hidden, and last words may have risen (from
/// `none` over `loose` to `spare`): a locator that dangles may have got a better copy, and has lost none.
pub fn nothing_is_lost()
    ensures { (resets : List ℕ) (before after other : Image) (a b : List ℕ) (v w : Bool) →
        IsSafe resets before after → IsAfterReset resets after other → IsManifest before a v →
        IsManifest other b w → IsSameButMore a b }
{}

/// A law: two steps together lose nothing either. Let what was written between a first and a second image be
/// safe, and also what was written between the second and a third. Take an image that differs from the third
/// one only as above, by the extents to be reset of the second step. All its index runs are read. Its
/// manifest is that of the first image, with the same exceptions.
pub fn nothing_is_lost_in_two_steps()
    ensures { (resets others : List ℕ) (before after later other : Image) (a b : List ℕ) (v w : Bool) →
        IsSafe resets before after → IsSafe others after later → IsAfterReset others later other →
        IsManifest before a v → IsManifest other b w → IsSameButMore a b }
{}

/// A law: if what was written between two images is safe, nothing was overwritten. Each byte below the write
/// pointer that an extent had, also of one to be reset, can be read in the later image exactly if it could in
/// the earlier one, and is then what it was. If the earlier image has whole pages, as that of each page
/// source has, each chunk in the tiling of an extent that isn't to be reset still is one, at its place and of
/// its form, with its UUID, length and digest.
pub fn nothing_was_overwritten()
    ensures bytes { (resets : List ℕ) (before after : Image) (found_before : Scrubbed) →
        IsSafe resets before after → IsScrubbed before found_before → KeepsBytes before after found_before }
    ensures chunks { (resets : List ℕ) (before after : Image) (found_before found_after : Scrubbed) →
        HasWholePages before → IsSafe resets before after → IsScrubbed before found_before →
        IsScrubbed after found_after → KeepsChunks resets found_before found_after }
{}

/// A law: if what was written between two images is safe, no named locator of the later one points into an
/// extent that is to be reset.
pub fn nothing_points_into_resets()
    ensures { (resets : List ℕ) (before after : Image) (found_after : Scrubbed) → IsSafe resets before after →
        IsScrubbed after found_after → NonePointsInto resets found_after.checked }
{}

/// A law: if what was written between two images is safe, it can be undone. Take an image with the bytes of
/// the later one in all extents but extent 0, where a superblock counts that names the index runs, the
/// retired extents and the write pointers of the earlier one. If no extent in use of the later image is
/// crowded, its manifest is that of the earlier image, except that last words may have risen (from `none`
/// over `loose` to `spare`): what was copied is past a write pointer then.
pub fn it_can_be_undone()
    ensures { (resets : List ℕ) (before after undone : Image) (a b : List ℕ) (v w : Bool) →
        IsSafe resets before after → NoneIsCrowded after → IsUndone before after undone →
        IsManifest before a v → IsManifest undone b w → IsSameButRisen a b }
{}

/// A law: what wasn't written to is safe. An image without doubts that can't be accepted is safe with itself,
/// where no extent is to be reset.
pub fn what_is_unwritten_is_safe()
    ensures { (image : Image) (pages : List SuperblockPage) (found : Scrubbed) → IsScrubbed image found →
        AreSuperblockPages image pages → firm_doubts pages found ≡ [] → IsSafe [] image image }
{}
