//! What the other commands say of a disk that `summary` calls sound: a law alone, without code.

ghost use Rattle.std.specs.Prelude.{◌≡◌, ◌<◌, ℕ, Bool, true, List, Option, Some};
ghost use Rattle.scrub_disk.specs.Image.{Image};
ghost use Rattle.scrub_super.specs.declared.pages.SuperblockPage.{SuperblockPage};
ghost use Rattle.scrub_super.specs.Pages.{AreHeldBytes, AreSuperblockPages};
ghost use Rattle.scrub_loose.specs.Loose.{LooseValue};
ghost use Rattle.scrub_found.specs.Scrubbed.{IsScrubbed, Scrubbed};
ghost use Rattle.scrub_report.specs.Answer.{AnswerValue, IsScrubAnswer};
ghost use Rattle.scrub_listings.specs.Manifest.{IsManifest};
ghost use Rattle.scrub_listings.specs.Summary.{IsSummary, is_sound_verdict, verdict};
ghost use Rattle.scrub_reclaim.specs.Doubts.{Acceptance};
ghost use Rattle.scrub_reclaim.specs.Reclaimable.{AreReclaimLines};
ghost use Rattle.scrub_reclaim.specs.AllRight.{IsAllRight};

/// A law: a disk that is sound is clean, nothing is missing of it, no page of its extent 0 is lost, damaged
/// or stray, and each doubt of what may be reclaimed is a tail. So for its image `scan` and `manifest` end
/// with status 0. A valid record holds each byte of extent 0 that isn't zero. If it is sound by the
/// generation of the last superblock, no doubt is left where that is given, so that `reclaimable` ends with
/// status 0.
pub fn a_sound_disk_is_all_right()
    ensures found { (last : Option ℕ) (image : Image) (pages : List SuperblockPage) (loose : LooseValue)
        (found : Scrubbed) → IsScrubbed image found → AreSuperblockPages image pages →
        is_sound_verdict (verdict last found pages) ≡ true → IsAllRight last pages loose found }
    ensures clean { (last : Option ℕ) (image : Image) (summary : List ℕ) → IsSummary last image summary true →
        (answer : AnswerValue) → IsScrubAnswer image answer → answer.is_clean ≡ true }
    ensures whole { (last : Option ℕ) (image : Image) (summary : List ℕ) → IsSummary last image summary true →
        (text : List ℕ) (whole : Bool) → IsManifest image text whole → whole ≡ true }
    ensures held { (last : Option ℕ) (image : Image) (summary : List ℕ) (q : ℕ) (bytes : List ℕ) →
        IsSummary last image summary true → q < image.geometry.pages →
        image.page 0 q ≡ Some bytes → AreHeldBytes image q bytes }
    ensures clear { (last : ℕ) (image : Image) (summary : List ℕ) (accepted : Acceptance) (text : List ℕ)
        (clear : Bool) → IsSummary (Some last) image summary true → accepted.last ≡ Some last →
        AreReclaimLines image accepted text clear → clear ≡ true }
{}
