//! That the premises of the laws of resets and copies can be met: a law alone, without code.

ghost use Rattle.std.specs.Prelude.{◌≡◌, ◌+◌, ◌<◌, ◌^◌, ℕ, List, [], ◌∷◌, Some, IfSome};
ghost use Rattle.scrub_disk.specs.Image.{Image};
ghost use Rattle.scrub_super.specs.Plan.{pointer_of};
ghost use Rattle.scrub_scan.specs.Extent.{extent_of};
ghost use Rattle.scrub_reclaim.specs.Copy.{AreFramesFrom, IsAfterCopies, RoomValue, WholeFrame};
ghost use Rattle.scrub_reclaim.specs.Doubts.{Acceptance};
ghost use Rattle.scrub_reclaim.specs.Reset.{AreListedKeepingCopies, IsForeseen, IsReclaimed};

/// A law: extents can be reset and filled, so the laws of resets and copies aren't empty. Whatever lines are
/// accepted, and whatever generation is given that has a next one, there are images before and after a reset
/// of extent 1 that was listed with nothing to move, with no spare and no loose copy accepted. And there are
/// images before and after a copy into a room, in which a whole frame is at its place.
pub fn acting_can_happen()
    ensures resets { (accepted : Acceptance) → IfSome accepted.last (λ last. last + 1 < 2 ^ 64) →
        (before after : Image) × IsReclaimed accepted (1 ∷ []) before after ×
        IsForeseen (1 ∷ []) before after × AreListedKeepingCopies accepted (1 ∷ []) before }
    ensures copies { (room : RoomValue) × (copy : WholeFrame) × (before after : Image) ×
        (acted : IsAfterCopies (room ∷ []) before after) × (w : ℕ) ×
        (pointer_of acted.new room.extent ≡ Some w) ×
        AreFramesFrom (extent_of after room.extent w) room.place (copy ∷ []) }
{}
