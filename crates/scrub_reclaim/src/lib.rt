//! What can be reclaimed of a disk: what may have hidden something, which extents may be reset, what must be
//! moved first, and where there is room for it, as lines; and the laws of a copy and of a reset.
#![tactic(auto)]

mod acting;
mod closed;
mod copying;
pub mod doubting;
pub mod doubts;
mod loose_doubts;
mod moves;
mod page_ranges;
mod reclaim_parts;
pub mod reclaiming;
mod resetting;
mod resting;
pub mod room;
mod sound_disks;
mod spare_doubts;

pub use acting::acting_can_happen;
pub use copying::a_copy_loses_nothing;
pub use doubts::Acceptance;
pub use page_ranges::neighbouring_pages_are_joined;
pub use reclaiming::{
    a_line_shows_room, a_reset_loses_nothing, each_image_has_a_reclaim_listing, list_reclaimable,
    listed_by_last, no_loose_copy_is_taken, no_spare_is_taken, one_reclaim_listing,
    reclaimed_are_candidates, reclaiming_is_safe,
};
pub use resetting::a_reset_is_foreseen;
pub use resting::a_manifest_rests_on_bytes_below_pointers;
pub use sound_disks::a_sound_disk_is_all_right;
