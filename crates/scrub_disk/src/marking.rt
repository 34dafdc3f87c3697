//! Making pages of a disk in memory unreadable: those that are named, and those that are lost.

ghost use Rattle.std.specs.Prelude.{◌≡◌, ◌*◌, ◌<◌, All, length};
ghost use Rattle.scrub_disk.specs.Memory.{Marks};
ghost use Rattle.scrub_disk.specs.steps.Marked.{MarksAll, MarksLost};

use crate::source::PageSource;

/// A disk in memory whose pages can be made unreadable.
pub trait MarkPages: PageSource {
    /// Makes a page unreadable from now on.
    fn mark_bad(&mut self, extent: u32, page: u32)
        requires in_extents { extent < (Self.image self.old).geometry.extents }
        requires in_pages { page < (Self.image self.old).geometry.pages }
        ensures { Marks (Self.image self.old) (Self.image self.new) extent page };
}

/// Makes each named page unreadable. A name is an extent and a page of it.
pub(crate) fn mark_named<D: MarkPages>(disk: &mut D, named: &[(u32, u32)])
    requires { All (λ at. (at.0 < (D.image disk.old).geometry.extents) ×
        (at.1 < (D.image disk.old).geometry.pages)) named.now }
    ensures { MarksAll (D.image disk.old) (D.image disk.new) named.now }
{
    for &(extent, page) in named {
        disk.mark_bad(extent, page);
    }
}

/// Makes the marked pages unreadable. The marks are by the number of a page among all pages of the disk.
pub fn mark_lost<D: MarkPages>(disk: &mut D, lost: &[bool])
    requires { length lost.now ≡ (D.image disk.old).geometry.pages * (D.image disk.old).geometry.extents }
    ensures { MarksLost lost.now (length lost.now) (D.image disk.old) (D.image disk.new) }
{
    let pages = disk.geometry().pages();
    for (number, is_lost) in lost.iter().enumerate() {
        if *is_lost {
            disk.mark_bad(number as u32 / pages, number as u32 % pages);
        }
    }
}
