//! A plan that is restricted to some extents. For which superblock counts, and for the plan that follows from
//! it, see `tests/`.

use crate::compare::same;
use scrub_disk::{Geometry, MemDisk, PageSource};
use scrub_fakes::{abc_at, plan_of, put_record};
use std::test::Fail;

#[test]
fn a_plan_of_three_extents_is_restricted_to_two(rt: HostRuntime) -> Result<(), Fail> {
    let geometry = Geometry::new(64, 4, 4)?;
    let mut disk = MemDisk::blank(rt.alloc(), geometry)?;
    let runs = [abc_at(1, 0)];
    put_record(rt.alloc(), &mut disk, 0, 1, &[41, 250, 155], &runs)?;
    let geometry = disk.geometry();
    assert!(rt; geometry.extents() == 4);
    let plan = plan_of(rt.alloc(), &disk)?;
    same(&rt, plan.planned(), [1, 2, 3].as_slice());
    let restricted = plan.restrict(rt.alloc(), &[1, 3])?;
    same(&rt, restricted.planned(), [1, 3].as_slice());
    let pointers = (
        restricted.pointer(1),
        restricted.pointer(2),
        restricted.pointer(3),
    );
    same(&rt, pointers, (41, 250, 155));
    Ok(())
}
