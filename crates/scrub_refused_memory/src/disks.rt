//! Worked disks with what they name, and a plan of one.

ghost use Rattle.std.specs.Prelude.{◌≡◌, IfOk};
ghost use Rattle.scrub_disk.specs.Memory.{image_of};

use crate::ending::{Stop, Wanted};
use scrub_check::{Checked, Named, Owner, Status};
use scrub_disk::MemDisk;
use scrub_fakes::worked::{self, nine_of_a_shard, put_abc_and_its_run};
use scrub_fakes::{SHARD, TWOS, abc_at, plan_of, shard_of, small_disk};
use scrub_frame::{Locator, digest_of};
use scrub_super::Plan;
use std::alloc::Global;
use uuid::Uuid;

/// The status of each of the nine locators of the shard, on the disk of `nine_locators`.
pub const NINE_STATUSES: [Status; 9] = [
    Status::OutOfRange,
    Status::PastPointer,
    Status::Unreadable,
    Status::NoFrame,
    Status::WrongUuid,
    Status::WrongLength,
    Status::WrongDigest,
    Status::Hidden,
    Status::Sound,
];

/// The disk of one shard, and the locator of its run.
pub fn one_shard(alloc: Global) -> Result<(MemDisk, Locator), Stop> {
    let mut disk = small_disk(alloc)?;
    let run = put_abc_and_its_run(alloc, &mut disk)?;
    Ok((disk, run))
}

/// The plan of a disk of four extents without a superblock, restricted to extents 1 and 3.
pub fn restricted(alloc: Global, disk: &MemDisk, wanted: Wanted) -> Result<Plan, Stop>
    requires { (image_of disk.now).geometry.extents ≡ 4 }
    ensures { IfOk result (λ plan. plan.geometry ≡ (image_of disk.now).geometry) }
{
    let whole = plan_of(alloc, disk)?;
    wanted.made()?;
    Ok(whole.restrict(alloc, &[1, 3])?)
}

/// What the disk of `nine_locators` names: its run, and the nine locators of its shard, each with its status.
pub fn names_with_status(alloc: Global, run: Locator) -> Result<Vec<Checked>, Stop> {
    let mut checked = Vec::new(alloc);
    checked.push(sound(Owner::Run(0), run))?;
    for (locator, status) in nine_of_a_shard().iter().zip(&NINE_STATUSES) {
        checked.push(Checked {
            owner: Owner::Shard(SHARD),
            locator: *locator,
            status: *status,
        })?;
    }
    Ok(checked)
}

/// A sound locator, and who names it.
fn sound(owner: Owner, locator: Locator) -> Checked {
    Checked {
        owner,
        locator,
        status: Status::Sound,
    }
}

/// Who names which locator, without the status.
pub fn names_in(alloc: Global, checked: &[Checked]) -> Result<Vec<Named>, Stop> {
    let mut named = Vec::new(alloc);
    for one in checked {
        named.push(Named {
            owner: one.owner,
            locator: one.locator,
        })?;
    }
    Ok(named)
}

/// The disk of twins and a shared chunk, and the locators that it names, all sound.
pub fn twins_and_shared(alloc: Global) -> Result<(MemDisk, [Checked; 3]), Stop> {
    let (disk, payload) = worked::twins_and_shared(alloc)?;
    let run = Locator {
        extent: 2,
        offset: 0,
        length: u32::try_from(payload.len()).map_err(|_| Stop::Wrong)?,
        uuid: Uuid::from_bytes(TWOS),
        digest: digest_of(&payload),
    };
    let names = [
        sound(Owner::Run(0), run),
        sound(Owner::Shard(SHARD), abc_at(1, 41)),
        sound(Owner::Shard(shard_of(2)), abc_at(1, 41)),
    ];
    Ok((disk, names))
}
