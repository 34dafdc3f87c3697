//! Two threads that take from one queue, and a scan without a gate. For scans that a gate holds up see
//! `workers`.

ghost use Rattle.std.specs.Prelude.{◌≡◌};

use scrub_disk::{Geometry, MemDisk};
use scrub_fakes::plan_of;
use scrub_pool::{ExtentQueue, NoGate, OutOfMemory, PoolFault, TakePass, scan_all};
use std::alloc::Global;
use std::process::Abort;
use std::sync::Wait;
use std::test::Fail;
use std::thread;

/// A blank disk of 40 extents of one page of 64 bytes.
fn many_extents(alloc: Global) -> Result<MemDisk, Fail> {
    Ok(MemDisk::blank(alloc, Geometry::new(64, 1, 40)?)?)
}

/// Takes extents until none is left, and returns them as bits.
fn take_all<R: Wait + Abort>(rt: &R, queue: &ExtentQueue, pass: &mut TakePass) -> u64
    requires { pass.old.queue ≡ queue.now }
    ensures queue { pass.new.queue ≡ pass.old.queue }
    ensures first { pass.new.first ≡ pass.old.first }
{
    let mut taken = 0;
    for _ in rt.forever() {
        let Some(extent) = queue.take(rt, pass) else {
            return taken;
        };
        assert!(rt; extent < 64 && taken >> extent == 0);
        taken |= 1 << extent;
    }
    unreachable!()
}

#[test]
fn two_threads_take_each_extent_once(rt: HostRuntime) -> Result<(), Fail> {
    let disk = many_extents(rt.alloc())?;
    let plan = plan_of(rt.alloc(), &disk)?;
    let (queue, mut first) = ExtentQueue::new(&rt, rt.alloc(), &plan)?;
    let mut second = queue.split(&rt, rt.alloc(), &mut first)?;
    let (mine, theirs) = thread::join_mut(
        &rt,
        &mut || take_all(&rt, &queue, &mut first),
        &mut || take_all(&rt, &queue, &mut second),
    );
    queue.join(&rt, &mut first, second);
    assert!(&rt; queue.take(&rt, &mut first).is_none());
    assert!(&rt; mine & theirs == 0 && mine | theirs == (1 << 40) - 2);
    Ok(())
}

#[test]
fn three_workers_without_a_gate_scan_all_extents(rt: HostRuntime) -> Result<(), Fail> {
    let disk = many_extents(rt.alloc())?;
    let plan = plan_of(rt.alloc(), &disk)?;
    let (queue, mut first) = ExtentQueue::new(&rt, rt.alloc(), &plan)?;
    let scanned = scan_all(
        &rt,
        rt.alloc(),
        &disk,
        &plan,
        &queue,
        &mut first,
        3,
        &NoGate,
    );
    let Ok((found, takings)) = scanned else {
        return Err(Fail::from("out of memory"));
    };
    assert!(&rt; found.len() == 39 && takings.workers() == 3 && takings.counted() == 39);
    Ok(())
}

#[test]
fn out_of_memory_is_the_only_pool_fault(rt: HostRuntime) {
    assert!(&rt; PoolFault::from(OutOfMemory) == PoolFault::OutOfMemory);
}
