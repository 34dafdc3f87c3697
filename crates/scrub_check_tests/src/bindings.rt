//! Which bindings the shard map of a list of index runs has. The runs are read from payloads that are built
//! here.

use scrub_fakes::payloads::{entry_of, payload_of};
use scrub_fakes::{abc_at, shard_numbered};
use scrub_merge::{Binding, ShardMap, merge, merge_by_threads};
use scrub_run::{Entry, Run, read_run};
use std::alloc::Global;
use std::process::Abort;
use std::slice;
use std::test::Fail;

/// A shard in a run: its number, and the offset of its `abc` in extent 1, or `None` if the run deletes it.
type Written = (u32, Option<u32>);

/// An expected binding: its run, whether it is doubtful, the number of its shard, and the offset of its
/// `abc`.
type Wanted = (u32, bool, u32, u32);

/// Runs, newest first, each lost (`None`) or with its shards; all expected bindings; and two shards without a
/// binding.
struct Merge {
    what: &'static str,
    runs: &'static [Option<&'static [Written]>],
    wanted: &'static [Wanted],
    absent: (u32, u32),
}

const MERGES: [Merge; 8] = [
    Merge {
        what: "a deleted shard stays deleted after a lost run",
        runs: &[
            None,
            Some(&[(1, None), (2, Some(0))]),
            Some(&[(1, Some(0)), (2, Some(41))]),
        ],
        wanted: &[(1, true, 2, 0)],
        absent: (1, 3),
    },
    Merge {
        what: "no runs bind nothing",
        runs: &[],
        wanted: &[],
        absent: (1, 2),
    },
    Merge {
        what: "a lost run binds nothing",
        runs: &[None],
        wanted: &[],
        absent: (1, 2),
    },
    Merge {
        what: "two older runs do not bring back a deleted shard",
        runs: &[
            Some(&[(1, None)]),
            Some(&[(1, Some(0))]),
            Some(&[(1, Some(0))]),
        ],
        wanted: &[],
        absent: (1, 2),
    },
    Merge {
        what: "after a lost run a shard is doubtful",
        runs: &[None, Some(&[(1, Some(0))])],
        wanted: &[(1, true, 1, 0)],
        absent: (2, 3),
    },
    Merge {
        what: "before a lost run a shard isn't doubtful",
        runs: &[Some(&[(1, Some(0))]), None],
        wanted: &[(0, false, 1, 0)],
        absent: (2, 3),
    },
    Merge {
        what: "doubt lasts beyond the next run that is read",
        runs: &[None, Some(&[(1, Some(0))]), Some(&[(2, Some(0))])],
        wanted: &[(1, true, 1, 0), (2, true, 2, 0)],
        absent: (3, 4),
    },
    Merge {
        what: "each of three identifiers that differ only after their first twelve bytes is bound",
        runs: &[
            Some(&[(0x7F00_0002, Some(0)), (0x7F01_0000, Some(0))]),
            Some(&[(0x7F00_0002, Some(41)), (0x7F00_0101, Some(41))]),
        ],
        wanted: &[
            (0, false, 0x7F00_0002, 0),
            (1, false, 0x7F00_0101, 41),
            (0, false, 0x7F01_0000, 0),
        ],
        absent: (0x7F00_0001, 1),
    },
];

/// The run with these entries.
fn read(alloc: Global, entries: &[Entry]) -> Result<Run, Fail> {
    let payload = payload_of(alloc, entries)?;
    Ok(read_run(alloc, &payload)?)
}

/// The run with these shards.
fn run_of(alloc: Global, shards: &[Written]) -> Result<Run, Fail> {
    let mut entries = Vec::new(alloc);
    for (number, offset) in shards {
        entries.push(match offset {
            None => Entry::new(shard_numbered(*number), Vec::new(alloc)),
            Some(offset) => entry_of(alloc, shard_numbered(*number), abc_at(1, *offset))?,
        })?;
    }
    read(alloc, &entries)
}

/// The shard map of runs, each lost or with its shards.
fn merged(rt: &impl Abort, alloc: Global, runs: &[Option<&[Written]>]) -> Result<ShardMap, Fail> {
    let mut read = Vec::new(alloc);
    for run in runs {
        read.push(match run {
            None => None,
            Some(shards) => Some(run_of(alloc, shards)?),
        })?;
    }
    assert!(rt; read.len() <= 32);
    Ok(merge(alloc, &read)?)
}

/// Checks a binding, and that the map finds it for its shard.
fn check_binding(rt: &impl Abort, map: &ShardMap, binding: &Binding, wanted: &Wanted, what: &str) {
    let (run, doubtful, number, offset) = *wanted;
    assert!(rt; binding.id() == shard_numbered(number), "{what}");
    assert!(rt;
        binding.run() == run && binding.doubtful() == doubtful,
        "{what}"
    );
    assert!(rt;
        binding.locators() == slice::from_ref(&abc_at(1, offset)),
        "{what}"
    );
    let found = map.get(&shard_numbered(number));
    assert!(rt;
        found.is_some_and(|found| found.run() == run && found.doubtful() == doubtful),
        "{what}"
    );
}

/// Checks all bindings of a map, and that the absent shards have none.
fn check_merge(rt: &impl Abort, alloc: Global, merge: &Merge) -> Result<(), Fail> {
    let map = merged(rt, alloc, merge.runs)?;
    let what = merge.what;
    assert!(rt; map.bindings().len() == merge.wanted.len(), "{what}");
    for (binding, wanted) in map.bindings().iter().zip(merge.wanted) {
        check_binding(rt, &map, binding, wanted, what);
    }
    assert!(rt;
        map.get(&shard_numbered(merge.absent.0)).is_none(),
        "{what}"
    );
    assert!(rt;
        map.get(&shard_numbered(merge.absent.1)).is_none(),
        "{what}"
    );
    Ok(())
}

#[test]
fn the_newest_binding_of_each_shard_counts(rt: HostRuntime) -> Result<(), Fail> {
    for merge in &MERGES {
        check_merge(&rt, rt.alloc(), merge)?;
    }
    Ok(())
}

/// The run of the 2,000 shards from `first` on, each with `abc` at the offset of its number.
fn numbered(alloc: Global, first: u32) -> Result<Run, Fail> {
    let mut entries = Vec::new(alloc);
    for number in first..first.saturating_add(2000) {
        entries.push(entry_of(alloc, shard_numbered(number), abc_at(1, number))?)?;
    }
    read(alloc, &entries)
}

/// Checks that the bindings are those of the shards from 0 on, in order: all 2,000 of the first run, and the
/// last 1,000 of each later run.
fn check_numbered(rt: &impl Abort, bindings: &[Binding]) {
    let mut number = 0u32;
    for binding in bindings {
        let run = (number / 1000).saturating_sub(1);
        assert!(rt;
            binding.id() == shard_numbered(number) && binding.run() == run,
            "{number}"
        );
        number = number.saturating_add(1);
    }
}

#[test]
fn thirty_two_runs_of_two_thousand_entries_are_merged(rt: HostRuntime) -> Result<(), Fail> {
    let mut runs = Vec::new(rt.alloc());
    for run in 0..32 {
        runs.push(Some(numbered(rt.alloc(), 1000 * run)?))?;
    }
    assert!(rt; runs.len() == 32);
    let map = merge(rt.alloc(), &runs)?;
    let by_threads = merge_by_threads(&rt, rt.alloc(), &runs)?;
    assert!(rt; map.bindings().len() == 33_000 && by_threads.bindings().len() == 33_000);
    check_numbered(&rt, map.bindings());
    check_numbered(&rt, by_threads.bindings());
    assert!(rt;
        map.get(&shard_numbered(32_999)).is_some() && map.get(&shard_numbered(33_000)).is_none()
    );
    Ok(())
}
