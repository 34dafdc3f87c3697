//! How many workers scan, and which of them took what on the disk with one shard.

ghost use Rattle.std.specs.Prelude.{◌≤◌};

use scrub_pool::Takings;

/// How many workers scan beside the caller.
#[derive(Clone, Copy)]
pub enum Workers {
    None,
    One,
    Two,
}

/// The numbers of workers that calls are tried with.
pub const WORKERS: [Workers; 3] = [Workers::None, Workers::One, Workers::Two];

impl Workers {
    /// Their number.
    pub fn count(self) -> u32
        ensures { result ≤ 64 }
    {
        match self {
            Workers::None => 0,
            Workers::One => 1,
            Workers::Two => 2,
        }
    }

    /// Their number as a word.
    pub fn word(self) -> &'static str {
        match self {
            Workers::None => "0",
            Workers::One => "1",
            Workers::Two => "2",
        }
    }
}

/// Whether `workers` workers and the caller together took extents 1 and 2, each once, and both were counted.
pub fn is_partition(takings: &Takings, workers: u32) -> bool {
    takings.workers() == workers
        && takings.counted() == 2
        && times_taken(takings, 1) == 1
        && times_taken(takings, 2) == 1
        && all_taken(takings) == 2
}

/// How many workers took an extent.
fn times_taken(takings: &Takings, extent: u32) -> usize {
    let mut times = 0usize;
    for worker in 0..=takings.workers() {
        if takings.taken_by(worker).contains(&extent) {
            times = times.saturating_add(1);
        }
    }
    times
}

/// How many extents the workers took.
fn all_taken(takings: &Takings) -> usize {
    let mut count = 0usize;
    for worker in 0..=takings.workers() {
        count = count.saturating_add(takings.taken_by(worker).len());
    }
    count
}
