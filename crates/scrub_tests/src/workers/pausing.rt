//! How a thread that is held up waits: it sleeps, so that others can run, and gives up after a while.

use std::thread;
use std::time::{Clock, Duration};

/// How many pauses a thread makes before it gives up: some seconds in all, far longer than the others need.
pub(super) const PAUSES: u32 = 5_000;

/// Sleeps for a millisecond.
pub(super) fn pause(clock: &impl Clock) {
    thread::sleep(clock, Duration::from_millis(1));
}
