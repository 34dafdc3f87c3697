//! What happens in a pool of workers, and why a step is refused.

/// What a member of a pool does. The number is the member's, counted from 0.
#[derive(Debug, Clone, Copy, PartialEq, Eq)]
pub enum Event {
    /// It takes the extent at the front of the queue.
    Take(u32),
    /// It finishes the extent that it holds, and has its result.
    Done(u32),
    /// It takes no more, and hands on what it found.
    Retire(u32),
}

/// Why a step is refused, in the order of the checks.
#[derive(Debug, Clone, Copy, PartialEq, Eq)]
pub enum StepRefused {
    /// There is no member of this number.
    NoWorker,
    /// It has retired.
    Retired,
    /// It holds an extent, which it has to finish first.
    Busy,
    /// It holds no extent.
    Idle,
    /// No extent is left to take.
    QueueEmpty,
    /// Out of memory.
    OutOfMemory,
}
