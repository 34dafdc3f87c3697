//! How far a call goes, and how it ends. For what is printed of that see `calls`.

use scrub_disk::{LoadFault, OutOfMemory};
use scrub_fakes::Misfit;
use scrub_found::ScrubFault;
use scrub_frame::FrameFault;
use scrub_pool::PoolFault;
use scrub_run::RunFault;
use std::alloc::AllocFailed;

/// How far a call goes.
#[derive(Debug, Clone, Copy)]
pub enum Wanted {
    /// Its values are made, but it isn't called.
    Values,
    /// It is called, and its answer is checked.
    Answer,
}

impl Wanted {
    /// Marks that all values of a call are made. After that only the call itself takes memory.
    pub fn made(self) -> Result<(), Stop> {
        match self {
            Wanted::Values => Err(Stop::Made),
            Wanted::Answer => Ok(()),
        }
    }
}

/// Why a call didn't answer, or not as it should.
#[derive(Debug, Clone, Copy, PartialEq, Eq)]
pub enum Stop {
    /// The values are made, and no more is wanted.
    Made,
    /// A growth was refused, in the call or while its values were made.
    OutOfMemory,
    /// The answer is wrong, or what was lent isn't as it was.
    Wrong,
}

/// Checks that an answer is right.
pub fn right(is_right: bool) -> Result<(), Stop> {
    if is_right { Ok(()) } else { Err(Stop::Wrong) }
}

/// The outcome of a refused growth. What was lent has to be as it was.
pub fn refused(is_as_it_was: bool) -> Result<(), Stop> {
    Err(if is_as_it_was {
        Stop::OutOfMemory
    } else {
        Stop::Wrong
    })
}

impl From<OutOfMemory> for Stop {
    fn from(_fault: OutOfMemory) -> Stop {
        Stop::OutOfMemory
    }
}

impl<T: Drop> From<AllocFailed<T>> for Stop {
    fn from(_fault: AllocFailed<T>) -> Stop {
        Stop::OutOfMemory
    }
}

impl From<PoolFault> for Stop {
    fn from(fault: PoolFault) -> Stop {
        match fault {
            PoolFault::OutOfMemory => Stop::OutOfMemory,
        }
    }
}

impl From<ScrubFault> for Stop {
    fn from(fault: ScrubFault) -> Stop {
        match fault {
            ScrubFault::OutOfMemory => Stop::OutOfMemory,
        }
    }
}

impl From<Misfit> for Stop {
    fn from(fault: Misfit) -> Stop {
        match fault {
            Misfit::DoesNotFit => Stop::Wrong,
            Misfit::OutOfMemory => Stop::OutOfMemory,
        }
    }
}

impl From<FrameFault> for Stop {
    fn from(fault: FrameFault) -> Stop {
        match fault {
            FrameFault::TooLong => Stop::Wrong,
            FrameFault::OutOfMemory => Stop::OutOfMemory,
        }
    }
}

impl From<RunFault> for Stop {
    fn from(fault: RunFault) -> Stop {
        match fault {
            RunFault::NotARun => Stop::Wrong,
            RunFault::OutOfMemory => Stop::OutOfMemory,
        }
    }
}

impl From<LoadFault> for Stop {
    fn from(fault: LoadFault) -> Stop {
        match fault {
            LoadFault::TooLong => Stop::Wrong,
            LoadFault::OutOfMemory => Stop::OutOfMemory,
        }
    }
}
