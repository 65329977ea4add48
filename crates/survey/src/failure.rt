//! Why a survey ends before its end.
ghost use Rattle.std.specs.Prelude.{◌≢◌};

use io_ports::FileFault;
use std::alloc::{AllocError, AllocFailed};

/// Why a survey ends before its end.
#[derive(Clone, Copy, PartialEq, Eq)]
pub(crate) enum Stop {
    /// The description of this number was not read.
    Unread(usize, FileFault),
    /// The output took only a part of what was put.
    Write,
    /// Want of memory.
    Memory,
}

impl From<AllocError> for Stop {
    fn from(_: AllocError) -> Stop {
        Stop::Memory
    }
}

impl<T: Drop> From<AllocFailed<T>> for Stop {
    fn from(_: AllocFailed<T>) -> Stop {
        Stop::Memory
    }
}

impl Stop {
    /// The status that a survey ends with.
    pub(crate) fn status(self) -> u8
        ensures { result ≢ 0 }
    {
        match self {
            Stop::Unread(_, _) => 5,
            Stop::Write => 6,
            Stop::Memory => 7,
        }
    }
}
