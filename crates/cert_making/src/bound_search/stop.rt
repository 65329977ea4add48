//! Why nothing is found.
use std::alloc::{AllocError, AllocFailed};

/// Why nothing is found.
#[derive(Clone, Copy, PartialEq, Eq)]
pub(crate) enum Stop {
    /// The search doesn't find it, or a number is past its limit.
    None,
    /// Want of memory.
    Memory,
}

impl From<AllocError> for Stop {
    fn from(_e: AllocError) -> Stop {
        Stop::Memory
    }
}

impl<T: Drop> From<AllocFailed<T>> for Stop {
    fn from(_e: AllocFailed<T>) -> Stop {
        Stop::Memory
    }
}
