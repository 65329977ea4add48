//! Why a graph has no rules.
ghost use Rattle.std.specs.Prelude.{◌≡◌};
ghost use Rattle.path_rules.specs.declared.fault.PathFault.TheVariants.{Memory};

use std::alloc::{AllocError, AllocFailed};

/// What stands in the way of the rules of a graph's paths.
#[derive(Clone, Copy, PartialEq, Eq)]
pub enum PathFault {
    /// A cycle has no cut.
    Uncut {
        /// The least node on such a cycle.
        node: u32,
    },
    /// There are more than 4,096 paths.
    TooManyPaths,
    /// A rule has more than 65,536 rows, or the rules so far have more than 16,777,216 together.
    TooManyRows {
        /// The path whose rule is the first.
        path: u32,
    },
    /// Want of memory.
    Memory,
}

impl From<AllocError> for PathFault {
    ghost from_gives = { λ _ e. e ≡ Memory };

    fn from(_e: AllocError) -> PathFault {
        PathFault::Memory
    }
}

impl<T: Drop> From<AllocFailed<T>> for PathFault {
    ghost from_gives = { λ _ e. e ≡ Memory };

    fn from(_e: AllocFailed<T>) -> PathFault {
        PathFault::Memory
    }
}
