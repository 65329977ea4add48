//! Why calls on the abstract heap give no children.
ghost use Rattle.std.specs.Prelude.{◌≡◌};
ghost use Rattle.abs_heap.specs.declared.fault.HeapFault.TheVariants.{Memory};
ghost use Rattle.abs_heap.specs.declared.fault.SplitFault.TheVariants as splits;

use std::alloc::{AllocError, AllocFailed};

/// Why a call on the abstract heap gives no children.
#[derive(Clone, Copy, PartialEq, Eq)]
pub enum HeapFault {
    /// A child has more than 512 ids.
    TooManyIds,
    /// Want of memory.
    Memory,
}

impl From<AllocError> for HeapFault {
    ghost from_gives = { λ _ e. e ≡ Memory };

    fn from(_e: AllocError) -> HeapFault {
        HeapFault::Memory
    }
}

impl<T: Drop> From<AllocFailed<T>> for HeapFault {
    ghost from_gives = { λ _ e. e ≡ Memory };

    fn from(_e: AllocFailed<T>) -> HeapFault {
        HeapFault::Memory
    }
}

/// Why a split by class gives no children.
#[derive(Clone, Copy, PartialEq, Eq)]
pub enum SplitFault {
    /// A child has more than 512 ids.
    TooManyIds {
        /// The first such child.
        child: usize,
    },
    /// Want of memory.
    Memory,
}

impl From<AllocError> for SplitFault {
    ghost from_gives = { λ _ e. e ≡ splits.Memory };

    fn from(_e: AllocError) -> SplitFault {
        SplitFault::Memory
    }
}

impl<T: Drop> From<AllocFailed<T>> for SplitFault {
    ghost from_gives = { λ _ e. e ≡ splits.Memory };

    fn from(_e: AllocFailed<T>) -> SplitFault {
        SplitFault::Memory
    }
}
