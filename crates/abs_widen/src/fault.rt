//! Why there is no widening.
use std::alloc::{AllocError, AllocFailed};

/// Why a widening is not given.
#[derive(Clone, Copy, PartialEq, Eq)]
pub enum WidenFault {
    /// It would have more than 512 ids, before those that nothing reaches are dropped.
    TooManyIds,
    /// Want of memory.
    Memory,
}

impl From<AllocError> for WidenFault {
    ghost use Rattle.std.specs.Prelude.{◌≡◌};
    ghost use Rattle.abs_widen.specs.declared.fault.WidenFault.TheVariants.{Memory};

    ghost from_gives = { λ _ e. e ≡ Memory };

    fn from(_: AllocError) -> WidenFault {
        WidenFault::Memory
    }
}

impl<T: Drop> From<AllocFailed<T>> for WidenFault {
    ghost use Rattle.std.specs.Prelude.{◌≡◌};
    ghost use Rattle.abs_widen.specs.declared.fault.WidenFault.TheVariants.{Memory};

    ghost from_gives = { λ _ e. e ≡ Memory };

    fn from(_: AllocFailed<T>) -> WidenFault {
        WidenFault::Memory
    }
}
