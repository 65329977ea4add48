//! Why a search ends without a form.
ghost use Rattle.std.specs.Prelude.{◌≡◌};
ghost use Rattle.cut_search.specs.declared.stop.Stop.TheVariants.{Memory};

use std::alloc::{AllocError, AllocFailed};

/// Why a search ends without a form.
#[derive(Clone, Copy, PartialEq, Eq)]
pub(crate) enum Stop {
    /// A number is past its limit, or there is no form.
    NoForm,
    /// Want of memory.
    Memory,
}

impl From<AllocError> for Stop {
    ghost from_gives = { λ _ e. e ≡ Memory };

    fn from(_e: AllocError) -> Stop {
        Stop::Memory
    }
}

impl<T: Drop> From<AllocFailed<T>> for Stop {
    ghost from_gives = { λ _ e. e ≡ Memory };

    fn from(_e: AllocFailed<T>) -> Stop {
        Stop::Memory
    }
}
