//! Why an abstract state has no expansion.
ghost use Rattle.std.specs.Prelude.{◌≡◌};
ghost use Rattle.abs_expand.specs.declared.fault.ExpandFault.TheVariants.{Memory};

use std::alloc::{AllocError, AllocFailed};

/// Why an abstract state has no expansion.
#[derive(Clone, Copy)]
pub enum ExpandFault {
    /// The state is none that a run comes to.
    BadState {
        /// 1: it isn't sound; 2: a position isn't as the typing has it; 3: a frame below the running one is at no call.
        clause: u8,
    },
    /// A child has more than 512 ids, counted before those go that nothing reaches.
    TooManyIds {
        /// The first such child.
        child: usize,
    },
    /// Want of memory.
    Memory,
}

impl From<AllocError> for ExpandFault {
    ghost from_gives = { λ _ e. e ≡ Memory };

    fn from(_e: AllocError) -> ExpandFault {
        ExpandFault::Memory
    }
}

impl<T: Drop> From<AllocFailed<T>> for ExpandFault {
    ghost from_gives = { λ _ e. e ≡ Memory };

    fn from(_e: AllocFailed<T>) -> ExpandFault {
        ExpandFault::Memory
    }
}
