//! Why a text is no bound for a certificate.
ghost use Rattle.std.specs.Prelude.{◌≡◌};
ghost use Rattle.bound_check.specs.declared.fault.BoundFault.TheVariants.{Memory};

use lin_core::LinFault;
use std::alloc::{AllocError, AllocFailed};

/// Why a text is no bound for a certificate: the first fault by entry, in the order of these, or want of memory.
#[derive(Clone, Copy, PartialEq, Eq)]
pub enum BoundFault {
    /// The entry names no rank step, or none above that of the entry before.
    NotRank {
        /// The entry, from 0.
        entry: u32,
        /// The step that it names.
        step: u32,
    },
    /// A list of the entry doesn't rise; or it names a cut that the step lists or at which a rule of the step's set starts or ends,
    /// or a rule of the set.
    BadList {
        /// The entry.
        entry: u32,
    },
    /// The multipliers of a rule are refused.
    Lin {
        /// The entry.
        entry: u32,
        /// Why.
        fault: LinFault,
    },
    /// It is not shown that the step's whole form never rises on a rule outside the step's set.
    NotWeak {
        /// The entry.
        entry: u32,
        /// The rule.
        rule: u32,
    },
    /// A rank step has no entry.
    Missing {
        /// The least one.
        step: u32,
    },
    /// Want of memory.
    Memory,
}

impl From<AllocError> for BoundFault {
    ghost from_gives = { λ _ e. e ≡ Memory };

    fn from(_e: AllocError) -> BoundFault {
        BoundFault::Memory
    }
}

impl<T: Drop> From<AllocFailed<T>> for BoundFault {
    ghost from_gives = { λ _ e. e ≡ Memory };

    fn from(_e: AllocFailed<T>) -> BoundFault {
        BoundFault::Memory
    }
}
