//! Why a program has no typing.
ghost use Rattle.std.specs.Prelude.{◌≡◌};
ghost use Rattle.code_verify.specs.declared.fault.VerifyFault.TheVariants.{Memory};

use std::alloc::{AllocError, AllocFailed};

/// The first method of a program that has no typing.
#[derive(Clone, Copy, PartialEq, Eq)]
pub enum VerifyFault {
    /// The reached method of this number has no typing, and those of lower numbers have one (JVM specification, section
    /// 4.10).
    NoTyping {
        /// The method's number among the reached methods.
        method: u32,
    },
    /// Want of memory.
    Memory,
}

impl From<AllocError> for VerifyFault {
    ghost from_gives = { λ _ fault. fault ≡ Memory };

    fn from(_error: AllocError) -> VerifyFault {
        VerifyFault::Memory
    }
}

impl<T: Drop> From<AllocFailed<T>> for VerifyFault {
    ghost from_gives = { λ _ fault. fault ≡ Memory };

    fn from(_failed: AllocFailed<T>) -> VerifyFault {
        VerifyFault::Memory
    }
}
