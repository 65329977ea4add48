//! Why an instruction is refused.
ghost use Rattle.std.specs.Prelude.{◌≡◌};
ghost use Rattle.class_program.specs.declared.refusal.Refusal.TheVariants.{Memory};

use list_views::Seq;
use std::alloc::{AllocError, AllocFailed};

/// Why an instruction is refused, whatever its method and its place.
#[derive(Drop)]
pub(crate) enum Refusal {
    /// It names a class of this name, and no class has it.
    MissingClass(Seq<u8>),
    /// It would initialise the class of this name, which has a static initialiser.
    StaticInit(Seq<u8>),
    /// It uses a type or a constant that is not supported.
    UnsupportedType,
    /// Its operand names nothing of the right kind.
    Unresolved,
    /// It is an `invokevirtual` of a private method.
    PrivateVirtual,
    /// Want of memory.
    Memory,
}

impl From<AllocError> for Refusal {
    ghost from_gives = { λ _ refusal. refusal ≡ Memory };

    fn from(_error: AllocError) -> Refusal {
        Refusal::Memory
    }
}

impl<T: Drop> From<AllocFailed<T>> for Refusal {
    ghost from_gives = { λ _ refusal. refusal ≡ Memory };

    fn from(_failed: AllocFailed<T>) -> Refusal {
        Refusal::Memory
    }
}
