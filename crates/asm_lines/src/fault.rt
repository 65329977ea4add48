//! Why a listing says no class.

ghost use Rattle.std.specs.Prelude.{◌≡◌, IfOk};
ghost use Rattle.asm_lines.specs.Faults.{fault_name, fault_fields, fault_text};
ghost use Rattle.asm_lines.specs.declared.fault.AsmFault.TheVariants.{Memory};

use list_views::Seq;
use list_views::fault_words::{joined, number_field};
use std::alloc::{AllocError, AllocFailed, Global};

/// The first broken rule of a listing. Lines are counted from 1. Of several faults on one line the one that stands first
/// here is named.
#[derive(Clone, Copy, PartialEq, Eq)]
pub enum AsmFault {
    /// A byte outside 32 to 126, a line that is none where it stands, or a word that is none where it stands.
    Syntax { line: usize },
    /// In a method, a word at an instruction's place that is no instruction's name.
    UnknownOpcode { line: usize },
    /// A label that the method doesn't have.
    UnknownLabel { line: usize },
    /// A label that an earlier place of the method has.
    DuplicateLabel { line: usize },
    /// A number, a distance, a count, a name or a descriptor that a class file can't hold.
    OutOfRange { line: usize },
    /// The last line, where a method isn't ended.
    NoEnd { line: usize },
    /// Want of memory.
    Memory,
}

impl AsmFault {
    /// The fault's name.
    pub fn name(&self) -> &'static [u8]
        ensures { result.now ≡ fault_name self.now }
    {
        match self {
            AsmFault::Syntax { .. } => b"Syntax",
            AsmFault::UnknownOpcode { .. } => b"UnknownOpcode",
            AsmFault::UnknownLabel { .. } => b"UnknownLabel",
            AsmFault::DuplicateLabel { .. } => b"DuplicateLabel",
            AsmFault::OutOfRange { .. } => b"OutOfRange",
            AsmFault::NoEnd { .. } => b"NoEnd",
            AsmFault::Memory => b"Memory",
        }
    }

    /// The fault's line, as ` line=N`; of want of memory nothing.
    ///
    /// # Errors
    ///
    /// Want of memory.
    pub fn fields(&self, alloc: Global) -> Result<Seq<u8>, AllocError>
        ensures { IfOk result (λ text. text ≡ fault_fields self.now) }
    {
        match self {
            AsmFault::Syntax { line } => number_field(alloc, b"line", *line),
            AsmFault::UnknownOpcode { line } => number_field(alloc, b"line", *line),
            AsmFault::UnknownLabel { line } => number_field(alloc, b"line", *line),
            AsmFault::DuplicateLabel { line } => number_field(alloc, b"line", *line),
            AsmFault::OutOfRange { line } => number_field(alloc, b"line", *line),
            AsmFault::NoEnd { line } => number_field(alloc, b"line", *line),
            AsmFault::Memory => Ok(Seq::new(alloc)),
        }
    }

    /// The fault in words: its name and its line.
    ///
    /// # Errors
    ///
    /// Want of memory.
    pub fn text(&self, alloc: Global) -> Result<Seq<u8>, AllocError>
        ensures { IfOk result (λ text. text ≡ fault_text self.now) }
    {
        let fields = self.fields(alloc)?;
        joined(alloc, &[self.name(), fields.as_slice()])
    }
}

impl From<AllocError> for AsmFault {
    ghost from_gives = { λ _ e. e ≡ Memory };

    fn from(_e: AllocError) -> AsmFault {
        AsmFault::Memory
    }
}

impl<T: Drop> From<AllocFailed<T>> for AsmFault {
    ghost from_gives = { λ _ e. e ≡ Memory };

    fn from(_e: AllocFailed<T>) -> AsmFault {
        AsmFault::Memory
    }
}
