//! Why a text says no system of rules.
ghost use Rattle.std.specs.Prelude.{◌≡◌, IfOk};
ghost use Rattle.its_front.specs.Faults.{fault_name, fault_fields, fault_text};
ghost use Rattle.its_front.specs.declared.fault.ItsFault.TheVariants.{Memory};

use list_views::Seq;
use list_views::fault_words::{joined, number_field};
use std::alloc::{AllocError, AllocFailed, Global};

/// The first broken rule of a text. Lines are counted from 1. Of several faults on one line the one that stands first here is
/// named.
#[derive(Clone, Copy, PartialEq, Eq)]
pub enum ItsFault {
    /// A line that is none where it stands, a word that is none where it stands, or a byte above 127. The last line, where a rule
    /// isn't ended or no line names the variables; line 1, where there is no line.
    Syntax { line: usize },
    /// A name in a row that no variable has.
    UnknownVariable { line: usize },
    /// A variable that is named twice, or that stands in a row twice.
    DuplicateVariable { line: usize },
    /// A coefficient above 2^31 in size, or a constant above 2^40.
    OutOfRange { line: usize },
    /// One variable, rule or row too many.
    Limit { line: usize },
    /// Want of memory.
    Memory,
}

impl ItsFault {
    /// The fault's name.
    pub fn name(&self) -> &'static [u8]
        ensures { result.now ≡ fault_name self.now }
    {
        match self {
            ItsFault::Syntax { .. } => b"Syntax",
            ItsFault::UnknownVariable { .. } => b"UnknownVariable",
            ItsFault::DuplicateVariable { .. } => b"DuplicateVariable",
            ItsFault::OutOfRange { .. } => b"OutOfRange",
            ItsFault::Limit { .. } => b"Limit",
            ItsFault::Memory => b"Memory",
        }
    }

    /// The fault's line, as ` line=N`; of want of memory nothing.
    ///
    /// # Errors
    ///
    /// Want of memory.
    pub fn fields(&self, alloc: Global) -> Result<Seq<u8>, AllocError>
        ensures { IfOk result (λ text. text ≡ fault_fields self.now) }
    {
        match self {
            ItsFault::Syntax { line } => number_field(alloc, b"line", *line),
            ItsFault::UnknownVariable { line } => number_field(alloc, b"line", *line),
            ItsFault::DuplicateVariable { line } => number_field(alloc, b"line", *line),
            ItsFault::OutOfRange { line } => number_field(alloc, b"line", *line),
            ItsFault::Limit { line } => number_field(alloc, b"line", *line),
            ItsFault::Memory => Ok(Seq::new(alloc)),
        }
    }

    /// The fault in words: its name and its line.
    ///
    /// # Errors
    ///
    /// Want of memory.
    pub fn text(&self, alloc: Global) -> Result<Seq<u8>, AllocError>
        ensures { IfOk result (λ text. text ≡ fault_text self.now) }
    {
        let fields = self.fields(alloc)?;
        joined(alloc, &[self.name(), fields.as_slice()])
    }
}

impl From<AllocError> for ItsFault {
    ghost from_gives = { λ _ e. e ≡ Memory };

    fn from(_e: AllocError) -> ItsFault {
        ItsFault::Memory
    }
}

impl<T: Drop> From<AllocFailed<T>> for ItsFault {
    ghost from_gives = { λ _ e. e ≡ Memory };

    fn from(_e: AllocFailed<T>) -> ItsFault {
        ItsFault::Memory
    }
}
