//! Why a code is none.
ghost use Rattle.std.specs.Prelude.{◌≡◌, IfOk};
ghost use Rattle.code_forms.specs.declared.fault.CodeFault.TheVariants.{Memory};
ghost use Rattle.code_forms.specs.Faults.{fault_name, pc_field, op_fields, fault_fields, fault_text};

use class_base::list_views::Seq;
use class_base::list_views::fault_words::{joined, number_field};
use std::alloc::{AllocError, AllocFailed, Global};

/// What is wrong with a code or with an exception table. `pc` is the place of an instruction, counted in bytes from the
/// start of the code.
#[derive(Clone, Copy, PartialEq, Eq)]
pub enum CodeFault {
    /// The code ends inside the instruction.
    Truncated { pc: u16 },
    /// The opcode is one of the JVM's, and not of those that are read.
    UnsupportedOpcode { pc: u16, op: u8 },
    /// The JVM has no such opcode.
    UnknownOpcode { pc: u16, op: u8 },
    /// A table whose lowest key is above its highest, a negative count of cases, or keys that don't rise.
    BadSwitch { pc: u16 },
    /// A jump to a place where no instruction begins. In a table: a boundary where none begins.
    BadTarget { pc: u16 },
    /// A bad element type, a bad last byte of `invokeinterface`, or a `wide` before an instruction that can't take it.
    BadOperand { pc: u16 },
    /// Want of memory.
    Memory,
}

fn pc_field(alloc: Global, pc: u16) -> Result<Seq<u8>, AllocError>
    ensures { IfOk result (λ text. text ≡ pc_field pc) }
{
    number_field(alloc, b"pc", usize::from(pc))
}

fn op_fields(alloc: Global, pc: u16, op: u8) -> Result<Seq<u8>, AllocError>
    ensures { IfOk result (λ text. text ≡ op_fields pc op) }
{
    let place = pc_field(alloc, pc)?;
    let opcode = number_field(alloc, b"op", usize::from(op))?;
    joined(alloc, &[place.as_slice(), opcode.as_slice()])
}

impl CodeFault {
    /// The fault's name.
    pub fn name(&self) -> &'static [u8]
        ensures { result.now ≡ fault_name self.now }
    {
        match self {
            CodeFault::Truncated { .. } => b"Truncated",
            CodeFault::UnsupportedOpcode { .. } => b"UnsupportedOpcode",
            CodeFault::UnknownOpcode { .. } => b"UnknownOpcode",
            CodeFault::BadSwitch { .. } => b"BadSwitch",
            CodeFault::BadTarget { .. } => b"BadTarget",
            CodeFault::BadOperand { .. } => b"BadOperand",
            CodeFault::Memory => b"Memory",
        }
    }

    /// The fault's fields, each as ` name=value`.
    ///
    /// # Errors
    ///
    /// Want of memory.
    pub fn fields(&self, alloc: Global) -> Result<Seq<u8>, AllocError>
        ensures { IfOk result (λ text. text ≡ fault_fields self.now) }
    {
        match self {
            CodeFault::Truncated { pc } => pc_field(alloc, *pc),
            CodeFault::UnsupportedOpcode { pc, op } => op_fields(alloc, *pc, *op),
            CodeFault::UnknownOpcode { pc, op } => op_fields(alloc, *pc, *op),
            CodeFault::BadSwitch { pc } => pc_field(alloc, *pc),
            CodeFault::BadTarget { pc } => pc_field(alloc, *pc),
            CodeFault::BadOperand { pc } => pc_field(alloc, *pc),
            CodeFault::Memory => Ok(Seq::new(alloc)),
        }
    }

    /// The fault in words: its name and its fields.
    ///
    /// # Errors
    ///
    /// Want of memory.
    pub fn text(&self, alloc: Global) -> Result<Seq<u8>, AllocError>
        ensures { IfOk result (λ text. text ≡ fault_text self.now) }
    {
        let fields = self.fields(alloc)?;
        joined(alloc, &[self.name(), fields.as_slice()])
    }
}

impl From<AllocError> for CodeFault {
    ghost from_gives = { λ _ e. e ≡ Memory };

    fn from(_e: AllocError) -> CodeFault {
        CodeFault::Memory
    }
}

impl<T: Drop> From<AllocFailed<T>> for CodeFault {
    ghost from_gives = { λ _ e. e ≡ Memory };

    fn from(_e: AllocFailed<T>) -> CodeFault {
        CodeFault::Memory
    }
}
