//! What is wrong with the calls of a program.
ghost use Rattle.std.specs.Prelude.{◌≡◌, IfOk};
ghost use Rattle.call_graph.specs.Faults.{fault_name, fault_fields, fault_text};

use class_world::MethodName;
use list_views::Seq;
use list_views::fault_words::joined;
use std::alloc::{AllocError, AllocFailed, Global};

/// What is wrong with the calls of a program.
#[derive(Drop)]
pub enum CallFault {
    /// Methods call each other in a cycle.
    Recursive {
        /// The least method on a cycle.
        method: MethodName,
    },
    /// Want of memory.
    Memory,
}

impl From<AllocError> for CallFault {
    ghost use Rattle.call_graph.specs.declared.fault.CallFault.TheVariants.{Memory};

    ghost from_gives = { λ _ e. e ≡ Memory };

    fn from(_: AllocError) -> CallFault {
        CallFault::Memory
    }
}

impl CallFault {
    /// The fault's name.
    pub fn name(&self) -> &'static [u8]
        ensures { result.now ≡ fault_name self.now }
    {
        match self {
            CallFault::Recursive { .. } => b"Recursive",
            CallFault::Memory => b"Memory",
        }
    }

    /// The fault's fields: the method as `CLASS.NAMEDESC`.
    ///
    /// # Errors
    ///
    /// Want of memory.
    pub fn fields(&self, alloc: Global) -> Result<Seq<u8>, AllocError>
        ensures { IfOk result (λ text. text ≡ fault_fields self.now) }
    {
        match self {
            CallFault::Recursive { method } => joined(
                alloc,
                &[
                    b" method=",
                    method.class.as_slice(),
                    b".",
                    method.name.as_slice(),
                    method.desc.as_slice(),
                    b"",
                ],
            ),
            CallFault::Memory => Ok(Seq::new(alloc)),
        }
    }

    /// The fault in words: its name and its fields.
    ///
    /// # Errors
    ///
    /// Want of memory.
    pub fn text(&self, alloc: Global) -> Result<Seq<u8>, AllocError>
        ensures { IfOk result (λ text. text ≡ fault_text self.now) }
    {
        let fields = self.fields(alloc)?;
        joined(alloc, &[self.name(), fields.as_slice()])
    }
}
