//! Why an input is refused.
ghost use Rattle.std.specs.Prelude.{◌≡◌};
ghost use Rattle.input_steps.specs.declared.refused.Refused.TheVariants.{Memory};
ghost use Rattle.input_steps.specs.Steps.{desc_refusal};

use asm_lines::AsmFault;
use call_graph::CallFault;
use class_read::ClassFault;
use class_world::{LinkFault, MethodName};
use input_text::DescFault;
use its_front::ItsFault;
use std::alloc::{AllocError, AllocFailed};

/// Why there is no answer.
#[derive(Drop)]
pub enum Refused {
    /// The input has this fault at this place.
    At {
        /// The file or the step that has the fault.
        place: Place,
        /// What is wrong there.
        fault: Fault,
    },
    /// Want of memory.
    Memory,
}

/// The file or the step that has a fault.
#[derive(Clone, Copy, PartialEq, Eq)]
pub enum Place {
    /// The class file of this number, counted from 0 in the order of the words.
    Class(u32),
    /// The listing.
    Listing,
    /// The text of integer transition rules.
    Its,
    /// The description.
    Description,
    /// The state.
    State,
    /// The classes together, and the methods that the entry reaches.
    Link,
    /// The calls of these methods.
    Recursion,
    /// Their types.
    Verify,
}

/// What is wrong with the input.
#[derive(Drop)]
pub enum Fault {
    /// The first rule that a class file breaks.
    Class(ClassFault),
    /// The first rule that a listing breaks.
    Listing(AsmFault),
    /// The first rule that a text of integer transition rules breaks.
    Its(ItsFault),
    /// The first rule that a description or a state breaks.
    Desc(DescFault),
    /// The first rule that the classes break as a world, or the entry's program.
    Link(LinkFault),
    /// Methods call each other in a cycle.
    Call(CallFault),
    /// This is the first reached method that has no typing.
    Untyped(MethodName),
}

impl From<AllocError> for Refused {
    ghost from_gives = { λ _ refused. refused ≡ Memory };

    fn from(_error: AllocError) -> Refused {
        Refused::Memory
    }
}

impl<T: Drop> From<AllocFailed<T>> for Refused {
    ghost from_gives = { λ _ refused. refused ≡ Memory };

    fn from(_failed: AllocFailed<T>) -> Refused {
        Refused::Memory
    }
}

/// What is said of a description or a state that has this fault, at its place.
pub fn refuse_desc(place: Place, fault: DescFault) -> Refused
    ensures { result ≡ desc_refusal place fault }
{
    match fault {
        DescFault::Memory => Refused::Memory,
        fault => Refused::At {
            place,
            fault: Fault::Desc(fault),
        },
    }
}
