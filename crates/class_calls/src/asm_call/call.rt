//! Listings into class files.
ghost use Rattle.std.specs.Prelude.{◌≡◌};
ghost use Rattle.class_calls.specs.asm_call.Answers.{Answers, listing_refusal};

use class_asm::{AsmFault, assemble};
use input_steps::{Fault, Place, Refused};
use list_views::Seq;
use std::alloc::Global;

/// What is said of a listing that has this fault.
fn listing_refusal(fault: AsmFault) -> Refused
    ensures { result ≡ listing_refusal fault }
{
    match fault {
        AsmFault::Memory => Refused::Memory,
        fault => Refused::At {
            place: Place::Listing,
            fault: Fault::Listing(fault),
        },
    }
}

/// The bytes of the class file that a listing says.
///
/// # Errors
///
/// At `Listing` its first fault; want of memory.
pub fn class_file(alloc: Global, listing: &[u8]) -> Result<Seq<u8>, Refused>
    ensures { Answers listing.now result }
{
    match assemble(alloc, listing) {
        Ok(out) => Ok(out),
        Err(fault) => Err(listing_refusal(fault)),
    }
}
