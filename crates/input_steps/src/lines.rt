//! The line that says why an input is refused.
ghost use Rattle.std.specs.Prelude.{◌≡◌, IfOk, string_bytes};
ghost use Rattle.input_steps.specs.Lines.{fault_text, place_text, refusal_line, untyped_text};

use crate::refused::{Fault, Place};
use class_world::MethodName;
use list_views::Seq;
use list_views::fault_words::joined;
use std::alloc::{AllocError, Global};

/// A method without a typing, in words.
fn untyped_text(alloc: Global, method: &MethodName) -> Result<Seq<u8>, AllocError>
    ensures { IfOk result (λ text. text ≡ untyped_text method.now) }
{
    joined(
        alloc,
        &[
            b"NoTyping method=",
            method.class.as_slice(),
            b".",
            method.name.as_slice(),
            method.desc.as_slice(),
        ],
    )
}

impl Fault {
    /// The fault in words: its name and its fields, as the crate that finds it puts them.
    ///
    /// # Errors
    ///
    /// Want of memory.
    pub fn text(&self, alloc: Global) -> Result<Seq<u8>, AllocError>
        ensures { IfOk result (λ text. text ≡ fault_text self.now) }
    {
        match self {
            Fault::Class(fault) => fault.text(alloc),
            Fault::Listing(fault) => fault.text(alloc),
            Fault::Its(fault) => fault.text(alloc),
            Fault::Desc(fault) => fault.text(alloc),
            Fault::Link(fault) => fault.text(alloc),
            Fault::Call(fault) => fault.text(alloc),
            Fault::Untyped(method) => untyped_text(alloc, method),
        }
    }
}

fn place_text(alloc: Global, place: Place) -> Result<String, AllocError>
    ensures { IfOk result (λ text. string_bytes text ≡ place_text place) }
{
    match place {
        Place::Class(number) => format!(in alloc; "class {number}"),
        Place::Listing => String::from_str(alloc, "listing"),
        Place::Its => String::from_str(alloc, "its"),
        Place::Description => String::from_str(alloc, "description"),
        Place::State => String::from_str(alloc, "state"),
        Place::Link => String::from_str(alloc, "link"),
        Place::Recursion => String::from_str(alloc, "recursion"),
        Place::Verify => String::from_str(alloc, "verify"),
    }
}

/// The line that says that the input has this fault at this place, with its newline.
///
/// # Errors
///
/// Want of memory.
pub fn refusal_text(alloc: Global, place: Place, fault: &Fault) -> Result<Seq<u8>, AllocError>
    ensures { IfOk result (λ line. line ≡ refusal_line place fault.now) }
{
    let place = place_text(alloc, place)?;
    let fault = fault.text(alloc)?;
    joined(
        alloc,
        &[b"jterm: ", place.as_bytes(), b": ", fault.as_slice(), b"\n"],
    )
}
