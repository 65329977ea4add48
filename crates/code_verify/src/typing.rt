//! The least typings of a program's methods.
ghost use Rattle.std.specs.Prelude.{◌≡◌, IfOk, IfErr};
ghost use Rattle.std.specs.Option.{option_map};
ghost use Rattle.jvm_values.specs.States.{types_of as seen};
ghost use Rattle.class_program.specs.Views.{program_of};
ghost use Rattle.code_verify.specs.Answers.{Names};
ghost use Rattle.code_verify.specs.Typings.{IsTypingOf, IsRefusal, typing_at};

use crate::fault::VerifyFault;
use crate::method::type_method;
use class_program::Program;
use jvm_values::FrameType;
use list_views::Seq;
use std::alloc::{AllocError, Global};
use std::marker::Model;

/// The least typing of each reached method of a program. It is seen as the list of these, by number, each a list by place.
#[derive(Drop)]
pub struct Typing {
    methods: Seq<Seq<Option<FrameType>>>,
}

impl Model for Typing {
    ghost use Rattle.std.specs.Prelude.{List, Option, map};
    ghost use Rattle.std.specs.Option.{option_map};
    ghost use Rattle.jvm_values.specs.States.{PlaceTypes, types_of};

    ghost Value = { List (List (Option PlaceTypes)) };

    ghost view = { λ s. map (map (option_map types_of)) s.methods };
}

impl Typing {
    /// The types at a place of the method of a number; None exactly where no such place can be reached. It is found in
    /// constant time, and takes no memory.
    pub fn at(&self, method: u32, pc: u16) -> Option<&FrameType>
        ensures { option_map (λ frame. seen frame.now) result ≡ typing_at self.now method pc }
    {
        let types = self.methods.get(method as usize)?;
        match types.get(usize::from(pc)) {
            Some(Some(frame)) => Some(frame),
            _ => None,
        }
    }
}

/// The fault of the method of a number.
fn no_typing(number: usize) -> VerifyFault
    ensures { Names number result }
{
    match u32::try_from(number) {
        Ok(method) => VerifyFault::NoTyping { method },
        Err(_) => VerifyFault::Memory,
    }
}

/// The least typing of each method that a program reaches (JVM specification, section 4.10.2).
///
/// A place of a method is looked at again only when its types have grown. For each place that can be reached the types of
/// its frame are kept, and for every other place of the code up to the last reached one an empty entry.
///
/// # Errors
///
/// The first method that has no typing, or want of memory.
pub fn verify(alloc: Global, program: &Program<'_>) -> Result<Typing, VerifyFault>
    ensures typing { IfOk result (λ typing. IsTypingOf (program_of program.now) (typing_at typing)) }
    ensures fault { IfErr result (IsRefusal (program_of program.now)) }
{
    program.is_good();
    let mut methods = Seq::new(alloc);
    for method in program.methods.as_slice() {
        let found = type_method(alloc, program, method)?;
        match found {
            Some(types) => methods.push(types)?,
            None => return Err(no_typing(methods.len())),
        }
    }
    Ok(Typing { methods })
}
