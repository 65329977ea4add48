//! The program of an entry, its calls and its types.
ghost use Rattle.std.specs.Prelude.{IfOk, IfErr, IsTrue};
ghost use Rattle.class_world.specs.Resolve.{has_body};
ghost use Rattle.class_world.specs.Worlds.{classes_of};
ghost use Rattle.class_program.specs.Views.{program_of};
ghost use Rattle.code_verify.specs.Typings.{IsTypingOf, typing_at};
ghost use Rattle.input_steps.specs.Steps.{IsCaused};
ghost use Rattle.input_steps.specs.Programs.{IsProgramOf, RefusesProgram, IsAcyclic, RefusesCalls, RefusesTypes};

use crate::refused::{Fault, Place, Refused};
use call_graph::{CallFault, acyclic, method_name};
use class_program::Program;
use class_world::{LinkFault, MethodRef, World};
use code_verify::{Typing, VerifyFault, verify};
use std::alloc::Global;

/// The program of an entry that has a body.
///
/// # Errors
///
/// At `Link` the first rule that it breaks; want of memory.
#[tactic(auto, using(crate::proofs::Causes::at_program))]
pub fn close<'a>(alloc: Global, world: World<'a>, entry: MethodRef) -> Result<Program<'a>, Refused>
    requires { IsTrue (has_body (classes_of world) entry) }
    ensures program { IfOk result (λ program. IsProgramOf (classes_of world.entry) entry (program_of program)) }
    ensures refused { IfErr result (IsCaused (RefusesProgram (classes_of world.entry) entry)) }
{
    match Program::close(alloc, world, entry) {
        Ok(program) => {
            program.is_good();
            Ok(program)
        }
        Err(LinkFault::Memory) => Err(Refused::Memory),
        Err(fault) => Err(Refused::At {
            place: Place::Link,
            fault: Fault::Link(fault),
        }),
    }
}

/// Tests that no method of a program can call itself, over one or more calls.
///
/// # Errors
///
/// At `Recursion` the least method on a cycle of calls; want of memory.
#[tactic(auto, using(crate::proofs::Causes::at_calls))]
pub fn test_calls(alloc: Global, program: &Program<'_>) -> Result<(), Refused>
    ensures acyclic { IfOk result (λ _. IsAcyclic (program_of program.now)) }
    ensures refused { IfErr result (IsCaused (RefusesCalls (program_of program.now))) }
{
    match acyclic(alloc, program) {
        Ok(()) => Ok(()),
        Err(CallFault::Memory) => Err(Refused::Memory),
        Err(CallFault::Recursive { method }) => Err(Refused::At {
            place: Place::Recursion,
            fault: Fault::Call(CallFault::Recursive { method }),
        }),
    }
}

/// The least typing of each method of a program.
///
/// # Errors
///
/// At `Verify` the first method that has none; want of memory.
#[tactic(auto, using(crate::proofs::Causes::at_types, crate::proofs::Causes::untyped_within))]
pub fn typings(alloc: Global, program: &Program<'_>) -> Result<Typing, Refused>
    ensures typing { IfOk result (λ typing. IsTypingOf (program_of program.now) (typing_at typing)) }
    ensures refused { IfErr result (IsCaused (RefusesTypes (program_of program.now))) }
{
    match verify(alloc, program) {
        Ok(typing) => Ok(typing),
        Err(VerifyFault::Memory) => Err(Refused::Memory),
        Err(VerifyFault::NoTyping { method }) => {
            let name = method_name(alloc, program, method)?;
            Err(Refused::At {
                place: Place::Verify,
                fault: Fault::Untyped(name),
            })
        }
    }
}
