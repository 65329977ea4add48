//! What a state says: its text, its method, and what it gives to the method's program.
ghost use Rattle.std.specs.Prelude.{◌≡◌, Ok, IfOk, IfErr, IsTrue};
ghost use Rattle.class_world.specs.Resolve.{has_body};
ghost use Rattle.class_world.specs.Worlds.{classes_of};
ghost use Rattle.class_program.specs.Views.{program_of};
ghost use Rattle.input_desc.specs.Entries.{entry_of};
ghost use Rattle.input_desc.specs.States.{IsTypedInput};
ghost use Rattle.input_steps.specs.Steps.{IsCaused};
ghost use Rattle.class_calls.specs.run_call.Answers.{IsStateText, RefusesState, RefusesEntry, IsInput, RefusesInput};

use class_program::Program;
use class_world::{MethodRef, World};
use input_desc::{StateInput, state_entry, state_of};
use input_steps::{Place, Refused, refuse_desc};
use input_text::StateText;
use std::alloc::Global;

/// The text that the bytes of a state say.
///
/// # Errors
///
/// At `State` the first fault of the bytes; want of memory.
pub fn read_state(alloc: Global, bytes: &[u8]) -> Result<StateText, Refused>
    ensures text { IfOk result (IsStateText bytes.now) }
    ensures refused { IfErr result (IsCaused (RefusesState bytes.now)) }
{
    match StateText::read(alloc, bytes) {
        Ok(text) => Ok(text),
        Err(fault) => Err(refuse_desc(Place::State, fault)),
    }
}

/// The method that a state names.
pub(crate) fn entry_of(world: &World<'_>, text: &StateText) -> Result<MethodRef, Refused>
    ensures entry { IfOk result (λ entry. entry_of (classes_of world.now) text.now.entry ≡ Ok entry) }
    ensures body { IfOk result (λ entry. IsTrue (has_body (classes_of world.now) entry)) }
    ensures refused { IfErr result (IsCaused (RefusesEntry (classes_of world.now) text.now)) }
{
    match state_entry(text, world) {
        Ok(entry) => Ok(entry),
        Err(fault) => Err(refuse_desc(Place::State, fault)),
    }
}

/// What a state gives to a program.
///
/// # Errors
///
/// At `State` the first fault of what it gives; want of memory.
pub fn input_of(
    alloc: Global,
    program: &Program<'_>,
    text: StateText,
) -> Result<StateInput, Refused>
    ensures input { IfOk result (IsInput (program_of program.now) text) }
    ensures typed { IfOk result (IsTypedInput (program_of program.now)) }
    ensures refused { IfErr result (IsCaused (RefusesInput (program_of program.now) text)) }
{
    match state_of(alloc, text, program) {
        Ok(input) => Ok(input),
        Err(fault) => Err(refuse_desc(Place::State, fault)),
    }
}
