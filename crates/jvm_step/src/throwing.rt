//! Throwing mode: the first entry of the running method's exception table that takes the thrown object, else the frame goes.
ghost use Rattle.std.specs.Prelude.{◌≡◌, ◌<◌, List, All, length, MatchResult, IsOk, OnErr, unwrap_or};
ghost use Rattle.std.specs.List.{find};
ghost use Rattle.std.specs.Option.{option_map};
ghost use Rattle.jvm_step.specs.Operands.{object_at as thrown_at};
ghost use Rattle.jvm_values.specs.States.{state_of};
ghost use Rattle.class_program.specs.class_world.Worlds.{classes_of};
ghost use Rattle.class_program.specs.declared.program.Method.{Method as MethodSeen};
ghost use Rattle.class_program.specs.Views.{program_of};
ghost use Rattle.class_program.specs.class_world.Types.{is_sub};
ghost use Rattle.jvm_values.specs.Subtyping.{class_type};
ghost use Rattle.jvm_values.specs.TypedHeaps.{type_of};
ghost use Rattle.jvm_step.specs.Running.{Step, takes, throwing_step};
ghost use Rattle.jvm_step.specs.Memory.{TakesNone, TopLacks, CatchLacks};
ghost use Rattle.jvm_step.specs.Steps.{Does, HasRoom, handler_in, handled_in, handled_at, unwound_in};

use crate::outcome::Outcome;
use crate::reads::object_at;
use crate::tops::{drop_top, empty_top, handle_in_top};
use class_program::class_world::World;
use class_program::{CatchRange, Method, Program};
use jvm_values::{Base, Heap, Mode, Object, State, Ty, is_object_below};
use std::alloc::AllocError;

/// Whether an object is of a class or of one below it.
fn is_of_class(world: &World<'_>, object: &Object, class: u32) -> bool
    ensures { result ≡ is_sub (classes_of world.now) (type_of object.now) (class_type class) }
{
    let caught = Ty {
        dims: 0,
        base: Base::Class(class),
    };
    is_object_below(world, object, caught)
}

/// Whether an entry of an exception table takes an object that is thrown at a place.
fn takes(world: &World<'_>, object: &Object, pc: u16, range: &CatchRange) -> bool
    ensures { result ≡ takes (classes_of world.now) object.now pc range.now }
{
    if range.start <= pc && pc < range.end {
        match range.catch {
            Some(class) => is_of_class(world, object, class),
            None => true,
        }
    } else {
        false
    }
}

/// The first entry that takes the object.
fn handler(world: &World<'_>, object: &Object, pc: u16, table: &[CatchRange]) -> Option<CatchRange>
    ensures { result ≡ find (takes (classes_of world.now) object.now pc) table.now }
{
    for range in table {
        if takes(world, object, pc, range) {
            return Some(*range);
        }
    }
    None
}

/// A handler of the running frame begins.
fn catch_at(state: &mut State, place: u16, r: u32) -> Result<(), AllocError>
    requires { 0 < length state.old.frames.0 }
    ensures state { MatchResult result (λ _. state_of state.new ≡ handled_at place r (state_of state.old))
        (λ _. state_of state.new ≡ state_of state.old) }
    ensures room { (methods : List MethodSeen) → All (HasRoom methods) state.old.frames.0 → All (HasRoom methods) state.new.frames.0 }
    ensures memory { OnErr result (TopLacks state.old.frames.0) }
{
    handle_in_top(&mut state.frames, place, r)?;
    state.mode = Mode::Normal;
    Ok(())
}

/// The running frame goes, and its caller looks for a handler.
fn unwind(state: &mut State)
    requires { 1 < length state.old.frames.0 }
    ensures state { state_of state.new ≡ unwound_in (state_of state.old) }
    ensures room { (methods : List MethodSeen) → All (HasRoom methods) state.old.frames.0 → All (HasRoom methods) state.new.frames.0 }
{
    drop_top(&mut state.frames);
    empty_top(&mut state.frames);
}

/// What is done with the entry that was found, or with none.
fn handle(state: &mut State, r: u32, found: Option<CatchRange>) -> Result<Outcome, AllocError>
    requires { 0 < length state.old.frames.0 }
    ensures state { Does (handled_in (state_of state.old) r found (state_of state.old).frames) result (state_of state.old)
        (state_of state.new) }
    ensures room { (methods : List MethodSeen) → All (HasRoom methods) state.old.frames.0 → All (HasRoom methods) state.new.frames.0 }
    ensures memory { OnErr result (CatchLacks found state.old.frames.0) }
{
    match found {
        Some(range) => {
            catch_at(state, range.handler, r)?;
            Ok(Outcome::Going)
        }
        None => {
            if state.frames.len() < 2 {
                Ok(Outcome::Threw(r))
            } else {
                unwind(state);
                Ok(Outcome::Going)
            }
        }
    }
}

/// The entry of a method's table that takes the object of a number, thrown at a place; None where there is no such object.
fn handler_of(
    world: &World<'_>,
    heap: &Heap,
    method: &Method<'_>,
    pc: u16,
    r: u32,
) -> Option<Option<CatchRange>>
    ensures { result ≡ option_map (λ object. find (takes (classes_of world.now) object pc) method.now.table) (thrown_at heap.now r) }
{
    match object_at(heap, r) {
        Some(object) => Some(handler(world, object, pc, method.table.as_slice())),
        None => None,
    }
}

/// The entry of the running method's table that takes a thrown object.
fn handler_in(program: &Program<'_>, state: &State, r: u32) -> Option<Option<CatchRange>>
    requires { 0 < length state.now.frames.0 }
    ensures { result ≡ handler_in (program_of program.now) (state_of state.now) r (state_of state.now).frames }
{
    let frame = state.frames.at(0);
    match program.methods.get(frame.method as usize) {
        Some(method) => handler_of(&program.world, &state.heap, method, frame.pc, r),
        None => None,
    }
}

/// A step in throwing mode.
pub(crate) fn throwing_step(
    program: &Program<'_>,
    state: &mut State,
    r: u32,
) -> Result<Outcome, AllocError>
    ensures state { Does (unwrap_or (throwing_step (program_of program.now) (state_of state.old) r (state_of state.old).frames)
        Step.Stuck) result (state_of state.old) (state_of state.new) }
    ensures room { All (HasRoom (program_of program.now).methods) state.old.frames.0
        → All (HasRoom (program_of program.now).methods) state.new.frames.0 }
    ensures memory { TakesNone (program_of program.now).methods state.old.frames.0 (state_of state.old)
        (unwrap_or (throwing_step (program_of program.now) (state_of state.old) r (state_of state.old).frames) Step.Stuck)
        → IsOk result }
{
    if state.frames.is_empty() {
        return Ok(Outcome::Going);
    }
    match handler_in(program, state, r) {
        Some(found) => handle(state, r, found),
        None => Ok(Outcome::Going),
    }
}
