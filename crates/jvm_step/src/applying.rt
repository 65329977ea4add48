//! What is left to do after an instruction, done to the state.
ghost use Rattle.std.specs.Prelude.{◌≡◌, ◌<◌, ◌∷◌, ℕ, List, All, OnErr, IsOk, Option, Some, length, MatchResult, IfOk, reverse};
ghost use Rattle.std.specs.Prelude.{slice_get, take, option_and_then};
ghost use Rattle.jvm_values.specs.States.{MachineFrame, state_of};
ghost use Rattle.class_program.specs.class_world.Worlds.{classes_of};
ghost use Rattle.class_program.specs.Views.{program_of};
ghost use Rattle.class_program.specs.declared.program.Method.{Method as MethodSeen};
ghost use Rattle.class_program.specs.Programs.{insn_at};
ghost use Rattle.jvm_step.specs.declared.after.After.TheVariants as afters;
ghost use Rattle.jvm_step.specs.Effects.{types_of, new_instance};
ghost use Rattle.jvm_step.specs.Running.{new_frame};
ghost use Rattle.jvm_step.specs.Memory.{TakesNone, CallerLacks};
ghost use Rattle.jvm_step.specs.Steps.{Does, HasRoom, MayFail, applied_in, going_at, thrown_in, raised_in, called_in, returned_in};

use crate::after::After;
use crate::entries::called_frame;
use crate::objects::next_number;
use crate::outcome::Outcome;
use crate::tops::{drop_top, empty_top, give_to_caller, set_top_place, take_from_caller};
use class_program::class_world::World;
use class_program::{Method, Program};
use jvm_values::{Frame, Mode, Object, State, Types, Value, initial_values};
use list_views::Seq;
use std::alloc::{AllocError, Global};

/// The next instruction of the running frame is that at a place.
fn go_on(state: &mut State, place: u16)
    requires { 0 < length state.old.frames.0 }
    ensures state { state_of state.new ≡ going_at place (state_of state.old) }
    ensures room { (methods : List MethodSeen) → All (HasRoom methods) state.old.frames.0 → All (HasRoom methods) state.new.frames.0 }
{
    set_top_place(&mut state.frames, place);
    state.mode = Mode::Normal;
}

/// An object is thrown.
fn throw(state: &mut State, r: u32)
    requires { 0 < length state.old.frames.0 }
    ensures state { state_of state.new ≡ thrown_in r (state_of state.old) }
    ensures room { (methods : List MethodSeen) → All (HasRoom methods) state.old.frames.0 → All (HasRoom methods) state.new.frames.0 }
{
    empty_top(&mut state.frames);
    state.mode = Mode::Throwing(r);
}

/// A new object of a class; one of a class that isn't there has no fields.
#[tactic(auto, using(crate::proofs::Fields::none_past))]
fn new_object_of(alloc: Global, world: &World<'_>, class: u32) -> Result<Object, AllocError>
    ensures { IfOk result (λ object. object ≡ new_instance (types_of (classes_of world.now)) class) }
{
    let fields = if class < world.classes() {
        initial_values(alloc, world.fields(class))?
    } else {
        Seq::new(alloc)
    };
    Ok(Object::Instance { class, fields })
}

/// A new object is thrown.
fn raise_object(state: &mut State, object: Object) -> Result<(), AllocError>
    requires { 0 < length state.old.frames.0 }
    ensures state { MatchResult result (λ _. state_of state.new ≡ raised_in object (state_of state.old))
        (λ _. state_of state.new ≡ state_of state.old) }
    ensures room { (methods : List MethodSeen) → All (HasRoom methods) state.old.frames.0 → All (HasRoom methods) state.new.frames.0 }
{
    let number = next_number(&state.heap)?;
    state.heap.objects.push(object)?;
    throw(state, number);
    Ok(())
}

/// A new object of a class is thrown.
fn raise(alloc: Global, world: &World<'_>, state: &mut State, class: u32) -> Result<(), AllocError>
    requires { 0 < length state.old.frames.0 }
    ensures state { MatchResult result (λ _. state_of state.new ≡ raised_in (new_instance (types_of (classes_of world.now)) class)
        (state_of state.old)) (λ _. state_of state.new ≡ state_of state.old) }
    ensures room { (methods : List MethodSeen) → All (HasRoom methods) state.old.frames.0 → All (HasRoom methods) state.new.frames.0 }
{
    let object = new_object_of(alloc, world, class)?;
    raise_object(state, object)
}

/// A method is called with so many values from the running frame's stack.
#[tactic(auto, using(crate::proofs::Rooms::rooms_more))]
fn invoke(
    alloc: Global,
    state: &mut State,
    method: &Method<'_>,
    number: u32,
    count: usize,
) -> Result<(), AllocError>
    requires { 0 < length state.old.frames.0 }
    ensures state { (frame : MachineFrame) (below : List MachineFrame) → (state_of state.old).frames ≡ frame ∷ below
        → MatchResult result (λ _. state_of state.new ≡ called_in (new_frame number method.now (reverse (take count frame.stack)))
        count (state_of state.old)) (λ _. state_of state.new ≡ state_of state.old) }
    ensures room { (methods : List MethodSeen) → slice_get methods number ≡ Some method.now
        → All (HasRoom methods) state.old.frames.0 → All (HasRoom methods) state.new.frames.0 }
{
    let frame = called_frame(alloc, number, method, &state.frames.at(0).stack, count)?;
    state.frames.push(frame)?;
    take_from_caller(&mut state.frames, count);
    state.mode = Mode::Normal;
    Ok(())
}

/// The running frame goes, and its caller goes on at a place with the result.
fn give_back(state: &mut State, place: u16, value: Option<Value>) -> Result<(), AllocError>
    requires { 1 < length state.old.frames.0 }
    ensures state { MatchResult result (λ _. state_of state.new ≡ returned_in place value (state_of state.old))
        (λ _. state_of state.new ≡ state_of state.old) }
    ensures room { (methods : List MethodSeen) → All (HasRoom methods) state.old.frames.0 → All (HasRoom methods) state.new.frames.0 }
    ensures memory { OnErr result (CallerLacks value state.old.frames.0) }
{
    give_to_caller(&mut state.frames, place, value)?;
    drop_top(&mut state.frames);
    state.mode = Mode::Normal;
    Ok(())
}

/// A method is called, where there is one of that number.
fn call(
    alloc: Global,
    program: &Program<'_>,
    state: &mut State,
    number: u32,
    count: usize,
) -> Result<Outcome, AllocError>
    requires { 0 < length state.old.frames.0 }
    ensures state { (next : Option ℕ)
        → Does (applied_in (program_of program.now) next (afters.Invoke number count) (state_of state.old)
        (state_of state.old).frames) result (state_of state.old) (state_of state.new) }
    ensures room { All (HasRoom (program_of program.now).methods) state.old.frames.0
        → All (HasRoom (program_of program.now).methods) state.new.frames.0 }
    ensures memory { (next : Option ℕ) → TakesNone (program_of program.now).methods state.old.frames.0 (state_of state.old)
        (applied_in (program_of program.now) next (afters.Invoke number count) (state_of state.old) (state_of state.old).frames)
        → IsOk result }
{
    match program.methods.get(number as usize) {
        Some(method) => {
            invoke(alloc, state, method, number, count)?;
            Ok(Outcome::Going)
        }
        None => Ok(Outcome::Going),
    }
}

/// The place of the instruction behind the one at a frame's place.
fn place_behind(program: &Program<'_>, frame: &Frame) -> Option<u16>
    ensures { result ≡ option_and_then (λ x. x.1) (insn_at (program_of program.now).methods frame.now.method frame.now.pc) }
{
    match program.at(frame.method, frame.pc) {
        Some((_, place)) => place,
        None => None,
    }
}

/// A call of the running frame returns to its caller.
fn return_to_caller(
    program: &Program<'_>,
    state: &mut State,
    value: Option<Value>,
) -> Result<Outcome, AllocError>
    requires { 1 < length state.old.frames.0 }
    ensures state { (next : Option ℕ)
        → Does (applied_in (program_of program.now) next (afters.Return value) (state_of state.old) (state_of state.old).frames)
        result (state_of state.old) (state_of state.new) }
    ensures room { All (HasRoom (program_of program.now).methods) state.old.frames.0
        → All (HasRoom (program_of program.now).methods) state.new.frames.0 }
    ensures memory { (next : Option ℕ) → TakesNone (program_of program.now).methods state.old.frames.0 (state_of state.old)
        (applied_in (program_of program.now) next (afters.Return value) (state_of state.old) (state_of state.old).frames) → IsOk result }
{
    match place_behind(program, state.frames.at(1)) {
        Some(place) => {
            give_back(state, place, value)?;
            Ok(Outcome::Going)
        }
        None => Ok(Outcome::Going),
    }
}

/// The running frame returns.
fn return_from(
    program: &Program<'_>,
    state: &mut State,
    value: Option<Value>,
) -> Result<Outcome, AllocError>
    ensures state { (next : Option ℕ)
        → Does (applied_in (program_of program.now) next (afters.Return value) (state_of state.old) (state_of state.old).frames)
        result (state_of state.old) (state_of state.new) }
    ensures room { All (HasRoom (program_of program.now).methods) state.old.frames.0
        → All (HasRoom (program_of program.now).methods) state.new.frames.0 }
    ensures memory { (next : Option ℕ) → TakesNone (program_of program.now).methods state.old.frames.0 (state_of state.old)
        (applied_in (program_of program.now) next (afters.Return value) (state_of state.old) (state_of state.old).frames) → IsOk result }
{
    if state.frames.len() < 2 {
        Ok(Outcome::Returned(value))
    } else {
        return_to_caller(program, state, value)
    }
}

/// Does what is left to do after an instruction.
pub(crate) fn apply(
    alloc: Global,
    program: &Program<'_>,
    state: &mut State,
    next: Option<u16>,
    after: After,
) -> Result<Outcome, AllocError>
    ensures state { Does (applied_in (program_of program.now) next after (state_of state.old) (state_of state.old).frames) result
        (state_of state.old) (state_of state.new) }
    ensures room { All (HasRoom (program_of program.now).methods) state.old.frames.0
        → All (HasRoom (program_of program.now).methods) state.new.frames.0 }
    ensures fails { OnErr result (MayFail after) }
    ensures memory { TakesNone (program_of program.now).methods state.old.frames.0 (state_of state.old)
        (applied_in (program_of program.now) next after (state_of state.old) (state_of state.old).frames) → IsOk result }
{
    if state.frames.is_empty() {
        return Ok(Outcome::Going);
    }
    match after {
        After::Next => {
            if let Some(place) = next {
                go_on(state, place);
            }
            Ok(Outcome::Going)
        }
        After::Jump(place) => {
            go_on(state, place);
            Ok(Outcome::Going)
        }
        After::Raise(class) => {
            raise(alloc, &program.world, state, class)?;
            Ok(Outcome::Going)
        }
        After::Throw(r) => {
            throw(state, r);
            Ok(Outcome::Going)
        }
        After::Invoke(number, count) => call(alloc, program, state, number, count),
        After::Return(value) => return_from(program, state, value),
    }
}
