//! Whether the positions of a state are as the typing has them.
ghost use Rattle.std.specs.Prelude.{◌≡◌, reverse, is_some};
ghost use Rattle.std.specs.List.{list_all};
ghost use Rattle.std.specs.Option.{option_map};
ghost use Rattle.jvm_values.specs.States.{types_of};
ghost use Rattle.abs_cells.specs.AbstractStates.{AbstractFrame};
ghost use Rattle.abs_cells.specs.Sound.{AreIdsRising};
ghost use Rattle.abs_reach.specs.abs_sound.Zips.{all_zip};
ghost use Rattle.class_program.specs.Views.{program_of};
ghost use Rattle.abs_plans.specs.abs_turns.code_verify.Typings.{typing_at};
ghost use Rattle.abs_expand.specs.BadStates.{call_takes, call_at, below_running};
ghost use Rattle.abs_expand.specs.inner.PlaceTests.{is_of_place, is_entry_of, is_of_field, are_of_fields, has_locals, placed_at};
ghost use Rattle.abs_expand.specs.inner.PlaceTests.{is_stack_at, caller_test, running_test, fields_under, callers_test, placed_test};

use abs_cells::{AbsFrame, AbsState, Cell, Id, Pairs};
use abs_plans::abs_turns::code_verify::Typing;
use abs_reach::abs_sound::{has_int, has_no_int};
use class_program::{Op, Program, StaticField};
use jvm_values::{FrameType, PlaceType, Slot};

/// Whether an entry of a stack is of a place's kind.
fn is_entry_of(cells: &[(Id, Cell)], place: PlaceType, id: Id) -> bool
    requires { AreIdsRising 0 cells.now }
    ensures { result ≡ is_entry_of cells.now place id }
{
    match place {
        PlaceType::Unset => true,
        PlaceType::Int => has_int(cells, id),
        PlaceType::Null | PlaceType::Ref(_) => has_no_int(cells, id),
    }
}

/// Whether a local is of a place's kind.
fn is_of_place(cells: &[(Id, Cell)], place: PlaceType, local: Option<Id>) -> bool
    requires { AreIdsRising 0 cells.now }
    ensures { result ≡ is_of_place cells.now place local }
{
    match local {
        Some(id) => is_entry_of(cells, place, id),
        None => matches!(place, PlaceType::Unset),
    }
}

/// Whether a local is of a static field's kind.
fn is_of_field(cells: &[(Id, Cell)], slot: Slot, local: Option<Id>) -> bool
    requires { AreIdsRising 0 cells.now }
    ensures { result ≡ is_of_field cells.now slot local }
{
    match (local, slot) {
        (None, _) => false,
        (Some(id), Slot::Num(_)) => has_int(cells, id),
        (Some(id), Slot::Ref(_)) => has_no_int(cells, id),
    }
}

/// Whether locals are of the kinds of places, one for each.
fn are_of_places(cells: &[(Id, Cell)], places: &[PlaceType], locals: &[Option<Id>]) -> bool
    requires { AreIdsRising 0 cells.now }
    ensures { result ≡ all_zip (is_of_place cells.now) places.now locals.now }
{
    if places.len() != locals.len() {
        return false;
    }
    for n in 0..places.len() {
        if !is_of_place(cells, places[n], locals[n]) {
            return false;
        }
    }
    true
}

/// Whether locals are of the kinds of static fields, one for each.
fn are_of_fields(cells: &[(Id, Cell)], statics: &[StaticField<'_>], locals: &[Option<Id>]) -> bool
    requires { AreIdsRising 0 cells.now }
    ensures { result ≡ are_of_fields cells.now statics.now locals.now }
{
    if statics.len() != locals.len() {
        return false;
    }
    for n in 0..statics.len() {
        if !is_of_field(cells, statics[n].slot, locals[n]) {
            return false;
        }
    }
    true
}

/// Whether entries of a stack are of the kinds of places, one for each.
fn is_stack_of(cells: &[(Id, Cell)], places: &[PlaceType], stack: &[Id]) -> bool
    requires { AreIdsRising 0 cells.now }
    ensures { result ≡ all_zip (is_entry_of cells.now) places.now stack.now }
{
    if places.len() != stack.len() {
        return false;
    }
    for n in 0..places.len() {
        if !is_entry_of(cells, places[n], stack[n]) {
            return false;
        }
    }
    true
}

/// Whether a frame's locals are as many as its method's and as the static fields under it, and of their kinds.
fn has_locals(
    cells: &[(Id, Cell)],
    max_locals: u16,
    places: &[PlaceType],
    statics: &[StaticField<'_>],
    locals: &[Option<Id>],
) -> bool
    requires { AreIdsRising 0 cells.now }
    ensures { result ≡ has_locals cells.now max_locals places.now statics.now locals.now }
{
    let max = usize::from(max_locals);
    if locals.len() != max + statics.len() {
        return false;
    }
    if !are_of_places(cells, places, &locals[..max]) {
        return false;
    }
    are_of_fields(cells, statics, &locals[max..])
}

/// The types at a frame's place, where the typing has it and the locals are as it says.
fn placed<'t, P: Pairs>(
    program: &Program<'_>,
    typing: &'t Typing,
    state: &AbsState<P>,
    statics: &[StaticField<'_>],
    frame: &AbsFrame,
) -> Option<&'t FrameType>
    requires { AreIdsRising 0 state.now.cells }
    ensures { option_map (λ types. types_of types.now) result ≡ placed_at (program_of program.now) (typing_at typing.now)
        state.now.cells statics.now frame.now }
{
    let Some(method) = program.methods.get(frame.method() as usize) else {
        return None;
    };
    let Some(types) = typing.at(frame.method(), frame.pc()) else {
        return None;
    };
    if !has_locals(
        state.cells(),
        method.max_locals,
        types.locals.as_slice(),
        statics,
        frame.locals(),
    ) {
        return None;
    }
    Some(types)
}

/// How many entries a call takes from the stack; None of another instruction.
fn call_takes(op: &Op) -> Option<usize>
    ensures { result ≡ call_takes op.now }
{
    match op {
        Op::Invokestatic(call) => Some(call.params.as_slice().len()),
        Op::Invokespecial(call) => Some(call.params.as_slice().len() + 1),
        Op::Invokevirtual(call) => Some(call.params.as_slice().len() + 1),
        Op::Invokeinterface(call) => Some(call.params.as_slice().len() + 1),
        _ => None,
    }
}

/// How many entries a call takes from the stack, where a call stands at a frame's place.
fn call_at(program: &Program<'_>, frame: &AbsFrame) -> Option<usize>
    ensures { result ≡ call_at (program_of program.now) frame.now }
{
    match program.at(frame.method(), frame.pc()) {
        Some((op, _next)) => call_takes(op),
        None => None,
    }
}

/// Whether a frame's stack is of the kinds of the types at a place, without so many of the topmost.
fn is_stack_at(cells: &[(Id, Cell)], types: &FrameType, count: usize, frame: &AbsFrame) -> bool
    requires { AreIdsRising 0 cells.now }
    ensures { result ≡ is_stack_at cells.now count (types_of types.now) frame.now.stack }
{
    let places = types.stack.as_slice();
    let stack = frame.stack();
    if places.len() < count {
        return stack.is_empty();
    }
    is_stack_of(cells, &places[..places.len() - count], stack)
}

/// The static fields under a frame with so many frames below it.
fn fields_under<'q, 'p>(program: &'q Program<'p>, below: usize) -> &'q [StaticField<'p>]
    ensures { result.now ≡ fields_under (program_of program.now) below }
{
    let statics = program.statics.as_slice();
    if below == 0 { statics } else { &statics[..0] }
}

/// Whether a caller's frame is as the typing has its place.
fn is_caller_placed<P: Pairs>(
    program: &Program<'_>,
    typing: &Typing,
    state: &AbsState<P>,
    statics: &[StaticField<'_>],
    frame: &AbsFrame,
) -> bool
    requires { AreIdsRising 0 state.now.cells }
    ensures { result ≡ caller_test (program_of program.now) (typing_at typing.now) state.now.cells statics.now frame.now }
{
    let Some(types) = placed(program, typing, state, statics, frame) else {
        return false;
    };
    match call_at(program, frame) {
        None => true,
        Some(count) => is_stack_at(state.cells(), types, count, frame),
    }
}

/// Whether callers' frames, the lowest first, are as the typing has their places.
fn are_callers_placed<P: Pairs>(
    program: &Program<'_>,
    typing: &Typing,
    state: &AbsState<P>,
    frames: &[AbsFrame],
) -> bool
    requires { AreIdsRising 0 state.now.cells }
    ensures { result ≡ callers_test (program_of program.now) (typing_at typing.now) state.now.cells (reverse frames.now) }
{
    let mut n = frames.len();
    while n > 0 {
        n -= 1;
        if !is_caller_placed(program, typing, state, fields_under(program, n), &frames[n]) {
            return false;
        }
    }
    true
}

/// Whether the running frame is as the typing has its place.
fn is_running_placed<P: Pairs>(
    program: &Program<'_>,
    typing: &Typing,
    state: &AbsState<P>,
    statics: &[StaticField<'_>],
    frame: &AbsFrame,
) -> bool
    requires { AreIdsRising 0 state.now.cells }
    ensures { result ≡ running_test (program_of program.now) (typing_at typing.now) state.now.cells state.now.throwing statics.now
        frame.now }
{
    let Some(types) = placed(program, typing, state, statics, frame) else {
        return false;
    };
    match state.throwing() {
        None => is_stack_at(state.cells(), types, 0, frame),
        Some(_) => frame.stack().is_empty(),
    }
}

/// Whether all frames are as the typing has their places.
pub(crate) fn are_placed<P: Pairs>(
    program: &Program<'_>,
    typing: &Typing,
    state: &AbsState<P>,
) -> bool
    requires { AreIdsRising 0 state.now.cells }
    ensures { result ≡ placed_test (program_of program.now) (typing_at typing.now) state.now state.now.frames }
{
    let frames = state.frames();
    let count = frames.len();
    if count == 0 {
        return true;
    }
    let below = count - 1;
    if !is_running_placed(
        program,
        typing,
        state,
        fields_under(program, below),
        &frames[below],
    ) {
        return false;
    }
    are_callers_placed(program, typing, state, &frames[..below])
}

/// Whether a frame is at a call.
fn is_at_call(program: &Program<'_>, frame: &AbsFrame) -> bool
    ensures { result ≡ is_some (call_at (program_of program.now) frame.now) }
{
    call_at(program, frame).is_some()
}

/// Whether each of some frames is at a call.
fn are_at_calls(program: &Program<'_>, frames: &[AbsFrame]) -> bool
    ensures { result ≡ list_all (λ (frame : AbstractFrame). is_some (call_at (program_of program.now) frame)) frames.now }
{
    for frame in frames {
        if !is_at_call(program, frame) {
            return false;
        }
    }
    true
}

/// Whether each frame below the running one is at a call.
pub(crate) fn are_below_at_calls<P: Pairs>(program: &Program<'_>, state: &AbsState<P>) -> bool
    ensures { result ≡ list_all (λ (frame : AbstractFrame). is_some (call_at (program_of program.now) frame))
        (below_running state.now.frames) }
{
    let frames = state.frames();
    let count = frames.len();
    if count == 0 {
        return true;
    }
    are_at_calls(program, &frames[..count - 1])
}
