//! The plan of a state.
ghost use Rattle.std.specs.Prelude.{◌≡◌, ◌∷◌, [], ℕ, reverse, slice_get, IfOk, Some, None};
ghost use Rattle.std.specs.Option.{option_map_or};
ghost use Rattle.abs_cells.specs.Sound.{IsSound};
ghost use Rattle.abs_turns.specs.class_world.WorldTypes.{types_of};
ghost use Rattle.class_program.specs.declared.program.Method.{Method as MethodSeen};
ghost use Rattle.class_program.specs.Views.{program_of};
ghost use Rattle.frame_types.specs.Tables.{CodeTypes};
ghost use Rattle.abs_turns.specs.code_verify.Typings.{typing_at};
ghost use Rattle.abs_turns.specs.op_forms.Forms.{form_of, form_seen};
ghost use Rattle.abs_turns.specs.Table.{row_of, plan_of_form};
ghost use Rattle.abs_plans.specs.Planning.{plan_here, plan_in, plan_of};
ghost use Rattle.abs_turns.specs.GoodPlans.{IsGoodPlan};
ghost use Rattle.abs_turns.specs.PlansSeen.{plan_seen};

use crate::abs_rows::{
    arithmetic, array_length, compare_null, compare_references, compare_two, compare_zero,
    constant, goes_to, increment, load, load_item, load_number, lookup_switch, narrowing, negation,
    new_array, new_object, no_child, push_null, read_field, read_static, reorder, store,
    store_item, store_number, table_switch, write_field, write_static,
};
use crate::calls::{
    call_selecting, call_special, call_static, return_nothing, return_value, throw_object,
};
use crate::casts::{check_cast, test_type};
use crate::testing::{first_stop, taken_by};
use crate::throwing::thrown;
use abs_cells::{AbsFrame, AbsState, Id, Pairs};
use abs_turns::code_verify::Typing;
use abs_turns::op_forms::{Form, form_of};
use abs_turns::{Plan, Spot};
use class_program::{CatchRange, Op, Program};
use jvm_values::{FrameType, Slot};
use list_views::{Seq, Stack};
use std::alloc::{AllocError, Global};

/// The row of the form of an instruction.
fn row<P: Pairs>(
    alloc: Global,
    spot: &Spot<'_, '_, P>,
    op: &Op,
    form: &Form<'_>,
    stack: Stack<Id>,
) -> Result<Plan, AllocError>
    requires form { form_of op.now ≡ Some (form_seen form.now) }
    requires stack { stack.0 ≡ spot.now.frame.stack }
    ensures { IfOk result (λ plan. plan_seen plan ≡ row_of spot.now (form_seen form.now)) }
{
    match form {
        Form::Nop => goes_to(alloc, spot, spot.next(), &stack),
        Form::AconstNull => push_null(alloc, spot, &stack),
        Form::Iconst(n) => constant(alloc, spot, n, &stack),
        Form::Iload(n) => load(alloc, spot, *n, stack),
        Form::Aload(n) => load(alloc, spot, *n, stack),
        Form::Istore(n) => store(alloc, spot, *n, stack),
        Form::Astore(n) => store(alloc, spot, *n, stack),
        Form::Iinc(n, by) => increment(alloc, spot, *n, by, stack),
        Form::Shuffle(reordering) => reorder(alloc, spot, *reordering, stack),
        Form::Arith(op) => arithmetic(alloc, spot, *op, stack),
        Form::Ineg => negation(alloc, spot, stack),
        Form::Narrow(kind) => narrowing(alloc, spot, *kind, stack),
        Form::If(cond, place) => compare_zero(alloc, spot, *cond, *place, stack),
        Form::IfIcmp(cond, place) => compare_two(alloc, spot, *cond, *place, stack),
        Form::IfAcmpeq(place) => compare_references(alloc, spot, true, *place, stack),
        Form::IfAcmpne(place) => compare_references(alloc, spot, false, *place, stack),
        Form::Ifnull(place) => compare_null(alloc, spot, true, *place, stack),
        Form::Ifnonnull(place) => compare_null(alloc, spot, false, *place, stack),
        Form::Goto(place) => goes_to(alloc, spot, *place, &stack),
        Form::Tableswitch {
            default,
            low,
            targets,
        } => table_switch(alloc, spot, *default, low, *targets, stack),
        Form::Lookupswitch { default, cases } => {
            lookup_switch(alloc, spot, *default, *cases, stack)
        }
        Form::Ireturn => return_value(alloc, spot, stack),
        Form::Areturn => return_value(alloc, spot, stack),
        Form::Return => return_nothing(alloc, spot),
        Form::Getstatic(place) => read_static(alloc, spot, *place, stack),
        Form::Putstatic(place) => write_static(alloc, spot, *place, stack),
        Form::Getfield(used) => read_field(alloc, spot, used, stack),
        Form::Putfield(used) => write_field(alloc, spot, used, stack),
        Form::Invokevirtual(call) => call_selecting(alloc, spot, op, *call, stack),
        Form::Invokespecial(call) => call_special(alloc, spot, *call, stack),
        Form::Invokestatic(call) => call_static(alloc, spot, *call, stack),
        Form::Invokeinterface(call) => call_selecting(alloc, spot, op, *call, stack),
        Form::New(t) => new_object(alloc, spot, t, &stack),
        Form::Newarray(kind) => new_array(alloc, spot, Slot::Num(*kind), stack),
        Form::Anewarray(t) => new_array(alloc, spot, Slot::Ref(*t), stack),
        Form::Arraylength => array_length(alloc, spot, stack),
        Form::NumberLoad(_) => load_number(alloc, spot, stack),
        Form::Aaload => load_item(alloc, spot, stack),
        Form::NumberStore(_) => store_number(alloc, spot, stack),
        Form::Aastore => store_item(alloc, spot, stack),
        Form::Athrow => throw_object(alloc, spot, stack),
        Form::Checkcast(t) => check_cast(alloc, spot, t, &stack),
        Form::Instanceof(t) => test_type(alloc, spot, t, stack),
    }
}

/// What becomes of a state at the form of an instruction.
fn plan_of_form<P: Pairs>(
    alloc: Global,
    spot: &Spot<'_, '_, P>,
    op: &Op,
    form: &Form<'_>,
) -> Result<Plan, AllocError>
    requires { form_of op.now ≡ Some (form_seen form.now) }
    ensures { IfOk result (λ plan. plan_seen plan ≡ plan_of_form spot.now (form_seen form.now)) }
{
    let stack = spot.stack(alloc)?;
    match first_stop(alloc, spot, taken_by(form), &stack) {
        Some(stop) => Ok(stop),
        None => row(alloc, spot, op, form, stack),
    }
}

/// The place of the next instruction, which stands for the instruction's own where none comes after it.
fn place_after(next: Option<u16>, place: u16) -> u16
    ensures { result ≡ option_map_or (λ place. place) next place }
{
    match next {
        Some(after) => after,
        None => place,
    }
}

/// What becomes of a state at the form of an instruction, where the typing has types there.
fn plan_typed<P: Pairs>(
    alloc: Global,
    program: &Program<'_>,
    typing: &Typing,
    state: &AbsState<P>,
    frame: &AbsFrame,
    below: &[AbsFrame],
    op: &Op,
    form: &Form<'_>,
    next: Option<u16>,
) -> Result<Plan, AllocError>
    requires sound { IsSound (types_of (program_of program.now).world) state.now }
    requires form { form_of op.now ≡ Some (form_seen form.now) }
    ensures { IfOk result (λ plan. plan_seen plan ≡ plan_here (program_of program.now) (typing_at typing.now) state.now frame.now
        (reverse below.now) (Some (form_seen form.now)) next (typing_at typing.now frame.now.method frame.now.pc)) }
{
    let place = frame.pc();
    match typing.at(frame.method(), place) {
        Some(types) => {
            let after = place_after(next, place);
            let spot = Spot::new(program, state, frame, below, types, after);
            plan_of_form(alloc, &spot, op, form)
        }
        None => Ok(no_child(alloc)),
    }
}

/// What becomes of a state at an instruction.
fn plan_here<P: Pairs>(
    alloc: Global,
    program: &Program<'_>,
    typing: &Typing,
    state: &AbsState<P>,
    frame: &AbsFrame,
    below: &[AbsFrame],
    op: &Op,
    next: Option<u16>,
) -> Result<Plan, AllocError>
    requires { IsSound (types_of (program_of program.now).world) state.now }
    ensures { IfOk result (λ plan. plan_seen plan ≡ plan_here (program_of program.now) (typing_at typing.now) state.now frame.now
        (reverse below.now) (form_of op.now) next (typing_at typing.now frame.now.method frame.now.pc)) }
{
    match form_of(op) {
        Some(form) => plan_typed(alloc, program, typing, state, frame, below, op, &form, next),
        None => Ok(no_child(alloc)),
    }
}

/// The exception table of the method of a number; no ranges where there is no such method.
fn table_of<'a>(program: &'a Program<'_>, number: u32) -> &'a [CatchRange]
    ensures { result.now ≡ option_map_or (λ (method : MethodSeen). method.table) (slice_get (program_of program.now).methods number) [] }
{
    match program.methods.get(number as usize) {
        Some(method) => method.table.as_slice(),
        None => &[],
    }
}

/// What becomes of a state that looks for a handler of an object.
fn plan_thrown<P: Pairs>(
    alloc: Global,
    program: &Program<'_>,
    state: &AbsState<P>,
    frame: &AbsFrame,
    below: &[AbsFrame],
    x: Id,
) -> Result<Plan, AllocError>
    requires { IsSound (types_of (program_of program.now).world) state.now }
    ensures { (typing : ℕ → CodeTypes)
        → IfOk result (λ plan. plan_seen plan ≡ plan_in (program_of program.now) typing state.now (Some x)
        (frame.now ∷ reverse below.now)) }
{
    let types = FrameType {
        locals: Seq::new(alloc),
        stack: Stack::new(alloc),
    };
    let spot = Spot::new(program, state, frame, below, &types, frame.pc());
    thrown(alloc, &spot, x, table_of(program, frame.method()))
}

/// What becomes of a state in normal mode.
fn plan_normal<P: Pairs>(
    alloc: Global,
    program: &Program<'_>,
    typing: &Typing,
    state: &AbsState<P>,
    frame: &AbsFrame,
    below: &[AbsFrame],
) -> Result<Plan, AllocError>
    requires { IsSound (types_of (program_of program.now).world) state.now }
    ensures { IfOk result (λ plan. plan_seen plan ≡ plan_in (program_of program.now) (typing_at typing.now) state.now None
        (frame.now ∷ reverse below.now)) }
{
    match program.at(frame.method(), frame.pc()) {
        Some((op, next)) => plan_here(alloc, program, typing, state, frame, below, op, next),
        None => Ok(no_child(alloc)),
    }
}

/// What becomes of a state in which a frame runs.
fn plan_running<P: Pairs>(
    alloc: Global,
    program: &Program<'_>,
    typing: &Typing,
    state: &AbsState<P>,
    frame: &AbsFrame,
    below: &[AbsFrame],
) -> Result<Plan, AllocError>
    requires { IsSound (types_of (program_of program.now).world) state.now }
    ensures { IfOk result (λ plan. plan_seen plan ≡ plan_in (program_of program.now) (typing_at typing.now) state.now
        state.now.throwing (frame.now ∷ reverse below.now)) }
{
    match state.throwing() {
        Some(x) => plan_thrown(alloc, program, state, frame, below, x),
        None => plan_normal(alloc, program, typing, state, frame, below),
    }
}

/// What becomes of a sound state, by its frames.
fn plan_in_frames<P: Pairs>(
    alloc: Global,
    program: &Program<'_>,
    typing: &Typing,
    state: &AbsState<P>,
) -> Result<Plan, AllocError>
    requires { IsSound (types_of (program_of program.now).world) state.now }
    ensures { IfOk result (λ plan. plan_seen plan ≡ plan_of (program_of program.now) (typing_at typing.now) state.now) }
{
    let frames = state.frames();
    if frames.is_empty() {
        return Ok(no_child(alloc));
    }
    let last = frames.len() - 1;
    plan_running(
        alloc,
        program,
        typing,
        state,
        &frames[last],
        &frames[..last],
    )
}

/// What becomes of a sound state: whether the run ends with the next step, what each step does, or into which cases it is split. That can
/// be done: what is named has cells, and what is split can be split so.
///
/// # Errors
///
/// Want of memory.
pub fn plan<P: Pairs>(
    alloc: Global,
    program: &Program<'_>,
    typing: &Typing,
    state: &AbsState<P>,
) -> Result<Plan, AllocError>
    requires { IsSound (types_of (program_of program.now).world) state.now }
    ensures exact { IfOk result (λ plan. plan_seen plan ≡ plan_of (program_of program.now) (typing_at typing.now) state.now) }
    ensures good { IfOk result (λ plan. IsGoodPlan (types_of (program_of program.now).world) state.now (plan_seen plan)) }
{
    program.is_good();
    plan_in_frames(alloc, program, typing, state)
}
