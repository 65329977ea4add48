//! Calls and returns.
ghost use Rattle.std.specs.Prelude.{◌≡◌, ◌<◌, ◌-◌, ◌+◌, ◌++◌, ◌∷◌, [], length, map, take, drop, reverse, replicate, slice_get, IfOk};
ghost use Rattle.std.specs.Prelude.{OnOk, Some, None};
ghost use Rattle.std.specs.Option.{option_map, option_and_then, option_map_or, option_to_list};
ghost use Rattle.jvm_values.specs.States.{locals_from};
ghost use Rattle.class_program.specs.Views.{program_of};
ghost use Rattle.abs_turns.specs.Turns.{moves, with_stack};
ghost use Rattle.abs_turns.specs.Table.{one_step, called_frame, invokes, runs_or_lacks, static_plan, special_plan, answered};
ghost use Rattle.abs_turns.specs.Table.{selecting_plan, class_of_cell, cell_here, returned_to, value_plan, athrow_plan};
ghost use Rattle.class_program.specs.Programs.{insn_at};
ghost use Rattle.abs_turns.specs.jvm_step.Effects.{answer_of};
ghost use Rattle.abs_turns.specs.PlansSeen.{plan_seen};

use crate::abs_rows::{access_stop, no_child, one_step, receiver_stop, step_if};
use abs_cells::{AbsFrame, Cell, Id, Pairs, copied_frames};
use abs_turns::class_world::built_ins::{ABSTRACT_METHOD_ERROR, INCOMPATIBLE_CLASS_CHANGE_ERROR};
use abs_turns::{Plan, Spot, moves, throws};
use class_program::{Call, Method, Op, Selected};
use list_views::{Seq, Stack};
use std::alloc::{AllocError, Global};

/// How many of so many are left without some others.
fn without(all: usize, some: usize) -> usize
    ensures { result ≡ all - some }
{
    if some < all { all - some } else { 0 }
}

/// Adds so many unset locals.
fn add_unset(locals: &mut Seq<Option<Id>>, count: usize) -> Result<(), AllocError>
    ensures { OnOk result (locals.new ≡ locals.old ++ replicate count None) }
{
    for place in 0..count {
        locals.push(None)?;
    }
    Ok(())
}

/// Adds locals that are set.
fn add_set(locals: &mut Seq<Option<Id>>, ids: &[Id]) -> Result<(), AllocError>
    ensures { OnOk result (locals.new ≡ locals.old ++ map Some ids.now) }
{
    for id in ids {
        locals.push(Some(*id))?;
    }
    Ok(())
}

/// The locals of a method that begins: its arguments, and unset ones up to so many.
fn first_locals(alloc: Global, arguments: &[Id], most: u16) -> Result<Seq<Option<Id>>, AllocError>
    ensures { IfOk result (λ locals. locals ≡ locals_from Some None most arguments.now) }
{
    let mut locals = Seq::with_capacity(alloc, usize::from(most))?;
    add_set(&mut locals, arguments)?;
    add_unset(&mut locals, without(usize::from(most), arguments.len()))?;
    Ok(locals)
}

/// So many ids from the top of a stack, the top last.
fn last_ones(stack: &Stack<Id>, count: usize) -> &[Id]
    ensures { result.now ≡ reverse (take count stack.now.0) }
{
    &stack.as_slice()[without(stack.len(), count)..]
}

/// The frame of a method that is called with so many ids from the top of its caller's stack.
fn called_frame(
    alloc: Global,
    number: u32,
    method: &Method<'_>,
    stack: &Stack<Id>,
    count: usize,
) -> Result<AbsFrame, AllocError>
    ensures { IfOk result (λ frame. frame ≡ called_frame number method.now (reverse (take count stack.now.0))) }
{
    let locals = first_locals(alloc, last_ones(stack, count), method.max_locals)?;
    Ok(AbsFrame::new(number, 0, locals, Seq::new(alloc)))
}

/// Takes so many ids from the top of a stack.
fn drop_top(stack: &mut Stack<Id>, count: usize)
    ensures { stack.new.0 ≡ drop count stack.old.0 }
{
    let left = without(stack.len(), count);
    stack.truncate(left);
}

/// The method of a number.
fn method_at<'a, 'p, P: Pairs>(spot: &Spot<'a, 'p, P>, number: u32) -> Option<&'a Method<'p>>
    ensures { option_map (λ method. method.now) result ≡ slice_get spot.now.program.methods number }
{
    spot.program().methods.get(number as usize)
}

/// A frame begins above the running one, on whose stack are so many ids fewer.
fn begins<P: Pairs>(
    alloc: Global,
    spot: &Spot<'_, '_, P>,
    mut stack: Stack<Id>,
    count: usize,
    called: AbsFrame,
) -> Result<Plan, AllocError>
    requires { stack.0 ≡ spot.now.frame.stack }
    ensures { IfOk result
        (λ plan. plan_seen plan ≡ one_step (moves (called ∷ with_stack spot.now spot.now.frame.pc (drop count spot.now.frame.stack)))) }
{
    drop_top(&mut stack, count);
    let mut frames = spot.with_stack(alloc, spot.place(), &stack)?;
    frames.push(called)?;
    one_step(alloc, moves(alloc, frames))
}

/// A method runs, with so many ids from the stack.
fn runs<P: Pairs>(
    alloc: Global,
    spot: &Spot<'_, '_, P>,
    stack: Stack<Id>,
    count: usize,
    number: u32,
    method: &Method<'_>,
) -> Result<Plan, AllocError>
    requires { stack.0 ≡ spot.now.frame.stack }
    ensures { IfOk result
        (λ plan. plan_seen plan ≡ one_step
        (moves (called_frame number method.now (reverse (take count spot.now.frame.stack)) ∷ with_stack spot.now
        spot.now.frame.pc (drop count spot.now.frame.stack)))) }
{
    let called = called_frame(alloc, number, method, &stack, count)?;
    begins(alloc, spot, stack, count, called)
}

/// The method of a number runs, with so many ids from the stack.
fn invokes<P: Pairs>(
    alloc: Global,
    spot: &Spot<'_, '_, P>,
    stack: Stack<Id>,
    count: usize,
    number: u32,
) -> Result<Plan, AllocError>
    requires { stack.0 ≡ spot.now.frame.stack }
    ensures { IfOk result (λ plan. plan_seen plan ≡ invokes spot.now count number) }
{
    match method_at(spot, number) {
        Some(method) => runs(alloc, spot, stack, count, number, method),
        None => Ok(no_child(alloc)),
    }
}

/// The method of a number runs, or there is none, which throws.
fn runs_or_lacks<P: Pairs>(
    alloc: Global,
    spot: &Spot<'_, '_, P>,
    stack: Stack<Id>,
    count: usize,
    target: Option<u32>,
) -> Result<Plan, AllocError>
    requires { stack.0 ≡ spot.now.frame.stack }
    ensures { IfOk result (λ plan. plan_seen plan ≡ runs_or_lacks spot.now count target) }
{
    match target {
        Some(number) => invokes(alloc, spot, stack, count, number),
        None => one_step(alloc, throws(alloc, spot, ABSTRACT_METHOD_ERROR)?),
    }
}

/// A call without a receiver.
pub fn call_static<P: Pairs>(
    alloc: Global,
    spot: &Spot<'_, '_, P>,
    call: &Call,
    stack: Stack<Id>,
) -> Result<Plan, AllocError>
    requires { stack.0 ≡ spot.now.frame.stack }
    ensures { IfOk result (λ plan. plan_seen plan ≡ static_plan spot.now call.now) }
{
    match call.target {
        Some(number) => invokes(alloc, spot, stack, call.params.as_slice().len(), number),
        None => Ok(no_child(alloc)),
    }
}

/// The id under so many entries of a stack.
fn under(stack: &Stack<Id>, depth: usize) -> Option<Id>
    ensures { result ≡ slice_get stack.now.0 depth }
{
    if depth < stack.len() {
        Some(*stack.at(depth))
    } else {
        None
    }
}

/// A call of one method on a receiver.
pub fn call_special<P: Pairs>(
    alloc: Global,
    spot: &Spot<'_, '_, P>,
    call: &Call,
    stack: Stack<Id>,
) -> Result<Plan, AllocError>
    requires { stack.0 ≡ spot.now.frame.stack }
    ensures { IfOk result (λ plan. plan_seen plan ≡ special_plan spot.now call.now) }
{
    let count = call.params.as_slice().len();
    let Some(x) = under(&stack, count) else {
        return Ok(no_child(alloc));
    };
    if let Some(stop) = receiver_stop(alloc, spot, x)? {
        return Ok(stop);
    }
    runs_or_lacks(alloc, spot, stack, count + 1, call.target)
}

/// The class whose methods an id's object has; an array has those of java/lang/Object.
fn class_of<P: Pairs>(spot: &Spot<'_, '_, P>, x: Id) -> u32
    ensures is { result ≡ class_of_cell (cell_here spot.now x) }
    ensures low { result < length (spot.now.program).world }
{
    spot.has_classes();
    match spot.cell(x) {
        Some(Cell::Obj(class, _)) => *class,
        _ => 0,
    }
}

/// What a call that selects does, by what it finds.
fn answered<P: Pairs>(
    alloc: Global,
    spot: &Spot<'_, '_, P>,
    stack: Stack<Id>,
    count: usize,
    answer: Option<Selected>,
) -> Result<Plan, AllocError>
    requires { stack.0 ≡ spot.now.frame.stack }
    ensures { IfOk result (λ plan. plan_seen plan ≡ answered spot.now count answer) }
{
    match answer {
        Some(Selected::Method(number)) => invokes(alloc, spot, stack, count, number),
        Some(Selected::Abstract) => one_step(alloc, throws(alloc, spot, ABSTRACT_METHOD_ERROR)?),
        Some(Selected::NoInterface) => {
            let turn = throws(alloc, spot, INCOMPATIBLE_CLASS_CHANGE_ERROR)?;
            one_step(alloc, turn)
        }
        None => Ok(no_child(alloc)),
    }
}

/// What a call that selects finds for a receiver's class.
fn answer_of<P: Pairs>(spot: &Spot<'_, '_, P>, op: &Op, x: Id) -> Option<Selected>
    ensures { result ≡ answer_of spot.now.program op.now (class_of_cell (cell_here spot.now x)) }
{
    spot.program().selected_for(op, class_of(spot, x))
}

/// A call that selects its method by the receiver's class.
pub fn call_selecting<P: Pairs>(
    alloc: Global,
    spot: &Spot<'_, '_, P>,
    op: &Op,
    call: &Call,
    stack: Stack<Id>,
) -> Result<Plan, AllocError>
    requires { stack.0 ≡ spot.now.frame.stack }
    ensures { IfOk result (λ plan. plan_seen plan ≡ selecting_plan spot.now op.now call.now) }
{
    let count = call.params.as_slice().len();
    let Some(x) = under(&stack, count) else {
        return Ok(no_child(alloc));
    };
    if let Some(stop) = access_stop(alloc, spot, count, x)? {
        return Ok(stop);
    }
    answered(alloc, spot, stack, count + 1, answer_of(spot, op, x))
}

/// A frame at a place, with an id on its stack.
fn resumed(
    alloc: Global,
    frame: &AbsFrame,
    place: u16,
    value: Option<Id>,
) -> Result<AbsFrame, AllocError>
    ensures { IfOk result (λ made. made ≡ record frame.now { pc = place; stack = option_to_list value ++ frame.now.stack }) }
{
    let locals = Seq::from_slice(alloc, frame.locals())?;
    let mut stack = Seq::from_slice(alloc, frame.stack())?;
    if let Some(id) = value {
        stack.push(id)?;
    }
    Ok(AbsFrame::new(frame.method(), place, locals, stack))
}

/// The place behind a frame's instruction.
fn next_place<P: Pairs>(spot: &Spot<'_, '_, P>, frame: &AbsFrame) -> Option<u16>
    ensures { result ≡ option_and_then (λ found. found.1) (insn_at spot.now.program.methods frame.now.method frame.now.pc) }
{
    match spot.program().at(frame.method(), frame.pc()) {
        Some((_op, next)) => next,
        None => None,
    }
}

/// A caller goes on at a place, with the result on its stack.
fn goes_on_at(
    alloc: Global,
    caller: &AbsFrame,
    below: &[AbsFrame],
    place: u16,
    value: Option<Id>,
) -> Result<Plan, AllocError>
    ensures { IfOk result
        (λ plan. plan_seen plan ≡ one_step
        (moves (record caller.now { pc = place; stack = option_to_list value ++ caller.now.stack } ∷ reverse below.now))) }
{
    let mut frames = copied_frames(alloc, below)?;
    frames.push(resumed(alloc, caller, place, value)?)?;
    one_step(alloc, moves(alloc, frames))
}

/// A caller goes on after its call.
fn goes_on_after<P: Pairs>(
    alloc: Global,
    spot: &Spot<'_, '_, P>,
    caller: &AbsFrame,
    below: &[AbsFrame],
    value: Option<Id>,
) -> Result<Plan, AllocError>
    ensures { IfOk result (λ plan. plan_seen plan ≡ returned_to spot.now value (caller.now ∷ reverse below.now)) }
{
    match next_place(spot, caller) {
        Some(place) => goes_on_at(alloc, caller, below, place, value),
        None => step_if(alloc, None),
    }
}

/// The caller goes on after its call, with the result on its stack; with no caller the run ends.
fn returned_to<P: Pairs>(
    alloc: Global,
    spot: &Spot<'_, '_, P>,
    value: Option<Id>,
) -> Result<Plan, AllocError>
    ensures { IfOk result (λ plan. plan_seen plan ≡ returned_to spot.now value spot.now.below) }
{
    match spot.caller() {
        Some((caller, below)) => goes_on_after(alloc, spot, caller, below, value),
        None => Ok(Plan::Ends),
    }
}

/// The top id is returned.
pub fn return_value<P: Pairs>(
    alloc: Global,
    spot: &Spot<'_, '_, P>,
    mut stack: Stack<Id>,
) -> Result<Plan, AllocError>
    ensures { IfOk result (λ plan. plan_seen plan ≡ value_plan spot.now stack.0) }
{
    match stack.pop() {
        Some(x) => returned_to(alloc, spot, Some(x)),
        None => Ok(no_child(alloc)),
    }
}

/// Nothing is returned.
pub fn return_nothing<P: Pairs>(alloc: Global, spot: &Spot<'_, '_, P>) -> Result<Plan, AllocError>
    ensures { IfOk result (λ plan. plan_seen plan ≡ returned_to spot.now None spot.now.below) }
{
    returned_to(alloc, spot, None)
}

/// The top id is thrown.
pub fn throw_object<P: Pairs>(
    alloc: Global,
    spot: &Spot<'_, '_, P>,
    mut stack: Stack<Id>,
) -> Result<Plan, AllocError>
    ensures { IfOk result (λ plan. plan_seen plan ≡ athrow_plan spot.now stack.0) }
{
    let Some(x) = stack.pop() else {
        return Ok(no_child(alloc));
    };
    if let Some(stop) = receiver_stop(alloc, spot, x)? {
        return Ok(stop);
    }
    stack.clear();
    let frames = spot.with_stack(alloc, spot.place(), &stack)?;
    let mut turn = moves(alloc, frames);
    turn.throwing = Some(x);
    one_step(alloc, turn)
}
