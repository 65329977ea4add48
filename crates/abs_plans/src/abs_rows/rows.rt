//! The rows of the table: what becomes of a state at an instruction.
ghost use Rattle.std.specs.Prelude.{◌≡◌, [], true, false, pos, IfOk};
ghost use Rattle.std.specs.Option.{option_map};
ghost use Rattle.abs_cells.specs.declared.cells.Cell.TheVariants as cells;
ghost use Rattle.abs_turns.specs.op_forms.Forms.{shuffled};
ghost use Rattle.abs_turns.specs.Plans.{steps, on_stack};
ghost use Rattle.abs_turns.specs.Turns.{known, id, goes_on, pushes, with_stack, turns_of, branches};
ghost use Rattle.abs_turns.specs.Switches.{table_keys, lookup_keys};
ghost use Rattle.abs_turns.specs.Table.{local_here, one_step, step_if, number_cell, load_plan, store_plan, increment_plan};
ghost use Rattle.abs_turns.specs.Table.{negation_plan, narrow_plan, switch_plan, unary, binary};
ghost use Rattle.abs_turns.specs.PlansSeen.{turn_seen, plan_seen};

use abs_cells::{Cell, Id, Pairs};
use abs_turns::op_forms::Shuffle;
use abs_turns::{
    Goal, Operand, Plan, Spot, Turn, branches, goes_on, just, lookup_turns, moves, pushes, put,
    shuffle, table_turns, turns_narrowing, turns_of,
};
use class_program::code_forms::Case;
use jvm_values::{Cond, IntOp, Kind};
use list_views::{Seq, Stack};
use std::alloc::{AllocError, Global};

/// One step.
pub fn one_step(alloc: Global, turn: Turn) -> Result<Plan, AllocError>
    ensures { IfOk result (λ plan. plan_seen plan ≡ one_step (turn_seen turn)) }
{
    let mut turns = Seq::new(alloc);
    turns.push(turn)?;
    Ok(Plan::Steps(turns))
}

/// One step, if there is one.
pub fn step_if(alloc: Global, turn: Option<Turn>) -> Result<Plan, AllocError>
    ensures { IfOk result (λ plan. plan_seen plan ≡ step_if (option_map turn_seen turn)) }
{
    let mut turns = Seq::new(alloc);
    put(&mut turns, turn)?;
    Ok(Plan::Steps(turns))
}

/// No child.
pub fn no_child(alloc: Global) -> Plan
    ensures { plan_seen result ≡ steps [] }
{
    Plan::Steps(Seq::new(alloc))
}

/// The running frame goes on at a place with a stack.
pub fn goes_to<P: Pairs>(
    alloc: Global,
    spot: &Spot<'_, '_, P>,
    place: u16,
    stack: &Stack<Id>,
) -> Result<Plan, AllocError>
    ensures { IfOk result (λ plan. plan_seen plan ≡ one_step (goes_on spot.now place stack.now.0)) }
{
    one_step(alloc, goes_on(alloc, spot, place, stack)?)
}

/// A number goes on the stack.
pub fn constant<P: Pairs>(
    alloc: Global,
    spot: &Spot<'_, '_, P>,
    n: &i32,
    stack: &Stack<Id>,
) -> Result<Plan, AllocError>
    ensures { IfOk result (λ plan. plan_seen plan ≡ one_step (pushes spot.now (number_cell n.now) stack.now.0)) }
{
    let turn = pushes(alloc, spot, Cell::Int(just(*n)), stack)?;
    one_step(alloc, turn)
}

/// The id of a local goes on the stack.
pub fn load<P: Pairs>(
    alloc: Global,
    spot: &Spot<'_, '_, P>,
    n: u16,
    mut stack: Stack<Id>,
) -> Result<Plan, AllocError>
    requires { stack.0 ≡ spot.now.frame.stack }
    ensures { IfOk result (λ plan. plan_seen plan ≡ load_plan spot.now n) }
{
    let Some(x) = spot.local(n) else {
        return step_if(alloc, None);
    };
    stack.push(x)?;
    goes_to(alloc, spot, spot.next(), &stack)
}

/// The top id goes into a local.
pub fn store<P: Pairs>(
    alloc: Global,
    spot: &Spot<'_, '_, P>,
    n: u16,
    mut stack: Stack<Id>,
) -> Result<Plan, AllocError>
    ensures { IfOk result (λ plan. plan_seen plan ≡ store_plan spot.now n stack.0) }
{
    let Some(x) = stack.pop() else {
        return Ok(no_child(alloc));
    };
    let locals = spot.locals_with(alloc, n, x)?;
    let frames = spot.frames_at(alloc, spot.next(), locals, &stack)?;
    one_step(alloc, moves(alloc, frames))
}

/// A number is added to a local.
pub fn increment<P: Pairs>(
    alloc: Global,
    spot: &Spot<'_, '_, P>,
    n: u16,
    by: &i16,
    stack: Stack<Id>,
) -> Result<Plan, AllocError>
    requires { stack.0 ≡ spot.now.frame.stack }
    ensures { IfOk result (λ plan. plan_seen plan ≡ increment_plan spot.now n by.now (local_here spot.now n)) }
{
    let Some(x) = spot.local(n) else {
        return Ok(no_child(alloc));
    };
    let right = Operand::Known(i32::from(*by));
    let turns = turns_of(
        alloc,
        spot,
        IntOp::Add,
        Operand::Id(x),
        right,
        &stack,
        Goal::InLocal(n),
    )?;
    Ok(Plan::Steps(turns))
}

/// The top of the stack is reordered.
pub fn reorder<P: Pairs>(
    alloc: Global,
    spot: &Spot<'_, '_, P>,
    reordering: Shuffle,
    mut stack: Stack<Id>,
) -> Result<Plan, AllocError>
    ensures { IfOk result (λ plan. plan_seen plan ≡ step_if (option_map (goes_on spot.now spot.now.next) (shuffled reordering stack.0))) }
{
    if shuffle(&mut stack, reordering)? {
        goes_to(alloc, spot, spot.next(), &stack)
    } else {
        step_if(alloc, None)
    }
}

/// An operator on the two top ids.
pub fn arithmetic<P: Pairs>(
    alloc: Global,
    spot: &Spot<'_, '_, P>,
    op: IntOp,
    mut stack: Stack<Id>,
) -> Result<Plan, AllocError>
    ensures { IfOk result
        (λ plan. plan_seen plan ≡ binary stack.0
        (λ a b rest. steps (turns_of spot.now op (id a) (id b) (with_stack spot.now spot.now.next rest) on_stack))) }
{
    let Some(b) = stack.pop() else {
        return Ok(no_child(alloc));
    };
    let Some(a) = stack.pop() else {
        return Ok(no_child(alloc));
    };
    let turns = turns_of(
        alloc,
        spot,
        op,
        Operand::Id(a),
        Operand::Id(b),
        &stack,
        Goal::OnStack,
    )?;
    Ok(Plan::Steps(turns))
}

/// Zero minus the top id.
pub fn negation<P: Pairs>(
    alloc: Global,
    spot: &Spot<'_, '_, P>,
    mut stack: Stack<Id>,
) -> Result<Plan, AllocError>
    ensures { IfOk result (λ plan. plan_seen plan ≡ negation_plan spot.now stack.0) }
{
    let Some(a) = stack.pop() else {
        return Ok(no_child(alloc));
    };
    let zero = Operand::Known(0);
    let turns = turns_of(
        alloc,
        spot,
        IntOp::Sub,
        zero,
        Operand::Id(a),
        &stack,
        Goal::OnStack,
    )?;
    Ok(Plan::Steps(turns))
}

/// The top id is narrowed to a kind.
pub fn narrowing<P: Pairs>(
    alloc: Global,
    spot: &Spot<'_, '_, P>,
    kind: Kind,
    mut stack: Stack<Id>,
) -> Result<Plan, AllocError>
    ensures { IfOk result (λ plan. plan_seen plan ≡ narrow_plan spot.now kind stack.0) }
{
    let Some(a) = stack.pop() else {
        return Ok(no_child(alloc));
    };
    let turns = turns_narrowing(alloc, spot, kind, a, &stack)?;
    Ok(Plan::Steps(turns))
}

/// The top id is compared with 0.
pub fn compare_zero<P: Pairs>(
    alloc: Global,
    spot: &Spot<'_, '_, P>,
    cond: Cond,
    place: u16,
    mut stack: Stack<Id>,
) -> Result<Plan, AllocError>
    ensures { IfOk result
        (λ plan. plan_seen plan ≡ unary stack.0 (λ a rest. steps (branches spot.now cond (id a) (known (pos 0)) place rest false))) }
{
    let Some(a) = stack.pop() else {
        return Ok(no_child(alloc));
    };
    let zero = Operand::Known(0);
    let turns = branches(
        alloc,
        spot,
        cond,
        Operand::Id(a),
        zero,
        place,
        &stack,
        false,
    )?;
    Ok(Plan::Steps(turns))
}

/// The two top ids are compared.
pub fn compare_two<P: Pairs>(
    alloc: Global,
    spot: &Spot<'_, '_, P>,
    cond: Cond,
    place: u16,
    mut stack: Stack<Id>,
) -> Result<Plan, AllocError>
    ensures { IfOk result
        (λ plan. plan_seen plan ≡ binary stack.0 (λ a b rest. steps (branches spot.now cond (id a) (id b) place rest true))) }
{
    let Some(b) = stack.pop() else {
        return Ok(no_child(alloc));
    };
    let Some(a) = stack.pop() else {
        return Ok(no_child(alloc));
    };
    let turns = branches(
        alloc,
        spot,
        cond,
        Operand::Id(a),
        Operand::Id(b),
        place,
        &stack,
        true,
    )?;
    Ok(Plan::Steps(turns))
}

/// A switch by a table.
pub fn table_switch<P: Pairs>(
    alloc: Global,
    spot: &Spot<'_, '_, P>,
    default: u16,
    low: &i32,
    targets: &[u16],
    mut stack: Stack<Id>,
) -> Result<Plan, AllocError>
    ensures { IfOk result (λ plan. plan_seen plan ≡ switch_plan spot.now default (table_keys low.now targets.now) stack.0) }
{
    let Some(a) = stack.pop() else {
        return Ok(no_child(alloc));
    };
    let turns = table_turns(alloc, spot, a, &stack, default, low, targets)?;
    Ok(Plan::Steps(turns))
}

/// A switch by listed keys.
pub fn lookup_switch<P: Pairs>(
    alloc: Global,
    spot: &Spot<'_, '_, P>,
    default: u16,
    cases: &[Case],
    mut stack: Stack<Id>,
) -> Result<Plan, AllocError>
    ensures { IfOk result (λ plan. plan_seen plan ≡ switch_plan spot.now default (lookup_keys cases.now) stack.0) }
{
    let Some(a) = stack.pop() else {
        return Ok(no_child(alloc));
    };
    let turns = lookup_turns(alloc, spot, a, &stack, default, cases)?;
    Ok(Plan::Steps(turns))
}

/// Null goes on the stack.
pub fn push_null<P: Pairs>(
    alloc: Global,
    spot: &Spot<'_, '_, P>,
    stack: &Stack<Id>,
) -> Result<Plan, AllocError>
    ensures { IfOk result (λ plan. plan_seen plan ≡ one_step (pushes spot.now cells.Null stack.now.0)) }
{
    let turn = pushes(alloc, spot, Cell::Null, stack)?;
    one_step(alloc, turn)
}
