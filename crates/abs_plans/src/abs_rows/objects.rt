//! New objects and arrays.
ghost use Rattle.std.specs.Prelude.{◌≡◌, ◌∷◌, ◌++◌, [], map, IfOk, IfSome};
ghost use Rattle.std.specs.Option.{option_map, option_to_list};
ghost use Rattle.abs_cells.specs.declared.cells.Cell.TheVariants as cells;
ghost use Rattle.abs_ints.specs.IntIntervals.{meet_of};
ghost use Rattle.abs_turns.specs.class_world.BuiltIns.{negative_array_size_exception};
ghost use Rattle.abs_turns.specs.Plans.{no_rows};
ghost use Rattle.abs_turns.specs.Turns.{interval_of_id, throws_after};
ghost use Rattle.abs_turns.specs.Table.{natural, negative, array_turn, array_plan, new_plan};
ghost use Rattle.abs_turns.specs.PlansSeen.{turn_seen, plan_seen};

use crate::abs_rows::rows::{no_child, one_step};
use abs_cells::lin_core::Interval;
use abs_cells::{Id, Pairs};
use abs_turns::class_world::built_ins::NEGATIVE_ARRAY_SIZE_EXCEPTION;
use abs_turns::{Act, Goal, Plan, Rows, Spot, Turn, moves, one_narrowed, put, throws_after};
use jvm_values::{Base, Slot, Ty};
use list_views::{Seq, Stack};
use std::alloc::{AllocError, Global};

/// A new object goes on the stack.
pub fn new_object<P: Pairs>(
    alloc: Global,
    spot: &Spot<'_, '_, P>,
    t: &Ty,
    stack: &Stack<Id>,
) -> Result<Plan, AllocError>
    requires { stack.now.0 ≡ spot.now.frame.stack }
    ensures { IfOk result (λ plan. plan_seen plan ≡ new_plan spot.now t.now) }
{
    let Base::Class(class) = t.base else {
        return Ok(no_child(alloc));
    };
    let frames = spot.with_stack(alloc, spot.next(), stack)?;
    let mut turn = moves(alloc, frames);
    turn.act = Act::Object(class);
    turn.goal = Goal::OnStack;
    one_step(alloc, turn)
}

/// The ints from 0 on.
pub fn natural() -> Interval
    ensures { result ≡ natural }
{
    match Interval::new(0, i32::MAX) {
        Some(interval) => interval,
        None => unreachable!(),
    }
}

/// The ints below 0.
pub fn negative() -> Interval
    ensures { result ≡ negative }
{
    match Interval::new(i32::MIN, -1) {
        Some(interval) => interval,
        None => unreachable!(),
    }
}

/// A count that is at least 0 makes the array, whose length it is.
fn array_made<P: Pairs>(
    alloc: Global,
    spot: &Spot<'_, '_, P>,
    slot: Slot,
    count: Id,
    stack: &Stack<Id>,
) -> Result<Option<Turn>, AllocError>
    ensures { IfOk result (λ turn. option_map turn_seen turn ≡ option_map (array_turn spot.now slot count stack.now.0)
        (meet_of (interval_of_id spot.now.state count) natural)) }
{
    let Some(both) = spot.interval_of(count).meet(natural()) else {
        return Ok(None);
    };
    let frames = spot.with_stack(alloc, spot.next(), stack)?;
    let mut turn = moves(alloc, frames);
    turn.changed = one_narrowed(alloc, count, both)?;
    turn.act = Act::Array(slot, count);
    turn.goal = Goal::OnStack;
    Ok(Some(turn))
}

/// An int that is below 0 throws an object of a class.
pub fn throws_below_zero<P: Pairs>(
    alloc: Global,
    spot: &Spot<'_, '_, P>,
    id: Id,
    class: u32,
) -> Result<Option<Turn>, AllocError>
    ensures { IfOk result
        (λ turn. option_map turn_seen turn ≡ option_map (λ both. throws_after spot.now ((id, cells.Int both) ∷ []) no_rows class)
        (meet_of (interval_of_id spot.now.state id) negative)) }
{
    let Some(both) = spot.interval_of(id).meet(negative()) else {
        return Ok(None);
    };
    let narrowed = one_narrowed(alloc, id, both)?;
    let turn = throws_after(alloc, spot, narrowed, Rows::Nothing, class)?;
    Ok(Some(turn))
}

/// A new array goes on the stack; a count below 0 throws.
pub fn new_array<P: Pairs>(
    alloc: Global,
    spot: &Spot<'_, '_, P>,
    slot: Slot,
    mut stack: Stack<Id>,
) -> Result<Plan, AllocError>
    ensures { IfOk result (λ plan. plan_seen plan ≡ array_plan spot.now slot stack.0) }
{
    let Some(count) = stack.pop() else {
        return Ok(no_child(alloc));
    };
    let made = array_made(alloc, spot, slot, count, &stack)?;
    let thrown = throws_below_zero(alloc, spot, count, NEGATIVE_ARRAY_SIZE_EXCEPTION)?;
    let mut turns = Seq::new(alloc);
    put(&mut turns, made)?;
    put(&mut turns, thrown)?;
    Ok(Plan::Steps(turns))
}
