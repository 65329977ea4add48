//! Null, and equality of references.
ghost use Rattle.std.specs.Prelude.{◌≡◌, IfOk};
ghost use Rattle.abs_turns.specs.Table.{jump_if, null_plan, equal_plan};
ghost use Rattle.abs_turns.specs.Stops.{objects_plan};
ghost use Rattle.abs_turns.specs.PlansSeen.{plan_seen};

use crate::abs_rows::rows::{goes_to, no_child};
use abs_cells::{Id, Pairs};
use abs_turns::{Plan, Spot};
use list_views::Stack;
use std::alloc::{AllocError, Global};

/// The jump is taken where a test is what it asks for.
fn jump_if<P: Pairs>(
    alloc: Global,
    spot: &Spot<'_, '_, P>,
    wanted: bool,
    is: bool,
    place: u16,
    stack: &Stack<Id>,
) -> Result<Plan, AllocError>
    ensures { IfOk result (λ plan. plan_seen plan ≡ jump_if spot.now wanted is place stack.now.0) }
{
    let taken = if wanted { is } else { !is };
    let to = if taken { place } else { spot.next() };
    goes_to(alloc, spot, to, stack)
}

/// The top id is compared with null.
pub fn compare_null<P: Pairs>(
    alloc: Global,
    spot: &Spot<'_, '_, P>,
    wanted: bool,
    place: u16,
    mut stack: Stack<Id>,
) -> Result<Plan, AllocError>
    ensures { IfOk result (λ plan. plan_seen plan ≡ null_plan spot.now wanted place stack.0) }
{
    let Some(a) = stack.pop() else {
        return Ok(no_child(alloc));
    };
    if spot.may_be_null(a) {
        return Ok(Plan::ByNull(a));
    }
    jump_if(alloc, spot, wanted, spot.is_null(a), place, &stack)
}

/// Two ids that differ, neither of which is to be split by null, are compared.
fn compare_objects<P: Pairs>(
    alloc: Global,
    spot: &Spot<'_, '_, P>,
    wanted: bool,
    place: u16,
    a: Id,
    b: Id,
    stack: &Stack<Id>,
) -> Result<Plan, AllocError>
    ensures { IfOk result (λ plan. plan_seen plan ≡ objects_plan spot.now wanted place a b stack.now.0) }
{
    let left = spot.is_null(a);
    let right = spot.is_null(b);
    if left && right {
        return jump_if(alloc, spot, wanted, true, place, stack);
    }
    if left || right {
        return jump_if(alloc, spot, wanted, false, place, stack);
    }
    if spot.may_be_one(a, b) {
        return Ok(Plan::ByEqual(a, b));
    }
    jump_if(alloc, spot, wanted, false, place, stack)
}

/// The two top ids are compared.
pub fn compare_references<P: Pairs>(
    alloc: Global,
    spot: &Spot<'_, '_, P>,
    wanted: bool,
    place: u16,
    mut stack: Stack<Id>,
) -> Result<Plan, AllocError>
    ensures { IfOk result (λ plan. plan_seen plan ≡ equal_plan spot.now wanted place stack.0) }
{
    let Some(b) = stack.pop() else {
        return Ok(no_child(alloc));
    };
    let Some(a) = stack.pop() else {
        return Ok(no_child(alloc));
    };
    if a == b {
        return jump_if(alloc, spot, wanted, true, place, &stack);
    }
    if spot.may_be_null(a) {
        return Ok(Plan::ByNull(a));
    }
    if spot.may_be_null(b) {
        return Ok(Plan::ByNull(b));
    }
    compare_objects(alloc, spot, wanted, place, a, b, &stack)
}
