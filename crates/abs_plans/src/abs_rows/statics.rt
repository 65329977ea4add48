//! Static fields, whose ids follow the locals of the bottom frame.
ghost use Rattle.std.specs.Prelude.{◌≡◌, ◌∷◌, reverse, IfOk};
ghost use Rattle.abs_turns.specs.Plans.{in_bottom};
ghost use Rattle.abs_turns.specs.Turns.{with_stack, moves};
ghost use Rattle.jvm_values.specs.declared.types.Slot.TheVariants as slots;
ghost use Rattle.abs_turns.specs.Table.{bottom_with, one_step, getstatic_plan, put_static, putstatic_plan};
ghost use Rattle.abs_turns.specs.PlansSeen.{plan_seen};

use crate::abs_rows::rows::{goes_to, no_child, one_step, step_if};
use abs_cells::{AbsFrame, Id, Pairs};
use abs_turns::{Goal, Plan, Spot, moves, narrowed_to, pushes_to, with_local};
use jvm_values::{Kind, Slot};
use list_views::{Seq, Stack};
use std::alloc::{AllocError, Global};

/// Frames, the running call's last, with another id in a local of the bottom one.
///
/// # Errors
///
/// Want of memory.
pub fn bottom_with(
    alloc: Global,
    mut frames: Seq<AbsFrame>,
    n: usize,
    id: Id,
) -> Result<Seq<AbsFrame>, AllocError>
    ensures { IfOk result (λ made. reverse made ≡ bottom_with n id (reverse frames)) }
{
    if frames.is_empty() {
        return Ok(frames);
    }
    let frame = with_local(alloc, frames.at(0), n, id)?;
    *frames.at_mut(0) = frame;
    Ok(frames)
}

/// The id of a static field goes on the stack.
pub fn read_static<P: Pairs>(
    alloc: Global,
    spot: &Spot<'_, '_, P>,
    place: u32,
    mut stack: Stack<Id>,
) -> Result<Plan, AllocError>
    requires { stack.0 ≡ spot.now.frame.stack }
    ensures { IfOk result (λ plan. plan_seen plan ≡ getstatic_plan spot.now place) }
{
    let Some(x) = spot.static_id(place) else {
        return step_if(alloc, None);
    };
    stack.push(x)?;
    goes_to(alloc, spot, spot.next(), &stack)
}

/// An id goes into a local of the bottom frame.
fn put_there<P: Pairs>(
    alloc: Global,
    spot: &Spot<'_, '_, P>,
    n: usize,
    x: Id,
    stack: &Stack<Id>,
) -> Result<Plan, AllocError>
    ensures { IfOk result (λ plan. plan_seen plan ≡ one_step (moves (bottom_with n x (with_stack spot.now spot.now.next stack.now.0)))) }
{
    let frames = spot.with_stack(alloc, spot.next(), stack)?;
    let frames = bottom_with(alloc, frames, n, x)?;
    one_step(alloc, moves(alloc, frames))
}

/// An int goes into a local of the bottom frame, as a kind keeps it.
fn put_int<P: Pairs>(
    alloc: Global,
    spot: &Spot<'_, '_, P>,
    kind: Kind,
    n: usize,
    x: Id,
    stack: &Stack<Id>,
) -> Result<Plan, AllocError>
    ensures { IfOk result (λ plan. plan_seen plan ≡ put_static spot.now (slots.Num kind) n x stack.now.0) }
{
    match narrowed_to(kind, spot.interval_of(x)) {
        None => put_there(alloc, spot, n, x, stack),
        Some(ints) => {
            let turn = pushes_to(alloc, spot, ints, stack, Goal::InBottom(n))?;
            one_step(alloc, turn)
        }
    }
}

/// The top id goes into a static field.
pub fn write_static<P: Pairs>(
    alloc: Global,
    spot: &Spot<'_, '_, P>,
    place: u32,
    mut stack: Stack<Id>,
) -> Result<Plan, AllocError>
    ensures { IfOk result (λ plan. plan_seen plan ≡ putstatic_plan spot.now place stack.0) }
{
    let Some(x) = stack.pop() else {
        return Ok(no_child(alloc));
    };
    let Some(field) = spot.program().statics.get(place as usize) else {
        return Ok(no_child(alloc));
    };
    let n = spot.static_local(place);
    match field.slot {
        Slot::Num(kind) => put_int(alloc, spot, kind, n, x, &stack),
        Slot::Ref(_) => put_there(alloc, spot, n, x, &stack),
    }
}
