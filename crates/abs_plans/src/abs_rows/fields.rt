//! Fields of objects.
ghost use Rattle.std.specs.Prelude.{◌≡◌, ◌++◌, ◌∷◌, [], slice_set, IfOk, OnOk};
ghost use Rattle.std.specs.Option.{option_map};
ghost use Rattle.jvm_values.specs.declared.types.Slot.TheVariants as slots;
ghost use Rattle.abs_cells.specs.declared.cells.Cell.TheVariants as cells;
ghost use Rattle.abs_turns.specs.Turns.{goes_on, with_stack, moves};
ghost use Rattle.abs_turns.specs.Table.{step_if, one_step, cell_here, field_id, on_instance, put_int, put_reference, put_slot};
ghost use Rattle.abs_turns.specs.Table.{getfield_plan, putfield_plan};
ghost use Rattle.abs_turns.specs.PlansSeen.{plan_seen};

use crate::abs_rows::rows::{goes_to, no_child, one_step, step_if};
use crate::abs_rows::stops::access_stop;
use abs_cells::{Cell, Id, Ids, Pairs};
use abs_turns::class_program::FieldUse;
use abs_turns::{Act, Goal, Plan, Spot, Write, moves, narrowed_to, pushes_to};
use jvm_values::{Kind, Slot};
use list_views::{Seq, Stack};
use std::alloc::{AllocError, Global};

/// The id of a field of a known object, if it has one.
fn field_id<P: Pairs>(spot: &Spot<'_, '_, P>, k: Id, place: u32) -> Option<Id>
    ensures { result ≡ field_id (cell_here spot.now k) place }
{
    match spot.cell(k) {
        Some(Cell::Obj(_, ids)) => ids.as_slice().get(place as usize).copied(),
        _ => None,
    }
}

/// The id of a field of a known object goes on the stack.
fn read_known<P: Pairs>(
    alloc: Global,
    spot: &Spot<'_, '_, P>,
    k: Id,
    place: u32,
    mut stack: Stack<Id>,
) -> Result<Plan, AllocError>
    ensures { IfOk result
        (λ plan. plan_seen plan ≡ step_if
        (option_map (λ x. goes_on spot.now spot.now.next (x ∷ stack.0)) (field_id (cell_here spot.now k) place))) }
{
    let Some(x) = field_id(spot, k, place) else {
        return step_if(alloc, None);
    };
    stack.push(x)?;
    goes_to(alloc, spot, spot.next(), &stack)
}

/// The id of a field of the top id's object goes on the stack.
pub fn read_field<P: Pairs>(
    alloc: Global,
    spot: &Spot<'_, '_, P>,
    used: &FieldUse,
    mut stack: Stack<Id>,
) -> Result<Plan, AllocError>
    ensures { IfOk result (λ plan. plan_seen plan ≡ getfield_plan spot.now used.now stack.0) }
{
    let Some(k) = stack.pop() else {
        return Ok(no_child(alloc));
    };
    if let Some(stop) = access_stop(alloc, spot, 0, k)? {
        return Ok(stop);
    }
    read_known(alloc, spot, k, used.place, stack)
}

/// Adds ids at the end.
fn push_all(list: &mut Ids, more: &[Id]) -> Result<(), AllocError>
    ensures { OnOk result (list.new ≡ list.old ++ more.now) }
{
    for id in more {
        list.push(*id)?;
    }
    Ok(())
}

/// Ids with another one at a place, if they have it.
///
/// # Errors
///
/// Want of memory.
pub fn with_id(alloc: Global, ids: &[Id], place: u32, id: Id) -> Result<Ids, AllocError>
    ensures { IfOk result (λ list. list ≡ slice_set ids.now place id) }
{
    let place = place as usize;
    if place >= ids.len() {
        return Ids::from_slice(alloc, ids);
    }
    let mut list = Ids::from_slice(alloc, &ids[..place])?;
    list.push(id)?;
    push_all(&mut list, &ids[place + 1..])?;
    Ok(list)
}

/// The cell of an instance with another id in a field.
fn instance_with(
    alloc: Global,
    k: Id,
    class: u32,
    ids: &[Id],
    place: u32,
    x: Id,
) -> Result<Seq<(Id, Cell)>, AllocError>
    ensures { IfOk result (λ list. list ≡ (k, cells.Obj class (slice_set ids.now place x)) ∷ []) }
{
    let mut changed = Seq::new(alloc);
    changed.push((k, Cell::Obj(class, with_id(alloc, ids, place, x)?)))?;
    Ok(changed)
}

/// An int goes into a field, as its kind keeps it.
fn put_int<P: Pairs>(
    alloc: Global,
    spot: &Spot<'_, '_, P>,
    kind: Kind,
    k: Id,
    place: u32,
    x: Id,
    stack: &Stack<Id>,
    class: u32,
    ids: &[Id],
) -> Result<Plan, AllocError>
    ensures { IfOk result (λ plan. plan_seen plan ≡ put_int spot.now kind k place x stack.now.0 class ids.now) }
{
    match narrowed_to(kind, spot.interval_of(x)) {
        None => {
            let frames = spot.with_stack(alloc, spot.next(), stack)?;
            let mut turn = moves(alloc, frames);
            turn.changed = instance_with(alloc, k, class, ids, place, x)?;
            one_step(alloc, turn)
        }
        Some(ints) => {
            let turn = pushes_to(alloc, spot, ints, stack, Goal::InField(k, place))?;
            one_step(alloc, turn)
        }
    }
}

/// A reference goes into a field.
fn put_reference<P: Pairs>(
    alloc: Global,
    spot: &Spot<'_, '_, P>,
    k: Id,
    place: u32,
    w: Id,
    stack: &Stack<Id>,
) -> Result<Plan, AllocError>
    ensures { IfOk result (λ plan. plan_seen plan ≡ put_reference spot.now k place w stack.now.0) }
{
    let frames = spot.with_stack(alloc, spot.next(), stack)?;
    let mut turn = moves(alloc, frames);
    turn.act = Act::Writes(Write {
        object: k,
        field: Some(place),
        value: w,
    });
    one_step(alloc, turn)
}

/// A value goes into a field of a known object.
fn put_known<P: Pairs>(
    alloc: Global,
    spot: &Spot<'_, '_, P>,
    used: &FieldUse,
    k: Id,
    x: Id,
    stack: &Stack<Id>,
) -> Result<Plan, AllocError>
    ensures { IfOk result
        (λ plan. plan_seen plan ≡ on_instance (cell_here spot.now k) (put_slot spot.now used.now.slot k used.now.place x stack.now.0)) }
{
    let Some(Cell::Obj(class, ids)) = spot.cell(k) else {
        return Ok(no_child(alloc));
    };
    match used.slot {
        Slot::Num(kind) => {
            put_int(
                alloc,
                spot,
                kind,
                k,
                used.place,
                x,
                stack,
                *class,
                ids.as_slice(),
            )
        }
        Slot::Ref(_) => put_reference(alloc, spot, k, used.place, x, stack),
    }
}

/// The top id goes into a field of the object below it.
pub fn write_field<P: Pairs>(
    alloc: Global,
    spot: &Spot<'_, '_, P>,
    used: &FieldUse,
    mut stack: Stack<Id>,
) -> Result<Plan, AllocError>
    ensures { IfOk result (λ plan. plan_seen plan ≡ putfield_plan spot.now used.now stack.0) }
{
    let Some(x) = stack.pop() else {
        return Ok(no_child(alloc));
    };
    let Some(k) = stack.pop() else {
        return Ok(no_child(alloc));
    };
    if let Some(stop) = access_stop(alloc, spot, 1, k)? {
        return Ok(stop);
    }
    put_known(alloc, spot, used, k, x, &stack)
}
