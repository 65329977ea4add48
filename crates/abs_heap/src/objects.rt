//! New objects and arrays.
ghost use Rattle.std.specs.Prelude.{◌≡◌, ◌+◌, ◌<◌, ◌≤◌, ◌≤ℤ◌, ◌∷◌, ◌↔◌, IfOk, OnOk, None, Some, Err, true, map, zip, length, All};
ghost use Rattle.jvm_values.specs.TypedHeaps.{world_types};
ghost use Rattle.abs_cells.specs.Cells.{AreEqual, Share};
ghost use Rattle.abs_cells.specs.Sound.{AreIdsRising, IsWellFormed};
ghost use Rattle.abs_heap.specs.inner.Building.{IsOver};
ghost use Rattle.abs_heap.specs.Counts.{HasTooMany};
ghost use Rattle.abs_heap.specs.Given.{IsGiven, with_cells};
ghost use Rattle.abs_heap.specs.Laws.{plain_link};
ghost use Rattle.abs_heap.specs.Writing.{zero_cell, array_cell, IsObjectChild, IsNewArrayChild};
ghost use Rattle.abs_cells.specs.declared.cells.Cell.TheVariants.{Int, Obj};
ghost use Rattle.abs_heap.specs.declared.fault.HeapFault.TheVariants.{TooManyIds};

use crate::children::{child_of, has_room, plain_link, put_state, with_cell};
use crate::fault::HeapFault;
use crate::fresh::{fresh_id, fresh_ids};
use crate::putting::put_cell;
use abs_cells::lin_core::Interval;
use abs_cells::{AbsState, Cell, Id, Ids, Pairs};
use jvm_values::{Shape, Slot, Types};
use list_views::Seq;
use std::alloc::{AllocError, AllocFailed, Global};
use term_graph::Child;

/// The cell of an int between two numbers, the lower one first.
pub(crate) fn int_cell(lo: i32, hi: i32) -> Cell
    requires { lo ≤ℤ hi }
    ensures { result ≡ Int (record { lo = lo; hi = hi }) }
{
    match Interval::new(lo, hi) {
        Some(interval) => Cell::Int(interval),
        None => unreachable!(),
    }
}

/// The cell of zero, or of null: what a field of a new object holds (JVM specification, sections 2.3 and 2.4).
fn zero_cell(slot: Slot) -> Cell
    ensures { result ≡ zero_cell slot }
{
    match slot {
        Slot::Num(_) => int_cell(0, 0),
        Slot::Ref(_) => Cell::Null,
    }
}

/// Puts the cells of a new object's fields among others.
fn put_zeros(ids: &[Id], slots: &[Slot], cells: &mut Vec<(Id, Cell)>) -> Result<(), AllocError>
    requires rising { AreIdsRising 0 cells.old.items }
    requires low { All (λ id. id < 2048) ids.now }
    requires count { length ids.now ≡ length slots.now }
    ensures { OnOk result (IsOver cells.old.items (zip ids.now (map zero_cell slots.now)) cells.new.items) }
{
    for (place, slot) in slots.iter().enumerate() {
        put_cell(cells, ids[place], zero_cell(*slot))?;
    }
    Ok(())
}

/// The state with a new object of these fields.
fn with_object<P: Pairs>(
    alloc: Global,
    state: &AbsState<P>,
    class: u32,
    slots: &[Slot],
    id: Id,
    ids: &[Id],
) -> Result<AbsState<P>, AllocError>
    requires good { IsWellFormed state.now }
    requires low { (id < 2048) × All (λ id. id < 2048) ids.now }
    requires count { length ids.now ≡ length slots.now }
    ensures { IfOk result
        (λ child. IsGiven state.now.frames state.now.throwing
        (with_cells ((id, Obj class ids.now) ∷ zip ids.now (map zero_cell slots.now)) state.now) (AreEqual state.now)
        (Share state.now) child) }
{
    let mut cells = Vec::new(alloc);
    put_cell(
        &mut cells,
        id,
        Cell::Obj(class, Ids::from_slice(alloc, ids)?),
    )?;
    put_zeros(ids, slots, &mut cells)?;
    put_state(alloc, state, &mut cells)?;
    child_of(alloc, state, Seq::from_vec(cells))
}

/// The child of a state in one step that makes an object of a class, whose fields are zero or null, and the object's id. It and
/// after it the fields' have the least numbers without a cell. No pairs come.
///
/// # Errors
///
/// `TooManyIds` exactly where the child has more than 512 ids; `Memory` at want of memory.
pub fn new_object<T: Types, P: Pairs>(
    alloc: Global,
    types: &T,
    state: &AbsState<P>,
    class: u32,
) -> Result<(Child<P>, Id), HeapFault>
    requires good { IsWellFormed state.now }
    requires class { class < T.classes types.now }
    ensures child { IfOk result
        (λ r. IsObjectChild (world_types (T.sub types.now) (T.erase types.now) (T.classes types.now) (T.fields types.now)
        (T.can_be_made types.now)) state.now class r.1 r.0.state) }
    ensures link { IfOk result (λ r. r.0.link ≡ plain_link true None) }
    ensures too_many { (result ≡ Err TooManyIds) ↔ HasTooMany state.now (length (T.fields types.now class) + 1) }
{
    let slots = types.fields(class);
    if !has_room(state, slots.len() + 1) {
        return Err(HeapFault::TooManyIds);
    }
    let fresh = fresh_ids(alloc, state, slots.len() + 1)?;
    let id = *fresh.at(0);
    let child = with_object(alloc, state, class, slots, id, &fresh.as_slice()[1..])?;
    Ok((Child::new(child, plain_link(alloc, true, None)), id))
}

/// The cell of a new array.
fn array_cell<T: Types>(types: &T, element: Slot, len: Id) -> Cell
    ensures { result ≡ array_cell (T.erase types.now) element len }
{
    match element {
        Slot::Num(kind) => Cell::Nums(kind, len),
        Slot::Ref(t) => Cell::Refs(types.erase(t), len, Shape::Tree),
    }
}

/// The child of a state in one step that makes an array of an element type, whose length is an id's int, and the array's id: the
/// least number without a cell. The items are zero or null, and no pairs come.
///
/// # Errors
///
/// `TooManyIds` exactly where the child has more than 512 ids; `Memory` at want of memory.
pub fn new_array<T: Types, P: Pairs>(
    alloc: Global,
    types: &T,
    state: &AbsState<P>,
    element: Slot,
    len: Id,
) -> Result<(Child<P>, Id), HeapFault>
    requires good { IsWellFormed state.now }
    ensures child { IfOk result (λ r. IsNewArrayChild (T.erase types.now) state.now element len r.1 r.0.state) }
    ensures link { IfOk result (λ r. r.0.link ≡ plain_link true None) }
    ensures too_many { (result ≡ Err TooManyIds) ↔ HasTooMany state.now 1 }
{
    if !has_room(state, 1) {
        return Err(HeapFault::TooManyIds);
    }
    let id = fresh_id(alloc, state)?;
    let child = with_cell(alloc, state, id, array_cell(types, element, len))?;
    Ok((Child::new(child, plain_link(alloc, true, None)), id))
}
