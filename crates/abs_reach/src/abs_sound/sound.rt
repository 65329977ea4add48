//! Whether what a state says is of a world.
ghost use Rattle.std.specs.Prelude.{◌≡◌, ◌<◌, ◌↔◌, ℕ, All, IsTrue, Some};
ghost use Rattle.std.specs.List.{AllZip};
ghost use Rattle.jvm_values.specs.declared.types.Kind.TheVariants as kinds;
ghost use Rattle.jvm_values.specs.Kinds.{IsOfKind};
ghost use Rattle.jvm_values.specs.Subtyping.{array_of, IsReference, IsErased};
ghost use Rattle.jvm_values.specs.TypedHeaps.{world_types};
ghost use Rattle.abs_cells.specs.Cells.{is_int, is_of_sort, cell_in, HasCell};
ghost use Rattle.abs_cells.specs.Sound.{AreIdsRising, IsOfSlot, IsSoundCell, is_object, IsSound};
ghost use Rattle.abs_reach.specs.Instances.{is_no_int};
ghost use Rattle.abs_reach.specs.abs_sound.Zips.{all_zip};
ghost use Rattle.abs_reach.specs.abs_sound.Tests.{is_of_slot};

use crate::cell_of;
use abs_cells::lin_core::Interval;
use abs_cells::{AbsState, Cell, Id, Pairs, well_formed};
use jvm_values::{Base, Slot, Ty, Types};

/// Whether an id has a cell of an int.
pub fn has_int(cells: &[(Id, Cell)], id: Id) -> bool
    requires { AreIdsRising 0 cells.now }
    ensures { result ≡ is_of_sort is_int (cell_in cells.now id) }
{
    match cell_of(cells, id) {
        Some(cell) => cell.is_int(),
        None => false,
    }
}

/// Whether an id has a cell, and one that is no int's.
pub fn has_no_int(cells: &[(Id, Cell)], id: Id) -> bool
    requires { AreIdsRising 0 cells.now }
    ensures { result ≡ is_of_sort is_no_int (cell_in cells.now id) }
{
    match cell_of(cells, id) {
        Some(cell) => !cell.is_int(),
        None => false,
    }
}

/// Whether an id has a cell that a field may have.
fn is_of_slot(cells: &[(Id, Cell)], slot: Slot, id: Id) -> bool
    requires { AreIdsRising 0 cells.now }
    ensures { result ≡ is_of_slot cells.now slot id }
{
    match slot {
        Slot::Num(_) => has_int(cells, id),
        Slot::Ref(_) => has_no_int(cells, id),
    }
}

/// Whether ids have cells that fields may have, one for each.
fn are_of_slots(cells: &[(Id, Cell)], slots: &[Slot], ids: &[Id]) -> bool
    requires { AreIdsRising 0 cells.now }
    ensures { result ≡ all_zip (is_of_slot cells.now) slots.now ids.now }
{
    if slots.len() != ids.len() {
        return false;
    }
    for n in 0..slots.len() {
        if !is_of_slot(cells, slots[n], ids[n]) {
            return false;
        }
    }
    true
}

/// Whether a type is a reference type of a world of so many classes.
fn is_reference(classes: u32, t: Ty) -> bool
    ensures { IsTrue result ↔ IsReference classes t }
{
    match t.base {
        Base::Class(class) => class < classes,
        Base::Num(_) => t.dims > 0,
    }
}

/// Whether a type is a reference type of a world and its own erasure.
fn is_of_world<T: Types>(types: &T, t: Ty) -> bool
    ensures { IsTrue result ↔ (IsReference (T.classes types.now) t × IsErased (T.erase types.now) t) }
{
    is_reference(types.classes(), t) && types.erase(t) == t
}

/// Whether the type of the arrays of a type is so.
fn is_array_of_world<T: Types>(types: &T, t: Ty) -> bool
    ensures { IsTrue result ↔ (IsReference (T.classes types.now) (array_of t) × IsErased (T.erase types.now) (array_of t)) }
{
    if t.dims == 255 {
        return false;
    }
    let array = Ty {
        dims: t.dims + 1,
        base: t.base,
    };
    is_of_world(types, array)
}

/// Whether ids have cells that the fields of an instance may have, one for each.
fn are_fields<P: Pairs>(state: &AbsState<P>, slots: &[Slot], ids: &[Id]) -> bool
    requires { AreIdsRising 0 state.now.cells }
    ensures { IsTrue result ↔ AllZip (IsOfSlot state.now) slots.now ids.now }
{
    are_of_slots(state.cells(), slots, ids)
}

/// Whether an instance is of a class that can be made and has an id for each field.
fn is_sound_instance<T: Types, P: Pairs>(
    types: &T,
    state: &AbsState<P>,
    class: u32,
    ids: &[Id],
) -> bool
    requires { AreIdsRising 0 state.now.cells }
    ensures { IsTrue result ↔ ((class < T.classes types.now)
        × (IsTrue (T.can_be_made types.now class) × AllZip (IsOfSlot state.now) (T.fields types.now class) ids.now)) }
{
    if class >= types.classes() {
        return false;
    }
    types.can_be_made(class) && are_fields(state, types.fields(class), ids)
}

/// Whether both ends of an interval are ints of 32 bits, which they are.
fn has_int_ends(interval: &Interval) -> bool
    ensures { IsTrue result ↔ (IsOfKind kinds.Int interval.now.lo × IsOfKind kinds.Int interval.now.hi) }
{
    interval.lo() <= interval.hi()
}

/// Whether what a cell says is of a world.
fn is_sound_cell<T: Types, P: Pairs>(types: &T, state: &AbsState<P>, cell: &Cell) -> bool
    requires { AreIdsRising 0 state.now.cells }
    ensures { IsTrue result ↔ IsSoundCell
        (world_types (T.sub types.now) (T.erase types.now) (T.classes types.now) (T.fields types.now) (T.can_be_made types.now))
        state.now cell.now }
{
    match cell {
        Cell::Int(interval) => has_int_ends(interval),
        Cell::Null => true,
        Cell::Obj(class, ids) => is_sound_instance(types, state, *class, ids.as_slice()),
        Cell::Nums(_, len) => has_int(state.cells(), *len),
        Cell::Refs(element, len, _) => {
            has_int(state.cells(), *len)
                && is_of_world(types, *element)
                && is_array_of_world(types, *element)
        }
        Cell::Unk(bound, _, _) => is_of_world(types, *bound),
    }
}

/// Whether what cells of a state say is of a world.
fn are_sound_cells<T: Types, P: Pairs>(types: &T, state: &AbsState<P>, cells: &[(Id, Cell)]) -> bool
    requires { AreIdsRising 0 state.now.cells }
    ensures { IsTrue result ↔ All
        (λ c. IsSoundCell (world_types (T.sub types.now) (T.erase types.now) (T.classes types.now) (T.fields types.now)
        (T.can_be_made types.now)) state.now c.1) cells.now }
{
    for item in cells {
        if !is_sound_cell(types, state, &item.1) {
            return false;
        }
    }
    true
}

/// Whether a cell is an object's.
fn is_object(cell: &Cell) -> bool
    ensures { result ≡ is_object cell.now }
{
    match cell {
        Cell::Int(_) | Cell::Null => false,
        Cell::Obj(_, _) | Cell::Nums(_, _) | Cell::Refs(_, _, _) => true,
        Cell::Unk(_, nullable, _) => !*nullable,
    }
}

/// Whether an id has a cell of an object.
fn is_object_in(cells: &[(Id, Cell)], id: Id) -> bool
    requires { AreIdsRising 0 cells.now }
    ensures { result ≡ is_of_sort is_object (cell_in cells.now id) }
{
    match cell_of(cells, id) {
        Some(cell) => is_object(cell),
        None => false,
    }
}

/// The same of an id of a state.
fn has_object<P: Pairs>(state: &AbsState<P>, id: Id) -> bool
    requires { AreIdsRising 0 state.now.cells }
    ensures { IsTrue result ↔ HasCell is_object state.now id }
{
    is_object_in(state.cells(), id)
}

/// Whether the thrown id, if there is one, is an object's.
fn is_thrown_sound<P: Pairs>(state: &AbsState<P>) -> bool
    requires { AreIdsRising 0 state.now.cells }
    ensures { IsTrue result ↔ ((id : ℕ) → state.now.throwing ≡ Some id → HasCell is_object state.now id) }
{
    match state.throwing() {
        None => true,
        Some(id) => has_object(state, id),
    }
}

/// Whether a state is sound: it is well-formed, has a frame, its cells are of a world, and its thrown id, if any, is an
/// object's. It takes no memory, and as many steps as the state names ids, each with a look-up.
pub fn is_sound<T: Types, P: Pairs>(types: &T, state: &AbsState<P>) -> bool
    ensures { IsTrue result ↔ IsSound (world_types (T.sub types.now) (T.erase types.now) (T.classes types.now) (T.fields types.now)
        (T.can_be_made types.now)) state.now }
{
    if !well_formed(state) || state.frames().is_empty() {
        return false;
    }
    is_thrown_sound(state) && are_sound_cells(types, state, state.cells())
}
