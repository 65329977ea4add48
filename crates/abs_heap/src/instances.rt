//! An object of a hazy region as an instance of a class, or as an array.
ghost use Rattle.std.specs.Prelude.{◌≡◌, ◌≢◌, ◌⊎◌, ◌<◌, ◌+◌, ◌≤◌, ◌↔◌, ℕ, true, IfOk, OnOk, None, [], ◌∷◌, map, zip, length, All};
ghost use Rattle.jvm_values.specs.declared.shape.Shape.TheVariants.{Tree, Any};
ghost use Rattle.jvm_values.specs.TypedHeaps.{world_types};
ghost use Rattle.abs_cells.specs.declared.cells.Cell.TheVariants.{Nums, Refs};
ghost use Rattle.abs_cells.specs.Cells.{AreEqual, Share};
ghost use Rattle.abs_cells.specs.IdSets.{has_id};
ghost use Rattle.abs_cells.specs.Sound.{IsWellFormed, AreIdsRising};
ghost use Rattle.abs_cells.specs.Limits.{most_ids};
ghost use Rattle.abs_heap.specs.inner.Building.{IsOver};
ghost use Rattle.abs_heap.specs.Given.{IsGiven, with_cells};
ghost use Rattle.abs_heap.specs.Refining.{instance, cell_of_slot, length_cell, IsReferenceField};
ghost use Rattle.abs_heap.specs.inner.Splitting.{IsGivenInstance, IsCaseAnswer, IsArrayAnswer};

use crate::children::{child_of, named_pairs, plain_link, put_state, whole};
use crate::compatible::{put_compatible_between, put_if};
use crate::fresh::{fresh_id, fresh_ids};
use crate::gaining::put_between;
use crate::items::item_partners;
use crate::objects::int_cell;
use crate::putting::put_cell;
use abs_cells::{AbsState, Cell, Id, IdSet, Ids, Pairs};
use jvm_values::{Kind, Shape, Slot, Ty, Types};
use list_views::Seq;
use std::alloc::{AllocError, AllocFailed, Global};
use term_graph::Child;

/// What is known of what a field of an object of a hazy region holds: an int of its kind, or an object of its type, or null, whose
/// region has the object's shape.
fn cell_of_slot<T: Types>(types: &T, shape: Shape, slot: Slot) -> Cell
    ensures { result ≡ cell_of_slot (T.erase types.now) shape slot }
{
    match slot {
        Slot::Num(kind) => int_cell(kind.least(), kind.greatest()),
        Slot::Ref(t) => Cell::Unk(types.erase(t), true, shape),
    }
}

/// Puts the cells of an object's fields among others.
fn put_fields<T: Types>(
    types: &T,
    shape: Shape,
    slots: &[Slot],
    ids: &[Id],
    cells: &mut Vec<(Id, Cell)>,
) -> Result<(), AllocError>
    requires rising { AreIdsRising 0 cells.old.items }
    requires low { All (λ id. id < 2048) ids.now }
    requires count { length ids.now ≡ length slots.now }
    ensures { OnOk result (IsOver cells.old.items (zip ids.now (map (cell_of_slot (T.erase types.now) shape) slots.now)) cells.new.items) }
{
    for (place, slot) in slots.iter().enumerate() {
        put_cell(cells, ids[place], cell_of_slot(types, shape, *slot))?;
    }
    Ok(())
}

/// Puts the ids of reference fields into a set.
fn put_references(set: &mut IdSet, slots: &[Slot], ids: &[Id])
    requires low { All (λ id. id < 2048) ids.now }
    requires count { length ids.now ≡ length slots.now }
    ensures { (n : ℕ) → (has_id set.new n ≡ true) ↔ ((has_id set.old n ≡ true) ⊎ IsReferenceField slots.now ids.now n) }
{
    for (place, slot) in slots.iter().enumerate() {
        put_if(set, slot.is_reference(), ids[place]);
    }
}

/// The ids of reference fields.
fn reference_ids(slots: &[Slot], ids: &[Id]) -> IdSet
    requires low { All (λ id. id < 2048) ids.now }
    requires count { length ids.now ≡ length slots.now }
    ensures { (n : ℕ) → (has_id result n ≡ true) ↔ IsReferenceField slots.now ids.now n }
{
    let mut set = IdSet::new();
    put_references(&mut set, slots, ids);
    set
}

/// What the reference fields of an object join: what shares with it; each other, where its region may be no tree; and the object
/// itself, where its region may have cycles.
fn field_partners<P: Pairs>(
    state: &AbsState<P>,
    x: Id,
    shape: Shape,
    slots: &[Slot],
    ids: &[Id],
) -> IdSet
    requires x { x < 2048 }
    requires low { All (λ id. id < 2048) ids.now }
    requires count { length ids.now ≡ length slots.now }
    ensures { (n : ℕ) → (has_id result n ≡ true) ↔
        (Share state.now x n ⊎ (((shape ≢ Tree) × IsReferenceField slots.now ids.now n) ⊎ ((shape ≡ Any) × (n ≡ x)))) }
{
    let mut others = item_partners(state, x, shape);
    if shape != Shape::Tree {
        put_references(&mut others, slots, ids);
    }
    others
}

/// The state in which an id is an instance of a class, whose fields have these ids.
fn with_instance<T: Types, P: Pairs>(
    alloc: Global,
    types: &T,
    state: &AbsState<P>,
    x: Id,
    shape: Shape,
    class: u32,
    ids: &[Id],
) -> Result<AbsState<P>, AllocError>
    requires good { IsWellFormed state.now }
    requires x { x < 2048 }
    requires class { class < T.classes types.now }
    requires low { All (λ id. id < 2048) ids.now }
    requires count { length ids.now ≡ length (T.fields types.now class) }
    ensures { IfOk result
        (λ child. IsGivenInstance (world_types (T.sub types.now) (T.erase types.now) (T.classes types.now) (T.fields types.now)
        (T.can_be_made types.now)) state.now x shape class ids.now child) }
{
    let slots = types.fields(class);
    let mut cells = Vec::new(alloc);
    put_cell(
        &mut cells,
        x,
        Cell::Obj(class, Ids::from_slice(alloc, ids)?),
    )?;
    put_fields(types, shape, slots, ids, &mut cells)?;
    put_state(alloc, state, &mut cells)?;
    let cells = Seq::from_vec(cells);
    let list = cells.as_slice();
    let mut eq = named_pairs(alloc, &[], state.eq(), list)?;
    let mut share = named_pairs(alloc, &[], state.share(), list)?;
    let fields = reference_ids(slots, ids);
    let others = field_partners(state, x, shape, slots, ids);
    put_compatible_between(types, list, &fields, &others, &mut eq)?;
    put_between(list, &fields, &others, &mut share)?;
    whole(alloc, &[], state, cells, eq, share)
}

/// The child in which an id is an instance of a class.
pub(crate) fn instance_child<T: Types, P: Pairs>(
    alloc: Global,
    types: &T,
    state: &AbsState<P>,
    x: Id,
    shape: Shape,
    class: u32,
) -> Result<Child<P>, AllocError>
    requires good { IsWellFormed state.now }
    requires x { x < 2048 }
    requires class { class < T.classes types.now }
    requires room { length state.now.cells + length (T.fields types.now class) ≤ most_ids }
    ensures { IfOk result
        (λ child. IsCaseAnswer (world_types (T.sub types.now) (T.erase types.now) (T.classes types.now) (T.fields types.now)
        (T.can_be_made types.now)) state.now x shape (instance class) child) }
{
    let ids = fresh_ids(alloc, state, types.fields(class).len())?;
    let child = with_instance(alloc, types, state, x, shape, class, ids.as_slice())?;
    Ok(Child::new(child, plain_link(alloc, false, None)))
}

/// The state in which an id is an array of a fresh length.
fn with_array<P: Pairs>(
    alloc: Global,
    state: &AbsState<P>,
    x: Id,
    cell: Cell,
    len: Id,
) -> Result<AbsState<P>, AllocError>
    requires good { IsWellFormed state.now }
    requires low { (x < 2048) × (len < 2048) }
    ensures { IfOk result
        (λ child. IsGiven state.now.frames state.now.throwing (with_cells ((x, cell) ∷ (len, length_cell) ∷ []) state.now)
        (AreEqual state.now) (Share state.now) child) }
{
    let mut cells = Vec::new(alloc);
    put_cell(&mut cells, x, cell)?;
    put_cell(&mut cells, len, int_cell(0, i32::MAX))?;
    put_state(alloc, state, &mut cells)?;
    child_of(alloc, state, Seq::from_vec(cells))
}

/// The child in which an id is an array of numbers of a kind.
pub(crate) fn numbers_child<P: Pairs>(
    alloc: Global,
    state: &AbsState<P>,
    x: Id,
    kind: Kind,
) -> Result<Child<P>, AllocError>
    requires good { IsWellFormed state.now }
    requires x { x < 2048 }
    requires room { length state.now.cells + 1 ≤ most_ids }
    ensures { IfOk result (λ child. IsArrayAnswer state.now x (λ len. Nums kind len) child) }
{
    let len = fresh_id(alloc, state)?;
    let child = with_array(alloc, state, x, Cell::Nums(kind, len), len)?;
    Ok(Child::new(child, plain_link(alloc, false, None)))
}

/// The child in which an id is an array of references of an element type.
pub(crate) fn references_child<P: Pairs>(
    alloc: Global,
    state: &AbsState<P>,
    x: Id,
    shape: Shape,
    element: Ty,
) -> Result<Child<P>, AllocError>
    requires good { IsWellFormed state.now }
    requires x { x < 2048 }
    requires room { length state.now.cells + 1 ≤ most_ids }
    ensures { IfOk result (λ child. IsArrayAnswer state.now x (λ len. Refs element len shape) child) }
{
    let len = fresh_id(alloc, state)?;
    let child = with_array(alloc, state, x, Cell::Refs(element, len, shape), len)?;
    Ok(Child::new(child, plain_link(alloc, false, None)))
}
