//! The cells after a write, and the ids that it makes share.
ghost use Rattle.std.specs.Prelude.{◌≡◌, ◌↔◌, ◌<◌, ◌||◌, ◌==◌, ℕ, true, false, IfOk, OnOk, All, Some, map, slice_set, if◌then◌else◌};
ghost use Rattle.std.specs.List.{list_any};
ghost use Rattle.abs_cells.specs.IdSets.{has_id};
ghost use Rattle.abs_cells.specs.PairLists.{IsRising};
ghost use Rattle.abs_cells.specs.Sound.{AreIdsRising};
ghost use Rattle.abs_heap.specs.inner.Building.{Gains, IsOver};
ghost use Rattle.abs_heap.specs.Names.{name_in};
ghost use Rattle.abs_heap.specs.inner.Renaming.{is_beside, IsBeside, is_named, ids_written, shape_if, written_cell, field_at, write_of};
ghost use Rattle.abs_heap.specs.Writing.{shape_after, is_renamed, cell_after};

use crate::compatible::put_if;
use crate::gaining::{pair_at, put_between};
use crate::naming::{name_of, named_ids};
use crate::putting::put_cell;
use crate::shapes::shape_after;
use abs_cells::{Cell, Id, IdSet, Ids, Pairs};
use jvm_values::Shape;
use list_views::Seq;
use std::alloc::{AllocError, AllocFailed, Global};

/// What is written, and where: the id of the object, its field or none for an item of an array, and the id of the value.
#[derive(Drop)]
pub(crate) struct Write {
    pub(crate) object: Id,
    pub(crate) field: Option<u32>,
    pub(crate) value: Id,
}

/// What a write does to the affected ids: their new numbers, whether null is written, and whether it makes no cycle.
#[derive(Drop)]
pub(crate) struct Effect {
    pub(crate) names: Seq<(Id, Id)>,
    pub(crate) null: bool,
    pub(crate) no_cycle: bool,
}

/// Whether an id has a new number.
fn is_renamed(names: &[(Id, Id)], id: Id) -> bool
    ensures { result ≡ is_renamed names.now id }
{
    for (old, _new) in names {
        if *old == id {
            return true;
        }
    }
    false
}

/// The field that a write sets in the cell of an id: none where it is not the written object's.
fn field_at(here: bool, field: Option<u32>) -> Option<u32>
    ensures { result ≡ field_at here field }
{
    if here { field } else { None }
}

/// The shape of a region after a write, where its id is affected.
fn shape_if(renamed: bool, null: bool, no_cycle: bool, shape: Shape) -> Shape
    ensures { result ≡ shape_if renamed null no_cycle shape }
{
    if renamed {
        shape_after(null, no_cycle, shape)
    } else {
        shape
    }
}

/// The id that a field has after a write.
fn id_at(written: bool, w: Id, id: Id) -> Id
    ensures { result ≡ if written then w else id }
{
    if written { w } else { id }
}

/// Ids under their names, of which one is another in the place of a field.
fn set_ids(
    alloc: Global,
    names: &[(Id, Id)],
    field: u32,
    w: Id,
    ids: &[Id],
) -> Result<Ids, AllocError>
    ensures { IfOk result (λ named. named ≡ map (name_in names.now) (slice_set ids.now field w)) }
{
    let mut named = Ids::new(alloc);
    for (place, id) in ids.iter().enumerate() {
        named.push(name_of(names, id_at(place == field as usize, w, *id)))?;
    }
    Ok(named)
}

/// The same, where a field is set or none.
fn written_ids(
    alloc: Global,
    names: &[(Id, Id)],
    field: Option<u32>,
    w: Id,
    ids: &[Id],
) -> Result<Ids, AllocError>
    ensures { IfOk result (λ named. named ≡ map (name_in names.now) (ids_written field w ids.now)) }
{
    match field {
        Some(field) => set_ids(alloc, names, field, w, ids),
        None => named_ids(alloc, names, ids),
    }
}

/// A cell with a field set or none, and with its new shape, whose ids are under their names.
fn written_cell(
    alloc: Global,
    names: &[(Id, Id)],
    field: Option<u32>,
    w: Id,
    renamed: bool,
    null: bool,
    no_cycle: bool,
    cell: &Cell,
) -> Result<Cell, AllocError>
    ensures { IfOk result (λ made. made ≡ written_cell (name_in names.now) field w (shape_if renamed null no_cycle) cell.now) }
{
    Ok(match cell {
        Cell::Int(interval) => Cell::Int(*interval),
        Cell::Null => Cell::Null,
        Cell::Obj(class, ids) => Cell::Obj(
            *class,
            written_ids(alloc, names, field, w, ids.as_slice())?,
        ),
        Cell::Nums(kind, len) => Cell::Nums(*kind, name_of(names, *len)),
        Cell::Refs(element, len, shape) => Cell::Refs(
            *element,
            name_of(names, *len),
            shape_if(renamed, null, no_cycle, *shape),
        ),
        Cell::Unk(bound, nullable, shape) => Cell::Unk(
            *bound,
            *nullable,
            shape_if(renamed, null, no_cycle, *shape),
        ),
    })
}

/// The cell of an id after a write.
fn cell_after(
    alloc: Global,
    effect: &Effect,
    write: &Write,
    id: Id,
    cell: &Cell,
) -> Result<Cell, AllocError>
    ensures { IfOk result
        (λ made. made ≡ (cell_after effect.now.names (shape_after effect.now.null effect.now.no_cycle)
        (write_of write.now.object write.now.field write.now.value) (id, cell.now)).1) }
{
    let names = effect.names.as_slice();
    let renamed = is_renamed(names, id);
    let field = field_at(id == write.object, write.field);
    written_cell(
        alloc,
        names,
        field,
        write.value,
        renamed,
        effect.null,
        effect.no_cycle,
        cell,
    )
}

/// Puts the cells after a write among others.
pub(crate) fn put_written(
    alloc: Global,
    effect: &Effect,
    write: &Write,
    more: &[(Id, Cell)],
    cells: &mut Vec<(Id, Cell)>,
) -> Result<(), AllocError>
    requires rising { AreIdsRising 0 cells.old.items }
    requires low { All (λ c. name_in effect.now.names c.0 < 2048) more.now }
    ensures { OnOk result
        (IsOver cells.old.items
        (map (cell_after effect.now.names (shape_after effect.now.null effect.now.no_cycle)
        (write_of write.now.object write.now.field write.now.value)) more.now) cells.new.items) }
{
    for (id, cell) in more {
        let after = cell_after(alloc, effect, write, *id, cell)?;
        put_cell(cells, name_of(effect.names.as_slice(), *id), after)?;
    }
    Ok(())
}

/// Puts into a set the ids that a pair has with those of another set.
fn put_beside(set: &mut IdSet, others: &IdSet, pair: (Id, Id))
    requires { (pair.0 < 2048) × (pair.1 < 2048) }
    ensures { (n : ℕ) → has_id set.new n ≡ (is_beside others.now n pair || has_id set.old n) }
{
    put_if(set, others.has(pair.0), pair.1);
    put_if(set, others.has(pair.1), pair.0);
}

/// The ids that are a pair with one of a set.
pub(crate) fn ids_beside(pairs: &[(Id, Id)], others: &IdSet) -> IdSet
    requires { IsRising pairs.now }
    ensures { (n : ℕ) → (has_id result n ≡ true) ↔ IsBeside pairs.now others.now n }
{
    let mut set = IdSet::new();
    let mut n = 0;
    while let Some((a, b)) = pair_at(pairs, n) {
        put_beside(&mut set, others, (a, b));
        n += 1;
    }
    set
}

/// Whether an id is in one of two sets.
fn is_in_one(first: &IdSet, second: &IdSet, id: Id) -> bool
    ensures { result ≡ (has_id first.now id || has_id second.now id) }
{
    first.has(id) || second.has(id)
}

/// The names of the cells' ids that are in one of two sets.
pub(crate) fn names_among(
    names: &[(Id, Id)],
    cells: &[(Id, Cell)],
    first: &IdSet,
    second: &IdSet,
) -> IdSet
    requires { All (λ c. name_in names.now c.0 < 2048) cells.now }
    ensures { (n : ℕ) → has_id result n ≡ list_any (is_named names.now first.now second.now n) cells.now }
{
    let mut set = IdSet::new();
    for (id, _cell) in cells {
        let wanted = is_in_one(first, second, *id);
        put_if(&mut set, wanted, name_of(names, *id));
    }
    set
}

/// Adds the pairs of each id of one set with each of another that may stand, unless null is written.
pub(crate) fn put_met<P: Pairs>(
    cells: &[(Id, Cell)],
    null: bool,
    ids: &IdSet,
    others: &IdSet,
    pairs: &mut P,
) -> Result<(), AllocError>
    requires { AreIdsRising 0 cells.now }
    ensures { OnOk result (Gains cells.now (λ c d. (null ≡ false) × ((has_id ids.now c ≡ true) × (has_id others.now d ≡ true)))
        (P.pairs pairs.old) (P.pairs pairs.new)) }
{
    if !null {
        put_between(cells, ids, others, pairs)?;
    }
    Ok(())
}
