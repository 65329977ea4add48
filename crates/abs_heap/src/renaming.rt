//! New numbers for the ids whose regions a write may change.
ghost use Rattle.std.specs.Prelude.{◌≡◌, ◌↔◌, ◌<◌, ◌≤◌, ◌++◌, ◌&&◌, ℕ, true, IfOk, OnOk, All, length, zip};
ghost use Rattle.abs_cells.specs.Cells.{is_hazy, is_of_sort, cell_in, HasCell};
ghost use Rattle.abs_cells.specs.IdSets.{has_id};
ghost use Rattle.abs_cells.specs.Sound.{AreIdsRising, IsWellFormed};
ghost use Rattle.abs_cells.specs.Limits.{most_ids};
ghost use Rattle.abs_heap.specs.Names.{name_in};
ghost use Rattle.abs_heap.specs.inner.Renaming.{ids_among, if_in, AreNamesOf};
ghost use Rattle.abs_heap.specs.Writing.{is_array_of_references, IsAffected};

use crate::compatible::put_if;
use crate::fresh::fresh_ids;
use crate::gaining::partners;
use abs_cells::{AbsState, Cell, Id, IdSet, Pairs};
use abs_reach::cell_of;
use list_views::Seq;
use std::alloc::{AllocError, AllocFailed, Global};

/// Whether an id has the cell of an array of references.
fn is_array_in(cells: &[(Id, Cell)], id: Id) -> bool
    requires { AreIdsRising 0 cells.now }
    ensures { result ≡ is_of_sort is_array_of_references (cell_in cells.now id) }
{
    match cell_of(cells, id) {
        Some(cell) => matches!(cell, Cell::Refs(_, _, _)),
        None => false,
    }
}

/// Whether an id is in a set, and its cell is hazy.
fn is_hazy_in(set: &IdSet, id: Id, cell: &Cell) -> bool
    ensures { result ≡ (has_id set.now id && is_hazy cell.now) }
{
    set.has(id) && cell.is_hazy()
}

/// The ids of a set whose cells are hazy.
fn hazy_ids(cells: &[(Id, Cell)], set: &IdSet) -> IdSet
    requires { AreIdsRising 0 cells.now }
    ensures { (n : ℕ) → has_id result n ≡ (has_id set.now n && is_of_sort is_hazy (cell_in cells.now n)) }
{
    let mut ids = IdSet::new();
    for (id, cell) in cells {
        let wanted = is_hazy_in(set, *id, cell);
        put_if(&mut ids, wanted, *id);
    }
    ids
}

/// The ids whose regions may have the object of `k`: the hazy ones that share with it, and `k` itself if it is an array of
/// references.
pub(crate) fn affected_ids<P: Pairs>(state: &AbsState<P>, k: Id) -> IdSet
    requires good { IsWellFormed state.now }
    requires there { HasCell (λ _. true) state.now k }
    ensures { (n : ℕ) → (has_id result n ≡ true) ↔ IsAffected state.now k n }
{
    let cells = state.cells();
    let mut ids = hazy_ids(cells, &partners(state.share(), k));
    let array = is_array_in(cells, k);
    put_if(&mut ids, array, k);
    ids
}

/// Adds an id at the end of a list if it is in a set.
fn push_in(ids: &mut Seq<Id>, set: &IdSet, id: Id) -> Result<(), AllocError>
    ensures { OnOk result (ids.new ≡ ids.old ++ if_in set.now id) }
{
    if set.has(id) {
        ids.push(id)?;
    }
    Ok(())
}

/// The ids of cells that are in a set, in order.
fn listed_ids(alloc: Global, set: &IdSet, cells: &[(Id, Cell)]) -> Result<Seq<Id>, AllocError>
    ensures { IfOk result (λ ids. ids ≡ ids_among set.now cells.now) }
{
    let mut ids = Seq::new(alloc);
    for (id, _cell) in cells {
        push_in(&mut ids, set, *id)?;
    }
    Ok(ids)
}

/// Each number of a list with that of another one.
fn paired(alloc: Global, olds: &[Id], news: &[Id]) -> Result<Seq<(Id, Id)>, AllocError>
    requires { length olds.now ≡ length news.now }
    ensures { IfOk result (λ names. names ≡ zip olds.now news.now) }
{
    let mut names = Seq::with_capacity(alloc, olds.len())?;
    for (place, old) in olds.iter().enumerate() {
        names.push((*old, news[place]))?;
    }
    Ok(names)
}

/// New numbers for the ids of a set, which have cells: the least ones without a cell.
pub(crate) fn names_for<P: Pairs>(
    alloc: Global,
    state: &AbsState<P>,
    set: &IdSet,
) -> Result<Seq<(Id, Id)>, AllocError>
    requires rising { AreIdsRising 0 state.now.cells }
    requires few { length state.now.cells ≤ most_ids }
    requires there { (x : ℕ) → has_id set.now x ≡ true → HasCell (λ _. true) state.now x }
    ensures names { IfOk result (λ names. AreNamesOf state.now set.now names) }
    ensures low { IfOk result (λ names. All (λ c. name_in names c.0 < 2048) state.now.cells) }
{
    let olds = listed_ids(alloc, set, state.cells())?;
    let news = fresh_ids(alloc, state, olds.len())?;
    paired(alloc, olds.as_slice(), news.as_slice())
}
