//! The cell of an id, and where a step from it leads.
ghost use Rattle.std.specs.Prelude.{◌≡◌, ◌+◌, ◌^◌, ◌<◌, true, IsTrue, ◌↔◌, None, Some, IfSome, MatchOption, slice_get};
ghost use Rattle.abs_cells.specs.Cells.{cell_in, ids_of, ids_in, is_of_sort, is_reference, HasCell};
ghost use Rattle.abs_cells.specs.Sound.{AreIdsRising, IsWellFormed};
ghost use Rattle.abs_reach.specs.Keys.{AreKeysRising, IsKeyAt, IsNoKey};
ghost use Rattle.abs_reach.specs.inner.Steps.{names_by, steps_in};

use abs_cells::{AbsState, Cell, Id, Pairs};

/// To which ids of cells a walk goes on.
#[derive(Clone, Copy)]
pub(crate) enum Names {
    /// Those that known cells name.
    Known,
    /// Those that cells name, the lengths of arrays of references too.
    All,
}

/// The place of an id among pairs whose keys rise, if it is one of the keys. It takes as many steps as the count of pairs has
/// digits.
pub fn place_of<X>(pairs: &[(Id, X)], id: Id) -> Option<usize>
    requires { AreKeysRising 0 pairs.now }
    ensures { MatchOption result (IsNoKey pairs.now id) (IsKeyAt pairs.now id) }
{
    let mut low = 0;
    let mut high = pairs.len();
    while low < high {
        let middle = low + (high - low) / 2;
        let found = pairs[middle].0;
        if found == id {
            return Some(middle);
        }
        if found < id {
            low = middle + 1;
        } else {
            high = middle;
        }
    }
    None
}

/// The cell of an id among cells that rise, if it has one. It takes as many steps as the count of cells has digits.
pub fn cell_of(cells: &[(Id, Cell)], id: Id) -> Option<&Cell>
    requires { AreIdsRising 0 cells.now }
    ensures { MatchOption result (cell_in cells.now id ≡ None) (λ cell. cell_in cells.now id ≡ Some cell.now) }
{
    match place_of(cells, id) {
        Some(place) => Some(&cells[place].1),
        None => None,
    }
}

/// Whether an id has one of some cells.
fn is_there(cells: &[(Id, Cell)], id: Id) -> bool
    requires { AreIdsRising 0 cells.now }
    ensures { result ≡ is_of_sort (λ _. true) (cell_in cells.now id) }
{
    match cell_of(cells, id) {
        Some(_cell) => true,
        None => false,
    }
}

/// Whether an id has a cell.
pub fn has_cell<P: Pairs>(state: &AbsState<P>, id: Id) -> bool
    requires { IsWellFormed state.now }
    ensures { IsTrue result ↔ HasCell (λ _. true) state.now id }
{
    is_there(state.cells(), id)
}

/// Whether an id's cell, among cells that rise, is that of a reference that is not null.
pub fn is_reference_in(cells: &[(Id, Cell)], id: Id) -> bool
    requires { AreIdsRising 0 cells.now }
    ensures { result ≡ is_of_sort is_reference (cell_in cells.now id) }
{
    match cell_of(cells, id) {
        Some(cell) => cell.is_reference(),
        None => false,
    }
}

/// Whether an id's cell is that of a reference that is not null.
pub fn has_reference<P: Pairs>(state: &AbsState<P>, id: Id) -> bool
    requires { AreIdsRising 0 state.now.cells }
    ensures { IsTrue result ↔ HasCell is_reference state.now id }
{
    match cell_of(state.cells(), id) {
        Some(cell) => cell.is_reference(),
        None => false,
    }
}

/// The id at a place of a list.
fn item_at(ids: &[Id], place: usize) -> Option<Id>
    ensures item { result ≡ slice_get ids.now place }
    ensures next { IfSome result (λ _. place + 1 < 2 ^ 64) }
{
    if place < ids.len() {
        Some(ids[place])
    } else {
        None
    }
}

/// The id at a place of those that a known cell names.
fn known_name(cell: &Cell, place: usize) -> Option<Id>
    ensures item { result ≡ slice_get (ids_of cell.now) place }
    ensures next { IfSome result (λ _. place + 1 < 2 ^ 64) }
{
    match cell {
        Cell::Obj(_, ids) => item_at(ids.as_slice(), place),
        Cell::Nums(_, len) => item_at(&[*len], place),
        Cell::Int(_) | Cell::Null | Cell::Refs(_, _, _) | Cell::Unk(_, _, _) => None,
    }
}

/// The id at a place of those that a cell names.
fn any_name(cell: &Cell, place: usize) -> Option<Id>
    ensures item { result ≡ slice_get (ids_in cell.now) place }
    ensures next { IfSome result (λ _. place + 1 < 2 ^ 64) }
{
    match cell {
        Cell::Obj(_, ids) => item_at(ids.as_slice(), place),
        Cell::Nums(_, len) => item_at(&[*len], place),
        Cell::Refs(_, len, _) => item_at(&[*len], place),
        Cell::Int(_) | Cell::Null | Cell::Unk(_, _, _) => None,
    }
}

/// The id at a place of those of a cell to which a walk goes on.
fn named(cell: &Cell, names: Names, place: usize) -> Option<Id>
    ensures item { result ≡ slice_get (names_by names cell.now) place }
    ensures next { IfSome result (λ _. place + 1 < 2 ^ 64) }
{
    match names {
        Names::Known => known_name(cell, place),
        Names::All => any_name(cell, place),
    }
}

/// The id to which a step leads from an id, if it leads anywhere.
pub(crate) fn step(cells: &[(Id, Cell)], names: Names, id: Id, place: usize) -> Option<Id>
    requires { AreIdsRising 0 cells.now }
    ensures leads { result ≡ steps_in names cells.now id place }
    ensures next { IfSome result (λ _. place + 1 < 2 ^ 64) }
{
    match cell_of(cells, id) {
        Some(cell) => named(cell, names, place),
        None => None,
    }
}
