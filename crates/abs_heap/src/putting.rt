//! Cells put at their places among others that rise.
ghost use Rattle.std.specs.Prelude.{◌≡◌, ◌↔◌, ◌<◌, ◌∷◌, [], IsTrue, OnOk, map, All};
ghost use Rattle.abs_cells.specs.Sound.{AreIdsRising};
ghost use Rattle.abs_heap.specs.inner.Building.{place_in, IsIdAt, IsOver, named_entry};
ghost use Rattle.abs_heap.specs.Names.{name_in};

use crate::naming::{name_of, named_cell};
use abs_cells::{Cell, Id};
use std::alloc::{AllocError, AllocFailed, Global};

/// How many cells at the front have a lower id.
fn place_of(cells: &[(Id, Cell)], id: Id) -> usize
    ensures { result ≡ place_in id cells.now }
{
    for (place, (other, _cell)) in cells.iter().enumerate() {
        if *other >= id {
            return place;
        }
    }
    cells.len()
}

/// Whether the cell at a place is that of an id.
pub(crate) fn stands_at(cells: &[(Id, Cell)], place: usize, id: Id) -> bool
    ensures { IsTrue result ↔ IsIdAt cells.now place id }
{
    if place >= cells.len() {
        return false;
    }
    let found = cells[place].0;
    found == id
}

/// Puts a cell among cells that rise, unless its id has one there.
pub(crate) fn put_cell(cells: &mut Vec<(Id, Cell)>, id: Id, cell: Cell) -> Result<(), AllocError>
    requires rising { AreIdsRising 0 cells.old.items }
    requires low { id < 2048 }
    ensures { OnOk result (IsOver cells.old.items ((id, cell) ∷ []) cells.new.items) }
{
    let place = place_of(cells, id);
    if !stands_at(cells, place, id) {
        cells.insert(place, (id, cell))?;
    }
    Ok(())
}

/// Puts the cells of a list among others, each under its names, unless its id has one there.
pub(crate) fn put_cells(
    alloc: Global,
    names: &[(Id, Id)],
    more: &[(Id, Cell)],
    cells: &mut Vec<(Id, Cell)>,
) -> Result<(), AllocError>
    requires rising { AreIdsRising 0 cells.old.items }
    requires low { All (λ c. name_in names.now c.0 < 2048) more.now }
    ensures { OnOk result (IsOver cells.old.items (map (named_entry names.now) more.now) cells.new.items) }
{
    for (id, cell) in more {
        let named = named_cell(alloc, names, cell)?;
        put_cell(cells, name_of(names, *id), named)?;
    }
    Ok(())
}
