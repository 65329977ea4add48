//! Whether two cells are the same.
ghost use Rattle.std.specs.Prelude.{◌≡◌, ◌↔◌, IsTrue};
ghost use Rattle.abs_cells.specs.declared.cells.Cell.TheVariants.{Int, Null, Obj, Nums, Refs, Unk};

use abs_cells::lin_core::Interval;
use abs_cells::{Cell, Id, Ids};
use jvm_values::{Kind, Shape, Ty};

/// Whether a cell is that of an int of the interval.
fn is_int(cell: &Cell, interval: Interval) -> bool
    ensures { IsTrue result ↔ (cell.now ≡ Int interval) }
{
    match cell {
        Cell::Int(other) => *other == interval,
        _ => false,
    }
}

/// Whether a cell is `Null`.
fn is_null(cell: &Cell) -> bool
    ensures { IsTrue result ↔ (cell.now ≡ Null) }
{
    matches!(cell, Cell::Null)
}

/// Whether a cell is that of an instance of the class with these ids.
fn is_instance(cell: &Cell, class: u32, ids: &Ids) -> bool
    ensures { IsTrue result ↔ (cell.now ≡ Obj class ids.now) }
{
    match cell {
        Cell::Obj(other, others) => *other == class && others.as_slice() == ids.as_slice(),
        _ => false,
    }
}

/// Whether a cell is that of an array of numbers of the kind, whose length has the id.
fn is_numbers(cell: &Cell, kind: Kind, len: Id) -> bool
    ensures { IsTrue result ↔ (cell.now ≡ Nums kind len) }
{
    match cell {
        Cell::Nums(other, other_len) => *other == kind && *other_len == len,
        _ => false,
    }
}

/// Whether a cell is that of an array of references of the type, whose length has the id and whose region the shape.
fn is_array(cell: &Cell, element: Ty, len: Id, shape: Shape) -> bool
    ensures { IsTrue result ↔ (cell.now ≡ Refs element len shape) }
{
    match cell {
        Cell::Refs(other, other_len, other_shape) => {
            *other == element && *other_len == len && *other_shape == shape
        }
        _ => false,
    }
}

/// Whether a cell is that of an object below the bound, or null where the flag is set, whose region has the shape.
fn is_unknown(cell: &Cell, bound: Ty, nullable: bool, shape: Shape) -> bool
    ensures { IsTrue result ↔ (cell.now ≡ Unk bound nullable shape) }
{
    match cell {
        Cell::Unk(other, other_nullable, other_shape) => {
            *other == bound && *other_nullable == nullable && *other_shape == shape
        }
        _ => false,
    }
}

/// Whether two cells are the same.
fn is_same_cell(a: &Cell, b: &Cell) -> bool
    ensures { IsTrue result ↔ (a.now ≡ b.now) }
{
    match b {
        Cell::Int(interval) => is_int(a, *interval),
        Cell::Null => is_null(a),
        Cell::Obj(class, ids) => is_instance(a, *class, ids),
        Cell::Nums(kind, len) => is_numbers(a, *kind, *len),
        Cell::Refs(element, len, shape) => is_array(a, *element, *len, *shape),
        Cell::Unk(bound, nullable, shape) => is_unknown(a, *bound, *nullable, *shape),
    }
}

/// Whether two ids with their cells are the same.
fn is_same_entry(a: &(Id, Cell), b: &(Id, Cell)) -> bool
    ensures { IsTrue result ↔ (a.now ≡ b.now) }
{
    a.0 == b.0 && is_same_cell(&a.1, &b.1)
}

/// Whether two lists of ids with their cells are the same.

pub(crate) fn are_same_cells(a: &[(Id, Cell)], b: &[(Id, Cell)]) -> bool
    ensures { IsTrue result ↔ (a.now ≡ b.now) }
{
    if a.len() != b.len() {
        return false;
    }
    for n in 0..a.len() {
        if !is_same_entry(&a[n], &b[n]) {
            return false;
        }
    }
    true
}
