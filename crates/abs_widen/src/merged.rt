//! What the pairs of a widening become.
ghost use Rattle.std.specs.Prelude.{◌≡◌, ◌≤◌, true, false, length, None, Some, IfOk, MatchOption};
ghost use Rattle.abs_cells.specs.declared.cells.Cell.TheVariants.{Null};
ghost use Rattle.std.specs.List.{AllByRecursion};
ghost use Rattle.jvm_values.specs.TypedHeaps.{world_types};
ghost use Rattle.abs_cells.specs.Sound.{IsWellFormed};
ghost use Rattle.abs_cells.specs.Cells.{is_null};
ghost use Rattle.abs_cells.specs.Limits.{most_ids};
ghost use Rattle.abs_widen.specs.Rows.{row_of, unlike};
ghost use Rattle.abs_widen.specs.Widening.{IsRowCell, IsMergedCell, AreMergedCells};
ghost use Rattle.abs_widen.specs.inner.Visiting.{AreCellsOf, ArePairCells};

use crate::cells::{array_cell, hazed, instance_cell, int_cell, numbers_cell};
use crate::clashes::clashes;
use abs_cells::{AbsState, Cell, Id, Pairs};
use abs_reach::{Marks, cell_of};
use jvm_values::Types;
use list_views::Seq;
use std::alloc::{AllocError, Global};

/// The cell of two nulls, or None where the other cell is not null's.
fn null_cell(other: &Cell) -> Option<Cell>
    ensures { MatchOption result (is_null other.now ≡ false) (λ cell. (is_null other.now ≡ true) × (cell ≡ Null)) }
{
    if other.is_null() {
        Some(Cell::Null)
    } else {
        None
    }
}

/// The cell of a pair by the row of its cells, or None where the row gives none.
fn row_cell<T: Types, P: Pairs>(
    alloc: Global,
    types: &T,
    a: &AbsState<P>,
    b: &AbsState<P>,
    pairs: &[(Id, Id)],
    pair: (Id, Id),
    cell: &Cell,
    other: &Cell,
    marks: &mut Marks,
) -> Result<Option<Cell>, AllocError>
    requires first { IsWellFormed a.now }
    requires second { IsWellFormed b.now }
    requires few { length pairs.now ≤ most_ids }
    requires cells { AreCellsOf (world_types (T.sub types.now) (T.erase types.now) (T.classes types.now) (T.fields types.now)
        (T.can_be_made types.now)) a.now b.now pair cell.now other.now }
    ensures { IfOk result
        (λ found. MatchOption found (row_of cell.now other.now ≡ unlike)
        (λ made. IsRowCell (world_types (T.sub types.now) (T.erase types.now) (T.classes types.now) (T.fields types.now)
        (T.can_be_made types.now)) a.now b.now pairs.now pair cell.now other.now (row_of cell.now other.now) made)) }
{
    match cell {
        Cell::Int(interval) => Ok(int_cell(*interval, other)),
        Cell::Null => Ok(null_cell(other)),
        Cell::Obj(class, ids) => instance_cell(alloc, pairs, *class, ids, other),
        Cell::Nums(kind, len) => Ok(numbers_cell(pairs, *kind, *len, other)),
        Cell::Refs(element, len, _) => Ok(array_cell(
            types, a, b, pairs, pair, *element, *len, other, marks,
        )),
        Cell::Unk(_, _, _) => Ok(None),
    }
}

/// What a pair becomes. There is no such cell only where the states are not sound, or an int stands beside a reference.
fn merged_cell<T: Types, P: Pairs>(
    alloc: Global,
    types: &T,
    a: &AbsState<P>,
    b: &AbsState<P>,
    pairs: &[(Id, Id)],
    pair: (Id, Id),
    marks: &mut Marks,
) -> Result<Option<Cell>, AllocError>
    requires first { IsWellFormed a.now }
    requires second { IsWellFormed b.now }
    requires few { length pairs.now ≤ most_ids }
    requires cells { ArePairCells (world_types (T.sub types.now) (T.erase types.now) (T.classes types.now) (T.fields types.now)
        (T.can_be_made types.now)) a.now b.now pair }
    ensures { IfOk result
        (λ found. MatchOption found ⊥
        (λ made. IsMergedCell (world_types (T.sub types.now) (T.erase types.now) (T.classes types.now) (T.fields types.now)
        (T.can_be_made types.now)) a.now b.now pairs.now pair made)) }
{
    let Some(cell) = cell_of(a.cells(), pair.0) else {
        return Ok(None);
    };
    let Some(other) = cell_of(b.cells(), pair.1) else {
        return Ok(None);
    };
    if clashes(a, b, pairs, pair) {
        return Ok(hazed(types, a, b, pair, cell, other, marks));
    }
    let found = row_cell(alloc, types, a, b, pairs, pair, cell, other, marks)?;
    if let Some(made) = found {
        return Ok(Some(made));
    }
    Ok(hazed(types, a, b, pair, cell, other, marks))
}

/// The cells of the pairs, each with its pair's number.
pub(crate) fn merged_cells<T: Types, P: Pairs>(
    alloc: Global,
    types: &T,
    a: &AbsState<P>,
    b: &AbsState<P>,
    pairs: &[(Id, Id)],
    marks: &mut Marks,
) -> Result<Seq<(Id, Cell)>, AllocError>
    requires first { IsWellFormed a.now }
    requires second { IsWellFormed b.now }
    requires few { length pairs.now ≤ most_ids }
    requires cells { AllByRecursion
        (ArePairCells (world_types (T.sub types.now) (T.erase types.now) (T.classes types.now) (T.fields types.now)
        (T.can_be_made types.now)) a.now b.now) pairs.now }
    ensures { IfOk result (λ cells. (length cells ≡ length pairs.now)
        × AreMergedCells (world_types (T.sub types.now) (T.erase types.now) (T.classes types.now) (T.fields types.now)
        (T.can_be_made types.now)) a.now b.now pairs.now cells) }
{
    let mut cells = Vec::with_capacity(alloc, pairs.len())?;
    for n in 0..pairs.len() {
        let found = merged_cell(alloc, types, a, b, pairs, pairs[n], marks)?;
        let Some(cell) = found else {
            return Err(AllocError);
        };
        cells.push((n as Id, cell))?;
    }
    Ok(Seq::from_vec(cells))
}
