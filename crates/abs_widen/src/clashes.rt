//! Pairs that would become known, two of them for one object.
ghost use Rattle.std.specs.Prelude.{◌≡◌};
ghost use Rattle.std.specs.List.{list_any};
ghost use Rattle.abs_cells.specs.PairLists.{is_same};
ghost use Rattle.abs_cells.specs.Sound.{IsWellFormed};
ghost use Rattle.abs_widen.specs.Rows.{row_of, gives_known};
ghost use Rattle.abs_widen.specs.Widening.{is_known_pair, clashes_with, clashes};

use crate::rows::{fields_in, length_in};
use abs_cells::{AbsState, Cell, Id, Pairs};
use abs_reach::cell_of;

/// Whether two cells become one whose class or kind is known.
fn gives_known(cell: &Cell, other: &Cell) -> bool
    ensures { result ≡ gives_known (row_of cell.now other.now) }
{
    match cell {
        Cell::Obj(class, _) => fields_in(*class, other).is_some(),
        Cell::Nums(kind, _) => length_in(*kind, other).is_some(),
        Cell::Int(_) | Cell::Null | Cell::Refs(_, _, _) | Cell::Unk(_, _, _) => false,
    }
}

/// Whether the cells of a pair would become one that is known.
fn is_known_pair<P: Pairs>(a: &AbsState<P>, b: &AbsState<P>, pair: (Id, Id)) -> bool
    requires first { IsWellFormed a.now }
    requires second { IsWellFormed b.now }
    ensures { result ≡ is_known_pair a.now b.now pair }
{
    let Some(cell) = cell_of(a.cells(), pair.0) else {
        return false;
    };
    let Some(other) = cell_of(b.cells(), pair.1) else {
        return false;
    };
    gives_known(cell, other)
}

/// Whether two pairs are one.
fn is_same(pair: (Id, Id), other: (Id, Id)) -> bool
    ensures { result ≡ is_same pair other }
{
    pair.0 == other.0 && pair.1 == other.1
}

/// Whether another pair that would be known has an id in common with a pair.
fn clashes_with<P: Pairs>(a: &AbsState<P>, b: &AbsState<P>, pair: (Id, Id), other: (Id, Id)) -> bool
    requires first { IsWellFormed a.now }
    requires second { IsWellFormed b.now }
    ensures { result ≡ clashes_with a.now b.now pair other }
{
    if is_same(pair, other) || (pair.0 != other.0 && pair.1 != other.1) {
        return false;
    }
    is_known_pair(a, b, other)
}

/// Whether one of the pairs does.
fn some_clashes<P: Pairs>(
    a: &AbsState<P>,
    b: &AbsState<P>,
    pairs: &[(Id, Id)],
    pair: (Id, Id),
) -> bool
    requires first { IsWellFormed a.now }
    requires second { IsWellFormed b.now }
    ensures { result ≡ list_any (clashes_with a.now b.now pair) pairs.now }
{
    for other in pairs {
        if clashes_with(a, b, pair, *other) {
            return true;
        }
    }
    false
}

/// Whether a pair would be known, and another one for an object that may be the same.
pub(crate) fn clashes<P: Pairs>(
    a: &AbsState<P>,
    b: &AbsState<P>,
    pairs: &[(Id, Id)],
    pair: (Id, Id),
) -> bool
    requires first { IsWellFormed a.now }
    requires second { IsWellFormed b.now }
    ensures { result ≡ clashes a.now b.now pairs.now pair }
{
    is_known_pair(a, b, pair) && some_clashes(a, b, pairs, pair)
}
