//! Which cells may describe one object.
ghost use Rattle.std.specs.Prelude.{◌≡◌, ◌&&◌, ◌||◌, ◌==◌, ◌<◌, ℕ, true, OnOk, Some, MatchOption};
ghost use Rattle.jvm_values.specs.Subtyping.{array_of};
ghost use Rattle.abs_cells.specs.Cells.{type_of_cell, are_compatible, are_compatible_types, is_of_sort, cell_in};
ghost use Rattle.abs_cells.specs.IdSets.{has_id};
ghost use Rattle.abs_cells.specs.Sound.{AreIdsRising};
ghost use Rattle.abs_heap.specs.inner.Building.{Gains, IsUntold, may_be_one};
ghost use Rattle.abs_heap.specs.inner.Splitting.{WantsOne};

use crate::gaining::put_with;
use abs_cells::{Cell, Id, IdSet, Pairs};
use abs_reach::cell_of;
use jvm_values::{Ty, Types, array_of_numbers, class_type};
use std::alloc::AllocError;

/// The type of the arrays of a type, where it has at most 255 dimensions.
fn array_of(element: Ty) -> Option<Ty>
    ensures { MatchOption result (255 < (array_of element).dims) (λ t. t ≡ array_of element) }
{
    if element.dims == 255 {
        return None;
    }
    Some(Ty {
        dims: element.dims + 1,
        base: element.base,
    })
}

/// The type that a cell tells of its object, if it tells one of at most 255 dimensions.
pub(crate) fn told_type(cell: &Cell) -> Option<Ty>
    ensures { MatchOption result (IsUntold (type_of_cell cell.now)) (λ t. type_of_cell cell.now ≡ Some t) }
{
    match cell {
        Cell::Int(_) | Cell::Null => None,
        Cell::Obj(class, _) => Some(class_type(*class)),
        Cell::Nums(kind, _) => Some(array_of_numbers(*kind)),
        Cell::Refs(element, _, _) => array_of(*element),
        Cell::Unk(bound, _, _) => Some(*bound),
    }
}

/// Whether two cells of these types may describe one object, where it is said which of them are known exactly.
fn are_compatible_types<T: Types>(types: &T, known: bool, other_known: bool, a: Ty, b: Ty) -> bool
    ensures { result ≡ are_compatible_types (T.sub types.now) known other_known (Some a) (Some b) }
{
    let below = types.sub(a, b);
    let above = types.sub(b, a);
    (below || above) && ((!known || below) && (!other_known || above))
}

/// Whether a cell may describe the same object as another one, which tells this type.
fn is_compatible_to<T: Types>(types: &T, cell: &Cell, a: Ty, other: &Cell) -> bool
    requires { type_of_cell cell.now ≡ Some a }
    ensures { result ≡ are_compatible (T.sub types.now) cell.now other.now }
{
    match told_type(other) {
        Some(b) => are_compatible_types(types, cell.is_known(), other.is_known(), a, b),
        None => false,
    }
}

/// Whether two cells may describe one object.
pub(crate) fn are_compatible<T: Types>(types: &T, cell: &Cell, other: &Cell) -> bool
    ensures { result ≡ are_compatible (T.sub types.now) cell.now other.now }
{
    match told_type(cell) {
        Some(a) => is_compatible_to(types, cell, a, other),
        None => false,
    }
}

/// Puts a number into a set if it is wanted there.
pub(crate) fn put_if(ids: &mut IdSet, wanted: bool, id: Id)
    requires { id < 2048 }
    ensures { (n : ℕ) → has_id ids.new n ≡ ((wanted && (n == id)) || has_id ids.old n) }
{
    if wanted {
        ids.put(id);
    }
}

/// Whether an id is in a set, and its cell may describe the same object as another one.
fn is_wanted<T: Types>(types: &T, cell: &Cell, others: &IdSet, other: Id, other_cell: &Cell) -> bool
    ensures { result ≡ (has_id others.now other && are_compatible (T.sub types.now) cell.now other_cell.now) }
{
    others.has(other) && are_compatible(types, cell, other_cell)
}

/// The ids of a set whose cells may describe the same object as a cell.
fn compatible_ids<T: Types>(types: &T, cells: &[(Id, Cell)], cell: &Cell, others: &IdSet) -> IdSet
    requires { AreIdsRising 0 cells.now }
    ensures { (n : ℕ) → has_id result n ≡ (has_id others.now n && is_of_sort (are_compatible (T.sub types.now) cell.now)
        (cell_in cells.now n)) }
{
    let mut ids = IdSet::new();
    for (other, other_cell) in cells {
        let wanted = is_wanted(types, cell, others, *other, other_cell);
        put_if(&mut ids, wanted, *other);
    }
    ids
}

/// Adds the pairs of an id with each id of a set that may stand, where the two may be one object.
pub(crate) fn put_compatible<T: Types, P: Pairs>(
    types: &T,
    cells: &[(Id, Cell)],
    id: Id,
    others: &IdSet,
    pairs: &mut P,
) -> Result<(), AllocError>
    requires { AreIdsRising 0 cells.now }
    ensures { OnOk result
        (Gains cells.now (λ c d. (c ≡ id)
        × ((has_id others.now d ≡ true) × (may_be_one (T.sub types.now) (cell_in cells.now id) (cell_in cells.now d) ≡ true)))
        (P.pairs pairs.old) (P.pairs pairs.new)) }
{
    match cell_of(cells, id) {
        Some(cell) => put_with(
            cells,
            id,
            &compatible_ids(types, cells, cell, others),
            pairs,
        ),
        None => Ok(()),
    }
}

/// Adds the pairs of an id with each id of a set that may stand, where the two may be one object, if it is in a set itself.
fn put_compatible_in<T: Types, P: Pairs>(
    types: &T,
    cells: &[(Id, Cell)],
    id: Id,
    ids: &IdSet,
    others: &IdSet,
    pairs: &mut P,
) -> Result<(), AllocError>
    requires { AreIdsRising 0 cells.now }
    ensures { OnOk result (Gains cells.now (λ c d. (c ≡ id) × WantsOne (T.sub types.now) cells.now ids.now others.now c d)
        (P.pairs pairs.old) (P.pairs pairs.new)) }
{
    if ids.has(id) {
        put_compatible(types, cells, id, others, pairs)?;
    }
    Ok(())
}

/// Adds the pairs of each id of one set with each of another that may stand, where the two may be one object.
pub(crate) fn put_compatible_between<T: Types, P: Pairs>(
    types: &T,
    cells: &[(Id, Cell)],
    ids: &IdSet,
    others: &IdSet,
    pairs: &mut P,
) -> Result<(), AllocError>
    requires { AreIdsRising 0 cells.now }
    ensures { OnOk result (Gains cells.now (WantsOne (T.sub types.now) cells.now ids.now others.now) (P.pairs pairs.old)
        (P.pairs pairs.new)) }
{
    for (id, _cell) in cells {
        put_compatible_in(types, cells, *id, ids, others, pairs)?;
    }
    Ok(())
}
