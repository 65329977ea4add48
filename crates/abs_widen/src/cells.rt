//! The cells of a widening.
ghost use Rattle.std.specs.Prelude.{◌≡◌, ◌≤◌, ℕ, List, map, zip, true, length, None, Some, Ok, IfOk, MatchOption};
ghost use Rattle.jvm_values.specs.declared.types.Ty.{Ty};
ghost use Rattle.jvm_values.specs.Subtyping.{IsReference};
ghost use Rattle.jvm_values.specs.TypedHeaps.{world_types};
ghost use Rattle.abs_cells.specs.Cells.{type_of_cell, cell_at, HasCell};
ghost use Rattle.abs_cells.specs.Sound.{IsWellFormed};
ghost use Rattle.lin_core.specs.declared.intervals.Interval.{Interval};
ghost use Rattle.abs_cells.specs.declared.cells.Cell.TheVariants.{Obj, Nums};
ghost use Rattle.abs_cells.specs.Limits.{most_ids};
ghost use Rattle.abs_widen.specs.Rows.{fields_in, length_in, interval_in, array_in};
ghost use Rattle.abs_widen.specs.Widening.{number_of, IsTypeOver, IsHazed, IsWidenedInt, IsMergedArray};

use crate::ints::widened;
use crate::numbers::{number_of, numbers_of};
use crate::rows::{array_in, fields_in, interval_in, length_in};
use crate::shapes::worse_shape;
use abs_cells::{AbsState, Cell, Id, Ids, Pairs};
use abs_reach::Marks;
use jvm_values::{Kind, Ty, Types, array_of, array_of_numbers, class_type, join};
use lin_core::Interval;
use std::alloc::{AllocError, Global};

/// The type that a cell tells of its object, which is a reference type.
fn type_of(cell: &Cell) -> Option<Ty>
    requires { (t : Ty) → type_of_cell cell.now ≡ Some t → t.dims ≤ 255 }
    ensures { result ≡ type_of_cell cell.now }
{
    match cell {
        Cell::Obj(class, _) => Some(class_type(*class)),
        Cell::Nums(kind, _) => Some(array_of_numbers(*kind)),
        Cell::Refs(element, _, _) => Some(array_of(*element)),
        Cell::Unk(bound, _, _) => Some(*bound),
        Cell::Int(_) | Cell::Null => None,
    }
}

/// The join of the types that two cells tell; of one type alone where the other cell is null.
fn type_over<T: Types>(types: &T, cell: &Cell, other: &Cell) -> Option<Ty>
    requires left { (t : Ty) → type_of_cell cell.now ≡ Some t → IsReference (T.classes types.now) t }
    requires right { (t : Ty) → type_of_cell other.now ≡ Some t → IsReference (T.classes types.now) t }
    ensures { MatchOption result ((type_of_cell cell.now ≡ None) × (type_of_cell other.now ≡ None))
        (λ bound. IsTypeOver (world_types (T.sub types.now) (T.erase types.now) (T.classes types.now) (T.fields types.now)
        (T.can_be_made types.now)) (type_of_cell cell.now) (type_of_cell other.now) bound) }
{
    let Some(left) = type_of(cell) else {
        let right = type_of(other)?;
        return Some(join(types, right, right));
    };
    let Some(right) = type_of(other) else {
        return Some(join(types, left, left));
    };
    Some(join(types, left, right))
}

/// The cell of an object of which the type and the shape are known, and whether it may be null; None where neither cell tells
/// a type.
pub(crate) fn hazed<T: Types, P: Pairs>(
    types: &T,
    a: &AbsState<P>,
    b: &AbsState<P>,
    pair: (Id, Id),
    cell: &Cell,
    other: &Cell,
    marks: &mut Marks,
) -> Option<Cell>
    requires first { IsWellFormed a.now }
    requires second { IsWellFormed b.now }
    requires there { cell_at a.now pair.0 ≡ Some cell.now }
    requires beside { cell_at b.now pair.1 ≡ Some other.now }
    requires left { (t : Ty) → type_of_cell cell.now ≡ Some t → IsReference (T.classes types.now) t }
    requires right { (t : Ty) → type_of_cell other.now ≡ Some t → IsReference (T.classes types.now) t }
    ensures { MatchOption result ((type_of_cell cell.now ≡ None) × (type_of_cell other.now ≡ None))
        (λ merged. IsHazed (world_types (T.sub types.now) (T.erase types.now) (T.classes types.now) (T.fields types.now)
        (T.can_be_made types.now)) a.now b.now pair cell.now other.now merged) }
{
    let Some(bound) = type_over(types, cell, other) else {
        return None;
    };
    let shape = worse_shape(a, b, pair, marks);
    let nullable = cell.can_be_null() || other.can_be_null();
    Some(Cell::Unk(bound, nullable, shape))
}

/// The cell of two instances of one class, or None where the other cell is no such instance.
pub(crate) fn instance_cell(
    alloc: Global,
    pairs: &[(Id, Id)],
    class: u32,
    ids: &Ids,
    other: &Cell,
) -> Result<Option<Cell>, AllocError>
    requires few { length pairs.now ≤ most_ids }
    requires long { (more : List ℕ) → fields_in class other.now ≡ Some more → length ids.now ≡ length more }
    ensures { IfOk result
        (λ found. MatchOption found (fields_in class other.now ≡ None)
        (λ cell. (more : List ℕ)
        × ((fields_in class other.now ≡ Some more) × (cell ≡ Obj class (map (number_of pairs.now) (zip ids.now more)))))) }
{
    let Some(more) = fields_in(class, other) else {
        return Ok(None);
    };
    let numbers = numbers_of(alloc, pairs, ids.as_slice(), more.as_slice())?;
    Ok(Some(Cell::Obj(class, Ids::from_slice(alloc, &numbers)?)))
}

/// The cell of two arrays of numbers of one kind, or None where the other cell is no such array.
pub(crate) fn numbers_cell(pairs: &[(Id, Id)], kind: Kind, len: Id, other: &Cell) -> Option<Cell>
    requires few { length pairs.now ≤ most_ids }
    ensures { MatchOption result (length_in kind other.now ≡ None)
        (λ cell. (more : ℕ) × ((length_in kind other.now ≡ Some more) × (cell ≡ Nums kind (number_of pairs.now (len, more))))) }
{
    let Some(more) = length_in(kind, other) else {
        return None;
    };
    Some(Cell::Nums(kind, number_of(pairs, (len, more))))
}

/// The cell of two ints, or None where the other cell is no int's.
pub(crate) fn int_cell(interval: Interval, other: &Cell) -> Option<Cell>
    ensures { MatchOption result (interval_in other.now ≡ None)
        (λ cell. (j : Interval) × ((interval_in other.now ≡ Some j) × IsWidenedInt interval j cell)) }
{
    let Some(beside) = interval_in(other) else {
        return None;
    };
    let Some(wide) = widened(interval, beside) else {
        return None;
    };
    Some(Cell::Int(wide))
}

/// The cell of two arrays of references, or None where the other cell is no such array.
pub(crate) fn array_cell<T: Types, P: Pairs>(
    types: &T,
    a: &AbsState<P>,
    b: &AbsState<P>,
    pairs: &[(Id, Id)],
    pair: (Id, Id),
    element: Ty,
    len: Id,
    other: &Cell,
    marks: &mut Marks,
) -> Option<Cell>
    requires first { IsWellFormed a.now }
    requires second { IsWellFormed b.now }
    requires few { length pairs.now ≤ most_ids }
    requires there { HasCell (λ _. true) a.now pair.0 }
    requires beside { HasCell (λ _. true) b.now pair.1 }
    requires left { IsReference (T.classes types.now) element }
    requires right { (item : Ty) (more : ℕ) → array_in other.now ≡ Some (item, more) → IsReference (T.classes types.now) item }
    ensures { MatchOption result (array_in other.now ≡ None)
        (λ cell. (item : Ty) × ((more : ℕ)
        × ((array_in other.now ≡ Some (item, more))
        × IsMergedArray (world_types (T.sub types.now) (T.erase types.now) (T.classes types.now) (T.fields types.now)
        (T.can_be_made types.now)) a.now b.now pairs.now pair element item (len, more) cell))) }
{
    let (item, more) = array_in(other)?;
    let shape = worse_shape(a, b, pair, marks);
    Some(Cell::Refs(
        join(types, element, item),
        number_of(pairs, (len, more)),
        shape,
    ))
}
