//! What stands beside a cell in another one.
ghost use Rattle.std.specs.Prelude.{◌≡◌, ◌++◌, ◌∷◌, MatchOption, None, Some, OnOk, zip};
ghost use Rattle.std.specs.Option.{option_map_or};
ghost use Rattle.abs_widen.specs.Rows.{instances, numbers, arrays, unlike, interval_in, fields_in, length_in, array_in, row_of, pairs_of};

use abs_cells::{Cell, Id, Ids};
use jvm_values::{Kind, Ty};
use lin_core::Interval;
use list_views::Stack;
use std::alloc::AllocError;

/// Pairs that are still to be visited, the next one on top.
pub(crate) type Todo = Stack<(Id, Id)>;

/// An int's interval.
pub(crate) fn interval_in(cell: &Cell) -> Option<Interval>
    ensures { result ≡ interval_in cell.now }
{
    match cell {
        Cell::Int(interval) => Some(*interval),
        Cell::Null
        | Cell::Obj(_, _)
        | Cell::Nums(_, _)
        | Cell::Refs(_, _, _)
        | Cell::Unk(_, _, _) => None,
    }
}

/// The ids of an instance of a class.
pub(crate) fn fields_in(class: u32, cell: &Cell) -> Option<&Ids>
    ensures { MatchOption result (fields_in class cell.now ≡ None) (λ ids. fields_in class cell.now ≡ Some ids.now) }
{
    match cell {
        Cell::Obj(other, ids) => { if class == *other { Some(ids) } else { None } }
        Cell::Int(_) | Cell::Null | Cell::Nums(_, _) | Cell::Refs(_, _, _) | Cell::Unk(_, _, _) =>
            None,
    }
}

/// The length's id of an array of numbers of a kind.
pub(crate) fn length_in(kind: Kind, cell: &Cell) -> Option<Id>
    ensures { result ≡ length_in kind cell.now }
{
    match cell {
        Cell::Nums(other, len) => {
            if kind.code() == other.code() {
                Some(*len)
            } else {
                None
            }
        }
        Cell::Int(_) | Cell::Null | Cell::Obj(_, _) | Cell::Refs(_, _, _) | Cell::Unk(_, _, _) =>
            None,
    }
}

/// The element type and the length's id of an array of references.
pub(crate) fn array_in(cell: &Cell) -> Option<(Ty, Id)>
    ensures { result ≡ array_in cell.now }
{
    match cell {
        Cell::Refs(element, len, _) => Some((*element, *len)),
        Cell::Int(_) | Cell::Null | Cell::Obj(_, _) | Cell::Nums(_, _) | Cell::Unk(_, _, _) => None,
    }
}

/// Adds the pairs of two lists of ids, the first of them on top.
fn push_zipped(todo: &mut Todo, ids: &[Id], more: &[Id]) -> Result<(), AllocError>
    ensures { OnOk result (todo.new.0 ≡ zip ids.now more.now ++ todo.old.0) }
{
    let mut n = ids.len().min(more.len());
    while n > 0 {
        n -= 1;
        todo.push((ids[n], more[n]))?;
    }
    Ok(())
}

/// Adds one pair.
pub(crate) fn push_pair(todo: &mut Todo, id: Id, other: Id) -> Result<(), AllocError>
    ensures { OnOk result (todo.new.0 ≡ (id, other) ∷ todo.old.0) }
{
    todo.push((id, other))?;
    Ok(())
}

/// Adds the pairs of the fields of two instances of one class.
fn push_fields(todo: &mut Todo, class: u32, ids: &Ids, other: &Cell) -> Result<(), AllocError>
    ensures { OnOk result
        (todo.new.0 ≡ pairs_of (option_map_or (λ more. instances class ids.now more) (fields_in class other.now) unlike) ++ todo.old.0) }
{
    let Some(more) = fields_in(class, other) else {
        return Ok(());
    };
    push_zipped(todo, ids.as_slice(), more.as_slice())
}

/// Adds the pair of the lengths of two arrays of numbers of one kind.
fn push_length(todo: &mut Todo, kind: Kind, len: Id, other: &Cell) -> Result<(), AllocError>
    ensures { OnOk result (todo.new.0 ≡ pairs_of (option_map_or (λ more. numbers kind len more) (length_in kind other.now) unlike)
        ++ todo.old.0) }
{
    let Some(more) = length_in(kind, other) else {
        return Ok(());
    };
    push_pair(todo, len, more)
}

/// Adds the pair of the lengths of two arrays of references.
fn push_array(todo: &mut Todo, element: Ty, len: Id, other: &Cell) -> Result<(), AllocError>
    ensures { OnOk result
        (todo.new.0 ≡ pairs_of (option_map_or (λ array. arrays element array.0 len array.1) (array_in other.now) unlike) ++ todo.old.0) }
{
    let Some((_item, more)) = array_in(other) else {
        return Ok(());
    };
    push_pair(todo, len, more)
}

/// Adds the pairs of ids that two cells name, the first of them on top.
pub(crate) fn push_named(todo: &mut Todo, cell: &Cell, other: &Cell) -> Result<(), AllocError>
    ensures { OnOk result (todo.new.0 ≡ pairs_of (row_of cell.now other.now) ++ todo.old.0) }
{
    match cell {
        Cell::Obj(class, ids) => push_fields(todo, *class, ids, other),
        Cell::Nums(kind, len) => push_length(todo, *kind, *len, other),
        Cell::Refs(element, len, _) => push_array(todo, *element, *len, other),
        Cell::Int(_) | Cell::Null | Cell::Unk(_, _, _) => Ok(()),
    }
}
