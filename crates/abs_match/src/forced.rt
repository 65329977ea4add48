//! The images that every map of ids must give: those of the ids that stand at the same positions, and that cells name in
//! the same places. A pair is an id of the target and its image.
ghost use Rattle.std.specs.Prelude.{◌≡◌, ◌+◌, ◌≤◌, Bool, [], ◌∷◌, OnOk, OnErr, IfOk, MatchBool, MatchOption, length, Some, None};
ghost use Rattle.std.specs.List.{flat_map};
ghost use Rattle.jvm_values.specs.declared.types.Ty.{Ty};
ghost use Rattle.abs_cells.specs.Cells.{ids_in};
ghost use Rattle.abs_cells.specs.Sound.{given_ids, ids_of_frame};
ghost use Rattle.abs_reach.specs.Reached.{positions};
ghost use Rattle.abs_match.specs.inner.Forced.{ArePut, NoneDoes, fields_of, stacked, numbers_length, array_length, place_asks, locals_ask};
ghost use Rattle.abs_match.specs.inner.Forced.{entries_ask, frame_asks, frames_ask, state_asks, fields_ask, cell_asks};

use crate::places::{entry_at, local_at};
use abs_cells::{AbsFrame, AbsState, Cell, Id, Ids, Pairs};
use abs_reach::are_same_heads;
use list_views::Stack;
use std::alloc::AllocError;

/// Pairs that a search has still to look at.
pub(crate) type Todo = Stack<(Id, Id)>;

/// Adds a pair.
fn put(todo: &mut Todo, id: Id, image: Id) -> Result<(), AllocError>
    ensures ok { OnOk result (todo.new.0 ≡ (id, image) ∷ todo.old.0) }
    ensures err { OnErr result (todo.new.0 ≡ todo.old.0) }
{
    todo.push((id, image))?;
    Ok(())
}

/// Adds the pair of two places, where the one of the target has an id; false if the other one has none.
fn put_place(todo: &mut Todo, theirs: Option<Id>, ours: Option<Id>) -> Result<bool, AllocError>
    ensures puts { IfOk result
        (λ done. MatchBool done (ArePut (place_asks theirs ours) (given_ids (theirs ∷ [])) todo.old.0 todo.new.0)
        (NoneDoes (place_asks theirs ours))) }
    ensures few { length todo.new.0 ≤ length todo.old.0 + 1 }
{
    let Some(id) = theirs else {
        return Ok(true);
    };
    let Some(image) = ours else {
        return Ok(false);
    };
    put(todo, id, image)?;
    Ok(true)
}

/// Adds the pairs of local variables.
fn put_locals(
    todo: &mut Todo,
    theirs: &[Option<Id>],
    ours: &[Option<Id>],
) -> Result<bool, AllocError>
    ensures { IfOk result
        (λ done. MatchBool done (ArePut (locals_ask theirs.now ours.now) (given_ids theirs.now) todo.old.0 todo.new.0)
        (NoneDoes (locals_ask theirs.now ours.now))) }
{
    for n in 0..theirs.len() {
        if !put_place(todo, theirs[n], local_at(ours, n))? {
            return Ok(false);
        }
    }
    Ok(true)
}

/// Adds the pairs of the entries of stacks.
fn put_entries(todo: &mut Todo, theirs: &[Id], ours: &[Id]) -> Result<bool, AllocError>
    ensures { IfOk result (λ done. MatchBool done (ArePut (entries_ask theirs.now ours.now) theirs.now todo.old.0 todo.new.0)
        (NoneDoes (entries_ask theirs.now ours.now))) }
{
    for n in 0..theirs.len() {
        if !put_place(todo, Some(theirs[n]), entry_at(ours, n))? {
            return Ok(false);
        }
    }
    Ok(true)
}

/// Adds the pairs of frames that stand at one place.
fn put_frame(todo: &mut Todo, theirs: &AbsFrame, ours: &AbsFrame) -> Result<bool, AllocError>
    ensures { IfOk result
        (λ done. MatchBool done (ArePut (frame_asks theirs.now ours.now) (ids_of_frame theirs.now) todo.old.0 todo.new.0)
        (NoneDoes (frame_asks theirs.now ours.now))) }
{
    if !put_locals(todo, theirs.locals(), ours.locals())? {
        return Ok(false);
    }
    put_entries(todo, theirs.stack(), ours.stack())
}

/// Adds the pairs of all frames, from the bottom up.
fn put_frames(todo: &mut Todo, theirs: &[AbsFrame], ours: &[AbsFrame]) -> Result<bool, AllocError>
    requires { length ours.now ≡ length theirs.now }
    ensures { IfOk result
        (λ done. MatchBool done (ArePut (frames_ask theirs.now ours.now) (flat_map ids_of_frame theirs.now) todo.old.0 todo.new.0)
        (NoneDoes (frames_ask theirs.now ours.now))) }
{
    for f in 0..theirs.len() {
        if !put_frame(todo, &theirs[f], &ours[f])? {
            return Ok(false);
        }
    }
    Ok(true)
}

/// Adds the pairs of all positions, and of the thrown ids; false if no map matches these.
pub(crate) fn put_positions<P: Pairs>(
    todo: &mut Todo,
    state: &AbsState<P>,
    target: &AbsState<P>,
) -> Result<bool, AllocError>
    ensures { (sub : Ty → Ty → Bool)
        → IfOk result (λ done. MatchBool done
        (ArePut (state_asks sub state.now target.now) (positions target.now) todo.old.0 todo.new.0)
        (NoneDoes (state_asks sub state.now target.now))) }
{
    if !are_same_heads(state.frames(), target.frames()) {
        return Ok(false);
    }
    if !put_frames(todo, target.frames(), state.frames())? {
        return Ok(false);
    }
    put_place(todo, target.throwing(), state.throwing())
}

/// Adds the pairs of two lists of ids; false if they are not of one length.
fn put_all(todo: &mut Todo, ids: &[Id], images: &[Id]) -> Result<bool, AllocError>
    ensures { IfOk result
        (λ done. MatchBool done ((length ids.now ≡ length images.now) × (todo.new.0 ≡ stacked ids.now images.now todo.old.0))
        (length ids.now ≡ length images.now → ⊥)) }
{
    if ids.len() != images.len() {
        return Ok(false);
    }
    for n in 0..ids.len() {
        put(todo, ids[n], images[n])?;
    }
    Ok(true)
}

/// The ids of an instance's fields.
fn fields_of(cell: &Cell) -> Option<&Ids>
    ensures { MatchOption result (fields_of cell.now ≡ None) (λ ids. fields_of cell.now ≡ Some ids.now) }
{
    match cell {
        Cell::Obj(_, ids) => Some(ids),
        Cell::Int(_) | Cell::Null | Cell::Nums(_, _) | Cell::Refs(_, _, _) | Cell::Unk(_, _, _) =>
            None,
    }
}

/// Adds the pairs of an instance's fields; false if the other cell is no instance with as many.
fn put_fields(todo: &mut Todo, ids: &[Id], below: &Cell) -> Result<bool, AllocError>
    ensures { IfOk result
        (λ done. MatchBool done (ArePut (fields_ask ids.now below.now) ids.now todo.old.0 todo.new.0
        × (length todo.new.0 ≤ length todo.old.0 + length ids.now)) (NoneDoes (fields_ask ids.now below.now))) }
{
    let Some(images) = fields_of(below) else {
        return Ok(false);
    };
    put_all(todo, ids, images.as_slice())
}

/// The id of the length of an array of numbers.
fn numbers_length(cell: &Cell) -> Option<Id>
    ensures { result ≡ numbers_length cell.now }
{
    match cell {
        Cell::Nums(_, len) => Some(*len),
        Cell::Int(_) | Cell::Null | Cell::Obj(_, _) | Cell::Refs(_, _, _) | Cell::Unk(_, _, _) =>
            None,
    }
}

/// The id of the length of an array of references.
fn array_length(cell: &Cell) -> Option<Id>
    ensures { result ≡ array_length cell.now }
{
    match cell {
        Cell::Refs(_, len, _) => Some(*len),
        Cell::Int(_) | Cell::Null | Cell::Obj(_, _) | Cell::Nums(_, _) | Cell::Unk(_, _, _) => None,
    }
}

/// Adds the pairs that a cell of the target and the one of its image name; false if the cells are of two forms.
pub(crate) fn put_named(todo: &mut Todo, cell: &Cell, below: &Cell) -> Result<bool, AllocError>
    ensures { (sub : Ty → Ty → Bool)
        → IfOk result (λ done. MatchBool done (ArePut (cell_asks sub cell.now below.now) (ids_in cell.now) todo.old.0 todo.new.0
        × (length todo.new.0 ≤ length todo.old.0 + length (ids_in cell.now))) (NoneDoes (cell_asks sub cell.now below.now))) }
{
    match cell {
        Cell::Obj(_class, ids) => put_fields(todo, ids.as_slice(), below),
        Cell::Nums(_kind, len) => put_place(todo, Some(*len), numbers_length(below)),
        Cell::Refs(_element, len, _shape) => put_place(todo, Some(*len), array_length(below)),
        Cell::Int(_) | Cell::Null | Cell::Unk(_, _, _) => Ok(true),
    }
}
