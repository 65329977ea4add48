//! The map by which a state is an instance of another one, if there is one.
ghost use Rattle.std.specs.Prelude.{◌≡◌, ◌+◌, ◌<◌, ℕ, suc, List, [], ◌∷◌, true, false, map, length, slice_set, IfOk, MatchBool};
ghost use Rattle.std.specs.Prelude.{MatchOption};
ghost use Rattle.abs_cells.specs.IdSets.{has_id};
ghost use Rattle.abs_cells.specs.Cells.{HasCell};
ghost use Rattle.abs_cells.specs.Sound.{AreIdsRising, IsWellFormed};
ghost use Rattle.abs_reach.specs.Reached.{IsReached};
ghost use Rattle.abs_reach.specs.inner.Turns.{still};
ghost use Rattle.abs_reach.specs.Instances.{InstanceOf};
ghost use Rattle.abs_match.specs.inner.Forced.{IsSearching, NoneMatches, IsOnlyMatch, names_count};

use crate::forced::{Todo, put_named, put_positions};
use crate::matching::instance;
use abs_cells::{AbsState, Cell, Id, IdSet, Pairs, ids_rise};
use abs_reach::{Marks, cell_of, place_of};
use jvm_values::Types;
use list_views::Stack;
use std::alloc::{AllocError, Global};

/// The ids of cells, each with itself as its image.
fn unnoted(alloc: Global, cells: &[(Id, Cell)]) -> Result<Vec<(Id, Id)>, AllocError>
    ensures { IfOk result (λ entries. map (λ entry. entry.0) entries.items ≡ map (λ c. c.0) cells.now) }
{
    let mut entries = Vec::with_capacity(alloc, cells.len())?;
    for (id, _cell) in cells {
        entries.push((*id, *id))?;
    }
    Ok(entries)
}

/// Notes the image of an id, whose entry has a place.
fn note(entries: &mut Vec<(Id, Id)>, place: usize, id: Id, image: Id)
    requires { place < length entries.old.items }
    ensures { entries.new.items ≡ slice_set entries.old.items place (id, image) }
{
    entries[place] = (id, image);
}

/// Notes the image of an id that was not met, and adds the pairs that its cell gives; false if no map matches.
fn visit<P: Pairs>(
    state: &AbsState<P>,
    target: &AbsState<P>,
    met: &mut IdSet,
    entries: &mut Vec<(Id, Id)>,
    todo: &mut Todo,
    id: Id,
    image: Id,
) -> Result<bool, AllocError>
    requires good { IsWellFormed state.now }
    requires rising { AreIdsRising 0 target.now.cells }
    requires searching { IsSearching state.now target.now met.old entries.old.items ((id, image) ∷ todo.old.0) }
    requires fresh { has_id met.old id ≡ false }
    ensures { IfOk result
        (λ done. MatchBool done (IsSearching state.now target.now met.new entries.new.items todo.new.0
        × (length todo.new.0 + still names_count target.now.cells met.new < suc (length todo.old.0) + still names_count
        target.now.cells met.old)) (NoneMatches state.now target.now)) }
{
    let Some(cell) = cell_of(target.cells(), id) else {
        return Ok(false);
    };
    let Some(place) = place_of(entries, id) else {
        return Ok(false);
    };
    let Some(below) = cell_of(state.cells(), image) else {
        return Ok(false);
    };
    note(entries, place, id, image);
    met.put(id);
    put_named(todo, cell, below)
}

/// Takes a pair; false if no map matches.
fn take_pair<P: Pairs>(
    state: &AbsState<P>,
    target: &AbsState<P>,
    met: &mut IdSet,
    entries: &mut Vec<(Id, Id)>,
    todo: &mut Todo,
    id: Id,
    image: Id,
) -> Result<bool, AllocError>
    requires good { IsWellFormed state.now }
    requires rising { AreIdsRising 0 target.now.cells }
    requires searching { IsSearching state.now target.now met.old entries.old.items ((id, image) ∷ todo.old.0) }
    ensures { IfOk result
        (λ done. MatchBool done (IsSearching state.now target.now met.new entries.new.items todo.new.0
        × (length todo.new.0 + still names_count target.now.cells met.new < suc (length todo.old.0) + still names_count
        target.now.cells met.old)) (NoneMatches state.now target.now)) }
{
    if met.has(id) {
        return Ok(true);
    }
    visit(state, target, met, entries, todo, id, image)
}

/// Takes all pairs, and those that they give; false if no map matches.
fn take_all<P: Pairs>(
    state: &AbsState<P>,
    target: &AbsState<P>,
    met: &mut IdSet,
    entries: &mut Vec<(Id, Id)>,
    todo: &mut Todo,
) -> Result<bool, AllocError>
    requires good { IsWellFormed state.now }
    requires rising { AreIdsRising 0 target.now.cells }
    requires searching { IsSearching state.now target.now met.old entries.old.items todo.old.0 }
    ensures { IfOk result (λ done. MatchBool done (IsSearching state.now target.now met.new entries.new.items [])
        (NoneMatches state.now target.now)) }
{
    while let Some((id, image)) = todo.pop() {
        if !take_pair(state, target, met, entries, todo, id, image)? {
            return Ok(false);
        }
    }
    Ok(true)
}

/// The one map that may match, or None where no map does.
fn only_match<P: Pairs>(
    alloc: Global,
    state: &AbsState<P>,
    target: &AbsState<P>,
) -> Result<Option<Vec<(Id, Id)>>, AllocError>
    requires good { IsWellFormed state.now }
    requires reached { (id : ℕ) → HasCell (λ _. true) target.now id → IsReached target.now id }
    ensures { IfOk result
        (λ found. MatchOption found (NoneMatches state.now target.now) (λ map. IsOnlyMatch state.now target.now map.items)) }
{
    if !ids_rise(target.cells()) {
        return Ok(None);
    }
    let mut entries = unnoted(alloc, target.cells())?;
    let mut met = IdSet::new();
    let mut todo = Stack::new(alloc);
    if !put_positions(&mut todo, state, target)? {
        return Ok(None);
    }
    if !take_all(state, target, &mut met, &mut entries, &mut todo)? {
        return Ok(None);
    }
    Ok(Some(entries))
}

/// The map by which a well-formed state is an instance of another one, the target, or None where it is none by any map. All
/// ids of the target are reached from its positions, along known cells and to the lengths of arrays of references: so what
/// stands at the positions, and what cells name, leaves one map. It costs as many steps as the target names ids, each with
/// a look-up, and one test of the map; the marks are scratch.
///
/// # Errors
///
/// Want of memory.
pub fn find_map<T: Types, P: Pairs>(
    alloc: Global,
    types: &T,
    a: &AbsState<P>,
    b: &AbsState<P>,
    marks: &mut Marks,
) -> Result<Option<Vec<(Id, Id)>>, AllocError>
    requires good { IsWellFormed a.now }
    requires reached { (id : ℕ) → HasCell (λ _. true) b.now id → IsReached b.now id }
    ensures { IfOk result (λ found. MatchOption found ((entries : List (ℕ × ℕ)) → InstanceOf (T.sub types.now) a.now b.now entries
        → ⊥) (λ map. InstanceOf (T.sub types.now) a.now b.now map.items)) }
{
    let Some(map) = only_match(alloc, a, b)? else {
        return Ok(None);
    };
    match instance(types, a, b, &map, marks) {
        Ok(()) => Ok(Some(map)),
        Err(_fault) => Ok(None),
    }
}
