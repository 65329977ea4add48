//! Whether a state is well-formed.
ghost use Rattle.std.specs.Prelude.{◌≡◌, ◌<◌, ℕ, ◌↔◌, IsTrue, not, ◌++◌, ◌∷◌, []};
ghost use Rattle.std.specs.List.{list_all, flat_map};
ghost use Rattle.abs_cells.specs.PairLists.{AreAmong};
ghost use Rattle.abs_cells.specs.IdSets.{has_id};
ghost use Rattle.abs_cells.specs.Cells.{cell_in, is_of_sort, sort_test, ids_in};
ghost use Rattle.abs_cells.specs.Sound.{AreIdsRising, given_ids, ids_of_frame, ids_used, MayAllJoin, IsWellFormed};

use crate::cells::{Cell, CellSort};
use crate::ids::Id;
use crate::pairs::Pairs;
use crate::sets::IdSet;
use crate::states::{AbsFrame, AbsState};

/// Whether the ids of cells rise, and are below 2,048.
pub fn ids_rise(cells: &[(Id, Cell)]) -> bool
    ensures { IsTrue result ↔ AreIdsRising 0 cells.now }
{
    let mut low = 0u32;
    for (id, _cell) in cells {
        if u32::from(*id) < low || *id >= 2048 {
            return false;
        }
        low = u32::from(*id) + 1;
    }
    true
}

/// The ids whose cells are of a sort. It takes no memory.
fn ids_of_sort(cells: &[(Id, Cell)], sort: CellSort) -> IdSet
    requires { AreIdsRising 0 cells.now }
    ensures { (n : ℕ) → has_id result n ≡ is_of_sort (sort_test sort) (cell_in cells.now n) }
{
    let mut ids = IdSet::new();
    for (id, cell) in cells {
        if cell.is_of(sort) {
            ids.put(*id);
        }
    }
    ids
}

/// The numbers below 2,048 that are not in a set.
fn outside(set: &IdSet) -> IdSet
    ensures { (n : ℕ) → n < 2048 → has_id result n ≡ not (has_id set.now n) }
{
    let mut others = IdSet::new();
    for id in 0..2048u16 {
        if !set.has(id) {
            others.put(id);
        }
    }
    others
}

/// Whether all of some ids are in a set.
fn has_all(set: &IdSet, ids: &[Id]) -> bool
    ensures { result ≡ list_all (has_id set.now) ids.now }
{
    for id in ids {
        if !set.has(*id) {
            return false;
        }
    }
    true
}

/// Whether the ids of local variables, where they have one, are in a set.
fn has_locals(set: &IdSet, locals: &[Option<Id>]) -> bool
    ensures { result ≡ list_all (has_id set.now) (given_ids locals.now) }
{
    for local in locals {
        if let Some(id) = *local {
            if !set.has(id) {
                return false;
            }
        }
    }
    true
}

/// Whether the ids of a frame are in a set.
fn has_frame(set: &IdSet, frame: &AbsFrame) -> bool
    ensures { result ≡ list_all (has_id set.now) (ids_of_frame frame.now) }
{
    has_locals(set, frame.locals()) && has_all(set, frame.stack())
}

/// Whether the ids of all frames are in a set.
fn has_frames(set: &IdSet, frames: &[AbsFrame]) -> bool
    ensures { result ≡ list_all (λ frame. list_all (has_id set.now) (ids_of_frame frame)) frames.now }
{
    for frame in frames {
        if !has_frame(set, frame) {
            return false;
        }
    }
    true
}

/// Whether the ids that a cell names are in a set.
fn has_cell(set: &IdSet, cell: &Cell) -> bool
    ensures { result ≡ list_all (has_id set.now) (ids_in cell.now) }
{
    match cell {
        Cell::Obj(_, ids) => has_all(set, ids.as_slice()),
        Cell::Nums(_, len) => set.has(*len),
        Cell::Refs(_, len, _) => set.has(*len),
        Cell::Int(_) | Cell::Null | Cell::Unk(_, _, _) => true,
    }
}

/// Whether the ids that cells name are in a set.
fn has_cells(set: &IdSet, cells: &[(Id, Cell)]) -> bool
    ensures { result ≡ list_all (λ c. list_all (has_id set.now) (ids_in c.1)) cells.now }
{
    for (_id, cell) in cells {
        if !has_cell(set, cell) {
            return false;
        }
    }
    true
}

/// Whether the ids of a state's frames and its thrown id are in a set.
fn has_places<P: Pairs>(set: &IdSet, state: &AbsState<P>) -> bool
    ensures { result ≡ list_all (has_id set.now) (flat_map ids_of_frame state.now.frames ++ given_ids (state.now.throwing ∷ [])) }
{
    has_frames(set, state.frames()) && has_locals(set, &[state.throwing()])
}

/// Whether every id that a state uses is in a set.
fn has_used<P: Pairs>(set: &IdSet, state: &AbsState<P>) -> bool
    ensures { result ≡ list_all (has_id set.now) (ids_used state.now) }
{
    has_places(set, state) && has_cells(set, state.cells())
}

/// Whether pairs join references alone, and no two known ones.
fn join_well<P: Pairs>(pairs: &P, cells: &[(Id, Cell)]) -> bool
    requires { AreIdsRising 0 cells.now }
    ensures { IsTrue result ↔ MayAllJoin cells.now (P.pairs pairs.now) }
{
    let references = ids_of_sort(cells, CellSort::Reference);
    let known = ids_of_sort(cells, CellSort::Known);
    !pairs.touches(&outside(&references), &outside(&IdSet::new())) && !pairs.touches(&known, &known)
}

/// Whether the pairs of a state are as they are to be.
fn pairs_fit<P: Pairs>(state: &AbsState<P>) -> bool
    requires { AreIdsRising 0 state.now.cells }
    ensures { IsTrue result ↔ (AreAmong state.now.eq state.now.share × MayAllJoin state.now.cells state.now.share) }
{
    state.eq().are_among(state.share()) && join_well(state.share(), state.cells())
}

/// Whether a state whose cells rise is well-formed.
fn is_well_named<P: Pairs>(state: &AbsState<P>) -> bool
    requires { AreIdsRising 0 state.now.cells }
    ensures { IsTrue result ↔ IsWellFormed state.now }
{
    has_used(&ids_of_sort(state.cells(), CellSort::Any), state) && pairs_fit(state)
}

/// Whether a state is well-formed: cells rise by id, ids are below 2,048, each id that is used has a cell, each pair of
/// ids with one object is a pair that shares, and pairs join references, of which not both are known.
pub fn well_formed<P: Pairs>(state: &AbsState<P>) -> bool
    ensures { IsTrue result ↔ IsWellFormed state.now }
{
    ids_rise(state.cells()) && is_well_named(state)
}
