//! Children: their frames, cells, pairs and links.
ghost use Rattle.std.specs.Prelude.{◌≡◌, ◌+◌, ◌≤◌, ◌<◌, [], true, map, length, IfOk, OnOk, IsTrue, ◌↔◌};
ghost use Rattle.std.specs.Option.{option_map};
ghost use Rattle.abs_cells.specs.Cells.{cell_in, AreEqual, Share};
ghost use Rattle.abs_cells.specs.PairLists.{IsRising, has};
ghost use Rattle.abs_cells.specs.Sound.{AreIdsRising, IsWellFormed};
ghost use Rattle.abs_cells.specs.Limits.{most_ids};
ghost use Rattle.abs_heap.specs.inner.Building.{Gains, IsOver};
ghost use Rattle.abs_heap.specs.Given.{IsGiven};
ghost use Rattle.abs_heap.specs.Laws.{plain_link};
ghost use Rattle.abs_heap.specs.Names.{name_in, frame_named, IsImage};
ghost use Rattle.abs_heap.specs.Refining.{IsWithCell};

use crate::gaining::put_named;
use crate::naming::{name_of_given, named_frames};
use crate::putting::{put_cell, put_cells};
use abs_cells::{AbsState, Cell, Id, MOST_IDS, Pairs};
use list_views::Seq;
use std::alloc::{AllocError, AllocFailed, Global};
use term_graph::Link;

/// Whether a state with so many more ids has at most `MOST_IDS`.
pub(crate) fn has_room<P: Pairs>(state: &AbsState<P>, more: usize) -> bool
    ensures { IsTrue result ↔ (length state.now.cells + more ≤ most_ids) }
{
    let count = state.cells().len();
    count <= MOST_IDS && more <= MOST_IDS - count
}

/// The link of an edge without rows.
pub(crate) fn plain_link(alloc: Global, step: bool, merged: Option<(Id, Id)>) -> Link
    ensures { result ≡ plain_link step merged }
{
    Link {
        rows: Seq::new(alloc),
        merged,
        step,
    }
}

/// Listed pairs under their names, of which those stay that may stand.
pub(crate) fn listed_pairs<P: Pairs>(
    alloc: Global,
    names: &[(Id, Id)],
    listed: &[(Id, Id)],
    cells: &[(Id, Cell)],
) -> Result<P, AllocError>
    requires cells { AreIdsRising 0 cells.now }
    requires pairs { IsRising listed.now }
    ensures { IfOk result (λ pairs. Gains cells.now (IsImage (name_in names.now) (λ x y. has x y listed.now ≡ true)) []
        (P.pairs pairs)) }
{
    let mut pairs = P::empty(alloc);
    put_named(names, listed, cells, &mut pairs)?;
    Ok(pairs)
}

/// The pairs of a state under their names, of which those stay that may stand.
pub(crate) fn named_pairs<P: Pairs>(
    alloc: Global,
    names: &[(Id, Id)],
    old: &P,
    cells: &[(Id, Cell)],
) -> Result<P, AllocError>
    requires { AreIdsRising 0 cells.now }
    ensures { IfOk result (λ pairs. Gains cells.now (IsImage (name_in names.now) (λ x y. has x y (P.pairs old.now) ≡ true)) []
        (P.pairs pairs)) }
{
    let listed = old.list(alloc)?;
    listed_pairs(alloc, names, listed.as_slice(), cells)
}

/// The state with other cells and pairs, whose frames and thrown id are under their names.
pub(crate) fn whole<P: Pairs>(
    alloc: Global,
    names: &[(Id, Id)],
    state: &AbsState<P>,
    cells: Seq<(Id, Cell)>,
    eq: P,
    share: P,
) -> Result<AbsState<P>, AllocError>
    ensures { IfOk result
        (λ child. child ≡ record {
          frames = map (frame_named (name_in names.now)) state.now.frames;
          throwing = option_map
              (name_in names.now) state.now.throwing;
          cells = cells;
          eq = P.pairs eq;
          share = P.pairs share;
        }) }
{
    let frames = named_frames(alloc, names, state.frames())?;
    let throwing = name_of_given(names, state.throwing());
    Ok(AbsState::new(frames, throwing, cells, eq, share))
}

/// Puts a state's cells among others.
pub(crate) fn put_state<P: Pairs>(
    alloc: Global,
    state: &AbsState<P>,
    cells: &mut Vec<(Id, Cell)>,
) -> Result<(), AllocError>
    requires good { IsWellFormed state.now }
    requires rising { AreIdsRising 0 cells.old.items }
    ensures { OnOk result (IsOver cells.old.items state.now.cells cells.new.items) }
{
    put_cells(alloc, &[], state.cells(), cells)
}

/// The child that has a state's frames and pairs, and these cells.
pub(crate) fn child_of<P: Pairs>(
    alloc: Global,
    state: &AbsState<P>,
    cells: Seq<(Id, Cell)>,
) -> Result<AbsState<P>, AllocError>
    requires { AreIdsRising 0 cells }
    ensures { IfOk result (λ child. IsGiven state.now.frames state.now.throwing (cell_in cells) (AreEqual state.now)
        (Share state.now) child) }
{
    let list = cells.as_slice();
    let eq = named_pairs(alloc, &[], state.eq(), list)?;
    let share = named_pairs(alloc, &[], state.share(), list)?;
    whole(alloc, &[], state, cells, eq, share)
}

/// The state with another cell at an id; the pairs stay that still may.
pub(crate) fn with_cell<P: Pairs>(
    alloc: Global,
    state: &AbsState<P>,
    id: Id,
    cell: Cell,
) -> Result<AbsState<P>, AllocError>
    requires good { IsWellFormed state.now }
    requires low { id < 2048 }
    ensures { IfOk result (λ child. IsWithCell state.now id cell child) }
{
    let mut cells = Vec::new(alloc);
    put_cell(&mut cells, id, cell)?;
    put_state(alloc, state, &mut cells)?;
    child_of(alloc, state, Seq::from_vec(cells))
}
