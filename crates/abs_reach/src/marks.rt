//! What the calls on closures are lent, and the closures.
ghost use Rattle.std.specs.Prelude.{◌≡◌, ◌↔◌, ℕ, true, false, IfOk};
ghost use Rattle.jvm_values.specs.Paths.{IsTreeFrom, IsDagFrom};
ghost use Rattle.abs_cells.specs.IdSets.{has_id};
ghost use Rattle.abs_cells.specs.Cells.{HasCell};
ghost use Rattle.abs_cells.specs.Closures.{cell_steps, counted_steps, KnownFrom};
ghost use Rattle.abs_cells.specs.Sound.{IsWellFormed};
ghost use Rattle.abs_reach.specs.Known.{IsKnownFromSome};
ghost use Rattle.abs_reach.specs.inner.Steps.{IsReachedInside};
ghost use Rattle.abs_reach.specs.declared.find.Names.TheVariants.{All};

use crate::find::Names;
use crate::walk::{Found, Trail, walk, walk_all};
use abs_cells::list_views::Stack;
use abs_cells::{AbsState, Id, IdSet, Pairs};
use std::alloc::{AllocError, Global};
use std::marker::Model;

/// A set of ids, and the room that the calls on closures need: they take no memory beyond it.
///
/// `known_from` leaves its answer in it, which stands until the marks are lent for writing again.
#[derive(Drop)]
pub struct Marks {
    ids: IdSet,
    trail: Trail,
}

impl Model for Marks {
    ghost use Rattle.std.specs.Prelude.{List, ℕ, ◌≤◌};

    ghost Value = { List ℕ };

    ghost view = { λ s. s.ids };

    ghost invariant = { λ s. 2048 ≤ s.trail.1 };
}

impl Marks {
    /// Marks with room for every well-formed state; no id is marked.
    ///
    /// # Errors
    ///
    /// Want of memory.
    pub fn new(alloc: Global) -> Result<Marks, AllocError>
        ensures { IfOk result (λ marks. (id : ℕ) → has_id marks id ≡ false) }
    {
        Ok(Marks {
            ids: IdSet::new(),
            trail: Stack::with_room(alloc, 2048)?,
        })
    }

    /// Whether an id is marked.
    pub fn has(&self, id: Id) -> bool
        ensures { result ≡ has_id self.now id }
    {
        self.ids.has(id)
    }

    /// The ids that are marked.
    pub fn ids(&self) -> &IdSet
        ensures { result.now ≡ self.now }
    {
        &self.ids
    }

    /// The walk along known cells from an id.
    pub(crate) fn walk<P: Pairs>(&mut self, state: &AbsState<P>, start: Id) -> Found
        requires good { IsWellFormed state.now }
        requires there { HasCell (λ _. true) state.now start }
        ensures met { (id : ℕ) → (has_id result.met id ≡ true) ↔ KnownFrom state.now start id }
        ensures cyclic { (result.cyclic ≡ false) ↔ IsDagFrom (cell_steps state.now) start }
        ensures twice { (result.twice ≡ false) ↔ IsTreeFrom (counted_steps state.now) start }
    {
        walk(state.cells(), Names::Known, start, &mut self.trail)
    }

    /// The walk along all that cells name, from the ids of a set that have a cell.
    pub(crate) fn walk_names<P: Pairs>(&mut self, state: &AbsState<P>, starts: &IdSet) -> Found
        requires { IsWellFormed state.now }
        ensures { (id : ℕ) → (has_id result.met id ≡ true) ↔ IsReachedInside All state.now.cells starts.now id }
    {
        walk_all(state.cells(), Names::All, starts, &mut self.trail)
    }

    /// The walk along known cells from the ids of a set that have a cell.
    pub(crate) fn walk_all<P: Pairs>(&mut self, state: &AbsState<P>, starts: &IdSet) -> Found
        requires { IsWellFormed state.now }
        ensures { (id : ℕ) → (has_id result.met id ≡ true) ↔ IsKnownFromSome state.now starts.now id }
    {
        walk_all(state.cells(), Names::Known, starts, &mut self.trail)
    }
}

/// Marks exactly an id and all that known cells lead to from it. It takes no memory, and as many steps as the known part
/// names ids, each with a look-up.
pub fn known_from<P: Pairs>(state: &AbsState<P>, x: Id, marks: &mut Marks)
    requires good { IsWellFormed state.now }
    requires there { HasCell (λ _. true) state.now x }
    ensures { (id : ℕ) → (has_id marks.new id ≡ true) ↔ KnownFrom state.now x id }
{
    let found = marks.walk(state, x);
    marks.ids = found.met;
}
