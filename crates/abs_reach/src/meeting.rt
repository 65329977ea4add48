//! Which regions may meet, and which objects may lie in them.
ghost use Rattle.std.specs.Prelude.{◌≡◌, ◌&&◌, ◌↔◌, ℕ, true, IsTrue};
ghost use Rattle.std.specs.List.{list_any};
ghost use Rattle.abs_cells.specs.IdSets.{has_id};
ghost use Rattle.abs_cells.specs.Cells.{HasCell, is_hazy, is_of_sort, sort_test, cell_in};
ghost use Rattle.abs_cells.specs.Closures.{MayMeet, MayBeIn};
ghost use Rattle.abs_cells.specs.Sound.{AreIdsRising, IsWellFormed};

use crate::find::is_reference_in;
use crate::marks::Marks;
use abs_cells::{AbsState, Cell, CellSort, Id, IdSet, Pairs};

/// Whether some cell of a sort is that of an id which is in two sets.
pub(crate) fn have_one(cells: &[(Id, Cell)], sort: CellSort, first: &IdSet, second: &IdSet) -> bool
    ensures { result ≡ list_any (λ c. (has_id first.now c.0 && has_id second.now c.0) && sort_test sort c.1) cells.now }
{
    for (id, cell) in cells {
        if first.has(*id) && second.has(*id) && cell.is_of(sort) {
            return true;
        }
    }
    false
}

/// The hazy ids of a set.
pub(crate) fn hazy_among(cells: &[(Id, Cell)], set: &IdSet) -> IdSet
    requires { AreIdsRising 0 cells.now }
    ensures { (n : ℕ) → has_id result n ≡ (has_id set.now n && is_of_sort is_hazy (cell_in cells.now n)) }
{
    let mut ids = IdSet::new();
    for (id, cell) in cells {
        if set.has(*id) && cell.is_hazy() {
            ids.put(*id);
        }
    }
    ids
}

/// Whether two ids may meet: closures of theirs have an id of a reference that is not null in common, or two that share.
/// It takes no memory.
pub fn may_meet<P: Pairs>(state: &AbsState<P>, x: Id, y: Id, marks: &mut Marks) -> bool
    requires good { IsWellFormed state.now }
    requires first { HasCell (λ _. true) state.now x }
    requires second { HasCell (λ _. true) state.now y }
    ensures { IsTrue result ↔ MayMeet state.now x y }
{
    let first = marks.walk(state, x);
    let second = marks.walk(state, y);
    if have_one(state.cells(), CellSort::Reference, &first.met, &second.met) {
        return true;
    }
    state.share().touches(&first.met, &second.met)
}

/// Whether an id may be in another one's region: it is a reference that is not null, and is in the other one's closure or
/// shares with a hazy id there. It takes no memory.
pub fn may_be_in<P: Pairs>(state: &AbsState<P>, k: Id, x: Id, marks: &mut Marks) -> bool
    requires good { IsWellFormed state.now }
    requires inner { HasCell (λ _. true) state.now k }
    requires outer { HasCell (λ _. true) state.now x }
    ensures { IsTrue result ↔ MayBeIn state.now k x }
{
    if !is_reference_in(state.cells(), k) {
        return false;
    }
    let found = marks.walk(state, x);
    if found.met.has(k) {
        return true;
    }
    let hazy = hazy_among(state.cells(), &found.met);
    state.share().touches(&IdSet::only(k), &hazy)
}
