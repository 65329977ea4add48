//! Whether the region of an id has no cycle, and whether it is a tree.
ghost use Rattle.std.specs.Prelude.{◌↔◌, true, IsTrue};
ghost use Rattle.abs_cells.specs.Cells.{HasCell};
ghost use Rattle.abs_cells.specs.Closures.{IsFiniteId, IsTreeId};
ghost use Rattle.abs_cells.specs.Sound.{IsWellFormed};

use crate::marks::Marks;
use crate::meeting::have_one;
use abs_cells::{AbsState, CellSort, Id, Pairs};

/// Whether known cells give no cycle from an id, and no hazy id there may have one in its region. It takes no memory.
pub fn is_finite<P: Pairs>(state: &AbsState<P>, x: Id, marks: &mut Marks) -> bool
    requires good { IsWellFormed state.now }
    requires there { HasCell (λ _. true) state.now x }
    ensures { IsTrue result ↔ IsFiniteId state.now x }
{
    let found = marks.walk(state, x);
    if found.cyclic {
        return false;
    }
    !have_one(state.cells(), CellSort::MayCycle, &found.met, &found.met)
}

/// Whether known cells reach each id from an id by one path, each hazy id there has a tree as its region, and no two ids
/// there share. It takes no memory.
pub fn is_tree<P: Pairs>(state: &AbsState<P>, x: Id, marks: &mut Marks) -> bool
    requires good { IsWellFormed state.now }
    requires there { HasCell (λ _. true) state.now x }
    ensures { IsTrue result ↔ IsTreeId state.now x }
{
    let found = marks.walk(state, x);
    if found.twice {
        return false;
    }
    if have_one(state.cells(), CellSort::MayBeNoTree, &found.met, &found.met) {
        return false;
    }
    !state.share().touches(&found.met, &found.met)
}
