//! What may meet, and what may lie where, asked of all ids of a set at once.
ghost use Rattle.std.specs.Prelude.{◌↔◌, true, IsTrue};
ghost use Rattle.abs_cells.specs.Cells.{HasCell};
ghost use Rattle.abs_cells.specs.Sound.{IsWellFormed};
ghost use Rattle.abs_reach.specs.Known.{MayMeetSome, SomeMayBeIn, MayBeInSome};

use crate::find::is_reference_in;
use crate::marks::Marks;
use crate::meeting::{have_one, hazy_among};
use abs_cells::{AbsState, CellSort, Id, IdSet, Pairs};

/// Whether an id may meet some id of a set that has a cell. It takes no memory, and no longer than for one id.
pub fn may_meet_some<P: Pairs>(
    state: &AbsState<P>,
    x: Id,
    others: &IdSet,
    marks: &mut Marks,
) -> bool
    requires good { IsWellFormed state.now }
    requires there { HasCell (λ _. true) state.now x }
    ensures { IsTrue result ↔ MayMeetSome state.now x others.now }
{
    let first = marks.walk(state, x);
    let second = marks.walk_all(state, others);
    if have_one(state.cells(), CellSort::Reference, &first.met, &second.met) {
        return true;
    }
    state.share().touches(&first.met, &second.met)
}

/// Whether some id of a set may be in the region of an id. It takes no memory, and no longer than for one id.
pub fn some_may_be_in<P: Pairs>(state: &AbsState<P>, ks: &IdSet, x: Id, marks: &mut Marks) -> bool
    requires good { IsWellFormed state.now }
    requires there { HasCell (λ _. true) state.now x }
    ensures { IsTrue result ↔ SomeMayBeIn state.now ks.now x }
{
    let found = marks.walk(state, x);
    if have_one(state.cells(), CellSort::Reference, ks, &found.met) {
        return true;
    }
    let hazy = hazy_among(state.cells(), &found.met);
    state.share().touches(ks, &hazy)
}

/// Whether an id may be in the region of some id of a set that has a cell. It takes no memory, and no longer than for one
/// id.
pub fn may_be_in_some<P: Pairs>(
    state: &AbsState<P>,
    k: Id,
    others: &IdSet,
    marks: &mut Marks,
) -> bool
    requires good { IsWellFormed state.now }
    requires there { HasCell (λ _. true) state.now k }
    ensures { IsTrue result ↔ MayBeInSome state.now k others.now }
{
    if !is_reference_in(state.cells(), k) {
        return false;
    }
    let found = marks.walk_all(state, others);
    if found.met.has(k) {
        return true;
    }
    let hazy = hazy_among(state.cells(), &found.met);
    state.share().touches(&IdSet::only(k), &hazy)
}
