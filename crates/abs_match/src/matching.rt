//! Whether a state is an instance of another one by a map.
ghost use Rattle.std.specs.Prelude.{◌≡◌, ◌↔◌, Bool, IsTrue, Some, OnOk, IfErr};
ghost use Rattle.jvm_values.specs.declared.types.Ty.{Ty};
ghost use Rattle.abs_cells.specs.Cells.{cell_at};
ghost use Rattle.abs_cells.specs.Sound.{IsWellFormed};
ghost use Rattle.abs_reach.specs.Instances.{Meets, InstanceOf, IsFirstFault, whole_map, positions, mode};
ghost use Rattle.abs_reach.specs.Keys.{AreKeysRising};
ghost use Rattle.abs_match.specs.inner.Matching.{AreMatched, IsLeastOf, Tested, clause_of};

use crate::clauses::{IdClause, MatchFault};
use crate::covers::is_covered;
use crate::least::lower_of;
use crate::maps::{least_unmapped, lists_ids, unmet};
use crate::pairing::{aliases_fit, shape_fits, sharing_fits};
use crate::places::least_place;
use abs_cells::{AbsState, Cell, Id, Pairs};
use abs_reach::{Marks, are_same_heads};
use jvm_values::Types;

/// Whether an id keeps a clause.
fn keeps<T: Types, P: Pairs>(
    types: &T,
    state: &AbsState<P>,
    target: &AbsState<P>,
    entries: &[(Id, Id)],
    marks: &mut Marks,
    clause: IdClause,
    id: Id,
    cell: &Cell,
) -> bool
    requires matched { AreMatched state.now target.now entries.now }
    requires at { cell_at target.now id ≡ Some cell.now }
    ensures { IsTrue result ↔ Meets (T.sub types.now) state.now target.now entries.now (clause_of clause) id }
{
    match clause {
        IdClause::Cells => is_covered(types, state, entries, id, cell),
        IdClause::Aliases => aliases_fit(state, target, entries, id, cell),
        IdClause::Sharing => sharing_fits(state, target, entries, marks, id, cell),
        IdClause::Shapes => shape_fits(state, target, entries, marks, id, cell),
    }
}

/// The id of a cell, if it doesn't keep a clause.
fn failing<T: Types, P: Pairs>(
    types: &T,
    state: &AbsState<P>,
    target: &AbsState<P>,
    entries: &[(Id, Id)],
    marks: &mut Marks,
    clause: IdClause,
    id: Id,
    cell: &Cell,
) -> Option<Id>
    requires matched { AreMatched state.now target.now entries.now }
    requires at { cell_at target.now id ≡ Some cell.now }
    ensures { IsLeastOf (λ n. n ≡ id → Meets (T.sub types.now) state.now target.now entries.now (clause_of clause) n) result }
{
    if keeps(types, state, target, entries, marks, clause, id, cell) {
        None
    } else {
        Some(id)
    }
}

/// The least id that doesn't keep a clause.
fn least_failing<T: Types, P: Pairs>(
    types: &T,
    state: &AbsState<P>,
    target: &AbsState<P>,
    entries: &[(Id, Id)],
    marks: &mut Marks,
    clause: IdClause,
) -> Option<Id>
    requires { AreMatched state.now target.now entries.now }
    ensures { IsLeastOf (Meets (T.sub types.now) state.now target.now entries.now (clause_of clause)) result }
{
    let mut least = None;
    for (id, cell) in target.cells() {
        let found = failing(types, state, target, entries, marks, clause, *id, cell);
        least = lower_of(least, found);
    }
    least
}

/// The id that the clause on the map names, where it fails.
fn map_fault<P: Pairs>(
    state: &AbsState<P>,
    target: &AbsState<P>,
    entries: &[(Id, Id)],
) -> Option<Id>
    requires { IsWellFormed state.now }
    ensures { (sub : Ty → Ty → Bool) → Tested sub state.now target.now entries.now whole_map result }
{
    if !lists_ids(target.cells(), entries) {
        return Some(0);
    }
    least_unmapped(state.cells(), entries)
}

/// The id that the clause on positions names, where it fails.
fn place_fault<P: Pairs>(
    state: &AbsState<P>,
    target: &AbsState<P>,
    entries: &[(Id, Id)],
) -> Option<Id>
    requires { AreKeysRising 0 entries.now }
    ensures { (sub : Ty → Ty → Bool) → Tested sub state.now target.now entries.now positions result }
{
    if !are_same_heads(state.frames(), target.frames()) {
        return Some(0);
    }
    least_place(entries, target.frames(), state.frames())
}

/// The id that the clause on the mode names, where it fails.
fn mode_fault<P: Pairs>(
    state: &AbsState<P>,
    target: &AbsState<P>,
    entries: &[(Id, Id)],
) -> Option<Id>
    requires { AreKeysRising 0 entries.now }
    ensures { (sub : Ty → Ty → Bool) → Tested sub state.now target.now entries.now mode result }
{
    if state.throwing().is_some() != target.throwing().is_some() {
        return Some(0);
    }
    unmet(entries, target.throwing(), state.throwing())
}

/// The id that a clause asked of each id names, where it fails.
fn id_fault<T: Types, P: Pairs>(
    types: &T,
    state: &AbsState<P>,
    target: &AbsState<P>,
    entries: &[(Id, Id)],
    marks: &mut Marks,
    clause: IdClause,
) -> Option<Id>
    requires { AreMatched state.now target.now entries.now }
    ensures { Tested (T.sub types.now) state.now target.now entries.now (clause_of clause) result }
{
    least_failing(types, state, target, entries, marks, clause)
}

/// Whether a well-formed state is an instance of another one, the target, by a map that lists for each id of the target,
/// rising, the id of the state that stands for it. It takes no memory, and at most as many steps as the target has ids
/// times the size of the states; the marks are scratch.
///
/// # Errors
///
/// The first clause that fails, and the least id of the target of which it does not hold.
pub fn instance<T: Types, P: Pairs>(
    types: &T,
    a: &AbsState<P>,
    b: &AbsState<P>,
    map: &[(Id, Id)],
    marks: &mut Marks,
) -> Result<(), MatchFault>
    requires { IsWellFormed a.now }
    ensures ok { OnOk result (InstanceOf (T.sub types.now) a.now b.now map.now) }
    ensures err { IfErr result (λ fault. IsFirstFault (T.sub types.now) a.now b.now map.now fault.clause fault.id) }
{
    if let Some(id) = map_fault(a, b, map) {
        return Err(MatchFault { clause: 0, id });
    }
    if let Some(id) = place_fault(a, b, map) {
        return Err(MatchFault { clause: 1, id });
    }
    if let Some(id) = mode_fault(a, b, map) {
        return Err(MatchFault { clause: 2, id });
    }
    if let Some(id) = id_fault(types, a, b, map, marks, IdClause::Cells) {
        return Err(MatchFault { clause: 3, id });
    }
    if let Some(id) = id_fault(types, a, b, map, marks, IdClause::Aliases) {
        return Err(MatchFault { clause: 4, id });
    }
    if let Some(id) = id_fault(types, a, b, map, marks, IdClause::Sharing) {
        return Err(MatchFault { clause: 5, id });
    }
    if let Some(id) = id_fault(types, a, b, map, marks, IdClause::Shapes) {
        return Err(MatchFault { clause: 6, id });
    }
    Ok(())
}
