//! Going along the steps of known cells, deepest first.
ghost use Rattle.std.specs.Prelude.{◌≡◌, ◌+◌, ◌<◌, ◌≤◌, ◌↔◌, ℕ, true, false, length, [], ◌∷◌, ◌&&◌, Some, None};
ghost use Rattle.jvm_values.specs.Paths.{Reaches, IsTreeFrom, IsDagFrom};
ghost use Rattle.abs_cells.specs.IdSets.{has_id};
ghost use Rattle.abs_cells.specs.Cells.{cell_in, is_of_sort, is_reference};
ghost use Rattle.abs_cells.specs.Sound.{AreIdsRising};
ghost use Rattle.abs_reach.specs.inner.Steps.{steps_in, counted_steps_in, AreNamedThere, IsReachedFrom, IsReachedInside};
ghost use Rattle.abs_reach.specs.inner.Turns.{IsWith, IsBegun, Leaves, Meets, Enters};

use crate::find::{Names, is_reference_in, step};
use abs_cells::list_views::Stack;
use abs_cells::{Cell, Id, IdSet};

/// The ids from which a walk has not come back yet, each with the place of its next step. The top is the one from which
/// it goes on.
pub(crate) type Trail = Stack<(Id, usize)>;

/// What a walk found.
#[derive(Drop)]
pub(crate) struct Found {
    /// The ids that it came to.
    pub(crate) met: IdSet,
    /// Those from which it came back.
    pub(crate) left: IdSet,
    /// Whether it came to an id from which it had not come back.
    pub(crate) cyclic: bool,
    /// Whether it came twice to the id of a reference that is not null.
    pub(crate) twice: bool,
}

/// Puts an id on the trail, which has room.
fn put_on(trail: &mut Trail, id: Id, place: usize)
    requires { length trail.old.0 < trail.old.1 }
    ensures items { trail.new.0 ≡ (id, place) ∷ trail.old.0 }
    ensures room { trail.old.1 ≤ trail.new.1 }
{
    if trail.push((id, place)).is_err() {
        unreachable!();
    }
}

/// Comes to an id that was met.
fn meet(found: &mut Found, id: Id, counts: bool)
    ensures { Meets found.old found.new id counts }
{
    if !found.left.has(id) {
        found.cyclic = true;
    }
    if counts {
        found.twice = true;
    }
}

/// Goes on from the id that was taken off the trail, by the step at a place.
fn turn(
    cells: &[(Id, Cell)],
    names: Names,
    found: &mut Found,
    trail: &mut Trail,
    id: Id,
    place: usize,
)
    requires rising { AreIdsRising 0 cells.now }
    requires low { id < 2048 }
    requires there { AreNamedThere names cells.now }
    requires room { length trail.old.0 < trail.old.1 }
    requires more { (c : ℕ) → steps_in names cells.now id place ≡ Some c → has_id found.old.met c ≡ false
        → length trail.old.0 + 1 < trail.old.1 }
    ensures leaves { steps_in names cells.now id place ≡ None → Leaves found.old found.new id × (trail.new.0 ≡ trail.old.0) }
    ensures meets { (c : ℕ) → steps_in names cells.now id place ≡ Some c → has_id found.old.met c ≡ true
        → Meets found.old found.new c (is_of_sort is_reference (cell_in cells.now c)) × (trail.new.0 ≡ (id, place + 1) ∷ trail.old.0) }
    ensures enters { (c : ℕ) → steps_in names cells.now id place ≡ Some c → has_id found.old.met c ≡ false
        → Enters found.old found.new c × (trail.new.0 ≡ (c, 0) ∷ (id, place + 1) ∷ trail.old.0) }
    ensures room { trail.old.1 ≤ trail.new.1 }
{
    match step(cells, names, id, place) {
        None => found.left.put(id),
        Some(next) => {
            put_on(trail, id, place + 1);
            if found.met.has(next) {
                meet(found, next, is_reference_in(cells, next));
            } else {
                found.met.put(next);
                put_on(trail, next, 0);
            }
        }
    }
}

/// Begins at one more id.
fn begin_at(cells: &[(Id, Cell)], found: &mut Found, trail: &mut Trail, id: Id)
    requires low { id < 2048 }
    requires fresh { has_id found.old.met id ≡ false }
    requires room { length trail.old.0 < trail.old.1 }
    requires there { is_of_sort (λ _. true) (cell_in cells.now id) ≡ true }
    requires begun { IsBegun cells.now found.old trail.old.0 }
    ensures begun { IsBegun cells.now found.new trail.new.0 }
    ensures room { trail.old.1 ≤ trail.new.1 }
    ensures met { IsWith found.new.met found.old.met id }
    ensures trail { trail.new.0 ≡ (id, 0) ∷ trail.old.0 }
{
    found.met.put(id);
    put_on(trail, id, 0);
}

/// Goes along all steps from the ids on the trail.
fn run(cells: &[(Id, Cell)], names: Names, found: &mut Found, trail: &mut Trail)
    requires rising { AreIdsRising 0 cells.now }
    requires there { AreNamedThere names cells.now }
    requires room { 2048 ≤ trail.old.1 }
    requires begun { IsBegun cells.now found.old trail.old.0 }
    ensures met { (id : ℕ) → (has_id found.new.met id ≡ true) ↔ IsReachedFrom (steps_in names cells.now) found.old.met id }
    ensures cyclic { (x : ℕ) → trail.old.0 ≡ (x, 0) ∷ [] → (found.new.cyclic ≡ false) ↔ IsDagFrom (steps_in names cells.now) x }
    ensures twice { (x : ℕ) → trail.old.0 ≡ (x, 0) ∷ [] → (found.new.twice ≡ false) ↔ IsTreeFrom (counted_steps_in names cells.now) x }
    ensures room { 2048 ≤ trail.new.1 }
{
    while let Some((id, place)) = trail.pop() {
        turn(cells, names, found, trail, id, place);
    }
}

/// A walk that has not begun.
fn nothing_found() -> Found
    ensures met { (n : ℕ) → has_id result.met n ≡ false }
    ensures left { (n : ℕ) → has_id result.left n ≡ false }
    ensures cyclic { result.cyclic ≡ false }
    ensures twice { result.twice ≡ false }
{
    Found {
        met: IdSet::new(),
        left: IdSet::new(),
        cyclic: false,
        twice: false,
    }
}

/// The walk from an id along all steps: the ids that it comes to are those that steps lead to.
pub(crate) fn walk(cells: &[(Id, Cell)], names: Names, start: Id, trail: &mut Trail) -> Found
    requires rising { AreIdsRising 0 cells.now }
    requires there { AreNamedThere names cells.now }
    requires start { is_of_sort (λ _. true) (cell_in cells.now start) ≡ true }
    requires room { 2048 ≤ trail.old.1 }
    ensures met { (id : ℕ) → (has_id result.met id ≡ true) ↔ Reaches (steps_in names cells.now) start id }
    ensures cyclic { (result.cyclic ≡ false) ↔ IsDagFrom (steps_in names cells.now) start }
    ensures twice { (result.twice ≡ false) ↔ IsTreeFrom (counted_steps_in names cells.now) start }
    ensures room { 2048 ≤ trail.new.1 }
{
    let mut found = nothing_found();
    trail.clear();
    begin_at(cells, &mut found, trail, start);
    run(cells, names, &mut found, trail);
    found
}

/// Begins at the ids of a set that have a cell.
fn begin_at_all(cells: &[(Id, Cell)], starts: &IdSet, trail: &mut Trail) -> Found
    requires rising { AreIdsRising 0 cells.now }
    requires room { 2048 ≤ trail.old.1 }
    requires empty { trail.old.0 ≡ [] }
    ensures begun { IsBegun cells.now result trail.new.0 }
    ensures met { (id : ℕ) → has_id result.met id ≡ (has_id starts.now id && is_of_sort (λ _. true) (cell_in cells.now id)) }
    ensures room { 2048 ≤ trail.new.1 }
{
    let mut found = nothing_found();
    for (id, _cell) in cells {
        if starts.has(*id) {
            begin_at(cells, &mut found, trail, *id);
        }
    }
    found
}

/// The walk from all ids of a set that have a cell.
pub(crate) fn walk_all(
    cells: &[(Id, Cell)],
    names: Names,
    starts: &IdSet,
    trail: &mut Trail,
) -> Found
    requires rising { AreIdsRising 0 cells.now }
    requires there { AreNamedThere names cells.now }
    requires room { 2048 ≤ trail.old.1 }
    ensures met { (id : ℕ) → (has_id result.met id ≡ true) ↔ IsReachedInside names cells.now starts.now id }
    ensures room { 2048 ≤ trail.new.1 }
{
    trail.clear();
    let mut found = begin_at_all(cells, starts, trail);
    run(cells, names, &mut found, trail);
    found
}
