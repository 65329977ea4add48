//! The state of a step, before ids are dropped.
ghost use Rattle.std.specs.Prelude.{◌≡◌, ◌<◌, ◌≤◌, ◌+◌, ◌&&◌, ◌||◌, ◌==◌, ◌∷◌, [], ℕ, false, length, map, reverse, IfOk, MatchBool};
ghost use Rattle.std.specs.Prelude.{Err, Some, None};
ghost use Rattle.std.specs.Option.{option_map};
ghost use Rattle.std.specs.List.{AllByRecursion};
ghost use Rattle.jvm_values.specs.TypedHeaps.{world_types};
ghost use Rattle.abs_cells.specs.Cells.{is_reference, is_of_sort, ids_in, cell_in, HasCell, AreEqual, Share};
ghost use Rattle.abs_cells.specs.IdSets.{has_id, kept};
ghost use Rattle.abs_cells.specs.Limits.{most_ids};
ghost use Rattle.abs_cells.specs.Sound.{AreIdsRising, IsWellFormed, given_ids};
ghost use Rattle.abs_heap.specs.Given.{IsGiven, AreFresh, with_cells};
ghost use Rattle.abs_heap.specs.declared.fault.HeapFault.TheVariants.{TooManyIds};
ghost use Rattle.abs_heap.specs.Writing.{is_array_of_references, IsWriteChild};
ghost use Rattle.abs_plans.specs.abs_turns.Plans.{ids_made, nowhere, item, object, array};
ghost use Rattle.abs_plans.specs.abs_turns.PlansSeen.{act_seen, goal_seen, write_seen};
ghost use Rattle.abs_plans.specs.abs_turns.GoodPlans.{IsThere, HoldsIds, IsChange, IsGoodAct};
ghost use Rattle.abs_expand.specs.Children.{IsActed, gone_to, set_field, field_with};
ghost use Rattle.abs_expand.specs.inner.Making.{IsLeastFree, changed_cell, changed_cells, inserted, frames_to, thrown_to, cells_to};
ghost use Rattle.abs_expand.specs.inner.Making.{is_at_bottom, GoesSomewhere, IsTurnState};

use abs_cells::{
    AbsFrame, AbsState, Cell, Id, IdSet, Ids, Pairs, copied_cell, copied_cells, copied_frames,
};
use abs_heap::{HeapFault, load_ref, new_array, new_object, put_field, store_ref};
use abs_plans::abs_rows::{bottom_with, with_id};
use abs_plans::abs_turns::{Act, Goal, Write, with_local};
use jvm_values::{Slot, Types};
use list_views::Seq;
use std::alloc::{AllocError, AllocFailed, Global};

/// The least number that is no id of cells.
fn least_free(cells: &[(Id, Cell)]) -> Id
    requires rising { AreIdsRising 0 cells.now }
    requires few { length cells.now < 2048 }
    ensures is { IsLeastFree cells.now result }
    ensures low { result < 2048 }
{
    let mut free = 0u16;
    for (id, _cell) in cells {
        if *id != free {
            return free;
        }
        free += 1;
    }
    free
}

/// The cell of an id among changed ones, where it is there.
fn changed_one(changed: &[(Id, Cell)], id: Id) -> Option<&Cell>
    ensures { option_map (λ cell. cell.now) result ≡ cell_in changed.now id }
{
    for (other, cell) in changed {
        if *other == id {
            return Some(cell);
        }
    }
    None
}

/// The cell of an id, which a change may have.
fn new_cell(alloc: Global, changed: &[(Id, Cell)], id: Id, cell: &Cell) -> Result<Cell, AllocError>
    ensures { IfOk result (λ copy. copy ≡ changed_cell changed.now (id, cell.now)) }
{
    match changed_one(changed, id) {
        Some(other) => copied_cell(alloc, other),
        None => copied_cell(alloc, cell),
    }
}

/// Cells, of which some become others.
fn changed_cells(
    alloc: Global,
    cells: &[(Id, Cell)],
    changed: &[(Id, Cell)],
) -> Result<Seq<(Id, Cell)>, AllocError>
    ensures { IfOk result (λ copy. copy ≡ changed_cells changed.now cells.now) }
{
    let mut copy = Seq::with_capacity(alloc, cells.len() + 1)?;
    for (id, cell) in cells {
        copy.push((*id, new_cell(alloc, changed, *id, cell)?))?;
    }
    Ok(copy)
}

/// Puts an id in, where its cell is that of a reference.
fn put_reference(ids: &mut IdSet, id: Id, cell: &Cell)
    requires { id < 2048 }
    ensures { (n : ℕ) → has_id ids.new n ≡ ((is_reference cell.now && (n == id)) || has_id ids.old n) }
{
    if cell.is_reference() {
        ids.put(id);
    }
}

/// The ids of cells that are references.
fn references(cells: &[(Id, Cell)]) -> IdSet
    requires { AreIdsRising 0 cells.now }
    ensures { (n : ℕ) → has_id result n ≡ is_of_sort is_reference (cell_in cells.now n) }
{
    let mut ids = IdSet::new();
    for (id, cell) in cells {
        put_reference(&mut ids, *id, cell);
    }
    ids
}

/// The pairs of which both ids are in a set.
fn kept_pairs<P: Pairs>(alloc: Global, pairs: &P, ids: &IdSet) -> Result<P, AllocError>
    ensures { IfOk result (λ made. P.pairs made ≡ kept ids.now (P.pairs pairs.now)) }
{
    let mut made = pairs.copied(alloc)?;
    made.keep(ids);
    Ok(made)
}

/// The state in which cells have become others, with these frames and this thrown id.
fn changed_state<P: Pairs>(
    alloc: Global,
    state: &AbsState<P>,
    changed: &[(Id, Cell)],
    frames: Seq<AbsFrame>,
    throwing: Option<Id>,
) -> Result<AbsState<P>, AllocError>
    requires good { IsWellFormed state.now }
    requires changes { AllByRecursion (IsChange state.now) changed.now }
    requires frames { AllByRecursion (HoldsIds state.now) (reverse frames) }
    requires thrown { AllByRecursion (IsThere state.now) (given_ids (throwing ∷ [])) }
    ensures given { IfOk result (λ made. IsGiven (reverse frames) throwing (with_cells changed.now state.now) (AreEqual state.now)
        (Share state.now) made) }
    ensures good { IfOk result (λ made. IsWellFormed made) }
    ensures count { IfOk result (λ made. length made.cells ≡ length state.now.cells) }
{
    let equal = state.eq();
    let shared = state.share();
    equal.rise();
    shared.rise();
    let cells = changed_cells(alloc, state.cells(), changed)?;
    let ids = references(cells.as_slice());
    let eq = kept_pairs(alloc, equal, &ids)?;
    let share = kept_pairs(alloc, shared, &ids)?;
    Ok(AbsState::new(frames, throwing, cells, eq, share))
}

/// Cells with one more, whose id is the least that none of them has.
fn with_cell(cells: Seq<(Id, Cell)>, id: Id, cell: Cell) -> Result<Seq<(Id, Cell)>, AllocError>
    requires { id ≤ length cells }
    ensures { IfOk result (λ all. all ≡ inserted id cell cells) }
{
    let mut items = cells.into_vec();
    items.insert(usize::from(id), (id, cell))?;
    Ok(Seq::from_vec(items))
}

/// The state with one more cell, whose id is the least free one.
fn with_one<P: Pairs>(
    alloc: Global,
    state: &AbsState<P>,
    id: Id,
    cell: Cell,
) -> Result<AbsState<P>, AllocError>
    requires good { IsWellFormed state.now }
    requires free { IsLeastFree state.now.cells id }
    requires low { id < 2048 }
    requires names { ids_in cell ≡ [] }
    ensures made { IfOk result (λ made. AreFresh state.now (id ∷ []) × IsGiven state.now.frames state.now.throwing
        (with_cells ((id, cell) ∷ []) state.now) (AreEqual state.now) (Share state.now) made) }
    ensures good { IfOk result (λ made. IsWellFormed made) }
    ensures there { IfOk result (λ made. IsThere made id) }
{
    let equal = state.eq();
    let shared = state.share();
    equal.rise();
    shared.rise();
    let copy = copied_cells(alloc, state.cells())?;
    let cells = with_cell(copy, id, cell)?;
    let frames = copied_frames(alloc, state.frames())?;
    let eq = equal.copied(alloc)?;
    let share = shared.copied(alloc)?;
    Ok(AbsState::new(frames, state.throwing(), cells, eq, share))
}

/// A frame with an id on its stack.
fn with_top(alloc: Global, frame: &AbsFrame, id: Id) -> Result<AbsFrame, AllocError>
    ensures { IfOk result (λ made. made ≡ record frame.now { stack = id ∷ frame.now.stack }) }
{
    let locals = Seq::from_slice(alloc, frame.locals())?;
    let mut stack = Seq::from_slice(alloc, frame.stack())?;
    stack.push(id)?;
    Ok(AbsFrame::new(frame.method(), frame.pc(), locals, stack))
}

/// Frames, the running call's last, with the running one changed by an id that goes to a goal.
fn top_to(
    alloc: Global,
    mut frames: Seq<AbsFrame>,
    goal: Goal,
    id: Id,
) -> Result<Seq<AbsFrame>, AllocError>
    requires { is_at_bottom (goal_seen goal) ≡ false }
    ensures { IfOk result (λ made. reverse made ≡ frames_to (goal_seen goal) id (reverse frames)) }
{
    let Some(frame) = frames.pop() else {
        return Ok(frames);
    };
    let made = match goal {
        Goal::OnStack => with_top(alloc, &frame, id)?,
        Goal::InLocal(n) => with_local(alloc, &frame, usize::from(n), id)?,
        Goal::Nowhere | Goal::InBottom(_) | Goal::InField(_, _) | Goal::Thrown => frame,
    };
    frames.push(made)?;
    Ok(frames)
}

/// Frames, where an id goes to a goal.
fn frames_to(
    alloc: Global,
    frames: Seq<AbsFrame>,
    goal: Goal,
    id: Id,
) -> Result<Seq<AbsFrame>, AllocError>
    ensures { IfOk result (λ made. reverse made ≡ frames_to (goal_seen goal) id (reverse frames)) }
{
    match goal {
        Goal::InBottom(n) => bottom_with(alloc, frames, n, id),
        _ => top_to(alloc, frames, goal, id),
    }
}

/// The thrown id, where an id goes to a goal.
fn thrown_to(goal: Goal, id: Id, thrown: Option<Id>) -> Option<Id>
    ensures { result ≡ thrown_to (goal_seen goal) id thrown }
{
    match goal {
        Goal::Thrown => Some(id),
        _ => thrown,
    }
}

/// A cell with another id in a field.
fn with_field(alloc: Global, cell: &Cell, place: u32, id: Id) -> Result<Cell, AllocError>
    ensures { IfOk result (λ made. made ≡ set_field place id cell.now) }
{
    match cell {
        Cell::Obj(class, ids) => Ok(Cell::Obj(*class, with_id(alloc, ids.as_slice(), place, id)?)),
        _ => copied_cell(alloc, cell),
    }
}

/// Cells, one of which has another id in a field.
fn fields_to(
    alloc: Global,
    cells: &[(Id, Cell)],
    k: Id,
    place: u32,
    id: Id,
) -> Result<Seq<(Id, Cell)>, AllocError>
    ensures { IfOk result (λ made. made ≡ map (field_with k place id) cells.now) }
{
    let mut made = Seq::with_capacity(alloc, cells.len())?;
    for (other, cell) in cells {
        made.push((*other, fielded(alloc, *other, cell, k, place, id)?))?;
    }
    Ok(made)
}

/// A cell, with another id in a field where it is that of an id.
fn fielded(
    alloc: Global,
    other: Id,
    cell: &Cell,
    k: Id,
    place: u32,
    id: Id,
) -> Result<Cell, AllocError>
    ensures { IfOk result (λ made. made ≡ (field_with k place id (other, cell.now)).1) }
{
    if other == k {
        with_field(alloc, cell, place, id)
    } else {
        copied_cell(alloc, cell)
    }
}

/// Cells, where an id goes to a goal.
fn cells_to(
    alloc: Global,
    cells: &[(Id, Cell)],
    goal: Goal,
    id: Id,
) -> Result<Seq<(Id, Cell)>, AllocError>
    ensures { IfOk result (λ made. made ≡ cells_to (goal_seen goal) id cells.now) }
{
    match goal {
        Goal::InField(k, place) => fields_to(alloc, cells, k, place, id),
        _ => copied_cells(alloc, cells),
    }
}

/// Whether a fresh id goes nowhere.
fn is_nowhere(goal: Goal) -> bool
    ensures { MatchBool result (goal_seen goal ≡ nowhere) (GoesSomewhere (goal_seen goal)) }
{
    match goal {
        Goal::Nowhere => true,
        Goal::OnStack | Goal::InLocal(_) | Goal::InBottom(_) | Goal::InField(_, _) | Goal::Thrown =>
            false,
    }
}

/// A state, where an id goes to a goal.
fn gone_to<P: Pairs>(
    alloc: Global,
    state: AbsState<P>,
    goal: Goal,
    id: Id,
) -> Result<AbsState<P>, AllocError>
    requires good { IsWellFormed state }
    requires there { GoesSomewhere (goal_seen goal) → IsThere state id }
    ensures is { IfOk result (λ made. made ≡ gone_to (goal_seen goal) id state) }
    ensures good { IfOk result (λ made. IsWellFormed made) }
{
    if is_nowhere(goal) {
        return Ok(state);
    }
    let same = copied_frames(alloc, state.frames())?;
    let frames = frames_to(alloc, same, goal, id)?;
    let throwing = thrown_to(goal, id, state.throwing());
    let cells = cells_to(alloc, state.cells(), goal, id)?;
    let eq = state.eq().copied(alloc)?;
    let share = state.share().copied(alloc)?;
    Ok(AbsState::new(frames, throwing, cells, eq, share))
}

/// The state in which a fresh id has a cell that names no ids.
fn made<P: Pairs>(
    alloc: Global,
    state: &AbsState<P>,
    cell: Cell,
) -> Result<(AbsState<P>, Id), HeapFault>
    requires good { IsWellFormed state.now }
    requires few { length state.now.cells + 1 ≤ most_ids }
    requires names { ids_in cell ≡ [] }
    ensures acted { IfOk result (λ r. AreFresh state.now (r.1 ∷ []) × IsGiven state.now.frames state.now.throwing
        (with_cells ((r.1, cell) ∷ []) state.now) (AreEqual state.now) (Share state.now) r.0) }
    ensures good { IfOk result (λ r. IsWellFormed r.0) }
    ensures there { IfOk result (λ r. IsThere r.0 r.1) }
    ensures never { result ≡ Err TooManyIds → ⊥ }
{
    let id = least_free(state.cells());
    Ok((with_one(alloc, state, id, cell)?, id))
}

/// The state in which a reference is written into a field.
fn field_written<P: Pairs>(
    alloc: Global,
    state: &AbsState<P>,
    k: Id,
    field: u32,
    w: Id,
) -> Result<AbsState<P>, HeapFault>
    requires good { IsWellFormed state.now }
    requires few { length state.now.cells ≤ most_ids }
    requires object { IsThere state.now k }
    requires value { IsThere state.now w }
    ensures acted { IfOk result (λ after. IsWriteChild state.now (record { object = k; field = Some field; value = w }) after) }
    ensures good { IfOk result (λ after. IsWellFormed after) }
    ensures never { result ≡ Err TooManyIds → ⊥ }
{
    let child = put_field(alloc, state, k, field, w)?;
    let (after, _link) = child.into_parts();
    Ok(after)
}

/// The state in which a reference is written into an array.
fn item_written<P: Pairs>(
    alloc: Global,
    state: &AbsState<P>,
    k: Id,
    w: Id,
) -> Result<AbsState<P>, HeapFault>
    requires good { IsWellFormed state.now }
    requires few { length state.now.cells ≤ most_ids }
    requires object { IsThere state.now k }
    requires value { IsThere state.now w }
    ensures acted { IfOk result (λ after. IsWriteChild state.now (record { object = k; field = None; value = w }) after) }
    ensures good { IfOk result (λ after. IsWellFormed after) }
    ensures never { result ≡ Err TooManyIds → ⊥ }
{
    let child = store_ref(alloc, state, k, w)?;
    let (after, _link) = child.into_parts();
    Ok(after)
}

/// The state in which a reference is written.
fn written<P: Pairs>(
    alloc: Global,
    state: &AbsState<P>,
    write: &Write,
) -> Result<AbsState<P>, HeapFault>
    requires good { IsWellFormed state.now }
    requires few { length state.now.cells ≤ most_ids }
    requires object { IsThere state.now write.now.object }
    requires value { IsThere state.now write.now.value }
    ensures acted { IfOk result (λ after. IsWriteChild state.now (write_seen write.now) after) }
    ensures good { IfOk result (λ after. IsWellFormed after) }
    ensures never { result ≡ Err TooManyIds → ⊥ }
{
    match write.field {
        Some(field) => field_written(alloc, state, write.object, field, write.value),
        None => item_written(alloc, state, write.object, write.value),
    }
}

/// The state in which an item of an array of references is read, and the item's id.
fn loaded<T: Types, P: Pairs>(
    alloc: Global,
    types: &T,
    state: &AbsState<P>,
    k: Id,
) -> Result<(AbsState<P>, Id), HeapFault>
    requires good { IsWellFormed state.now }
    requires few { length state.now.cells + 1 ≤ most_ids }
    requires array { HasCell is_array_of_references state.now k }
    ensures acted { IfOk result (λ r. IsActed (world_types (T.sub types.now) (T.erase types.now) (T.classes types.now)
        (T.fields types.now) (T.can_be_made types.now)) (item k) r.1 state.now r.0) }
    ensures good { IfOk result (λ r. IsWellFormed r.0) }
    ensures there { IfOk result (λ r. IsThere r.0 r.1) }
    ensures never { result ≡ Err TooManyIds → ⊥ }
{
    let (child, id) = load_ref(alloc, types, state, k)?;
    let (after, _link) = child.into_parts();
    Ok((after, id))
}

/// The state with a new object, and its id.
fn with_object<T: Types, P: Pairs>(
    alloc: Global,
    types: &T,
    state: &AbsState<P>,
    class: u32,
) -> Result<(AbsState<P>, Id), HeapFault>
    requires good { IsWellFormed state.now }
    requires few { length state.now.cells + (1 + length (T.fields types.now class)) ≤ most_ids }
    requires class { class < T.classes types.now }
    ensures acted { IfOk result (λ r. IsActed (world_types (T.sub types.now) (T.erase types.now) (T.classes types.now)
        (T.fields types.now) (T.can_be_made types.now)) (object class) r.1 state.now r.0) }
    ensures good { IfOk result (λ r. IsWellFormed r.0) }
    ensures there { IfOk result (λ r. IsThere r.0 r.1) }
    ensures never { result ≡ Err TooManyIds → ⊥ }
{
    let (child, id) = new_object(alloc, types, state, class)?;
    let (after, _link) = child.into_parts();
    Ok((after, id))
}

/// The state with a new array, and its id.
fn with_array<T: Types, P: Pairs>(
    alloc: Global,
    types: &T,
    state: &AbsState<P>,
    slot: Slot,
    len: Id,
) -> Result<(AbsState<P>, Id), HeapFault>
    requires good { IsWellFormed state.now }
    requires few { length state.now.cells + 1 ≤ most_ids }
    requires len { IsThere state.now len }
    ensures acted { IfOk result (λ r. IsActed (world_types (T.sub types.now) (T.erase types.now) (T.classes types.now)
        (T.fields types.now) (T.can_be_made types.now)) (array slot len) r.1 state.now r.0) }
    ensures good { IfOk result (λ r. IsWellFormed r.0) }
    ensures there { IfOk result (λ r. IsThere r.0 r.1) }
    ensures never { result ≡ Err TooManyIds → ⊥ }
{
    let (child, id) = new_array(alloc, types, state, slot, len)?;
    let (after, _link) = child.into_parts();
    Ok((after, id))
}

/// The state after what a step does to ids, and the fresh id; any where it makes none.
fn acted<T: Types, P: Pairs>(
    alloc: Global,
    types: &T,
    state: AbsState<P>,
    act: Act,
    goal: Goal,
) -> Result<(AbsState<P>, Id), HeapFault>
    requires good { IsWellFormed state }
    requires few { length state.cells + ids_made (world_types (T.sub types.now) (T.erase types.now) (T.classes types.now)
        (T.fields types.now) (T.can_be_made types.now)) (act_seen act) ≤ most_ids }
    requires act { IsGoodAct (world_types (T.sub types.now) (T.erase types.now) (T.classes types.now) (T.fields types.now)
        (T.can_be_made types.now)) state [] (act_seen act) (goal_seen goal) }
    ensures acted { IfOk result (λ r. IsActed (world_types (T.sub types.now) (T.erase types.now) (T.classes types.now)
        (T.fields types.now) (T.can_be_made types.now)) (act_seen act) r.1 state r.0) }
    ensures good { IfOk result (λ r. IsWellFormed r.0) }
    ensures there { IfOk result (λ r. GoesSomewhere (goal_seen goal) → IsThere r.0 r.1) }
    ensures never { result ≡ Err TooManyIds → ⊥ }
{
    match act {
        Act::Nothing => Ok((state, 0)),
        Act::Makes(cell) => made(alloc, &state, cell),
        Act::Writes(write) => Ok((written(alloc, &state, &write)?, 0)),
        Act::Item(k) => loaded(alloc, types, &state, k),
        Act::Object(class) => with_object(alloc, types, &state, class),
        Act::Array(slot, len) => with_array(alloc, types, &state, slot, len),
    }
}

/// The state of a step, before ids are dropped, and the fresh id.
pub(crate) fn whole_state<T: Types, P: Pairs>(
    alloc: Global,
    types: &T,
    state: &AbsState<P>,
    changed: &[(Id, Cell)],
    frames: Seq<AbsFrame>,
    throwing: Option<Id>,
    act: Act,
    goal: Goal,
) -> Result<(AbsState<P>, Id), HeapFault>
    requires good { IsWellFormed state.now }
    requires few { length state.now.cells + ids_made (world_types (T.sub types.now) (T.erase types.now) (T.classes types.now)
        (T.fields types.now) (T.can_be_made types.now)) (act_seen act) ≤ most_ids }
    requires changes { AllByRecursion (IsChange state.now) changed.now }
    requires frames { AllByRecursion (HoldsIds state.now) (reverse frames) }
    requires thrown { AllByRecursion (IsThere state.now) (given_ids (throwing ∷ [])) }
    requires act { IsGoodAct (world_types (T.sub types.now) (T.erase types.now) (T.classes types.now) (T.fields types.now)
        (T.can_be_made types.now)) state.now changed.now (act_seen act) (goal_seen goal) }
    ensures is { IfOk result (λ r. IsTurnState (world_types (T.sub types.now) (T.erase types.now) (T.classes types.now)
        (T.fields types.now) (T.can_be_made types.now)) state.now changed.now (reverse frames) throwing (act_seen act)
        (goal_seen goal) r.1 r.0) }
    ensures good { IfOk result (λ r. IsWellFormed r.0) }
    ensures never { result ≡ Err TooManyIds → ⊥ }
{
    let before = changed_state(alloc, state, changed, frames, throwing)?;
    let (after, id) = acted(alloc, types, before, act, goal)?;
    Ok((gone_to(alloc, after, goal, id)?, id))
}
