//! A write of a reference into a field, or of an item of an array of references.
ghost use Rattle.std.specs.Prelude.{◌≡◌, ◌↔◌, ◌<◌, ◌≤◌, ℕ, true, All, IsTrue, IfOk, Err, Some, None, length};
ghost use Rattle.abs_cells.specs.Cells.{HasCell};
ghost use Rattle.abs_cells.specs.IdSets.{has_id};
ghost use Rattle.abs_cells.specs.Sound.{IsWellFormed};
ghost use Rattle.abs_cells.specs.Limits.{most_ids};
ghost use Rattle.abs_heap.specs.Counts.{HasTooMany};
ghost use Rattle.abs_heap.specs.Laws.{plain_link};
ghost use Rattle.abs_heap.specs.Names.{name_in};
ghost use Rattle.abs_heap.specs.inner.Renaming.{IsWritten, write_of};
ghost use Rattle.abs_heap.specs.Writing.{IsAffected, IsNullId, IsWriteChild, MakesNoCycle};
ghost use Rattle.abs_heap.specs.declared.fault.HeapFault.TheVariants.{TooManyIds};

use crate::children::{has_room, listed_pairs, named_pairs, plain_link, whole};
use crate::fault::HeapFault;
use crate::renaming::{affected_ids, names_for};
use crate::rewriting::{Effect, Write, ids_beside, names_among, put_met, put_written};
use abs_cells::{AbsState, Cell, Id, IdSet, Pairs};
use abs_reach::{Marks, cell_of, is_finite, known_from, may_be_in};
use list_views::Seq;
use std::alloc::{AllocError, AllocFailed, Global};
use term_graph::Child;

/// Whether an id is null.
fn is_null<P: Pairs>(state: &AbsState<P>, id: Id) -> bool
    requires { IsWellFormed state.now }
    ensures { IsTrue result ↔ IsNullId state.now id }
{
    match cell_of(state.cells(), id) {
        Some(Cell::Null) => true,
        _ => false,
    }
}

/// Whether a write of `w` into `k` makes no cycle: none can be in the region of `w`, and `w` can't reach `k`.
fn makes_no_cycle<P: Pairs>(state: &AbsState<P>, k: Id, w: Id, marks: &mut Marks) -> bool
    requires good { IsWellFormed state.now }
    requires object { HasCell (λ _. true) state.now k }
    requires value { HasCell (λ _. true) state.now w }
    ensures { IsTrue result ↔ MakesNoCycle state.now k w }
{
    if !is_finite(state, w, marks) {
        return false;
    }
    !may_be_in(state, k, w, marks)
}

/// The child of a write, where the affected ids are known.
fn child_with<P: Pairs>(
    alloc: Global,
    state: &AbsState<P>,
    write: &Write,
    affected: &IdSet,
    effect: &Effect,
    marks: &mut Marks,
) -> Result<AbsState<P>, AllocError>
    requires good { IsWellFormed state.now }
    requires value { HasCell (λ _. true) state.now write.now.value }
    requires affected { (n : ℕ) → (has_id affected.now n ≡ true) ↔ IsAffected state.now write.now.object n }
    requires null { (effect.now.null ≡ true) ↔ IsNullId state.now write.now.value }
    requires low { All (λ c. name_in effect.now.names c.0 < 2048) state.now.cells }
    ensures { IfOk result (λ child. IsWritten state.now (write_of write.now.object write.now.field write.now.value) effect.now.names
        effect.now.null effect.now.no_cycle child) }
{
    let old = state.cells();
    let pairs = state.share();
    let mut cells = Vec::new(alloc);
    put_written(alloc, effect, write, old, &mut cells)?;
    let cells = Seq::from_vec(cells);
    let list = cells.as_slice();
    let names = effect.names.as_slice();
    let eq = named_pairs(alloc, names, state.eq(), list)?;
    let listed = pairs.list(alloc)?;
    let shared = listed.as_slice();
    let mut share: P = listed_pairs(alloc, names, shared, list)?;
    known_from(state, write.value, marks);
    let known = marks.ids();
    let beside = ids_beside(shared, known);
    let ids = names_among(names, old, affected, affected);
    let met = names_among(names, old, known, &beside);
    put_met(list, effect.null, &ids, &met, &mut share)?;
    whole(alloc, names, state, cells, eq, share)
}

/// The child of a write, where it has at most 512 ids.
fn written<P: Pairs>(
    alloc: Global,
    state: &AbsState<P>,
    write: &Write,
) -> Result<AbsState<P>, AllocError>
    requires good { IsWellFormed state.now }
    requires few { length state.now.cells ≤ most_ids }
    requires object { HasCell (λ _. true) state.now write.now.object }
    requires value { HasCell (λ _. true) state.now write.now.value }
    ensures { IfOk result (λ child. IsWriteChild state.now (write_of write.now.object write.now.field write.now.value) child) }
{
    let mut marks = Marks::new(alloc)?;
    let affected = affected_ids(state, write.object);
    let effect = Effect {
        names: names_for(alloc, state, &affected)?,
        null: is_null(state, write.value),
        no_cycle: makes_no_cycle(state, write.object, write.value, &mut marks),
    };
    child_with(alloc, state, write, &affected, &effect, &mut marks)
}

/// The child of a write, as both calls give it.
fn write_child<P: Pairs>(
    alloc: Global,
    state: &AbsState<P>,
    write: &Write,
) -> Result<Child<P>, HeapFault>
    requires good { IsWellFormed state.now }
    requires object { HasCell (λ _. true) state.now write.now.object }
    requires value { HasCell (λ _. true) state.now write.now.value }
    ensures child { IfOk result (λ r. IsWriteChild state.now (write_of write.now.object write.now.field write.now.value) r.state) }
    ensures link { IfOk result (λ r. r.link ≡ plain_link true None) }
    ensures too_many { (result ≡ Err TooManyIds) ↔ HasTooMany state.now 0 }
{
    if !has_room(state, 0) {
        return Err(HeapFault::TooManyIds);
    }
    let child = written(alloc, state, write)?;
    Ok(Child::new(child, plain_link(alloc, true, None)))
}

/// The child of a state in one step that sets a field of the object of `k` to the reference of `w`. A field past the list of `k`
/// changes no cell.
///
/// The hazy ids whose regions may have that object get new numbers, rising: the least ones without a cell. Each shares with what
/// the region of `w` may meet, as the state was before. A tree or a region without cycles stays what it is where null is written;
/// else it is one without cycles where the region of `w` has none and can't reach `k`, and any otherwise.
///
/// # Errors
///
/// `TooManyIds` exactly where the child has more than 512 ids, which is as many as the state has; `Memory` at want of memory.
pub fn put_field<P: Pairs>(
    alloc: Global,
    state: &AbsState<P>,
    k: Id,
    field: u32,
    w: Id,
) -> Result<Child<P>, HeapFault>
    requires good { IsWellFormed state.now }
    requires object { HasCell (λ _. true) state.now k }
    requires value { HasCell (λ _. true) state.now w }
    ensures child { IfOk result (λ r. IsWriteChild state.now (record { object = k; field = Some field; value = w }) r.state) }
    ensures link { IfOk result (λ r. r.link ≡ plain_link true None) }
    ensures too_many { (result ≡ Err TooManyIds) ↔ HasTooMany state.now 0 }
{
    let write = Write {
        object: k,
        field: Some(field),
        value: w,
    };
    write_child(alloc, state, &write)
}

/// The child of a state in one step that sets an item of the array of references `k` to the reference of `w`. No cell but those of
/// affected ids changes; `k` itself is one of them. For the rest see `put_field`.
///
/// # Errors
///
/// Those of `put_field`.
pub fn store_ref<P: Pairs>(
    alloc: Global,
    state: &AbsState<P>,
    k: Id,
    w: Id,
) -> Result<Child<P>, HeapFault>
    requires good { IsWellFormed state.now }
    requires object { HasCell (λ _. true) state.now k }
    requires value { HasCell (λ _. true) state.now w }
    ensures child { IfOk result (λ r. IsWriteChild state.now (record { object = k; field = None; value = w }) r.state) }
    ensures link { IfOk result (λ r. r.link ≡ plain_link true None) }
    ensures too_many { (result ≡ Err TooManyIds) ↔ HasTooMany state.now 0 }
{
    let write = Write {
        object: k,
        field: None,
        value: w,
    };
    write_child(alloc, state, &write)
}
