//! An item of an array of references.
ghost use Rattle.std.specs.Prelude.{◌≡◌, ◌⊎◌, ◌<◌, ◌↔◌, ℕ, true, IfOk, Err, Some, None};
ghost use Rattle.jvm_values.specs.declared.shape.Shape.TheVariants.{Any};
ghost use Rattle.abs_cells.specs.Cells.{HasCell, Share};
ghost use Rattle.abs_cells.specs.IdSets.{has_id};
ghost use Rattle.abs_cells.specs.Sound.{IsWellFormed};
ghost use Rattle.abs_heap.specs.Answers.{IsLoaded};
ghost use Rattle.abs_heap.specs.inner.Building.{IsGivenItem};
ghost use Rattle.abs_heap.specs.Counts.{HasTooMany};
ghost use Rattle.abs_heap.specs.Laws.{plain_link};
ghost use Rattle.abs_heap.specs.Writing.{is_array_of_references, IsItemChild};
ghost use Rattle.abs_heap.specs.declared.fault.HeapFault.TheVariants.{TooManyIds};

use crate::children::{has_room, named_pairs, plain_link, put_state, whole};
use crate::compatible::{put_compatible, put_if};
use crate::fault::HeapFault;
use crate::fresh::fresh_id;
use crate::gaining::{partners, put_pair, put_with};
use crate::putting::put_cell;
use abs_cells::{AbsState, Cell, Id, IdSet, Pairs};
use abs_reach::cell_of;
use jvm_values::{Shape, Ty, Types};
use list_views::Seq;
use std::alloc::{AllocError, AllocFailed, Global};
use term_graph::Child;

/// The ids that an item of an array joins: those that share with the array, and the array itself where its region may have
/// cycles.
pub(crate) fn item_partners<P: Pairs>(state: &AbsState<P>, k: Id, shape: Shape) -> IdSet
    requires { k < 2048 }
    ensures { (n : ℕ) → (has_id result n ≡ true) ↔ (Share state.now k n ⊎ ((shape ≡ Any) × (n ≡ k))) }
{
    let mut others = partners(state.share(), k);
    put_if(&mut others, shape == Shape::Any, k);
    others
}

/// The state with an item of the array `k`, of a type and a shape, at an id.
fn with_item<T: Types, P: Pairs>(
    alloc: Global,
    types: &T,
    state: &AbsState<P>,
    k: Id,
    element: Ty,
    shape: Shape,
    item: Id,
) -> Result<AbsState<P>, AllocError>
    requires good { IsWellFormed state.now }
    requires low { (k < 2048) × (item < 2048) }
    ensures { IfOk result (λ child. IsGivenItem (T.sub types.now) state.now k element shape item child) }
{
    let mut cells = Vec::new(alloc);
    put_cell(&mut cells, item, Cell::Unk(element, true, shape))?;
    put_state(alloc, state, &mut cells)?;
    let cells = Seq::from_vec(cells);
    let list = cells.as_slice();
    let mut eq = named_pairs(alloc, &[], state.eq(), list)?;
    let mut share = named_pairs(alloc, &[], state.share(), list)?;
    let others = item_partners(state, k, shape);
    put_compatible(types, list, item, &others, &mut eq)?;
    put_with(list, item, &others, &mut share)?;
    put_pair(list, item, k, &mut share)?;
    whole(alloc, &[], state, cells, eq, share)
}

/// The child in which an item is read of the array `k`, whose cell has this element type and shape, and the item's id.
fn item_child<T: Types, P: Pairs>(
    alloc: Global,
    types: &T,
    state: &AbsState<P>,
    k: Id,
    element: Ty,
    shape: Shape,
) -> Result<(Child<P>, Id), HeapFault>
    requires good { IsWellFormed state.now }
    requires low { k < 2048 }
    ensures child { IfOk result (λ r. IsItemChild (T.sub types.now) state.now k element shape r.1 r.0.state) }
    ensures link { IfOk result (λ r. r.0.link ≡ plain_link true None) }
    ensures too_many { (result ≡ Err TooManyIds) ↔ HasTooMany state.now 1 }
{
    if !has_room(state, 1) {
        return Err(HeapFault::TooManyIds);
    }
    let item = fresh_id(alloc, state)?;
    let child = with_item(alloc, types, state, k, element, shape, item)?;
    Ok((Child::new(child, plain_link(alloc, true, None)), item))
}

/// The child of a state in one step that reads an item of the array of references `k`, and the item's id: the least number without
/// a cell. The item is an object of the element type, or null, and its region has the array's shape. It shares with the array and
/// all that shares with it; where their cells allow it, it may be one object with what shares with the array, and, where the region
/// may have cycles, with the array itself.
///
/// # Errors
///
/// `TooManyIds` exactly where the child has more than 512 ids; `Memory` at want of memory.
pub fn load_ref<T: Types, P: Pairs>(
    alloc: Global,
    types: &T,
    state: &AbsState<P>,
    k: Id,
) -> Result<(Child<P>, Id), HeapFault>
    requires good { IsWellFormed state.now }
    requires array { HasCell is_array_of_references state.now k }
    ensures child { IfOk result (λ r. IsLoaded (T.sub types.now) state.now k r.1 r.0.state) }
    ensures link { IfOk result (λ r. r.0.link ≡ plain_link true None) }
    ensures too_many { (result ≡ Err TooManyIds) ↔ HasTooMany state.now 1 }
{
    match cell_of(state.cells(), k) {
        Some(Cell::Refs(element, _, shape)) => {
            item_child(alloc, types, state, k, *element, *shape)
        }
        _ => unreachable!(),
    }
}
