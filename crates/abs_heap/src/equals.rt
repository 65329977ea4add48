//! Two ids that may stand for one object: one, or two.
ghost use Rattle.std.specs.Prelude.{◌≡◌, ◌≢◌, ◌↔◌, ◌<◌, ◌-◌, ℕ, IfOk, Some, true};
ghost use Rattle.abs_cells.specs.Cells.{type_of_cell, are_compatible, cell_at, AreEqual};
ghost use Rattle.abs_cells.specs.PairLists.{has};
ghost use Rattle.abs_cells.specs.Sound.{IsWellFormed};
ghost use Rattle.abs_heap.specs.Answers.{IsMergedAnswer, IsApartAnswer, AreEqualAnswers};
ghost use Rattle.abs_heap.specs.Names.{IsPairOf};
ghost use Rattle.abs_heap.specs.Refining.{rank_of, stays_before, better_of, element_told, lower_element, lower_bound, merged_cell};
ghost use Rattle.abs_heap.specs.Refining.{IsMergedChild};

use crate::children::{named_pairs, plain_link, put_state, whole};
use crate::compatible::{are_compatible, told_type};
use crate::naming::named_cell;
use crate::putting::{put_cell, put_cells};
use crate::shapes::better;
use abs_cells::{AbsState, Cell, Id, Ids, Pairs};
use abs_reach::cell_of;
use jvm_values::{Shape, Ty, Types, item_of};
use list_views::Seq;
use std::alloc::{AllocError, AllocFailed, Global};
use term_graph::Child;

/// How well a cell tells its object: 0 where it is known, 1 for an array of references, 2 for an object of a bound.
fn rank_of(cell: &Cell) -> u8
    ensures { result ≡ rank_of cell.now }
{
    match cell {
        Cell::Obj(_, _) | Cell::Nums(_, _) => 0,
        Cell::Refs(_, _, _) => 1,
        Cell::Unk(_, _, _) => 2,
        Cell::Int(_) | Cell::Null => 3,
    }
}

/// Whether an id stays where two become one.
fn stays_before(rank: u8, id: Id, other_rank: u8, other: Id) -> bool
    ensures { result ≡ stays_before rank id other_rank other }
{
    rank < other_rank || (rank == other_rank && id < other)
}

/// The better of a shape and one that may not be told.
fn better_of(shape: Shape, other: Option<Shape>) -> Shape
    ensures { result ≡ better_of shape other }
{
    match other {
        Some(other) => better(shape, other),
        None => shape,
    }
}

/// The element type that a cell tells of an array of references, if it tells one.
fn element_told(cell: &Cell) -> Option<Ty>
    ensures { result ≡ element_told cell.now }
{
    match cell {
        Cell::Refs(element, _, _) => Some(*element),
        Cell::Unk(bound, _, _) => item_of(*bound),
        Cell::Int(_) | Cell::Null | Cell::Obj(_, _) | Cell::Nums(_, _) => None,
    }
}

/// The lower one of an element type and one that may not be told, where they are comparable.
fn lower_element<T: Types>(types: &T, element: Ty, told: Option<Ty>) -> Ty
    ensures { result ≡ lower_element (T.sub types.now) element told }
{
    match told {
        Some(other) => {
            if types.sub(other, element) {
                other
            } else {
                element
            }
        }
        None => element,
    }
}

/// The lower one of a bound and the type that a cell tells, which may describe the same object as another one.
fn lower_bound<T: Types>(types: &T, bound: Ty, cell: &Cell, goes: &Cell) -> Ty
    requires { are_compatible (T.sub types.now) cell.now goes.now ≡ true }
    ensures { result ≡ lower_bound (T.sub types.now) bound (type_of_cell goes.now) }
{
    match told_type(goes) {
        Some(other) => {
            if types.sub(bound, other) {
                bound
            } else {
                other
            }
        }
        None => bound,
    }
}

/// The cell of the id that stays, where it and another one become one.
fn merged_cell<T: Types>(
    alloc: Global,
    types: &T,
    cell: &Cell,
    goes: &Cell,
) -> Result<Cell, AllocError>
    requires { are_compatible (T.sub types.now) cell.now goes.now ≡ true }
    ensures { IfOk result (λ merged. merged ≡ merged_cell (T.sub types.now) cell.now goes.now) }
{
    Ok(match cell {
        Cell::Int(interval) => Cell::Int(*interval),
        Cell::Null => Cell::Null,
        Cell::Obj(class, ids) => Cell::Obj(*class, Ids::from_slice(alloc, ids.as_slice())?),
        Cell::Nums(kind, len) => Cell::Nums(*kind, *len),
        Cell::Refs(element, len, shape) => Cell::Refs(
            lower_element(types, *element, element_told(goes)),
            *len,
            better_of(*shape, goes.shape()),
        ),
        Cell::Unk(bound, _, shape) => Cell::Unk(
            lower_bound(types, *bound, cell, goes),
            false,
            better_of(*shape, goes.shape()),
        ),
    })
}

/// The state in which the id `goes` is under the name of `stays`, whose cells are these.
fn merged_state<T: Types, P: Pairs>(
    alloc: Global,
    types: &T,
    state: &AbsState<P>,
    stays: Id,
    goes: Id,
    cell: &Cell,
    other: &Cell,
) -> Result<AbsState<P>, AllocError>
    requires good { IsWellFormed state.now }
    requires cell { cell_at state.now stays ≡ Some cell.now }
    requires other { cell_at state.now goes ≡ Some other.now }
    requires compatible { are_compatible (T.sub types.now) cell.now other.now ≡ true }
    requires differ { stays ≢ goes }
    ensures { IfOk result (λ child. IsMergedChild (T.sub types.now) state.now stays goes child) }
{
    let names = [(goes, stays)];
    let merged = merged_cell(alloc, types, cell, other)?;
    let mut cells = Vec::new(alloc);
    put_cell(&mut cells, stays, named_cell(alloc, &names, &merged)?)?;
    put_cells(alloc, &names, state.cells(), &mut cells)?;
    let cells = Seq::from_vec(cells);
    let list = cells.as_slice();
    let eq = named_pairs(alloc, &names, state.eq(), list)?;
    let share = named_pairs(alloc, &names, state.share(), list)?;
    whole(alloc, &names, state, cells, eq, share)
}

/// The child in which two ids are one, of which the one stays that is known better, or else the lower one.
fn merged_child<T: Types, P: Pairs>(
    alloc: Global,
    types: &T,
    state: &AbsState<P>,
    x: Id,
    y: Id,
    left: &Cell,
    right: &Cell,
) -> Result<Child<P>, AllocError>
    requires good { IsWellFormed state.now }
    requires left { cell_at state.now x ≡ Some left.now }
    requires right { cell_at state.now y ≡ Some right.now }
    requires compatible { are_compatible (T.sub types.now) left.now right.now ≡ true }
    requires differ { x ≢ y }
    ensures { IfOk result (λ child. IsMergedAnswer (T.sub types.now) state.now x y child) }
{
    if stays_before(rank_of(left), x, rank_of(right), y) {
        let merged = merged_state(alloc, types, state, x, y, left, right)?;
        Ok(Child::new(merged, plain_link(alloc, false, Some((y, x)))))
    } else {
        let merged = merged_state(alloc, types, state, y, x, right, left)?;
        Ok(Child::new(merged, plain_link(alloc, false, Some((x, y)))))
    }
}

/// Takes a pair away, if it is there.
fn remove_pair<P: Pairs>(pairs: &mut P, a: Id, b: Id)
    requires differ { a ≢ b }
    requires low { (a < 2048) × (b < 2048) }
    ensures { (c d : ℕ) → (has c d (P.pairs pairs.new) ≡ true) ↔ ((has c d (P.pairs pairs.old) ≡ true) × (IsPairOf a b c d → ⊥)) }
{
    if pairs.nth(0).is_some() {
        pairs.remove(a, b);
    }
}

/// The child in which two ids are two: they are no pair of one object any more, and share as before.
fn apart_child<P: Pairs>(
    alloc: Global,
    state: &AbsState<P>,
    x: Id,
    y: Id,
) -> Result<Child<P>, AllocError>
    requires good { IsWellFormed state.now }
    requires differ { x ≢ y }
    requires low { (x < 2048) × (y < 2048) }
    ensures { IfOk result (λ child. IsApartAnswer state.now x y child) }
{
    let mut cells = Vec::new(alloc);
    put_state(alloc, state, &mut cells)?;
    let cells = Seq::from_vec(cells);
    let list = cells.as_slice();
    let mut eq = named_pairs(alloc, &[], state.eq(), list)?;
    remove_pair(&mut eq, x, y);
    let share = named_pairs(alloc, &[], state.share(), list)?;
    let apart = whole(alloc, &[], state, cells, eq, share)?;
    Ok(Child::new(apart, plain_link(alloc, false, None)))
}

/// The children of a pair of ids whose cells are these.
fn equal_children<T: Types, P: Pairs>(
    alloc: Global,
    types: &T,
    state: &AbsState<P>,
    x: Id,
    y: Id,
    left: &Cell,
    right: &Cell,
) -> Result<Seq<Child<P>>, AllocError>
    requires good { IsWellFormed state.now }
    requires left { cell_at state.now x ≡ Some left.now }
    requires right { cell_at state.now y ≡ Some right.now }
    requires differ { x ≢ y }
    requires low { (x < 2048) × (y < 2048) }
    ensures { IfOk result (λ children. AreEqualAnswers (T.sub types.now) state.now x y children) }
{
    let mut children = Seq::with_capacity(alloc, 2)?;
    let apart = apart_child(alloc, state, x, y)?;
    if are_compatible(types, left, right) {
        let merged = merged_child(alloc, types, state, x, y, left, right)?;
        children.push(merged)?;
        children.push(apart)?;
        Ok(children)
    } else {
        children.push(apart)?;
        Ok(children)
    }
}

/// The children of a state in which two ids that are a pair are one object, and two. They can be one where their cells are
/// compatible; then that child comes first. In it the id that goes is under the name of the one that stays: a known one stays before
/// an array of references before an object of a bound, and then the lower id. The cell of the one that stays has the lower type and
/// the better shape, and is not nullable; it has the pairs of both. In the other child the two are no pair of one object any more, and
/// share as before. Both are children of no step.
///
/// # Errors
///
/// Want of memory.
pub fn refine_equal<T: Types, P: Pairs>(
    alloc: Global,
    types: &T,
    state: &AbsState<P>,
    x: Id,
    y: Id,
) -> Result<Seq<Child<P>>, AllocError>
    requires good { IsWellFormed state.now }
    requires pair { AreEqual state.now x y }
    requires differ { x ≢ y }
    ensures { IfOk result (λ children. AreEqualAnswers (T.sub types.now) state.now x y children) }
{
    match cell_of(state.cells(), x) {
        Some(left) => match cell_of(state.cells(), y) {
            Some(right) => equal_children(alloc, types, state, x, y, left, right),
            None => unreachable!(),
        },
        None => unreachable!(),
    }
}
