//! What an object may be that is known to be below a type: an instance of a class, or an array.
ghost use Rattle.std.specs.Prelude.{◌≡◌, ◌<◌, ◌↔◌, ℕ, false, IfOk, OnOk, Err, Some, [], ◌∷◌};
ghost use Rattle.std.specs.List.{list_any};
ghost use Rattle.jvm_values.specs.TypedHeaps.{world_types};
ghost use Rattle.abs_cells.specs.Cells.{cell_at};
ghost use Rattle.abs_cells.specs.declared.cells.Cell.TheVariants as cells;
ghost use Rattle.abs_cells.specs.Sound.{IsWellFormed};
ghost use Rattle.abs_heap.specs.Answers.{IsObjectBelow, AreClassChildren, IsFirstTooManyChild};
ghost use Rattle.abs_heap.specs.Counts.{case_counts, IsFirstTooMany};
ghost use Rattle.abs_heap.specs.Refining.{element_below, instances_below, listed, cases_below};
ghost use Rattle.abs_heap.specs.inner.Splitting.{instances_among, numbers_among, crowds, AddsCases};
ghost use Rattle.abs_heap.specs.declared.fault.SplitFault.TheVariants.{TooManyIds};

use crate::below::{element_below, is_comparable, is_instance_below, is_numbers_below, lower_of};
use crate::crowds::past_cases;
use crate::fault::SplitFault;
use crate::instances::{instance_child, numbers_child, references_child};
use abs_cells::{AbsState, Cell, Id, Pairs};
use abs_reach::cell_of;
use jvm_values::{Kind, Shape, Ty, Types};
use list_views::Seq;
use std::alloc::{AllocError, AllocFailed, Global};
use term_graph::Child;

/// Adds the child in which an object below a type is an instance of a class, if it may be one.
fn put_instance<T: Types, P: Pairs>(
    alloc: Global,
    types: &T,
    state: &AbsState<P>,
    x: Id,
    shape: Shape,
    bound: Ty,
    class: u32,
    children: &mut Seq<Child<P>>,
) -> Result<(), AllocError>
    requires good { IsWellFormed state.now }
    requires x { x < 2048 }
    requires class { class < T.classes types.now }
    requires room { list_any
        (crowds (world_types (T.sub types.now) (T.erase types.now) (T.classes types.now) (T.fields types.now)
        (T.can_be_made types.now)) state.now)
        (instances_among (world_types (T.sub types.now) (T.erase types.now) (T.classes types.now) (T.fields types.now)
        (T.can_be_made types.now)) bound (class ∷ [])) ≡ false }
    ensures { OnOk result
        (AddsCases (world_types (T.sub types.now) (T.erase types.now) (T.classes types.now) (T.fields types.now)
        (T.can_be_made types.now)) state.now x shape
        (instances_among (world_types (T.sub types.now) (T.erase types.now) (T.classes types.now) (T.fields types.now)
        (T.can_be_made types.now)) bound (class ∷ [])) children.old children.new) }
{
    if is_instance_below(types, bound, class) {
        children.push(instance_child(alloc, types, state, x, shape, class)?)?;
    }
    Ok(())
}

/// Adds those children of all classes, by number.
fn put_instances<T: Types, P: Pairs>(
    alloc: Global,
    types: &T,
    state: &AbsState<P>,
    x: Id,
    shape: Shape,
    bound: Ty,
    children: &mut Seq<Child<P>>,
) -> Result<(), AllocError>
    requires good { IsWellFormed state.now }
    requires x { x < 2048 }
    requires room { list_any
        (crowds (world_types (T.sub types.now) (T.erase types.now) (T.classes types.now) (T.fields types.now)
        (T.can_be_made types.now)) state.now)
        (instances_below (world_types (T.sub types.now) (T.erase types.now) (T.classes types.now) (T.fields types.now)
        (T.can_be_made types.now)) bound) ≡ false }
    ensures { OnOk result
        (AddsCases (world_types (T.sub types.now) (T.erase types.now) (T.classes types.now) (T.fields types.now)
        (T.can_be_made types.now)) state.now x shape
        (instances_below (world_types (T.sub types.now) (T.erase types.now) (T.classes types.now) (T.fields types.now)
        (T.can_be_made types.now)) bound) children.old children.new) }
{
    let mut class = 0;
    while class < types.classes() {
        put_instance(alloc, types, state, x, shape, bound, class, children)?;
        class += 1;
    }
    Ok(())
}

/// Adds the child in which an object below a type is an array of numbers of a kind, if it may be one.
fn put_numbers<T: Types, P: Pairs>(
    alloc: Global,
    types: &T,
    state: &AbsState<P>,
    x: Id,
    shape: Shape,
    bound: Ty,
    kind: Kind,
    children: &mut Seq<Child<P>>,
) -> Result<(), AllocError>
    requires good { IsWellFormed state.now }
    requires x { x < 2048 }
    requires room { list_any
        (crowds (world_types (T.sub types.now) (T.erase types.now) (T.classes types.now) (T.fields types.now)
        (T.can_be_made types.now)) state.now)
        (numbers_among (world_types (T.sub types.now) (T.erase types.now) (T.classes types.now) (T.fields types.now)
        (T.can_be_made types.now)) bound (kind ∷ [])) ≡ false }
    ensures { OnOk result
        (AddsCases (world_types (T.sub types.now) (T.erase types.now) (T.classes types.now) (T.fields types.now)
        (T.can_be_made types.now)) state.now x shape
        (numbers_among (world_types (T.sub types.now) (T.erase types.now) (T.classes types.now) (T.fields types.now)
        (T.can_be_made types.now)) bound (kind ∷ [])) children.old children.new) }
{
    if is_numbers_below(types, bound, kind) {
        children.push(numbers_child(alloc, state, x, kind)?)?;
    }
    Ok(())
}

/// Adds those children of some kinds, in order.
fn put_all_numbers<T: Types, P: Pairs>(
    alloc: Global,
    types: &T,
    state: &AbsState<P>,
    x: Id,
    shape: Shape,
    bound: Ty,
    kinds: &[Kind],
    children: &mut Seq<Child<P>>,
) -> Result<(), AllocError>
    requires good { IsWellFormed state.now }
    requires x { x < 2048 }
    requires room { list_any
        (crowds (world_types (T.sub types.now) (T.erase types.now) (T.classes types.now) (T.fields types.now)
        (T.can_be_made types.now)) state.now)
        (numbers_among (world_types (T.sub types.now) (T.erase types.now) (T.classes types.now) (T.fields types.now)
        (T.can_be_made types.now)) bound kinds.now) ≡ false }
    ensures { OnOk result
        (AddsCases (world_types (T.sub types.now) (T.erase types.now) (T.classes types.now) (T.fields types.now)
        (T.can_be_made types.now)) state.now x shape
        (numbers_among (world_types (T.sub types.now) (T.erase types.now) (T.classes types.now) (T.fields types.now)
        (T.can_be_made types.now)) bound kinds.now) children.old children.new) }
{
    for kind in kinds {
        put_numbers(alloc, types, state, x, shape, bound, *kind, children)?;
    }
    Ok(())
}

/// Adds the child in which an object below a type is an array of references, if it may be one.
fn put_array<T: Types, P: Pairs>(
    alloc: Global,
    types: &T,
    state: &AbsState<P>,
    x: Id,
    shape: Shape,
    bound: Ty,
    children: &mut Seq<Child<P>>,
) -> Result<(), AllocError>
    requires good { IsWellFormed state.now }
    requires x { x < 2048 }
    requires room { list_any
        (crowds (world_types (T.sub types.now) (T.erase types.now) (T.classes types.now) (T.fields types.now)
        (T.can_be_made types.now)) state.now)
        (listed (element_below (world_types (T.sub types.now) (T.erase types.now) (T.classes types.now) (T.fields types.now)
        (T.can_be_made types.now)) bound)) ≡ false }
    ensures { OnOk result
        (AddsCases (world_types (T.sub types.now) (T.erase types.now) (T.classes types.now) (T.fields types.now)
        (T.can_be_made types.now)) state.now x shape
        (listed (element_below (world_types (T.sub types.now) (T.erase types.now) (T.classes types.now) (T.fields types.now)
        (T.can_be_made types.now)) bound)) children.old children.new) }
{
    if let Some(element) = element_below(types, bound) {
        children.push(references_child(alloc, state, x, shape, element)?)?;
    }
    Ok(())
}

/// The children in which an object is one of those below a type, where none has too many ids.
fn case_children<T: Types, P: Pairs>(
    alloc: Global,
    types: &T,
    state: &AbsState<P>,
    x: Id,
    shape: Shape,
    bound: Ty,
) -> Result<Seq<Child<P>>, AllocError>
    requires good { IsWellFormed state.now }
    requires x { x < 2048 }
    requires room { list_any
        (crowds (world_types (T.sub types.now) (T.erase types.now) (T.classes types.now) (T.fields types.now)
        (T.can_be_made types.now)) state.now)
        (cases_below (world_types (T.sub types.now) (T.erase types.now) (T.classes types.now) (T.fields types.now)
        (T.can_be_made types.now)) bound) ≡ false }
    ensures { IfOk result
        (λ children. AddsCases (world_types (T.sub types.now) (T.erase types.now) (T.classes types.now) (T.fields types.now)
        (T.can_be_made types.now)) state.now x shape
        (cases_below (world_types (T.sub types.now) (T.erase types.now) (T.classes types.now) (T.fields types.now)
        (T.can_be_made types.now)) bound) [] children) }
{
    let kinds = [
        Kind::Boolean,
        Kind::Char,
        Kind::Byte,
        Kind::Short,
        Kind::Int,
    ];
    let mut children = Seq::new(alloc);
    put_instances(alloc, types, state, x, shape, bound, &mut children)?;
    put_all_numbers(alloc, types, state, x, shape, bound, &kinds, &mut children)?;
    put_array(alloc, types, state, x, shape, bound, &mut children)?;
    Ok(children)
}

/// The children in which an object is one of those below a type.
fn children_below<T: Types, P: Pairs>(
    alloc: Global,
    types: &T,
    state: &AbsState<P>,
    x: Id,
    shape: Shape,
    bound: Ty,
) -> Result<Seq<Child<P>>, SplitFault>
    requires good { IsWellFormed state.now }
    requires x { x < 2048 }
    ensures children { IfOk result
        (λ children. AddsCases (world_types (T.sub types.now) (T.erase types.now) (T.classes types.now) (T.fields types.now)
        (T.can_be_made types.now)) state.now x shape
        (cases_below (world_types (T.sub types.now) (T.erase types.now) (T.classes types.now) (T.fields types.now)
        (T.can_be_made types.now)) bound) [] children) }
    ensures too_many { (n : ℕ)
        → (result ≡ Err (TooManyIds n)) ↔ IsFirstTooMany
        (case_counts (world_types (T.sub types.now) (T.erase types.now) (T.classes types.now) (T.fields types.now)
        (T.can_be_made types.now)) state.now
        (cases_below (world_types (T.sub types.now) (T.erase types.now) (T.classes types.now) (T.fields types.now)
        (T.can_be_made types.now)) bound)) n }
{
    match past_cases(types, state, bound) {
        Ok(_) => Ok(case_children(alloc, types, state, x, shape, bound)?),
        Err(child) => Err(SplitFault::TooManyIds { child }),
    }
}

/// The children of a state in which an id's object has this bound and shape.
fn class_children<T: Types, P: Pairs>(
    alloc: Global,
    types: &T,
    state: &AbsState<P>,
    x: Id,
    bound: Ty,
    shape: Shape,
    wanted: Ty,
) -> Result<Seq<Child<P>>, SplitFault>
    requires good { IsWellFormed state.now }
    requires is { cell_at state.now x ≡ Some (cells.Unk bound false shape) }
    ensures children { IfOk result
        (λ children. AreClassChildren
        (world_types (T.sub types.now) (T.erase types.now) (T.classes types.now) (T.fields types.now) (T.can_be_made types.now))
        state.now x wanted children) }
    ensures too_many { (n : ℕ)
        → (result ≡ Err (TooManyIds n)) ↔ IsFirstTooManyChild
        (world_types (T.sub types.now) (T.erase types.now) (T.classes types.now) (T.fields types.now) (T.can_be_made types.now))
        state.now x wanted n }
{
    if is_comparable(types, bound, wanted) {
        let low = lower_of(types, bound, wanted);
        children_below(alloc, types, state, x, shape, low)
    } else {
        Ok(Seq::new(alloc))
    }
}

/// The children of a state in which an id, whose cell is `Unk` and not nullable, stands for an object that is below another type
/// too: one for each case of what that object may be. Of the two types the lower one counts; where neither is below the other there
/// are no children.
///
/// The cases are, in order: each class below that type of which there are instances, by number; the arrays of boolean, char, byte,
/// short and int, as far as they are below it; and the arrays of references below it, all as one case, which are those of
/// `java/lang/Object` where Object itself is below the type. An instance has a fresh id for each field, and an array one for its
/// length, an int that is not negative; fresh ids are the least numbers without a cell, rising.
///
/// A field of a number holds an int of its kind; one of references an object of its type, or null, whose region has the shape of the
/// object's. The id of such a field shares with what shares with the object; with those of the other such fields, where the region may
/// be no tree; and with the object itself, where the region may have cycles. Where their cells allow it, it may be one object with
/// these. All children are of no step.
///
/// # Errors
///
/// `TooManyIds` exactly where a child has more than 512 ids, with the number of the first that has; `Memory` at want of memory.
pub fn refine_class<T: Types, P: Pairs>(
    alloc: Global,
    types: &T,
    state: &AbsState<P>,
    x: Id,
    wanted: Ty,
) -> Result<Seq<Child<P>>, SplitFault>
    requires good { IsWellFormed state.now }
    requires object { IsObjectBelow state.now x }
    ensures children { IfOk result
        (λ children. AreClassChildren
        (world_types (T.sub types.now) (T.erase types.now) (T.classes types.now) (T.fields types.now) (T.can_be_made types.now))
        state.now x wanted children) }
    ensures too_many { (n : ℕ)
        → (result ≡ Err (TooManyIds n)) ↔ IsFirstTooManyChild
        (world_types (T.sub types.now) (T.erase types.now) (T.classes types.now) (T.fields types.now) (T.can_be_made types.now))
        state.now x wanted n }
{
    match cell_of(state.cells(), x) {
        Some(Cell::Unk(bound, _, shape)) => {
            class_children(alloc, types, state, x, *bound, *shape, wanted)
        }
        _ => unreachable!(),
    }
}
