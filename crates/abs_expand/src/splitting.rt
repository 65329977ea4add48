//! The children of splits.
ghost use Rattle.std.specs.Prelude.{◌≡◌, ◌≢◌, ◌<◌, ◌&&◌, ◌==◌, nat_le, if◌then◌else◌, IfOk};
ghost use Rattle.std.specs.List.{AllByRecursion, AllZip};
ghost use Rattle.abs_cells.specs.Cells.{AreEqual};
ghost use Rattle.abs_cells.specs.Limits.{most_ids};
ghost use Rattle.abs_cells.specs.Sound.{IsWellFormed};
ghost use Rattle.abs_heap.specs.Answers.{IsNullable, IsObjectBelow};
ghost use Rattle.class_program.specs.Views.{program_of};
ghost use Rattle.class_program.specs.class_world.WorldTypes.{types_of};
ghost use Rattle.jvm_values.specs.TypedHeaps.{WorldTypes};
ghost use Rattle.term_graph.specs.Graphs.{GraphChild};
ghost use Rattle.abs_plans.specs.abs_turns.Plans.{by_null, by_class, by_equal};
ghost use Rattle.abs_expand.specs.Answers.{HasPlanChildren};
ghost use Rattle.abs_expand.specs.inner.Building.{fault_of_split};
ghost use Rattle.abs_expand.specs.Children.{IsLean};

use crate::children::lean_child;
use crate::fault::ExpandFault;
use abs_cells::{AbsState, Id, MOST_IDS, Pairs};
use abs_heap::{SplitFault, refine_class, refine_equal, refine_null};
use abs_reach::Marks;
use class_program::Program;
use jvm_values::Ty;
use list_views::Seq;
use std::alloc::{AllocError, Global};
use term_graph::Child;

/// Children without the ids that nothing reaches.
fn lean_children<P: Pairs>(
    alloc: Global,
    children: Seq<Child<P>>,
    marks: &mut Marks,
) -> Result<Seq<Child<P>>, AllocError>
    requires { AllByRecursion (λ (child : GraphChild). IsWellFormed child.state) children }
    ensures { IfOk result (λ made. AllZip IsLean children made) }
{
    let mut made = Seq::new(alloc);
    for child in children.into_vec() {
        made.push(lean_child(child, marks))?;
    }
    Ok(made)
}

/// The children of a state that is split by null.
pub(crate) fn null_children<P: Pairs>(
    alloc: Global,
    state: &AbsState<P>,
    x: Id,
    marks: &mut Marks,
) -> Result<Option<Seq<Child<P>>>, ExpandFault>
    requires good { IsWellFormed state.now }
    requires nullable { IsNullable state.now x }
    ensures { (types : WorldTypes) → HasPlanChildren types state.now (by_null x) result }
{
    if state.cells().len() > MOST_IDS {
        return Err(ExpandFault::TooManyIds { child: 0 });
    }
    let children = refine_null(alloc, state, x)?;
    Ok(Some(lean_children(alloc, children, marks)?))
}

/// The fault of a split by class, as one of an expansion.
fn fault_of_split(fault: SplitFault) -> ExpandFault
    ensures { result ≡ fault_of_split fault }
{
    match fault {
        SplitFault::TooManyIds { child } => ExpandFault::TooManyIds { child },
        SplitFault::Memory => ExpandFault::Memory,
    }
}

/// The children of a state that is split by class.
pub(crate) fn class_children<P: Pairs>(
    alloc: Global,
    program: &Program<'_>,
    state: &AbsState<P>,
    x: Id,
    wanted: Ty,
    marks: &mut Marks,
) -> Result<Option<Seq<Child<P>>>, ExpandFault>
    requires good { IsWellFormed state.now }
    requires object { IsObjectBelow state.now x }
    ensures { HasPlanChildren (types_of (program_of program.now).world) state.now (by_class x wanted) result }
{
    match refine_class(alloc, &program.world, state, x, wanted) {
        Ok(children) => Ok(Some(lean_children(alloc, children, marks)?)),
        Err(fault) => Err(fault_of_split(fault)),
    }
}

/// The first of so many children of two ids that may be one object which has too many ids, where the state has so many. The child in
/// which they are one is the first of two, and has an id less.
fn first_too_many(children: usize, count: usize) -> usize
    requires { most_ids < count }
    ensures { result ≡ (if (children == 2) && nat_le count 513 then 1 else 0) }
{
    if children == 2 && count - 1 <= MOST_IDS {
        1
    } else {
        0
    }
}

/// The children of a state that is split by whether two ids are one object.
pub(crate) fn equal_children<P: Pairs>(
    alloc: Global,
    program: &Program<'_>,
    state: &AbsState<P>,
    x: Id,
    y: Id,
    marks: &mut Marks,
) -> Result<Option<Seq<Child<P>>>, ExpandFault>
    requires good { IsWellFormed state.now }
    requires pair { AreEqual state.now x y }
    requires differ { x ≢ y }
    ensures { HasPlanChildren (types_of (program_of program.now).world) state.now (by_equal x y) result }
{
    let children = refine_equal(alloc, &program.world, state, x, y)?;
    let count = state.cells().len();
    if count > MOST_IDS {
        return Err(ExpandFault::TooManyIds {
            child: first_too_many(children.len(), count),
        });
    }
    Ok(Some(lean_children(alloc, children, marks)?))
}
