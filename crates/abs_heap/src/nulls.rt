//! Null, or not.
ghost use Rattle.std.specs.Prelude.{◌≡◌, ◌<◌, IfOk, Some, true};
ghost use Rattle.abs_cells.specs.Cells.{cell_at};
ghost use Rattle.abs_cells.specs.declared.cells.Cell.TheVariants as cells;
ghost use Rattle.abs_cells.specs.Sound.{IsWellFormed};
ghost use Rattle.abs_heap.specs.Answers.{IsNullable, AreNullChildren};

use crate::children::{plain_link, with_cell};
use abs_cells::{AbsState, Cell, Id, Pairs};
use abs_reach::cell_of;
use jvm_values::{Shape, Ty};
use list_views::Seq;
use std::alloc::{AllocError, AllocFailed, Global};
use term_graph::Child;

/// The two children of a state in which an id's object may be null, whose cell has this bound and shape.
fn null_children<P: Pairs>(
    alloc: Global,
    state: &AbsState<P>,
    x: Id,
    bound: Ty,
    shape: Shape,
) -> Result<Seq<Child<P>>, AllocError>
    requires good { IsWellFormed state.now }
    requires low { x < 2048 }
    requires is { cell_at state.now x ≡ Some (cells.Unk bound true shape) }
    ensures { IfOk result (λ children. AreNullChildren state.now x children) }
{
    let null = with_cell(alloc, state, x, Cell::Null)?;
    let other = with_cell(alloc, state, x, Cell::Unk(bound, false, shape))?;
    let mut children = Seq::with_capacity(alloc, 2)?;
    children.push(Child::new(null, plain_link(alloc, false, None)))?;
    children.push(Child::new(other, plain_link(alloc, false, None)))?;
    Ok(children)
}

/// The children of a state in which an id, whose cell is `Unk` and nullable, is null and is not: in the first one its cell is
/// `Null`, in the second one it is as before but not nullable. The pairs stay that still may. Both are children of no step.
///
/// # Errors
///
/// Want of memory.
pub fn refine_null<P: Pairs>(
    alloc: Global,
    state: &AbsState<P>,
    x: Id,
) -> Result<Seq<Child<P>>, AllocError>
    requires good { IsWellFormed state.now }
    requires nullable { IsNullable state.now x }
    ensures { IfOk result (λ children. AreNullChildren state.now x children) }
{
    match cell_of(state.cells(), x) {
        Some(Cell::Unk(bound, _, shape)) => null_children(alloc, state, x, *bound, *shape),
        _ => unreachable!(),
    }
}
