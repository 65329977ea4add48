//! The children of a node whose state is held.
ghost use Rattle.std.specs.Prelude.{◌≡◌, ◌<◌, length, Some, slice_get, IfOk};
ghost use Rattle.term_graph.specs.Graphs.{GraphPart};
ghost use Rattle.filled_graphs.specs.filled_nodes.inner.ChildStates.{AreChildren, AreChildrenOf, IsChildOrFirst};
ghost use Rattle.filled_graphs.specs.filled_nodes.inner.Slots.{IsFull};
ghost use Rattle.filled_graphs.specs.filled_nodes.Holding.{AreKept};

use crate::filled_nodes::expanding::Expands;
use crate::filled_nodes::ground::Ground;
use crate::filled_nodes::slots::state_in;
use abs_cells::{AbsState, Pairs};
use abs_reach::Marks;
use list_views::Seq;
use std::alloc::{AllocError, Global};
use term_graph::{Child, PartSource, copied_state};

/// The children of a state, or none.
#[tactic(auto, using(crate::proofs::Knowing::some_children, crate::proofs::Knowing::no_children))]
fn children_or_none<P: Pairs, E: Expands<P>>(
    alloc: Global,
    expander: &E,
    state: &AbsState<P>,
    marks: &mut Marks,
) -> Result<Seq<Child<P>>, AllocError>
    ensures { IfOk result (λ children. AreChildren (E.rules expander.now) state.now children) }
{
    let found = expander.children(alloc, state, marks)?;
    match found {
        Some(children) => Ok(children),
        None => Ok(Seq::new(alloc)),
    }
}

/// The children of a known node whose state is held, or none.
pub(crate) fn children_of<P: Pairs, S: PartSource<P>, E: Expands<P>>(
    alloc: Global,
    ground: &Ground<'_, P, S, E>,
    slots: &Seq<Option<AbsState<P>>>,
    namer: u32,
    marks: &mut Marks,
) -> Result<Seq<Child<P>>, AllocError>
    requires known { namer < ground.now.known }
    requires full { IsFull slots.now namer }
    requires kept { AreKept (E.rules ground.now.expander) (S.parts ground.now.parts.now) ground.now.filling.0 slots.now }
    ensures { IfOk result (AreChildrenOf (E.rules ground.now.expander) ground.now.filling.0 namer) }
{
    let state = state_in(slots, namer);
    let children = children_or_none(alloc, &ground.expander, state, marks)?;
    Ok(children)
}

/// The state of the first node, which its part has.
fn first_state<P: Pairs, S: PartSource<P>, E: Expands<P>>(
    alloc: Global,
    ground: &Ground<'_, P, S, E>,
) -> Result<AbsState<P>, AllocError>
    requires { 0 < length (S.parts ground.now.parts.now) }
    ensures { IfOk result (λ state. (part : GraphPart) × ((slice_get (S.parts ground.now.parts.now) 0 ≡ Some part)
        × (part.state ≡ Some state))) }
{
    let given = ground.parts.state(alloc, 0)?;
    match given {
        Some(state) => Ok(state),
        None => unreachable!(),
    }
}

/// The state of the child at a place; that of the first node where there is none.
pub(crate) fn child_state<P: Pairs, S: PartSource<P>, E: Expands<P>>(
    alloc: Global,
    ground: &Ground<'_, P, S, E>,
    children: &[Child<P>],
    place: usize,
) -> Result<AbsState<P>, AllocError>
    requires { 0 < length (S.parts ground.now.parts.now) }
    ensures { IfOk result (IsChildOrFirst (S.parts ground.now.parts.now) children.now place) }
{
    if place < children.len() {
        let state = copied_state(alloc, children[place].state())?;
        Ok(state)
    } else {
        let state = first_state(alloc, ground)?;
        Ok(state)
    }
}
