//! Copies of states and of nodes.
ghost use Rattle.std.specs.Prelude.{◌≡◌, IfOk};

use crate::nodes::{By, Node};
use abs_cells::list_views::Seq;
use abs_cells::{AbsState, Pairs, copied_cells, copied_frames};
use std::alloc::{AllocError, AllocFailed, Global};

/// The same state once more, in as much time as the state is long.
///
/// # Errors
///
/// Want of memory.
pub fn copied_state<P: Pairs>(alloc: Global, state: &AbsState<P>) -> Result<AbsState<P>, AllocError>
    ensures { IfOk result (λ copy. copy ≡ state.now) }
{
    let frames = copied_frames(alloc, state.frames())?;
    let cells = copied_cells(alloc, state.cells())?;
    let eq = state.eq().copied(alloc)?;
    let share = state.share().copied(alloc)?;
    Ok(AbsState::new(frames, state.throwing(), cells, eq, share))
}

/// The same way to leave a node once more.
///
/// # Errors
///
/// Want of memory.
pub fn copied_by(alloc: Global, by: &By) -> Result<By, AllocError>
    ensures { IfOk result (λ copy. copy ≡ by.now) }
{
    Ok(match by {
        By::Expand(children) => By::Expand(Seq::from_slice(alloc, children.as_slice())?),
        By::Instance { target, map } => By::Instance {
            target: *target,
            map: Seq::from_slice(alloc, map.as_slice())?,
        },
        By::End => By::End,
        By::Todo => By::Todo,
    })
}

/// The same node once more.
///
/// # Errors
///
/// Want of memory.
pub fn copied_node<P: Pairs>(alloc: Global, node: &Node<P>) -> Result<Node<P>, AllocError>
    ensures { IfOk result (λ copy. copy ≡ node.now) }
{
    let state = copied_state(alloc, node.state())?;
    let by = copied_by(alloc, node.by())?;
    Ok(Node::new(state, by))
}
