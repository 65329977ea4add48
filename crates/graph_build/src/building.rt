//! Graphs that are built node by node.
ghost use Rattle.std.specs.Prelude.{◌≡◌, ◌≤◌};
ghost use Rattle.term_graph.specs.Limits.{most_nodes};
ghost use Rattle.graph_build.specs.Answers.{BuildsOr};
ghost use Rattle.graph_build.specs.declared.building.BuildFault.TheVariants.{Memory};

use crate::grower::Grower;
use crate::growth::{Growing, GrowthLimit};
use abs_cells::{AbsState, Pairs};
use std::alloc::{AllocError, AllocFailed, Global};
use term_graph::Graph;

/// What was built: a disciplined graph.
#[derive(Drop)]
pub enum Built<P: Pairs> {
    /// No node is open.
    Closed(Graph<P>),
    /// The growth of the first open node would give the graph more nodes than the limit.
    Nodes(Graph<P>),
    /// The growth of the first open node has a state with more than 512 ids, counted before ids that nothing reaches are dropped.
    Ids(Graph<P>),
}

/// Why nothing was built: want of memory.
#[derive(Clone, Copy, PartialEq, Eq)]
pub enum BuildFault {
    /// Want of memory.
    Memory,
}

impl From<AllocError> for BuildFault {
    ghost from_gives = { λ _ e. e ≡ Memory };

    fn from(_e: AllocError) -> BuildFault {
        BuildFault::Memory
    }
}

impl<T: Drop> From<AllocFailed<T>> for BuildFault {
    ghost from_gives = { λ _ e. e ≡ Memory };

    fn from(_e: AllocFailed<T>) -> BuildFault {
        BuildFault::Memory
    }
}

/// Builds the disciplined graph of a root, up to a limit of nodes.
///
/// # Errors
///
/// Want of memory.
pub fn build<P: Pairs, G: Grower<P>>(
    alloc: Global,
    grower: &mut G,
    root: AbsState<P>,
    limit: u32,
) -> Result<Built<P>, BuildFault>
    requires root { G.good (G.meaning grower.old) root }
    requires positive { 1 ≤ limit }
    requires small { limit ≤ most_nodes }
    ensures built { BuildsOr (G.rules (G.meaning grower.old)) root limit result }
    ensures same { G.meaning grower.new ≡ G.meaning grower.old }
{
    let mut growing = Growing::of_root(alloc, root)?;
    while !growing.waiting.is_empty() {
        let n = *growing.waiting.at(0);
        match growing.plan(alloc, grower, n, growing.graph.at(n).state(), limit) {
            Ok(plan) => growing.grow(alloc, n, plan)?,
            Err(GrowthLimit::Nodes) => return Ok(Built::Nodes(growing.graph)),
            Err(GrowthLimit::Ids) => return Ok(Built::Ids(growing.graph)),
            Err(GrowthLimit::Memory) => return Err(BuildFault::Memory),
        }
    }
    Ok(Built::Closed(growing.graph))
}
