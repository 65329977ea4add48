//! A source's nodes as a graph in memory.
ghost use Rattle.std.specs.Prelude.{◌≡◌, ◌≤◌, length, IfOk};
ghost use Rattle.term_graph.specs.Limits.{most_nodes};

use abs_cells::Pairs;
use std::alloc::{AllocError, Global};
use term_graph::{Graph, NodeSource};

/// The nodes of a source, each once.
#[tactic(auto, using(crate::proofs::Taken::all_taken))]
pub(crate) fn collected<P: Pairs, S: NodeSource<P>>(
    alloc: Global,
    source: &mut S,
) -> Result<Graph<P>, AllocError>
    requires few { length (S.graph source.old) ≤ most_nodes }
    ensures graph { IfOk result (λ graph. graph ≡ S.graph source.old) }
    ensures same { S.graph source.new ≡ S.graph source.old }
{
    let mut graph = Graph::new(alloc);
    for n in 0..source.count() {
        let node = source.node(alloc, n)?;
        graph.push(node)?;
    }
    Ok(graph)
}
