//! The nodes on the paths between cuts, in the order of the paths' numbers: by the cut at which they start, and then depth first, by the order of
//! children.

use abs_cells::PackedPairs;
use list_views::Seq;
use std::alloc::{AllocError, Global};
use term_graph::{By, Graph};

/// The most steps of the walk over all paths; what lies behind them isn't told.
const MOST_STEPS: u32 = 1_000_000;

/// The nodes of a path, its cuts at both ends.
#[derive(Drop)]
pub(crate) struct Way {
    /// The path's number.
    pub(crate) number: u32,
    /// Its nodes.
    pub(crate) nodes: Seq<u32>,
}

/// A node on the way, and how many of its children were gone to.
#[derive(Clone, Copy)]
struct Stop {
    node: u32,
    gone: usize,
}

/// A walk over paths.
#[derive(Drop)]
struct Walk {
    stops: Vec<Stop>,
    number: u32,
    ways: Vec<Way>,
}

/// The child of a node at a place.
fn child(graph: &Graph<PackedPairs>, stop: Stop) -> Option<u32> {
    if (stop.node as usize) >= graph.len() {
        return None;
    }
    match graph.at(stop.node).by() {
        By::Expand(children) => children.get(stop.gone).copied(),
        By::Instance { target, .. } => { if stop.gone == 0 { Some(*target) } else { None } }
        By::End => None,
        By::Todo => None,
    }
}

/// The nodes of the stops, and one behind them.
fn nodes_of(alloc: Global, stops: &[Stop], last: u32) -> Result<Seq<u32>, AllocError> {
    let mut nodes = Seq::new(alloc);
    for stop in stops {
        nodes.push(stop.node)?;
    }
    nodes.push(last)?;
    Ok(nodes)
}

impl Walk {
    /// Comes to a node: a cut ends the path, from another one it goes on.
    fn come(
        &mut self,
        alloc: Global,
        cuts: &[u32],
        wanted: &[u32],
        to: u32,
    ) -> Result<(), AllocError> {
        if !cuts.contains(&to) {
            self.stops.push(Stop { node: to, gone: 0 })?;
            return Ok(());
        }
        if wanted.contains(&self.number) {
            let nodes = nodes_of(alloc, self.stops.as_slice(), to)?;
            self.ways.push(Way {
                number: self.number,
                nodes,
            })?;
        }
        self.number = self.number.saturating_add(1);
        Ok(())
    }

    /// Goes to the next child; whether there is more to go to.
    fn go(
        &mut self,
        alloc: Global,
        graph: &Graph<PackedPairs>,
        cuts: &[u32],
        wanted: &[u32],
    ) -> Result<bool, AllocError> {
        let Some(stop) = self.stops.pop() else {
            return Ok(false);
        };
        if let Some(to) = child(graph, stop) {
            self.stops.push(Stop {
                node: stop.node,
                gone: stop.gone.saturating_add(1),
            })?;
            self.come(alloc, cuts, wanted, to)?;
        }
        Ok(true)
    }
}

/// The paths of these numbers, as far as the walk comes.
///
/// # Errors
///
/// Want of memory.
pub(crate) fn ways_numbered(
    alloc: Global,
    graph: &Graph<PackedPairs>,
    cuts: &[u32],
    wanted: &[u32],
) -> Result<Vec<Way>, AllocError> {
    let mut walk = Walk {
        stops: Vec::new(alloc),
        number: 0,
        ways: Vec::new(alloc),
    };
    let mut next = 0;
    for _step in 0..MOST_STEPS {
        if walk.go(alloc, graph, cuts, wanted)? {
            continue;
        }
        let Some(cut) = cuts.get(next) else {
            break;
        };
        walk.stops.push(Stop {
            node: *cut,
            gone: 0,
        })?;
        next += 1;
    }
    Ok(walk.ways)
}
