//! How often the state of each node is looked at in one pass over a graph.
use crate::Origin;
use abs_cells::Pairs;
use list_views::Seq;
use std::alloc::{AllocError, Global};
use term_graph::{By, PartSource};

/// How often one node's state is looked at in a pass.
#[derive(Drop)]
struct Look {
    /// Where each node is asked for once: one look, and one more where the node is expanded, which it is for those that it names first.
    nodes: u32,
    /// Those, and one for each edge that leads to the node; of the first node one more, since a root is compared with it.
    edges: u32,
    /// How many are still to come in the pass at hand.
    left: u32,
}

/// How often the state of each node is looked at in a pass. No clause speaks of it: it says when a state may be dropped, and a state
/// that is dropped is made again.
#[derive(Drop)]
pub(crate) struct Looks {
    each: Seq<Look>,
    over_edges: bool,
}

impl Looks {
    /// One look at a node. Whether it was the last one of the pass: then the next look begins another pass.
    pub(crate) fn look(&mut self, n: u32) -> bool {
        let over_edges = self.over_edges;
        if n as usize >= self.each.len() {
            return true;
        }
        let look = self.each.at_mut(n as usize);
        if look.left == 0 {
            look.left = if over_edges { look.edges } else { look.nodes };
        }
        look.left = look.left.saturating_sub(1);
        look.left == 0
    }

    /// Begins a pass in which edges are followed too, or one in which they aren't.
    pub(crate) fn begin(&mut self, over_edges: bool) {
        self.over_edges = over_edges;
        for n in 0..self.each.len() {
            self.forget(n);
        }
    }

    /// No look at a node is still to come.
    fn forget(&mut self, n: usize) {
        if n < self.each.len() {
            self.each.at_mut(n).left = 0;
        }
    }

    /// An edge leads to a node, if there is one.
    fn add_edge(&mut self, n: u32) {
        if (n as usize) < self.each.len() {
            let look = self.each.at_mut(n as usize);
            look.edges = look.edges.saturating_add(1);
        }
    }

    /// A node is expanded, for those that it names first; once, however many these are.
    fn add_expansion(&mut self, n: u32) {
        if (n as usize) < self.each.len() {
            let look = self.each.at_mut(n as usize);
            if look.nodes == 1 {
                look.nodes = 2;
                look.edges = look.edges.saturating_add(1);
            }
        }
    }

    /// The same for the first namers of all nodes.
    fn add_expansions(&mut self, origins: &[Origin]) {
        for origin in origins {
            if let Origin::Named { node, .. } = origin {
                self.add_expansion(*node);
            }
        }
    }

    /// The looks that a node's edges give.
    fn add_edges(&mut self, by: &By) {
        match by {
            By::Expand(named) => {
                for child in named.as_slice() {
                    self.add_edge(*child);
                }
            }
            By::Instance { target, .. } => self.add_edge(*target),
            By::End | By::Todo => {}
        }
    }

    /// The looks at the nodes of parts, for a pass in which no edges are followed.
    ///
    /// # Errors
    ///
    /// Want of memory.
    pub(crate) fn of<P: Pairs, S: PartSource<P>>(
        alloc: Global,
        parts: &S,
        origins: &[Origin],
    ) -> Result<Looks, AllocError> {
        let mut looks = Looks {
            each: Seq::new(alloc),
            over_edges: false,
        };
        for _n in 0..parts.count() {
            looks.each.push(Look {
                nodes: 1,
                edges: 1,
                left: 0,
            })?;
        }
        for n in 0..parts.count() {
            let by = parts.by(alloc, n)?;
            looks.add_edges(&by);
        }
        // A root is compared with the first node.
        looks.add_edge(0);
        looks.add_expansions(origins);
        Ok(looks)
    }
}
