//! Graphs as lists of nodes.
ghost use Rattle.std.specs.Prelude.{◌≡◌, ◌<◌, ◌-◌, ◌^◌, ◌++◌, ◌∷◌, [], length, Some, slice_get, IfOk, OnOk, OnErr};
ghost use Rattle.term_graph.specs.Graphs.{left_by};

use crate::copies::{copied_by, copied_node};
use crate::nodes::{By, Node};
use crate::sources::NodeSource;
use abs_cells::Pairs;
use abs_cells::list_views::Seq;
use std::alloc::{AllocError, Global};
use std::marker::Model;

/// A graph: its nodes, each under its number, the first under 0. It is seen as the list of its nodes, of which there are at
/// most 2^32 - 16.
#[derive(Drop)]
pub struct Graph<P: Pairs> {
    nodes: Seq<Node<P>>,
}

impl<P: Pairs> Model for Graph<P> {
    ghost use Rattle.std.specs.Prelude.{List, length, ◌≤◌};
    ghost use Rattle.term_graph.specs.Graphs.{GraphNode};

    ghost Value = { List GraphNode };

    ghost view = { λ graph. graph.nodes };

    ghost invariant = { λ graph. length graph.nodes ≤ 4294967280 };
}

impl<P: Pairs> Graph<P> {
    /// The graph without nodes.
    pub fn new(alloc: Global) -> Graph<P>
        ensures { result ≡ [] }
    {
        Graph {
            nodes: Seq::new(alloc),
        }
    }

    /// The number of nodes.
    pub fn len(&self) -> usize
        ensures { result ≡ length self.now }
    {
        self.nodes.len()
    }

    /// The node of a number.
    pub fn at(&self, n: u32) -> &Node<P>
        requires { n < length self.now }
        ensures { slice_get self.now n ≡ Some result.now }
    {
        self.nodes.at(n as usize)
    }

    /// Adds a node at the end, and gives its number.
    ///
    /// # Errors
    ///
    /// Want of memory; then the graph is as before.
    pub fn push(&mut self, node: Node<P>) -> Result<u32, AllocError>
        requires { length self.old < 2 ^ 32 - 16 }
        ensures number { IfOk result (λ n. n ≡ length self.old) }
        ensures ok { OnOk result (self.new ≡ self.old ++ node ∷ []) }
        ensures err { OnErr result (self.new ≡ self.old) }
    {
        let number = self.nodes.len() as u32;
        self.nodes.push(node)?;
        Ok(number)
    }

    /// Leaves a node in another way.
    pub fn set_by(&mut self, n: u32, by: By)
        requires { n < length self.old }
        ensures { self.new ≡ left_by self.old n by }
    {
        self.nodes.at_mut(n as usize).set_by(by);
    }
}

impl<P: Pairs> NodeSource<P> for Graph<P> {
    ghost graph = { λ graph. graph };

    fn count(&self) -> u32 {
        self.nodes.len() as u32
    }

    fn node(&mut self, alloc: Global, n: u32) -> Result<Node<P>, AllocError> {
        copied_node(alloc, self.at(n))
    }

    fn by(&mut self, alloc: Global, n: u32) -> Result<By, AllocError> {
        copied_by(alloc, self.at(n).by())
    }
}
