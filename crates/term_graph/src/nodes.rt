//! Nodes, and how each is left.
ghost use Rattle.std.specs.Prelude.{◌≡◌};

use crate::links::Link;
use abs_cells::list_views::Seq;
use abs_cells::{AbsState, Id, Pairs};
use std::marker::Model;

/// How a node is left. Nodes are named by their numbers, from 0.
#[derive(Drop)]
pub enum By {
    /// One step, or a split of the state into cases: the nodes of the children, in their order.
    Expand(Seq<u32>),
    /// Its state is an instance of another node's.
    Instance {
        /// The other node.
        target: u32,
        /// For each id of the other node's state, rising, the id of this node's state that it stands for.
        map: Seq<(Id, Id)>,
    },
    /// The run ends with the next step.
    End,
    /// It is not known yet.
    Todo,
}

/// A node: the state that it describes, and how it is left. It is seen as a record, whatever form the state's pairs are
/// held in.
#[derive(Drop)]
pub struct Node<P: Pairs> {
    state: AbsState<P>,
    by: By,
}

impl<P: Pairs> Model for Node<P> {
    ghost use Rattle.term_graph.specs.Graphs.{GraphNode};

    ghost Value = { GraphNode };

    ghost view = { λ node. record { state = node.state; by = node.by } };
}

impl<P: Pairs> Node<P> {
    /// The node of a state that is left in this way.
    pub fn new(state: AbsState<P>, by: By) -> Node<P>
        ensures { result ≡ record { state = state; by = by } }
    {
        Node { state, by }
    }

    /// The state.
    pub fn state(&self) -> &AbsState<P>
        ensures { result.now ≡ self.now.state }
    {
        &self.state
    }

    /// How the node is left.
    pub fn by(&self) -> &By
        ensures { result.now ≡ self.now.by }
    {
        &self.by
    }

    /// Leaves the node in another way.
    pub fn set_by(&mut self, by: By)
        ensures { self.new ≡ record { state = self.old.state; by = by } }
    {
        self.by = by;
    }

    /// The state, and how the node is left.
    pub fn into_parts(self) -> (AbsState<P>, By)
        ensures { result ≡ (self.state, self.by) }
    {
        (self.state, self.by)
    }
}

/// A child of a state: the child's own state, and what the edge to it says beside the two. It is seen as a record.
#[derive(Drop)]
pub struct Child<P: Pairs> {
    state: AbsState<P>,
    link: Link,
}

impl<P: Pairs> Model for Child<P> {
    ghost use Rattle.term_graph.specs.Graphs.{GraphChild};

    ghost Value = { GraphChild };

    ghost view = { λ child. record { state = child.state; link = child.link } };
}

impl<P: Pairs> Child<P> {
    /// The child of this state and link.
    pub fn new(state: AbsState<P>, link: Link) -> Child<P>
        ensures { result ≡ record { state = state; link = link } }
    {
        Child { state, link }
    }

    /// The child's state.
    pub fn state(&self) -> &AbsState<P>
        ensures { result.now ≡ self.now.state }
    {
        &self.state
    }

    /// What the edge says.
    pub fn link(&self) -> &Link
        ensures { result.now ≡ self.now.link }
    {
        &self.link
    }

    /// The state and the link.
    pub fn into_parts(self) -> (AbsState<P>, Link)
        ensures { result ≡ (self.state, self.link) }
    {
        (self.state, self.link)
    }
}
