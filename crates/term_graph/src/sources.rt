//! Sources of nodes.
ghost use Rattle.std.specs.Prelude.{◌≡◌, ◌<◌, List, length, Some, slice_get, IfOk};
ghost use Rattle.std.specs.Option.{option_map};
ghost use Rattle.term_graph.specs.Graphs.{GraphNode};

use crate::nodes::{By, Node};
use abs_cells::Pairs;
use std::alloc::{AllocError, Global};

/// A graph whose nodes are asked for one at a time. Its meaning is the list of the nodes, and no call changes it: a source
/// is lent for writing so that it may keep what it worked out.
pub trait NodeSource<P: Pairs>: Drop {
    ghost graph: { Self → List GraphNode };

    /// The number of nodes.
    fn count(&self) -> u32
        ensures { result ≡ length (graph self.now) };

    /// The node of a number, as a value of the caller's own. Nodes may be asked for in any order, and more than once.
    ///
    /// # Errors
    ///
    /// Want of memory.
    fn node(&mut self, alloc: Global, n: u32) -> Result<Node<P>, AllocError>
        requires { n < length (graph self.old) }
        ensures node { IfOk result (λ node. slice_get (graph self.old) n ≡ Some node) }
        ensures same { graph self.new ≡ graph self.old };

    /// How the node of a number is left, as a value of the caller's own: what [`NodeSource::node`] gives, without the state.
    ///
    /// # Errors
    ///
    /// Want of memory.
    fn by(&mut self, alloc: Global, n: u32) -> Result<By, AllocError>
        requires { n < length (graph self.old) }
        ensures by { IfOk result (λ by. option_map (λ node. node.by) (slice_get (graph self.old) n) ≡ Some by) }
        ensures same { graph self.new ≡ graph self.old };
}
