//! Sources of nodes that may lack their states.
ghost use Rattle.std.specs.Prelude.{◌≡◌, ◌<◌, List, length, Some, IfOk};
ghost use Rattle.term_graph.specs.Graphs.{GraphPart, by_at, state_at};

use crate::nodes::By;
use abs_cells::{AbsState, Pairs};
use std::alloc::{AllocError, Global};

/// Nodes of which each has its state or lacks it. The meaning is the list of these.
pub trait PartSource<P: Pairs> {
    ghost parts: { Self → List GraphPart };

    /// The number of nodes.
    fn count(&self) -> u32
        ensures { result ≡ length (parts self.now) };

    /// How a node is left.
    ///
    /// # Errors
    ///
    /// Want of memory.
    fn by(&self, alloc: Global, n: u32) -> Result<By, AllocError>
        requires { n < length (parts self.now) }
        ensures { IfOk result (λ by. by_at (parts self.now) n ≡ Some by) };

    /// The state of a node, if it has one.
    ///
    /// # Errors
    ///
    /// Want of memory.
    fn state(&self, alloc: Global, n: u32) -> Result<Option<AbsState<P>>, AllocError>
        requires { n < length (parts self.now) }
        ensures { IfOk result (λ state. state_at (parts self.now) n ≡ Some state) };
}
