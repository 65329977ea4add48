//! What tells the children of states.
ghost use Rattle.std.specs.Prelude.{IfOk};
ghost use Rattle.filled_graphs.specs.Filling.{ChildRules};
ghost use Rattle.filled_graphs.specs.filled_nodes.Children.{HasThemOrNone};

use abs_cells::{AbsState, Pairs};
use abs_reach::Marks;
use list_views::Seq;
use std::alloc::{AllocError, Global};
use term_graph::Child;

/// Tells of states what they become.
pub trait Expands<P: Pairs>: Drop {
    ghost rules: { Self → ChildRules };

    /// The children of a state; None where it has none. The marks are room to work in.
    ///
    /// # Errors
    ///
    /// Want of memory.
    fn children(
        &self,
        alloc: Global,
        state: &AbsState<P>,
        marks: &mut Marks,
    ) -> Result<Option<Seq<Child<P>>>, AllocError>
        ensures { IfOk result (λ children. HasThemOrNone (rules self.now) state.now children) };
}
