//! What expansions tell of the children of states.
ghost use Rattle.class_program.specs.Views.{program_of};
ghost use Rattle.code_verify.specs.Typings.{typing_at};
ghost use Rattle.graph_fill.specs.ChildrenOfStates.{child_rules};

use abs_cells::{AbsState, Pairs};
use abs_reach::Marks;
use class_program::Program;
use code_verify::Typing;
use filled_graphs::filled_nodes::Expands;
use graph_check::abs_expand::{ExpandFault, expand};
use list_views::Seq;
use std::alloc::{AllocError, Global};
use term_graph::Child;

/// Tells of states what they become by their expansions: one that has no expansion, or ends, has no children.
#[derive(Drop)]
pub struct Expansions<'a, 'p> {
    /// The program.
    pub program: &'a Program<'p>,
    /// Its typing.
    pub typing: &'a Typing,
}

impl<'a, 'p, P: Pairs> Expands<P> for Expansions<'a, 'p> {
    ghost rules = { λ expansions. child_rules (program_of expansions.program.now) (typing_at expansions.typing.now) };

    fn children(
        &self,
        alloc: Global,
        state: &AbsState<P>,
        marks: &mut Marks,
    ) -> Result<Option<Seq<Child<P>>>, AllocError> {
        match expand(alloc, self.program, self.typing, state, marks) {
            Ok(children) => Ok(children),
            Err(ExpandFault::BadState { .. }) => Ok(None),
            Err(ExpandFault::TooManyIds { .. }) => Ok(None),
            Err(ExpandFault::Memory) => Err(AllocError),
        }
    }
}
