//! The filled graph as a source of nodes.
ghost use Rattle.std.specs.Prelude.{IfOk};
ghost use Rattle.class_program.specs.Views.{program_of};
ghost use Rattle.code_verify.specs.Typings.{typing_at};
ghost use Rattle.filled_graphs.specs.Filling.{CanBeFilled};
ghost use Rattle.graph_fill.specs.ChildrenOfStates.{IsFilledGraph};

use crate::expansions::Expansions;
use abs_cells::Pairs;
use class_program::Program;
use code_verify::Typing;
use filled_graphs::filled_nodes::Filled;
use std::alloc::{AllocError, Global};
use term_graph::PartSource;

/// The filled graph of parts as a source of nodes, which holds a state only from the expansion of its first namer until the last edge that
/// needs it was looked at. Each part without a state is named by an expanded one of a lower number.
///
/// Each node is expanded once at most, in the order of their numbers, and so it is again in each pass over the source.
///
/// # Errors
///
/// Want of memory.
pub fn filled<'a, 'p, P: Pairs, S: PartSource<P>>(
    alloc: Global,
    program: &'a Program<'p>,
    typing: &'a Typing,
    parts: &'a S,
) -> Result<Filled<'a, P, S, Expansions<'a, 'p>>, AllocError>
    requires named { CanBeFilled (S.parts parts.now) }
    ensures { IfOk result (λ nodes. IsFilledGraph (program_of program.now) (typing_at typing.now) (S.parts parts.now) nodes) }
{
    let filled = Filled::of(alloc, Expansions { program, typing }, parts)?;
    Ok(filled)
}
