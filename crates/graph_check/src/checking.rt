//! Whether a termination graph is a good one.
ghost use Rattle.std.specs.Prelude.{◌≡◌};
ghost use Rattle.class_program.specs.Views.{program_of};
ghost use Rattle.code_verify.specs.Typings.{typing_at};
ghost use Rattle.graph_check.specs.Good.{Tells};
ghost use Rattle.graph_check.specs.inner.Checked.{GoodNodesOr};

use crate::children::is_state_at;
use crate::failure::fault_of;
use crate::fault::{CheckFault, What};
use crate::leaving::node_links;
use abs_cells::{AbsState, Pairs};
use abs_reach::Marks;
use class_program::Program;
use code_verify::Typing;
use list_views::Seq;
use std::alloc::Global;
use term_graph::{Link, Links, NodeSource};

/// The links of all nodes, where each is a good one.
fn all_links<P: Pairs, S: NodeSource<P>>(
    alloc: Global,
    program: &Program<'_>,
    typing: &Typing,
    source: &mut S,
) -> Result<Seq<Seq<Link>>, CheckFault>
    ensures nodes { GoodNodesOr (program_of program.now) (typing_at typing.now) (S.graph source.old) result }
    ensures same { S.graph source.new ≡ S.graph source.old }
{
    let mut marks = Marks::new(alloc)?;
    let mut links = Seq::new(alloc);
    for number in 0..source.count() {
        match node_links(alloc, program, typing, source, number, &mut marks) {
            Ok(found) => links.push(found)?,
            Err(failure) => return Err(fault_of(number, failure)),
        }
    }
    Ok(links)
}

/// Whether a graph is a good one with the root's state at node 0: then the links of its nodes, one for each child, and none of
/// a node that is not expanded.
///
/// Each node is expanded once, and compared with the nodes that it names; two states at a time are held beside the links.
///
/// # Errors
///
/// The root's fault first, then the first fault of the first node that has one; or want of memory.
pub fn check_graph<P: Pairs, S: NodeSource<P>>(
    alloc: Global,
    program: &Program<'_>,
    typing: &Typing,
    source: &mut S,
    root: &AbsState<P>,
) -> Result<Links, CheckFault>
    ensures tells { Tells (program_of program.now) (typing_at typing.now) (S.graph source.old) root.now result }
    ensures same { S.graph source.new ≡ S.graph source.old }
{
    if !is_state_at(alloc, source, root, 0)? {
        return Err(CheckFault::At {
            node: 0,
            what: What::Root,
        });
    }
    let nodes = all_links(alloc, program, typing, source)?;
    Ok(Links { nodes })
}
