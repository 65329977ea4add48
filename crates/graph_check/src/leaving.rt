//! Whether a node is left as its state's expansion says, or is an instance of another node.
ghost use Rattle.std.specs.Prelude.{◌≡◌, ◌<◌, length};
ghost use Rattle.class_program.specs.Views.{program_of};
ghost use Rattle.code_verify.specs.Typings.{typing_at};
ghost use Rattle.term_graph.specs.declared.nodes.By.TheVariants.{Expand, Instance, End};
ghost use Rattle.abs_cells.specs.Sound.{IsWellFormed};
ghost use Rattle.one_expansion.specs.abs_expand.BadStates.{IsGoodState};
ghost use Rattle.graph_check.specs.inner.Checked.{MatchesOr, LeavesOr, NodeLeavesOr};

use crate::children::named_links;
use crate::failure::{Failure, failure_of};
use crate::fault::What;
use abs_cells::{AbsState, Id, Pairs};
use abs_match::instance;
use abs_reach::Marks;
use class_program::Program;
use code_verify::Typing;
use list_views::Seq;
use one_expansion::abs_expand::{ExpandFault, bad_clause, expand};
use std::alloc::Global;
use term_graph::{By, Link, NodeSource};

/// The links of a node that is expanded.
fn expanded<P: Pairs, S: NodeSource<P>>(
    alloc: Global,
    program: &Program<'_>,
    typing: &Typing,
    source: &mut S,
    state: &AbsState<P>,
    named: &Seq<u32>,
    marks: &mut Marks,
) -> Result<Seq<Link>, Failure>
    ensures leaves { LeavesOr (program_of program.now) (typing_at typing.now) (S.graph source.old) state.now (Expand named.now) result }
    ensures same { S.graph source.new ≡ S.graph source.old }
{
    match expand(alloc, program, typing, state, marks) {
        Ok(Some(children)) => named_links(alloc, source, children, named.as_slice()),
        Ok(None) => Err(Failure::Fails(What::ChildCount)),
        Err(fault) => Err(failure_of(fault)),
    }
}

/// Whether the run ends with the next step, as a node says.
fn ended<P: Pairs, S: NodeSource<P>>(
    alloc: Global,
    program: &Program<'_>,
    typing: &Typing,
    source: &mut S,
    state: &AbsState<P>,
    marks: &mut Marks,
) -> Result<Seq<Link>, Failure>
    ensures leaves { LeavesOr (program_of program.now) (typing_at typing.now) (S.graph source.old) state.now End result }
    ensures same { S.graph source.new ≡ S.graph source.old }
{
    match expand(alloc, program, typing, state, marks) {
        Ok(None) => Ok(Seq::new(alloc)),
        Ok(Some(_children)) => Err(Failure::Fails(What::NotEnd)),
        Err(ExpandFault::TooManyIds { .. }) => Err(Failure::Fails(What::NotEnd)),
        Err(fault) => Err(failure_of(fault)),
    }
}

/// Whether a state that has an expansion is an instance of another node's.
fn matched<P: Pairs, S: NodeSource<P>>(
    alloc: Global,
    program: &Program<'_>,
    source: &mut S,
    state: &AbsState<P>,
    target: u32,
    map: &[(Id, Id)],
    marks: &mut Marks,
) -> Result<Seq<Link>, Failure>
    requires good { IsWellFormed state.now }
    ensures links { MatchesOr (program_of program.now) (S.graph source.old) state.now target map.now result }
    ensures same { S.graph source.new ≡ S.graph source.old }
{
    if target >= source.count() {
        return Err(Failure::Fails(What::BadTarget));
    }
    let node = source.node(alloc, target)?;
    match instance(&program.world, state, node.state(), map, marks) {
        Ok(()) => Ok(Seq::new(alloc)),
        Err(fault) => Err(Failure::Fails(What::Match(fault))),
    }
}

/// Whether a node whose state has an expansion is left as it says.
fn left_good<P: Pairs, S: NodeSource<P>>(
    alloc: Global,
    program: &Program<'_>,
    typing: &Typing,
    source: &mut S,
    state: &AbsState<P>,
    by: &By,
    marks: &mut Marks,
) -> Result<Seq<Link>, Failure>
    requires good { IsGoodState (program_of program.now) (typing_at typing.now) state.now }
    ensures leaves { LeavesOr (program_of program.now) (typing_at typing.now) (S.graph source.old) state.now by.now result }
    ensures same { S.graph source.new ≡ S.graph source.old }
{
    match by {
        By::Expand(named) => expanded(alloc, program, typing, source, state, named, marks),
        By::Instance { target, map } => {
            matched(
                alloc,
                program,
                source,
                state,
                *target,
                map.as_slice(),
                marks,
            )
        }
        By::End => ended(alloc, program, typing, source, state, marks),
        By::Todo => Err(Failure::Fails(What::NotEnd)),
    }
}

/// Whether a node is left as it says.
fn left_by<P: Pairs, S: NodeSource<P>>(
    alloc: Global,
    program: &Program<'_>,
    typing: &Typing,
    source: &mut S,
    state: &AbsState<P>,
    by: &By,
    marks: &mut Marks,
) -> Result<Seq<Link>, Failure>
    ensures leaves { LeavesOr (program_of program.now) (typing_at typing.now) (S.graph source.old) state.now by.now result }
    ensures same { S.graph source.new ≡ S.graph source.old }
{
    match bad_clause(program, typing, state) {
        Some(clause) => Err(Failure::Fails(What::BadState { clause })),
        None => left_good(alloc, program, typing, source, state, by, marks),
    }
}

/// The links of the node of a number, where it is a good one.
pub(crate) fn node_links<P: Pairs, S: NodeSource<P>>(
    alloc: Global,
    program: &Program<'_>,
    typing: &Typing,
    source: &mut S,
    number: u32,
    marks: &mut Marks,
) -> Result<Seq<Link>, Failure>
    requires there { number < length (S.graph source.old) }
    ensures leaves { NodeLeavesOr (program_of program.now) (typing_at typing.now) (S.graph source.old) number result }
    ensures same { S.graph source.new ≡ S.graph source.old }
{
    let node = source.node(alloc, number)?;
    left_by(
        alloc,
        program,
        typing,
        source,
        node.state(),
        node.by(),
        marks,
    )
}
