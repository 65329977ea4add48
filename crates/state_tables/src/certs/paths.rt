//! `paths`: a certificate of form 1, the entry method's class, name and descriptor, and class files; the answer is the rules of the
//! paths of its graph, or what is first in their way.
ghost use Rattle.std.specs.Prelude.{◌≤◌, length};
ghost use Rattle.class_program.specs.Views.{program_of};
ghost use Rattle.code_verify.specs.Typings.{IsTypingOf, typing_at};
ghost use Rattle.term_graph.specs.Limits.{most_nodes};

use crate::certs::graphs::graph;
use crate::certs::printing::{fault_text, rules_text};
use crate::certs::texts::value_of;
use abs_cells::{AbsState, ListPairs};
use anyhow::{Context, Result, bail};
use cert_check::{Cause, Refusal, good_links, rules_between};
use class_program::Program;
use code_verify::{Typing, verify};
use descent::PathRule;
use json_view::View;
use list_views::Seq;
use std::alloc::Global;
use table_cases::Case;
use table_cases::entry_cases::ProgramAnswers;
use table_cases::json_cases::{field, naturals_of};
use term_graph::{Graph, MOST_NODES, copied_state};

/// The cases of paths.
pub struct Paths;

impl ProgramAnswers for Paths {
    fn answer(alloc: Global, program: &Program<'_>, case: &Case<'_>) -> Result<String> {
        let typing = verify(alloc, program)
            .ok()
            .context("the program has no typing")?;
        answer_for(alloc, case, program, &typing)
    }
}

/// The answer to a case of a program with its typing.
fn answer_for(
    alloc: Global,
    case: &Case<'_>,
    program: &Program<'_>,
    typing: &Typing,
) -> Result<String>
    requires { IsTypingOf (program_of program.now) (typing_at typing.now) }
{
    let bytes = case.bytes(alloc, 0)?;
    let value = value_of(alloc, bytes.as_slice())?;
    answer_by(alloc, program, typing, &View::root(&value))
}

/// The answer for a certificate.
fn answer_by(
    alloc: Global,
    program: &Program<'_>,
    typing: &Typing,
    view: &View<'_, '_>,
) -> Result<String>
    requires { IsTypingOf (program_of program.now) (typing_at typing.now) }
{
    let graph = graph(alloc, &program.world, &field(alloc, view, "nodes")?)?;
    let cuts = naturals_of(alloc, &field(alloc, view, "cuts")?)?;
    told(
        alloc,
        &rules(alloc, program, typing, graph, cuts.as_slice())?,
    )
}

/// The rules of the paths of a graph, or what is first in their way.
fn rules(
    alloc: Global,
    program: &Program<'_>,
    typing: &Typing,
    graph: Graph<ListPairs>,
    cuts: &[u32],
) -> Result<std::result::Result<Seq<PathRule>, Refusal>>
    requires { IsTypingOf (program_of program.now) (typing_at typing.now) }
{
    if graph.len() > MOST_NODES {
        bail!("fewer nodes are wanted");
    }
    let root = first_state(alloc, &graph)?;
    let mut graph = graph;
    rules_from_root(alloc, program, typing, &mut graph, &root, cuts)
}

/// The state of a graph's first node.
fn first_state(alloc: Global, graph: &Graph<ListPairs>) -> Result<AbsState<ListPairs>> {
    if graph.len() == 0 {
        bail!("a node is wanted");
    }
    Ok(copied_state(alloc, graph.at(0).state())?)
}

/// The same where the first node has this state.
fn rules_from_root(
    alloc: Global,
    program: &Program<'_>,
    typing: &Typing,
    graph: &mut Graph<ListPairs>,
    root: &AbsState<ListPairs>,
    cuts: &[u32],
) -> Result<std::result::Result<Seq<PathRule>, Refusal>>
    requires typing { IsTypingOf (program_of program.now) (typing_at typing.now) }
    requires few { length graph.old ≤ most_nodes }
{
    match good_links(alloc, program, typing, graph, root) {
        Ok(links) => Ok(rules_between(alloc, program, typing, graph, root, &links, cuts)),
        Err(_) => bail!("the graph is not good"),
    }
}

/// An answer in words.
fn told(alloc: Global, rules: &std::result::Result<Seq<PathRule>, Refusal>) -> Result<String> {
    match rules {
        Ok(rules) => Ok(rules_text(alloc, rules.as_slice())?),
        Err(
            Refusal::Item {
                cause: Cause::Path(fault),
                ..
            },
        ) => fault_text(alloc, *fault),
        Err(_) => bail!("the cuts are not good"),
    }
}
