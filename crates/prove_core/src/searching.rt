//! The search for a certificate.
ghost use Rattle.std.specs.Prelude.{◌≡◌, ◌≤◌, ℕ, length, map, Ok, IfOk, IsTrue};
ghost use Rattle.abs_cells.specs.Limits.{most_ids};
ghost use Rattle.std.specs.List.{list_all};
ghost use Rattle.class_base.specs.ClassNames.{is_class_name};
ghost use Rattle.class_program.specs.Views.{program_of};
ghost use Rattle.code_verify.specs.Typings.{IsTypingOf, typing_at};
ghost use Rattle.input_desc.specs.Descs.{IsOwnDesc};
ghost use Rattle.input_desc.specs.Initial.{initial_of};
ghost use Rattle.graph_build.specs.Answers.{BuildsOr};
ghost use Rattle.graph_check.specs.Good.{GraphOk};
ghost use Rattle.rank_forms.specs.Graphs.{ArePlainRules};
ghost use Rattle.path_rules.specs.Answers.{Answers as PathAnswers};
ghost use Rattle.term_graph.specs.Limits.{most_nodes};
ghost use Rattle.prove_core.specs.Growth.{growth_of};
ghost use Rattle.prove_core.specs.Reasons.{IsWhole};
ghost use Rattle.prove_core.specs.Answers.{HoldsReason, SearchesOr};
ghost use Rattle.prove_core.specs.Reasons.{aim_of};
ghost use Rattle.prove_core.specs.inner.Words.{CanGrow, IsGrownGraph};

use crate::cutting::cuts_of;
use crate::finding::given;
use crate::found::{Cert, Found, Reason, SearchFault};
use crate::grower::RunGrower;
use crate::plain_rules::good_graph_rules_are_plain;
use crate::tries::further;
use abs_cells::{AbsState, Pairs};
use abs_reach::Marks;
use cert_form::ClassNames;
use chain_proofs::{Proved, prove};
use class_program::Program;
use code_verify::Typing;
use descent::PathRule;
use graph_build::{BuildFault, Built, build};
use graph_check::{CheckFault, check_graph};
use graph_laws::grow_laws::roots_grow;
use graph_laws::{disciplined_graphs_are_good, trees_are_cut};
use input_desc::{Desc, initial};
use list_views::Seq;
use path_rules::{PathFault, paths};
use plan_links::links_fit;
use std::alloc::{AllocError, Global};
use term_graph::{Graph, Links};

/// What is found by the rules of a whole graph's paths.
#[tactic(auto, using(crate::proofs::Readying::proved, crate::proofs::Readying::component))]
fn of_rules<P: Pairs>(
    alloc: Global,
    program: &Program<'_>,
    typing: &Typing,
    root: &AbsState<P>,
    names: &ClassNames,
    graph: Graph<P>,
    links: &Links,
    cuts: Seq<u32>,
    rules: &[PathRule],
) -> Result<Found<P>, SearchFault>
    requires typing { IsTypingOf (program_of program.now) (typing_at typing.now) }
    requires names { IsTrue (list_all is_class_name names.now) }
    requires own_names { names.now ≡ map (λ class. class.name) (program_of program.now).world }
    requires root_ids { length root.now.cells ≤ most_ids }
    requires whole { IsWhole (aim_of (program_of program.now) (typing_at typing.now) root.now) graph links.now.nodes cuts }
    requires few { length graph ≤ most_nodes }
    requires paths { PathAnswers graph links.now.nodes cuts (Ok rules.now) }
    requires plain { ArePlainRules rules.now }
    ensures { (limit : ℕ) → length graph ≤ limit → SearchesOr (aim_of (program_of program.now) (typing_at typing.now) root.now)
        names.now limit result }
{
    match prove(alloc, rules)? {
        Proved::Whole(proof) => {
            let cert = Cert { graph, cuts, proof };
            given(alloc, program, typing, root, names, cert)
        }
        Proved::Stuck(proof, left) => Ok(Found::Maybe(Reason::Component {
            cert: Cert { graph, cuts, proof },
            left,
        })),
    }
}

/// What is found by the links of a graph.
#[tactic(auto, using(crate::proofs::Readying::whole))]
fn of_links<P: Pairs>(
    alloc: Global,
    program: &Program<'_>,
    typing: &Typing,
    root: &AbsState<P>,
    names: &ClassNames,
    graph: Graph<P>,
    links: &Links,
) -> Result<Found<P>, SearchFault>
    requires typing { IsTypingOf (program_of program.now) (typing_at typing.now) }
    requires names { IsTrue (list_all is_class_name names.now) }
    requires own_names { names.now ≡ map (λ class. class.name) (program_of program.now).world }
    requires root_ids { length root.now.cells ≤ most_ids }
    requires grown { IsGrownGraph (aim_of (program_of program.now) (typing_at typing.now) root.now) graph }
    requires few { length graph ≤ most_nodes }
    requires good { GraphOk (program_of program.now) (typing_at typing.now) graph root.now links.now.nodes }
    ensures { (limit : ℕ) → length graph ≤ limit → SearchesOr (aim_of (program_of program.now) (typing_at typing.now) root.now)
        names.now limit result }
{
    links_fit();
    program.is_good();
    good_graph_rules_are_plain();
    trees_are_cut();
    let cuts = cuts_of(alloc, &graph)?;
    let mut graph = graph;
    match paths(alloc, &mut graph, links, cuts.as_slice()) {
        Ok(rules) => {
            let rules = rules.as_slice();
            of_rules(
                alloc, program, typing, root, names, graph, links, cuts, rules,
            )
        }
        Err(PathFault::TooManyPaths) => Ok(Found::Maybe(Reason::Paths(graph))),
        Err(PathFault::TooManyRows { .. }) => Ok(Found::Maybe(Reason::Paths(graph))),
        Err(PathFault::Uncut { .. }) => unreachable!(),
        Err(PathFault::Memory) => Err(SearchFault::Memory),
    }
}

/// The links of a graph with no open node that grew from a state; it is a good one.
#[tactic(auto, using(crate::proofs::Readying::never_faulty))]
fn links_of<P: Pairs>(
    alloc: Global,
    program: &Program<'_>,
    typing: &Typing,
    root: &AbsState<P>,
    graph: &mut Graph<P>,
) -> Result<Links, SearchFault>
    requires first { CanGrow (program_of program.now) (typing_at typing.now) root.now }
    requires grown { IsGrownGraph (aim_of (program_of program.now) (typing_at typing.now) root.now) graph.old }
    ensures good { IfOk result (λ links. GraphOk (program_of program.now) (typing_at typing.now) graph.old root.now links.nodes) }
    ensures same { graph.new ≡ graph.old }
{
    program.is_good();
    disciplined_graphs_are_good();
    match check_graph(alloc, program, typing, graph, root) {
        Ok(links) => Ok(links),
        Err(CheckFault::At { .. }) => unreachable!(),
        Err(CheckFault::Memory) => Err(SearchFault::Memory),
    }
}

/// What is found by a graph with no open node.
fn of_graph<P: Pairs>(
    alloc: Global,
    program: &Program<'_>,
    typing: &Typing,
    root: &AbsState<P>,
    names: &ClassNames,
    graph: Graph<P>,
) -> Result<Found<P>, SearchFault>
    requires first { CanGrow (program_of program.now) (typing_at typing.now) root.now }
    requires names { IsTrue (list_all is_class_name names.now) }
    requires own_names { names.now ≡ map (λ class. class.name) (program_of program.now).world }
    requires root_ids { length root.now.cells ≤ most_ids }
    requires grown { IsGrownGraph (aim_of (program_of program.now) (typing_at typing.now) root.now) graph }
    requires few { length graph ≤ most_nodes }
    ensures { (limit : ℕ) → length graph ≤ limit → SearchesOr (aim_of (program_of program.now) (typing_at typing.now) root.now)
        names.now limit result }
{
    let mut graph = graph;
    match links_of(alloc, program, typing, root, &mut graph) {
        Ok(links) => of_links(alloc, program, typing, root, names, graph, &links),
        Err(fault) => Err(fault),
    }
}

/// The state that a program's own description begins with.
#[tactic(auto, using(crate::proofs::Beginning::root_grows, crate::proofs::Beginning::root_small))]
pub(crate) fn root_of<P: Pairs>(
    alloc: Global,
    program: &Program<'_>,
    typing: &Typing,
    desc: &Desc,
) -> Result<AbsState<P>, AllocError>
    requires typing { IsTypingOf (program_of program.now) (typing_at typing.now) }
    requires own { IsOwnDesc (program_of program.now) desc.now }
    ensures is { IfOk result (λ root. root ≡ initial_of (program_of program.now) desc.now) }
    ensures ids { IfOk result (λ root. length root.cells ≤ most_ids) }
    ensures grows { IfOk result (λ root. CanGrow (program_of program.now) (typing_at typing.now) root) }
{
    program.is_good();
    roots_grow();
    let root = initial(alloc, desc, program)?;
    Ok(root)
}

/// What is found by a graph with no open node that grew from a description's initial state.
fn of_closed<P: Pairs>(
    alloc: Global,
    program: &Program<'_>,
    typing: &Typing,
    desc: &Desc,
    names: &ClassNames,
    graph: Graph<P>,
) -> Result<Found<P>, SearchFault>
    requires typing { IsTypingOf (program_of program.now) (typing_at typing.now) }
    requires own { IsOwnDesc (program_of program.now) desc.now }
    requires names { IsTrue (list_all is_class_name names.now) }
    requires own_names { names.now ≡ map (λ class. class.name) (program_of program.now).world }
    requires grown { IsGrownGraph
        (aim_of (program_of program.now) (typing_at typing.now) (initial_of (program_of program.now) desc.now)) graph }
    requires few { length graph ≤ most_nodes }
    ensures { (limit : ℕ) → length graph ≤ limit
        → SearchesOr (aim_of (program_of program.now) (typing_at typing.now) (initial_of (program_of program.now) desc.now))
        names.now limit result }
{
    let root = root_of(alloc, program, typing, desc)?;
    of_graph(alloc, program, typing, &root, names, graph)
}

/// The graph that grows from a state, up to a limit of nodes.
fn grown<P: Pairs>(
    alloc: Global,
    program: &Program<'_>,
    typing: &Typing,
    first: AbsState<P>,
    limit: u32,
) -> Result<Built<P>, BuildFault>
    requires first { CanGrow (program_of program.now) (typing_at typing.now) first }
    requires positive { 1 ≤ limit }
    requires small { limit ≤ most_nodes }
    ensures { BuildsOr (growth_of (program_of program.now) (typing_at typing.now)) first limit result }
{
    let mut grower = RunGrower {
        program,
        typing,
        marks: Marks::new(alloc)?,
    };
    build(alloc, &mut grower, first, limit)
}

/// What the first graph comes to, which is grown up to a limit of nodes.
#[tactic(auto, using(crate::proofs::Beginning::grown_from, crate::proofs::Beginning::nodes_from, crate::proofs::Beginning::ids_from))]
fn first_search<P: Pairs>(
    alloc: Global,
    program: &Program<'_>,
    typing: &Typing,
    desc: &Desc,
    names: &ClassNames,
    limit: u32,
) -> Result<Found<P>, SearchFault>
    requires typing { IsTypingOf (program_of program.now) (typing_at typing.now) }
    requires own { IsOwnDesc (program_of program.now) desc.now }
    requires names { IsTrue (list_all is_class_name names.now) }
    requires own_names { names.now ≡ map (λ class. class.name) (program_of program.now).world }
    requires positive { 1 ≤ limit }
    requires small { limit ≤ most_nodes }
    ensures { SearchesOr (aim_of (program_of program.now) (typing_at typing.now) (initial_of (program_of program.now) desc.now))
        names.now limit result }
{
    let first = root_of(alloc, program, typing, desc)?;
    match grown(alloc, program, typing, first, limit) {
        Ok(Built::Closed(graph)) => of_closed(alloc, program, typing, desc, names, graph),
        Ok(Built::Nodes(graph)) => Ok(Found::Maybe(Reason::Nodes(graph))),
        Ok(Built::Ids(graph)) => Ok(Found::Maybe(Reason::Ids(graph))),
        Err(BuildFault::Memory) => Err(SearchFault::Memory),
    }
}

/// What further tries come to; where they come to nothing, or lack memory, the first one's reason.
fn or_further<P: Pairs>(
    alloc: Global,
    program: &Program<'_>,
    typing: &Typing,
    desc: &Desc,
    names: &ClassNames,
    limit: u32,
    reason: Reason<P>,
) -> Result<Found<P>, SearchFault>
    requires typing { IsTypingOf (program_of program.now) (typing_at typing.now) }
    requires own { IsOwnDesc (program_of program.now) desc.now }
    requires names { IsTrue (list_all is_class_name names.now) }
    requires reason { HoldsReason (aim_of (program_of program.now) (typing_at typing.now) (initial_of (program_of program.now) desc.now))
        names.now limit reason }
    ensures { SearchesOr (aim_of (program_of program.now) (typing_at typing.now) (initial_of (program_of program.now) desc.now))
        names.now limit result }
{
    match further(alloc, program, typing, desc, names, &reason, limit) {
        Ok(Some(bytes)) => Ok(Found::Certificate(bytes)),
        Ok(None) => Ok(Found::Maybe(reason)),
        Err(_) => Ok(Found::Maybe(reason)),
    }
}

/// A certificate that every run of a program ends which begins with a state that its description fits, by the first graph or by a further
/// try; or why the first graph gives none. Each graph is grown up to a limit of nodes, from 1 to 20,000. The names are those of the world's
/// classes, in the order of their numbers: with them what is found is read again.
///
/// # Errors
///
/// Want of memory.
pub fn search<P: Pairs>(
    alloc: Global,
    program: &Program<'_>,
    typing: &Typing,
    desc: &Desc,
    names: &ClassNames,
    limit: u32,
) -> Result<Found<P>, SearchFault>
    requires typing { IsTypingOf (program_of program.now) (typing_at typing.now) }
    requires own { IsOwnDesc (program_of program.now) desc.now }
    requires names { IsTrue (list_all is_class_name names.now) }
    requires own_names { names.now ≡ map (λ class. class.name) (program_of program.now).world }
    requires positive { 1 ≤ limit }
    requires small { limit ≤ most_nodes }
    ensures { SearchesOr (aim_of (program_of program.now) (typing_at typing.now) (initial_of (program_of program.now) desc.now))
        names.now limit result }
{
    match first_search(alloc, program, typing, desc, names, limit)? {
        Found::Certificate(bytes) => Ok(Found::Certificate(bytes)),
        Found::Maybe(reason) => or_further(alloc, program, typing, desc, names, limit, reason),
    }
}
