//! From the bytes of a description and of class files to a certificate that no run ends.
ghost use Rattle.std.specs.Prelude.{◌≤◌, length, IsTrue};
ghost use Rattle.std.specs.List.{list_all};
ghost use Rattle.class_base.specs.ClassNames.{is_class_name};
ghost use Rattle.class_base.specs.Limits.{most_classes};
ghost use Rattle.class_world.specs.Worlds.{classes_of};
ghost use Rattle.desc_steps.specs.Given.{IsReady};
ghost use Rattle.desc_steps.specs.Names.{names_of};

use abs_cells::{PackedPairs, Pairs};
use cert_form::ClassNames;
use cert_form::cert_write::encode;
use check_call::Outcome;
use desc_steps::{DescribedProgram, class_names, described_program};
use descent::{Proof, ProofStep};
use input_steps::Refused;
use list_views::Seq;
use list_views::fault_words::{joined, number};
use loop_check::first_end;
use prove_core::{Found, Reason, SearchFault, search};
use std::alloc::{AllocError, Global};
use term_graph::Graph;

/// The most nodes of the graph that is searched: as many as `prove` takes without a number.
const NODES: u32 = 4000;

/// Nothing is found: why.
fn nothing(alloc: Global, cause: &[u8]) -> Result<Outcome, AllocError> {
    let out = joined(alloc, &[b"MAYBE ", cause, b"\n"])?;
    Ok(Outcome { status: 1, out })
}

/// An `End` node stands in the graph.
fn ended(alloc: Global, node: u32) -> Result<Outcome, AllocError> {
    let digits = number(alloc, node as usize)?;
    let cause = joined(alloc, &[b"end node=", digits.as_slice()])?;
    nothing(alloc, cause.as_slice())
}

/// A proof that says nothing: the command `loop` asks for none.
fn no_proof(alloc: Global) -> Result<Proof, AllocError> {
    let mut steps = Seq::new(alloc);
    steps.push(ProofStep::Empty)?;
    Ok(Proof { steps })
}

/// The certificate that has a graph, in form 2, and a newline.
fn certificate<P: Pairs>(
    alloc: Global,
    graph: &mut Graph<P>,
    names: &ClassNames,
) -> Result<Outcome, AllocError>
    requires { IsTrue (list_all is_class_name names.now) }
{
    let proof = no_proof(alloc)?;
    let text = encode(alloc, graph, true, &[0], &proof, names)?;
    let out = joined(alloc, &[text.as_slice(), b"\n"])?;
    Ok(Outcome { status: 0, out })
}

/// What is said of a graph without open nodes.
fn of_graph<P: Pairs>(
    alloc: Global,
    graph: Graph<P>,
    names: &ClassNames,
) -> Result<Outcome, AllocError>
    requires { IsTrue (list_all is_class_name names.now) }
{
    let mut graph = graph;
    match first_end(alloc, &mut graph)? {
        Some(node) => ended(alloc, node),
        None => certificate(alloc, &mut graph, names),
    }
}

/// What is said of what the search for a proof that all runs end finds: where it finds none, of its graph.
fn of_found<P: Pairs>(
    alloc: Global,
    found: Found<P>,
    names: &ClassNames,
) -> Result<Outcome, AllocError>
    requires { IsTrue (list_all is_class_name names.now) }
{
    match found {
        Found::Certificate(_) => nothing(alloc, b"end"),
        Found::Maybe(Reason::Component { cert, left: _ }) => of_graph(alloc, cert.graph, names),
        Found::Maybe(Reason::Paths(graph)) => of_graph(alloc, graph, names),
        Found::Maybe(Reason::Bytes { cert, size: _ }) => of_graph(alloc, cert.graph, names),
        Found::Maybe(Reason::Nodes(_)) => nothing(alloc, b"nodes"),
        Found::Maybe(Reason::Ids(_)) => nothing(alloc, b"ids"),
    }
}

/// What is said of a program whose inputs are described.
fn of_program(alloc: Global, given: &DescribedProgram<'_>) -> Result<Outcome, Refused>
    requires ready { IsReady given.now }
    requires names { IsTrue (list_all is_class_name (names_of (classes_of given.now.program.world))) }
{
    let names = class_names(alloc, &given.program.world)?;
    match search::<PackedPairs>(
        alloc,
        &given.program,
        &given.typing,
        &given.desc,
        &names,
        NODES,
    ) {
        Ok(found) => Ok(of_found(alloc, found, &names)?),
        Err(SearchFault::Memory) => Err(Refused::Memory),
    }
}

/// What `certs loop` puts on its output, with its exit status: a certificate in form 2 and a newline, status 0, where the graph that `prove`
/// grows has no node at which a run ends; else `MAYBE`, why there is none, and status 1: `end node=N` (the least such node) or `end` (every
/// run ends), `nodes` or `ids` (the graph isn't whole). There are at most 256 class files.
///
/// Nothing is proved of the certificate; the command `loop` says whether it shows that no run ends.
///
/// # Errors
///
/// Those of `check`, in its order; want of memory.
pub fn loop_line(alloc: Global, desc: &[u8], files: &[Vec<u8>]) -> Result<Outcome, Refused>
    requires { length files.now ≤ most_classes }
{
    match described_program(alloc, desc, files) {
        Ok(given) => of_program(alloc, &given),
        Err(refused) => Err(refused),
    }
}
