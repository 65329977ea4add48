//! Further tries, where the first graph has no proof: each gives a candidate, which is written, read again and checked as what the first
//! one gives.
ghost use Rattle.std.specs.Prelude.{◌≡◌, ◌≤◌, length, IfOk, IfSome, IsTrue};
ghost use Rattle.std.specs.List.{list_all};
ghost use Rattle.class_base.specs.ClassNames.{is_class_name};
ghost use Rattle.class_program.specs.Views.{program_of};
ghost use Rattle.code_verify.specs.Typings.{IsTypingOf, typing_at};
ghost use Rattle.input_desc.specs.Descs.{IsOwnDesc};
ghost use Rattle.input_desc.specs.Initial.{initial_of};
ghost use Rattle.graph_check.specs.Good.{GraphOk};
ghost use Rattle.term_graph.specs.Limits.{most_nodes};
ghost use Rattle.prove_core.specs.Answers.{IsCertificate};
ghost use Rattle.prove_core.specs.Reasons.{aim_of};

use crate::cutting::cuts_of;
use crate::found::{Reason, SearchFault};
use crate::grower::RunGrower;
use crate::searching::root_of;
use abs_cells::{AbsState, Pairs};
use abs_reach::Marks;
use cert_form::cert_write::encode;
use cert_form::{ClassNames, MOST_CERTIFICATE_BYTES};
use cert_verdict::{CertVerdict, judged};
use class_program::{Method, Op, Program};
use code_verify::Typing;
use descent::Proof;
use graph_build::BuildFault;
use graph_check::{CheckFault, check_graph};
use input_desc::Desc;
use jvm_values::Cond;
use list_views::Seq;
use op_forms::{Form, form_of};
use path_rules::paths;
use plan_links::links_fit;
use search_tries::{Way, grow, proof_of};
use std::alloc::Global;
use term_graph::{Graph, Links};

/// The links of a graph, if it is a good one.
fn links_if_good<P: Pairs>(
    alloc: Global,
    program: &Program<'_>,
    typing: &Typing,
    root: &AbsState<P>,
    graph: &mut Graph<P>,
) -> Result<Option<Links>, SearchFault>
    ensures good { IfOk result (λ found. IfSome found
        (λ links. GraphOk (program_of program.now) (typing_at typing.now) graph.old root.now links.nodes)) }
    ensures same { graph.new ≡ graph.old }
{
    match check_graph(alloc, program, typing, graph, root) {
        Ok(links) => Ok(Some(links)),
        Err(CheckFault::At { .. }) => Ok(None),
        Err(CheckFault::Memory) => Err(SearchFault::Memory),
    }
}

/// The cuts of a good graph, and a proof for the rules of its paths, if one is found; `first` where it is the first graph again.
fn proof_over<P: Pairs>(
    alloc: Global,
    program: &Program<'_>,
    typing: &Typing,
    root: &AbsState<P>,
    graph: &mut Graph<P>,
    links: &Links,
    first: bool,
) -> Result<Option<(Seq<u32>, Proof)>, SearchFault>
    requires typing { IsTypingOf (program_of program.now) (typing_at typing.now) }
    requires few { length graph.old ≤ most_nodes }
    requires good { GraphOk (program_of program.now) (typing_at typing.now) graph.old root.now links.now.nodes }
{
    links_fit();
    program.is_good();
    let cuts = cuts_of(alloc, graph)?;
    let Ok(rules) = paths(alloc, graph, links, cuts.as_slice()) else {
        return Ok(None);
    };
    match proof_of(alloc, rules.as_slice(), first)? {
        Some(proof) => Ok(Some((cuts, proof))),
        None => Ok(None),
    }
}

/// The bytes of a graph with cuts and a proof, if they say a valid certificate.
#[tactic(auto, using(crate::proofs::Giving::is_certificate))]
fn accepted<P: Pairs>(
    alloc: Global,
    program: &Program<'_>,
    typing: &Typing,
    root: &AbsState<P>,
    names: &ClassNames,
    graph: &mut Graph<P>,
    cuts: &[u32],
    proof: &Proof,
) -> Result<Option<Seq<u8>>, SearchFault>
    requires typing { IsTypingOf (program_of program.now) (typing_at typing.now) }
    requires names { IsTrue (list_all is_class_name names.now) }
    ensures { IfOk result (λ found. IfSome found
        (λ bytes. IsCertificate (aim_of (program_of program.now) (typing_at typing.now) root.now) names.now bytes)) }
{
    let bytes = encode(alloc, graph, true, cuts, proof, names)?;
    if bytes.len() > MOST_CERTIFICATE_BYTES {
        return Ok(None);
    }
    let verdict = judged(alloc, program, typing, root, names, bytes.as_slice())?;
    match verdict {
        CertVerdict::Accepted => Ok(Some(bytes)),
        _ => Ok(None),
    }
}

/// The certificate that a candidate graph comes to, if it comes to one; `first` where it is the first graph again.
fn certificate_of<P: Pairs>(
    alloc: Global,
    program: &Program<'_>,
    typing: &Typing,
    root: &AbsState<P>,
    names: &ClassNames,
    graph: Graph<P>,
    first: bool,
) -> Result<Option<Seq<u8>>, SearchFault>
    requires typing { IsTypingOf (program_of program.now) (typing_at typing.now) }
    requires names { IsTrue (list_all is_class_name names.now) }
    requires few { length graph ≤ most_nodes }
    ensures { IfOk result (λ found. IfSome found
        (λ bytes. IsCertificate (aim_of (program_of program.now) (typing_at typing.now) root.now) names.now bytes)) }
{
    let mut graph = graph;
    let Some(links) = links_if_good(alloc, program, typing, root, &mut graph)? else {
        return Ok(None);
    };
    let Some((cuts, proof)) = proof_over(alloc, program, typing, root, &mut graph, &links, first)?
    else {
        return Ok(None);
    };
    accepted(
        alloc,
        program,
        typing,
        root,
        names,
        &mut graph,
        cuts.as_slice(),
        &proof,
    )
}

/// What one try comes to.
fn tried<P: Pairs>(
    alloc: Global,
    program: &Program<'_>,
    typing: &Typing,
    desc: &Desc,
    names: &ClassNames,
    root: &AbsState<P>,
    way: &Way,
) -> Result<Option<Seq<u8>>, SearchFault>
    requires typing { IsTypingOf (program_of program.now) (typing_at typing.now) }
    requires own { IsOwnDesc (program_of program.now) desc.now }
    requires names { IsTrue (list_all is_class_name names.now) }
    ensures { IfOk result (λ found. IfSome found
        (λ bytes. IsCertificate (aim_of (program_of program.now) (typing_at typing.now) root.now) names.now bytes)) }
{
    let start = root_of(alloc, program, typing, desc)?;
    let mut grower = RunGrower {
        program,
        typing,
        marks: Marks::new(alloc)?,
    };
    match grow(alloc, &mut grower, start, way) {
        Ok(Some(graph)) => {
            certificate_of(alloc, program, typing, root, names, graph, !way.peels)
        }
        Ok(None) => Ok(None),
        Err(BuildFault::Memory) => Err(SearchFault::Memory),
    }
}

/// Whether a condition compares two ints by their order.
fn is_order(cond: Cond) -> bool {
    matches!(cond, Cond::Lt | Cond::Ge | Cond::Gt | Cond::Le)
}

/// Whether a form is a jump by the order of two ints.
fn is_order_test(form: &Form<'_>) -> bool {
    match form {
        Form::If(cond, _) => is_order(*cond),
        Form::IfIcmp(cond, _) => is_order(*cond),
        _ => false,
    }
}

/// Whether an instruction is a jump by the order of two ints.
fn op_tests_order(op: &Op) -> bool {
    match form_of(op) {
        Some(form) => is_order_test(&form),
        None => false,
    }
}

/// Whether a method has a jump by the order of two ints.
fn method_tests_order(method: &Method<'_>) -> bool {
    for (_, op) in method.insns.as_slice() {
        if op_tests_order(op) {
            return true;
        }
    }
    false
}

/// Whether a method of a program has one.
fn tests_order(program: &Program<'_>) -> bool {
    for method in program.methods.as_slice() {
        if method_tests_order(method) {
            return true;
        }
    }
    false
}

/// Whether a state has a reference.
fn has_reference<P: Pairs>(state: &AbsState<P>) -> bool {
    for (_, cell) in state.cells() {
        if !cell.is_int() {
            return true;
        }
    }
    false
}

/// So many times a number of nodes, and some more.
fn budget(count: usize, times: u32, more: u32) -> u32 {
    let nodes = u32::try_from(count).unwrap_or(u32::MAX);
    nodes.saturating_mul(times).saturating_add(more)
}

/// The try whose graph has the first two visits of each head expanded.
fn peeled(count: usize, limit: u32) -> Way {
    Way {
        peels: true,
        ahead: 0,
        nodes: limit,
        growths: budget(count, 3, 450),
    }
}

/// The same with looking ahead, for at most 300 growths.
fn ahead(count: usize, limit: u32) -> Way {
    Way {
        peels: true,
        ahead: 300,
        nodes: limit,
        growths: budget(count, 1, 350),
    }
}

/// The first graph again, for a proof without the rules that nothing can take.
fn again(count: usize, limit: u32) -> Way {
    Way {
        peels: false,
        ahead: 0,
        nodes: limit,
        growths: budget(count, 1, 1),
    }
}

/// The number of nodes of the first graph, if it was closed and its paths were taken, and rules are left that no form ranks.
fn count_of<P: Pairs>(reason: &Reason<P>) -> Option<usize> {
    match reason {
        Reason::Component { cert, .. } => Some(cert.graph.len()),
        _ => None,
    }
}

/// The first certificate that the tries come to, in their order. There is no look ahead where a state has ints alone: it would run a loop
/// by hand, up to its end.
fn first_of<P: Pairs>(
    alloc: Global,
    program: &Program<'_>,
    typing: &Typing,
    desc: &Desc,
    names: &ClassNames,
    root: &AbsState<P>,
    count: usize,
    limit: u32,
) -> Result<Option<Seq<u8>>, SearchFault>
    requires typing { IsTypingOf (program_of program.now) (typing_at typing.now) }
    requires own { IsOwnDesc (program_of program.now) desc.now }
    requires names { IsTrue (list_all is_class_name names.now) }
    ensures { IfOk result (λ found. IfSome found
        (λ bytes. IsCertificate (aim_of (program_of program.now) (typing_at typing.now) root.now) names.now bytes)) }
{
    let way = again(count, limit);
    if let Some(bytes) = tried(alloc, program, typing, desc, names, root, &way)? {
        return Ok(Some(bytes));
    }
    let way = peeled(count, limit);
    if let Some(bytes) = tried(alloc, program, typing, desc, names, root, &way)? {
        return Ok(Some(bytes));
    }
    if !has_reference(root) {
        return Ok(None);
    }
    let way = ahead(count, limit);
    tried(alloc, program, typing, desc, names, root, &way)
}

/// Whether further tries are made of a state: not where it has ints alone and the program never compares two by their order. Where such a
/// program has a loop that ends, this ends by an int that comes upon a number after it wrapped, which a user is to hear of.
fn is_tried<P: Pairs>(program: &Program<'_>, root: &AbsState<P>) -> bool {
    has_reference(root) || tests_order(program)
}

/// The certificate that a further try comes to, if one does, where the first graph of the described initial state has no proof, for this
/// reason. Nothing is tried where that graph isn't closed, has too many paths, or has a certificate that is too long.
///
/// # Errors
///
/// Want of memory.
pub(crate) fn further<P: Pairs>(
    alloc: Global,
    program: &Program<'_>,
    typing: &Typing,
    desc: &Desc,
    names: &ClassNames,
    reason: &Reason<P>,
    limit: u32,
) -> Result<Option<Seq<u8>>, SearchFault>
    requires typing { IsTypingOf (program_of program.now) (typing_at typing.now) }
    requires own { IsOwnDesc (program_of program.now) desc.now }
    requires names { IsTrue (list_all is_class_name names.now) }
    ensures { IfOk result (λ found. IfSome found
        (λ bytes. IsCertificate
        (aim_of (program_of program.now) (typing_at typing.now) (initial_of (program_of program.now) desc.now)) names.now bytes)) }
{
    let Some(count) = count_of(reason) else {
        return Ok(None);
    };
    let root: AbsState<P> = root_of(alloc, program, typing, desc)?;
    if !is_tried(program, &root) {
        return Ok(None);
    }
    first_of(alloc, program, typing, desc, names, &root, count, limit)
}
