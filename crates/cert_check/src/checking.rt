//! The check of a certificate.
ghost use Rattle.std.specs.Prelude.{◌≡◌, ◌≤◌, ◌^◌, ◌-◌, ℕ, List, length, IfOk, OnOk};
ghost use Rattle.descent.specs.Conditions.{AreRules, AreSteps};
ghost use Rattle.descent.specs.declared.proof.ProofStep.{ProofStep};
ghost use Rattle.class_program.specs.Views.{program_of};
ghost use Rattle.code_verify.specs.Typings.{IsTypingOf, typing_at};
ghost use Rattle.graph_check.specs.Good.{GraphOk};
ghost use Rattle.cert_check.specs.Certified.{IsCertified};
ghost use Rattle.cert_check.specs.Valid.{Tells};
ghost use Rattle.cert_check.specs.Parts.{case_of, GraphOr, RulesOr};

use crate::cuts::are_cuts;
use crate::part_faults::{graph_refusal, path_refusal, proof_refusal};
use crate::refusal::{Cause, Refusal};
use abs_cells::{AbsState, Pairs};
use class_program::Program;
use code_verify::Typing;
use descent::{PathRule, Proof, check_proof};
use graph_check::check_graph;
use list_views::Seq;
use path_rules::paths;
use plan_links::links_fit;
use std::alloc::Global;
use term_graph::{Links, NodeSource};

/// The links of a good graph with the root's state at node 0.
///
/// # Errors
///
/// The first item that fails among the root and the nodes, with its cause; or want of memory.
#[tactic(auto, using(crate::proofs::Telling::links_good, crate::proofs::Telling::links_refused))]
pub fn good_links<P: Pairs, S: NodeSource<P>>(
    alloc: Global,
    program: &Program<'_>,
    typing: &Typing,
    source: &mut S,
    root: &AbsState<P>,
) -> Result<Links, Refusal>
    ensures graph { (cuts : List ℕ) (steps : List ProofStep)
        → GraphOr (case_of (program_of program.now) (typing_at typing.now) root.now (S.graph source.old) cuts steps) result }
    ensures same { S.graph source.new ≡ S.graph source.old }
{
    match check_graph(alloc, program, typing, source, root) {
        Ok(links) => Ok(links),
        Err(fault) => Err(graph_refusal(fault)),
    }
}

/// The rules of a good graph's paths between good cuts, given the graph's links.
///
/// # Errors
///
/// The cuts, which don't rise, aren't nodes or don't begin with 0; or what is first in the way of the paths; or want of memory.
#[tactic(auto, using(crate::proofs::Telling::ready_for, crate::proofs::Telling::cuts_refused, crate::proofs::Telling::paths_refused, crate::proofs::Telling::rules_given))]
pub fn rules_between<P: Pairs, S: NodeSource<P>>(
    alloc: Global,
    program: &Program<'_>,
    typing: &Typing,
    source: &mut S,
    root: &AbsState<P>,
    links: &Links,
    cuts: &[u32],
) -> Result<Seq<PathRule>, Refusal>
    requires graph { GraphOk (program_of program.now) (typing_at typing.now) (S.graph source.old) root.now links.now.nodes }
    requires typing { IsTypingOf (program_of program.now) (typing_at typing.now) }
    requires few { length (S.graph source.old) ≤ 2 ^ 32 - 16 }
    ensures rules { (steps : List ProofStep)
        → RulesOr (case_of (program_of program.now) (typing_at typing.now) root.now (S.graph source.old) cuts.now steps)
        links.now.nodes result }
    ensures fit { IfOk result AreRules }
    ensures same { S.graph source.new ≡ S.graph source.old }
{
    links_fit();
    program.is_good();
    let nodes = source.count();
    if !are_cuts(nodes, cuts) {
        return Err(Refusal::Item {
            item: 2 + u64::from(nodes),
            cause: Cause::Cuts,
        });
    }
    match paths(alloc, source, links, cuts) {
        Ok(rules) => Ok(rules),
        Err(fault) => Err(path_refusal(nodes, fault)),
    }
}

/// Whether a certificate is valid: its graph is a good one with the root's state at node 0, its cuts rise, are nodes and begin with node
/// 0, every cycle has one, the paths between them have rules, and the proof is closed for these. Then walks and runs end
/// (`IsCertified`).
///
/// # Errors
///
/// The first item that fails, with its cause; or want of memory.
pub fn check_cert<P: Pairs, S: NodeSource<P>>(
    alloc: Global,
    program: &Program<'_>,
    typing: &Typing,
    source: &mut S,
    root: &AbsState<P>,
    cuts: &[u32],
    proof: &Proof,
) -> Result<(), Refusal>
    requires typing { IsTypingOf (program_of program.now) (typing_at typing.now) }
    requires few { length (S.graph source.old) ≤ 2 ^ 32 - 16 }
    requires steps { AreSteps proof.now.steps }
    ensures tells { Tells (case_of (program_of program.now) (typing_at typing.now) root.now (S.graph source.old) cuts.now
        proof.now.steps) result }
    ensures certified { OnOk result (IsCertified (program_of program.now) (typing_at typing.now) (S.graph source.old) cuts.now root.now) }
    ensures same { S.graph source.new ≡ S.graph source.old }
{
    links_fit();
    program.is_good();
    let links = match good_links(alloc, program, typing, source, root) {
        Ok(links) => links,
        Err(refusal) => return Err(refusal),
    };
    let rules = match rules_between(alloc, program, typing, source, root, &links, cuts) {
        Ok(rules) => rules,
        Err(refusal) => return Err(refusal),
    };
    let nodes = source.count();
    match check_proof(alloc, rules.as_slice(), proof) {
        Ok(()) => Ok(()),
        Err(fault) => Err(proof_refusal(nodes, fault)),
    }
}
