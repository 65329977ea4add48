//! The bound of a certificate that is checked.
ghost use Rattle.std.specs.Prelude.{◌≡◌, ◌≤◌, ◌<◌, ◌^◌, ◌-◌, All, IfOk, length};
ghost use Rattle.abs_cells.specs.Sound.{IsWellFormed};
ghost use Rattle.class_program.specs.Views.{program_of};
ghost use Rattle.code_verify.specs.Typings.{IsTypingOf, typing_at};
ghost use Rattle.descent.specs.Conditions.{AreRules, AreSteps};
ghost use Rattle.cert_check.specs.Parts.{case_of};
ghost use Rattle.cert_check.specs.inner.PartChecks.{proof_refusal};
ghost use Rattle.bound_text.specs.Limits.{AreLimited};
ghost use Rattle.bound_check.specs.Answers.{Bounded, OwnRunsBounded};
ghost use Rattle.bound_check.specs.ValidParts.{PartsOr};
ghost use Rattle.bound_check.specs.inner.Checking.{IsFault, IsNoText, AreTold, IsTold};

use crate::bound::Bound;
use crate::checking::check_bound;
use crate::fault::BoundFault;
use crate::laws::bounds_hold;
use crate::refusal::BoundRefusal;
use abs_cells::{AbsState, Pairs};
use bound_text::{BoundText, JsonFault};
use cert_check::{Cause, Refusal, good_links, rules_between};
use class_program::Program;
use code_verify::Typing;
use descent::{PathRule, Proof, StepFault, check_proof};
use list_views::Seq;
use std::alloc::{AllocError, Global};
use term_graph::{Links, NodeSource};

/// What is said of the fault of the proof of a graph of so many nodes.
fn proof_refusal(nodes: u32, fault: StepFault) -> Refusal
    ensures { result ≡ proof_refusal nodes fault }
{
    match fault {
        StepFault::At { step, fault } => Refusal::Item {
            item: 4 + u64::from(nodes) + u64::from(step),
            cause: Cause::Proof(fault),
        },
        StepFault::Memory => Refusal::Memory,
    }
}

/// The links of a certificate's graph and the rules of its paths, where the certificate is valid.
///
/// # Errors
///
/// The first item of the certificate that fails, with its cause; or want of memory.
pub fn valid_parts<P: Pairs, S: NodeSource<P>>(
    alloc: Global,
    program: &Program<'_>,
    typing: &Typing,
    source: &mut S,
    root: &AbsState<P>,
    cuts: &[u32],
    proof: &Proof,
) -> Result<(Links, Seq<PathRule>), Refusal>
    requires typing { IsTypingOf (program_of program.now) (typing_at typing.now) }
    requires few { length (S.graph source.old) ≤ 2 ^ 32 - 16 }
    requires steps { AreSteps proof.now.steps }
    ensures parts { PartsOr (case_of (program_of program.now) (typing_at typing.now) root.now (S.graph source.old) cuts.now
        proof.now.steps) result }
    ensures fit { IfOk result (λ parts. AreRules parts.1) }
    ensures same { S.graph source.new ≡ S.graph source.old }
{
    let links = match good_links(alloc, program, typing, source, root) {
        Ok(links) => links,
        Err(refusal) => return Err(refusal),
    };
    let rules = match rules_between(alloc, program, typing, source, root, &links, cuts) {
        Ok(rules) => rules,
        Err(refusal) => return Err(refusal),
    };
    let nodes = source.count();
    match check_proof(alloc, rules.as_slice(), proof) {
        Ok(()) => Ok((links, rules)),
        Err(fault) => Err(proof_refusal(nodes, fault)),
    }
}

/// What is said of entries with a fault.
fn faulty(fault: BoundFault) -> Result<Result<Bound, BoundRefusal>, AllocError>
    ensures { IfOk result (IsFault fault) }
{
    match fault {
        BoundFault::Memory => Err(AllocError),
        fault => Ok(Err(BoundRefusal::Faulty(fault))),
    }
}

/// What is said of a text.
#[tactic(auto, using(crate::proofs::Told::fault_told))]
fn of_text<P: Pairs, S: NodeSource<P>>(
    alloc: Global,
    source: &mut S,
    root: &AbsState<P>,
    links: &Links,
    cuts: &[u32],
    rules: &[PathRule],
    proof: &Proof,
    text: &BoundText,
) -> Result<Result<Bound, BoundRefusal>, AllocError>
    requires root { IsWellFormed root.now }
    requires cuts { All (λ cut. cut < length (S.graph source.old)) cuts.now }
    requires few { length (S.graph source.old) ≤ 2 ^ 32 - 16 }
    requires rules { AreRules rules.now }
    requires steps { AreSteps proof.now.steps }
    requires text { AreLimited text.now.ranks }
    ensures told { IfOk result
        (AreTold (S.graph source.old) links.now.nodes cuts.now root.now rules.now proof.now.steps text.now.ranks) }
    ensures same { S.graph source.new ≡ S.graph source.old }
{
    match check_bound(alloc, source, root, links, cuts, rules, proof, text) {
        Ok(bound) => Ok(Ok(bound)),
        Err(fault) => faulty(fault),
    }
}

/// What is said of bytes that say no text.
fn no_text(fault: JsonFault) -> Result<Result<Bound, BoundRefusal>, AllocError>
    ensures { IfOk result (IsNoText fault) }
{
    match fault {
        JsonFault::Memory => Err(AllocError),
        fault => Ok(Err(BoundRefusal::NoText(fault))),
    }
}

/// What is said of the bytes of a text.
#[tactic(auto, using(crate::proofs::Told::text_told, crate::proofs::Told::none_told))]
fn of_bytes<P: Pairs, S: NodeSource<P>>(
    alloc: Global,
    source: &mut S,
    root: &AbsState<P>,
    links: &Links,
    cuts: &[u32],
    rules: &[PathRule],
    proof: &Proof,
    bound: &[u8],
) -> Result<Result<Bound, BoundRefusal>, AllocError>
    requires root { IsWellFormed root.now }
    requires cuts { All (λ cut. cut < length (S.graph source.old)) cuts.now }
    requires few { length (S.graph source.old) ≤ 2 ^ 32 - 16 }
    requires rules { AreRules rules.now }
    requires steps { AreSteps proof.now.steps }
    ensures told { IfOk result (IsTold (S.graph source.old) links.now.nodes cuts.now root.now rules.now proof.now.steps bound.now) }
    ensures same { S.graph source.new ≡ S.graph source.old }
{
    match BoundText::read(alloc, bound) {
        Ok(text) => of_text(alloc, source, root, links, cuts, rules, proof, &text),
        Err(fault) => no_text(fault),
    }
}

/// The bound that the bytes of a text give for a certificate, where the certificate is valid. Then every state that the program's
/// description fits has a run that ends after at most the bound's value of instructions.
///
/// # Errors
///
/// The certificate's first item that fails, with its cause; or want of memory. For a valid certificate the inner answer is the fault of
/// the bytes, or the first fault of the text's entries.
pub fn checked_bound<P: Pairs, S: NodeSource<P>>(
    alloc: Global,
    program: &Program<'_>,
    typing: &Typing,
    source: &mut S,
    root: &AbsState<P>,
    cuts: &[u32],
    proof: &Proof,
    bound: &[u8],
) -> Result<Result<Bound, BoundRefusal>, Refusal>
    requires typing { IsTypingOf (program_of program.now) (typing_at typing.now) }
    requires few { length (S.graph source.old) ≤ 2 ^ 32 - 16 }
    requires steps { AreSteps proof.now.steps }
    ensures tells { Bounded (case_of (program_of program.now) (typing_at typing.now) root.now (S.graph source.old) cuts.now
        proof.now.steps) bound.now result }
    ensures ends { IfOk result (λ told. IfOk told (OwnRunsBounded (program_of program.now) root.now)) }
    ensures same { S.graph source.new ≡ S.graph source.old }
{
    program.is_good();
    bounds_hold();
    match valid_parts(alloc, program, typing, source, root, cuts, proof) {
        Ok((links, rules)) => {
            let told = of_bytes(
                alloc,
                source,
                root,
                &links,
                cuts,
                rules.as_slice(),
                proof,
                bound,
            )?;
            Ok(told)
        }
        Err(refusal) => Err(refusal),
    }
}
