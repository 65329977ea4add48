//! Reading, filling and checking the bytes of a certificate.
ghost use Rattle.std.specs.Prelude.{◌≤◌, ◌^◌, ◌-◌, length, IfOk};
ghost use Rattle.class_program.specs.Views.{program_of};
ghost use Rattle.code_verify.specs.Typings.{IsTypingOf, typing_at};
ghost use Rattle.descent.specs.Conditions.{AreSteps};
ghost use Rattle.cert_form.specs.Certificates.{LackingAreNamed};
ghost use Rattle.term_graph.specs.Limits.{most_nodes};
ghost use Rattle.cert_verdict.specs.Verdicts.{Judges};
ghost use Rattle.cert_verdict.specs.inner.Words.{IsChecked, IsOfContent};

use crate::verdict::CertVerdict;
use abs_cells::{AbsState, Pairs};
use cert_check::{Refusal, check_cert};
use cert_form::{CertFault, CertText, ClassNames};
use class_program::Program;
use code_verify::Typing;
use descent::Proof;
use graph_fill::filled;
use std::alloc::{AllocError, Global};
use term_graph::NodeSource;

/// The verdict on nodes with cuts and a proof.
fn checked<P: Pairs, N: NodeSource<P>>(
    alloc: Global,
    program: &Program<'_>,
    typing: &Typing,
    root: &AbsState<P>,
    nodes: &mut N,
    cuts: &[u32],
    proof: &Proof,
) -> Result<CertVerdict, AllocError>
    requires typing { IsTypingOf (program_of program.now) (typing_at typing.now) }
    requires few { length (N.graph nodes.old) ≤ 2 ^ 32 - 16 }
    requires steps { AreSteps proof.now.steps }
    ensures { IfOk result
        (IsChecked (program_of program.now) (typing_at typing.now) root.now (N.graph nodes.old) cuts.now proof.now.steps) }
{
    match check_cert(alloc, program, typing, nodes, root, cuts, proof) {
        Ok(()) => Ok(CertVerdict::Accepted),
        Err(Refusal::Item { item, cause }) => Ok(CertVerdict::Refused { item, cause }),
        Err(Refusal::Memory) => Err(AllocError),
    }
}

/// The verdict on what a certificate says.
#[tactic(auto, using(graph_fill::proofs::Lacking::few_filled, crate::proofs::Steps::of_content))]
fn of_text<P: Pairs>(
    alloc: Global,
    program: &Program<'_>,
    typing: &Typing,
    root: &AbsState<P>,
    text: &CertText<'_>,
) -> Result<CertVerdict, AllocError>
    requires typing { IsTypingOf (program_of program.now) (typing_at typing.now) }
    requires named { LackingAreNamed text.now.parts }
    requires few { length text.now.parts ≤ most_nodes }
    requires steps { AreSteps text.now.proof }
    ensures { IfOk result (IsOfContent (program_of program.now) (typing_at typing.now) root.now text.now) }
{
    let mut nodes = filled::<P, _>(alloc, program, typing, text)?;
    nodes.begin(true);
    checked(
        alloc,
        program,
        typing,
        root,
        &mut nodes,
        text.cuts(),
        text.proof(),
    )
}

/// The verdict on the bytes of a certificate, for a program with its typing and a state with which the certificate is to begin. Types are
/// read by the names of the world's classes, in the order of their numbers.
///
/// # Errors
///
/// Want of memory.
#[tactic(auto, using(crate::proofs::Steps::of_bytes, crate::proofs::Steps::no_text))]
pub fn judged<P: Pairs>(
    alloc: Global,
    program: &Program<'_>,
    typing: &Typing,
    root: &AbsState<P>,
    names: &ClassNames,
    bytes: &[u8],
) -> Result<CertVerdict, AllocError>
    requires { IsTypingOf (program_of program.now) (typing_at typing.now) }
    ensures { IfOk result (Judges (program_of program.now) (typing_at typing.now) root.now names.now bytes.now) }
{
    match CertText::read(alloc, bytes, names) {
        Ok(text) => of_text(alloc, program, typing, root, &text),
        Err(CertFault::Memory) => Err(AllocError),
        Err(fault) => Ok(CertVerdict::NoText(fault)),
    }
}
