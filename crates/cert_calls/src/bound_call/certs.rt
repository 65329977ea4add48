//! What is said of a certificate, where its program and its description are good.
ghost use Rattle.std.specs.Prelude.{◌≤◌, ◌^◌, ◌-◌, length};
ghost use Rattle.class_program.specs.Views.{program_of};
ghost use Rattle.code_verify.specs.Typings.{IsTypingOf, typing_at};
ghost use Rattle.descent.specs.Conditions.{AreSteps};
ghost use Rattle.input_desc.specs.Descs.{IsOwnDesc};
ghost use Rattle.cert_form.specs.Certificates.{LackingAreNamed};
ghost use Rattle.cert_check.specs.Parts.{case_of};
ghost use Rattle.term_graph.specs.Limits.{most_nodes};
ghost use Rattle.check_call.specs.Answers.{OfCase, OfContent, OfCert};
ghost use Rattle.cert_calls.specs.bound_call.Answers.{SaysBound};
ghost use Rattle.cert_calls.specs.bound_call.inner.Words.{EndWithin, EndAsDescribed};

use crate::bound_call::outcome::{bounded, refused};
use abs_cells::{AbsState, PackedPairs, Pairs};
use bound_check::checked_bound;
use cert_check::Refusal;
use cert_form::CertText;
use check_call::{Outcome, refuse_item, refuse_text};
use class_program::Program;
use code_verify::Typing;
use desc_steps::class_names;
use descent::Proof;
use graph_fill::filled;
use input_desc::{Desc, initial};
use input_steps::Refused;
use std::alloc::Global;
use term_graph::NodeSource;

/// What is said of nodes with cuts and a proof.
#[tactic(auto, using(crate::proofs::BoundSaying::bounds, crate::proofs::BoundSaying::unbound, crate::proofs::BoundSaying::bounds_end, crate::proofs::BoundSaying::unbound_ends, crate::proofs::BoundSaying::refused_ends, check_call::proofs::Reading::case_refused))]
fn of_nodes<P: Pairs, S: NodeSource<P>>(
    alloc: Global,
    program: &Program<'_>,
    typing: &Typing,
    root: &AbsState<P>,
    nodes: &mut S,
    cuts: &[u32],
    proof: &Proof,
    bound: &[u8],
) -> Result<Outcome, Refused>
    requires typing { IsTypingOf (program_of program.now) (typing_at typing.now) }
    requires few { length (S.graph nodes.old) ≤ 2 ^ 32 - 16 }
    requires steps { AreSteps proof.now.steps }
    ensures case { OfCase (SaysBound bound.now)
        (case_of (program_of program.now) (typing_at typing.now) root.now (S.graph nodes.old) cuts.now proof.now.steps) result }
    ensures ends { EndWithin (program_of program.now) root.now result }
{
    match checked_bound(alloc, program, typing, nodes, root, cuts, proof, bound) {
        Ok(Ok(held)) => bounded(alloc, &program.world, &held),
        Ok(Err(refusal)) => refused(alloc, &refusal),
        Err(Refusal::Item { item, cause }) => refuse_item(alloc, item, cause),
        Err(Refusal::Memory) => Err(Refused::Memory),
    }
}

/// What is said of what a certificate says.
#[tactic(auto, using(graph_fill::proofs::Lacking::few_filled, check_call::proofs::Reading::content_goes))]
fn of_text(
    alloc: Global,
    program: &Program<'_>,
    typing: &Typing,
    root: &AbsState<PackedPairs>,
    text: &CertText<'_>,
    bound: &[u8],
) -> Result<Outcome, Refused>
    requires typing { IsTypingOf (program_of program.now) (typing_at typing.now) }
    requires named { LackingAreNamed text.now.parts }
    requires few { length text.now.parts ≤ most_nodes }
    requires steps { AreSteps text.now.proof }
    ensures content { OfContent (SaysBound bound.now) (program_of program.now) (typing_at typing.now) root.now text.now result }
    ensures ends { EndWithin (program_of program.now) root.now result }
{
    let mut nodes = filled::<PackedPairs, _>(alloc, program, typing, text)?;
    nodes.begin(true);
    of_nodes(
        alloc,
        program,
        typing,
        root,
        &mut nodes,
        text.cuts(),
        text.proof(),
        bound,
    )
}

/// What is said of the bytes of a certificate for a program whose inputs are described.
#[tactic(auto, using(crate::proofs::BoundSaying::described, crate::proofs::BoundSaying::text_ends, check_call::proofs::Reading::cert_goes, check_call::proofs::Reading::cert_refused))]
pub(crate) fn bound_bytes(
    alloc: Global,
    program: &Program<'_>,
    typing: &Typing,
    desc: &Desc,
    cert: &[u8],
    bound: &[u8],
) -> Result<Outcome, Refused>
    requires typing { IsTypingOf (program_of program.now) (typing_at typing.now) }
    requires own { IsOwnDesc (program_of program.now) desc.now }
    ensures cert { OfCert (SaysBound bound.now) cert.now (program_of program.now) (typing_at typing.now) desc.now result }
    ensures ends { EndAsDescribed (program_of program.now) desc.now result }
{
    let names = class_names(alloc, &program.world)?;
    let root: AbsState<PackedPairs> = initial(alloc, desc, program)?;
    match CertText::read(alloc, cert, &names) {
        Ok(text) => of_text(alloc, program, typing, &root, &text, bound),
        Err(fault) => refuse_text(alloc, fault),
    }
}
