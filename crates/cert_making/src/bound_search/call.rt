//! A bound for the bytes of a certificate.
ghost use Rattle.std.specs.Prelude.{◌≤◌, ◌^◌, ◌-◌, length};
ghost use Rattle.class_base.specs.Limits.{most_classes};
ghost use Rattle.class_program.specs.Views.{program_of};
ghost use Rattle.code_verify.specs.Typings.{IsTypingOf, typing_at};
ghost use Rattle.cert_form.specs.Certificates.{LackingAreNamed};
ghost use Rattle.descent.specs.Conditions.{AreSteps};
ghost use Rattle.input_desc.specs.Descs.{IsOwnDesc};
ghost use Rattle.term_graph.specs.Limits.{most_nodes};

use crate::bound_search::finding::find;
use crate::bound_search::writing::text_of;
use abs_cells::{AbsState, PackedPairs, Pairs};
use bound_check::valid_parts;
use cert_check::Refusal;
use cert_form::{CertFault, CertText};
use class_program::Program;
use code_verify::Typing;
use desc_steps::{class_names, described_program};
use descent::Proof;
use graph_fill::filled;
use input_desc::{Desc, initial};
use input_steps::Refused;
use list_views::Seq;
use std::alloc::{AllocError, Global};
use term_graph::NodeSource;

/// What is found for a certificate.
#[derive(Drop)]
pub enum Found {
    /// The text of a bound.
    Text(Seq<u8>),
    /// The certificate is valid, and none of its forms gives a bound.
    None,
    /// The certificate is refused.
    Refused,
}

/// What is found for nodes with cuts and a proof.
fn of_nodes<P: Pairs, N: NodeSource<P>>(
    alloc: Global,
    program: &Program<'_>,
    typing: &Typing,
    root: &AbsState<P>,
    nodes: &mut N,
    cuts: &[u32],
    proof: &Proof,
) -> Result<Found, AllocError>
    requires typing { IsTypingOf (program_of program.now) (typing_at typing.now) }
    requires few { length (N.graph nodes.old) ≤ 2 ^ 32 - 16 }
    requires steps { AreSteps proof.now.steps }
{
    let rules = match valid_parts(alloc, program, typing, nodes, root, cuts, proof) {
        Ok((_, rules)) => rules,
        Err(Refusal::Memory) => return Err(AllocError),
        Err(_) => return Ok(Found::Refused),
    };
    match find(alloc, rules.as_slice(), proof.steps.as_slice())? {
        Some(entries) => Ok(Found::Text(text_of(alloc, entries.as_slice())?)),
        None => Ok(Found::None),
    }
}

/// What is found for what a certificate says.
#[tactic(auto, using(graph_fill::proofs::Lacking::few_filled))]
fn of_text<P: Pairs>(
    alloc: Global,
    program: &Program<'_>,
    typing: &Typing,
    root: &AbsState<P>,
    text: &CertText<'_>,
) -> Result<Found, AllocError>
    requires typing { IsTypingOf (program_of program.now) (typing_at typing.now) }
    requires named { LackingAreNamed text.now.parts }
    requires few { length text.now.parts ≤ most_nodes }
    requires steps { AreSteps text.now.proof }
{
    let mut nodes = filled::<P, _>(alloc, program, typing, text)?;
    nodes.begin(true);
    of_nodes(
        alloc,
        program,
        typing,
        root,
        &mut nodes,
        text.cuts(),
        text.proof(),
    )
}

/// What is found for the bytes of a certificate.
fn of_bytes(
    alloc: Global,
    program: &Program<'_>,
    typing: &Typing,
    desc: &Desc,
    cert: &[u8],
) -> Result<Found, AllocError>
    requires typing { IsTypingOf (program_of program.now) (typing_at typing.now) }
    requires own { IsOwnDesc (program_of program.now) desc.now }
{
    let names = class_names(alloc, &program.world)?;
    let root: AbsState<PackedPairs> = initial(alloc, desc, program)?;
    match CertText::read(alloc, cert, &names) {
        Ok(text) => of_text(alloc, program, typing, &root, &text),
        Err(CertFault::Memory) => Err(AllocError),
        Err(_) => Ok(Found::Refused),
    }
}

/// The text of a bound for the bytes of a certificate, a description and class files, where one of the certificate's own forms gives one
/// for each rank step. Nothing is claimed of the text: `bound` of `jterm` checks it. There are at most 256 class files.
///
/// # Errors
///
/// Those of `check`, but for the certificate.
pub fn bound_for(
    alloc: Global,
    cert: &[u8],
    desc: &[u8],
    files: &[Vec<u8>],
) -> Result<Found, Refused>
    requires { length files.now ≤ most_classes }
{
    match described_program(alloc, desc, files) {
        Ok(given) => Ok(of_bytes(alloc, &given.program, &given.typing, &given.desc, cert)?),
        Err(refused) => Err(refused),
    }
}
