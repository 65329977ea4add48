//! What is said of a certificate, where its program and its description are good.
ghost use Rattle.std.specs.Prelude.{◌≤◌, length, IsTrue};
ghost use Rattle.std.specs.List.{list_all};
ghost use Rattle.class_base.specs.ClassNames.{is_class_name};
ghost use Rattle.class_world.specs.Worlds.{classes_of};
ghost use Rattle.class_program.specs.Views.{program_of};
ghost use Rattle.code_verify.specs.Typings.{IsTypingOf, typing_at};
ghost use Rattle.descent.specs.Conditions.{AreSteps};
ghost use Rattle.input_desc.specs.Descs.{IsOwnDesc};
ghost use Rattle.desc_steps.specs.Names.{names_of};
ghost use Rattle.cert_form.specs.Certificates.{LackingAreNamed};
ghost use Rattle.cert_check.specs.Parts.{case_of};
ghost use Rattle.term_graph.specs.Limits.{most_nodes};
ghost use Rattle.check_call.specs.Answers.{OfCase, OfContent, OfCert};
ghost use Rattle.cert_making.specs.migrate_call.Answers.{SaysMigrated};
ghost use Rattle.cert_making.specs.migrate_call.inner.Words.{AreNames, IsWithinLimits, WasRead, IsWrittenIfDone, IsWrittenOfIfDone};
ghost use Rattle.cert_making.specs.migrate_call.inner.Words.{IsWrittenAgainIfDone};

use crate::migrate_call::collecting::collected;
use crate::migrate_call::writing::migrated;
use abs_cells::{AbsState, PackedPairs};
use cert_check::{Refusal, check_cert};
use cert_form::cert_limits::read_certificates_keep_limits;
use cert_form::{CertText, ClassNames};
use check_call::{Outcome, refuse_item, refuse_text};
use class_program::Program;
use code_verify::Typing;
use desc_steps::class_names;
use descent::Proof;
use graph_fill::filled;
use input_desc::{Desc, initial};
use input_steps::Refused;
use prove_core::{good_graphs_are_readable, graph_is_stored};
use std::alloc::Global;
use term_graph::Graph;

/// What is said of a graph with cuts and a proof.
#[tactic(auto, using(crate::proofs::MigrateSaying::case_migrated, crate::proofs::MigrateSaying::case_written, crate::proofs::MigrateSaying::refused_unwritten, check_call::proofs::Reading::case_refused))]
fn of_graph(
    alloc: Global,
    program: &Program<'_>,
    typing: &Typing,
    root: &AbsState<PackedPairs>,
    names: &ClassNames,
    graph: &mut Graph<PackedPairs>,
    cuts: &[u32],
    proof: &Proof,
) -> Result<Outcome, Refused>
    requires typing { IsTypingOf (program_of program.now) (typing_at typing.now) }
    requires names { AreNames (program_of program.now) names.now }
    requires few { length graph.old ≤ most_nodes }
    requires steps { AreSteps proof.now.steps }
    requires limits { IsWithinLimits graph.old proof.now.steps }
    ensures case { OfCase SaysMigrated (case_of (program_of program.now) (typing_at typing.now) root.now graph.old cuts.now
        proof.now.steps) result }
    ensures written { IsWrittenIfDone (case_of (program_of program.now) (typing_at typing.now) root.now graph.old cuts.now
        proof.now.steps) result }
{
    program.is_good();
    graph_is_stored(graph);
    good_graphs_are_readable();
    match check_cert(alloc, program, typing, graph, root, cuts, proof) {
        Ok(()) => migrated(alloc, graph, cuts, proof, names),
        Err(Refusal::Item { item, cause }) => refuse_item(alloc, item, cause),
        Err(Refusal::Memory) => Err(Refused::Memory),
    }
}

/// What is said of what a certificate says.
#[tactic(auto, using(graph_fill::proofs::Lacking::few_filled, crate::proofs::MigrateSaying::content_written, check_call::proofs::Reading::content_goes))]
fn of_text(
    alloc: Global,
    program: &Program<'_>,
    typing: &Typing,
    root: &AbsState<PackedPairs>,
    names: &ClassNames,
    text: &CertText<'_>,
) -> Result<Outcome, Refused>
    requires typing { IsTypingOf (program_of program.now) (typing_at typing.now) }
    requires names { AreNames (program_of program.now) names.now }
    requires named { LackingAreNamed text.now.parts }
    requires few { length text.now.parts ≤ most_nodes }
    requires steps { AreSteps text.now.proof }
    requires read { WasRead names.now text.now }
    ensures content { OfContent SaysMigrated (program_of program.now) (typing_at typing.now) root.now text.now result }
    ensures written { IsWrittenOfIfDone (program_of program.now) (typing_at typing.now) root.now text.now result }
{
    program.is_good();
    read_certificates_keep_limits();
    let mut nodes = filled::<PackedPairs, _>(alloc, program, typing, text)?;
    let mut graph = collected(alloc, &mut nodes)?;
    of_graph(
        alloc,
        program,
        typing,
        root,
        names,
        &mut graph,
        text.cuts(),
        text.proof(),
    )
}

/// What is said of the bytes of a certificate for a program whose inputs are described.
#[tactic(auto, using(crate::proofs::MigrateSaying::are_names, crate::proofs::MigrateSaying::was_read, crate::proofs::MigrateSaying::cert_written, crate::proofs::MigrateSaying::none_written, check_call::proofs::Reading::cert_goes, check_call::proofs::Reading::cert_refused))]
pub(crate) fn migrate_bytes(
    alloc: Global,
    program: &Program<'_>,
    typing: &Typing,
    desc: &Desc,
    cert: &[u8],
) -> Result<Outcome, Refused>
    requires typing { IsTypingOf (program_of program.now) (typing_at typing.now) }
    requires own { IsOwnDesc (program_of program.now) desc.now }
    requires names { IsTrue (list_all is_class_name (names_of (classes_of program.now.world))) }
    ensures cert { OfCert SaysMigrated cert.now (program_of program.now) (typing_at typing.now) desc.now result }
    ensures written { IsWrittenAgainIfDone cert.now (program_of program.now) (typing_at typing.now) desc.now result }
{
    let names = class_names(alloc, &program.world)?;
    let root: AbsState<PackedPairs> = initial(alloc, desc, program)?;
    match CertText::read(alloc, cert, &names) {
        Ok(text) => of_text(alloc, program, typing, &root, &names, &text),
        Err(fault) => refuse_text(alloc, fault),
    }
}
