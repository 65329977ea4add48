//! What is said of a certificate, where its program and its description are good.
ghost use Rattle.std.specs.Prelude.{◌≡◌, ◌≤◌, length, IsTrue};
ghost use Rattle.std.specs.List.{list_all};
ghost use Rattle.class_base.specs.ClassNames.{is_class_name};
ghost use Rattle.class_world.specs.Worlds.{classes_of};
ghost use Rattle.class_program.specs.Views.{program_of};
ghost use Rattle.code_verify.specs.Typings.{typing_at};
ghost use Rattle.cert_form.specs.Certificates.{LackingAreNamed};
ghost use Rattle.desc_steps.specs.Names.{names_of};
ghost use Rattle.term_graph.specs.Limits.{most_nodes};
ghost use Rattle.check_call.specs.FillAnswers.{AnswersContent, AnswersCert};

use crate::certs::refuse_text;
use crate::outcome::Outcome;
use crate::writing::filled_text;
use abs_cells::PackedPairs;
use cert_form::{CertText, ClassNames};
use class_program::Program;
use code_verify::Typing;
use desc_steps::class_names;
use graph_fill::filled;
use input_steps::Refused;
use std::alloc::Global;

/// What is said of what a certificate says.
#[tactic(auto, using(crate::proofs::FillSaying::filled_goes))]
fn fill_content(
    alloc: Global,
    program: &Program<'_>,
    typing: &Typing,
    names: &ClassNames,
    cert: &CertText<'_>,
) -> Result<Outcome, Refused>
    requires names { names.now ≡ names_of (classes_of program.now.world) }
    requires are_names { IsTrue (list_all is_class_name names.now) }
    requires named { LackingAreNamed cert.now.parts }
    requires few { length cert.now.parts ≤ most_nodes }
    ensures { AnswersContent (program_of program.now) (typing_at typing.now) cert.now result }
{
    let mut nodes = filled::<PackedPairs, _>(alloc, program, typing, cert)?;
    let out = filled_text(alloc, &mut nodes, cert.cuts(), cert.proof(), names)?;
    Ok(Outcome { status: 0, out })
}

/// What is said of the bytes of a certificate.
#[tactic(auto, using(crate::proofs::FillSaying::text_goes, crate::proofs::FillSaying::text_refused))]
pub(crate) fn fill_bytes(
    alloc: Global,
    program: &Program<'_>,
    typing: &Typing,
    cert: &[u8],
) -> Result<Outcome, Refused>
    requires names { IsTrue (list_all is_class_name (names_of (classes_of program.now.world))) }
    ensures { AnswersCert cert.now (program_of program.now) (typing_at typing.now) result }
{
    let names = class_names(alloc, &program.world)?;
    match CertText::read(alloc, cert, &names) {
        Ok(text) => fill_content(alloc, program, typing, &names, &text),
        Err(fault) => refuse_text(alloc, fault),
    }
}
