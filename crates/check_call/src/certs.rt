//! What is said of a certificate, where its program and its description are good.
ghost use Rattle.class_program.specs.Views.{program_of};
ghost use Rattle.code_verify.specs.Typings.{IsTypingOf, typing_at};
ghost use Rattle.input_desc.specs.Descs.{IsOwnDesc};
ghost use Rattle.desc_steps.specs.Answers.{AnswersAs};
ghost use Rattle.check_call.specs.Answers.{AnswersCert};
ghost use Rattle.check_call.specs.Causes.{cause_text};
ghost use Rattle.check_call.specs.Headline.{EndsIfAccepted};
ghost use Rattle.check_call.specs.Lines.{refused_at};
ghost use Rattle.check_call.specs.inner.Said.{IsSaid};
ghost use Rattle.check_call.specs.Answers.{IsSaidOfText};

use crate::causes::cause_text;
use crate::outcome::{Outcome, accepted, refused};
use abs_cells::{AbsState, PackedPairs};
use cert_check::{Cause, certified_runs_end};
use cert_form::CertFault;
use cert_verdict::{CertVerdict, judged};
use class_program::Program;
use code_verify::Typing;
use desc_steps::class_names;
use input_desc::{Desc, initial};
use input_steps::Refused;
use std::alloc::Global;

/// What is said of bytes that are no certificate, at item 0 with this fault.
///
/// # Errors
///
/// Want of memory.
pub fn refuse_text(alloc: Global, fault: CertFault) -> Result<Outcome, Refused>
    ensures { IsSaidOfText fault result }
{
    match fault {
        CertFault::Memory => Err(Refused::Memory),
        fault => {
            let cause = fault.text(alloc)?;
            refused(alloc, 0, cause.as_slice())
        }
    }
}

/// What is said of a certificate whose item of this number is the first that fails, for this cause.
///
/// # Errors
///
/// Want of memory.
pub fn refuse_item(alloc: Global, item: u64, cause: Cause) -> Result<Outcome, Refused>
    ensures { AnswersAs (refused_at item (cause_text cause)) result }
{
    let cause = cause_text(alloc, cause)?;
    refused(alloc, item, cause.as_slice())
}

/// The words for a verdict.
fn said(alloc: Global, verdict: CertVerdict) -> Result<Outcome, Refused>
    ensures { IsSaid verdict result }
{
    match verdict {
        CertVerdict::Accepted => accepted(alloc),
        CertVerdict::Refused { item, cause } => refuse_item(alloc, item, cause),
        CertVerdict::NoText(fault) => refuse_text(alloc, fault),
    }
}

/// What is said of the bytes of a certificate for a program whose inputs are described.
#[tactic(auto, using(crate::proofs::Saying::said_answers))]
pub(crate) fn check_bytes(
    alloc: Global,
    program: &Program<'_>,
    typing: &Typing,
    desc: &Desc,
    cert: &[u8],
) -> Result<Outcome, Refused>
    requires typing { IsTypingOf (program_of program.now) (typing_at typing.now) }
    requires own { IsOwnDesc (program_of program.now) desc.now }
    ensures cert { AnswersCert cert.now (program_of program.now) (typing_at typing.now) desc.now result }
    ensures ends { EndsIfAccepted (program_of program.now) desc.now result }
{
    program.is_good();
    certified_runs_end();
    let names = class_names(alloc, &program.world)?;
    let root: AbsState<PackedPairs> = initial(alloc, desc, program)?;
    let verdict = judged(alloc, program, typing, &root, &names, cert)?;
    said(alloc, verdict)
}
