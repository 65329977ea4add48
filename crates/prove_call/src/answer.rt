//! What is said of a program.
ghost use Rattle.std.specs.Prelude.{Result, Ok, Some, None};
ghost use Rattle.class_program.specs.Views.{program_of};
ghost use Rattle.desc_steps.specs.Answers.{AnswersAs};
ghost use Rattle.prove_call.specs.Lines.{reason_text};
ghost use Rattle.prove_call.specs.Answers.{yes_with};
ghost use Rattle.prove_call.specs.inner.Said.{maybe_with, Tells};

use crate::lines::reason_text;
use abs_cells::PackedPairs;
use class_program::Program;
use input_steps::Refused;
use list_views::Seq;
use list_views::fault_words::joined;
use prove_core::{Found, Reason};
use std::alloc::Global;

/// What is said of a program.
#[derive(Drop)]
pub struct Answer {
    /// The exit status: 0 for yes, 1 for maybe.
    pub status: u8,
    /// The bytes for the output.
    pub out: Seq<u8>,
    /// Why no certificate is given, where the answer is maybe.
    pub reason: Option<Reason<PackedPairs>>,
}

/// Yes, with the bytes of a certificate.
fn yes(alloc: Global, cert: &[u8]) -> Result<Answer, Refused>
    ensures { AnswersAs (yes_with cert.now) result }
{
    let out = joined(alloc, &[b"YES\n", cert, b"\n"])?;
    Ok(Answer {
        status: 0,
        out,
        reason: None,
    })
}

/// Maybe, for a reason.
fn maybe(
    alloc: Global,
    program: &Program<'_>,
    reason: Reason<PackedPairs>,
) -> Result<Answer, Refused>
    ensures { AnswersAs (maybe_with (program_of program.now) reason) result }
{
    let out = reason_text(alloc, program, &reason)?;
    Ok(Answer {
        status: 1,
        out,
        reason: Some(reason),
    })
}

/// What is said of what was found.
pub(crate) fn told(
    alloc: Global,
    program: &Program<'_>,
    found: Found<PackedPairs>,
) -> Result<Answer, Refused>
    ensures { Tells (program_of program.now) found result }
{
    match found {
        Found::Certificate(cert) => yes(alloc, cert.as_slice()),
        Found::Maybe(reason) => maybe(alloc, program, reason),
    }
}
