//! What is said of a certificate.
ghost use Rattle.std.specs.Prelude.{◌≡◌, IfOk};
ghost use Rattle.desc_steps.specs.Answers.{AnswersAs};
ghost use Rattle.check_call.specs.Lines.{refused_line, accepted, refused_at};

use input_steps::Refused;
use list_views::Seq;
use list_views::fault_words::{joined, number};
use std::alloc::{AllocError, Global};

/// What is said of a certificate.
#[derive(Drop)]
pub struct Outcome {
    /// The exit status: 0 where it is accepted, 2 where it is refused.
    pub status: u8,
    /// The line of the output.
    pub out: Seq<u8>,
}

/// The line that says which item fails first.
fn refused_line(alloc: Global, item: u64, cause: &[u8]) -> Result<Seq<u8>, AllocError>
    ensures { IfOk result (λ line. line ≡ refused_line item cause.now) }
{
    let item = number(alloc, item as usize)?;
    joined(
        alloc,
        &[b"REFUSED item ", item.as_slice(), b": ", cause, b"\n"],
    )
}

/// The certificate is accepted.
pub(crate) fn accepted(alloc: Global) -> Result<Outcome, Refused>
    ensures { AnswersAs accepted result }
{
    let out = Seq::from_slice(alloc, b"ACCEPTED\n")?;
    Ok(Outcome { status: 0, out })
}

/// The certificate is refused at an item for a cause.
pub(crate) fn refused(alloc: Global, item: u64, cause: &[u8]) -> Result<Outcome, Refused>
    ensures { AnswersAs (refused_at item cause.now) result }
{
    let out = refused_line(alloc, item, cause)?;
    Ok(Outcome { status: 2, out })
}
