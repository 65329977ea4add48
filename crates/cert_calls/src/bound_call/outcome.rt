//! The outcomes in words.
ghost use Rattle.std.specs.Prelude.{◌≡◌, IfOk};
ghost use Rattle.class_world.specs.Worlds.{classes_of};
ghost use Rattle.desc_steps.specs.Answers.{AnswersAs};
ghost use Rattle.cert_calls.specs.bound_call.Lines.{bounded, refused_line, refused_for};

use bound_check::{Bound, BoundRefusal, bound_lines, cause_text};
use check_call::Outcome;
use class_world::World;
use input_steps::Refused;
use list_views::Seq;
use list_views::fault_words::joined;
use std::alloc::{AllocError, Global};

/// A bound in words.
pub(crate) fn bounded(alloc: Global, world: &World<'_>, bound: &Bound) -> Result<Outcome, Refused>
    ensures { AnswersAs (bounded (classes_of world.now) bound.now) result }
{
    let out = bound_lines(alloc, world, bound)?;
    Ok(Outcome { status: 0, out })
}

/// The line that says what is in the way.
fn refused_line(alloc: Global, cause: &[u8]) -> Result<Seq<u8>, AllocError>
    ensures { IfOk result (λ line. line ≡ refused_line cause.now) }
{
    joined(alloc, &[b"REFUSED bound: ", cause, b"\n"])
}

/// The text says no bound, or its entries do not hold.
pub(crate) fn refused(alloc: Global, refusal: &BoundRefusal) -> Result<Outcome, Refused>
    ensures { AnswersAs (refused_for refusal.now) result }
{
    let cause = cause_text(alloc, refusal)?;
    let out = refused_line(alloc, cause.as_slice())?;
    Ok(Outcome { status: 2, out })
}
