//! Lines that are put, each as soon as it is known.
ghost use Rattle.std.specs.Prelude.{IfOk, OnOk, OnErr};
ghost use Rattle.survey.specs.Claims.{Surveyed, IsTrueLine, AreTrue};
ghost use Rattle.survey.specs.Outside.{Tells, BeginsToTell};
ghost use Rattle.survey.specs.inner.Wording.{GrowsTrue};

use crate::failure::Stop;
use crate::lines::{Head, other_line};
use io_ports::Sink;
use list_views::Seq;
use std::alloc::{AllocError, Global};

/// Puts a line behind a text, and a newline.
#[tactic(auto, using(crate::proofs::Truths::one_more))]
pub(crate) fn add_line(text: &mut Seq<u8>, line: &[u8]) -> Result<(), AllocError>
    ensures { OnOk result ((s : Surveyed) → IsTrueLine s line.now → AreTrue s text.old → AreTrue s text.new) }
{
    text.extend_from_slice(line)?;
    text.push(b'\n')?;
    Ok(())
}

/// Puts a line that claims nothing behind a text.
#[tactic(auto, using(crate::proofs::Truths::other_grows))]
pub(crate) fn add_other(
    alloc: Global,
    text: &mut Seq<u8>,
    head: Head,
    rest: &[u8],
) -> Result<(), AllocError>
    ensures { OnOk result (GrowsTrue text.old text.new) }
{
    let line = other_line(alloc, head, rest)?;
    add_line(text, line.as_slice())?;
    Ok(())
}

/// The text of a line that claims nothing.
#[tactic(auto, using(crate::proofs::Truths::grown_true))]
fn other_text(alloc: Global, head: Head, rest: &[u8]) -> Result<Seq<u8>, AllocError>
    ensures { IfOk result (λ text. (s : Surveyed) → AreTrue s text) }
{
    let mut text = Seq::new(alloc);
    add_other(alloc, &mut text, head, rest)?;
    Ok(text)
}

/// Puts a text of true lines on an output.
#[tactic(auto, using(crate::proofs::Telling::told, crate::proofs::Telling::begun))]
pub(crate) fn put_text<O: Sink>(out: &mut O, text: &[u8]) -> Result<(), Stop>
    ensures told { OnOk result ((s : Surveyed) → AreTrue s text.now → Tells O.taken s out.old out.new) }
    ensures begun { OnErr result ((s : Surveyed) → AreTrue s text.now → BeginsToTell O.taken s out.old out.new) }
{
    match out.put(text) {
        Ok(()) => Ok(()),
        Err(_) => Err(Stop::Write),
    }
}

/// Puts a line that claims nothing on an output.
#[tactic(auto, using(crate::proofs::Telling::told_other, crate::proofs::Telling::begun_other, crate::proofs::Telling::nothing_begun))]
pub(crate) fn put_other<O: Sink>(
    alloc: Global,
    out: &mut O,
    head: Head,
    rest: &[u8],
) -> Result<(), Stop>
    ensures told { OnOk result ((s : Surveyed) → Tells O.taken s out.old out.new) }
    ensures begun { OnErr result ((s : Surveyed) → BeginsToTell O.taken s out.old out.new) }
{
    match other_text(alloc, head, rest) {
        Ok(text) => match put_text(out, text.as_slice()) {
            Ok(()) => Ok(()),
            Err(stop) => Err(stop),
        },
        Err(AllocError) => Err(Stop::Memory),
    }
}
