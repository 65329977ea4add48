//! The outcomes in words.
ghost use Rattle.std.specs.Prelude.{◌≡◌, IfOk};
ghost use Rattle.cert_check.specs.Valid.{graph_item};
ghost use Rattle.desc_steps.specs.Answers.{AnswersAs};
ghost use Rattle.cert_calls.specs.loop_call.Lines.{refused_line, never_ends};
ghost use Rattle.cert_calls.specs.loop_call.inner.Words.{IsSaidOf};

use cert_check::Cause;
use cert_check::graph_check::What;
use check_call::{Outcome, refuse_item};
use input_steps::Refused;
use list_views::Seq;
use list_views::fault_words::joined;
use loop_check::{LoopFault, cause_text};
use std::alloc::{AllocError, Global};

/// The graph shows that no run ends.
pub(crate) fn never_ends(alloc: Global) -> Result<Outcome, Refused>
    ensures { AnswersAs never_ends result }
{
    let out = Seq::from_slice(alloc, b"NO\n")?;
    Ok(Outcome { status: 0, out })
}

/// The line that says what is in the way.
fn refused_line(alloc: Global, cause: &[u8]) -> Result<Seq<u8>, AllocError>
    ensures { IfOk result (λ line. line ≡ refused_line cause.now) }
{
    joined(alloc, &[b"REFUSED loop: ", cause, b"\n"])
}

/// The item of a fault of the graph.
fn graph_item(node: u32, what: What) -> u64
    ensures { result ≡ graph_item node what }
{
    match what {
        What::Root => 1,
        _ => 2 + u64::from(node),
    }
}

/// The graph is no good one, or it does not show it, or the state does not fit.
pub(crate) fn refused(alloc: Global, fault: LoopFault) -> Result<Outcome, Refused>
    ensures { IsSaidOf fault result }
{
    match fault {
        LoopFault::Graph { node, what } => {
            refuse_item(alloc, graph_item(node, what), Cause::Graph(what))
        }
        LoopFault::Memory => Err(Refused::Memory),
        fault => {
            let cause = cause_text(alloc, fault)?;
            let out = refused_line(alloc, cause.as_slice())?;
            Ok(Outcome { status: 2, out })
        }
    }
}
