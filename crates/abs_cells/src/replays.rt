//! Calls on pairs, one after another.
ghost use Rattle.std.specs.Prelude.{◌≡◌, ◌<◌, All, OnOk, OnErr, IfOk};
ghost use Rattle.abs_cells.specs.Replays.{IsGoodCall, pairs_after_one, pairs_after, answer_of, answers_of, IsStopped};

use crate::ids::Id;
use crate::pairs::Pairs;
use std::alloc::{AllocError, Global};

/// A call on pairs of ids.
#[derive(Clone, Copy, PartialEq, Eq)]
pub enum PairCall {
    /// Adds a pair.
    Add(Id, Id),
    /// Takes a pair away.
    Remove(Id, Id),
    /// Asks for a pair.
    Has(Id, Id),
}

/// Makes one call, and gives the answer of one that asks.
///
/// # Errors
///
/// Want of memory; then the pairs are as before.
fn make<P: Pairs>(pairs: &mut P, call: PairCall) -> Result<Option<bool>, AllocError>
    requires { IsGoodCall call }
    ensures answer { IfOk result (λ answer. answer ≡ answer_of call (P.pairs pairs.old)) }
    ensures ok { OnOk result (P.pairs pairs.new ≡ pairs_after_one call (P.pairs pairs.old)) }
    ensures err { OnErr result (P.pairs pairs.new ≡ P.pairs pairs.old) }
{
    match call {
        PairCall::Add(a, b) => {
            pairs.add(a, b)?;
            Ok(None)
        }
        PairCall::Remove(a, b) => {
            pairs.remove(a, b);
            Ok(None)
        }
        PairCall::Has(a, b) => Ok(Some(pairs.has(a, b))),
    }
}

/// Makes the calls one after another, and gives the answers of those that ask: those of a list of unordered pairs that
/// begins as `pairs` does.
///
/// # Errors
///
/// Want of memory; then some of the calls at the front are made, and no others.
pub fn replay<P: Pairs>(
    alloc: Global,
    pairs: &mut P,
    calls: &[PairCall],
) -> Result<Vec<bool>, AllocError>
    requires { All IsGoodCall calls.now }
    ensures answers { IfOk result (λ answers. answers.items ≡ answers_of calls.now (P.pairs pairs.old)) }
    ensures ok { OnOk result (P.pairs pairs.new ≡ pairs_after calls.now (P.pairs pairs.old)) }
    ensures err { OnErr result (IsStopped calls.now (P.pairs pairs.old) (P.pairs pairs.new)) }
{
    let mut answers = Vec::new(alloc);
    for call in calls {
        if let Some(answer) = make(pairs, *call)? {
            answers.push(answer)?;
        }
    }
    Ok(answers)
}
