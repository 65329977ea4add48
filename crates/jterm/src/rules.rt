//! Texts of integer transition rules.
ghost use Rattle.std.specs.Prelude.{◌≡◌, IfOk};
ghost use Rattle.its_call.specs.Answers.{IsEnding};
ghost use Rattle.its_call.specs.Lines.{yes_line};
ghost use Rattle.jterm.specs.Decision.{Ruled, Says, rules_refusal};

use crate::verdict::Verdict;
use input_steps::{Fault, Place, Refused};
use its_call::{ItsFault, its_answer};
use std::alloc::Global;

/// What is said of a text of rules that has this fault.
fn rules_refusal(fault: ItsFault) -> Refused
    ensures { result ≡ rules_refusal fault }
{
    match fault {
        ItsFault::Memory => Refused::Memory,
        fault => Refused::At {
            place: Place::Its,
            fault: Fault::Its(fault),
        },
    }
}

/// What is said of a text of rules.
#[tactic(auto, using(crate::proofs::Ruling::ruled, crate::proofs::Ruling::unruled))]
pub(crate) fn rules_verdict(alloc: Global, text: &[u8]) -> Result<Verdict, Refused>
    ensures headline { IfOk result (λ verdict. Says yes_line verdict → IsEnding text.now) }
    ensures answer { Ruled text.now result }
{
    match its_answer(alloc, text) {
        Ok(answer) => Ok(Verdict {
            status: answer.status,
            out: answer.out,
            reason: None,
            its: answer.left,
        }),
        Err(fault) => Err(rules_refusal(fault)),
    }
}
