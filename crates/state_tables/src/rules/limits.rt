//! Tests of what a check of a proof asks of its steps.
ghost use Rattle.std.specs.Prelude.{IsTrue};
ghost use Rattle.descent.specs.Conditions.{AreSteps, IsStep};

use descent::ProofStep;
use rank_forms::is_ranked;
pub use rank_forms::{are_few, are_forms};

fn is_step(step: &ProofStep) -> bool
    ensures { IsTrue result → IsStep step.now }
{
    match step {
        ProofStep::Empty => true,
        ProofStep::Split { parts, steps } => steps.len() == parts.len(),
        ProofStep::Rank { step, rest: _ } => is_ranked(step),
        ProofStep::Dead {
            rule: _,
            multipliers,
            rest: _,
        } => are_few(multipliers.as_slice()),
    }
}

/// Whether the numbers of the steps are within the limits.
pub fn are_steps(steps: &[ProofStep]) -> bool
    ensures { IsTrue result → AreSteps steps.now }
{
    steps.iter().all(|step| is_step(step))
}
