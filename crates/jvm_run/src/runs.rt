//! The run of so many steps.
ghost use Rattle.jvm_values.specs.States.{state_of};
ghost use Rattle.class_program.specs.Views.{program_of};
ghost use Rattle.jvm_step.specs.Running.{IsNeverStuck};
ghost use Rattle.jvm_run.specs.Runs.{Ran};

use crate::ended::Ended;
use class_program::Program;
use jvm_step::{Outcome, step};
use jvm_values::State;
use std::alloc::{AllocError, Global};

/// Runs so many steps of the machine from a state of a program, or fewer where the run ends before.
///
/// The state becomes the last one from which the run goes on: that after all steps (`Out`), or that whose step ends the run.
/// Of a run that gets stuck nothing is said; a run from a state with the types of a program's least typing never does.
///
/// # Errors
///
/// Want of memory, also where the heap has 2^32 objects and one more is made; then the state is that before the step that
/// failed.
#[tactic(auto, using(crate::proofs::RunSteps::going, crate::proofs::RunSteps::returned, crate::proofs::RunSteps::threw, crate::proofs::RunSteps::failed))]
pub fn run(
    alloc: Global,
    program: &Program<'_>,
    state: &mut State,
    fuel: u64,
) -> Result<Ended, AllocError>
    ensures run { IsNeverStuck (program_of program.now) (state_of state.old)
        → Ran (program_of program.now) (state_of state.old) fuel result (state_of state.new) }
{
    for count in 0..fuel {
        match step(alloc, program, state) {
            Ok(Outcome::Going) => {}
            Ok(Outcome::Returned(value)) => return Ok(Ended::Returned(value)),
            Ok(Outcome::Threw(r)) => return Ok(Ended::Threw(r)),
            Err(fault) => return Err(fault),
        }
    }
    Ok(Ended::Out)
}
