//! The run from what a state gives to a program.
ghost use Rattle.std.specs.Prelude.{IfOk};
ghost use Rattle.jvm_values.specs.States.{state_of};
ghost use Rattle.class_program.specs.Views.{program_of};
ghost use Rattle.input_desc.specs.States.{IsTypedInput};
ghost use Rattle.input_steps.specs.Programs.{HasTypings};
ghost use Rattle.class_calls.specs.run_call.Answers.{Runs, AnswersRun};

use crate::run_call::lines::ended_line;
use class_program::Program;
use input_desc::StateInput;
use input_steps::Refused;
use jvm_run::{Ended, run};
use jvm_step::start;
use jvm_values::State;
use list_views::Seq;
use std::alloc::{AllocError, Global};

/// How the run of so many steps ends, and the state that it leaves.
fn run_input(
    alloc: Global,
    program: &Program<'_>,
    fuel: u64,
    input: StateInput,
) -> Result<(Ended, State), AllocError>
    requires typed { IsTypedInput (program_of program.now) input }
    requires typings { HasTypings (program_of program.now) }
    ensures { IfOk result (λ r. Runs (program_of program.now) input fuel r.0 (state_of r.1)) }
{
    program.is_good();
    let StateInput {
        args,
        statics,
        heap,
    } = input;
    let mut state = start(alloc, program, args.as_slice(), statics, heap)?;
    let ended = run(alloc, program, &mut state, fuel)?;
    Ok((ended, state))
}

/// The line of this run.
pub(crate) fn answer(
    alloc: Global,
    program: &Program<'_>,
    fuel: u64,
    input: StateInput,
) -> Result<Seq<u8>, Refused>
    requires typed { IsTypedInput (program_of program.now) input }
    requires typings { HasTypings (program_of program.now) }
    ensures { AnswersRun fuel (program_of program.now) input result }
{
    let (ended, last) = run_input(alloc, program, fuel, input)?;
    let line = ended_line(alloc, &program.world, &last.heap, fuel, ended)?;
    Ok(line)
}
