//! One step, and the state in which a run begins.
ghost use Rattle.std.specs.Prelude.{◌≡◌, IfOk, IsOk, Some, All};
ghost use Rattle.jvm_values.specs.States.{state_of};
ghost use Rattle.class_program.specs.Views.{program_of};
ghost use Rattle.jvm_step.specs.Running as running;
ghost use Rattle.jvm_step.specs.Memory.{TakesNone};
ghost use Rattle.jvm_step.specs.Steps.{Steps, HasRoom};

use crate::entries::new_frame;
use crate::normal::normal_step;
use crate::outcome::Outcome;
use crate::throwing::throwing_step;
use class_program::Program;
use jvm_values::{Heap, Mode, State, Value};
use list_views::{Seq, Stack};
use std::alloc::{AllocError, Global};

/// One step of the machine from a state of a program.
///
/// Where the run goes on, the state is that of the written step; where it ends, the state is as it was. Of a state in which the
/// written step is stuck nothing is said.
///
/// # Errors
///
/// Want of memory, also where the heap has 2^32 objects and one more is made; then the state is as it was. Where each stack has
/// room for as many values as its method says, memory is wanting only in a step that makes an object or a frame, or that leaves
/// a longer stack.
#[tactic(auto, unfolding(crate::specs::Running::step))]
pub fn step(alloc: Global, program: &Program<'_>, state: &mut State) -> Result<Outcome, AllocError>
    ensures step { Steps (running.step (program_of program.now) (state_of state.old)) result (state_of state.old) (state_of state.new) }
    ensures room { All (HasRoom (program_of program.now).methods) state.old.frames.0
        → All (HasRoom (program_of program.now).methods) state.new.frames.0 }
    ensures memory { TakesNone (program_of program.now).methods state.old.frames.0 (state_of state.old)
        (running.step (program_of program.now) (state_of state.old)) → IsOk result }
{
    match state.mode {
        Mode::Normal => normal_step(alloc, program, state),
        Mode::Throwing(r) => throwing_step(program, state, r),
    }
}

/// The state in which a run of a program begins, with these arguments of its entry, values of its static fields and heap. Its
/// stack has room for as many values as the entry says.
///
/// # Errors
///
/// Want of memory.
#[tactic(auto, unfolding(crate::specs::Running::start, crate::specs::Running::entered))]
pub fn start(
    alloc: Global,
    program: &Program<'_>,
    arguments: &[Value],
    statics: Seq<Value>,
    heap: Heap,
) -> Result<State, AllocError>
    ensures state { IfOk result (λ state. running.start (program_of program.now) arguments.now statics heap ≡ Some (state_of state)) }
    ensures room { IfOk result (λ state. All (HasRoom (program_of program.now).methods) state.frames.0) }
{
    program.is_good();
    let method = program.methods.at(0);
    let frame = new_frame(alloc, 0, method, arguments)?;
    let mut frames = Stack::new(alloc);
    frames.push(frame)?;
    Ok(State {
        frames,
        heap,
        mode: Mode::Normal,
        statics,
    })
}
