//! A step in normal mode: the effect of the running frame's instruction, done to the state.
ghost use Rattle.std.specs.Prelude.{◌≡◌, ◌<◌, List, All, length, unwrap_or, Some, IsOk, OnErr};
ghost use Rattle.std.specs.Option.{option_map};
ghost use Rattle.jvm_values.specs.States.{frame_of, state_of};
ghost use Rattle.class_program.specs.declared.program.Method.{Method as MethodSeen};
ghost use Rattle.class_program.specs.Views.{program_of};
ghost use Rattle.op_forms.specs.Forms.{form_seen};
ghost use Rattle.jvm_step.specs.Acts.{Tries};
ghost use Rattle.jvm_step.specs.Running.{Step, normal_step};
ghost use Rattle.jvm_step.specs.Steps.{Steps, HasRoom, form_here, here_seen, form_in, effect_in, IsRunning};
ghost use Rattle.jvm_step.specs.Memory.{TakesNone, WantsIn};

use crate::after::After;
use crate::applying::apply;
use crate::outcome::Outcome;
use crate::perform::perform;
use class_program::{Method, Program};
use jvm_values::{Frame, State};
use op_forms::{Form, form_of};
use std::alloc::{AllocError, Global};

/// The form of the instruction at a frame's place, and the place of the next one.
#[tactic(auto, unfolding(crate::specs::Steps::form_here))]
fn form_at<'p>(program: &'p Program<'_>, frame: &Frame) -> Option<(Form<'p>, Option<u16>)>
    ensures { option_map here_seen result ≡ form_here (program_of program.now) (frame_of frame.now) }
{
    let (op, next) = program.at(frame.method, frame.pc)?;
    let form = form_of(op)?;
    Some((form, next))
}

/// Does the instruction of the running frame.
fn perform_in(
    alloc: Global,
    program: &Program<'_>,
    method: &Method<'_>,
    state: &mut State,
    form: &Form<'_>,
) -> Result<After, AllocError>
    requires some { 0 < length state.old.frames.0 }
    requires here { form_in (program_of program.now) (state_of state.old).frames ≡ Some (form_seen form.now) }
    ensures state { Tries (effect_in (program_of program.now) method.now (form_seen form.now) (state_of state.old)
        (state_of state.old).frames) result (state_of state.old) (state_of state.new) }
    ensures room { (methods : List MethodSeen) → All (HasRoom methods) state.old.frames.0 → All (HasRoom methods) state.new.frames.0 }
    ensures memory { OnErr result (WantsIn (program_of program.now) method.now (form_seen form.now) state.old.statics state.old.heap
        state.old.frames.0) }
{
    perform(
        alloc,
        program,
        method,
        state.frames.at_mut(0),
        &mut state.statics,
        &mut state.heap,
        form,
    )
}

/// The instruction of the running frame, and what is left to do after it.
fn execute(
    alloc: Global,
    program: &Program<'_>,
    method: &Method<'_>,
    state: &mut State,
    form: &Form<'_>,
    next: Option<u16>,
) -> Result<Outcome, AllocError>
    requires some { 0 < length state.old.frames.0 }
    requires runs { IsRunning (program_of program.now) (state_of state.old).frames method.now (form_seen form.now) next }
    ensures state { Steps (unwrap_or (normal_step (program_of program.now) (state_of state.old) (state_of state.old).frames)
        Step.Stuck) result (state_of state.old) (state_of state.new) }
    ensures room { All (HasRoom (program_of program.now).methods) state.old.frames.0
        → All (HasRoom (program_of program.now).methods) state.new.frames.0 }
    ensures memory { TakesNone (program_of program.now).methods state.old.frames.0 (state_of state.old)
        (unwrap_or (normal_step (program_of program.now) (state_of state.old) (state_of state.old).frames) Step.Stuck) → IsOk result }
{
    match perform_in(alloc, program, method, state, form) {
        Ok(after) => apply(alloc, program, state, next, after),
        Err(fault) => Err(fault),
    }
}

/// A step in normal mode.
pub(crate) fn normal_step(
    alloc: Global,
    program: &Program<'_>,
    state: &mut State,
) -> Result<Outcome, AllocError>
    ensures state { Steps (unwrap_or (normal_step (program_of program.now) (state_of state.old) (state_of state.old).frames)
        Step.Stuck) result (state_of state.old) (state_of state.new) }
    ensures room { All (HasRoom (program_of program.now).methods) state.old.frames.0
        → All (HasRoom (program_of program.now).methods) state.new.frames.0 }
    ensures memory { TakesNone (program_of program.now).methods state.old.frames.0 (state_of state.old)
        (unwrap_or (normal_step (program_of program.now) (state_of state.old) (state_of state.old).frames) Step.Stuck) → IsOk result }
{
    if state.frames.is_empty() {
        return Ok(Outcome::Going);
    }
    let frame = state.frames.at(0);
    match program.methods.get(frame.method as usize) {
        Some(method) => match form_at(program, frame) {
            Some((form, next)) => execute(alloc, program, method, state, &form, next),
            None => Ok(Outcome::Going),
        },
        None => Ok(Outcome::Going),
    }
}
