//! `step`: a number of steps, the class, name and descriptor of a method without parameters, and the listings of the classes, whose lines are
//! divided by vertical bars; the state after so many steps from the start, `->`, and the state after one more, or how the run ends there.
use crate::programs::listings::entry;
use crate::programs::states::{put_state, put_told};
use anyhow::{Result, bail};
use class_program::{Program, StaticField};
use jvm_step::{Outcome, start, step};
use jvm_values::{Heap, Slot, State, Value};
use list_views::Seq;
use std::alloc::{AllocError, Global};
use table_cases::entry_cases::{ProgramAnswers, answer_from_entry};
use table_cases::{Case, natural};

/// The answer to a case.
pub fn answer(alloc: Global, case: &Case<'_>) -> Result<String> {
    let entry = entry(alloc, case)?;
    answer_from_entry::<Steps>(alloc, case, &entry)
}

/// The cases of steps.
struct Steps;

impl ProgramAnswers for Steps {
    fn answer(alloc: Global, program: &Program<'_>, case: &Case<'_>) -> Result<String> {
        let state = after(alloc, program, natural(case.text(0)?)?)?;
        Ok(told(alloc, program, state)?)
    }
}

/// What a static field holds before anything is put into it.
fn default(field: &StaticField<'_>) -> Value {
    match field.slot {
        Slot::Num(_) => Value::Int(0),
        Slot::Ref(_) => Value::Null,
    }
}

fn defaults(alloc: Global, fields: &[StaticField<'_>]) -> Result<Seq<Value>, AllocError> {
    let mut values = Seq::new(alloc);
    for field in fields {
        values.push(default(field))?;
    }
    Ok(values)
}

/// The state after so many steps from the start of a program.
fn after(alloc: Global, program: &Program<'_>, count: u32) -> Result<State> {
    let mut state = first(alloc, program)?;
    for _ in 0..count {
        go_on(alloc, program, &mut state)?;
    }
    Ok(state)
}

/// The state at the start of a program, whose heap is empty there.
fn first(alloc: Global, program: &Program<'_>) -> Result<State, AllocError> {
    let statics = defaults(alloc, program.statics.as_slice())?;
    let heap = Heap {
        objects: Seq::new(alloc),
    };
    start(alloc, program, &[], statics, heap)
}

fn go_on(alloc: Global, program: &Program<'_>, state: &mut State) -> Result<()> {
    match step(alloc, program, state)? {
        Outcome::Going => Ok(()),
        _ => bail!("the run ends too early"),
    }
}

/// The state, and what one step makes of it.
fn told(alloc: Global, program: &Program<'_>, state: State) -> Result<String, AllocError> {
    let mut state = state;
    let mut line = String::new(alloc);
    put_state(&mut line, program, &state)?;
    line.push_str(" ->")?;
    let outcome = step(alloc, program, &mut state)?;
    put_outcome(&mut line, program, &state, outcome)?;
    Ok(line)
}

fn put_outcome(
    line: &mut String,
    program: &Program<'_>,
    state: &State,
    outcome: Outcome,
) -> Result<(), AllocError> {
    match outcome {
        Outcome::Going => put_state(line, program, state),
        Outcome::Returned(None) => line.push_str(" returned"),
        Outcome::Returned(Some(value)) => put_told(line, " returned ", value),
        Outcome::Threw(r) => put_told(line, " threw ", Value::Ref(r)),
    }
}
