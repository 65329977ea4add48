//! `select`: a reached method's number, the place of a call, a class by its name, and the entry method and class files; what the call does
//! on an object of the class. `link`, which is for measuring alone: the entry method and class files; how many methods are reached.
use anyhow::{Context, Result};
use class_program::{Program, Selected};
use std::alloc::Global;
use table_cases::entry_cases::ProgramAnswers;
use table_cases::{Case, natural, numbered, put_count, said, short};

/// The cases of `select`.
pub struct Selections;

impl ProgramAnswers for Selections {
    fn answer(alloc: Global, program: &Program<'_>, case: &Case<'_>) -> Result<String> {
        let method = natural(case.text(0)?)?;
        let pc = short(case.text(1)?)?;
        let selected = selected(program, method, pc, case.text(2)?.as_bytes());
        selected_line(
            alloc,
            selected.context("no call there has such a receiver")?,
        )
    }
}

/// What the call at a place of a method does on an object of the class of that name; None where no such object can be its
/// receiver.
fn selected(program: &Program<'_>, method: u32, pc: u16, receiver: &[u8]) -> Option<Selected> {
    let class = program.world.class_of(receiver)?;
    selected_of(program, method, pc, class)
}

fn selected_of(program: &Program<'_>, method: u32, pc: u16, class: u32) -> Option<Selected> {
    if program.can_receive(method, pc, class) {
        Some(program.select(method, pc, class))
    } else {
        None
    }
}

fn selected_line(alloc: Global, selected: Selected) -> Result<String> {
    match selected {
        Selected::Method(number) => Ok(numbered(alloc, "Method ", i64::from(number))?),
        Selected::Abstract => said(alloc, "Abstract"),
        Selected::NoInterface => said(alloc, "NoInterface"),
    }
}

/// The cases of `link`.
pub struct Reached;

impl ProgramAnswers for Reached {
    fn answer(alloc: Global, program: &Program<'_>, _case: &Case<'_>) -> Result<String> {
        let mut line = String::from_str(alloc, "OK ")?;
        put_count(&mut line, program.methods.as_slice().len())?;
        Ok(line)
    }
}
