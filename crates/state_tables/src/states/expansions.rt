//! `expand`: a state, an entry method and class files; what expansion answers.
use abs_cells::{AbsState, ListPairs, PackedPairs, Pairs};
use abs_reach::Marks;
use anyhow::{Context, Result, bail};
use cert_check::abs_expand::{ExpandFault, expand};
use class_program::Program;
use class_world::World;
use code_verify::{Typing, verify};
use list_views::Seq;
use std::alloc::{AllocError, Global};
use table_cases::entry_cases::{ProgramAnswers, answer_in_program};
use table_cases::state_cases::{agreed, children, state_in};
use table_cases::{Case, numbered, put_count, said};
use term_graph::Child;

/// The answer to a case, which both forms of pairs give.
pub fn answer(alloc: Global, case: &Case<'_>) -> Result<String> {
    answer_in_program::<Expansions>(alloc, case, 1)
}

/// The cases of expansions.
struct Expansions;

impl ProgramAnswers for Expansions {
    fn answer(alloc: Global, program: &Program<'_>, case: &Case<'_>) -> Result<String> {
        let typing = verify(alloc, program)
            .ok()
            .context("the program has no typing")?;
        of_program(alloc, program, &typing, case)
    }
}

/// The answer that both forms of pairs give.
fn of_program(
    alloc: Global,
    program: &Program<'_>,
    typing: &Typing,
    case: &Case<'_>,
) -> Result<String> {
    let listed = answer_by::<ListPairs>(alloc, program, typing, case)?;
    agreed(
        listed,
        answer_by::<PackedPairs>(alloc, program, typing, case)?,
    )
}

fn answer_by<P: Pairs>(
    alloc: Global,
    program: &Program<'_>,
    typing: &Typing,
    case: &Case<'_>,
) -> Result<String> {
    let state = state_in::<P>(alloc, &program.world, case.text(0)?)?;
    let mut marks = Marks::new(alloc)?;
    let expanded = expand(alloc, program, typing, &state, &mut marks);
    told(alloc, &program.world, &expanded)
}

fn told<P: Pairs>(
    alloc: Global,
    world: &World<'_>,
    expanded: &std::result::Result<Option<Seq<Child<P>>>, ExpandFault>,
) -> Result<String> {
    match expanded {
        Ok(None) => said(alloc, "End"),
        Ok(Some(found)) => Ok(children(alloc, world, found.as_slice())?),
        Err(fault) => fault_line(alloc, *fault),
    }
}

fn fault_line(alloc: Global, fault: ExpandFault) -> Result<String> {
    match fault {
        ExpandFault::BadState { clause } => {
            Ok(numbered(alloc, "BadState clause=", i64::from(clause))?)
        }
        ExpandFault::TooManyIds { child } => Ok(child_line(alloc, child)?),
        ExpandFault::Memory => bail!("want of memory"),
    }
}

fn child_line(alloc: Global, child: usize) -> Result<String, AllocError> {
    let mut line = String::from_str(alloc, "TooManyIds child=")?;
    put_count(&mut line, child)?;
    Ok(line)
}
