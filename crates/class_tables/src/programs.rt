//! The tables of programs: `select`, `typing`, `states-52`, `descriptions-52` and `step`; and `link`, which is for measuring alone.
mod inputs;
mod listings;
mod select;
mod states;
mod steps;
mod typings;

use anyhow::{Result, bail};
use std::alloc::Global;
use table_cases::entry_cases::answer_in_program;
use table_cases::{Answers, Case};

/// The cases of these tables.
pub struct Cases;

impl Answers for Cases {
    /// The answer to the case, as its table writes it.
    fn answer(alloc: Global, case: &Case<'_>) -> Result<String> {
        match case.table() {
            "link" => answer_in_program::<select::Reached>(alloc, case, 0),
            "select" => answer_in_program::<select::Selections>(alloc, case, 3),
            "typing" => answer_in_program::<typings::Typings>(alloc, case, 0),
            "states-52" => inputs::state(alloc, case),
            "descriptions-52" => inputs::description(alloc, case),
            "step" => steps::answer(alloc, case),
            _ => bail!("the table is not known"),
        }
    }
}
