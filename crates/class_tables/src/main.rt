//! Answers the cases of the tables of values, of class files and of programs: each line of the input is the name of a table, a tab and the
//! input fields of a case, divided by tabs. The answer to each comes on a line of its own.
#![tactic(auto)]

mod classes;
mod programs;
mod values;

use anyhow::Result;
use std::alloc::Global;
use table_cases::{Answers, Case, answer_all};

/// The cases of this program.
struct Cases;

impl Answers for Cases {
    /// The answer to the case, by what knows its table. Operators and conditions name tables of values.
    fn answer(alloc: Global, case: &Case<'_>) -> Result<String> {
        match case.table() {
            "code" | "table" | "classes-52" | "read" | "listings" => {
                classes::Cases::answer(alloc, case)
            }
            "link" | "select" | "typing" => programs::Cases::answer(alloc, case),
            "states-52" | "descriptions-52" | "step" => programs::Cases::answer(alloc, case),
            _ => values::Cases::answer(alloc, case),
        }
    }
}

fn main(rt: HostRuntime) -> Result<()> {
    answer_all::<Cases>(rt)
}
