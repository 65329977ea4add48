//! The tables of values: `json`; operators and comparisons on intervals of ints, whose names are an operator or a condition; and `list`,
//! lists of so many objects.
mod ints;
mod json;
mod lists;
mod printing;
mod words;

use anyhow::Result;
use std::alloc::Global;
use table_cases::{Answers, Case};

/// The cases of these tables.
pub struct Cases;

impl Answers for Cases {
    /// The answer to the case, as its table writes it.
    fn answer(alloc: Global, case: &Case<'_>) -> Result<String> {
        match case.table() {
            "json" | "parse" | "numbers" => json::answer(alloc, case),
            "list" => lists::answer(alloc, case),
            _ => ints::answer(alloc, case),
        }
    }
}
