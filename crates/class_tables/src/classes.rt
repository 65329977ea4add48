//! The tables of class files: `code`, `table`, `classes-52` and `listings`.
mod codes;
mod files;
mod listings;
mod sums;

use anyhow::{Result, bail};
use std::alloc::Global;
use table_cases::{Answers, Case};

/// The cases of these tables.
pub struct Cases;

impl Answers for Cases {
    /// The answer to the case, as its table writes it.
    fn answer(alloc: Global, case: &Case<'_>) -> Result<String> {
        match case.table() {
            "code" => codes::code(alloc, case),
            "table" => codes::table(alloc, case),
            "classes-52" | "read" => files::answer(alloc, case),
            "listings" => listings::answer(alloc, case),
            _ => bail!("the table is not known"),
        }
    }
}
