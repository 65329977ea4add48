//! The tables of proofs and classes of rules, `proof` and `components`, and of forms that rank rules, `plain` and `stepwise`, with some by
//! hand.
mod answers;
mod limits;
mod orders;
mod proofs;
mod ranks;

use anyhow::Result;
use std::alloc::Global;
use table_cases::{Answers, Case};

/// The cases of these tables.
pub struct Cases;

impl Answers for Cases {
    /// The answer to the case, as its table writes it.
    fn answer(alloc: Global, case: &Case<'_>) -> Result<String> {
        match case.table() {
            "components" | "proof" | "orders" | "steps" | "read" => answers::answer(alloc, case),
            _ => ranks::answer(alloc, case),
        }
    }
}
