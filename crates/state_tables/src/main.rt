//! Answers the cases of the tables of abstract states, of proofs and rules, of integer transition rules and of certificates: each line of the
//! input is the name of a table, a tab and the input fields of a case, divided by tabs. The answer to each comes on a line of its own.
#![tactic(auto)]

mod certs;
mod its;
mod rules;
mod states;

use anyhow::Result;
use std::alloc::Global;
use table_cases::{Answers, Case, answer_all};

/// The cases of this program.
struct Cases;

impl Answers for Cases {
    /// The answer to the case, by what knows its table. Calls of the heap name tables of abstract states.
    fn answer(alloc: Global, case: &Case<'_>) -> Result<String> {
        match case.table() {
            "components" | "proof" | "orders" | "steps" | "read" => {
                rules::Cases::answer(alloc, case)
            }
            "plain" | "stepwise" | "linear" => rules::Cases::answer(alloc, case),
            "plain-form" | "stepwise-form" | "read-rules" => rules::Cases::answer(alloc, case),
            "its" => its::Cases::answer(alloc, case),
            "cert" | "cert-2" | "second" | "paths" => certs::Cases::answer(alloc, case),
            _ => states::Cases::answer(alloc, case),
        }
    }
}

fn main(rt: HostRuntime) -> Result<()> {
    answer_all::<Cases>(rt)
}
