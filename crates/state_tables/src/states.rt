//! The tables of abstract states: what ids reach, patterns, `widen`, the calls of the heap, whose names are a call with its arguments,
//! `instance` and `find`, and `expand`. Each state is held with its pairs as a list and as bits, and both give one answer.
mod expansions;
mod heap_calls;
mod heap_words;
mod ids;
mod matching;
mod patterns;
mod reaching;
mod widenings;

use anyhow::Result;
use std::alloc::Global;
use table_cases::state_cases::answer_by_both;
use table_cases::{Answers, Case};

/// The cases of these tables.
pub struct Cases;

impl Answers for Cases {
    /// The answer to the case, as its table writes it.
    fn answer(alloc: Global, case: &Case<'_>) -> Result<String> {
        match case.table() {
            "expand" => expansions::answer(alloc, case),
            "widen" => answer_by_both::<widenings::Widenings>(alloc, case, 2),
            "instance" | "find" => answer_by_both::<matching::Matches>(alloc, case, 3),
            "term" => answer_by_both::<patterns::Patterns>(alloc, case, 2),
            "known" | "meet" | "in" | "tree" | "finite" => {
                answer_by_both::<reaching::Reaching>(alloc, case, 2)
            }
            _ => answer_by_both::<heap_calls::HeapCalls>(alloc, case, 1),
        }
    }
}
