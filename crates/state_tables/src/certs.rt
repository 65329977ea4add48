//! The tables of certificates: `cert`, `cert-2` and `second`, a certificate and class files, and the fault of reading, or the certificate
//! once more, written from its nodes; and `paths`, the rules of a certificate's graph, or what is first in their way.
mod graphs;
mod names;
mod paths;
mod printing;
mod texts;

use anyhow::Result;
use std::alloc::Global;
use table_cases::entry_cases::answer_in_program;
use table_cases::{Answers, Case};

/// The cases of these tables.
pub struct Cases;

impl Answers for Cases {
    /// The answer to the case, as its table writes it.
    fn answer(alloc: Global, case: &Case<'_>) -> Result<String> {
        match case.table() {
            "paths" => answer_in_program::<paths::Paths>(alloc, case, 1),
            _ => texts::answer(alloc, case),
        }
    }
}
