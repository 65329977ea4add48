//! `check`, `check-2`, `check-int`, `check-2-int`, and two tables of hostile input (`hostile`, `prefixes`): the bytes of a certificate, of a
//! description and of class files; the line that is said of the certificate, or why there is none.
use anyhow::Result;
use check_call::check_line;
use std::alloc::Global;
use table_cases::Case;
use table_cases::line_cases::{files_from, refused_line, without_newline};

pub fn answer(alloc: Global, case: &Case<'_>) -> Result<String> {
    let cert = case.bytes(alloc, 0)?;
    let desc = case.bytes(alloc, 1)?;
    let files = files_from(alloc, case, 2)?;
    match check_line(alloc, cert.as_slice(), desc.as_slice(), files.as_slice()) {
        Ok(outcome) => Ok(without_newline(alloc, &outcome.out)?),
        Err(refused) => refused_line(alloc, &refused),
    }
}
