//! `bound`: the bytes of a bound, of a certificate, of a description and of class files; the bound's three kinds of lines, or why there is none.
use anyhow::Result;
use cert_calls::bound_call::bound_line;
use std::alloc::Global;
use table_cases::Case;
use table_cases::line_cases::{files_from, refused_line, without_newline};

pub fn answer(alloc: Global, case: &Case<'_>) -> Result<String> {
    let bound = case.bytes(alloc, 0)?;
    let cert = case.bytes(alloc, 1)?;
    let desc = case.bytes(alloc, 2)?;
    let files = files_from(alloc, case, 3)?;
    match bound_line(
        alloc,
        bound.as_slice(),
        cert.as_slice(),
        desc.as_slice(),
        files.as_slice(),
    ) {
        Ok(outcome) => Ok(without_newline(alloc, &outcome.out)?),
        Err(refused) => refused_line(alloc, &refused),
    }
}
