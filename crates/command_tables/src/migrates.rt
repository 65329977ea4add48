//! `migrate`: the bytes of a certificate, of a description and of class files; the certificate in form 2, or why there is none.
use anyhow::Result;
use cert_making::migrate_call::migrate_line;
use std::alloc::Global;
use table_cases::Case;
use table_cases::line_cases::{files_from, refused_line, without_newline};

pub fn answer(alloc: Global, case: &Case<'_>) -> Result<String> {
    let cert = case.bytes(alloc, 0)?;
    let desc = case.bytes(alloc, 1)?;
    let files = files_from(alloc, case, 2)?;
    match migrate_line(alloc, cert.as_slice(), desc.as_slice(), files.as_slice()) {
        Ok(outcome) => Ok(without_newline(alloc, &outcome.out)?),
        Err(refused) => refused_line(alloc, &refused),
    }
}
