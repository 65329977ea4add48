//! The entry method and the listings of a case.
use anyhow::{Context, Result};
use class_asm::assemble;
use list_views::Seq;
use std::alloc::{AllocError, Global};
use table_cases::Case;
use table_cases::entry_cases::Entry;

/// The entry method in three input fields from the second one on, and a listing in each field behind these.
pub fn entry<'a>(alloc: Global, case: &Case<'a>) -> Result<Entry<'a>> {
    Entry::of(case, 1, class_files(alloc, case)?)
}

fn class_files(alloc: Global, case: &Case<'_>) -> Result<Vec<Vec<u8>>> {
    let mut files = Vec::new(alloc);
    for n in 4..case.field_count() {
        files.push(class_file(alloc, case.text(n)?)?.into_vec())?;
    }
    Ok(files)
}

/// The class file of a listing whose lines are divided by vertical bars.
fn class_file(alloc: Global, listing: &str) -> Result<Seq<u8>> {
    let text = in_lines(alloc, listing)?;
    assemble(alloc, text.as_slice())
        .ok()
        .context("a listing can't be assembled")
}

fn in_lines(alloc: Global, listing: &str) -> Result<Vec<u8>, AllocError> {
    let mut text = Vec::new(alloc);
    for b in listing.as_bytes() {
        text.push(if *b == b'|' { b'\n' } else { *b })?;
    }
    Ok(text)
}
