//! `listings`: a listing, and the bytes of its class, or its fault.
use anyhow::{Result, bail};
use class_asm::{AsmFault, assemble};
use std::alloc::Global;
use table_cases::{Case, ascii};

/// The class of the case's listing, or its fault.
pub fn answer(alloc: Global, case: &Case<'_>) -> Result<String> {
    let listing = case.bytes(alloc, 0)?;
    match assemble(alloc, listing.as_slice()) {
        Ok(bytes) => class_line(alloc, bytes.as_slice()),
        Err(fault) => fault_line(alloc, &fault),
    }
}

fn class_line(alloc: Global, bytes: &[u8]) -> Result<String> {
    let mut line = String::from_str(alloc, "OK ")?;
    line.push_str(hex::encode(alloc, bytes)?.as_str())?;
    Ok(line)
}

fn fault_line(alloc: Global, fault: &AsmFault) -> Result<String> {
    if let AsmFault::Memory = fault {
        bail!("out of memory");
    }
    ascii(alloc, fault.text(alloc)?.as_slice())
}
