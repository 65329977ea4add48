//! Lines as the tables write them.
use crate::entry_cases::put_bytes;
use anyhow::{Result, bail};
use input_steps::{Fault, Place, Refused, refusal_text};
use list_views::Seq;
use std::alloc::{AllocError, Global};

/// The line that says why an input is refused.
pub fn refused_line(alloc: Global, refused: &Refused) -> Result<String> {
    match refused {
        Refused::At { place, fault } => fault_line(alloc, *place, fault),
        Refused::Memory => bail!("want of memory"),
    }
}

/// The line of a fault at a place.
pub fn fault_line(alloc: Global, place: Place, fault: &Fault) -> Result<String> {
    let line = refusal_text(alloc, place, fault)?;
    Ok(without_newline(alloc, &line)?)
}

/// The line as text, without the newline at its end.
pub fn without_newline(alloc: Global, line: &Seq<u8>) -> Result<String, AllocError> {
    let mut text = String::new(alloc);
    put_bytes(&mut text, front_of(line.as_slice()))?;
    Ok(text)
}

/// The bytes in front of a newline at the end.
fn front_of(line: &[u8]) -> &[u8] {
    match line.strip_suffix(b"\n") {
        Some(front) => front,
        None => line,
    }
}
