//! The table `its`: the bytes of texts of integer transition rules, with what is said of each, or its first fault. In an answer a newline
//! is written `\x0a`.
use anyhow::{Result, bail};
use its_call::{ItsAnswer, ItsFault, its_answer};
use std::alloc::Global;
use table_cases::{Answers, Case, ascii, said};

/// The cases of this table.
pub struct Cases;

impl Answers for Cases {
    /// The answer to the case, as its table writes it.
    fn answer(alloc: Global, case: &Case<'_>) -> Result<String> {
        match case.table() {
            "its" => told(alloc, case),
            _ => bail!("the table is not known"),
        }
    }
}

/// What is said of the case's text.
fn told(alloc: Global, case: &Case<'_>) -> Result<String> {
    let text = case.bytes(alloc, 0)?;
    match its_answer(alloc, text.as_slice()) {
        Ok(answer) => output(alloc, &answer),
        Err(fault) => refused(alloc, &fault),
    }
}

/// The output in one line, without the newline at its end.
fn output(alloc: Global, answer: &ItsAnswer) -> Result<String> {
    let lines = ascii(alloc, answer.out.as_slice())?;
    let mut line = String::new(alloc);
    for (n, part) in lines.lines().enumerate() {
        if n > 0 {
            line.push_str("\\x0a")?;
        }
        line.push_str(part)?;
    }
    Ok(line)
}

/// The line for a fault.
fn refused(alloc: Global, fault: &ItsFault) -> Result<String> {
    if let ItsFault::Memory = fault {
        bail!("out of memory");
    }
    let mut line = said(alloc, "its: ")?;
    line.push_str(ascii(alloc, fault.text(alloc)?.as_slice())?.as_str())?;
    Ok(line)
}
