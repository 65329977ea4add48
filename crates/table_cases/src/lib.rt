//! Cases of tables: a line is the name of a table, a tab and the input fields of a case, divided by tabs.
#![tactic(auto)]

pub mod entry_cases;
pub mod json_cases;
pub mod line_cases;
pub mod rule_cases;
pub mod state_cases;
mod words;

use anyhow::{Context, Result};
use std::alloc::{AllocError, Global};
use std::io;
use std::io::{BufRead, BufReader, BufWriter, Write};
pub use words::{
    ascii, natural, number, numbered, put_comma, put_count, put_number, put_numbered, said, short,
};

/// A case of a table: the table's name and the input fields.
#[derive(Drop)]
pub struct Case<'a> {
    table: &'a str,
    fields: Vec<&'a str>,
}

impl<'a> Case<'a> {
    /// The case on a line: its parts are divided by tabs, the table's name first.
    pub fn read(alloc: Global, line: &'a str) -> Result<Case<'a>, AllocError> {
        let mut parts = line.split('\t');
        let table = parts.next().unwrap_or("");
        let fields = parts.collect(alloc)?;
        Ok(Case { table, fields })
    }

    /// The table's name.
    pub fn table(&self) -> &'a str {
        self.table
    }

    /// The number of input fields.
    pub fn field_count(&self) -> usize {
        self.fields.len()
    }

    /// The text of the input field `n`, counted from 0.
    pub fn text(&self, n: usize) -> Result<&'a str> {
        self.fields
            .get(n)
            .copied()
            .context("the case has too few fields")
    }

    /// The bytes that the input field `n` has as hexadecimal digits.
    pub fn bytes(&self, alloc: Global, n: usize) -> Result<Vec<u8>> {
        let digits = self.text(n)?;
        hex::decode(alloc, digits).context("reading hexadecimal digits")
    }
}

/// What answers the cases of a table.
pub trait Answers {
    /// The answer to a case.
    fn answer(alloc: Global, case: &Case<'_>) -> Result<String>;
}

/// Answers the cases on the lines of the input, one a line. Each answer comes on a line of its own.
pub fn answer_all<A: Answers>(rt: HostRuntime) -> Result<()> {
    let mut output = BufWriter::new(rt.alloc(), io::writer(&rt))?;
    for line in BufReader::new(rt.alloc(), rt.reader())?.lines(rt.alloc()) {
        let line = line?;
        let case = Case::read(rt.alloc(), line.as_str())?;
        let answer = A::answer(rt.alloc(), &case)?;
        writeln!(output, "{answer}")?;
    }
    output.flush()?;
    Ok(())
}
