//! Answers a table of surveys: each line of the input has the words of one, divided by blanks. Its lines come, what it puts on its error output
//! among them, and then its status.
#![tactic(auto)]

use anyhow::Result;
use io_ports::{RealFiles, Sink, StdSink};
use std::alloc::{AllocError, Global};
use std::io::{BufRead, BufReader};
use survey::survey;

/// The words of a line.
fn words_of(alloc: Global, line: &str) -> Result<Vec<String>, AllocError> {
    let mut words = Vec::new(alloc);
    for word in line.split(' ') {
        if !word.is_empty() {
            words.push(String::from_str(alloc, word)?)?;
        }
    }
    Ok(words)
}

/// Puts the line of a status.
fn put_status<O: Sink>(alloc: Global, out: &mut O, status: u8) -> Result<(), AllocError> {
    let line = format!(in alloc; "status {status}\n")?;
    let _ = out.put(line.as_bytes());
    Ok(())
}

fn main(rt: HostRuntime) -> Result<()> {
    let mut files = RealFiles::new(&rt);
    let mut out = StdSink::new(rt.stdout());
    let mut err = StdSink::new(rt.stdout());
    for line in BufReader::new(rt.alloc(), rt.reader())?.lines(rt.alloc()) {
        let line = line?;
        let words = words_of(rt.alloc(), line.as_str())?;
        let status = survey(rt.alloc(), &words, &mut files, &mut out, &mut err);
        put_status(rt.alloc(), &mut out, status)?;
    }
    Ok(())
}
