//! One program for the tools beside `jterm`: the first word says which of `describe`, `certs` and `survey` it is, and the words behind it are
//! that tool's. Real files and outputs, and the words after the program's name.
#![tactic(auto)]

mod certifying;
mod describing;
mod failures;

use io_ports::{Files, RealFiles, Sink, StdSink};
use std::alloc::{AllocError, Global};
use std::env;
use std::io::ErrorKind;
use std::process::ExitCode;
use std::rt::Env;
use survey::survey;

/// The words after the program's name. Words that are no text are left out together.
fn words(rt: &(impl Env + AllocGlobal)) -> Result<Vec<String>, AllocError> {
    let mut words = Vec::new(rt.alloc());
    let arguments = match env::args(rt) {
        Ok(arguments) => arguments,
        Err(error) if error.kind() == ErrorKind::OutOfMemory => return Err(AllocError),
        Err(_) => return Ok(words),
    };
    for word in arguments.skip(1) {
        words.push(word)?;
    }
    Ok(words)
}

/// What is put where the first word is none of the tools; the status.
fn usage<E: Sink>(err: &mut E) -> u8 {
    let _ = err.put(b"tools: usage: describe|certs|survey WORD..\n");
    4
}

/// Runs the tool that the first word says, on the words behind it; the status.
fn run<F: Files, O: Sink, E: Sink>(
    alloc: Global,
    words: &[String],
    files: &mut F,
    out: &mut O,
    err: &mut E,
) -> u8 {
    let Some((tool, words)) = words.split_first() else {
        return usage(err);
    };
    match tool.as_str() {
        "describe" => describing::run(alloc, words, files, out, err),
        "certs" => certifying::run(alloc, words, files, out, err),
        "survey" => survey(alloc, words, files, out, err),
        _ => usage(err),
    }
}

fn main(rt: HostRuntime) -> ExitCode {
    let mut files = RealFiles::new(&rt);
    let mut out = StdSink::new(rt.stdout());
    let mut err = StdSink::new(rt.stderr());
    let status = match words(&rt) {
        Ok(words) => run(rt.alloc(), words.as_slice(), &mut files, &mut out, &mut err),
        Err(AllocError) => {
            let _ = err.put(b"tools: memory\n");
            7
        }
    };
    ExitCode::from(status)
}
