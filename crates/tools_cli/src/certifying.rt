//! Puts a certificate once more on the output, each node with its state, so that it can be looked at; or the text of a bound beside it; or a
//! certificate that no run of a method ends.
//!
//! The words are `fill` or `bound`, the name of a file with a certificate, that of one with a description, and those of 1 to 256 class
//! files; or `loop` and the same without a certificate.
ghost use Rattle.std.specs.Prelude.{◌+◌, ◌≤◌, ◌^◌, length, IfOk};
ghost use Rattle.class_base.specs.Limits.{most_classes};

use crate::failures::{Failure, told};
use cert_form::MOST_CERTIFICATE_BYTES;
use cert_making::bound_search::{Found, bound_for};
use cert_making::loop_search::loop_line;
use check_call::{Outcome, check_line, fill_line};
use class_base::{MOST_CLASSES, MOST_FILE_BYTES};
use input_steps::{Refused, refusal_text};
use io_ports::{FileFault, Files, Sink};
use list_views::Seq;
use list_views::fault_words::joined;
use std::alloc::{AllocError, Global};

/// The line for a file that wasn't read.
fn unread_line(alloc: Global, name: &[u8], cause: &[u8]) -> Result<Seq<u8>, AllocError> {
    joined(alloc, &[b"certs: read ", name, b": ", cause, b"\n"])
}

/// The content of the file of a name.
fn content<F: Files>(
    alloc: Global,
    files: &mut F,
    name: &str,
    limit: usize,
) -> Result<Vec<u8>, Failure>
    requires { limit ≤ 2 ^ 31 }
{
    match files.read(alloc, name, limit) {
        Ok(content) => Ok(content),
        Err(FileFault::Memory) => Err(Failure::Memory),
        Err(fault) => Err(told(5, unread_line(alloc, name.as_bytes(), fault.name()))),
    }
}

/// The contents of the class files, which the words from a place on name.
fn class_files<F: Files>(
    alloc: Global,
    files: &mut F,
    words: &[String],
    first: usize,
) -> Result<Vec<Vec<u8>>, Failure>
    requires { length words.now ≤ most_classes + first }
    ensures { IfOk result (λ contents. length contents.items ≤ most_classes) }
{
    let mut contents = Vec::new(alloc);
    for n in first..words.len() {
        contents.push(content(alloc, files, words[n].as_str(), MOST_FILE_BYTES)?)?;
    }
    Ok(contents)
}

/// The outcome of a command, or why there is none.
fn told_of(alloc: Global, outcome: Result<Outcome, Refused>) -> Result<Outcome, Failure> {
    match outcome {
        Ok(outcome) => Ok(outcome),
        Err(Refused::At { place, fault }) => Err(told(3, refusal_text(alloc, place, &fault))),
        Err(Refused::Memory) => Err(Failure::Memory),
    }
}

/// What `bound` puts: the text of a bound with status 0; `NONE` with status 1 where none is found; and of a certificate that is refused
/// what `check` puts.
fn bound_line(
    alloc: Global,
    cert: &[u8],
    desc: &[u8],
    files: &[Vec<u8>],
) -> Result<Outcome, Refused>
    requires { length files.now ≤ most_classes }
{
    match bound_for(alloc, cert, desc, files) {
        Ok(Found::Text(text)) => Ok(Outcome {
            status: 0,
            out: text,
        }),
        Ok(Found::None) => Ok(Outcome {
            status: 1,
            out: Seq::from_slice(alloc, b"NONE\n")?,
        }),
        Ok(Found::Refused) => check_line(alloc, cert, desc, files),
        Err(refused) => Err(refused),
    }
}

/// What is put for words that are none of the program.
fn usage(alloc: Global) -> Failure {
    let lines =
        b"certs: usage\nfill CERT DESC CLASS..\nbound CERT DESC CLASS..\nloop DESC CLASS..\n";
    told(4, Seq::from_slice(alloc, lines))
}

/// What is put for `fill`, or else for `bound`.
fn of_cert<F: Files>(
    alloc: Global,
    files: &mut F,
    words: &[String],
    is_fill: bool,
) -> Result<Outcome, Failure> {
    if words.len() < 4 || words.len() > MOST_CLASSES + 3 {
        return Err(usage(alloc));
    }
    let cert = content(alloc, files, words[1].as_str(), MOST_CERTIFICATE_BYTES)?;
    let desc = content(alloc, files, words[2].as_str(), MOST_FILE_BYTES)?;
    let classes = class_files(alloc, files, words, 3)?;
    let (cert, desc, classes) = (cert.as_slice(), desc.as_slice(), classes.as_slice());
    if is_fill {
        told_of(alloc, fill_line(alloc, cert, desc, classes))
    } else {
        told_of(alloc, bound_line(alloc, cert, desc, classes))
    }
}

/// What is put for `loop`.
fn looped<F: Files>(alloc: Global, files: &mut F, words: &[String]) -> Result<Outcome, Failure> {
    if words.len() < 3 || words.len() > MOST_CLASSES + 2 {
        return Err(usage(alloc));
    }
    let desc = content(alloc, files, words[1].as_str(), MOST_FILE_BYTES)?;
    let classes = class_files(alloc, files, words, 2)?;
    told_of(alloc, loop_line(alloc, desc.as_slice(), classes.as_slice()))
}

/// What is put for the words.
fn outcome<F: Files>(alloc: Global, files: &mut F, words: &[String]) -> Result<Outcome, Failure> {
    if words.is_empty() {
        return Err(usage(alloc));
    }
    match words[0].as_str() {
        "fill" => of_cert(alloc, files, words, true),
        "bound" => of_cert(alloc, files, words, false),
        "loop" => looped(alloc, files, words),
        _ => Err(usage(alloc)),
    }
}

/// Puts the outcome of a command, or why there is none; the status.
pub fn run<F: Files, O: Sink, E: Sink>(
    alloc: Global,
    words: &[String],
    files: &mut F,
    out: &mut O,
    err: &mut E,
) -> u8 {
    match outcome(alloc, files, words) {
        Ok(Outcome { status, out: text }) => match out.put(text.as_slice()) {
            Ok(()) => status,
            Err(_) => {
                let _ = err.put(b"certs: write: Failed\n");
                6
            }
        },
        Err(failure) => failure.end(err, b"certs: memory\n"),
    }
}
