//! Lists the methods of a class file, or prints a description of one of them to start from.
//!
//! The words are the name of a class file; behind it may stand the name of a method, or its name and descriptor in one word; behind
//! that may stand the names of the other class files of the program.
ghost use Rattle.std.specs.Prelude.{◌+◌, ◌<◌, ◌≤◌, length, IfOk};
ghost use Rattle.class_base.specs.Limits.{most_classes};

use crate::failures::{Failure, told};
use class_base::{MOST_CLASSES, MOST_FILE_BYTES};
use class_calls::describe::{DescribeFault, methods_of, template_of};
use io_ports::{FileFault, Files, Sink};
use list_views::Seq;
use list_views::fault_words::joined;
use std::alloc::{AllocError, Global};

/// The most words: the class files and a method.
const MOST_WORDS: usize = MOST_CLASSES + 1;

/// The line for the class file of this number, which wasn't read.
fn unread_line(alloc: Global, n: usize, cause: &[u8]) -> Result<Seq<u8>, AllocError> {
    let place = format!(in alloc; "describe: class {n}: ")?;
    joined(alloc, &[place.as_bytes(), cause, b"\n"])
}

/// The content of the class file of this number and name.
fn content<F: Files>(
    alloc: Global,
    files: &mut F,
    n: usize,
    name: &str,
) -> Result<Vec<u8>, Failure> {
    match files.read(alloc, name, MOST_FILE_BYTES) {
        Ok(content) => Ok(content),
        Err(FileFault::Memory) => Err(Failure::Memory),
        Err(fault) => Err(told(5, unread_line(alloc, n, fault.name()))),
    }
}

/// The contents of the class files that the words name: the first word, and those behind the second.
fn contents<F: Files>(
    alloc: Global,
    files: &mut F,
    words: &[String],
) -> Result<Vec<Vec<u8>>, Failure>
    requires there { 0 < length words.now }
    requires few { length words.now ≤ most_classes + 1 }
    ensures { IfOk result (λ contents. length contents.items ≤ most_classes) }
{
    let mut contents = Vec::new(alloc);
    contents.push(content(alloc, files, 0, words[0].as_str())?)?;
    for n in 2..words.len() {
        contents.push(content(alloc, files, n - 1, words[n].as_str())?)?;
    }
    Ok(contents)
}

/// The line for input that has a fault.
fn refused_line(alloc: Global, fault: &DescribeFault) -> Result<Seq<u8>, AllocError> {
    let text = fault.text(alloc)?;
    joined(alloc, &[b"describe: ", text.as_slice(), b"\n"])
}

/// The output of a call, or why there is none.
fn told_of(alloc: Global, output: Result<Vec<u8>, DescribeFault>) -> Result<Vec<u8>, Failure> {
    match output {
        Ok(output) => Ok(output),
        Err(DescribeFault::Memory) => Err(Failure::Memory),
        Err(fault) => Err(told(3, refused_line(alloc, &fault))),
    }
}

/// What is put for words that are none of the program.
fn usage(alloc: Global) -> Failure {
    let lines = b"describe: usage\nCLASS [METHOD [CLASS..]]\n";
    told(4, Seq::from_slice(alloc, lines))
}

/// What is printed for the words.
fn output<F: Files>(alloc: Global, files: &mut F, words: &[String]) -> Result<Vec<u8>, Failure> {
    if words.is_empty() || words.len() > MOST_WORDS {
        return Err(usage(alloc));
    }
    let contents = contents(alloc, files, words)?;
    match words.get(1) {
        Some(method) => told_of(
            alloc,
            template_of(alloc, contents.as_slice(), method.as_bytes()),
        ),
        None => told_of(alloc, methods_of(alloc, contents.as_slice())),
    }
}

/// Puts the output, or why there is none; the status.
pub fn run<F: Files, O: Sink, E: Sink>(
    alloc: Global,
    words: &[String],
    files: &mut F,
    out: &mut O,
    err: &mut E,
) -> u8 {
    match output(alloc, files, words) {
        Ok(bytes) => match out.put(bytes.as_slice()) {
            Ok(()) => 0,
            Err(_) => 6,
        },
        Err(failure) => failure.end(err, b"describe: memory\n"),
    }
}
