//! The files that a command names, read in the order of its words.
ghost use Rattle.std.specs.Prelude.{◌≡◌, ◌≤◌, ◌^◌, map, string_bytes, IfOk, IfErr};
ghost use Rattle.jterm.specs.Outside.{AreContents, FirstAreRead, limit_at};
ghost use Rattle.jterm.specs.inner.Failure.{HasCause, failure_at};
ghost use Rattle.jterm.specs.declared.inputs.Failure.TheVariants.{NoMemory};

use class_calls::command_rows::{Asked, FileWord, Request};
use input_steps::{Fault, Place};
use io_ports::{FileFault, Files};
use list_views::Bytes;
use std::alloc::{AllocError, AllocFailed, Global};

/// Why a call ends without a verdict.
#[derive(Drop)]
pub(crate) enum Failure<'a> {
    /// The file of this name was not read.
    Unread {
        /// The word that names it.
        name: Bytes<'a>,
        /// Why.
        fault: FileFault,
    },
    /// The input breaks a rule.
    Broken {
        /// The file or the step that has the fault.
        place: Place,
        /// What is wrong there.
        fault: Fault,
    },
    /// Want of memory.
    NoMemory,
}

impl<'a> From<AllocError> for Failure<'a> {
    ghost from_gives = { λ _ failure. failure ≡ NoMemory };

    fn from(_error: AllocError) -> Failure<'a> {
        Failure::NoMemory
    }
}

impl<'a, T: Drop> From<AllocFailed<T>> for Failure<'a> {
    ghost from_gives = { λ _ failure. failure ≡ NoMemory };

    fn from(_failed: AllocFailed<T>) -> Failure<'a> {
        Failure::NoMemory
    }
}

// Why a call fails that could not read the file of this name.
fn failure_at(name: &str, fault: FileFault) -> Failure<'_>
    ensures { result ≡ failure_at name.now fault }
{
    match fault {
        FileFault::Memory => Failure::NoMemory,
        fault => Failure::Unread {
            name: Bytes::new(name.as_bytes()),
            fault,
        },
    }
}

// How many bytes the file at a place among those of a request may have.
fn limit_at(request: &Request, place: usize, certificate: usize, other: usize) -> usize
    requires certificate { certificate ≤ 2 ^ 31 }
    requires other { other ≤ 2 ^ 31 }
    ensures limit { result ≡ limit_at certificate other request.now place }
    ensures small { result ≤ 2 ^ 31 }
{
    match request.command().row().file(place) {
        FileWord::Cert | FileWord::Bounds => certificate,
        _ => other,
    }
}

/// The contents of the files that a command names, in their order: a certificate or a bound has at most `certificate` bytes, each other
/// file at most `other`.
pub(crate) fn read_inputs<'a, F: Files>(
    alloc: Global,
    command: &Asked<'a>,
    files: &mut F,
    certificate: usize,
    other: usize,
) -> Result<Vec<Vec<u8>>, Failure<'a>>
    requires certificate { certificate ≤ 2 ^ 31 }
    requires other { other ≤ 2 ^ 31 }
    ensures contents { IfOk result (λ inputs. AreContents (limit_at certificate other command.now.request) (F.held files.old)
        (map string_bytes command.now.files.now) (map (λ file. file.items) inputs.items)) }
    ensures cause { IfErr result (λ failure. HasCause F.held F.faults F.leaves (limit_at certificate other command.now.request)
        command.now.request
        (map string_bytes command.now.files.now) files.old files.new failure) }
    ensures reads { FirstAreRead F.leaves (map string_bytes command.now.files.now) files.old files.new }
{
    let mut inputs = Vec::new(alloc);
    for word in command.files {
        let name = word.as_str();
        let limit = limit_at(&command.request, inputs.len(), certificate, other);
        match files.read(alloc, name, limit) {
            Ok(content) => inputs.push(content)?,
            Err(fault) => return Err(failure_at(name, fault)),
        }
    }
    Ok(inputs)
}
