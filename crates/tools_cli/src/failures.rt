//! Why a tool has no output.
use io_ports::Sink;
use list_views::Seq;
use std::alloc::{AllocError, AllocFailed};

/// Why a tool has no output.
#[derive(Drop)]
pub enum Failure {
    /// The tool ends with this status, and these lines say why.
    Told(u8, Seq<u8>),
    /// Want of memory.
    Memory,
}

impl From<AllocError> for Failure {
    fn from(_: AllocError) -> Failure {
        Failure::Memory
    }
}

impl<T: Drop> From<AllocFailed<T>> for Failure {
    fn from(_: AllocFailed<T>) -> Failure {
        Failure::Memory
    }
}

impl Failure {
    /// Puts the lines that say why, or that of want of memory; the status.
    pub fn end<E: Sink>(self, err: &mut E, memory: &[u8]) -> u8 {
        match self {
            Failure::Told(status, lines) => {
                let _ = err.put(lines.as_slice());
                status
            }
            Failure::Memory => {
                let _ = err.put(memory);
                7
            }
        }
    }
}

/// The tool ends with a status, and lines, if there is memory for them, say why.
pub fn told(status: u8, lines: Result<Seq<u8>, AllocError>) -> Failure {
    match lines {
        Ok(lines) => Failure::Told(status, lines),
        Err(AllocError) => Failure::Memory,
    }
}
