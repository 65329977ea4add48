//! What a program reads and writes, as two traits with a meaning: files that are read by name, and
//! sinks that take bytes. Each counts its faults, so that a caller's contract can say that an error
//! came only where the port itself failed.
#![tactic(auto)]

mod files;
mod memory_files;
mod memory_sink;
mod real_files;
mod sink;
mod std_sink;

pub use files::{FileFault, Files};
pub use memory_files::MemoryFiles;
pub use memory_sink::MemorySink;
pub use real_files::RealFiles;
pub use sink::{Sink, SinkFault};
pub use std_sink::StdSink;
