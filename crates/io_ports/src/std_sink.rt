//! A sink over a writer of std, as the standard output.
use crate::{Sink, SinkFault};
use std::io::Write;

/// A sink that hands its bytes to a writer. It tells the bytes that the writer tells: none at the
/// outputs of a process.
#[derive(Drop)]
pub struct StdSink<W: Write> {
    writer: W,
    faults: u64,
}

impl<W: Write> StdSink<W> {
    ghost use Rattle.std.specs.Prelude.{◌≡◌};

    /// A sink over a writer, with no fault so far.
    pub fn new(writer: W) -> Self
        ensures writer { result.writer ≡ writer }
        ensures faults { result.faults ≡ 0 }
    {
        StdSink { writer, faults: 0 }
    }

    /// How often writing failed.
    pub fn faults(&self) -> u64
        ensures { result ≡ self.now.faults }
    {
        self.faults
    }
}

impl<W: Write> Sink for StdSink<W> {
    ghost use Rattle.std.specs.Prelude.{◌≡◌, ◌≤◌, is_ok, OnOk, OnErr, if◌then◌else◌};
    ghost use Rattle.std.specs.Io.KnownBytes.{Appends};
    ghost use Rattle.io_ports.specs.Count.{Rose, counted};
    ghost use Rattle.io_ports.specs.Taken.{AppendsPrefix};

    ghost taken = { λ s. W.contents s.writer };

    ghost faults = { λ s. s.faults };

    fn put(&mut self, bytes: &[u8]) -> Result<(), SinkFault>
        ensures all { OnOk result (Appends (W.contents self.old.writer) (W.contents self.new.writer) bytes.now) }
        ensures prefix { OnErr result (AppendsPrefix (W.contents self.old.writer) (W.contents self.new.writer) bytes.now) }
        ensures failed { OnErr result (Rose self.old.faults self.new.faults) }
        ensures counts { self.old.faults ≤ self.new.faults }

        // Each failure counts, and nothing else does.
        ensures exact { self.new.faults ≡ (if is_ok result then self.old.faults else counted self.old.faults) }
    {
        let mut done = 0;
        while done < bytes.len() {
            match self.writer.write(&bytes[done..]) {
                Ok(count) if count > 0 => done += count,
                _ => {
                    self.faults = self.faults.saturating_add(1);
                    return Err(SinkFault::Failed);
                }
            }
        }
        Ok(())
    }
}
