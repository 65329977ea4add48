//! Where bytes go.
ghost use Rattle.std.specs.Prelude.{◌≤◌, ℕ, List, OnOk, OnErr};
ghost use Rattle.std.specs.declared.option.Option.{Option};
ghost use Rattle.std.specs.Io.KnownBytes.{Appends};
ghost use Rattle.io_ports.specs.Count.{Rose};
ghost use Rattle.io_ports.specs.Taken.{AppendsPrefix};

use thiserror::Error;

/// Why bytes were not taken.
#[derive(Clone, Copy, Debug, PartialEq, Eq, Error)]
pub enum SinkFault {
    /// Writing failed.
    #[error("writing failed")]
    Failed,
}

/// A sink takes bytes, piece by piece.
pub trait Sink {
    /// The bytes that were taken, where the sink tells them.
    ghost taken: { Self → Option (List ℕ) };

    /// How often taking has failed. The count never falls.
    ghost faults: { Self → ℕ };

    /// Takes all of the bytes.
    ///
    /// # Errors
    ///
    /// `Failed` comes only where the count of faults rose. A prefix of the bytes is then taken.
    fn put(&mut self, bytes: &[u8]) -> Result<(), SinkFault>
        ensures all { OnOk result (Appends (taken self.old) (taken self.new) bytes.now) }
        ensures prefix { OnErr result (AppendsPrefix (taken self.old) (taken self.new) bytes.now) }
        ensures failed { OnErr result (Rose (faults self.old) (faults self.new)) }
        ensures counts { faults self.old ≤ faults self.new };
}
