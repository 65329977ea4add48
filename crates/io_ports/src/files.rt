//! Files that are read whole, by name.
ghost use Rattle.std.specs.Prelude.{◌≡◌, ◌≤◌, ◌^◌, ℕ, List, length, IfOk, IsOk, IsErrOf};
ghost use Rattle.io_ports.specs.Count.{Rose};
ghost use Rattle.io_ports.specs.FileFault.{fault_name};
ghost use Rattle.io_ports.specs.Told.{Told, IsContent, IsPastLimit, IsNotHeld};
ghost use Rattle.io_ports.specs.declared.files.FileFault.TheVariants.{Memory};

use std::alloc::{AllocError, AllocFailed, Global};
use thiserror::Error;

/// Why a file was not read.
#[derive(Clone, Copy, Debug, PartialEq, Eq, Error)]
pub enum FileFault {
    /// Opening or reading failed.
    #[error("reading failed")]
    Failed,
    /// The content is longer than the limit.
    #[error("the file is past its limit")]
    TooLong,
    /// No file has this name.
    #[error("there is no such file")]
    Missing,
    /// Memory ran out.
    #[error("out of memory")]
    Memory,
}

impl FileFault {
    /// The fault's name, by which a line of errors says it.
    pub fn name(&self) -> &'static [u8]
        ensures { result.now ≡ fault_name self.now }
    {
        match self {
            FileFault::Failed => b"Failed",
            FileFault::TooLong => b"TooLong",
            FileFault::Missing => b"Missing",
            FileFault::Memory => b"Memory",
        }
    }
}

impl From<AllocError> for FileFault {
    ghost from_gives = { λ _ e. e ≡ Memory };

    fn from(_: AllocError) -> Self {
        FileFault::Memory
    }
}

impl<T: Drop> From<AllocFailed<T>> for FileFault {
    ghost from_gives = { λ _ e. e ≡ Memory };

    fn from(_: AllocFailed<T>) -> Self {
        FileFault::Memory
    }
}

/// Files that can be read by name.
pub trait Files {
    /// What is told of the content under a name.
    ghost held: { Self → List ℕ → Told };

    /// How often reading has failed. The count never falls.
    ghost faults: { Self → ℕ };

    /// What a read of that name may make of the files. Nothing else changes them, so a caller's
    /// contract can say which names were read, and name the state in which one of them was.
    ghost leaves: { Self → List ℕ → Self → Type 0 };

    /// The whole content under a name, of at most `limit` bytes.
    ///
    /// # Errors
    ///
    /// `Failed` comes only where the count of faults rose, `TooLong` only where the content is longer
    /// than the limit, and `Missing` only where nothing is held under that name. `Memory` may come
    /// at any call.
    fn read(&mut self, alloc: Global, name: &str, limit: usize) -> Result<Vec<u8>, FileFault>
        requires { limit ≤ 2 ^ 31 }
        ensures content { IfOk result (λ content. IsContent (held self.old name.now) content.items) }
        ensures within { IfOk result (λ content. length content.items ≤ limit) }
        ensures failed { IsErrOf result FileFault.Failed → Rose (faults self.old) (faults self.new) }
        ensures too_long { IsErrOf result FileFault.TooLong → IsPastLimit (held self.old name.now) limit }
        ensures missing { IsErrOf result FileFault.Missing → IsNotHeld (held self.old name.now) }
        // None of these three is a fault of the files.
        ensures read_is_no_fault { IsOk result → faults self.new ≡ faults self.old }
        ensures too_long_is_no_fault { IsErrOf result FileFault.TooLong → faults self.new ≡ faults self.old }
        ensures missing_is_no_fault { IsErrOf result FileFault.Missing → faults self.new ≡ faults self.old }
        ensures keeps { held self.new ≡ held self.old }
        ensures counts { faults self.old ≤ faults self.new }
        ensures leaves { leaves self.old name.now self.new };
}
