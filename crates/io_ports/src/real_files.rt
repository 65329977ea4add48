//! The files of an operating system.
ghost use Rattle.std.specs.Prelude.{◌≡◌, ◌≤◌, ◌^◌, ◌<◌, length, IfOk, IsErrOf, IfSome};

use crate::{FileFault, Files};
use std::alloc::Global;
use std::fs;
use std::io::{ErrorKind, Read};
use std::rt::Files as FileSystem;

/// The files that a runtime opens. They tell no content.
#[derive(Drop)]
pub struct RealFiles<R: FileSystem> {
    system: R,
    faults: u64,
}

impl<R: FileSystem> RealFiles<R> {
    ghost use Rattle.std.specs.Prelude.{◌≡◌};

    /// The files of this runtime, with no fault so far.
    pub fn new(system: R) -> Self
        ensures { result.faults ≡ 0 }
    {
        RealFiles { system, faults: 0 }
    }

    /// How often opening or reading failed.
    pub fn faults(&self) -> u64
        ensures { result ≡ self.now.faults }
    {
        self.faults
    }
}

// Reads to the end, and no further than one byte past the limit.
fn read_all<R: Read>(alloc: Global, reader: &mut R, limit: usize) -> Result<Vec<u8>, FileFault>
    requires { limit ≤ 2 ^ 31 }
    ensures content { IfOk result (λ content. IfSome (R.remaining reader.old) (λ bytes. content.items ≡ bytes)) }
    ensures within { IfOk result (λ content. length content.items ≤ limit) }
    ensures too_long { IsErrOf result FileFault.TooLong → IfSome (R.remaining reader.old) (λ bytes. limit < length bytes) }
    ensures never_missing { IsErrOf result FileFault.Missing → ⊥ }
{
    let mut content = Vec::new(alloc);
    let mut piece = [0; 4096];
    while content.len() <= limit {
        let room = piece.len().min(limit + 1 - content.len());
        let count = match reader.read(&mut piece[..room]) {
            Ok(count) => count,
            Err(_) => return Err(FileFault::Failed),
        };
        if count == 0 {
            return Ok(content);
        }
        content.extend_from_slice(&piece[..count])?;
    }
    Err(FileFault::TooLong)
}

impl<R: FileSystem> Files for RealFiles<R> {
    ghost use Rattle.std.specs.Prelude.{◌≡◌, ◌≤◌, ◌^◌, ⊤, length, IfOk, IsOk, IsErrOf, if◌then◌else◌};
    ghost use Rattle.io_ports.specs.Count.{Rose, counted};
    ghost use Rattle.io_ports.specs.FileFault.{has_failed};
    ghost use Rattle.io_ports.specs.Told.Told.{Untold};

    ghost held = { λ s name. Untold };

    ghost faults = { λ s. s.faults };

    ghost leaves = { λ s name t. ⊤ };

    fn read(&mut self, alloc: Global, name: &str, limit: usize) -> Result<Vec<u8>, FileFault>
        requires { limit ≤ 2 ^ 31 }
        ensures within { IfOk result (λ content. length content.items ≤ limit) }
        ensures failed { IsErrOf result FileFault.Failed → Rose self.old.faults self.new.faults }
        ensures read_is_no_fault { IsOk result → self.new.faults ≡ self.old.faults }
        ensures too_long_is_no_fault { IsErrOf result FileFault.TooLong → self.new.faults ≡ self.old.faults }
        ensures missing_is_no_fault { IsErrOf result FileFault.Missing → self.new.faults ≡ self.old.faults }
        ensures counts { self.old.faults ≤ self.new.faults }

        // Each failure counts, and nothing else does.
        ensures exact { self.new.faults ≡ (if has_failed result then counted self.old.faults else self.old.faults) }
    {
        let content = match fs::open(&self.system, name) {
            Ok(mut file) => read_all(alloc, &mut file, limit),
            Err(error) if error.kind() == ErrorKind::NotFound => Err(FileFault::Missing),
            Err(_) => Err(FileFault::Failed),
        };
        if let Err(FileFault::Failed) = content {
            self.faults = self.faults.saturating_add(1);
        }
        content
    }
}
