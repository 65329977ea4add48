//! Files in memory, that fail where they are told to.
ghost use Rattle.std.specs.Prelude.{◌≡◌, map, string_bytes, MatchOption};
ghost use Rattle.io_ports.specs.MemoryFiles.{content_of};
ghost use Rattle.io_ports.specs.Told.Told.{Absent, Content};

use crate::{FileFault, Files};
use std::alloc::Global;
use std::marker::Model;

/// Files whose names and contents are kept in memory.
#[derive(Drop)]
pub struct MemoryFiles {
    files: Vec<(String, Vec<u8>)>,
    failing: Vec<u64>,
    calls: u64,
    faults: u64,
}

impl Model for MemoryFiles {
    ghost use Rattle.std.specs.Prelude.{map, string_bytes};
    ghost use Rattle.io_ports.specs.MemoryFiles.{Shelf};

    ghost Value = { Shelf };

    ghost view = { λ s. record {
      files = map (λ file. (string_bytes file.0, file.1.items)) s.files.items;
      failing = s.failing.items;
      calls = s.calls;
      faults = s.faults;
    } };
}

impl MemoryFiles {
    /// Files with these names and contents; of equal names the first counts. The calls of `read` whose
    /// numbers are listed fail, counted from 0.
    pub fn new(files: Vec<(String, Vec<u8>)>, failing: Vec<u64>) -> Self
        ensures { result ≡ record {
          files = map (λ file. (string_bytes file.0, file.1.items)) files.items;
          failing = failing.items;
          calls = 0;
          faults = 0;
        } }
    {
        MemoryFiles {
            files,
            failing,
            calls: 0,
            faults: 0,
        }
    }

    /// How often `read` was called.
    pub fn calls(&self) -> u64
        ensures { result ≡ self.now.calls }
    {
        self.calls
    }

    /// How often `read` failed.
    pub fn faults(&self) -> u64
        ensures { result ≡ self.now.faults }
    {
        self.faults
    }
}

// The content of the first file of that name.
fn find<'a>(files: &'a [(String, Vec<u8>)], name: &str) -> Option<&'a Vec<u8>>
    ensures { let held = content_of (map (λ file. (string_bytes file.0, file.1.items)) files.now) name.now
        in MatchOption result (held ≡ Absent) (λ content. held ≡ Content content.now.items) }
{
    for file in files {
        if file.0.as_str() == name {
            return Some(&file.1);
        }
    }
    None
}

impl Files for MemoryFiles {
    ghost use Rattle.std.specs.Prelude.{◌≡◌, ◌≤◌, ◌^◌, length, IfOk, IsOk, IsErrOf};
    ghost use Rattle.io_ports.specs.Count.{Rose};
    ghost use Rattle.io_ports.specs.Told.{IsContent, IsPastLimit, IsNotHeld};
    ghost use Rattle.io_ports.specs.MemoryFiles.{content_of, is_failing, after_read};
    ghost use Rattle.io_ports.specs.FileFault.{has_failed};

    ghost held = { λ s. content_of s.files };

    ghost faults = { λ s. s.faults };

    ghost leaves = { λ s name t. t ≡ after_read s };

    fn read(&mut self, alloc: Global, name: &str, limit: usize) -> Result<Vec<u8>, FileFault>
        requires { limit ≤ 2 ^ 31 }
        ensures content { IfOk result (λ content. IsContent (content_of self.old.files name.now) content.items) }
        ensures within { IfOk result (λ content. length content.items ≤ limit) }
        ensures failed { IsErrOf result FileFault.Failed → Rose self.old.faults self.new.faults }
        ensures too_long { IsErrOf result FileFault.TooLong → IsPastLimit (content_of self.old.files name.now) limit }
        ensures missing { IsErrOf result FileFault.Missing → IsNotHeld (content_of self.old.files name.now) }
        ensures read_is_no_fault { IsOk result → self.new.faults ≡ self.old.faults }
        ensures too_long_is_no_fault { IsErrOf result FileFault.TooLong → self.new.faults ≡ self.old.faults }
        ensures missing_is_no_fault { IsErrOf result FileFault.Missing → self.new.faults ≡ self.old.faults }
        ensures keeps { content_of self.new.files ≡ content_of self.old.files }
        ensures counts { self.old.faults ≤ self.new.faults }
        ensures leaves { self.new ≡ after_read self.old }

        // It fails exactly at the listed calls.
        ensures exact { has_failed result ≡ is_failing self.old }
    {
        let call = self.calls;
        self.calls = call.saturating_add(1);
        if self.failing.contains(&call) {
            self.faults = self.faults.saturating_add(1);
            return Err(FileFault::Failed);
        }
        let Some(content) = find(&self.files, name) else {
            return Err(FileFault::Missing);
        };
        if content.len() > limit {
            return Err(FileFault::TooLong);
        }
        Ok(Vec::from_slice(alloc, content)?)
    }
}
