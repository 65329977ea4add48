//! A sink in memory, with room for so many bytes, that fails where it is told to.
ghost use Rattle.std.specs.Prelude.{◌≡◌, ◌≤◌, [], vec_capacity, IfOk, is_ok};

use crate::{Sink, SinkFault};
use std::alloc::{AllocError, Global};
use std::marker::Model;

/// A sink that keeps its bytes in memory.
#[derive(Drop)]
pub struct MemorySink {
    bytes: Vec<u8>,
    room: usize,
    failing: Vec<u64>,
    calls: u64,
    faults: u64,
}

impl Model for MemorySink {
    ghost use Rattle.std.specs.Prelude.{◌≤◌, length, vec_capacity};
    ghost use Rattle.io_ports.specs.MemorySink.{Spool};

    ghost Value = { Spool };

    ghost view = { λ s. record { taken = s.bytes.items; room = s.room; failing = s.failing.items; calls = s.calls; faults = s.faults } };

    ghost invariant = { λ s. (length s.bytes.items ≤ s.room) × (s.room ≤ vec_capacity s.bytes) };
}

impl MemorySink {
    ghost use Rattle.std.specs.Prelude.{◌≡◌, [], IfOk};
    ghost use Rattle.io_ports.specs.MemorySink.{Spool};

    /// A sink with room for so many bytes. The calls of `put` whose numbers are listed fail, counted
    /// from 0.
    pub fn new(alloc: Global, room: usize, failing: Vec<u64>) -> Result<Self, AllocError>
        ensures { IfOk result (λ sink. sink ≡ record { taken = []; room = room; failing = failing.items; calls = 0; faults = 0 }) }
    {
        Ok(MemorySink {
            bytes: Vec::with_capacity(alloc, room)?,
            room,
            failing,
            calls: 0,
            faults: 0,
        })
    }

    /// The bytes that were taken.
    pub fn bytes(&self) -> &[u8]
        ensures { result.now ≡ self.now.taken }
    {
        &self.bytes
    }

    /// How often `put` failed.
    pub fn faults(&self) -> u64
        ensures { result ≡ self.now.faults }
    {
        self.faults
    }
}

impl Sink for MemorySink {
    ghost use Rattle.std.specs.Prelude.{◌≡◌, ◌≤◌, Some, is_ok, OnOk, OnErr};
    ghost use Rattle.std.specs.Io.KnownBytes.{Appends};
    ghost use Rattle.io_ports.specs.Count.{Rose};
    ghost use Rattle.io_ports.specs.Taken.{AppendsPrefix};
    ghost use Rattle.io_ports.specs.MemorySink.{after_put, takes_all};

    ghost taken = { λ s. Some s.taken };

    ghost faults = { λ s. s.faults };

    fn put(&mut self, bytes: &[u8]) -> Result<(), SinkFault>
        ensures all { OnOk result (Appends (Some self.old.taken) (Some self.new.taken) bytes.now) }
        ensures prefix { OnErr result (AppendsPrefix (Some self.old.taken) (Some self.new.taken) bytes.now) }
        ensures failed { OnErr result (Rose self.old.faults self.new.faults) }
        ensures counts { self.old.faults ≤ self.new.faults }

        // It fails exactly at the listed calls, and where there is no room for all of the bytes.
        ensures exact { is_ok result ≡ takes_all self.old bytes.now }
        ensures after { self.new ≡ after_put self.old bytes.now }
    {
        let call = self.calls;
        self.calls = call.saturating_add(1);
        if self.failing.contains(&call) {
            self.faults = self.faults.saturating_add(1);
            return Err(SinkFault::Failed);
        }
        let left = self.room - self.bytes.len();
        if bytes.len() > left {
            self.faults = self.faults.saturating_add(1);
            self.bytes.extend_from_slice(&bytes[..left]).unwrap();
            return Err(SinkFault::Failed);
        }
        self.bytes.extend_from_slice(bytes).unwrap();
        Ok(())
    }
}
