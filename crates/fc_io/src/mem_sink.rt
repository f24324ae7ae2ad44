//! A sink that keeps its bytes in memory.

ghost use Rattle.std.specs.Prelude.{◌≡◌, [], Some};

use crate::failing::FailingCalls;
use crate::sink::Sink;
use fc_base::outcome::Failed;
use std::alloc::Global;
use std::marker::Model;

/// A sink that tells all: the bytes that it holds, those of them that were sent on, and which of its coming calls fail.
/// A `put` that finds no memory fails too.
pub struct MemSink {
    bytes: Vec<u8>,
    sent: usize,
    failing: FailingCalls,
    faults: u64,
}

impl Drop for MemSink {
    // Written out, so that a function that drops it has one call for all of it in its proof.
    fn drop(self) {
        let MemSink {
            bytes: _,
            sent: _,
            failing: _,
            faults: _,
        } = self;
    }
}

impl Model for MemSink {
    ghost use Rattle.std.specs.Prelude.{◌≤◌, take, vec_len, Some};
    ghost use Rattle.fc_io.specs.Sink.{SinkState};

    ghost Value = { SinkState };

    ghost view = { λ s. record { held = Some s.bytes.items; sent = Some (take s.sent s.bytes.items); failing = Some s.failing; faults = s.faults } };

    ghost invariant = { λ s. s.sent ≤ vec_len s.bytes };
}

impl MemSink {
    /// A sink that holds nothing. Its calls of `put` and `flush` are counted from 1, and those whose numbers are in
    /// `failing` fail.
    pub fn new(alloc: Global, failing: Vec<u64>) -> Self
        ensures { result ≡ record { held = Some []; sent = Some []; failing = Some failing.items; faults = 0 } }
    {
        MemSink {
            bytes: Vec::new(alloc),
            sent: 0,
            failing: FailingCalls::new(failing),
            faults: 0,
        }
    }

    /// The bytes that it holds.
    pub fn bytes(&self) -> &[u8]
        ensures { self.now.held ≡ Some result.now }
    {
        self.bytes.as_slice()
    }

    /// Of these, the first ones that its last done `flush` sent on.
    pub fn sent(&self) -> &[u8]
        ensures { self.now.sent ≡ Some result.now }
    {
        &self.bytes[..self.sent]
    }
}

impl Sink for MemSink {
    ghost meaning = { λ s. s };

    /// A call that is told to fail adds the first half of the part, where there is memory for it.
    fn put(&mut self, part: &[u8]) -> Result<(), Failed> {
        if self.failing.next() {
            self.faults = self.faults.saturating_add(1);
            let _ = self.bytes.extend_from_slice(&part[..part.len() / 2]);
            return Err(Failed);
        }
        match self.bytes.extend_from_slice(part) {
            Ok(()) => Ok(()),
            Err(_) => {
                self.faults = self.faults.saturating_add(1);
                Err(Failed)
            }
        }
    }

    fn flush(&mut self) -> Result<(), Failed> {
        if self.failing.next() {
            self.faults = self.faults.saturating_add(1);
            return Err(Failed);
        }
        self.sent = self.bytes.len();
        Ok(())
    }

    fn faults(&self) -> u64 {
        self.faults
    }
}
