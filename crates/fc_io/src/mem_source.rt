//! A source over bytes in memory.

ghost use Rattle.std.specs.Prelude.{◌≡◌, ◌<◌, Some};

use crate::failing::FailingCalls;
use crate::source::Source;
use fc_base::outcome::Failed;
use std::marker::Model;

/// A source that tells all: the bytes that it has left and which of its coming calls fail.
pub struct MemSource {
    bytes: Vec<u8>,
    start: usize,
    piece: usize,
    failing: FailingCalls,
    faults: u64,
}

impl Drop for MemSource {
    // Written out, so that a function that drops it has one call for all of it in its proof.
    fn drop(self) {
        let MemSource {
            bytes: _,
            start: _,
            piece: _,
            failing: _,
            faults: _,
        } = self;
    }
}

impl Model for MemSource {
    ghost use Rattle.std.specs.Prelude.{◌<◌, ◌≤◌, drop, vec_len, Some};
    ghost use Rattle.fc_io.specs.Source.{SourceState};

    ghost Value = { SourceState };

    ghost view = { λ s. record { left = Some (drop s.start s.bytes.items); failing = Some s.failing; faults = s.faults } };

    ghost invariant = { λ s. (0 < s.piece) × (s.start ≤ vec_len s.bytes) };
}

impl MemSource {
    /// A source of these bytes. A call takes at most `piece` of them. The calls are counted from 1, and those whose
    /// numbers are in `failing` fail.
    pub fn new(bytes: Vec<u8>, piece: usize, failing: Vec<u64>) -> Self
        requires { 0 < piece }
        ensures { result ≡ record { left = Some bytes.items; failing = Some failing.items; faults = 0 } }
    {
        MemSource {
            bytes,
            start: 0,
            piece,
            failing: FailingCalls::new(failing),
            faults: 0,
        }
    }
}

impl Source for MemSource {
    ghost meaning = { λ s. s };

    fn take(&mut self, out: &mut [u8]) -> Result<usize, Failed> {
        if self.failing.next() {
            self.faults = self.faults.saturating_add(1);
            return Err(Failed);
        }
        let left = self.bytes.len() - self.start;
        let count = left.min(self.piece).min(out.len());
        let end = self.start + count;
        out[..count].copy_from_slice(&self.bytes[self.start..end]);
        self.start = end;
        Ok(count)
    }

    fn faults(&self) -> u64 {
        self.faults
    }
}
