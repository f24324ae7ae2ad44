//! Where a history's bytes go.

ghost use Rattle.std.specs.Prelude.{◌≡◌, is_err};
ghost use Rattle.fc_io.specs.Sink.{SinkState, AfterPut, AfterFlush};

use fc_base::outcome::Failed;

/// A sink of bytes, of which any call of `put` or `flush` may fail.
pub trait Sink {
    /// What the sink holds, what of it was sent on, which coming calls fail, and its count of faults.
    ghost meaning: { Self → SinkState };

    /// Adds the part at the end, where it waits to be sent on. Failed, a front of the part was added, maybe none of it.
    fn put(&mut self, part: &[u8]) -> Result<(), Failed>
        ensures { AfterPut (meaning self.old) part.now (is_err result) (meaning self.new) };

    /// Sends on all that was put and still waits. Failed, it may wait as before; the sink holds what it held.
    /// The last call of one who puts.
    fn flush(&mut self) -> Result<(), Failed>
        ensures { AfterFlush (meaning self.old) (is_err result) (meaning self.new) };

    /// The calls that failed. Stands still at 2^64 - 1.
    fn faults(&self) -> u64
        ensures { result ≡ (meaning self.now).faults };
}
