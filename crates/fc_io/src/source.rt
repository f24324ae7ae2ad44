//! Where a session's bytes come from.

ghost use Rattle.std.specs.Prelude.{◌≡◌, ◌<◌, length};
ghost use Rattle.fc_io.specs.Source.{SourceState, AfterTake};

use fc_base::outcome::Failed;

/// A source of bytes, of which any call of `take` may fail.
pub trait Source {
    /// What the source has left, which coming calls fail, and its count of faults.
    ghost meaning: { Self → SourceState };

    /// Takes the next bytes into the front of `out` and answers how many; 0 only at the end. Failed, the source has
    /// left what it had, and `out` may be anything.
    fn take(&mut self, out: &mut [u8]) -> Result<usize, Failed>
        requires { 0 < length out.old }
        ensures { AfterTake (meaning self.old) result out.new (meaning self.new) };

    /// The calls that failed. Stands still at 2^64 - 1.
    fn faults(&self) -> u64
        ensures { result ≡ (meaning self.now).faults };
}
