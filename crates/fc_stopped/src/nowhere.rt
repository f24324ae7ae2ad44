//! A sink for what nobody reads.

ghost use Rattle.std.specs.Prelude.{None, Some, []};

use fc_base::outcome::Failed;
use fc_io::sink::Sink;

/// A sink that lets all bytes go, and never fails.
#[derive(Drop)]
pub(crate) struct Nowhere;

impl Sink for Nowhere {
    ghost meaning = { λ s. record { held = None; sent = None; failing = Some []; faults = 0 } };

    fn put(&mut self, _part: &[u8]) -> Result<(), Failed> {
        Ok(())
    }

    fn flush(&mut self) -> Result<(), Failed> {
        Ok(())
    }

    fn faults(&self) -> u64 {
        0
    }
}
