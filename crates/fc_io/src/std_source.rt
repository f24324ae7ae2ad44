//! A source over a reader of std.

ghost use Rattle.std.specs.Prelude.{◌≡◌, ◌<◌, length, None, IfOk};
ghost use Rattle.std.specs.Io.KnownBytes.{ReadConsumes, Keeps};
ghost use Rattle.fc_io.specs.Source.{AfterTake};

use crate::source::Source;
use fc_base::outcome::{Failed, NoMemory};
use std::alloc::Global;
use std::io::{BufReader, Read};

/// How many bytes are read ahead.
const BUFFER_BYTES: usize = 65_536;

/// A source over a reader. It tells neither the bytes that it has left nor which calls fail. Where the reader's
/// contract tells its bytes, a `take` gives the next of them.
#[derive(Drop)]
pub struct StdSource<R: Read + Drop> {
    reader: BufReader<R>,
    faults: u64,
}

impl<R: Read + Drop> StdSource<R> {
    /// A source over this reader, which reads 64 KiB ahead.
    pub fn new(alloc: Global, reader: R) -> Result<Self, NoMemory>
        ensures faults { IfOk result (λ s. s.faults ≡ 0) }
        ensures bytes { IfOk result (λ s. Keeps (R.remaining reader) (⟦<BufReader<R> as Read>⟧.remaining s.reader)) }
    {
        match BufReader::with_capacity(alloc, BUFFER_BYTES, reader) {
            Ok(reader) => Ok(StdSource { reader, faults: 0 }),
            Err(_) => Err(NoMemory),
        }
    }
}

impl<R: Read + Drop> Source for StdSource<R> {
    ghost meaning = { λ s. record { left = None; failing = None; faults = s.faults } };

    fn take(&mut self, out: &mut [u8]) -> Result<usize, Failed>
        requires { 0 < length out.old }
        ensures source { AfterTake (record { left = None; failing = None; faults = self.old.faults }) result out.new (record { left = None; failing = None; faults = self.new.faults }) }
        ensures bytes { ReadConsumes (⟦<BufReader<R> as Read>⟧.remaining self.old.reader) (⟦<BufReader<R> as Read>⟧.remaining self.new.reader) result out.new }
    {
        match self.reader.read(out) {
            Ok(count) => Ok(count),
            Err(_) => {
                self.faults = self.faults.saturating_add(1);
                Err(Failed)
            }
        }
    }

    fn faults(&self) -> u64 {
        self.faults
    }
}
