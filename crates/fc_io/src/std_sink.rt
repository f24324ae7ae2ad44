//! A sink over a writer of std.

ghost use Rattle.std.specs.Prelude.{◌≡◌, [], None, IfOk, OnOk, OnErr, is_err, List, ℕ, ◌++◌};
ghost use Rattle.std.specs.Io.KnownBytes.{Appends, Keeps};
ghost use Rattle.std.specs.Io.Buffered.{writer_buffer};
ghost use Rattle.fc_io.specs.Sink.{AfterPut, AfterFlush};

use crate::sink::Sink;
use fc_base::outcome::{Failed, NoMemory};
use std::alloc::Global;
use std::io::{BufWriter, Write};

/// How many bytes wait at most before they are written.
const BUFFER_BYTES: usize = 65_536;

/// A sink over a writer. It tells neither the bytes that it holds, nor those that it sent on, nor which calls fail. Where the writer's contract
/// tells its bytes, a `put` adds the part to them and to those that wait.
#[derive(Drop)]
pub struct StdSink<W: Write + Drop> {
    writer: BufWriter<W>,
    faults: u64,
}

impl<W: Write + Drop> StdSink<W> {
    /// A sink over this writer, in pieces of 64 KiB. `flush` writes what still waits.
    pub fn new(alloc: Global, writer: W) -> Result<Self, NoMemory>
        ensures faults { IfOk result (λ s. s.faults ≡ 0) }
        ensures bytes { IfOk result (λ s. Keeps (W.contents writer) (⟦<BufWriter<W> as Write>⟧.contents s.writer)) }
    {
        match BufWriter::with_capacity(alloc, BUFFER_BYTES, writer) {
            Ok(writer) => Ok(StdSink { writer, faults: 0 }),
            Err(_) => Err(NoMemory),
        }
    }
}

impl<W: Write + Drop> Sink for StdSink<W> {
    ghost meaning = { λ s. record { held = None; sent = None; failing = None; faults = s.faults } };

    /// A write that takes nothing is a fault.
    fn put(&mut self, part: &[u8]) -> Result<(), Failed>
        ensures sink { AfterPut (record { held = None; sent = None; failing = None; faults = self.old.faults }) part.now (is_err result) (record { held = None; sent = None; failing = None; faults = self.new.faults }) }
        ensures bytes { OnOk result (Appends (⟦<BufWriter<W> as Write>⟧.contents self.old.writer) (⟦<BufWriter<W> as Write>⟧.contents self.new.writer) part.now) }
        ensures front { OnErr result ((front : List ℕ) × (rest : List ℕ) × (part.now ≡ front ++ rest) × Appends (⟦<BufWriter<W> as Write>⟧.contents self.old.writer) (⟦<BufWriter<W> as Write>⟧.contents self.new.writer) front) }
    {
        let mut rest = part;
        while !rest.is_empty() {
            match self.writer.write(rest) {
                Ok(0) | Err(_) => {
                    self.faults = self.faults.saturating_add(1);
                    return Err(Failed);
                }
                Ok(count) => rest = &rest[count..],
            }
        }
        Ok(())
    }

    fn flush(&mut self) -> Result<(), Failed>
        ensures sink { AfterFlush (record { held = None; sent = None; failing = None; faults = self.old.faults }) (is_err result) (record { held = None; sent = None; failing = None; faults = self.new.faults }) }
        ensures written { OnOk result (writer_buffer self.new.writer ≡ []) }
        ensures bytes { Keeps (⟦<BufWriter<W> as Write>⟧.contents self.old.writer) (⟦<BufWriter<W> as Write>⟧.contents self.new.writer) }
    {
        match self.writer.flush() {
            Ok(()) => Ok(()),
            Err(_) => {
                self.faults = self.faults.saturating_add(1);
                Err(Failed)
            }
        }
    }

    fn faults(&self) -> u64 {
        self.faults
    }
}
