//! Text in memory, as which a drawing is written before it goes to its sink.

ghost use Rattle.std.specs.Prelude.{None};

use fc_base::outcome::Failed;
use fc_drawing::canvas::NotDrawn;
use fc_io::sink::Sink;
use itoa::Buffer;
use std::alloc::Global;

/// Text in memory. Of what is added while there is no memory for it, nothing is held; `lacks` says so from then on.
#[derive(Drop)]
pub(crate) struct Text {
    bytes: Vec<u8>,
    lacks: u64,
}

impl Text {
    /// No text. Takes no memory.
    pub(crate) fn new(alloc: Global) -> Text {
        Text {
            bytes: Vec::new(alloc),
            lacks: 0,
        }
    }

    /// Holds nothing from here on. It keeps its memory.
    pub(crate) fn clear(&mut self) {
        self.bytes.clear();
        self.lacks = 0;
    }

    /// What it holds.
    pub(crate) fn bytes(&self) -> &[u8] {
        self.bytes.as_slice()
    }

    /// What it holds from a place on. None where something is lacking, or where it ends before that place.
    pub(crate) fn whole_from(&self, from: usize) -> Option<&[u8]> {
        if self.lacks != 0 || from > self.bytes.len() {
            return None;
        }
        Some(&self.bytes.as_slice()[from..])
    }

    /// Adds a piece.
    pub(crate) fn add(&mut self, piece: &[u8]) {
        if self.bytes.extend_from_slice(piece).is_err() {
            self.lacks = self.lacks.saturating_add(1);
        }
    }

    /// Adds a byte.
    pub(crate) fn add_byte(&mut self, byte: u8) {
        if self.bytes.push(byte).is_err() {
            self.lacks = self.lacks.saturating_add(1);
        }
    }

    /// Adds a piece, and a decimal number behind it.
    pub(crate) fn add_count(&mut self, piece: &[u8], number: u64) {
        let mut digits = Buffer::new();
        self.add(piece);
        self.add(digits.format(number).as_bytes());
    }

    /// Lacks something where another text does, which stands in it.
    pub(crate) fn lack_as(&mut self, other: &Text) {
        self.lacks = self.lacks.saturating_add(other.lacks);
    }

    /// Puts the text in one piece, unless something is lacking.
    pub(crate) fn send<K: Sink>(&self, sink: &mut K) -> Result<(), NotDrawn> {
        if self.lacks != 0 {
            return Err(NotDrawn::NoMemory);
        }
        match sink.put(self.bytes.as_slice()) {
            Ok(()) => Ok(()),
            Err(Failed) => Err(NotDrawn::WriteFault),
        }
    }
}

/// The texts of requests and replies are put to a sink.
impl Sink for Text {
    ghost meaning = { λ text. record { held = None; sent = None; failing = None; faults = text.lacks } };

    fn put(&mut self, part: &[u8]) -> Result<(), Failed> {
        match self.bytes.extend_from_slice(part) {
            Ok(()) => Ok(()),
            Err(_) => {
                self.lacks = self.lacks.saturating_add(1);
                Err(Failed)
            }
        }
    }

    fn flush(&mut self) -> Result<(), Failed> {
        Ok(())
    }

    fn faults(&self) -> u64 {
        self.lacks
    }
}
