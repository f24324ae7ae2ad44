//! Drawings as text.

ghost use Rattle.std.specs.Prelude.{None};

use crate::kept_chains::KeptChains;
use crate::put_chains::put_chains;
use crate::put_end::put_end;
use crate::put_entry::{put_line, put_notes};
use crate::put_totals::put_sums;
use crate::refused::{of_memory, of_sink};
use crate::text::Text;
use fc_drawing::canvas::{Canvas, NotDrawn};
use fc_drawing::chains::chains_of;
use fc_drawing::drawing::{Drawing, Seen, Sums};
use fc_io::sink::Sink;
use fc_model::PlainSheet;
use fc_registry::Registry;
use std::alloc::Global;

/// Puts each entry as lines of text: its line in the history, why it read what it did, its moves, and the chains where they are drawn. Each
/// call makes one piece of it. It tells nothing of what it drew.
#[derive(Drop)]
pub struct TextCanvas<K: Sink + Drop> {
    /// Where the text goes.
    pub sink: K,
    text: Text,
    kept: KeptChains,
}

impl<K: Sink + Drop> TextCanvas<K> {
    /// Drawings that go to this sink. Takes no memory.
    pub fn new(alloc: Global, sink: K) -> TextCanvas<K> {
        TextCanvas {
            sink,
            text: Text::new(alloc),
            kept: KeptChains::new(alloc),
        }
    }

    /// Puts the chains of a sheet: the text that is kept, where it is theirs; else a new one, which is kept from then on.
    fn put_drawn_chains(
        &mut self,
        alloc: Global,
        sheet: &PlainSheet,
        registry: &Registry,
    ) -> Result<(), NotDrawn> {
        match self.kept.text_of(sheet, registry) {
            Some(kept) => {
                self.text.add(kept);
                return Ok(());
            }
            None => {}
        }
        let chains = of_memory(chains_of(alloc, sheet))?;
        let from = self.text.bytes().len();
        put_chains(sheet, registry, chains.as_slice(), &mut self.text);
        match self.text.whole_from(from) {
            Some(text) => self.kept.keep(alloc, sheet, registry, text),
            None => {}
        }
        Ok(())
    }
}

/// Puts an entry with all that is said of it but the chains.
fn put_entry(drawing: Drawing<'_>, text: &mut Text) {
    put_line(drawing.history, drawing.entry, text);
    text.add(b"\n");
    put_notes(drawing, text);
}

impl<K: Sink + Drop> Canvas for TextCanvas<K> {
    ghost drawn = { λ _. None };

    fn draw(&mut self, alloc: Global, drawing: Drawing<'_>) -> Result<(), NotDrawn> {
        self.text.clear();
        put_entry(drawing, &mut self.text);
        if drawing.shows_chains {
            self.put_drawn_chains(alloc, drawing.sheet, drawing.registry)?;
        }
        self.text.send(&mut self.sink)
    }

    fn sum_up(&mut self, sums: Sums<'_>) -> Result<(), NotDrawn> {
        self.text.clear();
        put_sums(sums, &mut self.text);
        self.text.send(&mut self.sink)
    }

    fn end(&mut self, seen: Seen) -> Result<(), NotDrawn> {
        self.text.clear();
        put_end(seen, &mut self.text);
        self.text.send(&mut self.sink)?;
        of_sink(self.sink.flush())
    }
}
