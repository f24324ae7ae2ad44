//! Drawings as SVG.

ghost use Rattle.std.specs.Prelude.{None};

use crate::put_end::put_end;
use crate::put_totals::put_sums;
use crate::refused::{of_memory, of_sink};
use crate::svg::put_svg;
use crate::text::Text;
use fc_drawing::canvas::{Canvas, NotDrawn};
use fc_drawing::chains::chains_of;
use fc_drawing::drawing::{Drawing, Seen, Sums};
use fc_io::sink::Sink;
use std::alloc::Global;

/// Puts each drawing of chains as one SVG behind a line `== entry-N.svg` with the number of its entry. What stands at the end comes as text
/// behind a line `== sums.txt`, and where not all is right behind `== end.txt`. Each call makes one piece of it. It tells nothing of what
/// it drew.
#[derive(Drop)]
pub struct SvgCanvas<K: Sink + Drop> {
    /// Where the drawings go.
    pub sink: K,
    text: Text,
}

impl<K: Sink + Drop> SvgCanvas<K> {
    /// Drawings that go to this sink. Takes no memory.
    pub fn new(alloc: Global, sink: K) -> SvgCanvas<K> {
        SvgCanvas {
            sink,
            text: Text::new(alloc),
        }
    }
}

/// Puts the line with the name of an entry's file.
fn put_file_name(number: u64, text: &mut Text) {
    text.add_count(b"== entry-", number);
    text.add(b".svg\n");
}

/// Puts how the view ends in a file of its own, where not all is right.
fn put_end_file(seen: Seen, text: &mut Text) {
    match seen {
        Seen::Right(_) => {}
        _ => {
            text.add(b"== end.txt\n");
            put_end(seen, text);
        }
    }
}

impl<K: Sink + Drop> Canvas for SvgCanvas<K> {
    ghost drawn = { λ _. None };

    fn draw(&mut self, alloc: Global, drawing: Drawing<'_>) -> Result<(), NotDrawn> {
        if !drawing.shows_chains {
            return Ok(());
        }
        let chains = of_memory(chains_of(alloc, drawing.sheet))?;
        self.text.clear();
        put_file_name(drawing.entry.number, &mut self.text);
        put_svg(alloc, drawing, chains.as_slice(), &mut self.text);
        self.text.send(&mut self.sink)
    }

    fn sum_up(&mut self, sums: Sums<'_>) -> Result<(), NotDrawn> {
        self.text.clear();
        self.text.add(b"== sums.txt\n");
        put_sums(sums, &mut self.text);
        self.text.send(&mut self.sink)
    }

    fn end(&mut self, seen: Seen) -> Result<(), NotDrawn> {
        self.text.clear();
        put_end_file(seen, &mut self.text);
        self.text.send(&mut self.sink)?;
        of_sink(self.sink.flush())
    }
}
