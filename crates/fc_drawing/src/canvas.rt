//! Whoever lays out drawings.

ghost use Rattle.std.specs.Prelude.{◌≡◌, ◌++◌, [], ◌∷◌, List, Option, OnOk, option_map};
ghost use Rattle.fc_drawing.specs.Drawn.{Drawn, drawn_of};

use crate::drawing::{Drawing, Seen, Sums};
use std::alloc::Global;

/// Why a drawing wasn't laid out.
#[derive(Clone, Copy, Debug, PartialEq, Eq)]
pub enum NotDrawn {
    /// Memory was wanted and not had.
    NoMemory,
    /// Where it goes refused a part of it.
    WriteFault,
}

/// Lays out drawings, as text or in another form.
pub trait Canvas {
    /// What was drawn so far, where that is told.
    ghost drawn: { Self → Option (List Drawn) };

    /// Draws an entry. Refused, a part of it may have been laid out.
    fn draw(&mut self, alloc: Global, drawing: Drawing<'_>) -> Result<(), NotDrawn>
        ensures { OnOk result (drawn self.new ≡ option_map (λ (all : List Drawn). all ++ drawn_of drawing.entry ∷ []) (drawn self.old)) };

    /// Puts the moves of all entries and the room that volumes take. No entry is drawn by it.
    fn sum_up(&mut self, sums: Sums<'_>) -> Result<(), NotDrawn>
        ensures { OnOk result (drawn self.new ≡ drawn self.old) };

    /// Says how the view ends, and sends on all that was laid out: the last call. No entry is drawn by it.
    fn end(&mut self, seen: Seen) -> Result<(), NotDrawn>
        ensures { OnOk result (drawn self.new ≡ drawn self.old) };
}
