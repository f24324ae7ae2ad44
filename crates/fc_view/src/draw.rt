//! One entry drawn.

ghost use Rattle.std.specs.Prelude.{◌≡◌, ◌<◌, ◌≢◌, ◌++◌, [], ◌∷◌, true, List, IfErr, OnOk, is_ok, length, slice_get};
ghost use Rattle.fc_entry.specs.declared.entry.Entry.{Entry as ToldEntry};
ghost use Rattle.fc_drawing.specs.Drawn.{drawn_of};
ghost use Rattle.fc_view.specs.Behind.{IsDrawnAs, IsWant, WasDrawn, is_wanted};

use crate::behind::Behind;
use crate::steps::Step;
use crate::stop::ViewStop;
use fc_base::size::GrainSize;
use fc_check_record::Record;
use fc_drawing::canvas::{Canvas, NotDrawn};
use fc_drawing::drawing::Drawing;
use fc_drawing::reason::reason_of_entry;
use fc_entry::entry::Entry;
use std::alloc::Global;

/// What ends a view where a canvas refused something.
pub(crate) fn of_canvas(laid: Result<(), NotDrawn>) -> Result<(), ViewStop>
    ensures ok { is_ok result ≡ is_ok laid }
    ensures refused { IfErr result IsWant }
{
    match laid {
        Ok(()) => Ok(()),
        Err(NotDrawn::NoMemory) => Err(ViewStop::NoMemory),
        Err(NotDrawn::WriteFault) => Err(ViewStop::WriteFault),
    }
}

/// Whether the entry with this number is to be drawn.
fn is_wanted(at: Option<u64>, number: u64) -> bool
    ensures { result ≡ is_wanted at number }
{
    match at {
        Some(at) => at == number,
        None => true,
    }
}

impl Behind {
    /// What is drawn of an entry, the last, of which the first way was told.
    fn drawing<'a>(
        &'a self,
        size: GrainSize,
        way: &'a Record,
        entry: &'a Entry,
        step: &'a Step,
        shows_chains: bool,
    ) -> Drawing<'a>
        ensures { IsDrawnAs size self.now step.now entry.now (drawn_of result) }
    {
        Drawing {
            entry,
            history: &self.progress.history,
            registry: way.registry(),
            sheet: &self.sheet,
            sources: step.sources.as_slice(),
            reason: reason_of_entry(size, &self.sheet, &self.origins, entry),
            arrivals: &self.arrivals,
            ways: self.progress.candidates.len(),
            shows_chains,
        }
    }

    /// Draws the entry with this number, the last.
    fn draw_wanted<C: Canvas>(
        &self,
        alloc: Global,
        size: GrainSize,
        number: usize,
        step: &Step,
        shows_chains: bool,
        canvas: &mut C,
    ) -> Result<(), ViewStop>
        requires there { number < length self.now.progress.history.entries }
        requires told { self.now.progress.candidates.ways ≢ [] }
        ensures drawn { OnOk result ((entry : ToldEntry) → slice_get self.now.progress.history.entries number ≡ Some entry
            → WasDrawn true size self.now step.now entry (C.drawn canvas.old) (C.drawn canvas.new)) }
        ensures refused { IfErr result IsWant }
    {
        match self.progress.candidates.first() {
            Some(way) => {
                let entry = self.progress.history.entry(number);
                of_canvas(canvas.draw(alloc, self.drawing(size, way, entry, step, shows_chains)))
            }
            None => Ok(()),
        }
    }

    /// Draws the last entry, where it is to be drawn: with the chains where they may be others than before, or where it alone is drawn.
    pub(crate) fn draw<C: Canvas>(
        &self,
        alloc: Global,
        size: GrainSize,
        at: Option<u64>,
        step: &Step,
        canvas: &mut C,
    ) -> Result<(), ViewStop>
        requires some { 0 < length self.now.progress.history.entries }
        requires told { self.now.progress.candidates.ways ≢ [] }
        ensures drawn { OnOk result ((before : List ToldEntry) (entry : ToldEntry) → self.now.progress.history.entries ≡ before ++ entry ∷ []
            → WasDrawn (is_wanted at (length before)) size self.now step.now entry (C.drawn canvas.old) (C.drawn canvas.new)) }
        ensures refused { IfErr result IsWant }
    {
        let number = self.progress.history.len() - 1;
        if is_wanted(at, number as u64) {
            let shows_chains = step.changed || at.is_some();
            return self.draw_wanted(alloc, size, number, step, shows_chains, canvas);
        }
        Ok(())
    }
}
