//! One entry more.

ghost use Rattle.std.specs.Prelude.{◌≡◌, ◌≢◌, ◌<◌, ◌^◌, ◌++◌, [], ◌∷◌, List, IfOk, IsTrue, OnOk, Some, length};
ghost use Rattle.fc_check_lane.specs.After.{chains_torn, chains_written};
ghost use Rattle.fc_drawing.specs.Sources.{all_made, sources_of};
ghost use Rattle.fc_base.specs.declared.request.Place.TheVariants.{Every};
ghost use Rattle.fc_entry.specs.declared.entry.Entry.{Entry as ToldEntry};
ghost use Rattle.fc_rules.specs.LaneRight.{done_write};
ghost use Rattle.fc_view.specs.Behind.{IsFollowed, first_sheet};

use crate::behind::Behind;
use fc_base::ids::VolId;
use fc_base::outcome::NoMemory;
use fc_base::request::{Move, Place, Reply, Request};
use fc_base::size::GrainSize;
use fc_check_follow::Candidates;
use fc_drawing::arrivals::{Arrival, Arrivals};
use fc_drawing::sources::{Source, make_moves, source_at};
use fc_drawing::totals::Totals;
use fc_entry::entry::Entry;
use fc_model::PlainSheet;
use fc_plain::grain_at;
use std::alloc::Global;

/// From whom each move of an entry copied, and whether it changed the chains.
#[derive(Drop)]
pub(crate) struct Step {
    /// Of each move, in order.
    pub sources: Vec<Option<Source>>,
    /// Whether the chains may be others than before.
    pub changed: bool,
}

/// The volume of a slot, if there is one.
fn volume_of(source: Option<Source>) -> Option<VolId> {
    match source {
        Some(source) => Some(source.volume),
        None => None,
    }
}

/// Notes moves: how grains came to slots, and how many went from whom to whom.
fn note_moves(
    arrivals: &mut Arrivals,
    totals: &mut Totals,
    number: u64,
    moves: &[Move],
    sources: &[Option<Source>],
) -> Result<(), NoMemory> {
    for index in 0..moves.len() {
        let made = moves[index];
        let from = if index < sources.len() {
            sources[index]
        } else {
            None
        };
        let to = Source {
            slot: made.slot,
            volume: made.volume,
            is_live: true,
        };
        arrivals.note(Arrival {
            to,
            grain: made.grain.0 as usize,
            entry: number,
            from,
            in_place: made.in_place,
        })?;
        totals.count(volume_of(from), made.volume, made.in_place)?;
    }
    Ok(())
}

/// The chains after a write that was done, and how the grain came to the volume's live slot, where it lacked it.
fn follow_write(
    size: GrainSize,
    sheet: &mut PlainSheet,
    arrivals: &mut Arrivals,
    entry: &Entry,
) -> Result<bool, NoMemory>
    ensures { OnOk result (sheet.new ≡ chains_written size sheet.old (done_write entry.now.request entry.now.reply)) }
{
    let (Request::Write(part), Reply::Done) = (&entry.request, &entry.reply) else {
        return Ok(false);
    };
    let grain = grain_at(size, part.block) as usize;
    match sheet.live_place(part.volume) {
        Some(place) => {
            if !sheet.holds(place, grain) {
                arrivals.note(Arrival {
                    to: source_at(sheet, place),
                    grain,
                    entry: entry.number,
                    from: None,
                    in_place: false,
                })?;
            }
        }
        None => {}
    }
    sheet.written(part.volume, grain);
    Ok(true)
}

/// The chains after a torn grain, if there is one.
fn follow_torn(sheet: &mut PlainSheet, entry: &Entry) -> bool
    ensures { sheet.new ≡ chains_torn sheet.old entry.now.torn }
{
    match entry.torn {
        Some(torn) => {
            sheet.torn(torn.volume, torn.grain.0 as usize, torn.side);
            true
        }
        None => false,
    }
}

/// The chains of the first way, where there is one; otherwise none.
fn first_chains(alloc: Global, candidates: &Candidates) -> Result<PlainSheet, NoMemory>
    ensures { IfOk result (λ sheet. candidates.now.ways ≢ [] → first_sheet candidates.now ≡ Some sheet) }
{
    match candidates.first() {
        Some(way) => way.sheet().copy(alloc),
        None => Ok(PlainSheet::new(alloc)),
    }
}

/// The chains after the moves, the write and the torn grain of an entry of a lane.
fn follow_lane(
    alloc: Global,
    size: GrainSize,
    sheet: &mut PlainSheet,
    arrivals: &mut Arrivals,
    totals: &mut Totals,
    entry: &Entry,
) -> Result<Step, NoMemory>
    ensures sources { IfOk result (λ step. step.sources.items ≡ sources_of sheet.old entry.now.moves) }
    ensures chains { OnOk result (sheet.new ≡ chains_torn (chains_written size (all_made sheet.old entry.now.moves) (done_write entry.now.request entry.now.reply)) entry.now.torn) }
{
    let moves = entry.moves.as_slice();
    let sources = make_moves(alloc, sheet, moves)?;
    note_moves(arrivals, totals, entry.number, moves, sources.as_slice())?;
    let written = follow_write(size, sheet, arrivals, entry)?;
    let torn = follow_torn(sheet, entry);
    let changed = written || torn || !moves.is_empty();
    Ok(Step { sources, changed })
}

/// Whether the chains of an entry follow from those before it alone: it is a lane's, or did nothing; and all was told in one way.
fn follows_alone(ways: usize, entry: &Entry) -> bool
    ensures { IsTrue result → (ways ≡ 1) × (entry.now.place ≢ Every) }
{
    ways == 1 && entry.place != Place::Every
}

/// Whether chains that don't follow from those before an entry alone may be others than those.
fn may_differ(changed: bool, ways: usize, entry: &Entry, same_slots: bool) -> bool {
    changed || ways != 1 || !entry.effects.as_slice().is_empty() || !same_slots
}

impl Behind {
    /// Goes on behind the last entry of the history, which is right, where all before it may have been told in so many ways, and answers
    /// from whom its moves copied. Refused for want of memory alone; then what is known may be anything.
    pub(crate) fn go_on(
        &mut self,
        alloc: Global,
        size: GrainSize,
        ways: usize,
    ) -> Result<Step, NoMemory>
        requires some { 0 < length self.old.progress.history.entries }
        requires numbered { (before : List ToldEntry) (entry : ToldEntry) → self.old.progress.history.entries ≡ before ++ entry ∷ [] → entry.number < 2 ^ 32 }
        ensures followed { IfOk result (λ step. (before : List ToldEntry) (entry : ToldEntry) → self.old.progress.history.entries ≡ before ++ entry ∷ []
            → IsFollowed size ways entry self.old step self.new) }
        ensures progress { self.new.progress ≡ self.old.progress }
    {
        let entry = self.progress.history.entry(self.progress.history.len() - 1);
        self.origins.follow(alloc, size, entry)?;
        let slots = self.sheet.len();
        let mut step = follow_lane(
            alloc,
            size,
            &mut self.sheet,
            &mut self.arrivals,
            &mut self.totals,
            entry,
        )?;
        if follows_alone(ways, entry) {
            return Ok(step);
        }
        self.sheet = first_chains(alloc, &self.progress.candidates)?;
        let same_slots = self.sheet.len() == slots;
        step.changed = may_differ(step.changed, ways, entry, same_slots);
        Ok(step)
    }
}
