//! Entries of lanes.

ghost use Rattle.std.specs.Prelude.{◌≡◌, ◌↔◌, ℕ, ◌+◌, ◌^◌, ◌<◌, [], IfOk, IsTrue, slice_index_or, slice_set};
ghost use Rattle.fc_base.specs.declared.request.Place.TheVariants.{Lane};
ghost use Rattle.fc_books.specs.Sound.{AreSound};
ghost use Rattle.fc_check_lane.specs.Next.{IsNext};
ghost use Rattle.fc_check_sheet.specs.View.{IsSmall};
ghost use Rattle.fc_legal.specs.Steps.{Step, after_access};
ghost use Rattle.fc_legal.specs.Whole.{Whole, single_lane};
ghost use Rattle.fc_follow.specs.Following.{rows_entry};
ghost use Rattle.fc_rules.specs.Rooms.{rooms_entry};

use crate::record::Record;
use fc_base::outcome::NoMemory;
use fc_base::request::Place;
use fc_base::size::GrainSize;
use fc_check_lane::{Known, done_write};
use fc_check_rooms::Rooms;
use fc_check_rows::Rows;
use fc_entry::entry::Entry;
use std::alloc::Global;

/// Notes an entry in the changed grains of incremental mappings: its write where that was done, and what it
/// tore.
fn follow_rows(rows: &mut Rows, size: GrainSize, entry: &Entry)
    ensures { rows.new ≡ rows_entry (single_lane size) rows.old entry.now }
{
    rows.follow_write(size, done_write(&entry.request, &entry.reply));
    rows.follow_torn(entry.torn);
}

/// Notes an entry in which grains occupy memory: what it wrote, by what plain volumes held before it.
fn follow_rooms(rooms: &mut Rooms, known: &Known, entry: &Entry)
    ensures { rooms.new ≡ rooms_entry (single_lane known.now.grain) known.now.picture rooms.old entry.now }
{
    rooms.follow_entry(known.grain, &known.picture, entry);
}

/// Counts the calls of an entry of a lane, among those of as many entries as there were; there may be no such
/// lane.
fn count_calls(calls: &mut [u64], lane: usize, more: u32)
    requires { (i : ℕ) → slice_index_or calls.old i 0 < 2 ^ 63 }
    ensures { calls.new ≡ slice_set calls.old lane (slice_index_or calls.old lane 0 + more) }
{
    if lane < calls.len() {
        calls[lane] += u64::from(more);
    }
}

impl Record {
    /// Whether an entry of a lane may come next: it is a right step. The answer is no for every command and
    /// every faulty line. Refused for want of memory alone.
    pub fn is_next(&self, alloc: Global, entry: &Entry) -> Result<bool, NoMemory>
        requires sound { AreSound self.now.whole.books }
        requires small { IsSmall self.now.whole.books.sheet.slots self.now.whole.rows }
        ensures { IfOk result (λ yes. IsTrue yes ↔ IsNext self.now.grain self.now.whole entry.now) }
    {
        self.kept.known.is_next(alloc, entry)
    }

    /// What is told after an entry of this lane, which has no effects.
    fn after_entry_of(self, alloc: Global, lane: usize, entry: &Entry) -> Result<Record, NoMemory>
        requires no_effects { entry.now.effects ≡ [] }
        requires few { self.whole.entries < 262144 }
        ensures { IfOk result (λ after. after ≡ record self { whole = after_access self.grain self.whole lane entry.now }) }
    {
        let Record { mut kept } = self;
        follow_rooms(&mut kept.rooms, &kept.known, entry);
        kept.known.follow(alloc, lane, entry)?;
        follow_rows(&mut kept.rows, kept.control.grain(), entry);
        count_calls(kept.calls.as_mut_slice(), lane, entry.calls);
        Ok(Record { kept })
    }

    /// What is told after an entry of a lane that may come next: what it moved, wrote and tore, its faults and
    /// calls. Refused for want of memory alone.
    pub fn after_lane(self, alloc: Global, entry: &Entry) -> Result<Record, NoMemory>
        requires next { IsNext self.grain self.whole entry.now }
        requires few { self.whole.entries < 262144 }
        ensures { IfOk result (λ after. (next : Whole) → Step self.grain self.whole entry.now next → after ≡ record { grain = self.grain; whole = next }) }
    {
        match entry.place {
            Place::Lane(lane) => self.after_entry_of(alloc, usize::from(lane), entry),
            _ => unreachable!(),
        }
    }
}
