//! What entries and events tell of the memory that grains occupy.

ghost use Rattle.std.specs.Prelude.{◌≡◌, OnOk, fold};
ghost use Rattle.fc_base.specs.Room.{rooms_after};
ghost use Rattle.fc_legal.specs.Whole.{single_lane};
ghost use Rattle.fc_rules.specs.LaneRight.{done_write};
ghost use Rattle.fc_rules.specs.Rooms.{rooms_entry, rooms_move, rooms_tear, rooms_write};

use crate::rooms::Rooms;
use fc_base::decision::LaneEvent;
use fc_base::outcome::NoMemory;
use fc_base::request::{Move, Torn, WritePart};
use fc_base::size::GrainSize;
use fc_check_lane::done_write;
use fc_check_picture::Picture;
use fc_entry::entry::Entry;
use fc_plain::grain_at;
use std::alloc::Global;

impl Rooms {
    /// A move: it wrote its grain, unless it was in place or what the volume shows there is lost. In one lane, whatever the grain size.
    fn follow_move(&mut self, picture: &Picture<u8>, mv: &Move)
        ensures { (size : GrainSize) → self.new ≡ rooms_move (single_lane size) picture.now self.old mv.now }
    {
        let grain = mv.grain.0 as usize;
        if !(mv.in_place || picture.is_lost(mv.volume, grain)) {
            self.reach(mv.volume, grain);
        }
    }

    /// All moves of an entry, in order.
    fn follow_moves(&mut self, picture: &Picture<u8>, moves: &[Move])
        ensures { (size : GrainSize) → self.new ≡ fold (rooms_move (single_lane size) picture.now) self.old moves.now }
    {
        for mv in moves {
            self.follow_move(picture, mv);
        }
    }

    /// A write, where it was done.
    fn follow_write(&mut self, size: GrainSize, write: Option<WritePart>)
        ensures { self.new ≡ rooms_write (single_lane size) self.old write }
    {
        match write {
            Some(part) => self.reach(part.volume, grain_at(size, part.block) as usize),
            None => {}
        }
    }

    /// A torn grain, if there is one: the write that failed reached it, whatever the grain size.
    fn follow_torn(&mut self, torn: Option<Torn>)
        ensures { (size : GrainSize) → self.new ≡ rooms_tear (single_lane size) self.old torn }
    {
        match torn {
            Some(torn) => self.reach(torn.volume, torn.grain.0 as usize),
            None => {}
        }
    }

    /// Notes what an entry of a lane did; the picture is what plain volumes held before it.
    pub fn follow_entry(&mut self, size: GrainSize, picture: &Picture<u8>, entry: &Entry)
        ensures { self.new ≡ rooms_entry (single_lane size) picture.now self.old entry.now }
    {
        self.follow_moves(picture, entry.moves.as_slice());
        self.follow_write(size, done_write(&entry.request, &entry.reply));
        self.follow_torn(entry.torn);
    }

    /// Notes what an event of a decision does. Refused for want of memory alone.
    fn follow_event(&mut self, alloc: Global, event: &LaneEvent) -> Result<(), NoMemory>
        ensures { OnOk result (self.new ≡ rooms_after (λ grains. grains) self.old event.now) }
    {
        match event {
            LaneEvent::Make {
                volume,
                grains,
                kind,
            } => self.make(alloc, *volume, *kind, *grains as usize),
            LaneEvent::Remove { volume } => {
                self.remove(*volume);
                Ok(())
            }
            _ => Ok(()),
        }
    }

    /// Notes what the events of a decision do, in order. Refused for want of memory alone; then a part of them may
    /// be noted.
    pub fn follow_events(&mut self, alloc: Global, events: &[LaneEvent]) -> Result<(), NoMemory>
        ensures { OnOk result (self.new ≡ fold (rooms_after (λ grains. grains)) self.old events.now) }
    {
        for event in events {
            self.follow_event(alloc, event)?;
        }
        Ok(())
    }
}
