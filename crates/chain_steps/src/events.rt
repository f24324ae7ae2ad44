//! The chains of a lane and the plain sheet of the same slots, side by side: events and torn writes, done in both.

ghost use Rattle.std.specs.Prelude.{◌≡◌, ◌<◌, ◌/◌, ◌%◌, ◌↔◌, IsTrue};
ghost use Rattle.fc_base.specs.SheetFits.{FitsLost};

use crate::fits::fits;
use crate::taken::{fits_lost, fits_taken};
use fc_base::decision::LaneEvent;
use fc_base::ids::VolId;
use fc_base::list::List;
use fc_base::outcome::NoMemory;
use fc_base::request::Side;
use fc_chain::Cascade;
use fc_model::PlainSheet;
use std::alloc::Global;

/// A lane: its number, and how many there are.
#[derive(Clone, Copy)]
pub struct Lane {
    /// Its number.
    pub lane: u8,
    /// How many there are.
    pub lanes: u8,
    ghost within: { lane < lanes },
}

impl Lane {
    /// Where a grain stands among those of its lane, by its number in the volume.
    pub fn place(self, number: u32) -> usize
        ensures { result ≡ number / self.lanes }
    {
        (number / u32::from(self.lanes)) as usize
    }

    /// Whether the lane has the grain with this number in a volume.
    pub fn has(self, number: u32) -> bool
        ensures { IsTrue result ↔ (number % self.lanes ≡ self.lane) }
    {
        number % u32::from(self.lanes) == u32::from(self.lane)
    }
}

/// The chains of a lane and the plain sheet of the same slots, which always say the same.
pub struct Both {
    /// Where both take memory.
    pub alloc: Global,
    /// The lane.
    pub lane: Lane,
    /// Its chains.
    pub chains: Cascade,
    /// The plain sheet.
    pub plain: PlainSheet,
    ghost here: { chains.lane ≡ lane.lane },
    ghost of: { chains.lanes ≡ lane.lanes },
    ghost same: { chains.sheet ≡ plain },
}

impl Drop for Both {
    // Written out, so that a function that drops it has one call for all of it in its proof.
    fn drop(self) {
        let Both {
            alloc: _,
            lane: _,
            chains: _,
            plain: _,
        } = self;
    }
}

impl Both {
    /// One lane of so many, without slots.
    pub fn new(alloc: Global, lane: u8, lanes: u8) -> Both
        requires { lane < lanes }
        ensures here { result.lane.lane ≡ lane }
        ensures of { result.lane.lanes ≡ lanes }
    {
        Both {
            alloc,
            lane: Lane { lane, lanes },
            chains: Cascade::new(alloc, lane, lanes),
            plain: PlainSheet::new(alloc),
        }
    }

    /// Does an event in both, where it fits, and answers whether it did. After `NoMemory` the slots are as they were.
    pub fn do_event(&mut self, event: LaneEvent) -> Result<bool, NoMemory>
        ensures { self.new.lane ≡ self.old.lane }
    {
        if !fits(self.alloc, &self.plain, &event)? {
            return Ok(false);
        }
        let mut next = self.plain.copy(self.alloc)?;
        next.step(self.alloc, &event, self.lane.lane, self.lane.lanes)?;
        let _births = next.births();
        let mut events = List::new(self.alloc);
        events.push(event)?;
        self.chains.reserve(&events)?;
        self.chains.apply_event(&events.as_slice()[0]);
        self.plain = next;
        Ok(true)
    }

    /// Tears a grain of a volume of the lane in both, where nobody else needs it, and answers whether it did. Where the volume's
    /// own slot reads an old slot of the volume, the write tears what the volume shows, whatever the side.
    pub fn do_torn(&mut self, volume: VolId, number: u32, side: Side) -> bool
        requires { number % self.old.lane.lanes ≡ self.old.lane.lane }
        ensures { self.new.lane ≡ self.old.lane }
    {
        let grain = self.lane.place(number);
        if !fits_taken(&self.plain, volume, grain) {
            return false;
        }
        let side = side_torn(&self.plain, volume, grain, side);
        self.chains.torn(volume, number, side);
        self.plain.torn(volume, grain, side);
        true
    }
}

/// The side that a torn write leaves: what the volume shows, where the volume's own slot reads an old slot of the volume.
fn side_torn(plain: &PlainSheet, volume: VolId, grain: usize, side: Side) -> Side
    ensures { result ≡ Side.Under → FitsLost plain.now.slots volume.0 grain }
{
    if fits_lost(plain, volume, grain) {
        return side;
    }
    Side::Now
}
