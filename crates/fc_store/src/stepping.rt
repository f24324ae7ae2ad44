//! Writes, copies and cleanings of a lane, step by step: a caller may do other work between the steps of one entry.

ghost use Rattle.std.specs.Prelude.{◌≡◌, ◌≢◌, ◌<◌, ◌^◌, ◌%◌, length};
ghost use Rattle.fc_base.specs.declared.request.WritePart.{WritePart};
ghost use Rattle.fc_entry.specs.Picture.{grain_of_block};
ghost use Rattle.fc_follow.specs.Following.{Followed};
ghost use Rattle.fc_lane.specs.Doing.{FitsAsk, HasBegun, HasBegunAs, IsUnderWay, entry_over};
ghost use Rattle.fc_lane.specs.Entering.{HasFollowed};
ghost use Rattle.fc_lane.specs.Lane.{IsFollowing, IsReady, LaneView, of};
ghost use Rattle.fc_lane.specs.Workers.{ask_of};
ghost use Rattle.fc_steps.specs.Asking.{request_of};
ghost use Rattle.fc_steps.specs.UnderWay.{next_of};
ghost use Rattle.fc_steps.specs.declared.ask.Ask.TheVariants.{Write};
ghost use Rattle.fc_steps.specs.declared.stepping.Next.TheVariants.{Over};
ghost use Rattle.fc_store.specs.Stepping.{IsInLane, IsStepOf, lane_in};

use crate::store::Store;
use fc_base::ids::{GrainNo, MapId};
use fc_base::request::WritePart;
use fc_control::Control;
use fc_entry::entry::Entry;
use fc_lane::doing::{Begun, Doing};
use fc_lane::lane::Lane;
use fc_lane::worker::Worker;
use fc_mdisk::mdisk::Mdisk;
use fc_steps::body::StepEnd;

impl<D: Mdisk> Store<D> {
    /// The control part.
    pub fn control(&self) -> &Control
        ensures { result.now ≡ self.now.control }
    {
        &self.control
    }

    /// The lanes, in order.
    pub fn all_lanes(&self) -> &[Lane<D>]
        ensures { result.now ≡ self.now.lanes }
    {
        self.lanes.as_slice()
    }

    /// A write of blocks of one grain begins in the lane at a place (`Lane::begin_write`), by `main`.
    pub fn begin_write(&mut self, place: usize, number: u64, part: WritePart) -> Begun
        requires there { place < length self.old.lanes }
        requires can { (f : Followed) × IsFollowing (lane_in self.old place) f × FitsAsk (of (lane_in self.old place)) (Write part) f.told }
        requires number { grain_of_block self.old.control.grain part.block < 2 ^ 32 }
        requires grain { (lane_in self.old place).grains.grain ≡ self.old.control.grain }
        requires ready { IsReady (lane_in self.old place) }
        ensures begun { HasBegunAs (lane_in self.old place) number 0 (Write part) result (lane_in self.new place) }
        ensures others { IsInLane place self.old self.new }
    {
        self.lanes[place].begin_write(self.alloc, number, 0, part)
    }

    /// A copy or a cleaning of a mapping's grain begins in the lane at a place (`Lane::begin_fill`), by `main`.
    pub fn begin_fill(
        &mut self,
        place: usize,
        number: u64,
        worker: Worker,
        map: MapId,
        grain: GrainNo,
    ) -> Doing
        requires there { place < length self.old.lanes }
        requires can { (f : Followed) × IsFollowing (lane_in self.old place) f × FitsAsk (of (lane_in self.old place)) (ask_of worker map grain) f.told }
        requires of_lane { grain.0 % (lane_in self.old place).lanes ≡ (lane_in self.old place).lane }
        requires ready { IsReady (lane_in self.old place) }
        ensures begun { HasBegun (lane_in self.old place) number 0 (ask_of worker map grain) result (lane_in self.new place) }
        ensures others { IsInLane place self.old self.new }
    {
        self.lanes[place].begin_fill(self.alloc, number, 0, worker, map, grain)
    }

    /// Makes the next step of an entry that began in the lane at a place (`Lane::step`).
    pub fn step(&mut self, place: usize, doing: &mut Doing) -> StepEnd
        requires there { place < length self.old.lanes }
        requires way { (lane : LaneView) × IsUnderWay lane doing.old (lane_in self.old place) }
        requires next { next_of doing.old.steps ≢ Over }
        ensures step { IsStepOf doing.old (lane_in self.old place) result doing.new (lane_in self.new place) }
        ensures others { IsInLane place self.old self.new }
    {
        self.lanes[place].step(doing)
    }

    /// The entry of steps that are over, in the lane at a place (`Lane::finish`).
    pub fn finish(&mut self, place: usize, doing: Doing) -> Entry
        requires there { place < length self.old.lanes }
        requires way { (lane : LaneView) × IsUnderWay lane doing (lane_in self.old place) }
        requires over { next_of doing.steps ≡ Over }
        ensures entry { (lane : LaneView) → IsUnderWay lane doing (lane_in self.old place) →
            HasFollowed lane (FitsAsk (of lane) doing.steps.ask) doing.number doing.actor (request_of doing.steps.ask) result (lane_in self.new place) }
        ensures told { result ≡ entry_over (lane_in self.old place) doing }
        ensures grains { (lane_in self.new place).grains ≡ (lane_in self.old place).grains }
        ensures others { IsInLane place self.old self.new }
    {
        self.lanes[place].finish(self.alloc, doing)
    }
}
