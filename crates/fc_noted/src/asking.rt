//! How the next entry of a line begins.

ghost use Rattle.std.specs.Prelude.{◌≡◌, ◌<◌, ◌^◌, IsErrOf, cond, length, true, None, Some};
ghost use Rattle.fc_entry.specs.Picture.{grain_of_block};
ghost use Rattle.fc_follow.specs.Following.{Followed};
ghost use Rattle.fc_lane.specs.Entering.{HasFollowed};
ghost use Rattle.fc_lane.specs.Lane.{IsFollowing, of};
ghost use Rattle.fc_lane.specs.declared.worker.Worker.TheVariants.{Cleaner, Copier};
ghost use Rattle.fc_lanes.specs.declared.access.Access.TheVariants.{Read, Write};
ghost use Rattle.fc_legal.specs.Whole.{Whole};
ghost use Rattle.fc_noted.specs.Making.{KeepLanes, KeepsCount, StepMade, always};
ghost use Rattle.fc_noted.specs.Noted.{CanBegin};
ghost use Rattle.fc_noted.specs.Stopping.{AsksSome};
ghost use Rattle.fc_rules.specs.LaneFits.{FitsPart};
ghost use Rattle.fc_script.specs.Asking.{CanBeAsked, HasNextFill, IsNext, work_of};
ghost use Rattle.fc_script.specs.Script.{agenda_of};
ghost use Rattle.fc_stands.specs.Store.{StandsFor};
ghost use Rattle.fc_store.specs.Stepping.{IsInLane, lane_in};

use crate::noted::{Noted, UnderWay};
use fc_apart::apart::refused_entry;
use fc_apart::log::is_full;
use fc_base::fault::Refusal;
use fc_base::ids::{GrainNo, MapId, VolId};
use fc_base::request::{ReadPart, Request, WritePart};
use fc_control::Control;
use fc_entry::entry::Entry;
use fc_entry::history::History;
use fc_lane::doing::{Begun, Doing};
use fc_lane::worker::Worker;
use fc_lanes::access::Access;
use fc_lanes::touched::blocks_in;
use fc_marks::NotedStop;
use fc_mdisk::mdisk::Mdisk;
use fc_metadisk::MetaDisk;
use fc_script::asking::Asked;
use fc_store::store::Store;
use std::alloc::Global;
use std::mem;

/// Who copies or cleans.
fn worker_of(cleans: bool) -> Worker
    ensures { result ≡ cond cleans Cleaner Copier }
{
    if cleans {
        return Worker::Cleaner;
    }
    Worker::Copier
}

/// Reads blocks of one grain in the lane at a place of a store (`Lane::read`), by `main`. Takes no memory for the store.
fn read_at<D: Mdisk>(
    alloc: Global,
    store: &mut Store<D>,
    place: usize,
    number: u64,
    part: ReadPart,
) -> Entry
    requires there { place < length store.old.lanes }
    requires can { (f : Followed) × IsFollowing (lane_in store.old place) f × FitsPart (of (lane_in store.old place)) f.told part.volume part.block part.count }
    requires number { grain_of_block (lane_in store.old place).grains.grain part.block < 2 ^ 32 }
    ensures followed { HasFollowed (lane_in store.old place) (λ told. FitsPart (of (lane_in store.old place)) told part.volume part.block part.count) number 0 (Request.Read part) result (lane_in store.new place) }
    ensures others { IsInLane place store.old store.new }
{
    let none = Store::from_parts_in(alloc, Control::new(alloc, store.grain()), Vec::new(alloc));
    let (control, mut lanes) = mem::replace(store, none).into_control_and_lanes();
    let entry = lanes[place].read(alloc, number, 0, part);
    *store = Store::from_parts_in(alloc, control, lanes);
    entry
}

impl<D: Mdisk, M: MetaDisk> Noted<D, M> {
    /// Begins what the line asks next; false exactly where nothing is left.
    pub(crate) fn begin_next(&mut self, history: &mut History) -> Result<bool, NotedStop>
        requires begins { CanBegin M.seen M.may_leave self.old history.old }
        ensures made { StepMade M.seen M.may_leave M.moment M.left_since M.calls result self.old self.new history.old history.new }
        ensures full { IsErrOf result NotedStop.LogFull → (w : Whole) → StandsFor self.old.store w → AsksSome self.old.store.control.grain self.old.script w }
        ensures lanes { KeepLanes self.old.store self.new.store }
        ensures live { self.new.live ≡ self.old.live }
        ensures counted { KeepsCount M.seen M.fault_count M.calls result self.old self.new }
    {
        match self.script.next(&self.store)? {
            None => Ok(false),
            Some(asked) => {
                self.begin(asked, history)?;
                Ok(true)
            }
        }
    }

    fn begin(&mut self, asked: Asked, history: &mut History) -> Result<(), NotedStop>
        requires begins { CanBegin M.seen M.may_leave self.old history.old }
        requires next { (w : Whole) → StandsFor self.old.store w → IsNext self.old.store.control.grain w (Some asked) (agenda_of self.old.store.control.grain self.old.script) }
        requires can { CanBeAsked self.old.store asked }
        requires fill { (w : Whole) → StandsFor self.old.store w → HasNextFill self.old.store.control.grain w (work_of self.old.script) asked }
        ensures made { StepMade M.seen M.may_leave M.moment M.left_since M.calls (always result) self.old self.new history.old history.new }
        ensures lanes { KeepLanes self.old.store self.new.store }
        ensures live { self.new.live ≡ self.old.live }
        ensures counted { KeepsCount M.seen M.fault_count M.calls result self.old self.new }
    {
        match asked {
            Asked::Command(command) => self.command(command, history),
            Asked::Refused(request, refusal) => self.refuse(request, refusal, history),
            Asked::Part {
                access,
                volume,
                block,
                count,
                grain,
            } => match access {
                Access::Read => self.read(volume, block, count, grain, history),
                Access::Write(byte) => self.begin_write(byte, volume, block, count, grain, history),
            },
            Asked::Fill { map, cleans, grain } => self.begin_fill(map, cleans, grain, history),
        }
    }

    /// A refusal is logged, and nothing is done.
    fn refuse(
        &mut self,
        request: Request,
        refusal: Refusal,
        history: &mut History,
    ) -> Result<(), NotedStop>
        requires begins { CanBegin M.seen M.may_leave self.old history.old }
        requires next { (w : Whole) → StandsFor self.old.store w → IsNext self.old.store.control.grain w (Some (Asked.Refused request refusal)) (agenda_of self.old.store.control.grain self.old.script) }
        requires can { CanBeAsked self.old.store (Asked.Refused request refusal) }
        ensures made { StepMade M.seen M.may_leave M.moment M.left_since M.calls (always result) self.old self.new history.old history.new }
        ensures lanes { KeepLanes self.old.store self.new.store }
        ensures live { self.new.live ≡ self.old.live }
        ensures counted { KeepsCount M.seen M.fault_count M.calls result self.old self.new }
    {
        if is_full(history) {
            return Err(NotedStop::LogFull);
        }
        let mut entry = refused_entry(self.alloc, 0, request, refusal);
        entry.number = history.len() as u64;
        self.log_entry(entry, history)
    }

    /// A read of blocks of one grain.
    fn read(
        &mut self,
        volume: VolId,
        block: u32,
        count: u32,
        grain: u32,
        history: &mut History,
    ) -> Result<(), NotedStop>
        requires begins { CanBegin M.seen M.may_leave self.old history.old }
        requires next { (w : Whole) → StandsFor self.old.store w → IsNext self.old.store.control.grain w (Some (Asked.Part Read volume block count grain)) (agenda_of self.old.store.control.grain self.old.script) }
        requires can { CanBeAsked self.old.store (Asked.Part Read volume block count grain) }
        ensures made { StepMade M.seen M.may_leave M.moment M.left_since M.calls (always result) self.old self.new history.old history.new }
        ensures lanes { KeepLanes self.old.store self.new.store }
        ensures live { self.new.live ≡ self.old.live }
        ensures counted { KeepsCount M.seen M.fault_count M.calls result self.old self.new }
    {
        let place = self.store.ready_lane(grain, history)?;
        let (first, blocks) = blocks_in(self.store.grain(), block, count, grain);
        let part = ReadPart {
            volume,
            block: first,
            count: blocks,
        };
        let entry = read_at(
            self.alloc,
            &mut self.store,
            place,
            history.len() as u64,
            part,
        );
        self.log_entry(entry, history)
    }

    /// A write of blocks of one grain begins, or is answered at once.
    fn begin_write(
        &mut self,
        byte: u8,
        volume: VolId,
        block: u32,
        count: u32,
        grain: u32,
        history: &mut History,
    ) -> Result<(), NotedStop>
        requires begins { CanBegin M.seen M.may_leave self.old history.old }
        requires next { (w : Whole) → StandsFor self.old.store w → IsNext self.old.store.control.grain w (Some (Asked.Part (Write byte) volume block count grain)) (agenda_of self.old.store.control.grain self.old.script) }
        requires can { CanBeAsked self.old.store (Asked.Part (Write byte) volume block count grain) }
        ensures made { StepMade M.seen M.may_leave M.moment M.left_since M.calls (always result) self.old self.new history.old history.new }
        ensures lanes { KeepLanes self.old.store self.new.store }
        ensures live { self.new.live ≡ self.old.live }
        ensures counted { KeepsCount M.seen M.fault_count M.calls result self.old self.new }
    {
        let place = self.store.ready_lane(grain, history)?;
        let (first, blocks) = blocks_in(self.store.grain(), block, count, grain);
        let part = WritePart {
            volume,
            block: first,
            count: blocks,
            byte,
        };
        match self.store.begin_write(place, history.len() as u64, part) {
            Begun::Answered(entry) => self.log_entry(entry, history),
            Begun::UnderWay(doing) => {
                self.take_up(place, doing);
                Ok(())
            }
        }
    }

    /// A copy or a cleaning of a grain begins.
    fn begin_fill(
        &mut self,
        map: MapId,
        cleans: bool,
        grain: GrainNo,
        history: &mut History,
    ) -> Result<(), NotedStop>
        requires begins { CanBegin M.seen M.may_leave self.old history.old }
        requires next { (w : Whole) → StandsFor self.old.store w → IsNext self.old.store.control.grain w (Some (Asked.Fill map cleans grain)) (agenda_of self.old.store.control.grain self.old.script) }
        requires can { CanBeAsked self.old.store (Asked.Fill map cleans grain) }
        requires fill { (w : Whole) → StandsFor self.old.store w → HasNextFill self.old.store.control.grain w (work_of self.old.script) (Asked.Fill map cleans grain) }
        ensures made { StepMade M.seen M.may_leave M.moment M.left_since M.calls (always result) self.old self.new history.old history.new }
        ensures lanes { KeepLanes self.old.store self.new.store }
        ensures live { self.new.live ≡ self.old.live }
        ensures counted { KeepsCount M.seen M.fault_count M.calls result self.old self.new }
    {
        let place = self.store.ready_lane(grain.0, history)?;
        let worker = worker_of(cleans);
        let doing = self
            .store
            .begin_fill(place, history.len() as u64, worker, map, grain);
        self.take_up(place, doing);
        Ok(())
    }

    /// Takes up an entry in a lane.
    fn take_up(&mut self, place: usize, doing: Doing)
        ensures { self.new ≡ record self.old { under_way = Some (record { place = place; doing = doing; due = None }) } }
    {
        self.under_way = Some(UnderWay {
            place,
            doing,
            due: None,
        });
    }
}
