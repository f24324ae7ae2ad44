//! What each event does to the sheet.

ghost use Rattle.std.specs.Prelude.{◌≡◌, ℕ, ◌<◌, length, fold, OnOk, OnErr};
ghost use Rattle.fc_base.specs.Sheet.{slot_at, live_place, mapping_place, birth_place};
ghost use Rattle.fc_base.specs.SheetStep.{at_place, left_place, removed, started_empty, triggered, retired_at, detached_at, split_at, forced_at, forced_map, dropped, sheet_step};
ghost use Rattle.fc_books.specs.After.{holding};
ghost use Rattle.fc_model.specs.Lanes.{grains_in_lane};

use crate::sheet::PlainSheet;
use fc_base::decision::LaneEvent;
use fc_base::ids::MapId;
use fc_base::outcome::NoMemory;
use fc_base::request::Pair;
use model_slots::find::{
    grains_of_volume, has_slot_behind, place_of_birth, place_of_live, place_of_mapping,
};
use model_slots::places::{grains_of, is_live_at, volume_at};
use std::alloc::Global;

impl PlainSheet {
    /// The slot at a place leaves it: it becomes old if slots stand after it, and is taken out otherwise.
    fn leave_place(&mut self, place: usize)
        requires { place < length self.old.slots }
        ensures { self.new ≡ left_place place self.old }
    {
        if has_slot_behind(self.slots(), place) {
            self.age(place);
        } else {
            self.take_out(place);
        }
    }

    /// The volume's live slot leaves its place.
    fn leave(&mut self, volume: u32)
        ensures { self.new ≡ at_place left_place (live_place self.old.slots volume) self.old }
    {
        match place_of_live(self.slots(), volume) {
            Some(place) => self.leave_place(place),
            None => {}
        }
    }

    /// One pair of a trigger: the target becomes a copy of the source that holds nothing yet.
    fn start(&mut self, alloc: Global, pair: &Pair) -> Result<(), NoMemory>
        ensures { OnOk result (self.new ≡ started_empty self.old pair.now) }
    {
        let grains = grains_of_volume(self.slots(), pair.target.0);
        self.leave(pair.target.0);
        match place_of_live(self.slots(), pair.source.0) {
            Some(place) => self.put_behind(alloc, place, pair.target.0, pair.map.0, grains),
            None => Ok(()),
        }
    }

    /// All pairs of a trigger, in order.
    pub(crate) fn trigger(&mut self, alloc: Global, pairs: &[Pair]) -> Result<(), NoMemory>
        ensures { OnOk result (self.new ≡ triggered pairs.now self.old) }
    {
        for pair in pairs {
            self.start(alloc, pair)?;
        }
        Ok(())
    }

    /// The volume's live slot is taken out, if there is one.
    fn remove(&mut self, volume: u32)
        ensures { self.new ≡ removed volume self.old }
    {
        match place_of_live(self.slots(), volume) {
            Some(place) => self.take_out(place),
            None => {}
        }
    }

    /// The slot at a place becomes old; its volume gets a chain of its own.
    fn retire_at(&mut self, alloc: Global, place: usize) -> Result<(), NoMemory>
        requires { place < length self.old.slots }
        ensures { OnOk result (self.new ≡ retired_at place self.old) }
    {
        let volume = volume_at(self.slots(), place);
        let grains = grains_of(self.slots(), place);
        self.age(place);
        self.add_chain(alloc, volume, grains)
    }

    /// The slot at a place is taken out; its volume gets a chain of its own.
    fn detach_at(&mut self, alloc: Global, place: usize) -> Result<(), NoMemory>
        requires { place < length self.old.slots }
        ensures { OnOk result (self.new ≡ detached_at place self.old) }
    {
        let volume = volume_at(self.slots(), place);
        let grains = grains_of(self.slots(), place);
        self.take_out(place);
        self.add_chain(alloc, volume, grains)
    }

    /// The slot at a place is taken out, live or old; where it was live its volume gets a chain of its own.
    fn force_at(&mut self, alloc: Global, place: usize) -> Result<(), NoMemory>
        requires { place < length self.old.slots }
        ensures { OnOk result (self.new ≡ forced_at place self.old) }
    {
        if is_live_at(self.slots(), place) {
            self.detach_at(alloc, place)
        } else {
            self.take_out(place);
            Ok(())
        }
    }

    /// The mapping's slot becomes old, if it has one; its volume gets a chain of its own.
    fn retire(&mut self, alloc: Global, map: MapId) -> Result<(), NoMemory>
        ensures { OnOk result (self.new ≡ at_place retired_at (mapping_place self.old.slots map.0) self.old) }
    {
        match place_of_mapping(self.slots(), map.0) {
            Some(place) => self.retire_at(alloc, place),
            None => Ok(()),
        }
    }

    /// The mapping's slot is taken out, if it has one; its volume gets a chain of its own.
    fn detach(&mut self, alloc: Global, map: MapId) -> Result<(), NoMemory>
        ensures { OnOk result (self.new ≡ at_place detached_at (mapping_place self.old.slots map.0) self.old) }
    {
        match place_of_mapping(self.slots(), map.0) {
            Some(place) => self.detach_at(alloc, place),
            None => Ok(()),
        }
    }

    /// The mapping's slot and all behind it become a chain of their own, if it has one.
    fn split_off(&mut self, map: MapId)
        ensures { self.new ≡ at_place split_at (mapping_place self.old.slots map.0) self.old }
    {
        match place_of_mapping(self.slots(), map.0) {
            Some(place) => self.split(place),
            None => {}
        }
    }

    /// The mapping's slot is taken out by force, if it has one.
    fn force_one(&mut self, alloc: Global, map: MapId) -> Result<(), NoMemory>
        ensures { OnOk result (self.new ≡ forced_map self.old map) }
    {
        match place_of_mapping(self.slots(), map.0) {
            Some(place) => self.force_at(alloc, place),
            None => Ok(()),
        }
    }

    /// The slots of the mappings are taken out by force, in order.
    fn force_all(&mut self, alloc: Global, maps: &[MapId]) -> Result<(), NoMemory>
        ensures { OnOk result (self.new ≡ fold forced_map self.old maps.now) }
    {
        for map in maps {
            self.force_one(alloc, *map)?;
        }
        Ok(())
    }

    /// The mapping's slot and those of its dependents are taken out by force, the mapping's first.
    fn force(&mut self, alloc: Global, map: MapId, dependents: &[MapId]) -> Result<(), NoMemory>
        ensures { OnOk result (self.new ≡ fold forced_map (forced_map self.old map) dependents.now) }
    {
        self.force_one(alloc, map)?;
        self.force_all(alloc, dependents)
    }

    /// The slot with this birth is taken out, if there is one.
    fn drop_slot(&mut self, birth: u64)
        ensures { self.new ≡ dropped birth self.old }
    {
        match place_of_birth(self.slots(), birth) {
            Some(place) => self.take_out(place),
            None => {}
        }
    }

    /// Does an event. Refused, a part of it may be done.
    fn do_event(
        &mut self,
        alloc: Global,
        event: &LaneEvent,
        lane: u8,
        lanes: u8,
    ) -> Result<(), NoMemory>
        requires { lane < lanes }
        ensures { OnOk result (self.new ≡ sheet_step (grains_in_lane lane lanes) self.old event.now) }
    {
        match event {
            LaneEvent::Make { volume, grains, .. } => {
                self.add_chain(alloc, volume.0, lane_grains(*grains, lane, lanes))
            }
            LaneEvent::Remove { volume } => {
                self.remove(volume.0);
                Ok(())
            }
            LaneEvent::Trigger { pairs } => self.trigger(alloc, pairs.as_slice()),
            LaneEvent::Retire { map } => self.retire(alloc, *map),
            LaneEvent::Detach { map } => self.detach(alloc, *map),
            LaneEvent::Split { map } => {
                self.split_off(*map);
                Ok(())
            }
            LaneEvent::Force { map, dependents } => self.force(alloc, *map, dependents.as_slice()),
            LaneEvent::Drop { slot } => {
                self.drop_slot(slot.0);
                Ok(())
            }
            _ => Ok(()),
        }
    }

    /// Does what an event of a command does to the chains at all grains. It asks nothing of the event. Refused, also where the
    /// births come to 2^64, a part of it may be done.
    pub fn step_all(&mut self, alloc: Global, event: &LaneEvent) -> Result<(), NoMemory>
        ensures { OnOk result (self.new ≡ sheet_step (λ grains. grains) self.old event.now) }
    {
        self.do_event(alloc, event, 0, 1)
    }

    /// The slot of a mapping holds the grains of a set, and no others, if it has one.
    pub fn begin_with(&mut self, map: MapId, set: &[bool])
        ensures { self.new ≡ at_place (holding set.now) (mapping_place self.old.slots map.0) self.old }
    {
        match place_of_mapping(self.slots(), map.0) {
            Some(place) => self.hold_only(place, set),
            None => {}
        }
    }

    /// Does what an event of a command does to the chains of lane `lane` of `lanes`; those that aren't about chains do
    /// nothing. It asks nothing of the event. Refused, also where the births come to 2^64, the sheet is as it was.
    pub fn step(
        &mut self,
        alloc: Global,
        event: &LaneEvent,
        lane: u8,
        lanes: u8,
    ) -> Result<(), NoMemory>
        requires { lane < lanes }
        ensures ok { OnOk result (self.new ≡ sheet_step (grains_in_lane lane lanes) self.old event.now) }
        ensures err { OnErr result (self.new ≡ self.old) }
    {
        let mut next = self.copy(alloc)?;
        next.do_event(alloc, event, lane, lanes)?;
        *self = next;
        Ok(())
    }
}

/// How many of a volume's grains the lane has.
fn lane_grains(grains: u32, lane: u8, lanes: u8) -> usize
    requires { lane < lanes }
    ensures { result ≡ grains_in_lane lane lanes grains }
{
    (grains as usize + lanes as usize - 1 - lane as usize) / lanes as usize
}
