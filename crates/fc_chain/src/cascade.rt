//! The chains of copies of one lane.

ghost use Rattle.std.specs.Prelude.{◌≡◌, ℕ, ◌+◌, ◌*◌, ◌^◌, ◌<◌, ◌≤◌, ◌/◌, ◌↔◌, ◌++◌, length, option_map, OnOk, OnErr, IfOk, IsTrue, IfSome, Some, false};
ghost use Rattle.fc_base.specs.Sheet.{no_slots, slot_at, shape_of, column, live_place, mapping_place, birth_place, volume_grains};
ghost use Rattle.fc_base.specs.Column.{first_below, holder, needer};
ghost use Rattle.fc_base.specs.declared.request.Side.TheVariants.{Under};
ghost use Rattle.fc_base.specs.SheetFits.{FitsTaken, FitsLost, FitsEvent};
ghost use Rattle.fc_base.specs.SheetStep.{sheet_moved, sheet_written, sheet_torn, triggered, sheet_step};
ghost use Rattle.fc_base.specs.SheetView.{LoopAnswer, count_true, held_of, needed_of};
ghost use Rattle.fc_chain.specs.Chains.{IsOfLane, in_lane, number_in, IsThere};
ghost use Rattle.fc_events.specs.LaneGrains.{lane_grains};
ghost use Rattle.fc_slots.specs.Found.{found};
ghost use Rattle.fc_slots.specs.Contiguous.{IsContiguous};
ghost use Rattle.fc_tallies.specs.Fronts.{AddsFront};
ghost use Rattle.fc_tallies.specs.Nexts.{lacks};
ghost use Rattle.fc_tallies.specs.Tallies.{AreOneSize};
ghost use Rattle.fc_chain.specs.Room.{HasRoomFor};
ghost use Rattle.fc_events.specs.Room.{BirthsFit, slots_made, grains_come};
ghost use Rattle.fc_bits.specs.Grains.{count_set};
ghost use Rattle.fc_base.specs.Counts.{is_needed_at, need_count_of, UsedAt, names_below, is_direct, is_unneeded};
ghost use Rattle.fc_chain.specs.Planning.{CanPlan, Plannable, planned_moves};
ghost use Rattle.fc_places.specs.Directory.{volume_count};

use crate::plan::{LaneGrain, plan_fill, plan_write};
use fc_base::decision::{LaneEvent, LaneEvents};
use fc_base::ids::{MapId, SlotId, VolId};
use fc_base::list::List;
use fc_base::move_plan::MovePlan;
use fc_base::outcome::NoMemory;
use fc_base::request::{Pair, Planned, Side};
use fc_bits::GrainSet;
use fc_events::events::{changes_chains, step};
use fc_events::room::{slots_made, slots_made_by, widest};
use fc_events::table::SlotTable;
use fc_loops::links::loop_of_rows;
use fc_loops::rows::{copy_rows, trigger_rows};
use fc_places::directory::Directory;
use fc_slots::find::name_of;
use fc_slots::slot::Slot;
use fc_slots::walk::{first_reader_of, holder_of};
use fc_tallies::count::{add_direct, add_unneeded};
use fc_tallies::next::{self, number_of};
use fc_tallies::tallies::Tallies;
use std::alloc::Global;
use std::marker::Model;

/// The chains of copies of one lane, with the lane's grains of every volume.
pub struct Cascade {
    lane: u8,
    lanes: u8,
    pub(crate) table: SlotTable,
    tallies: Tallies,
    directory: Directory,
    room: usize,
    width: u32,
}

impl Drop for Cascade {
    // Written out, so that a function that drops it has one call for all of it in its proof.
    fn drop(self) {
        let Cascade {
            lane: _,
            lanes: _,
            table: _,
            tallies: _,
            directory: _,
            room: _,
            width: _,
        } = self;
    }
}

impl Model for Cascade {
    ghost use Rattle.fc_chain.specs.Chains.{Chains, AreParts};

    ghost Value = { Chains };

    ghost view = { λ c. record { lane = c.lane; lanes = c.lanes; sheet = c.table.sheet; room = c.room; width = c.width } };

    ghost invariant = { λ c. AreParts c.lane c.lanes c.table c.tallies c.directory c.room c.width };
}

impl Cascade {
    /// No chain. Takes no memory.
    pub fn new(alloc: Global, lane: u8, lanes: u8) -> Cascade
        requires { lane < lanes }
        ensures lane { result.lane ≡ lane }
        ensures lanes { result.lanes ≡ lanes }
        ensures sheet { result.sheet ≡ no_slots }
    {
        Cascade {
            lane,
            lanes,
            table: SlotTable::new(alloc),
            tallies: Tallies::new(alloc),
            directory: Directory::new(alloc),
            room: 0,
            width: 0,
        }
    }

    /// The slots, with what a plan rests on.
    pub(crate) fn slots(&self) -> &[Slot]
        ensures value { result.now ≡ self.now.sheet.slots }
        ensures plannable { Plannable result.now }
        ensures together { IsContiguous result.now }
        ensures sizes { AreOneSize result.now }
        ensures numbered { (k g : ℕ) → k < length result.now → g < length (slot_at result.now k).held → g * self.now.lanes + self.now.lane < 2 ^ 32 }
    {
        self.table.as_slice()
    }

    /// The place of the slot with this name.
    fn place_of(&self, slot: SlotId) -> usize
        requires { IsThere self.now.sheet.slots slot }
        ensures value { birth_place self.now.sheet.slots slot.0 ≡ Some result }
        ensures bound { result < length self.now.sheet.slots }
    {
        match self.directory.born(self.table.as_slice(), slot.0) {
            Some(place) => place,
            None => unreachable!(),
        }
    }

    /// The place of the volume's live slot.
    fn place_of_live(&self, volume: VolId) -> Option<usize>
        ensures value { result ≡ live_place self.now.sheet.slots volume.0 }
        ensures bound { IfSome result (λ k. k < length self.now.sheet.slots) }
    {
        self.directory.live(self.table.as_slice(), volume.0)
    }

    /// The place of the mapping's slot.
    fn place_of_mapping(&self, map: MapId) -> Option<usize>
        ensures value { result ≡ mapping_place self.now.sheet.slots map.0 }
        ensures bound { IfSome result (λ k. k < length self.now.sheet.slots) }
    {
        self.directory.slot_of(self.table.as_slice(), map.0)
    }

    /// Makes room for the slots that the events can make, so that `apply_event` of each takes no memory. Room that was
    /// there stays. Refused, all is as it was.
    pub fn reserve(&mut self, events: &LaneEvents) -> Result<(), NoMemory>
        ensures ok { OnOk result (HasRoomFor self.new events.now) }
        ensures same { self.new ≡ record self.old { room = self.new.room; width = self.new.width } }
        ensures room_stays { self.old.room ≤ self.new.room }
        ensures width_stays { self.old.width ≤ self.new.width }
        ensures err { OnErr result (self.new ≡ self.old) }
    {
        let events = events.as_slice();
        let Some(slots) = slots_made(events) else {
            return Err(NoMemory);
        };
        let Some(count) = self.table.as_slice().len().checked_add(slots) else {
            return Err(NoMemory);
        };
        let width = widest(events, self.lane, self.lanes).max(self.table.width());
        self.tallies
            .make_room(count, (width as usize).div_ceil(64))?;
        self.directory.make_room(count)?;
        self.table.make_room(slots, width)?;
        self.room = self.room.max(slots);
        self.width = width;
        Ok(())
    }

    /// Does what one event says to the chains. It fits, and there is room for it. One that isn't about chains does nothing,
    /// and nothing is counted anew. Takes no memory.
    pub fn apply_event(&mut self, event: &LaneEvent)
        requires fit { FitsEvent self.old.sheet event.now }
        requires births { BirthsFit (sheet_step (lane_grains self.old.lane self.old.lanes) self.old.sheet event.now) }
        requires room { slots_made event.now ≤ self.old.room }
        requires grains { grains_come (lane_grains self.old.lane self.old.lanes) event.now ≤ self.old.width }
        ensures value { self.new ≡ record self.old { sheet = sheet_step (lane_grains self.old.lane self.old.lanes) self.old.sheet event.now; room = self.new.room } }
        ensures room { self.old.room ≤ self.new.room + slots_made event.now }
    {
        if !changes_chains(event) {
            return;
        }
        match slots_made_by(event) {
            Some(slots) => self.room -= slots,
            None => unreachable!(),
        }
        step(&mut self.table, event, self.lane, self.lanes);
        self.tallies.recount(self.table.as_slice());
        self.directory.rebuild(self.table.as_slice());
    }

    /// How many volumes there are. Looks at none of them.
    pub fn volumes(&self) -> usize
        ensures { result ≡ volume_count self.now.sheet.slots }
    {
        self.directory.volumes()
    }

    /// The volume's live slot, and None exactly where there is no such volume.
    pub fn live(&self, volume: VolId) -> Option<SlotId>
        ensures value { result ≡ found self.now.sheet.slots (live_place self.now.sheet.slots volume.0) }
        ensures there { IfSome result (λ slot. birth_place self.now.sheet.slots slot.0 ≡ live_place self.now.sheet.slots volume.0) }
    {
        name_of(self.slots(), self.place_of_live(volume))
    }

    /// How many of the lane's grains the volume has: none where there is no such volume.
    pub fn grains(&self, volume: VolId) -> u32
        ensures { result ≡ volume_grains self.now.sheet.slots volume.0 }
    {
        match self.place_of_live(volume) {
            Some(place) => self.table.at(place).grains(),
            None => 0,
        }
    }

    /// The volume whose slot it is.
    pub fn volume(&self, slot: SlotId) -> VolId
        requires { IsThere self.now.sheet.slots slot }
        ensures { (k : ℕ) → birth_place self.now.sheet.slots slot.0 ≡ Some k → result.0 ≡ (slot_at self.now.sheet.slots k).volume }
    {
        VolId(self.slots()[self.place_of(slot)].volume())
    }

    /// The mapping's slot, and None exactly where it has none.
    pub fn slot(&self, map: MapId) -> Option<SlotId>
        ensures value { result ≡ found self.now.sheet.slots (mapping_place self.now.sheet.slots map.0) }
        ensures there { IfSome result (λ slot. birth_place self.now.sheet.slots slot.0 ≡ mapping_place self.now.sheet.slots map.0) }
    {
        name_of(self.slots(), self.place_of_mapping(map))
    }

    /// How many of the lane's grains the mapping's slot holds, and at how many of them another slot needs it. None of a
    /// mapping without a slot. The slot is looked up once, and nothing is counted.
    pub fn counts(&self, map: MapId) -> (u32, u32)
        ensures held { result.0 ≡ count_true (held_of self.now.sheet.slots map.0) }
        ensures needed { result.1 ≡ needed_of self.now.sheet.slots map.0 }
    {
        match self.place_of_mapping(map) {
            Some(place) => {
                let tally = self.tallies.at(place);
                (tally.held, tally.needed)
            }
            None => (0, 0),
        }
    }

    /// The holder of a slot at a grain of the lane: the nearest slot at or before it in its chain that holds
    /// the grain, and None exactly where there is none. A read goes to the holder of the volume's live slot.
    pub fn holder(&self, slot: SlotId, grain: u32) -> Option<SlotId>
        requires there { IsThere self.now.sheet.slots slot }
        requires of_lane { IsOfLane self.now grain }
        ensures { (k : ℕ) → birth_place self.now.sheet.slots slot.0 ≡ Some k → result ≡ found self.now.sheet.slots (holder (column self.now.sheet.slots (in_lane self.now grain)) k) }
    {
        let slots = self.slots();
        name_of(
            slots,
            holder_of(slots, self.place_of(slot), grain / self.lanes as u32),
        )
    }

    /// The needer of a slot at a grain of the lane: the first live slot other than it that has it as holder,
    /// and None exactly where there is none.
    pub fn needer(&self, slot: SlotId, grain: u32) -> Option<SlotId>
        requires there { IsThere self.now.sheet.slots slot }
        requires of_lane { IsOfLane self.now grain }
        ensures { (k : ℕ) → birth_place self.now.sheet.slots slot.0 ≡ Some k → result ≡ found self.now.sheet.slots (needer (column self.now.sheet.slots (in_lane self.now grain)) k) }
    {
        let slots = self.slots();
        let place = self.place_of(slot);
        name_of(
            slots,
            first_reader_of(slots, place, place, grain / self.lanes as u32),
        )
    }

    /// The least grain of the lane, by its number, that the slot lacks, and None exactly where it lacks none. An old slot lacks
    /// none.
    pub fn next_lacking(&self, slot: SlotId) -> Option<u32>
        requires { IsThere self.now.sheet.slots slot }
        ensures { (k : ℕ) → birth_place self.now.sheet.slots slot.0 ≡ Some k → result ≡ option_map (number_in self.now) (first_below (lacks (slot_at self.now.sheet.slots k)) (length (slot_at self.now.sheet.slots k).held)) }
    {
        let place = next::next_lacking(self.slots(), self.place_of(slot));
        number_of(self.lane, self.lanes, place)
    }

    /// The least grain of the lane, by its number, at which another slot needs the slot, and None exactly where there is
    /// none.
    pub fn next_needed(&self, slot: SlotId) -> Option<u32>
        requires { IsThere self.now.sheet.slots slot }
        ensures { (k : ℕ) → birth_place self.now.sheet.slots slot.0 ≡ Some k → result ≡ option_map (number_in self.now) (first_below (is_needed_at self.now.sheet.slots k) (length (slot_at self.now.sheet.slots k).held)) }
    {
        let place = next::next_needed(self.slots(), self.place_of(slot));
        number_of(self.lane, self.lanes, place)
    }

    /// The slot got its own copy of the grain; in place its volume's physical grain was the copy already.
    pub fn moved(&mut self, slot: SlotId, grain: u32, in_place: bool)
        requires there { IsThere self.old.sheet.slots slot }
        requires of_lane { IsOfLane self.old grain }
        requires fits { (k : ℕ) → birth_place self.old.sheet.slots slot.0 ≡ Some k → in_place ≡ false → FitsTaken self.old.sheet.slots (slot_at self.old.sheet.slots k).volume (in_lane self.old grain) }
        ensures { (k : ℕ) → birth_place self.old.sheet.slots slot.0 ≡ Some k → self.new ≡ record self.old { sheet = sheet_moved (slot_at self.old.sheet.slots k).volume (in_lane self.old grain) in_place self.old.sheet } }
    {
        let volume = self.volume(slot);
        let grain = grain / self.lanes as u32;
        if in_place {
            self.tallies
                .keep(&mut self.table, &self.directory, volume.0, grain);
        } else {
            self.tallies
                .take(&mut self.table, &self.directory, volume.0, grain);
        }
    }

    /// The volume's grain was written.
    pub fn written(&mut self, volume: VolId, grain: u32)
        requires of_lane { IsOfLane self.old grain }
        requires fits { FitsTaken self.old.sheet.slots volume.0 (in_lane self.old grain) }
        ensures { self.new ≡ record self.old { sheet = sheet_written volume.0 (in_lane self.old grain) self.old.sheet } }
    {
        let grain = grain / self.lanes as u32;
        self.tallies
            .take(&mut self.table, &self.directory, volume.0, grain);
    }

    /// A write of the volume's grain failed and left any bytes in it. With `Now` what the volume shows is lost
    /// with them.
    pub fn torn(&mut self, volume: VolId, grain: u32, side: Side)
        requires of_lane { IsOfLane self.old grain }
        requires fits { FitsTaken self.old.sheet.slots volume.0 (in_lane self.old grain) }
        requires under { side ≡ Under → FitsLost self.old.sheet.slots volume.0 (in_lane self.old grain) }
        ensures { self.new ≡ record self.old { sheet = sheet_torn volume.0 (in_lane self.old grain) side self.old.sheet } }
    {
        let grain = grain / self.lanes as u32;
        match side {
            Side::Now => self
                .tallies
                .take(&mut self.table, &self.directory, volume.0, grain),
            Side::Under => self
                .tallies
                .lose(&mut self.table, &self.directory, volume.0, grain),
        }
    }

    /// Puts the moves that a fill or a write owes into the plan, in order. Takes no memory.
    pub fn plan(&self, write: Planned, plan: &mut MovePlan)
        requires fit { CanPlan self.now.sheet.slots self.now.lane self.now.lanes write }
        requires room { volume_count self.now.sheet.slots ≤ plan.old.room }
        ensures { plan.new ≡ record plan.old { moves = planned_moves self.now.sheet.slots self.now.lanes write } }
    {
        let slots = self.slots();
        let lanes = self.lanes as u32;
        plan.clear();
        match write {
            Planned::Fill { slot, grain } => {
                plan_fill(
                    slots,
                    &self.directory,
                    self.place_of(slot),
                    LaneGrain {
                        place: grain.0 / lanes,
                        number: grain.0,
                    },
                    plan,
                );
            }
            Planned::Write { volume, grain } => {
                if let Some(place) = self.place_of_live(volume) {
                    plan_write(
                        slots,
                        &self.directory,
                        place,
                        LaneGrain {
                            place: grain.0 / lanes,
                            number: grain.0,
                        },
                        plan,
                    );
                }
            }
        }
    }

    /// Whether the slot is its volume as hosts see it.
    pub fn is_live(&self, slot: SlotId) -> bool
        requires { IsThere self.now.sheet.slots slot }
        ensures { (k : ℕ) → birth_place self.now.sheet.slots slot.0 ≡ Some k → result ≡ (slot_at self.now.sheet.slots k).is_live }
    {
        self.slots()[self.place_of(slot)].is_live()
    }

    /// The grains of the lane that the slot holds.
    pub fn held(&self, slot: SlotId) -> &GrainSet
        requires { IsThere self.now.sheet.slots slot }
        ensures { (k : ℕ) → birth_place self.now.sheet.slots slot.0 ≡ Some k → result.now ≡ (slot_at self.now.sheet.slots k).held }
    {
        self.slots()[self.place_of(slot)].held()
    }

    /// The number of the grain of a slot at a place among the lane's.
    pub fn number(&self, slot: SlotId, place: u32) -> u32
        requires there { IsThere self.now.sheet.slots slot }
        requires inside { (k : ℕ) → birth_place self.now.sheet.slots slot.0 ≡ Some k → place < length (slot_at self.now.sheet.slots k).held }
        ensures of_lane { IsOfLane self.now result }
        ensures place { in_lane self.now result ≡ place }
        ensures below { place + 1 < 2 ^ 32 }
    {
        let slots = self.slots();
        if place >= slots[self.place_of(slot)].grains() {
            unreachable!()
        }
        place * self.lanes as u32 + self.lane as u32
    }

    /// How many of the lane's grains the slot holds.
    pub fn held_count(&self, slot: SlotId) -> u32
        requires { IsThere self.now.sheet.slots slot }
        ensures { (k : ℕ) → birth_place self.now.sheet.slots slot.0 ≡ Some k → result ≡ count_set (slot_at self.now.sheet.slots k).held }
    {
        self.tallies.at(self.place_of(slot)).held
    }

    /// At how many of the lane's grains another slot needs the slot.
    pub fn need_count(&self, slot: SlotId) -> u32
        requires { IsThere self.now.sheet.slots slot }
        ensures { (k : ℕ) → birth_place self.now.sheet.slots slot.0 ≡ Some k → result ≡ need_count_of self.now.sheet.slots k }
    {
        self.tallies.at(self.place_of(slot)).needed
    }

    /// Whether the volume is used as a source: some slot of it has a live slot behind it in its chain. Such a
    /// volume becomes a target only with the option `-restore`.
    pub fn used(&self, volume: VolId) -> bool
        ensures { IsTrue result ↔ UsedAt self.now.sheet.slots volume.0 }
    {
        self.directory.is_source(self.slots(), volume.0)
    }

    /// The loop of the restore graph right after these pairs were triggered, as it is told; None exactly where there is no
    /// loop. Chains are tried on a copy without what slots hold.
    pub fn loop_of(&self, alloc: Global, pairs: &[Pair]) -> Result<Option<List<VolId>>, NoMemory>
        ensures { IfOk result (λ found. LoopAnswer (shape_of (triggered pairs.now self.now.sheet).slots) found) }
    {
        let mut rows = copy_rows(alloc, self.slots())?;
        trigger_rows(&mut rows, pairs)?;
        match loop_of_rows(alloc, &rows) {
            Ok(found) => Ok(found),
            Err(e) => Err(e),
        }
    }

    /// Adds the live slots other than this one that have it as holder at some grain of the lane, in order of
    /// their places. Refused, the list has the first of them.
    pub fn direct(&self, slot: SlotId, out: &mut List<SlotId>) -> Result<(), NoMemory>
        requires { IsThere self.now.sheet.slots slot }
        ensures ok { OnOk result ((k : ℕ) → birth_place self.now.sheet.slots slot.0 ≡ Some k → out.new ≡ out.old ++ names_below self.now.sheet.slots (is_direct self.now.sheet.slots k) (length self.now.sheet.slots)) }
        ensures err { OnErr result ((k : ℕ) → birth_place self.now.sheet.slots slot.0 ≡ Some k → AddsFront out.old (names_below self.now.sheet.slots (is_direct self.now.sheet.slots k) (length self.now.sheet.slots)) out.new) }
    {
        add_direct(self.table.alloc(), self.slots(), self.place_of(slot), out)
    }

    /// Adds the old slots that no slot needs at a grain of the lane, in order of their places. Refused, the list
    /// has the first of them.
    pub fn unneeded(&self, out: &mut List<SlotId>) -> Result<(), NoMemory>
        ensures ok { OnOk result (out.new ≡ out.old ++ names_below self.now.sheet.slots (is_unneeded self.now.sheet.slots) (length self.now.sheet.slots)) }
        ensures err { OnErr result (AddsFront out.old (names_below self.now.sheet.slots (is_unneeded self.now.sheet.slots) (length self.now.sheet.slots)) out.new) }
    {
        add_unneeded(self.slots(), &self.tallies, out)
    }
}
