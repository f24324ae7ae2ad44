//! The slots of all chains, with room for new ones.

ghost use Rattle.std.specs.Prelude.{◌≡◌, ℕ, ◌+◌, ◌-◌, ◌^◌, ◌<◌, ◌≤◌, length, replicate, OnOk, OnErr, IfOk, false, true, slice_index_or, take, [], max};
ghost use Rattle.fc_base.specs.Sheet.{no_slots, slot_at};
ghost use Rattle.fc_base.specs.SheetStep.{with_chain, without, aged, placed, split_at, sheet_written, sheet_moved, sheet_torn};
ghost use Rattle.fc_base.specs.declared.request.Side.TheVariants.{Under};
ghost use Rattle.fc_places.specs.Indexing.{ListsVolume};

use crate::hold::{keep_grain, lose_grain, take_grain};
use fc_base::outcome::NoMemory;
use fc_bits::GrainSet;
use fc_places::index::Entry;
use fc_slots::slot::Slot;
use fc_slots::split::split_chain;
use std::alloc::Global;
use std::marker::Model;

/// The slots of all chains, those of one chain in their order, and a spare set of grains for each slot that can be made
/// without taking memory. All spare sets have `width` grains, and no slot has more.
pub struct SlotTable {
    births: u64,
    slots: Vec<Slot>,
    spare: Vec<GrainSet>,
    width: u32,
}

impl Drop for SlotTable {
    // Written out, so that a function that drops it has one call for all of it in its proof.
    fn drop(self) {
        let SlotTable {
            births: _,
            slots: _,
            spare: _,
            width: _,
        } = self;
    }
}

impl Model for SlotTable {
    ghost use Rattle.std.specs.Prelude.{length, vec_capacity};
    ghost use Rattle.fc_events.specs.Table.{Table, IsRoomy};

    ghost Value = { Table };

    ghost view = { λ t. record { sheet = record { births = t.births; slots = t.slots.items }; room = length t.spare.items; width = t.width } };

    ghost invariant = { λ t. IsRoomy t.slots.items t.spare.items t.width (vec_capacity t.slots) };
}

impl SlotTable {
    /// No slots, and no room for any. Takes no memory.
    pub fn new(alloc: Global) -> SlotTable
        ensures { result ≡ record { sheet = no_slots; room = 0; width = 0 } }
    {
        SlotTable {
            births: 0,
            slots: Vec::new(alloc),
            spare: Vec::new(alloc),
            width: 0,
        }
    }

    /// Where memory is taken from.
    pub fn alloc(&self) -> Global {
        *self.slots.allocator()
    }

    /// How many grains a slot that is made can have.
    pub fn width(&self) -> u32
        ensures { result ≡ self.now.width }
    {
        self.width
    }

    /// How many births were given: the birth of the next slot.
    pub fn births(&self) -> u64
        ensures { result ≡ self.now.sheet.births }
    {
        self.births
    }

    /// The slots, none of which has more grains than `width`.
    pub fn as_slice(&self) -> &[Slot]
        ensures value { result.now ≡ self.now.sheet.slots }
        ensures wide { (k : ℕ) → k < length result.now → length (slot_at result.now k).held ≤ self.now.width }
    {
        self.slots.as_slice()
    }

    /// The slot at a place.
    pub fn at(&self, place: usize) -> &Slot
        requires { place < length self.now.sheet.slots }
        ensures value { result.now ≡ slot_at self.now.sheet.slots place }
        ensures wide { length result.now.held ≤ self.now.width }
    {
        &self.slots[place]
    }

    /// The volume's live slot gets the grain, and its older slots lose it.
    pub fn take(&mut self, entries: &[Entry], volume: u32, grain: u32)
        requires { ListsVolume self.old.sheet.slots volume entries.now }
        ensures { self.new ≡ record self.old { sheet = sheet_written volume grain self.old.sheet } }
    {
        take_grain(&mut self.slots, entries, volume, grain);
    }

    /// The volume's live slot gets the grain, and nothing else changes.
    pub fn keep(&mut self, entries: &[Entry], volume: u32, grain: u32)
        requires { ListsVolume self.old.sheet.slots volume entries.now }
        ensures { self.new ≡ record self.old { sheet = sheet_moved volume grain true self.old.sheet } }
    {
        keep_grain(&mut self.slots, entries, volume, grain);
    }

    /// The volume's older slots lose the grain.
    pub fn lose(&mut self, entries: &[Entry], volume: u32, grain: u32)
        requires { ListsVolume self.old.sheet.slots volume entries.now }
        ensures { self.new ≡ record self.old { sheet = sheet_torn volume grain Under self.old.sheet } }
    {
        lose_grain(&mut self.slots, entries, volume, grain);
    }

    /// Room for so many more slots, each of at most so many grains. Room that was there stays. Refused, the table is as
    /// it was.
    pub fn make_room(&mut self, slots: usize, grains: u32) -> Result<(), NoMemory>
        ensures ok { OnOk result ((slots ≤ self.new.room) × (grains ≤ self.new.width)) }
        ensures same { self.new.sheet ≡ self.old.sheet }
        ensures room_stays { self.old.room ≤ self.new.room }
        ensures width_stays { self.old.width ≤ self.new.width }
        ensures width { self.new.width ≤ max self.old.width grains }
        ensures err { OnErr result (self.new ≡ self.old) }
    {
        if grains > self.width {
            self.widen(slots, grains)
        } else if slots > self.spare.len() {
            self.top_up(slots)
        } else {
            Ok(())
        }
    }

    /// New spare sets of so many grains in place of those that are there, as many as are wanted or more.
    fn widen(&mut self, slots: usize, grains: u32) -> Result<(), NoMemory>
        requires { self.old.width < grains }
        ensures ok { OnOk result ((slots ≤ self.new.room) × (self.new.width ≡ grains)) }
        ensures same { self.new.sheet ≡ self.old.sheet }
        ensures room_stays { self.old.room ≤ self.new.room }
        ensures err { OnErr result (self.new ≡ self.old) }
    {
        let count = slots.max(self.spare.len());
        let spare = clear_sets(*self.slots.allocator(), count, grains)?;
        if self.slots.reserve(count).is_err() {
            return Err(NoMemory);
        }
        self.spare = spare;
        self.width = grains;
        Ok(())
    }

    /// More spare sets, so that there are as many as are wanted.
    fn top_up(&mut self, slots: usize) -> Result<(), NoMemory>
        requires { self.old.room < slots }
        ensures ok { OnOk result (self.new ≡ record self.old { room = slots }) }
        ensures err { OnErr result (self.new ≡ self.old) }
    {
        let count = slots - self.spare.len();
        let mut more = clear_sets(*self.slots.allocator(), count, self.width)?;
        if self.slots.reserve(slots).is_err() || self.spare.append(&mut more).is_err() {
            return Err(NoMemory);
        }
        Ok(())
    }

    /// A chain of one live slot of the volume, which holds all of so many grains.
    pub(crate) fn add_chain(&mut self, volume: u32, grains: u32)
        requires births { self.old.sheet.births + 1 < 2 ^ 64 }
        requires room { 0 < self.old.room }
        requires wide { grains ≤ self.old.width }
        ensures { self.new ≡ record self.old { sheet = with_chain volume grains self.old.sheet; room = self.old.room - 1 } }
    {
        let set = spare_set(&mut self.spare, grains);
        let slot = Slot::alone(self.births, volume, set);
        match self.slots.push(slot) {
            Ok(()) => self.births += 1,
            Err(_) => unreachable!(),
        }
    }

    /// A new live slot of the volume, the mapping's, directly behind the slot at a place, in its chain. It holds none of so
    /// many grains.
    pub(crate) fn put_behind(&mut self, place: usize, volume: u32, mapping: u32, grains: u32)
        requires there { place < length self.old.sheet.slots }
        requires births { self.old.sheet.births + 1 < 2 ^ 64 }
        requires room { 0 < self.old.room }
        requires wide { grains ≤ self.old.width }
        ensures { self.new ≡ record self.old { sheet = placed volume mapping (replicate grains false) place self.old.sheet; room = self.old.room - 1 } }
    {
        let set = spare_set(&mut self.spare, grains);
        let slot = Slot::target(self.births, self.slots[place].chain(), volume, mapping, set);
        match self.slots.insert(place + 1, slot) {
            Ok(()) => self.births += 1,
            Err(_) => unreachable!(),
        }
    }

    /// The slot at a place is taken out.
    pub(crate) fn take_out(&mut self, place: usize)
        requires { place < length self.old.sheet.slots }
        ensures { self.new ≡ record self.old { sheet = without place self.old.sheet } }
    {
        let _slot = self.slots.remove(place);
    }

    /// The slot at a place becomes old, and stays where it stands.
    pub(crate) fn age(&mut self, place: usize)
        requires { place < length self.old.sheet.slots }
        ensures { self.new ≡ record self.old { sheet = aged place self.old.sheet } }
    {
        self.slots[place].age();
    }

    /// The slot at a place and all behind it in its chain become a chain of their own, and the slot is no mapping's any
    /// more.
    pub(crate) fn split(&mut self, place: usize)
        requires { place < length self.old.sheet.slots }
        ensures { self.new ≡ record self.old { sheet = split_at place self.old.sheet } }
    {
        split_chain(&mut self.slots, place);
    }
}

/// A spare set, cut to so many grains, with none of them in it.
fn spare_set(spare: &mut Vec<GrainSet>, grains: u32) -> GrainSet
    requires there { 0 < length spare.old.items }
    requires wide { grains ≤ length (slice_index_or spare.old.items (length spare.old.items - 1) []) }
    ensures value { result ≡ replicate grains false }
    ensures rest { spare.new.items ≡ take (length spare.old.items - 1) spare.old.items }
{
    match spare.pop() {
        Some(mut set) => {
            set.reset(grains);
            set
        }
        None => unreachable!(),
    }
}

/// So many sets of so many grains each, with none of them in it.
fn clear_sets(alloc: Global, count: usize, grains: u32) -> Result<Vec<GrainSet>, NoMemory>
    ensures { IfOk result (λ sets. sets.items ≡ replicate count (replicate grains false)) }
{
    let Ok(mut sets) = Vec::with_capacity(alloc, count) else {
        return Err(NoMemory);
    };
    for _made in 0..count {
        if sets.push(GrainSet::new(alloc, grains)?).is_err() {
            return Err(NoMemory);
        }
    }
    Ok(sets)
}
