//! The sheet, and the parts of its changes.

ghost use Rattle.std.specs.Prelude.{◌≡◌, ℕ, ◌+◌, ◌<◌, ◌≤◌, [], ◌∷◌, ◌++◌, length, map, insert, replicate, false, IfOk, OnOk};
ghost use Rattle.fc_base.specs.Sheet.{no_slots, slot_at};
ghost use Rattle.fc_base.specs.SheetStep.{with_chain, without, aged, placed, split_at, grain_taken, grain_kept, grain_lost};
ghost use Rattle.fc_books.specs.After.{holding};

use crate::hold::{keep_grain, lose_grain, split_chain, take_grain};
use fc_base::outcome::NoMemory;
use model_slots::slot::Slot;
use std::alloc::Global;
use std::marker::Model;

/// The slots of all chains, in a plain list.
#[derive(Drop)]
pub struct PlainSheet {
    births: u64,
    slots: Vec<Slot>,
}

impl Model for PlainSheet {
    ghost use Rattle.fc_base.specs.Sheet.{Sheet};

    ghost Value = { Sheet };

    ghost view = { λ s. record { births = s.births; slots = s.slots.items } };
}

impl PlainSheet {
    /// No volumes, and no births given. Takes no memory.
    pub fn new(alloc: Global) -> PlainSheet
        ensures { result ≡ no_slots }
    {
        PlainSheet {
            births: 0,
            slots: Vec::new(alloc),
        }
    }

    /// These slots, with so many births given. Takes no memory.
    pub fn of(births: u64, slots: Vec<Slot>) -> PlainSheet
        ensures { result ≡ record { births = births; slots = slots.items } }
    {
        PlainSheet { births, slots }
    }

    /// Another sheet like it.
    pub fn copy(&self, alloc: Global) -> Result<PlainSheet, NoMemory>
        ensures { IfOk result (λ s. s ≡ self.now) }
    {
        let slots = copies(alloc, self.slots.as_slice())?;
        Ok(PlainSheet {
            births: self.births,
            slots,
        })
    }

    /// How many births were given.
    pub(crate) fn births_given(&self) -> u64
        ensures { result ≡ self.now.births }
    {
        self.births
    }

    /// The slots.
    pub(crate) fn slots(&self) -> &[Slot]
        ensures { result.now ≡ self.now.slots }
    {
        self.slots.as_slice()
    }

    /// A chain of one live slot of the volume, which holds all of so many grains. Refused also where no birth is left;
    /// the sheet is as it was.
    pub(crate) fn add_chain(
        &mut self,
        alloc: Global,
        volume: u32,
        grains: usize,
    ) -> Result<(), NoMemory>
        ensures { OnOk result (self.new ≡ with_chain volume grains self.old) }
    {
        let births = next_birth(self.births)?;
        let slot = Slot::alone(alloc, self.births, volume, grains)?;
        push_slot(&mut self.slots, slot)?;
        self.births = births;
        Ok(())
    }

    /// A new live slot of the volume, the mapping's, directly behind the slot at a place, in its chain. It holds none of so
    /// many grains. Refused also where no birth is left.
    pub(crate) fn put_behind(
        &mut self,
        alloc: Global,
        place: usize,
        volume: u32,
        mapping: u32,
        grains: usize,
    ) -> Result<(), NoMemory>
        requires { place < length self.old.slots }
        ensures { OnOk result (self.new ≡ placed volume mapping (replicate grains false) place self.old) }
    {
        let births = next_birth(self.births)?;
        let chain = self.slots[place].chain();
        let slot = Slot::target(alloc, self.births, chain, volume, mapping, grains)?;
        insert_slot(&mut self.slots, place + 1, slot)?;
        self.births = births;
        Ok(())
    }

    /// The slot at a place is taken out.
    pub(crate) fn take_out(&mut self, place: usize)
        requires { place < length self.old.slots }
        ensures { self.new ≡ without place self.old }
    {
        let _slot = self.slots.remove(place);
    }

    /// The slot at a place becomes old, and stays where it stands.
    pub(crate) fn age(&mut self, place: usize)
        requires { place < length self.old.slots }
        ensures { self.new ≡ aged place self.old }
    {
        self.slots[place].age();
    }

    /// The slot at a place and all behind it in its chain become a chain of their own, and the slot is no mapping's any
    /// more.
    pub(crate) fn split(&mut self, place: usize)
        requires { place < length self.old.slots }
        ensures { self.new ≡ split_at place self.old }
    {
        split_chain(&mut self.slots, place);
    }

    /// The slot at a place holds the grains of a set, and no others.
    pub(crate) fn hold_only(&mut self, place: usize, set: &[bool])
        requires { place < length self.old.slots }
        ensures { self.new ≡ holding set.now place self.old }
    {
        self.slots[place].hold_only(set);
    }

    /// The volume's live slot gets the grain, and its older slots lose it.
    pub(crate) fn take(&mut self, volume: u32, grain: usize)
        ensures { self.new ≡ record self.old { slots = map (grain_taken volume grain) self.old.slots } }
    {
        take_grain(&mut self.slots, volume, grain);
    }

    /// The volume's live slot gets the grain, and nothing else changes.
    pub(crate) fn keep(&mut self, volume: u32, grain: usize)
        ensures { self.new ≡ record self.old { slots = map (grain_kept volume grain) self.old.slots } }
    {
        keep_grain(&mut self.slots, volume, grain);
    }

    /// The volume's older slots lose the grain.
    pub(crate) fn lose(&mut self, volume: u32, grain: usize)
        ensures { self.new ≡ record self.old { slots = map (grain_lost volume grain) self.old.slots } }
    {
        lose_grain(&mut self.slots, volume, grain);
    }
}

/// How many births there are after one more; none is left after 2^64 - 1.
fn next_birth(births: u64) -> Result<u64, NoMemory>
    ensures { IfOk result (λ next. next ≡ births + 1) }
{
    match births.checked_add(1) {
        Some(next) => Ok(next),
        None => Err(NoMemory),
    }
}

/// Puts a slot at the end.
fn push_slot(slots: &mut Vec<Slot>, slot: Slot) -> Result<(), NoMemory>
    ensures { OnOk result (slots.new.items ≡ slots.old.items ++ slot ∷ []) }
{
    match slots.push(slot) {
        Ok(()) => Ok(()),
        Err(_) => Err(NoMemory),
    }
}

/// Puts a slot at a place, and all from there on one place further.
fn insert_slot(slots: &mut Vec<Slot>, place: usize, slot: Slot) -> Result<(), NoMemory>
    requires { place ≤ length slots.old.items }
    ensures { OnOk result (slots.new.items ≡ insert slots.old.items place slot) }
{
    match slots.insert(place, slot) {
        Ok(()) => Ok(()),
        Err(_) => Err(NoMemory),
    }
}

/// Copies of slots.
fn copies(alloc: Global, slots: &[Slot]) -> Result<Vec<Slot>, NoMemory>
    ensures { IfOk result (λ copies. copies.items ≡ slots.now) }
{
    let mut copies = Vec::new(alloc);
    for slot in slots {
        push_slot(&mut copies, slot.copy(alloc)?)?;
    }
    Ok(copies)
}
