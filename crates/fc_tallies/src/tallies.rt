//! The counts of all slots, kept by place, with room for more slots.

ghost use Rattle.std.specs.Prelude.{◌≡◌, ℕ, ◌<◌, ◌≤◌, [], length, OnOk, true};
ghost use Rattle.fc_bits.specs.Words.{words_for};
ghost use Rattle.fc_base.specs.Sheet.{slot_at};
ghost use Rattle.fc_base.specs.SheetFits.{FitsTaken, FitsLost};
ghost use Rattle.fc_base.specs.SheetStep.{sheet_written, sheet_moved, sheet_torn};
ghost use Rattle.fc_base.specs.declared.request.Side.TheVariants.{Under};
ghost use Rattle.fc_slots.specs.Contiguous.{IsContiguous};
ghost use Rattle.fc_places.specs.Directory.{ListsSlots};
ghost use Rattle.fc_tallies.specs.Tallies.{tally_at, AreTallies, AreOneSize, Countable};

use crate::pairs;
use crate::tally::{NO_TALLY, Tally, recount};
use fc_base::outcome::NoMemory;
use fc_events::table::SlotTable;
use fc_places::directory::Directory;
use fc_slots::slot::Slot;
use std::alloc::Global;
use std::marker::Model;

/// The counts of the slots by place, some free for more slots, and words for one pass over their grains.
pub struct Tallies {
    kept: Vec<Tally>,
    waiting: Vec<u64>,
}

impl Drop for Tallies {
    // Written out, so that a function that drops it has one call for all of it in its proof.
    fn drop(self) {
        let Tallies {
            kept: _,
            waiting: _,
        } = self;
    }
}

impl Model for Tallies {
    ghost use Rattle.std.specs.Prelude.{length};
    ghost use Rattle.fc_tallies.specs.Ledger.{Ledger};

    ghost Value = { Ledger };

    ghost view = { λ t. record { tallies = t.kept.items; words = length t.waiting.items } };
}

impl Tallies {
    /// No counts, and no room for any. Takes no memory.
    pub fn new(alloc: Global) -> Tallies
        ensures { result ≡ record { tallies = []; words = 0 } }
    {
        Tallies {
            kept: Vec::new(alloc),
            waiting: Vec::new(alloc),
        }
    }

    /// The counts of the slot at a place.
    pub fn at(&self, place: usize) -> Tally
        requires { place < length self.now.tallies }
        ensures { result ≡ tally_at self.now.tallies place }
    {
        self.kept[place]
    }

    /// Room for so many slots in all, and for so many words. The counts that are there stay. Refused, it may have some
    /// more room.
    pub fn make_room(&mut self, slots: usize, words: usize) -> Result<(), NoMemory>
        ensures slots { OnOk result (slots ≤ length self.new.tallies) }
        ensures words { OnOk result (words ≤ self.new.words) }
        ensures stay { (k : ℕ) → k < length self.old.tallies → tally_at self.new.tallies k ≡ tally_at self.old.tallies k }
        ensures slots_stay { length self.old.tallies ≤ length self.new.tallies }
        ensures words_stay { self.old.words ≤ self.new.words }
    {
        let slots = slots.max(self.kept.len());
        let words = words.max(self.waiting.len());
        if self.kept.resize(slots, NO_TALLY).is_err() {
            return Err(NoMemory);
        }
        if self.waiting.resize(words, 0).is_err() {
            return Err(NoMemory);
        }
        Ok(())
    }

    /// Counts anew for all slots. Takes no memory.
    pub fn recount(&mut self, slots: &[Slot])
        requires room { length slots.now ≤ length self.old.tallies }
        requires words { (k : ℕ) → k < length slots.now → words_for (length (slot_at slots.now k).held) ≤ self.old.words }
        requires together { IsContiguous slots.now }
        requires sizes { AreOneSize slots.now }
        ensures tallied { AreTallies slots.now self.new.tallies }
        ensures slots { length self.new.tallies ≡ length self.old.tallies }
        ensures words { self.new.words ≡ self.old.words }
    {
        recount(slots, &mut self.waiting, &mut self.kept);
    }

    /// The volume's live slot gets the grain, and its older slots lose it.
    pub fn take(&mut self, table: &mut SlotTable, directory: &Directory, volume: u32, grain: u32)
        requires listed { ListsSlots table.old.sheet.slots directory.now }
        requires countable { Countable table.old.sheet.slots }
        requires fits { FitsTaken table.old.sheet.slots volume grain }
        requires room { length table.old.sheet.slots ≤ length self.old.tallies }
        requires tallied { AreTallies table.old.sheet.slots self.old.tallies }
        ensures table { table.new ≡ record table.old { sheet = sheet_written volume grain table.old.sheet } }
        ensures tallied { AreTallies table.new.sheet.slots self.new.tallies }
        ensures slots { length self.new.tallies ≡ length self.old.tallies }
        ensures words { self.new.words ≡ self.old.words }
    {
        pairs::take(table, &mut self.kept, directory, volume, grain);
    }

    /// The volume's live slot gets the grain, and nothing else changes.
    pub fn keep(&mut self, table: &mut SlotTable, directory: &Directory, volume: u32, grain: u32)
        requires listed { ListsSlots table.old.sheet.slots directory.now }
        requires countable { Countable table.old.sheet.slots }
        requires room { length table.old.sheet.slots ≤ length self.old.tallies }
        requires tallied { AreTallies table.old.sheet.slots self.old.tallies }
        ensures table { table.new ≡ record table.old { sheet = sheet_moved volume grain true table.old.sheet } }
        ensures tallied { AreTallies table.new.sheet.slots self.new.tallies }
        ensures slots { length self.new.tallies ≡ length self.old.tallies }
        ensures words { self.new.words ≡ self.old.words }
    {
        pairs::keep(table, &mut self.kept, directory, volume, grain);
    }

    /// The volume's older slots lose the grain.
    pub fn lose(&mut self, table: &mut SlotTable, directory: &Directory, volume: u32, grain: u32)
        requires listed { ListsSlots table.old.sheet.slots directory.now }
        requires countable { Countable table.old.sheet.slots }
        requires fits { FitsLost table.old.sheet.slots volume grain }
        requires room { length table.old.sheet.slots ≤ length self.old.tallies }
        requires tallied { AreTallies table.old.sheet.slots self.old.tallies }
        ensures table { table.new ≡ record table.old { sheet = sheet_torn volume grain Under table.old.sheet } }
        ensures tallied { AreTallies table.new.sheet.slots self.new.tallies }
        ensures slots { length self.new.tallies ≡ length self.old.tallies }
        ensures words { self.new.words ≡ self.old.words }
    {
        pairs::lose(table, &mut self.kept, directory, volume, grain);
    }
}
