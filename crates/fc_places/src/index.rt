//! Where slots stand, listed in the order of births, of mappings or of volumes, so that a search halves the list.

ghost use Rattle.std.specs.Prelude.{◌≡◌, ℕ, ◌+◌, ◌<◌, ◌≤◌, ◌++◌, [], ◌∷◌, List, length, vec_len, vec_capacity, OnOk, IfSome, IsTrue, ◌↔◌};
ghost use Rattle.std.specs.List.Sorted.{IsPermutation};
ghost use Rattle.fc_base.specs.Sheet.{Slot as SheetSlot, slot_at, shape_of, live_place, mapping_place, birth_place};
ghost use Rattle.fc_base.specs.SheetFacts.{HasMappings};
ghost use Rattle.fc_base.specs.RestoreGraph.{HasOneLive};
ghost use Rattle.fc_base.specs.Counts.{UsedAt};
ghost use Rattle.fc_slots.specs.Contiguous.{IsContiguous};
ghost use Rattle.fc_places.specs.Olds.{HasApartBirths, NextOld};
ghost use Rattle.fc_places.specs.Indexing.{key_at, IsIndexOf, ListsBelow, AreRising, is_before as comes_before, IsFirstFrom, FoundKey, ListsVolume};
ghost use Rattle.fc_places.specs.declared.index.By.TheVariants.{Birth, Mapping, Volume};

use crate::mend::mend;
use fc_base::outcome::NoMemory;
use fc_slots::slot::Slot;
use fc_slots::walk::has_live_behind;
use std::alloc::Global;
use std::marker::Model;

/// By what slots are listed.
#[derive(Clone, Copy)]
pub enum By {
    /// By birth: each slot.
    Birth,
    /// By mapping: each slot that is a mapping's.
    Mapping,
    /// By volume: each slot.
    Volume,
}

/// A slot in a list: the number by which it is listed, its birth, and its place among the slots.
#[derive(Clone, Copy, PartialEq, Eq, PartialOrd, Ord)]
pub struct Entry {
    pub(crate) key: u64,
    pub(crate) birth: u64,
    /// The slot's place among the slots, counted from 0.
    pub place: usize,
}

/// The slots in the order of one number each, and with one number in the order of births.
pub(crate) struct Index {
    by: By,
    entries: Vec<Entry>,
}

impl Drop for Index {
    // Written out, so that a function that drops it has one call for all of it in its proof.
    fn drop(self) {
        let Index { by: _, entries: _ } = self;
    }
}

impl Model for Index {
    ghost use Rattle.std.specs.Prelude.{vec_capacity};
    ghost use Rattle.fc_places.specs.Indexing.{Index as View};

    ghost Value = { View };

    ghost view = { λ x. record { by = x.by; entries = x.entries.items; room = vec_capacity x.entries } };
}

/// The number by which the slot is listed, if it has one.
pub(crate) fn key_of(slot: &Slot, by: By) -> Option<u64>
    ensures { result ≡ key_at by slot.now }
{
    match by {
        By::Birth => Some(slot.birth()),
        By::Mapping => slot.mapping().map(u64::from),
        By::Volume => Some(u64::from(slot.volume())),
    }
}

/// Puts the entries in order.
fn sort(entries: &mut [Entry])
    ensures same { IsPermutation entries.old entries.new }
    ensures rising { AreRising entries.new }
{
    entries.sort_unstable();
}

/// Adds an entry, for which there is room.
fn put(entries: &mut Vec<Entry>, entry: Entry)
    requires { vec_len entries.old < vec_capacity entries.old }
    ensures items { entries.new.items ≡ entries.old.items ++ entry ∷ [] }
    ensures room { vec_capacity entries.old ≤ vec_capacity entries.new }
{
    match entries.push(entry) {
        Ok(()) => {}
        Err(_) => unreachable!(),
    }
}

/// Whether the entry stands before those with this key that are born at a number or later.
pub(crate) fn is_before(entry: Entry, key: u64, birth: u64) -> bool
    ensures { result ≡ comes_before key birth entry }
{
    entry.key < key || entry.key == key && entry.birth < birth
}

/// The first entry with this key that is born at a number or later, or where it would stand.
fn first_from(entries: &[Entry], key: u64, birth: u64) -> usize
    requires { AreRising entries.now }
    ensures { IsFirstFrom entries.now key birth result }
{
    let mut low = 0;
    let mut high = entries.len();
    while low < high {
        let middle = low + (high - low) / 2;
        if is_before(entries[middle], key, birth) {
            low = middle + 1;
        } else {
            high = middle;
        }
    }
    low
}

/// Lists all slots that have a key, in the order of their places.
fn list_all(slots: &[Slot], by: By, entries: &mut Vec<Entry>)
    requires empty { entries.old.items ≡ [] }
    requires room { length slots.now ≤ vec_capacity entries.old }
    ensures listed { ListsBelow slots.now by (length slots.now) entries.new.items }
    ensures room { vec_capacity entries.old ≤ vec_capacity entries.new }
{
    for (place, slot) in slots.iter().enumerate() {
        if let Some(key) = key_of(slot, by) {
            put(
                entries,
                Entry {
                    key,
                    birth: slot.birth(),
                    place,
                },
            );
        }
    }
}

/// The place with this key, if one is listed.
fn find(entries: &[Entry], key: u64) -> Option<usize>
    requires { AreRising entries.now }
    ensures { FoundKey entries.now key result }
{
    let at = first_from(entries, key, 0);
    if at < entries.len() && entries[at].key == key {
        return Some(entries[at].place);
    }
    None
}

impl Index {
    /// An empty list, with no room. Takes no memory.
    pub(crate) fn new(alloc: Global, by: By) -> Index
        ensures by { result.by ≡ by }
        ensures empty { result.entries ≡ [] }
    {
        Index {
            by,
            entries: Vec::new(alloc),
        }
    }

    /// Room for so many slots in all. Refused, the list is as it was.
    pub(crate) fn make_room(&mut self, slots: usize) -> Result<(), NoMemory>
        ensures ok { OnOk result (slots ≤ self.new.room) }
        ensures by { self.new.by ≡ self.old.by }
        ensures same { self.new.entries ≡ self.old.entries }
        ensures room { self.old.room ≤ self.new.room }
    {
        if self.entries.reserve(slots).is_err() {
            return Err(NoMemory);
        }
        Ok(())
    }

    /// Lists all slots anew: the list that was there is mended, if that is enough, and else sorted. Takes no memory.
    pub(crate) fn rebuild(&mut self, slots: &[Slot])
        requires { length slots.now ≤ self.old.room }
        ensures index { IsIndexOf slots.now self.old.by self.new.entries }
        ensures by { self.new.by ≡ self.old.by }
        ensures room { self.old.room ≤ self.new.room }
    {
        if mend(&mut self.entries, slots, self.by) {
            return;
        }
        self.entries.clear();
        list_all(slots, self.by, &mut self.entries);
        sort(&mut self.entries);
    }

    /// The place of the slot with this birth.
    pub(crate) fn born(&self, slots: &[Slot], birth: u64) -> Option<usize>
        requires index { IsIndexOf slots.now Birth self.now.entries }
        requires apart { HasApartBirths slots.now }
        ensures value { result ≡ birth_place slots.now birth }
        ensures bound { IfSome result (λ k. k < length slots.now) }
    {
        find(&self.entries, birth)
    }

    /// The place of the mapping's slot.
    pub(crate) fn slot_of(&self, slots: &[Slot], mapping: u32) -> Option<usize>
        requires index { IsIndexOf slots.now Mapping self.now.entries }
        requires mappings { HasMappings slots.now }
        ensures value { result ≡ mapping_place slots.now mapping }
        ensures bound { IfSome result (λ k. k < length slots.now) }
    {
        find(&self.entries, u64::from(mapping))
    }

    /// The place of the volume's live slot.
    pub(crate) fn live(&self, slots: &[Slot], volume: u32) -> Option<usize>
        requires index { IsIndexOf slots.now Volume self.now.entries }
        requires one_live { HasOneLive (shape_of slots.now) }
        ensures value { result ≡ live_place slots.now volume }
        ensures bound { IfSome result (λ k. k < length slots.now) }
    {
        let key = u64::from(volume);
        let mut at = first_from(&self.entries, key, 0);
        while at < self.entries.len() && self.entries[at].key == key {
            let place = self.entries[at].place;
            if slots[place].is_live() {
                return Some(place);
            }
            at += 1;
        }
        None
    }

    /// The entries of the volume's slots, in the order of births.
    pub(crate) fn of_volume(&self, volume: u32) -> &[Entry]
        requires { AreRising self.now.entries }
        ensures { (slots : List SheetSlot) → IsIndexOf slots Volume self.now.entries → ListsVolume slots volume result.now }
    {
        let key = u64::from(volume);
        let from = first_from(&self.entries, key, 0);
        let to = first_from(&self.entries, key + 1, 0);
        &self.entries[from..to]
    }

    /// Whether some slot of the volume has a live slot behind it in its chain.
    pub(crate) fn is_source(&self, slots: &[Slot], volume: u32) -> bool
        requires index { IsIndexOf slots.now Volume self.now.entries }
        requires together { IsContiguous slots.now }
        ensures { IsTrue result ↔ UsedAt slots.now volume }
    {
        let key = u64::from(volume);
        let mut at = first_from(&self.entries, key, 0);
        while at < self.entries.len() && self.entries[at].key == key {
            if has_live_behind(slots, self.entries[at].place) {
                return true;
            }
            at += 1;
        }
        false
    }

    /// The old slot of the volume with the least birth after one, or after none.
    pub(crate) fn next_old(&self, slots: &[Slot], volume: u32, after: Option<u64>) -> Option<usize>
        requires index { IsIndexOf slots.now Volume self.now.entries }
        requires apart { HasApartBirths slots.now }
        ensures { NextOld slots.now volume after result }
    {
        let key = u64::from(volume);
        let mut at = first_from(&self.entries, key, after.unwrap_or(0));
        while at < self.entries.len() && self.entries[at].key == key {
            let place = self.entries[at].place;
            if slots[place].is_old_after(volume, after) {
                return Some(place);
            }
            at += 1;
        }
        None
    }
}
