//! The directory of slots: where the slot of a birth and of a mapping stand, and those of a volume; and how many volumes
//! there are.

ghost use Rattle.std.specs.Prelude.{◌≡◌, ◌<◌, ◌≤◌, List, length, [], OnOk, IfSome, IsTrue, ◌↔◌};
ghost use Rattle.fc_base.specs.Sheet.{Slot as SheetSlot, shape_of, live_place, mapping_place, birth_place};
ghost use Rattle.fc_base.specs.SheetFacts.{HasMappings};
ghost use Rattle.fc_base.specs.RestoreGraph.{HasOneLive};
ghost use Rattle.fc_base.specs.Counts.{UsedAt};
ghost use Rattle.fc_slots.specs.Contiguous.{IsContiguous};
ghost use Rattle.fc_places.specs.Olds.{HasApartBirths, NextOld};
ghost use Rattle.fc_places.specs.Directory.{volume_count};
ghost use Rattle.fc_places.specs.Indexing.{AreRising, ListsVolume};
ghost use Rattle.fc_places.specs.Directory.{ListsSlots, HasPlaces};

use crate::index::{By, Entry, Index};
use fc_base::outcome::NoMemory;
use fc_slots::slot::Slot;
use std::alloc::Global;
use std::marker::Model;

/// Lists of all slots by birth, by mapping and by volume, with room for more; and the number of volumes.
pub struct Directory {
    births: Index,
    mappings: Index,
    volumes: Index,
    count: usize,
}

impl Drop for Directory {
    // Written out, so that a function that drops it has one call for all of it in its proof.
    fn drop(self) {
        let Directory {
            births: _,
            mappings: _,
            volumes: _,
            count: _,
        } = self;
    }
}

impl Model for Directory {
    ghost use Rattle.fc_places.specs.Directory.{Directory as View, AreNamed};

    ghost Value = { View };

    ghost view = { λ d. record { births = d.births; mappings = d.mappings; volumes = d.volumes; count = d.count } };

    ghost invariant = { λ d. AreNamed (record { births = d.births; mappings = d.mappings; volumes = d.volumes; count = d.count }) };
}

impl Directory {
    /// Lists of no slots, with no room. Takes no memory.
    pub fn new(alloc: Global) -> Directory
        ensures births { result.births.entries ≡ [] }
        ensures mappings { result.mappings.entries ≡ [] }
        ensures volumes { result.volumes.entries ≡ [] }
        ensures count { result.count ≡ 0 }
    {
        Directory {
            births: Index::new(alloc, By::Birth),
            mappings: Index::new(alloc, By::Mapping),
            volumes: Index::new(alloc, By::Volume),
            count: 0,
        }
    }

    /// Room for so many slots in all. Refused, the lists are as they were, and may have some more room.
    pub fn make_room(&mut self, slots: usize) -> Result<(), NoMemory>
        ensures ok { OnOk result (HasPlaces slots self.new) }
        ensures births { self.new.births.entries ≡ self.old.births.entries }
        ensures mappings { self.new.mappings.entries ≡ self.old.mappings.entries }
        ensures volumes { self.new.volumes.entries ≡ self.old.volumes.entries }
        ensures count { self.new.count ≡ self.old.count }
        ensures births_room { self.old.births.room ≤ self.new.births.room }
        ensures mappings_room { self.old.mappings.room ≤ self.new.mappings.room }
        ensures volumes_room { self.old.volumes.room ≤ self.new.volumes.room }
    {
        self.births.make_room(slots)?;
        self.mappings.make_room(slots)?;
        self.volumes.make_room(slots)?;
        Ok(())
    }

    /// Lists all slots anew. Takes no memory.
    pub fn rebuild(&mut self, slots: &[Slot])
        requires { HasPlaces (length slots.now) self.old }
        ensures listed { ListsSlots slots.now self.new }
        ensures births_room { self.old.births.room ≤ self.new.births.room }
        ensures mappings_room { self.old.mappings.room ≤ self.new.mappings.room }
        ensures volumes_room { self.old.volumes.room ≤ self.new.volumes.room }
    {
        self.births.rebuild(slots);
        self.mappings.rebuild(slots);
        self.volumes.rebuild(slots);
        self.count = live_slots(slots);
    }

    /// How many volumes there are.
    pub fn volumes(&self) -> usize
        ensures { result ≡ self.now.count }
    {
        self.count
    }

    /// The place of the slot with this birth.
    pub fn born(&self, slots: &[Slot], birth: u64) -> Option<usize>
        requires listed { ListsSlots slots.now self.now }
        requires apart { HasApartBirths slots.now }
        ensures value { result ≡ birth_place slots.now birth }
        ensures bound { IfSome result (λ k. k < length slots.now) }
    {
        self.births.born(slots, birth)
    }

    /// The place of the mapping's slot.
    pub fn slot_of(&self, slots: &[Slot], mapping: u32) -> Option<usize>
        requires listed { ListsSlots slots.now self.now }
        requires mappings { HasMappings slots.now }
        ensures value { result ≡ mapping_place slots.now mapping }
        ensures bound { IfSome result (λ k. k < length slots.now) }
    {
        self.mappings.slot_of(slots, mapping)
    }

    /// The place of the volume's live slot.
    pub fn live(&self, slots: &[Slot], volume: u32) -> Option<usize>
        requires listed { ListsSlots slots.now self.now }
        requires one_live { HasOneLive (shape_of slots.now) }
        ensures value { result ≡ live_place slots.now volume }
        ensures bound { IfSome result (λ k. k < length slots.now) }
    {
        self.volumes.live(slots, volume)
    }

    /// The entries of the volume's slots, in the order of births.
    pub fn of_volume(&self, volume: u32) -> &[Entry]
        requires { AreRising self.now.volumes.entries }
        ensures { (slots : List SheetSlot) → ListsSlots slots self.now → ListsVolume slots volume result.now }
    {
        self.volumes.of_volume(volume)
    }

    /// Whether some slot of the volume has a live slot behind it in its chain.
    pub fn is_source(&self, slots: &[Slot], volume: u32) -> bool
        requires listed { ListsSlots slots.now self.now }
        requires together { IsContiguous slots.now }
        ensures { IsTrue result ↔ UsedAt slots.now volume }
    {
        self.volumes.is_source(slots, volume)
    }

    /// The old slot of the volume with the least birth after one, or after none.
    pub fn next_old(&self, slots: &[Slot], volume: u32, after: Option<u64>) -> Option<usize>
        requires listed { ListsSlots slots.now self.now }
        requires apart { HasApartBirths slots.now }
        ensures { NextOld slots.now volume after result }
    {
        self.volumes.next_old(slots, volume, after)
    }
}

/// How many slots are live: each volume has one.
fn live_slots(slots: &[Slot]) -> usize
    ensures { result ≡ volume_count slots.now }
{
    slots.iter().filter(|slot| slot.is_live()).count()
}
