//! A story: events, copies and writes over a sheet of all grains, with the moves that they made.

use fc_base::decision::LaneEvent;
use fc_base::disk::DiskKind;
use fc_base::ids::{GrainNo, MapId, SlotId, VolId};
use fc_base::list::List;
use fc_base::outcome::NoMemory;
use fc_base::request::{Move, Pair};
use fc_model::PlainSheet;
use std::alloc::Global;

/// A move as it is told: slot, volume, grain, and whether it is in place.
pub type Told = (u64, u32, u32, bool);

/// Where a volume is read: volume, grain, and the slot.
pub type Read = (u32, u32, u64);

/// A sheet, and the moves so far.
#[derive(Drop)]
pub struct Story {
    alloc: Global,
    /// The sheet.
    pub sheet: PlainSheet,
    moves: List<Move>,
}

/// A pair of a trigger.
pub fn pair(map: u32, source: u32, target: u32) -> Pair {
    Pair {
        map: MapId(map),
        source: VolId(source),
        target: VolId(target),
        incremental: false,
    }
}

impl Story {
    /// Volumes of so many grains each, with ids from 0.
    pub fn of(alloc: Global, volumes: u32, grains: u32) -> Result<Story, NoMemory> {
        let mut story = Story {
            alloc,
            sheet: PlainSheet::new(alloc),
            moves: List::new(alloc),
        };
        for volume in 0..volumes {
            story.event(&LaneEvent::Make {
                volume: VolId(volume),
                grains,
                kind: DiskKind::Flat,
            })?;
        }
        Ok(story)
    }

    /// Volumes of so many grains each, with ids from 0, each but the first a copy of the one before; the
    /// mapping of a copy has the id of its source.
    pub fn cascade(alloc: Global, volumes: u32, grains: u32) -> Result<Story, NoMemory> {
        let mut story = Story::of(alloc, volumes, grains)?;
        for target in 1..volumes {
            story.start(&[pair(target - 1, target - 1, target)])?;
        }
        Ok(story)
    }

    /// Such a cascade, of which one volume was written at its first grain.
    pub fn written(
        alloc: Global,
        volumes: u32,
        grains: u32,
        volume: u32,
    ) -> Result<Story, NoMemory> {
        let mut story = Story::cascade(alloc, volumes, grains)?;
        story.write(volume, 0)?;
        Ok(story)
    }

    /// An event happens.
    fn event(&mut self, event: &LaneEvent) -> Result<(), NoMemory> {
        self.sheet.step(self.alloc, event, 0, 1)
    }

    /// All targets become copies of their sources at once.
    pub fn start(&mut self, pairs: &[Pair]) -> Result<(), NoMemory> {
        let mut list = List::new(self.alloc);
        for pair in pairs {
            list.push(*pair)?;
        }
        self.event(&LaneEvent::Trigger { pairs: list })
    }

    /// The mapping's slot becomes old.
    pub fn retire(&mut self, map: u32) -> Result<(), NoMemory> {
        self.event(&LaneEvent::Retire { map: MapId(map) })
    }

    /// The mapping's slot is taken out.
    pub fn detach(&mut self, map: u32) -> Result<(), NoMemory> {
        self.event(&LaneEvent::Detach { map: MapId(map) })
    }

    /// The mapping's slot and all behind it become a chain of their own.
    pub fn split(&mut self, map: u32) -> Result<(), NoMemory> {
        self.event(&LaneEvent::Split { map: MapId(map) })
    }

    /// The mapping's slot and those of its dependents are taken out.
    pub fn force(&mut self, map: u32, dependents: &[u32]) -> Result<(), NoMemory> {
        let mut list = List::new(self.alloc);
        for dependent in dependents {
            list.push(MapId(*dependent))?;
        }
        self.event(&LaneEvent::Force {
            map: MapId(map),
            dependents: list,
        })
    }

    /// An old slot is taken out.
    pub fn drop_slot(&mut self, slot: u64) -> Result<(), NoMemory> {
        self.event(&LaneEvent::Drop { slot: SlotId(slot) })
    }

    /// The moves are made, one after the other.
    fn make(&mut self, moves: &[Move]) -> Result<(), NoMemory> {
        for next in moves {
            self.sheet
                .moved(next.volume, next.grain.0 as usize, next.in_place);
            self.moves.push(*next)?;
        }
        Ok(())
    }

    /// A host writes a grain of a volume.
    pub fn write(&mut self, volume: u32, grain: u32) -> Result<(), NoMemory> {
        let live = self.sheet.live_place(VolId(volume));
        let moves = self
            .sheet
            .write_moves(self.alloc, live, grain as usize, GrainNo(grain))?;
        self.make(moves.as_slice())?;
        self.sheet.written(VolId(volume), grain as usize);
        Ok(())
    }

    /// The slot at a place gets its own copy of a grain, if there is a place.
    fn fill(&mut self, place: Option<usize>, grain: u32) -> Result<(), NoMemory> {
        match place {
            Some(place) => {
                let moves = self
                    .sheet
                    .fill_moves(self.alloc, place, grain as usize, GrainNo(grain))?;
                self.make(moves.as_slice())
            }
            None => Ok(()),
        }
    }

    /// A grain of a mapping is copied in the background.
    pub fn copy(&mut self, map: u32, grain: u32) -> Result<(), NoMemory> {
        let place = self.sheet.mapping_place(MapId(map));
        self.fill(place, grain)
    }

    /// The place of the slot that needs a grain from the mapping's slot.
    fn needer(&self, map: u32, grain: u32) -> Option<usize> {
        match self.sheet.mapping_place(MapId(map)) {
            Some(place) => self.sheet.needer(place, grain as usize),
            None => None,
        }
    }

    /// A grain that others need from a mapping's target is handed on.
    pub fn clean(&mut self, map: u32, grain: u32) -> Result<(), NoMemory> {
        let place = self.needer(map, grain);
        self.fill(place, grain)
    }

    /// Whether these are all the moves so far, in order.
    pub fn has_moved(&self, wanted: &[Told]) -> bool {
        let moves = self.moves.as_slice();
        if moves.len() != wanted.len() {
            return false;
        }
        for (index, want) in wanted.iter().enumerate() {
            let next = moves[index];
            if (next.slot.0, next.volume.0, next.grain.0, next.in_place) != *want {
                return false;
            }
        }
        true
    }

    /// The slot at which the volume is read.
    fn holder(&self, volume: u32, grain: u32) -> Option<u64> {
        let live = self.sheet.live_place(VolId(volume))?;
        let holder = self.sheet.holder(live, grain as usize)?;
        Some(self.sheet.slot(holder).0)
    }

    /// Whether each of these volumes is read, at a grain, at a slot.
    pub fn is_read_at(&self, wanted: &[Read]) -> bool {
        wanted.iter().all(|(volume, grain, slot)| self.holder(*volume, *grain) == Some(*slot))
    }

    /// Whether the mapping's slot is needed.
    pub fn is_needed(&self, map: u32) -> bool {
        match self.sheet.mapping_place(MapId(map)) {
            Some(place) => self.sheet.is_needed(place),
            None => false,
        }
    }

    /// Whether the mapping's slot holds every grain.
    pub fn is_complete(&self, map: u32) -> bool {
        match self.sheet.mapping_place(MapId(map)) {
            Some(place) => self.sheet.is_complete(place),
            None => false,
        }
    }

    /// Whether these are the volumes whose slots depend on the mapping's slot, in the order of the chain.
    pub fn has_dependents(&self, map: u32, wanted: &[u32]) -> Result<bool, NoMemory> {
        let place = match self.sheet.mapping_place(MapId(map)) {
            Some(place) => place,
            None => return Ok(false),
        };
        let dependents = self.sheet.dependents(self.alloc, place)?;
        let places = dependents.as_slice();
        if places.len() != wanted.len() {
            return Ok(false);
        }
        for (index, want) in wanted.iter().enumerate() {
            if self.sheet.volume(places[index]).0 != *want {
                return Ok(false);
            }
        }
        Ok(true)
    }

    /// Whether the restore graph has a loop right after this pair was started.
    pub fn would_loop(&self, pair: Pair) -> Result<bool, NoMemory> {
        self.sheet.has_loop_after(self.alloc, &[pair])
    }
}
