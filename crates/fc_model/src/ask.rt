//! The questions to the sheet, and the moves and writes that change its pairs.

ghost use Rattle.std.specs.Prelude.{◌≡◌, ◌<◌, ◌↔◌, ℕ, Contains, IfSome, IfOk, IsTrue, length, true, false};
ghost use Rattle.fc_base.specs.Column.{holder, needer};
ghost use Rattle.fc_base.specs.Need.{IsNeeded, is_complete};
ghost use Rattle.fc_base.specs.Plan.{moves_of_fill, moves_of_write};
ghost use Rattle.fc_base.specs.RestoreGraph.{Edge, IsUsed};
ghost use Rattle.fc_base.specs.Sheet.{slot_at, shape_of, column, live_place, mapping_place, birth_place, volume_grains};
ghost use Rattle.fc_base.specs.SheetStep.{sheet_moved, sheet_written, sheet_torn, triggered};
ghost use Rattle.model_slots.specs.Answers.{HasDependents, IsWidth};
ghost use Rattle.fc_model.specs.Graph.{LoopFound};

use crate::graph::{finds_loop, has_edge, volumes_of};
use crate::sheet::PlainSheet;
use fc_base::ids::{GrainNo, MapId, SlotId, VolId};
use fc_base::list::List;
use fc_base::outcome::NoMemory;
use fc_base::request::{Move, Pair, Side};
use model_slots::column::{holder_of, reader_of};
use model_slots::find::{grains_of_volume, place_of_birth, place_of_live, place_of_mapping};
use model_slots::moves::{fill_moves_of, write_moves_of};
use model_slots::need::{dependents_of, needed_somewhere, used_as_source, widest};
use model_slots::places::{
    birth_at, chain_at, grains_of, held_at, holds_at, is_complete_at, is_live_at, volume_at,
};
use std::alloc::Global;

impl PlainSheet {
    /// How many births were given.
    pub fn births(&self) -> u64
        ensures { result ≡ self.now.births }
    {
        self.births_given()
    }

    /// How many slots there are. They have the places from 0 on; past the last place stands a slot of no volume that
    /// holds nothing.
    pub fn len(&self) -> usize
        ensures { result ≡ length self.now.slots }
    {
        self.slots().len()
    }

    /// The name of the slot at a place.
    pub fn slot(&self, place: usize) -> SlotId
        ensures { result.0 ≡ (slot_at self.now.slots place).birth }
    {
        SlotId(birth_at(self.slots(), place))
    }

    /// The volume of the slot at a place.
    pub fn volume(&self, place: usize) -> VolId
        ensures { result.0 ≡ (slot_at self.now.slots place).volume }
    {
        VolId(volume_at(self.slots(), place))
    }

    /// The birth of the slot that began the chain of the slot at a place.
    pub fn chain(&self, place: usize) -> SlotId
        ensures { result.0 ≡ (slot_at self.now.slots place).chain }
    {
        SlotId(chain_at(self.slots(), place))
    }

    /// Whether the slot at a place is live.
    pub fn is_live(&self, place: usize) -> bool
        ensures { result ≡ (slot_at self.now.slots place).is_live }
    {
        is_live_at(self.slots(), place)
    }

    /// How many grains the slot at a place has on the sheet.
    pub fn grains(&self, place: usize) -> usize
        ensures { result ≡ length (slot_at self.now.slots place).held }
    {
        grains_of(self.slots(), place)
    }

    /// For each grain of the slot at a place whether it holds it; past the last place no marks.
    pub fn held(&self, place: usize) -> &[bool]
        ensures { result.now ≡ (slot_at self.now.slots place).held }
    {
        held_at(self.slots(), place)
    }

    /// Whether the slot at a place holds the grain.
    pub fn holds(&self, place: usize, grain: usize) -> bool
        ensures { result ≡ (column self.now.slots grain).held place }
    {
        holds_at(self.slots(), place, grain)
    }

    /// Whether the slot at a place holds every grain.
    pub fn is_complete(&self, place: usize) -> bool
        ensures { result ≡ is_complete (slot_at self.now.slots place) }
    {
        is_complete_at(self.slots(), place)
    }

    /// The place of the volume's live slot, and None exactly where there is no such volume.
    pub fn live_place(&self, volume: VolId) -> Option<usize>
        ensures value { result ≡ live_place self.now.slots volume.0 }
        ensures bound { IfSome result (λ k. k < length self.now.slots) }
    {
        place_of_live(self.slots(), volume.0)
    }

    /// The place of the mapping's slot, and None exactly where it has none.
    pub fn mapping_place(&self, map: MapId) -> Option<usize>
        ensures value { result ≡ mapping_place self.now.slots map.0 }
        ensures bound { IfSome result (λ k. k < length self.now.slots) }
    {
        place_of_mapping(self.slots(), map.0)
    }

    /// The place of the slot with this name, and None exactly where there is none.
    pub fn slot_place(&self, slot: SlotId) -> Option<usize>
        ensures value { result ≡ birth_place self.now.slots slot.0 }
        ensures bound { IfSome result (λ k. k < length self.now.slots) }
    {
        place_of_birth(self.slots(), slot.0)
    }

    /// How many grains the volume has on the sheet.
    pub fn volume_grains(&self, volume: VolId) -> usize
        ensures { result ≡ volume_grains self.now.slots volume.0 }
    {
        grains_of_volume(self.slots(), volume.0)
    }

    /// The most grains that a slot has on the sheet; 0 where there is no slot.
    pub fn width(&self) -> usize
        ensures { IsWidth self.now.slots result }
    {
        widest(self.slots())
    }

    /// The holder of a slot: the nearest at or before it in its chain that holds the grain.
    pub fn holder(&self, place: usize, grain: usize) -> Option<usize>
        ensures { result ≡ holder (column self.now.slots grain) place }
    {
        holder_of(self.slots(), place, grain)
    }

    /// The needer of a slot: the first live slot other than it that has it as holder.
    pub fn needer(&self, place: usize, grain: usize) -> Option<usize>
        ensures { result ≡ needer (column self.now.slots grain) place }
    {
        reader_of(self.slots(), place, place, grain)
    }

    /// The moves of a fill of the slot at a place, in order. `grain` is the grain's place on the sheet, `number` its number
    /// in the volume.
    pub fn fill_moves(
        &self,
        alloc: Global,
        place: usize,
        grain: usize,
        number: GrainNo,
    ) -> Result<List<Move>, NoMemory>
        ensures { IfOk result (λ moves. moves ≡ moves_of_fill self.now.slots grain number.0 place) }
    {
        fill_moves_of(alloc, self.slots(), place, grain, number)
    }

    /// The moves of a write to the volume whose live slot is at this place, in order.
    pub fn write_moves(
        &self,
        alloc: Global,
        live: Option<usize>,
        grain: usize,
        number: GrainNo,
    ) -> Result<List<Move>, NoMemory>
        ensures { IfOk result (λ moves. moves ≡ moves_of_write self.now.slots grain number.0 live) }
    {
        write_moves_of(alloc, self.slots(), live, grain, number)
    }

    /// A slot of the volume got its own copy of the grain; in place the volume's grain was the copy already.
    pub fn moved(&mut self, volume: VolId, grain: usize, in_place: bool)
        ensures { self.new ≡ sheet_moved volume.0 grain in_place self.old }
    {
        if in_place {
            self.keep(volume.0, grain);
        } else {
            self.take(volume.0, grain);
        }
    }

    /// The volume's grain was written.
    pub fn written(&mut self, volume: VolId, grain: usize)
        ensures { self.new ≡ sheet_written volume.0 grain self.old }
    {
        self.take(volume.0, grain);
    }

    /// A write of the volume's grain failed and left any bytes in it. With `Now` what the volume shows is lost with them.
    pub fn torn(&mut self, volume: VolId, grain: usize, side: Side)
        ensures { self.new ≡ sheet_torn volume.0 grain side self.old }
    {
        match side {
            Side::Now => self.take(volume.0, grain),
            Side::Under => self.lose(volume.0, grain),
        }
    }

    /// Whether the slot at a place is needed: some live slot other than it has it as holder at some grain.
    pub fn is_needed(&self, place: usize) -> bool
        ensures { IsTrue result ↔ IsNeeded self.now.slots place }
    {
        needed_somewhere(self.slots(), place)
    }

    /// The dependents of the slot at a place, in the order of their places.
    pub fn dependents(&self, alloc: Global, place: usize) -> Result<List<usize>, NoMemory>
        ensures { IfOk result (λ places. HasDependents self.now.slots place places) }
    {
        dependents_of(alloc, self.slots(), place)
    }

    /// Whether the volume is used as a source: some slot of it has a live slot after it in its chain.
    pub fn is_used(&self, volume: VolId) -> bool
        ensures { IsTrue result ↔ IsUsed (shape_of self.now.slots) volume.0 }
    {
        used_as_source(self.slots(), volume.0)
    }

    /// Whether the restore graph has a loop.
    pub fn has_loop(&self, alloc: Global) -> Result<bool, NoMemory>
        ensures { IfOk result (λ found. LoopFound (shape_of self.now.slots) found) }
    {
        finds_loop(alloc, self.slots())
    }

    /// Whether an edge of the restore graph runs from a volume to another.
    pub fn has_edge(&self, from: u32, to: u32) -> bool
        ensures { IsTrue result ↔ Edge (shape_of self.now.slots) from to }
    {
        has_edge(self.slots(), from, to)
    }

    /// The volumes of all slots, each once.
    pub fn volumes(&self, alloc: Global) -> Result<Vec<u32>, NoMemory>
        ensures { IfOk result (λ volumes. (k : ℕ) → k < length self.now.slots → Contains volumes.items (slot_at self.now.slots k).volume) }
    {
        volumes_of(alloc, self.slots())
    }

    /// Another sheet, as this one is right after these pairs were triggered.
    pub fn triggered(&self, alloc: Global, pairs: &[Pair]) -> Result<PlainSheet, NoMemory>
        ensures { IfOk result (λ next. next ≡ triggered pairs.now self.now) }
    {
        let mut next = self.copy(alloc)?;
        next.trigger(alloc, pairs)?;
        Ok(next)
    }

    /// Whether the restore graph has a loop right after these pairs were triggered.
    pub fn has_loop_after(&self, alloc: Global, pairs: &[Pair]) -> Result<bool, NoMemory>
        ensures { IfOk result (λ found. LoopFound (shape_of (triggered pairs.now self.now).slots) found) }
    {
        let next = self.triggered(alloc, pairs)?;
        next.has_loop(alloc)
    }
}
