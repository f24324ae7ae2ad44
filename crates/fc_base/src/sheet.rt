//! The chains of all lanes together, as decisions on commands see them.

ghost use Rattle.std.specs.Prelude.{◌≡◌, ℕ, ◌++◌, ◌↔◌, IsTrue, IfOk, OnOk, length, slice_index_or, false};
ghost use Rattle.fc_base.specs.Counts.{UsedAt, names_below, is_unneeded};
ghost use Rattle.fc_base.specs.Pools.{least_of_kind};
ghost use Rattle.fc_base.specs.Ranges.{is_kept};
ghost use Rattle.fc_base.specs.Room.{used_in};
ghost use Rattle.fc_base.specs.Sheet.{shape_of};
ghost use Rattle.fc_base.specs.SheetStep.{triggered};
ghost use Rattle.fc_base.specs.SheetView.{SheetView, held_of, needed_of, count_true, AreMappings, ReadsMapping, DependsOn, LoopAnswer};

use crate::disk::DiskKind;
use crate::ids::{MapId, SlotId, VolId};
use crate::list::List;
use crate::outcome::NoMemory;
use crate::ranges::Ranges;
use crate::request::Pair;
use std::alloc::Global;

/// The chains of all lanes together.
///
/// Decisions on commands ask it and never change it. A store answers from its lanes.
pub trait Sheet {
    /// The sheet of all grains, restart sets, pools, and the room that volumes take.
    ghost meaning: { Self → SheetView };

    /// How many grains the slot of a mapping holds; 0 where it has none.
    fn held(&self, map: MapId) -> u32
        ensures { result ≡ count_true (held_of (meaning self.now).sheet.slots map.0) };

    /// The grains that the slot of a mapping holds, as ranges; none where it has none.
    fn kept(&self, alloc: Global, map: MapId) -> Result<Ranges, NoMemory>
        ensures { IfOk result (λ ranges. (g : ℕ) → is_kept ranges g ≡ slice_index_or (held_of (meaning self.now).sheet.slots map.0) g false) };

    /// The mappings, by id, whose live slots have the mapping's slot as holder at some grain.
    fn direct(&self, alloc: Global, map: MapId) -> Result<List<MapId>, NoMemory>
        ensures { IfOk result (λ maps. AreMappings (ReadsMapping (meaning self.now).sheet.slots map.0) maps) };

    /// At how many grains another slot needs the slot of a mapping; 0 where it has none.
    fn needed(&self, map: MapId) -> u32
        ensures { result ≡ needed_of (meaning self.now).sheet.slots map.0 };

    /// Whether the volume is used as a source: some slot of it has a live slot behind it in its chain.
    fn used(&self, volume: VolId) -> bool
        ensures { IsTrue result ↔ UsedAt (meaning self.now).sheet.slots volume.0 };

    /// The loop of the restore graph right after these pairs were triggered, as it is told; None exactly where
    /// there is no loop.
    fn loop_of(&self, alloc: Global, pairs: &[Pair]) -> Result<Option<List<VolId>>, NoMemory>
        ensures { IfOk result (λ found. LoopAnswer (shape_of (triggered pairs.now (meaning self.now).sheet).slots) found) };

    /// The mappings, by id, whose slots are dependents of the mapping's slot: their copies read from it, or from
    /// one that does.
    fn dependents(&self, alloc: Global, map: MapId) -> Result<List<MapId>, NoMemory>
        ensures { IfOk result (λ maps. AreMappings (DependsOn (meaning self.now).sheet.slots map.0) maps) };

    /// The old slots that no slot needs at any grain, in order of their places.
    fn unneeded(&self, alloc: Global) -> Result<List<SlotId>, NoMemory>
        ensures { IfOk result (λ names. names ≡ names_below (meaning self.now).sheet.slots (is_unneeded (meaning self.now).sheet.slots) (length (meaning self.now).sheet.slots)) };

    /// The least number of disks of the kind that some lane has for new volumes.
    fn pool(&self, kind: DiskKind) -> u32
        ensures { result ≡ least_of_kind kind (meaning self.now).pools };

    /// How many grains the mapping would begin again with: the size of its restart set.
    fn restart(&self, map: MapId) -> u32
        ensures { result ≡ count_true ((meaning self.now).restarts map.0) };

    /// How many grains of the volume occupy memory: of a flat volume all, of a thin one those that a write reached;
    /// 0 of a volume that isn't there.
    fn room(&self, volume: VolId) -> u64
        ensures { result ≡ used_in (meaning self.now).rooms volume.0 };
}
