//! The answers to decisions on commands.

ghost use Rattle.std.specs.Prelude.{◌≡◌, ◌↔◌, IfOk, IsTrue};
ghost use Rattle.fc_base.specs.Counts.{UsedAt};
ghost use Rattle.fc_base.specs.Sheet.{shape_of};
ghost use Rattle.fc_base.specs.SheetStep.{triggered};
ghost use Rattle.fc_base.specs.SheetView.{AreMappings, ReadsMapping, DependsOn, LoopAnswer, held_of};
ghost use Rattle.fc_check_sheet.specs.View.{AreListed, IsSmall, pools_of, view_of};

use crate::counts::{count_marks, needed_grains};
use crate::kept::ranges_of;
use crate::loops::told_loop;
use crate::owners::owners_of;
use crate::pool::{LanePool, least_pool};
use crate::readers::readers_of;
use crate::unneeded::unneeded_slots;
use fc_base::disk::DiskKind;
use fc_base::ids::{MapId, SlotId, VolId};
use fc_base::list::List;
use fc_base::outcome::NoMemory;
use fc_base::ranges::Ranges;
use fc_base::request::Pair;
use fc_base::sheet::Sheet;
use fc_base::volume::Mapping;
use fc_check_rooms::Rooms;
use fc_check_rows::Rows;
use fc_model::PlainSheet;
use std::alloc::Global;
use std::marker::Model;

/// The chains at all grains, the changed grains of incremental mappings, the disks that each lane has for new
/// volumes, and which grains occupy memory, as decisions on commands ask for them. Beside them stands the table of
/// mappings.
#[derive(Drop)]
pub struct PlainView<'a> {
    sheet: &'a PlainSheet,
    mappings: &'a [Mapping],
    rows: &'a Rows,
    pools: &'a [LanePool],
    rooms: &'a Rooms,
}

impl<'a> Model for PlainView<'a> {
    ghost use Rattle.fc_check_sheet.specs.View.{AreListed, IsSmall, Plain, pools_of};

    ghost Value = { Plain };

    ghost view = { λ v. record { sheet = v.sheet.now; rows = v.rows.now; pools = pools_of v.pools.now; rooms = v.rooms.now } };

    ghost invariant = { λ v. IsSmall v.sheet.now.slots v.rows.now × AreListed v.sheet.now.slots v.mappings.now };
}

/// What the slot of a mapping holds: a mark for each of its grains; no marks where it has no slot.
fn held_marks(sheet: &PlainSheet, map: MapId) -> &[bool]
    ensures { result.now ≡ held_of sheet.now.slots map.0 }
{
    match sheet.mapping_place(map) {
        Some(place) => sheet.held(place),
        None => &[],
    }
}

/// The mappings, by id, whose live slots have the mapping's slot as holder at some grain.
fn direct_in(
    alloc: Global,
    sheet: &PlainSheet,
    mappings: &[Mapping],
    map: MapId,
) -> Result<List<MapId>, NoMemory>
    requires { AreListed sheet.now.slots mappings.now }
    ensures { IfOk result (λ maps. AreMappings (ReadsMapping sheet.now.slots map.0) maps) }
{
    let Some(from) = sheet.mapping_place(map) else {
        return Ok(List::new(alloc));
    };
    let places = readers_of(alloc, sheet, from)?;
    owners_of(alloc, sheet, mappings, places.as_slice())
}

/// The mappings, by id, whose slots are dependents of the mapping's slot.
fn dependents_in(
    alloc: Global,
    sheet: &PlainSheet,
    mappings: &[Mapping],
    map: MapId,
) -> Result<List<MapId>, NoMemory>
    requires { AreListed sheet.now.slots mappings.now }
    ensures { IfOk result (λ maps. AreMappings (DependsOn sheet.now.slots map.0) maps) }
{
    let Some(on) = sheet.mapping_place(map) else {
        return Ok(List::new(alloc));
    };
    let places = sheet.dependents(alloc, on)?;
    owners_of(alloc, sheet, mappings, places.as_slice())
}

impl<'a> PlainView<'a> {
    /// The view of a sheet of all grains, of what is kept of incremental mappings, of the disks that each lane has
    /// for new volumes, and of which grains occupy memory. The table of mappings has that of each slot.
    pub fn new(
        sheet: &'a PlainSheet,
        mappings: &'a [Mapping],
        rows: &'a Rows,
        pools: &'a [LanePool],
        rooms: &'a Rooms,
    ) -> Self
        requires small { IsSmall sheet.now.slots rows.now }
        requires listed { AreListed sheet.now.slots mappings.now }
        ensures { result ≡ record { sheet = sheet.now; rows = rows.now; pools = pools_of pools.now; rooms = rooms.now } }
    {
        PlainView {
            sheet,
            mappings,
            rows,
            pools,
            rooms,
        }
    }
}

impl<'a> Sheet for PlainView<'a> {
    ghost meaning = { view_of };

    fn held(&self, map: MapId) -> u32 {
        count_marks(held_marks(self.sheet, map))
    }

    fn kept(&self, alloc: Global, map: MapId) -> Result<Ranges, NoMemory> {
        ranges_of(alloc, held_marks(self.sheet, map))
    }

    fn direct(&self, alloc: Global, map: MapId) -> Result<List<MapId>, NoMemory> {
        direct_in(alloc, self.sheet, self.mappings, map)
    }

    fn needed(&self, map: MapId) -> u32 {
        match self.sheet.mapping_place(map) {
            Some(place) => needed_grains(self.sheet, place),
            None => 0,
        }
    }

    fn used(&self, volume: VolId) -> bool {
        self.sheet.is_used(volume)
    }

    fn loop_of(&self, alloc: Global, pairs: &[Pair]) -> Result<Option<List<VolId>>, NoMemory> {
        let next = self.sheet.triggered(alloc, pairs)?;
        told_loop(alloc, &next)
    }

    fn dependents(&self, alloc: Global, map: MapId) -> Result<List<MapId>, NoMemory> {
        dependents_in(alloc, self.sheet, self.mappings, map)
    }

    fn unneeded(&self, alloc: Global) -> Result<List<SlotId>, NoMemory> {
        unneeded_slots(alloc, self.sheet)
    }

    fn pool(&self, kind: DiskKind) -> u32 {
        least_pool(self.pools, kind)
    }

    fn restart(&self, map: MapId) -> u32 {
        count_marks(self.rows.restart(map))
    }

    fn room(&self, volume: VolId) -> u64 {
        self.rooms.used(volume)
    }
}
