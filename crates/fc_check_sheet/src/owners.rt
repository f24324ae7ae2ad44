//! Whose slots stand at places.

ghost use Rattle.std.specs.Prelude.{◌↔◌, IfOk, IsTrue};
ghost use Rattle.fc_base.specs.SheetView.{AreMappings};
ghost use Rattle.fc_check_sheet.specs.View.{AreListed};
ghost use Rattle.fc_check_sheet.specs.Owners.{IsOwner};

use fc_base::ids::MapId;
use fc_base::list::List;
use fc_base::outcome::NoMemory;
use fc_base::volume::Mapping;
use fc_model::PlainSheet;
use std::alloc::Global;

/// Whether the slot of a mapping stands at one of the places.
fn is_owner(sheet: &PlainSheet, places: &[usize], map: MapId) -> bool
    ensures { IsTrue result ↔ IsOwner sheet.now.slots places.now map.0 }
{
    match sheet.mapping_place(map) {
        Some(place) => places.contains(&place),
        None => false,
    }
}

/// Those of the mappings, by id, whose slots stand at the places.
pub(crate) fn owners_of(
    alloc: Global,
    sheet: &PlainSheet,
    mappings: &[Mapping],
    places: &[usize],
) -> Result<List<MapId>, NoMemory>
    requires { AreListed sheet.now.slots mappings.now }
    ensures { IfOk result (λ maps. AreMappings (IsOwner sheet.now.slots places.now) maps) }
{
    let mut maps = List::new(alloc);
    for mapping in mappings {
        if is_owner(sheet, places, mapping.id) {
            maps.push(mapping.id)?;
        }
    }
    Ok(maps)
}
