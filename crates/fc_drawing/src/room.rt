//! The room that volumes take.

ghost use Rattle.std.specs.Prelude.{◌≡◌, ◌&&◌, eqb, false, slice_index_or};
ghost use Rattle.fc_base.specs.Sheet.{slot_at};
ghost use Rattle.fc_drawing.specs.Chains.{is_stored, room_of};

use crate::places::{count_places, last_place};
use fc_base::ids::VolId;
use fc_model::PlainSheet;

/// Whether the slot at a place is the volume's, live or old, and holds the grain.
fn stores(sheet: &PlainSheet, place: usize, volume: VolId, grain: usize) -> bool
    ensures { result ≡ (eqb (slot_at sheet.now.slots place).volume volume.0 && slice_index_or (slot_at sheet.now.slots place).held grain false) }
{
    sheet.volume(place).0 == volume.0 && sheet.holds(place, grain)
}

/// Whether a slot of the volume holds the grain.
fn is_stored(sheet: &PlainSheet, volume: VolId, grain: usize) -> bool
    ensures { result ≡ is_stored sheet.now.slots volume.0 grain }
{
    last_place(sheet.len(), |place| stores(sheet, place, volume, grain)).is_some()
}

/// How many of the first so many grains of a volume are held by a slot of it, live or old: the room that it takes.
pub fn room_of(sheet: &PlainSheet, volume: VolId, grains: usize) -> usize
    ensures { result ≡ room_of sheet.now.slots volume.0 grains }
{
    count_places(grains, |grain| is_stored(sheet, volume, grain))
}
