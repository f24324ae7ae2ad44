//! Which moves and writes fit a sheet.

ghost use Rattle.std.specs.Prelude.{◌≡◌, ◌↔◌, IsTrue, false};
ghost use Rattle.fc_base.specs.Sheet.{slot_at};
ghost use Rattle.fc_base.specs.SheetFits.{FitsTaken, FitsLost};

use fc_base::ids::VolId;
use fc_model::PlainSheet;

/// Whether the slot at a place is an old one of the volume.
fn is_old_of(plain: &PlainSheet, place: usize, volume: VolId) -> bool
    ensures { IsTrue result ↔ (((slot_at plain.now.slots place).is_live ≡ false) × ((slot_at plain.now.slots place).volume ≡ volume.0)) }
{
    !plain.is_live(place) && plain.volume(place).0 == volume.0
}

/// Whether no old slot of the volume is the holder, at the grain, of a live slot other than the volume's own.
pub fn fits_taken(plain: &PlainSheet, volume: VolId, grain: usize) -> bool
    ensures { IsTrue result → FitsTaken plain.now.slots volume.0 grain }
{
    for place in 0..plain.len() {
        if plain.is_live(place)
            && plain.volume(place).0 != volume.0
            && let Some(holder) = plain.holder(place, grain)
            && is_old_of(plain, holder, volume)
        {
            return false;
        }
    }
    true
}

/// Whether no old slot of the volume is the holder, at the grain, of a live slot.
pub fn fits_lost(plain: &PlainSheet, volume: VolId, grain: usize) -> bool
    ensures { IsTrue result → FitsLost plain.now.slots volume.0 grain }
{
    for place in 0..plain.len() {
        if plain.is_live(place)
            && let Some(holder) = plain.holder(place, grain)
            && is_old_of(plain, holder, volume)
        {
            return false;
        }
    }
    true
}
