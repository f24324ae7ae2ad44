//! What is drawn of a slot.

ghost use Rattle.fc_base.specs.Sheet.{slot_at};
ghost use Rattle.fc_drawing.specs.Chains.{IsDrawn};

use fc_base::ids::{SlotId, VolId};
use fc_model::PlainSheet;

/// A slot: its volume, whether it is live, and what it holds.
#[derive(Clone, Copy)]
pub struct DrawnSlot<'a> {
    /// Its birth, by which it is named.
    pub slot: SlotId,
    /// The volume of which it is a state.
    pub volume: VolId,
    /// Whether it is the volume as hosts see it; otherwise it is an old slot.
    pub is_live: bool,
    /// For each grain of the volume whether the slot holds it.
    pub held: &'a [bool],
}

/// The slot at a place of the sheet. Past the last one stands an old slot of volume 0 that holds nothing.
pub fn drawn_slot(sheet: &PlainSheet, place: usize) -> DrawnSlot<'_>
    ensures { IsDrawn (slot_at sheet.now.slots place) result }
{
    DrawnSlot {
        slot: sheet.slot(place),
        volume: sheet.volume(place),
        is_live: sheet.is_live(place),
        held: sheet.held(place),
    }
}
