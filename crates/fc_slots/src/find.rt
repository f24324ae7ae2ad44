//! Where slots stand: the live slot of a volume, the slot of a mapping, the slot with a birth.

ghost use Rattle.std.specs.Prelude.{◌≡◌, ℕ, ◌<◌, IfSome, length};
ghost use Rattle.fc_base.specs.Sheet.{live_place, mapping_place, birth_place, slot_at};
ghost use Rattle.fc_slots.specs.Found.{found};

use crate::slot::Slot;
use fc_base::ids::SlotId;

/// The place of the volume's live slot.
pub fn place_of_live(slots: &[Slot], volume: u32) -> Option<usize>
    ensures value { result ≡ live_place slots.now volume }
    ensures bound { IfSome result (λ k. k < length slots.now) }
{
    for (place, slot) in slots.iter().enumerate() {
        if slot.is_live() && slot.volume() == volume {
            return Some(place);
        }
    }
    None
}

/// The place of the mapping's slot.
pub fn place_of_mapping(slots: &[Slot], mapping: u32) -> Option<usize>
    ensures value { result ≡ mapping_place slots.now mapping }
    ensures bound { IfSome result (λ k. k < length slots.now) }
{
    for (place, slot) in slots.iter().enumerate() {
        if slot.is_of(mapping) {
            return Some(place);
        }
    }
    None
}

/// The place of the slot with this birth.
pub fn place_of_birth(slots: &[Slot], birth: u64) -> Option<usize>
    ensures value { result ≡ birth_place slots.now birth }
    ensures bound { IfSome result (λ k. k < length slots.now) }
{
    for (place, slot) in slots.iter().enumerate() {
        if slot.birth() == birth {
            return Some(place);
        }
    }
    None
}

/// The name of the slot at a place, if there is one.
pub fn name_of(slots: &[Slot], place: Option<usize>) -> Option<SlotId>
    requires { IfSome place (λ k. k < length slots.now) }
    ensures { result ≡ found slots.now place }
{
    match place {
        Some(place) => Some(SlotId(slots[place].birth())),
        None => None,
    }
}
