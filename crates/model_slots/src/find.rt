//! Where slots stand: the live slot of a volume, the slot of a mapping, the slot with a birth.

ghost use Rattle.std.specs.Prelude.{◌≡◌, ℕ, ◌<◌, IfSome, length, ◌&&◌, eqb, ltb};
ghost use Rattle.fc_base.specs.Sheet.{slot_at, live_place, mapping_place, birth_place, volume_grains};
ghost use Rattle.fc_base.specs.SheetStep.{has_after};

use crate::places::{birth_at, grains_of, in_one_chain, is_live_at, is_of_mapping, volume_at};
use crate::search::{first_place, last_so_far};
use crate::slot::Slot;

/// Whether a place is the live slot of the volume.
fn is_live_of(slots: &[Slot], place: usize, volume: u32) -> bool
    ensures { result ≡ ((slot_at slots.now place).is_live && eqb (slot_at slots.now place).volume volume) }
{
    is_live_at(slots, place) && volume_at(slots, place) == volume
}

/// The place of the volume's live slot.
pub fn place_of_live(slots: &[Slot], volume: u32) -> Option<usize>
    ensures value { result ≡ live_place slots.now volume }
    ensures bound { IfSome result (λ k. k < length slots.now) }
{
    first_place(slots.len(), |place| is_live_of(slots, place, volume))
}

/// The place of the mapping's slot.
pub fn place_of_mapping(slots: &[Slot], mapping: u32) -> Option<usize>
    ensures value { result ≡ mapping_place slots.now mapping }
    ensures bound { IfSome result (λ k. k < length slots.now) }
{
    first_place(slots.len(), |place| is_of_mapping(slots, place, mapping))
}

/// Whether the slot at a place has this birth.
fn is_born(slots: &[Slot], place: usize, birth: u64) -> bool
    ensures { result ≡ eqb (slot_at slots.now place).birth birth }
{
    birth_at(slots, place) == birth
}

/// The place of the slot with this birth.
pub fn place_of_birth(slots: &[Slot], birth: u64) -> Option<usize>
    ensures value { result ≡ birth_place slots.now birth }
    ensures bound { IfSome result (λ k. k < length slots.now) }
{
    first_place(slots.len(), |place| is_born(slots, place, birth))
}

/// How many grains the volume has.
pub fn grains_of_volume(slots: &[Slot], volume: u32) -> usize
    ensures { result ≡ volume_grains slots.now volume }
{
    match place_of_live(slots, volume) {
        Some(place) => grains_of(slots, place),
        None => 0,
    }
}

/// Whether a place is behind another in its chain.
fn is_behind(slots: &[Slot], place: usize, from: usize) -> bool
    ensures { result ≡ (ltb from place && eqb (slot_at slots.now place).chain (slot_at slots.now from).chain) }
{
    from < place && in_one_chain(slots, place, from)
}

/// Whether slots stand after a place in its chain.
pub fn has_slot_behind(slots: &[Slot], from: usize) -> bool
    ensures { result ≡ has_after slots.now from }
{
    let mut found = None;
    for place in 0..slots.len() {
        found = last_so_far(found, place, is_behind(slots, place, from));
    }
    found.is_some()
}
