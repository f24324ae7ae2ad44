//! What stands at a place of the list. Past its end stands a slot of no volume that holds nothing.

ghost use Rattle.std.specs.Prelude.{◌≡◌, ℕ, false, length, slice_index_or, not, ◌&&◌, eqb};
ghost use Rattle.fc_base.specs.Column.{is_at, is_old_of};
ghost use Rattle.fc_base.specs.Need.{is_complete};
ghost use Rattle.fc_base.specs.Sheet.{slot_at, shape_of};

use crate::slot::Slot;

/// The birth of the slot at a place.
pub fn birth_at(slots: &[Slot], place: usize) -> u64
    ensures { result ≡ (slot_at slots.now place).birth }
{
    if place < slots.len() {
        slots[place].birth()
    } else {
        0
    }
}

/// The chain of the slot at a place.
pub fn chain_at(slots: &[Slot], place: usize) -> u64
    ensures { result ≡ (slot_at slots.now place).chain }
{
    if place < slots.len() {
        slots[place].chain()
    } else {
        0
    }
}

/// The volume of the slot at a place.
pub fn volume_at(slots: &[Slot], place: usize) -> u32
    ensures { result ≡ (slot_at slots.now place).volume }
{
    if place < slots.len() {
        slots[place].volume()
    } else {
        0
    }
}

/// Whether the slot at a place is live.
pub fn is_live_at(slots: &[Slot], place: usize) -> bool
    ensures { result ≡ (slot_at slots.now place).is_live }
{
    place < slots.len() && slots[place].is_live()
}

/// Whether the slot at a place is this mapping's.
pub(crate) fn is_of_mapping(slots: &[Slot], place: usize, mapping: u32) -> bool
    ensures { result ≡ is_at (slot_at slots.now place).mapping mapping }
{
    place < slots.len() && slots[place].is_of(mapping)
}

/// For each grain of the slot at a place whether it holds it.
pub fn held_at(slots: &[Slot], place: usize) -> &[bool]
    ensures { result.now ≡ (slot_at slots.now place).held }
{
    if place < slots.len() {
        slots[place].held()
    } else {
        &[]
    }
}

/// Whether the slot at a place holds the grain.
pub fn holds_at(slots: &[Slot], place: usize, grain: usize) -> bool
    ensures { result ≡ slice_index_or (slot_at slots.now place).held grain false }
{
    place < slots.len() && slots[place].holds(grain)
}

/// How many grains the slot at a place has.
pub fn grains_of(slots: &[Slot], place: usize) -> usize
    ensures { result ≡ length (slot_at slots.now place).held }
{
    if place < slots.len() {
        slots[place].grains()
    } else {
        0
    }
}

/// Whether the slot at a place holds every grain.
pub fn is_complete_at(slots: &[Slot], place: usize) -> bool
    ensures { result ≡ is_complete (slot_at slots.now place) }
{
    place >= slots.len() || slots[place].is_complete()
}

/// Whether the slot at a place is an old slot of the volume.
pub fn is_old_at(slots: &[Slot], place: usize, volume: u32) -> bool
    ensures { result ≡ is_old_of (shape_of slots.now) volume place }
{
    !is_live_at(slots, place) && volume_at(slots, place) == volume
}

/// Whether two places are in one chain.
pub fn in_one_chain(slots: &[Slot], place: usize, other: usize) -> bool
    ensures { result ≡ eqb (slot_at slots.now place).chain (slot_at slots.now other).chain }
{
    chain_at(slots, place) == chain_at(slots, other)
}
