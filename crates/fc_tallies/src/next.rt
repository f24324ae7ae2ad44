//! The next grain of a slot: the least that it lacks, and the least at which another slot needs it.

ghost use Rattle.std.specs.Prelude.{◌≡◌, ◌+◌, ◌*◌, ◌^◌, ◌<◌, length, option_map, IfSome};
ghost use Rattle.fc_base.specs.Column.{first_below};
ghost use Rattle.fc_base.specs.Counts.{is_needed_at};
ghost use Rattle.fc_base.specs.Sheet.{slot_at};
ghost use Rattle.fc_slots.specs.Contiguous.{IsContiguous};
ghost use Rattle.fc_tallies.specs.Nexts.{IsNextLive, NextLive, lacks};
ghost use Rattle.fc_tallies.specs.Tallies.{AreOneSize};

use fc_slots::slot::Slot;
use fc_slots::walk::first_reader_of;

/// The least grain, by its place in the lane, that the slot lacks.
pub fn next_lacking(slots: &[Slot], place: usize) -> Option<u32>
    requires { place < length slots.now }
    ensures value { result ≡ first_below (lacks (slot_at slots.now place)) (length (slot_at slots.now place).held) }
    ensures bound { IfSome result (λ g. g < length (slot_at slots.now place).held) }
{
    let slot = &slots[place];
    if slot.is_live() {
        slot.held().next_clear(0)
    } else {
        None
    }
}

/// The least grain, by its place in the lane, at which another slot needs the slot.
pub fn next_needed(slots: &[Slot], place: usize) -> Option<u32>
    requires there { place < length slots.now }
    requires together { IsContiguous slots.now }
    requires sizes { AreOneSize slots.now }
    ensures value { result ≡ first_below (is_needed_at slots.now place) (length (slot_at slots.now place).held) }
    ensures bound { IfSome result (λ g. g < length (slot_at slots.now place).held) }
{
    match next_live(slots, place) {
        Some(reader) => first_needed(slots, place, reader),
        None => None,
    }
}

/// The first live slot behind a place in its chain: it needs the slot there at each grain at which any slot does.
fn next_live(slots: &[Slot], place: usize) -> Option<usize>
    requires there { place < length slots.now }
    requires together { IsContiguous slots.now }
    ensures { NextLive slots.now place result }
{
    let chain = slots[place].chain();
    let mut behind = place + 1;
    while behind < slots.len() {
        let slot = &slots[behind];
        if slot.chain() != chain {
            return None;
        }
        if slot.is_live() {
            return Some(behind);
        }
        behind += 1;
    }
    None
}

/// The least grain at which another slot needs the slot, among those that it holds and the next live one lacks.
fn first_needed(slots: &[Slot], place: usize, reader: usize) -> Option<u32>
    requires there { place < length slots.now }
    requires together { IsContiguous slots.now }
    requires sizes { AreOneSize slots.now }
    requires next { IsNextLive slots.now place reader }
    ensures value { result ≡ first_below (is_needed_at slots.now place) (length (slot_at slots.now place).held) }
    ensures bound { IfSome result (λ g. g < length (slot_at slots.now place).held) }
{
    let held = slots[place].held();
    let lacking = slots[reader].held();
    let grains = held.len();
    let mut from = 0;
    while from < grains {
        let Some(grain) = held.next_in_difference(lacking, from) else {
            return None;
        };
        if first_reader_of(slots, place, place, grain).is_some() {
            return Some(grain);
        }
        from = grain + 1;
    }
    None
}

/// The number of the grain at a place among those of a lane.
pub fn number_of(lane: u8, lanes: u8, place: Option<u32>) -> Option<u32>
    requires { IfSome place (λ g. g * lanes + lane < 2 ^ 32) }
    ensures { result ≡ option_map (λ g. g * lanes + lane) place }
{
    match place {
        Some(place) => Some(place * lanes as u32 + lane as u32),
        None => None,
    }
}
