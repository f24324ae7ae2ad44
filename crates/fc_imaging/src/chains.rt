//! The chains of copies.

ghost use Rattle.std.specs.Prelude.{◌≡◌, ◌≢◌, ℕ, ◌-◌, ◌<◌, ◌≤◌, IfOk, length, map as map_list, option_map};
ghost use Rattle.std.specs.List.{range_with_len};
ghost use Rattle.fc_base.specs.Sheet.{Slot as SheetSlot, slot_at};
ghost use Rattle.fc_base.specs.declared.ids.MapId.{MapId as MapNumber};
ghost use Rattle.fc_kept.specs.Images.{slot_told as told_slot, chains_told};
ghost use Rattle.fc_lane.specs.Lane.{LaneView};
ghost use Rattle.fc_lane_sheet.specs.LaneSheet.{chains_of, sheet_of};
ghost use Rattle.fc_sums.specs.Parts.{sheet_at, grains_held, joined_slot};

use crate::bits::{Bits, words};
use fc_base::ids::{MapId, SlotId, VolId};
use fc_base::list::List;
use fc_base::outcome::NoMemory;
use fc_image::{ChainList, MetaChain, MetaSlot};
use fc_lane::lane::Lane;
use fc_mdisk::mdisk::Mdisk;
use fc_slots::slot::Slot;
use std::alloc::Global;

/// How many grains the slot at a place has in the lane.
fn grains_in<D: Mdisk>(lane: &Lane<D>, place: usize) -> u32
    ensures { result ≡ length (slot_at lane.now.chains.sheet.slots place).held }
{
    match lane.cascade().all_slots().get(place) {
        Some(slot) => slot.grains(),
        None => 0,
    }
}

/// How many grains the slot at a place has in all lanes. More than a `u32` counts are refused as want of memory.
fn all_grains<D: Mdisk>(lanes: &[Lane<D>], place: usize) -> Result<u32, NoMemory>
    ensures { IfOk result (λ grains. grains ≡ grains_held (chains_of lanes.now) place) }
{
    let mut grains: u32 = 0;
    for lane in lanes {
        match grains.checked_add(grains_in(lane, place)) {
            Some(sum) => grains = sum,
            None => return Err(NoMemory),
        }
    }
    Ok(grains)
}

/// The mapping whose slot it is, if any.
fn mapping_of(slot: &Slot) -> Option<MapId>
    ensures { result ≡ option_map (λ m. let id : MapNumber = record { 0 = m } in id) slot.now.mapping }
{
    match slot.mapping() {
        Some(map) => Some(MapId(map)),
        None => None,
    }
}

/// The slot at a place, one of those that the first lane has, with what it holds in all lanes.
fn slot_told<D: Mdisk>(
    alloc: Global,
    lanes: &[Lane<D>],
    slots: &[Slot],
    place: usize,
) -> Result<MetaSlot, NoMemory>
    requires first { slots.now ≡ (sheet_at (chains_of lanes.now) 0).slots }
    requires there { place < length slots.now }
    ensures { IfOk result (λ told. told ≡ told_slot (joined_slot (chains_of lanes.now) place)) }
{
    let slot = &slots[place];
    let grains = all_grains(lanes, place)?;
    let held = words(alloc, lanes, Bits::Held(place), grains)?;
    Ok(MetaSlot {
        birth: SlotId(slot.birth()),
        volume: VolId(slot.volume()),
        live: slot.is_live(),
        map: mapping_of(slot),
        held,
    })
}

/// The chain of the slots from a place on, up to another.
pub(crate) fn chain_told<D: Mdisk>(
    alloc: Global,
    lanes: &[Lane<D>],
    slots: &[Slot],
    from: usize,
    end: usize,
) -> Result<MetaChain, NoMemory>
    requires first { slots.now ≡ (sheet_at (chains_of lanes.now) 0).slots }
    requires some { from < end }
    requires within { end ≤ length slots.now }
    ensures { IfOk result (λ chain. chain ≡ record { label = (slot_at slots.now from).chain; slots = map_list told_slot (map_list (joined_slot (chains_of lanes.now)) (range_with_len from (end - from))) }) }
{
    let mut told = List::new(alloc);
    for place in from..end {
        told.push(slot_told(alloc, lanes, slots, place)?)?;
    }
    Ok(MetaChain {
        label: slots[from].chain(),
        slots: told,
    })
}

/// The place behind the last slot of the chain that begins at a place.
pub(crate) fn end_of_chain(slots: &[Slot], from: usize) -> usize
    requires { from < length slots.now }
    ensures some { from < result }
    ensures within { result ≤ length slots.now }
    ensures same { (k : ℕ) → from ≤ k → k < result → (slot_at slots.now k).chain ≡ (slot_at slots.now from).chain }
    ensures ends { result < length slots.now → (slot_at slots.now result).chain ≢ (slot_at slots.now from).chain }
{
    let chain = slots[from].chain();
    let mut end = from + 1;
    while end < slots.len() {
        if slots[end].chain() != chain {
            return end;
        }
        end += 1;
    }
    end
}

/// All chains, by the slots of the first lane.
fn all_chains<D: Mdisk>(
    alloc: Global,
    lanes: &[Lane<D>],
    slots: &[Slot],
) -> Result<ChainList, NoMemory>
    requires { slots.now ≡ (sheet_at (chains_of lanes.now) 0).slots }
    ensures { IfOk result (λ chains. chains ≡ chains_told (sheet_of lanes.now).slots) }
{
    let mut chains = List::new(alloc);
    let mut from = 0;
    while from < slots.len() {
        let end = end_of_chain(slots, from);
        chains.push(chain_told(alloc, lanes, slots, from, end)?)?;
        from = end;
    }
    Ok(chains)
}

/// All chains.
pub(crate) fn chains<D: Mdisk>(alloc: Global, lanes: &[Lane<D>]) -> Result<ChainList, NoMemory>
    ensures { IfOk result (λ chains. chains ≡ chains_told (sheet_of lanes.now).slots) }
{
    match lanes.first() {
        Some(lane) => all_chains(alloc, lanes, lane.cascade().all_slots()),
        None => Ok(List::new(alloc)),
    }
}

/// The birth that the next slot gets.
pub(crate) fn next_birth<D: Mdisk>(lanes: &[Lane<D>]) -> u64
    ensures { result ≡ (sheet_of lanes.now).births }
{
    match lanes.first() {
        Some(lane) => lane.cascade().births(),
        None => 0,
    }
}
