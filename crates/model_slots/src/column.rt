//! The chains at one grain: who holds it for whom, who waits for it, and the old slots of a volume.

ghost use Rattle.std.specs.Prelude.{◌≡◌, ℕ, ◌<◌, IfSome, IfOk, OnOk, length, min, ◌+◌, [], ◌∷◌, ◌++◌, cond, false, not, ◌&&◌, eqb, ltb, slice_index_or, filter};
ghost use Rattle.fc_base.specs.Column.{holder, first_reader, old_slots, old_holders, is_at, is_old_of, put_by_birth};
ghost use Rattle.fc_base.specs.Moves.{is_in_place, none_holds_behind, next_behind};
ghost use Rattle.fc_base.specs.Sheet.{slot_at, column, shape_of};

use crate::places::{birth_at, holds_at, in_one_chain, is_live_at, is_old_at, volume_at};
use crate::search::{first_place, first_so_far, is_place, last_so_far};
use crate::slot::Slot;
use fc_base::outcome::NoMemory;
use std::alloc::Global;

/// Whether a place is in the chain of another and holds the grain.
fn holds_in_chain(slots: &[Slot], place: usize, of: usize, grain: usize) -> bool
    ensures { result ≡ (eqb (slot_at slots.now place).chain (slot_at slots.now of).chain && slice_index_or (slot_at slots.now place).held grain false) }
{
    in_one_chain(slots, place, of) && holds_at(slots, place, grain)
}

/// The place after this one, or the end of the list where that is past it.
fn end_behind(slots: &[Slot], place: usize) -> usize
    ensures { result ≡ min (place + 1) (length slots.now) }
{
    if place < slots.len() {
        place + 1
    } else {
        slots.len()
    }
}

/// The holder of a slot: the nearest at or before it in its chain that holds the grain.
pub fn holder_of(slots: &[Slot], of: usize, grain: usize) -> Option<usize>
    ensures { result ≡ holder (column slots.now grain) of }
{
    let mut found = None;
    for place in 0..end_behind(slots, of) {
        found = last_so_far(found, place, holds_in_chain(slots, place, of, grain));
    }
    found
}

/// Whether a place is a live slot other than `but` that has `of` as holder.
fn reads_from(slots: &[Slot], place: usize, but: usize, of: usize, grain: usize) -> bool
    ensures { result ≡ ((slot_at slots.now place).is_live && (not (eqb place but) && is_at (holder (column slots.now grain) place) of)) }
{
    is_live_at(slots, place) && place != but && is_place(holder_of(slots, place, grain), of)
}

/// The first live slot other than `but` that has `of` as holder.
pub fn reader_of(slots: &[Slot], but: usize, of: usize, grain: usize) -> Option<usize>
    ensures value { result ≡ first_reader (column slots.now grain) but of }
    ensures bound { IfSome result (λ k. k < length slots.now) }
{
    first_place(
        slots.len(),
        |place| reads_from(slots, place, but, of, grain),
    )
}

/// Whether a slot's holder is an old slot of its own volume.
pub(crate) fn fills_in_place(slots: &[Slot], place: usize, grain: usize) -> bool
    ensures { result ≡ is_in_place (column slots.now grain) place }
{
    match holder_of(slots, place, grain) {
        Some(holder) => is_old_at(slots, holder, volume_at(slots, place)),
        None => false,
    }
}

/// Whether a place is behind another in its chain and holds the grain.
fn holds_behind(slots: &[Slot], place: usize, from: usize, grain: usize) -> bool
    ensures { result ≡ (ltb from place && (eqb (slot_at slots.now place).chain (slot_at slots.now from).chain && slice_index_or (slot_at slots.now place).held grain false)) }
{
    from < place && holds_in_chain(slots, place, from, grain)
}

/// Whether no slot of the chain behind `from`, up to `place`, holds the grain.
fn none_holds(slots: &[Slot], from: usize, place: usize, grain: usize) -> bool
    requires { place < length slots.now }
    ensures { result ≡ none_holds_behind (column slots.now grain) from place }
{
    let mut found = None;
    for other in 0..place + 1 {
        found = last_so_far(found, other, holds_behind(slots, other, from, grain));
    }
    found.is_none()
}

/// Whether a place is a live slot behind another in its chain, with no slot behind that, up to it, that holds the grain.
fn waits_behind(slots: &[Slot], place: usize, from: usize, grain: usize) -> bool
    requires { place < length slots.now }
    ensures { result ≡ (ltb from place && ((slot_at slots.now place).is_live && (eqb (slot_at slots.now place).chain (slot_at slots.now from).chain && none_holds_behind (column slots.now grain) from place))) }
{
    from < place
        && is_live_at(slots, place)
        && in_one_chain(slots, place, from)
        && none_holds(slots, from, place, grain)
}

/// The first live slot behind `from` in its chain that lacks the grain, with no slot between them that holds it.
pub(crate) fn next_waiting(slots: &[Slot], from: usize, grain: usize) -> Option<usize>
    ensures { result ≡ next_behind (column slots.now grain) from }
{
    let mut found = None;
    for place in 0..slots.len() {
        found = first_so_far(found, place, waits_behind(slots, place, from, grain));
    }
    found
}

/// Puts a place among places that stand by birth, least first. Refused, the list may be changed.
fn put_place(slots: &[Slot], place: usize, places: &mut Vec<usize>) -> Result<(), NoMemory>
    ensures { OnOk result (places.new.items ≡ put_by_birth (shape_of slots.now).birth place places.old.items) }
{
    let mut index = 0;
    while index < places.len() && birth_at(slots, places[index]) <= birth_at(slots, place) {
        index += 1;
    }
    match places.insert(index, place) {
        Ok(()) => Ok(()),
        Err(_) => Err(NoMemory),
    }
}

/// Puts a place among places that stand by birth, where it is an old slot of the volume.
fn put_if_old(
    slots: &[Slot],
    place: usize,
    volume: u32,
    places: &mut Vec<usize>,
) -> Result<(), NoMemory>
    ensures { OnOk result (places.new.items ≡ cond (is_old_of (shape_of slots.now) volume place) (put_by_birth (shape_of slots.now).birth place places.old.items) places.old.items) }
{
    if is_old_at(slots, place, volume) {
        put_place(slots, place, places)
    } else {
        Ok(())
    }
}

/// The old slots of a volume, least birth first.
fn old_places(alloc: Global, slots: &[Slot], volume: u32) -> Result<Vec<usize>, NoMemory>
    ensures { IfOk result (λ places. places.items ≡ old_slots (shape_of slots.now) volume) }
{
    let mut places = Vec::new(alloc);
    for place in 0..slots.len() {
        put_if_old(slots, place, volume, &mut places)?;
    }
    Ok(places)
}

/// Puts a place at the end.
pub(crate) fn push_place(places: &mut Vec<usize>, place: usize) -> Result<(), NoMemory>
    ensures { OnOk result (places.new.items ≡ places.old.items ++ place ∷ []) }
{
    match places.push(place) {
        Ok(()) => Ok(()),
        Err(_) => Err(NoMemory),
    }
}

/// Puts a place at the end, where it holds the grain.
fn push_if_holds(
    slots: &[Slot],
    place: usize,
    grain: usize,
    places: &mut Vec<usize>,
) -> Result<(), NoMemory>
    ensures { OnOk result (places.new.items ≡ places.old.items ++ filter (column slots.now grain).held (place ∷ [])) }
{
    if holds_at(slots, place, grain) {
        push_place(places, place)
    } else {
        Ok(())
    }
}

/// Those of the places that hold the grain, in their order.
fn holders_among(
    alloc: Global,
    slots: &[Slot],
    old: &[usize],
    grain: usize,
) -> Result<Vec<usize>, NoMemory>
    ensures { IfOk result (λ places. places.items ≡ filter (column slots.now grain).held old.now) }
{
    let mut places = Vec::new(alloc);
    for place in old {
        push_if_holds(slots, *place, grain, &mut places)?;
    }
    Ok(places)
}

/// The old slots of a volume that hold the grain, least birth first.
pub(crate) fn old_holders_of(
    alloc: Global,
    slots: &[Slot],
    volume: u32,
    grain: usize,
) -> Result<Vec<usize>, NoMemory>
    ensures { IfOk result (λ places. places.items ≡ old_holders (column slots.now grain) volume) }
{
    let old = old_places(alloc, slots, volume)?;
    holders_among(alloc, slots, old.as_slice(), grain)
}
