//! Who needs a slot, who depends on it, and which volumes are used as sources.

ghost use Rattle.std.specs.Prelude.{◌≡◌, ◌⊎◌, ◌↔◌, IfOk, OnOk, IsTrue, Contains, cond, [], ◌∷◌, ◌++◌};
ghost use Rattle.fc_base.specs.Counts.{LiveBehind};
ghost use Rattle.fc_base.specs.Need.{IsNeeded};
ghost use Rattle.fc_base.specs.RestoreGraph.{IsUsed};
ghost use Rattle.fc_base.specs.Sheet.{shape_of};
ghost use Rattle.model_slots.specs.Answers.{HasDependents, IsWidth, ReadsListed, Joins};

use crate::column::{holder_of, reader_of};
use crate::places::{grains_of, in_one_chain, is_live_at, volume_at};
use crate::slot::Slot;
use fc_base::list::List;
use fc_base::outcome::NoMemory;
use std::alloc::Global;

/// Whether some live slot other than the one at a place has it as holder at some grain.
pub fn needed_somewhere(slots: &[Slot], place: usize) -> bool
    ensures { IsTrue result ↔ IsNeeded slots.now place }
{
    for grain in 0..grains_of(slots, place) {
        if reader_of(slots, place, place, grain).is_some() {
            return true;
        }
    }
    false
}

/// Whether some live slot stands after a place in its chain.
fn has_live_behind(slots: &[Slot], place: usize) -> bool
    ensures { IsTrue result ↔ LiveBehind slots.now place }
{
    for other in 0..slots.len() {
        if place < other && is_live_at(slots, other) && in_one_chain(slots, other, place) {
            return true;
        }
    }
    false
}

/// Whether some slot of the volume has a live slot after it in its chain.
pub fn used_as_source(slots: &[Slot], volume: u32) -> bool
    ensures { IsTrue result ↔ IsUsed (shape_of slots.now) volume }
{
    for place in 0..slots.len() {
        if volume_at(slots, place) == volume && has_live_behind(slots, place) {
            return true;
        }
    }
    false
}

/// The most grains that a slot has.
pub fn widest(slots: &[Slot]) -> usize
    ensures { IsWidth slots.now result }
{
    let mut width: usize = 0;
    for place in 0..slots.len() {
        width = width.max(grains_of(slots, place));
    }
    width
}

/// Whether a place is one place, or listed.
fn is_one_of(place: usize, one: usize, listed: &[usize]) -> bool
    ensures { IsTrue result ↔ ((place ≡ one) ⊎ Contains listed.now place) }
{
    place == one || listed.contains(&place)
}

/// Whether the slot at a place has as holder, at some grain, the slot at `on` or one that is listed.
fn reads_listed(slots: &[Slot], on: usize, place: usize, listed: &[usize]) -> bool
    ensures { IsTrue result ↔ ReadsListed slots.now on place listed.now }
{
    for grain in 0..widest(slots) {
        if let Some(holder) = holder_of(slots, place, grain)
            && is_one_of(holder, on, listed)
        {
            return true;
        }
    }
    false
}

/// Whether a place is a live slot other than the one at `on` that reads there, or at one that is listed.
fn joins(slots: &[Slot], on: usize, place: usize, listed: &[usize]) -> bool
    ensures { IsTrue result ↔ Joins slots.now on place listed.now }
{
    is_live_at(slots, place) && place != on && reads_listed(slots, on, place, listed)
}

/// Puts a place at the end, where it is to be there.
fn push_where(places: &mut List<usize>, place: usize, is_there: bool) -> Result<(), NoMemory>
    ensures { OnOk result (places.new ≡ cond is_there (places.old ++ place ∷ []) places.old) }
{
    if is_there { places.push(place) } else { Ok(()) }
}

/// The dependents of the slot at a place. A holder never stands behind its slot, so one pass in the order of places
/// finds all.
pub fn dependents_of(alloc: Global, slots: &[Slot], on: usize) -> Result<List<usize>, NoMemory>
    ensures { IfOk result (λ places. HasDependents slots.now on places) }
{
    let mut listed = List::new(alloc);
    for place in 0..slots.len() {
        let is_there = joins(slots, on, place, listed.as_slice());
        push_where(&mut listed, place, is_there)?;
    }
    Ok(listed)
}
