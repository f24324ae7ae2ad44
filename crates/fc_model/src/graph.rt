//! The restore graph: its edges, and whether it has a loop.

ghost use Rattle.std.specs.Prelude.{◌≡◌, ℕ, ◌<◌, ◌↔◌, IfOk, OnOk, IsTrue, Contains, length};
ghost use Rattle.fc_base.specs.RestoreGraph.{Edge};
ghost use Rattle.fc_base.specs.Sheet.{slot_at, shape_of};
ghost use Rattle.fc_model.specs.Graph.{LiveOfBehind, LeadsInto, HasSink, Lists, LoopFound};

use fc_base::outcome::NoMemory;
use model_slots::places::{in_one_chain, is_live_at, is_old_at, volume_at};
use model_slots::slot::Slot;
use std::alloc::Global;

/// Whether a live slot of the volume stands after a place in its chain.
fn has_live_of_behind(slots: &[Slot], place: usize, volume: u32) -> bool
    ensures { IsTrue result ↔ LiveOfBehind slots.now place volume }
{
    for other in 0..slots.len() {
        if place < other
            && is_live_at(slots, other)
            && in_one_chain(slots, place, other)
            && volume_at(slots, other) == volume
        {
            return true;
        }
    }
    false
}

/// Whether an edge runs from a volume to another.
pub(crate) fn has_edge(slots: &[Slot], from: u32, to: u32) -> bool
    ensures { IsTrue result ↔ Edge (shape_of slots.now) from to }
{
    if from == to {
        return false;
    }
    for old in 0..slots.len() {
        if is_old_at(slots, old, from) && has_live_of_behind(slots, old, to) {
            return true;
        }
    }
    false
}

/// Whether an edge runs from a volume to one of these.
fn leads_into(slots: &[Slot], from: u32, volumes: &[u32]) -> bool
    ensures { IsTrue result ↔ LeadsInto (shape_of slots.now) from volumes.now }
{
    for to in volumes {
        if has_edge(slots, from, *to) {
            return true;
        }
    }
    false
}

/// The first of these volumes from which no edge runs to one of them.
fn sink_of(slots: &[Slot], volumes: &[u32]) -> Option<usize>
    ensures { HasSink (shape_of slots.now) volumes.now result }
{
    for place in 0..volumes.len() {
        let volume = volumes[place];
        if !leads_into(slots, volume, volumes) {
            return Some(place);
        }
    }
    None
}

/// Puts a volume at the end, where it isn't listed yet.
fn list_volume(volumes: &mut Vec<u32>, volume: u32) -> Result<(), NoMemory>
    ensures { OnOk result (Lists volumes.old.items volumes.new.items volume) }
{
    if volumes.as_slice().contains(&volume) {
        return Ok(());
    }
    match volumes.push(volume) {
        Ok(()) => Ok(()),
        Err(_) => Err(NoMemory),
    }
}

/// The volumes of all slots, each once.
pub(crate) fn volumes_of(alloc: Global, slots: &[Slot]) -> Result<Vec<u32>, NoMemory>
    ensures { IfOk result (λ volumes. (k : ℕ) → k < length slots.now → Contains volumes.items (slot_at slots.now k).volume) }
{
    let mut volumes = Vec::new(alloc);
    for place in 0..slots.len() {
        list_volume(&mut volumes, volume_at(slots, place))?;
    }
    Ok(volumes)
}

/// Whether the restore graph has a loop. Volumes from which no edge runs to one that is left are on no loop; where none
/// is left there is none, and otherwise each that is left leads on to another.
pub(crate) fn finds_loop(alloc: Global, slots: &[Slot]) -> Result<bool, NoMemory>
    ensures { IfOk result (λ found. LoopFound (shape_of slots.now) found) }
{
    let mut left = volumes_of(alloc, slots)?;
    while let Some(place) = sink_of(slots, left.as_slice()) {
        let _volume = left.remove(place);
    }
    Ok(!left.is_empty())
}
