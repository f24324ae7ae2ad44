//! Which events fit a sheet.

ghost use Rattle.std.specs.Prelude.{◌≡◌, ◌≢◌, ◌⊎◌, ℕ, ◌<◌, ◌↔◌, IfOk, IsTrue, IsSome, Contains, Some, true, false, length};
ghost use Rattle.fc_base.specs.Need.{IsNeeded, is_complete};
ghost use Rattle.fc_base.specs.Sheet.{slot_at, column, shape_of, mapping_place};
ghost use Rattle.fc_base.specs.SheetFits.{FitsRemove, FitsPair, FitsTrigger, HasLiveSlot, IsSlotOf, FitsForce, FitsDrop, FitsEvent};
ghost use Rattle.fc_base.specs.Column.{holder};
ghost use Rattle.chain_steps.specs.Fits.{FitsOne, FitsTwo, IsClosed};

use fc_base::decision::LaneEvent;
use fc_base::ids::{MapId, SlotId, VolId};
use fc_base::outcome::NoMemory;
use fc_base::request::Pair;
use fc_model::PlainSheet;
use std::alloc::Global;

/// Whether the volume never had a slot that is still there.
fn fits_make(plain: &PlainSheet, volume: VolId) -> bool
    ensures { IsTrue result → (k : ℕ) → k < length plain.now.slots → (slot_at plain.now.slots k).volume ≢ volume.0 }
{
    for place in 0..plain.len() {
        if plain.volume(place).0 == volume.0 {
            return false;
        }
    }
    true
}

/// Whether the volume's slot stands alone.
fn fits_remove(plain: &PlainSheet, volume: VolId) -> bool
    ensures { IsTrue result → FitsRemove plain.now.slots volume.0 }
{
    let place = match plain.live_place(volume) {
        Some(place) => place,
        None => return false,
    };
    for other in 0..plain.len() {
        if other != place
            && (plain.volume(other).0 == volume.0 || plain.chain(other).0 == plain.chain(place).0)
        {
            return false;
        }
    }
    true
}

/// Whether a pair may be started.
fn fits_pair(plain: &PlainSheet, pair: Pair) -> bool
    ensures { IsTrue result → FitsPair plain.now.slots pair }
{
    match (plain.live_place(pair.source), plain.live_place(pair.target)) {
        (Some(source), Some(target)) => {
            plain.grains(source) == plain.grains(target)
                && plain.is_complete(target)
                && plain.mapping_place(pair.map).is_none()
        }
        _ => false,
    }
}

/// Whether one pair may be started alone, loops aside.
fn fits_one(plain: &PlainSheet, pair: Pair) -> bool
    ensures { IsTrue result → FitsOne plain.now.slots pair }
{
    pair.target.0 != pair.source.0 && fits_pair(plain, pair)
}

/// Whether two pairs may be started at once, loops aside.
fn fits_two(plain: &PlainSheet, first: Pair, second: Pair) -> bool
    ensures { IsTrue result → FitsTwo plain.now.slots first second }
{
    first.map.0 != second.map.0
        && first.target.0 != second.target.0
        && first.target.0 != second.source.0
        && second.target.0 != first.source.0
        && fits_one(plain, first)
        && fits_one(plain, second)
}

/// Whether one pair, or two, may be started.
fn fits_trigger(alloc: Global, plain: &PlainSheet, pairs: &[Pair]) -> Result<bool, NoMemory>
    ensures { IfOk result (λ fits. IsTrue fits → FitsTrigger plain.now pairs.now) }
{
    if plain.has_loop_after(alloc, pairs)? {
        return Ok(false);
    }
    if pairs.len() == 1 {
        return Ok(fits_one(plain, pairs[0]));
    }
    if pairs.len() == 2 {
        return Ok(fits_two(plain, pairs[0], pairs[1]));
    }
    Ok(false)
}

/// Whether the mapping's slot is live.
fn fits_live(plain: &PlainSheet, map: MapId) -> bool
    ensures { IsTrue result → (k : ℕ) × HasLiveSlot plain.now.slots map.0 k }
{
    match plain.mapping_place(map) {
        Some(place) => plain.is_live(place),
        None => false,
    }
}

/// Whether the mapping's slot is live and nobody needs it.
fn fits_detach(plain: &PlainSheet, map: MapId) -> bool
    ensures { IsTrue result → (k : ℕ) × HasLiveSlot plain.now.slots map.0 k × (IsNeeded plain.now.slots k → ⊥) }
{
    match plain.mapping_place(map) {
        Some(place) => plain.is_live(place) && !plain.is_needed(place),
        None => false,
    }
}

/// Whether the mapping's slot is live and holds every grain.
fn fits_split(plain: &PlainSheet, map: MapId) -> bool
    ensures { IsTrue result → (k : ℕ) × HasLiveSlot plain.now.slots map.0 k × (is_complete (slot_at plain.now.slots k) ≡ true) }
{
    match plain.mapping_place(map) {
        Some(place) => plain.is_live(place) && plain.is_complete(place),
        None => false,
    }
}

/// Whether the slot at a place is the mapping's.
fn is_of(plain: &PlainSheet, map: MapId, place: usize) -> bool
    ensures { IsTrue result ↔ (mapping_place plain.now.slots map.0 ≡ Some place) }
{
    match plain.mapping_place(map) {
        Some(own) => own == place,
        None => false,
    }
}

/// Whether the slot at a place is the mapping's, or one of the others'.
fn is_slot_of(plain: &PlainSheet, map: MapId, others: &[MapId], place: usize) -> bool
    ensures { IsTrue result ↔ IsSlotOf plain.now.slots map others.now place }
{
    if is_of(plain, map, place) {
        return true;
    }
    for other in others {
        if is_of(plain, *other, place) {
            return true;
        }
    }
    false
}

/// Whether the mapping and each of the others have their slots.
fn have_slots(plain: &PlainSheet, map: MapId, others: &[MapId]) -> bool
    ensures { IsTrue result → (n : MapId) → (n ≡ map) ⊎ Contains others.now n → IsSome (mapping_place plain.now.slots n.0) }
{
    if plain.mapping_place(map).is_none() {
        return false;
    }
    for other in others {
        if plain.mapping_place(*other).is_none() {
            return false;
        }
    }
    true
}

/// Whether the slot at a place has one of these as holder at some grain.
fn reads_forced(plain: &PlainSheet, map: MapId, others: &[MapId], place: usize) -> bool
    ensures { result ≡ false → (g h : ℕ) → holder (column plain.now.slots g) place ≡ Some h → IsSlotOf plain.now.slots map others.now h → ⊥ }
{
    for grain in 0..plain.width() {
        if let Some(holder) = plain.holder(place, grain)
            && is_slot_of(plain, map, others, holder)
        {
            return true;
        }
    }
    false
}

/// Whether no live slot besides has one of these as holder.
fn is_closed(plain: &PlainSheet, map: MapId, others: &[MapId]) -> bool
    ensures { IsTrue result → IsClosed plain.now.slots map others.now }
{
    for place in 0..plain.len() {
        if plain.is_live(place)
            && !is_slot_of(plain, map, others, place)
            && reads_forced(plain, map, others, place)
        {
            return false;
        }
    }
    true
}

/// Whether the mapping's slot and those of the others may be taken out.
fn fits_force(plain: &PlainSheet, map: MapId, others: &[MapId]) -> bool
    ensures { IsTrue result → FitsForce plain.now.slots map others.now }
{
    have_slots(plain, map, others) && is_closed(plain, map, others)
}

/// Whether the slot is an old one that nobody needs.
fn fits_drop(plain: &PlainSheet, slot: SlotId) -> bool
    ensures { IsTrue result → FitsDrop plain.now.slots slot.0 }
{
    match plain.slot_place(slot) {
        Some(place) => !plain.is_live(place) && !plain.is_needed(place),
        None => false,
    }
}

/// Whether an event fits; those that aren't about chains are passed over.
pub fn fits(alloc: Global, plain: &PlainSheet, event: &LaneEvent) -> Result<bool, NoMemory>
    ensures { IfOk result (λ fits. IsTrue fits → FitsEvent plain.now event.now) }
{
    match event {
        LaneEvent::Make { volume, .. } => Ok(fits_make(plain, *volume)),
        LaneEvent::Remove { volume } => Ok(fits_remove(plain, *volume)),
        LaneEvent::Trigger { pairs } => fits_trigger(alloc, plain, pairs.as_slice()),
        LaneEvent::Retire { map } => Ok(fits_live(plain, *map)),
        LaneEvent::Detach { map } => Ok(fits_detach(plain, *map)),
        LaneEvent::Split { map } => Ok(fits_split(plain, *map)),
        LaneEvent::Force { map, dependents } => {
            Ok(fits_force(plain, *map, dependents.as_slice()))
        }
        LaneEvent::Drop { slot } => Ok(fits_drop(plain, *slot)),
        _ => Ok(false),
    }
}
