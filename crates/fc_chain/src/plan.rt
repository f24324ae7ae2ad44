//! The moves that a fill or a write owes: each slot after all that it asks for, once.

ghost use Rattle.std.specs.Prelude.{◌≡◌, ℕ, ◌<◌, ◌≤◌, IsTrue, length, List, eqb, [], Some};
ghost use Rattle.std.specs.List.{list_any};
ghost use Rattle.fc_base.specs.declared.request.Move.{Move};
ghost use Rattle.fc_base.specs.Plan.{move_at, moves_of_fill, moves_of_write};
ghost use Rattle.fc_base.specs.Sheet.{slot_at, column};
ghost use Rattle.fc_base.specs.Moves.{is_in, is_in_place, list_with_asked};
ghost use Rattle.fc_slots.specs.Contiguous.{IsContiguous};
ghost use Rattle.fc_places.specs.Directory.{ListsSlots};
ghost use Rattle.fc_places.specs.Olds.{HasApartBirths};
ghost use Rattle.fc_chain.specs.Planning.{IsPlanned, HasRoom, FillFits, WriteFits};
ghost use Rattle.fc_places.specs.Directory.{volume_count};

use fc_base::ids::{GrainNo, SlotId, VolId};
use fc_base::move_plan::MovePlan;
use fc_base::request::Move;
use fc_places::directory::Directory;
use fc_slots::slot::Slot;
use fc_slots::walk::{first_reader_of, holder_of, next_waiting};

/// A grain of the lane: its place among the lane's grains, and its number in the volume.
#[derive(Clone, Copy)]
pub(crate) struct LaneGrain {
    pub(crate) place: u32,
    pub(crate) number: u32,
}

/// Whether the slot's holder is an old slot of its own volume.
pub(crate) fn fills_in_place(slots: &[Slot], place: usize, grain: u32) -> bool
    requires there { place < length slots.now }
    requires together { IsContiguous slots.now }
    ensures { result ≡ is_in_place (column slots.now grain) place }
{
    let volume = slots[place].volume();
    match holder_of(slots, place, grain) {
        Some(holder) => slots[holder].is_old_of(volume),
        None => false,
    }
}

/// Whether the moves list the slot with this birth already.
fn lists(moves: &[Move], birth: u64) -> bool
    ensures { result ≡ list_any (λ (m : Move). eqb m.slot.0 birth) moves.now }
{
    moves.iter().any(|m| m.slot.0 == birth)
}

/// The move of the slot at a place.
fn move_of(slots: &[Slot], place: usize, grain: LaneGrain) -> Move
    requires there { place < length slots.now }
    requires together { IsContiguous slots.now }
    ensures { result ≡ move_at slots.now grain.place grain.number place }
{
    Move {
        slot: SlotId(slots[place].birth()),
        volume: VolId(slots[place].volume()),
        grain: GrainNo(grain.number),
        in_place: fills_in_place(slots, place, grain.place),
    }
}

/// Adds the moves that a fill of the slot at a place owes, where they aren't listed yet. The depth bounds how
/// often asking leads on to asking.
pub(crate) fn add_fill(
    slots: &[Slot],
    directory: &Directory,
    depth: usize,
    place: usize,
    grain: LaneGrain,
    plan: &mut MovePlan,
)
    requires there { place < length slots.now }
    requires apart { HasApartBirths slots.now }
    requires together { IsContiguous slots.now }
    requires listed { ListsSlots slots.now directory.now }
    requires room { HasRoom slots.now grain.place grain.number plan.old.moves plan.old.room depth place }
    ensures room { plan.new.room ≡ plan.old.room }
    ensures listed { (listed : List ℕ) → IsPlanned slots.now grain.place grain.number plan.old.moves listed → IsPlanned slots.now grain.place grain.number plan.new.moves (list_with_asked (column slots.now grain.place) depth place listed) }
{
    if depth == 0 || lists(plan.as_slice(), slots[place].birth()) {
        return;
    }
    if !fills_in_place(slots, place, grain.place) {
        let volume = slots[place].volume();
        let mut after = None;
        while let Some(old) = directory.next_old(slots, volume, after) {
            after = Some(slots[old].birth());
            if let Some(reader) = first_reader_of(slots, old, old, grain.place) {
                add_fill(slots, directory, depth - 1, reader, grain, plan);
            }
        }
    }
    plan.push(move_of(slots, place, grain));
}

/// The moves that a fill of the slot at a place owes, into an empty plan.
pub(crate) fn plan_fill(
    slots: &[Slot],
    directory: &Directory,
    place: usize,
    grain: LaneGrain,
    plan: &mut MovePlan,
)
    requires fit { FillFits slots.now grain.place place }
    requires listed { ListsSlots slots.now directory.now }
    requires empty { plan.old.moves ≡ [] }
    requires room { volume_count slots.now ≤ plan.old.room }
    ensures { plan.new ≡ record plan.old { moves = moves_of_fill slots.now grain.place grain.number place } }
{
    add_fill(slots, directory, slots.len(), place, grain, plan);
}

/// The moves that a write of the volume owes whose live slot is at a place, into an empty plan.
pub(crate) fn plan_write(
    slots: &[Slot],
    directory: &Directory,
    place: usize,
    grain: LaneGrain,
    plan: &mut MovePlan,
)
    requires fit { WriteFits slots.now place }
    requires listed { ListsSlots slots.now directory.now }
    requires empty { plan.old.moves ≡ [] }
    requires room { volume_count slots.now ≤ plan.old.room }
    ensures { plan.new ≡ record plan.old { moves = moves_of_write slots.now grain.place grain.number (Some place) } }
{
    let volume = slots[place].volume();
    let mut after = None;
    while let Some(old) = directory.next_old(slots, volume, after) {
        after = Some(slots[old].birth());
        if let Some(reader) = first_reader_of(slots, old, place, grain.place) {
            add_fill(slots, directory, slots.len(), reader, grain, plan);
        }
    }
    if let Some(next) = next_waiting(slots, place, grain.place) {
        add_fill(slots, directory, slots.len(), next, grain, plan);
    }
}
