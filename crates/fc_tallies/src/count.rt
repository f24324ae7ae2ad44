//! Slots that are needed by none, the direct readers of a slot, and whether live slots stand behind it.

ghost use Rattle.std.specs.Prelude.{◌≡◌, ℕ, ◌<◌, ◌≤◌, ◌↔◌, IsTrue, length, OnOk, OnErr, ◌++◌};
ghost use Rattle.fc_base.specs.Sheet.{slot_at};
ghost use Rattle.fc_base.specs.Counts.{LiveBehind, names_below, is_direct, is_unneeded};
ghost use Rattle.fc_slots.specs.Contiguous.{IsContiguous};
ghost use Rattle.fc_tallies.specs.Fronts.{AddsFront};
ghost use Rattle.fc_tallies.specs.Tallies.{AreTallies, AreOneSize, HoldsWords};

use crate::tallies::Tallies;
use crate::tally::goes_on;
use crate::waiting::take_held;
use fc_base::ids::SlotId;
use fc_base::list::List;
use fc_base::outcome::NoMemory;
use fc_slots::slot::Slot;
use std::alloc::Global;

/// Adds the names of the live slots other than the one at a place that have it as holder at some grain. Refused, the first of
/// them may be added.
pub fn add_direct(
    alloc: Global,
    slots: &[Slot],
    place: usize,
    out: &mut List<SlotId>,
) -> Result<(), NoMemory>
    requires there { place < length slots.now }
    requires together { IsContiguous slots.now }
    requires sizes { AreOneSize slots.now }
    ensures ok { OnOk result (out.new ≡ out.old ++ names_below slots.now (is_direct slots.now place) (length slots.now)) }
    ensures err { OnErr result (AddsFront out.old (names_below slots.now (is_direct slots.now place) (length slots.now)) out.new) }
{
    match Vec::from_slice(alloc, slots[place].held().words()) {
        Ok(mut left) => add_readers(slots, place, &mut left, out),
        Err(_) => Err(NoMemory),
    }
}

/// Adds the live slots behind a place that read there, as long as some grain that it holds is held by no slot
/// between; `left` has its grains at first.
fn add_readers(
    slots: &[Slot],
    place: usize,
    left: &mut [u64],
    out: &mut List<SlotId>,
) -> Result<(), NoMemory>
    requires there { place < length slots.now }
    requires together { IsContiguous slots.now }
    requires sizes { AreOneSize slots.now }
    requires left { HoldsWords (slot_at slots.now place).held left.old }
    ensures ok { OnOk result (out.new ≡ out.old ++ names_below slots.now (is_direct slots.now place) (length slots.now)) }
    ensures err { OnErr result (AddsFront out.old (names_below slots.now (is_direct slots.now place) (length slots.now)) out.new) }
{
    let mut remaining = slots[place].held_count();
    let mut reader = place;
    while remaining > 0 && goes_on(slots, reader) {
        reader += 1;
        let slot = &slots[reader];
        remaining -= take_held(left, slot.held().words());
        if remaining > 0 && slot.is_live() {
            out.push(SlotId(slot.birth()))?;
        }
    }
    Ok(())
}

/// Adds the names of the old slots that nobody needs. Refused, the first of them may be added.
pub fn add_unneeded(
    slots: &[Slot],
    tallies: &Tallies,
    out: &mut List<SlotId>,
) -> Result<(), NoMemory>
    requires room { length slots.now ≤ length tallies.now.tallies }
    requires tallied { AreTallies slots.now tallies.now.tallies }
    ensures ok { OnOk result (out.new ≡ out.old ++ names_below slots.now (is_unneeded slots.now) (length slots.now)) }
    ensures err { OnErr result (AddsFront out.old (names_below slots.now (is_unneeded slots.now) (length slots.now)) out.new) }
{
    for (place, slot) in slots.iter().enumerate() {
        if !slot.is_live() && tallies.at(place).needed == 0 {
            out.push(SlotId(slot.birth()))?;
        }
    }
    Ok(())
}
