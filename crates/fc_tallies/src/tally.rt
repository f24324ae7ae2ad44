//! How many grains each slot holds, and at how many another slot needs it: counted for all slots in one pass.

ghost use Rattle.std.specs.Prelude.{◌≡◌, ℕ, ◌+◌, ◌<◌, ◌≤◌, ◌↔◌, IsTrue, length};
ghost use Rattle.fc_bits.specs.Words.{words_for};
ghost use Rattle.fc_base.specs.Sheet.{slot_at};
ghost use Rattle.fc_slots.specs.Contiguous.{IsContiguous};
ghost use Rattle.fc_tallies.specs.Tallies.{tally_of, AreTallies, AreOneSize, GoesOn, HasBehind, HasAwaited, HasWordsFor};

use crate::waiting::{clear_waiting, take_held, wait_for_others};
use fc_slots::slot::Slot;

/// The counts of a slot.
#[derive(Clone, Copy)]
pub struct Tally {
    /// How many of the lane's grains it holds.
    pub held: u32,
    /// At how many of them another slot needs it.
    pub needed: u32,
}

/// No counts yet.
pub(crate) const NO_TALLY: Tally = Tally { held: 0, needed: 0 };

/// Whether the slot's chain goes on at the next place.
pub(crate) fn goes_on(slots: &[Slot], place: usize) -> bool
    requires { place < length slots.now }
    ensures { IsTrue result ↔ GoesOn slots.now place }
{
    place + 1 < slots.len() && slots[place + 1].chain() == slots[place].chain()
}

/// From the grains that are waited for at the next place to those that are waited for behind this one: none
/// where a chain ends here.
fn look_behind(slots: &[Slot], place: usize, waiting: &mut [u64])
    requires there { place < length slots.now }
    requires words { HasWordsFor slots.now waiting.old }
    requires together { IsContiguous slots.now }
    requires sizes { AreOneSize slots.now }
    requires awaited { HasAwaited slots.now (place + 1) waiting.old }
    ensures { HasBehind slots.now place waiting.new }
{
    if goes_on(slots, place) {
        return;
    }
    clear_waiting(waiting, slots[place].held().words().len());
}

/// The counts of the slot at a place, with the grains that are waited for from the next place on; afterwards they
/// are those from this place on.
fn tally_slot(slots: &[Slot], place: usize, waiting: &mut [u64]) -> Tally
    requires there { place < length slots.now }
    requires words { HasWordsFor slots.now waiting.old }
    requires together { IsContiguous slots.now }
    requires sizes { AreOneSize slots.now }
    requires awaited { HasAwaited slots.now (place + 1) waiting.old }
    ensures tally { result ≡ tally_of slots.now place }
    ensures awaited { HasAwaited slots.now place waiting.new }
{
    look_behind(slots, place, waiting);
    let slot = &slots[place];
    let held = slot.held().words();
    let tally = Tally {
        held: slot.held_count(),
        needed: take_held(waiting, held),
    };
    if !slot.is_live() {
        return tally;
    }
    wait_for_others(waiting, held);
    tally
}

/// Counts anew for all slots, from the last to the first. `waiting` has words for the grains of each slot, and its
/// contents don't matter. Takes no memory.
pub(crate) fn recount(slots: &[Slot], waiting: &mut [u64], tallies: &mut [Tally])
    requires room { length slots.now ≤ length tallies.old }
    requires words { HasWordsFor slots.now waiting.old }
    requires together { IsContiguous slots.now }
    requires sizes { AreOneSize slots.now }
    ensures { AreTallies slots.now tallies.new }
{
    let mut place = slots.len();
    while place > 0 {
        place -= 1;
        tallies[place] = tally_slot(slots, place, waiting);
    }
}
