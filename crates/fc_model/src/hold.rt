//! One change of each slot in turn.

ghost use Rattle.std.specs.Prelude.{◌≡◌, ◌<◌, length, map};
ghost use Rattle.fc_base.specs.Sheet.{slot_at};
ghost use Rattle.fc_base.specs.SheetStep.{split_from, relabelled, grain_taken, grain_kept, grain_lost};

use model_slots::slot::Slot;

/// The slots of one chain come into another.
fn join_chain(slots: &mut [Slot], chain: u64, other: u64)
    ensures { slots.new ≡ map (split_from chain other) slots.old }
{
    for slot in slots.iter_mut() {
        slot.join(chain, other);
    }
}

/// The slot at a place and all behind it in its chain become a chain of their own, and the slot is no mapping's any more.
pub(crate) fn split_chain(slots: &mut [Slot], place: usize)
    requires { place < length slots.old }
    ensures { slots.new ≡ relabelled (split_from (slot_at slots.old place).chain (slot_at slots.old place).birth) place slots.old }
{
    let chain = slots[place].chain();
    let birth = slots[place].birth();
    slots[place].begin_chain();
    join_chain(&mut slots[place + 1..], chain, birth);
}

/// The volume's live slot gets the grain, and its older slots lose it.
pub(crate) fn take_grain(slots: &mut [Slot], volume: u32, grain: usize)
    ensures { slots.new ≡ map (grain_taken volume grain) slots.old }
{
    for slot in slots.iter_mut() {
        slot.take(volume, grain);
    }
}

/// The volume's live slot gets the grain, and nothing else changes.
pub(crate) fn keep_grain(slots: &mut [Slot], volume: u32, grain: usize)
    ensures { slots.new ≡ map (grain_kept volume grain) slots.old }
{
    for slot in slots.iter_mut() {
        slot.keep(volume, grain);
    }
}

/// The volume's older slots lose the grain.
pub(crate) fn lose_grain(slots: &mut [Slot], volume: u32, grain: usize)
    ensures { slots.new ≡ map (grain_lost volume grain) slots.old }
{
    for slot in slots.iter_mut() {
        slot.lose(volume, grain);
    }
}
