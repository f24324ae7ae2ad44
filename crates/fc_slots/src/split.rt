//! A chain in two.

ghost use Rattle.std.specs.Prelude.{◌≡◌, ◌<◌, length};
ghost use Rattle.fc_base.specs.Sheet.{slot_at};
ghost use Rattle.fc_base.specs.SheetStep.{split_from, relabelled};

use crate::slot::Slot;

/// The slot at a place and all behind it in its chain become a chain of their own, named by the slot's birth.
pub fn split_chain(slots: &mut [Slot], place: usize)
    requires { place < length slots.old }
    ensures { slots.new ≡ relabelled (split_from (slot_at slots.old place).chain (slot_at slots.old place).birth) place slots.old }
{
    let from = slots[place].chain();
    let to = slots[place].birth();
    slots[place].begin_chain();
    let mut behind = place + 1;
    while behind < slots.len() {
        slots[behind].go_along(from, to);
        behind += 1;
    }
}
