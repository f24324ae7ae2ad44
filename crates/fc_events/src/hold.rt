//! Pairs of slot and grain that are got and lost, at the slots of one volume.

ghost use Rattle.std.specs.Prelude.{◌≡◌, map};
ghost use Rattle.fc_base.specs.SheetStep.{grain_taken, grain_kept, grain_lost};
ghost use Rattle.fc_places.specs.Indexing.{ListsVolume};

use fc_places::index::Entry;
use fc_slots::slot::Slot;

/// The volume's live slot gets the grain, and its older slots lose it.
pub(crate) fn take_grain(slots: &mut [Slot], entries: &[Entry], volume: u32, grain: u32)
    requires { ListsVolume slots.old volume entries.now }
    ensures { slots.new ≡ map (grain_taken volume grain) slots.old }
{
    for entry in entries {
        slots[entry.place].take(volume, grain);
    }
}

/// The volume's live slot gets the grain, and nothing else changes.
pub(crate) fn keep_grain(slots: &mut [Slot], entries: &[Entry], volume: u32, grain: u32)
    requires { ListsVolume slots.old volume entries.now }
    ensures { slots.new ≡ map (grain_kept volume grain) slots.old }
{
    for entry in entries {
        slots[entry.place].keep(volume, grain);
    }
}

/// The volume's older slots lose the grain.
pub(crate) fn lose_grain(slots: &mut [Slot], entries: &[Entry], volume: u32, grain: u32)
    requires { ListsVolume slots.old volume entries.now }
    ensures { slots.new ≡ map (grain_lost volume grain) slots.old }
{
    for entry in entries {
        slots[entry.place].lose(volume, grain);
    }
}
