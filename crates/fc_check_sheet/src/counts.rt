//! Counts of grains.

ghost use Rattle.std.specs.Prelude.{◌≡◌, ◌<◌, ◌^◌, length};
ghost use Rattle.fc_base.specs.Counts.{need_count_of};
ghost use Rattle.fc_base.specs.Sheet.{slot_at};
ghost use Rattle.fc_base.specs.SheetView.{count_true};

use fc_model::PlainSheet;

/// How many grains are marked.
pub(crate) fn count_marks(marks: &[bool]) -> u32
    requires { length marks.now < 2 ^ 32 }
    ensures { result ≡ count_true marks.now }
{
    marks.iter().filter(|mark| **mark).count() as u32
}

/// At how many grains another slot needs the slot at a place.
pub(crate) fn needed_grains(sheet: &PlainSheet, place: usize) -> u32
    requires { length (slot_at sheet.now.slots place).held < 2 ^ 32 }
    ensures { result ≡ need_count_of sheet.now.slots place }
{
    let mut needed: u32 = 0;
    for grain in 0..sheet.grains(place) {
        needed += u32::from(sheet.needer(place, grain).is_some());
    }
    needed
}
