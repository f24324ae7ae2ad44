//! Old slots that no slot needs.

ghost use Rattle.std.specs.Prelude.{◌≡◌, ◌≢◌, ◌<◌, ℕ, ◌↔◌, true, false, not, ◌&&◌, length, IfOk, Some, slice_index_or};
ghost use Rattle.fc_base.specs.Column.{holder};
ghost use Rattle.fc_base.specs.Counts.{is_unneeded, names_below};
ghost use Rattle.fc_base.specs.Need.{ReadsAt};
ghost use Rattle.fc_base.specs.Sheet.{slot_at, column};
ghost use Rattle.fc_check_sheet.specs.Needs.{AddsMarks, AreNeeded};

use fc_base::ids::SlotId;
use fc_base::list::List;
use fc_base::outcome::NoMemory;
use fc_model::PlainSheet;
use std::alloc::Global;

/// Marks the holder, at a grain, of the slot at a place, where that is another slot.
fn mark_holder(sheet: &PlainSheet, place: usize, grain: usize, needed: &mut [bool])
    requires there { place < length sheet.now.slots }
    requires long { length needed.old ≡ length sheet.now.slots }
    ensures { AddsMarks (λ k. (place ≢ k) × (holder (column sheet.now.slots grain) place ≡ Some k)) needed.old needed.new }
{
    if let Some(holder) = sheet.holder(place, grain)
        && holder != place
    {
        needed[holder] = true;
    }
}

/// Marks the slots from which the live slot at a place reads.
fn mark_holders(sheet: &PlainSheet, place: usize, needed: &mut [bool])
    requires there { place < length sheet.now.slots }
    requires live { (slot_at sheet.now.slots place).is_live ≡ true }
    requires long { length needed.old ≡ length sheet.now.slots }
    ensures { AddsMarks (λ k. ReadsAt sheet.now.slots k k place) needed.old needed.new }
{
    for grain in 0..sheet.width() {
        mark_holder(sheet, place, grain, needed);
    }
}

/// Marks the slots from which the slot at a place reads, if it is live.
fn mark_needs(sheet: &PlainSheet, place: usize, needed: &mut [bool])
    requires there { place < length sheet.now.slots }
    requires long { length needed.old ≡ length sheet.now.slots }
    ensures { AddsMarks (λ k. ReadsAt sheet.now.slots k k place) needed.old needed.new }
{
    if sheet.is_live(place) {
        mark_holders(sheet, place, needed);
    }
}

/// A mark for each place: whether another slot needs the slot there.
fn needed_places(alloc: Global, sheet: &PlainSheet) -> Result<Vec<bool>, NoMemory>
    ensures { IfOk result (λ needed. AreNeeded sheet.now.slots needed.items) }
{
    let Ok(mut needed) = Vec::from_elem(alloc, false, sheet.len()) else {
        return Err(NoMemory);
    };
    for place in 0..sheet.len() {
        mark_needs(sheet, place, &mut needed);
    }
    Ok(needed)
}

/// Whether the slot at a place is an old one that no slot needs.
fn is_unneeded_at(sheet: &PlainSheet, place: usize, needed: &[bool]) -> bool
    requires there { place < length needed.now }
    requires needed { AreNeeded sheet.now.slots needed.now }
    ensures { result ≡ is_unneeded sheet.now.slots place }
{
    !sheet.is_live(place) && !needed[place]
}

/// The names of the old slots that no slot needs at any grain, in order of their places.
pub(crate) fn unneeded_slots(alloc: Global, sheet: &PlainSheet) -> Result<List<SlotId>, NoMemory>
    ensures { IfOk result (λ names. names ≡ names_below sheet.now.slots (is_unneeded sheet.now.slots) (length sheet.now.slots)) }
{
    let needed = needed_places(alloc, sheet)?;
    let mut names = List::new(alloc);
    for place in 0..sheet.len() {
        if is_unneeded_at(sheet, place, &needed) {
            names.push(sheet.slot(place))?;
        }
    }
    Ok(names)
}
