//! Which slots read from a slot.

ghost use Rattle.std.specs.Prelude.{ℕ, ◌↔◌, IfOk, IsTrue, Contains};
ghost use Rattle.fc_base.specs.Need.{ReadsAt};

use fc_base::list::List;
use fc_base::outcome::NoMemory;
use fc_model::PlainSheet;
use std::alloc::Global;

/// Whether the slot at a place is live and has another one as holder at some grain.
fn reads(sheet: &PlainSheet, from: usize, place: usize) -> bool
    ensures { IsTrue result ↔ ReadsAt sheet.now.slots from from place }
{
    if place == from || !sheet.is_live(place) {
        return false;
    }
    for grain in 0..sheet.grains(from) {
        if sheet.holder(place, grain) == Some(from) {
            return true;
        }
    }
    false
}

/// The places of the live slots that have the slot at a place as holder at some grain.
pub(crate) fn readers_of(
    alloc: Global,
    sheet: &PlainSheet,
    from: usize,
) -> Result<List<usize>, NoMemory>
    ensures { IfOk result (λ places. (d : ℕ) → Contains places d ↔ ReadsAt sheet.now.slots from from d) }
{
    let mut places = List::new(alloc);
    for place in 0..sheet.len() {
        if reads(sheet, from, place) {
            places.push(place)?;
        }
    }
    Ok(places)
}
