//! What is asked of the copy of a mapping.

ghost use Rattle.std.specs.Prelude.{◌≡◌, IfOk};
ghost use Rattle.fc_base.specs.States.{next_state};
ghost use Rattle.fc_books.specs.Copies.{held, total, is_whole, is_needed, is_used};
ghost use Rattle.fc_books.specs.Ending.{as_left};
ghost use Rattle.fc_desk.specs.Control.{books_of};
ghost use Rattle.fc_desk.specs.Outcome.{ok_of};

use crate::control::Control;
use crate::ending::copy_mapping;
use fc_base::ids::VolId;
use fc_base::outcome::NoMemory;
use fc_base::sheet::Sheet;
use fc_base::state::{MapEvent, MapState};
use fc_base::volume::Mapping;
use fc_states::next;
use std::alloc::Global;

impl Control {
    /// How many grains the mapping's target has.
    pub fn total<S: Sheet>(&self, sheet: &S, mapping: &Mapping) -> u32
        ensures { result ≡ total (books_of self.now (S.meaning sheet.now)) mapping.now }
    {
        match self.registry().volume_with(mapping.target) {
            Some(volume) => volume.grains,
            None => 0,
        }
    }

    /// Whether the mapping's slot holds every grain.
    pub fn is_whole<S: Sheet>(&self, sheet: &S, mapping: &Mapping) -> bool
        ensures { result ≡ is_whole (books_of self.now (S.meaning sheet.now)) mapping.now }
    {
        self.total(sheet, mapping) <= sheet.held(mapping.id)
    }

    /// Whether another live slot reads from the mapping's slot.
    pub fn is_needed<S: Sheet>(&self, sheet: &S, mapping: &Mapping) -> bool
        ensures { result ≡ is_needed (books_of self.now (S.meaning sheet.now)) mapping.now }
    {
        0 < sheet.needed(mapping.id)
    }

    /// The mapping as it leaves copying: how much its copy held stays known.
    pub fn as_left<S: Sheet>(
        &self,
        alloc: Global,
        sheet: &S,
        mapping: &Mapping,
    ) -> Result<Mapping, NoMemory>
        ensures { IfOk result (λ left. left ≡ as_left (books_of self.now (S.meaning sheet.now)) mapping.now) }
    {
        let copy = copy_mapping(alloc, mapping)?;
        let held = sheet.held(mapping.id);
        Ok(Mapping {
            held_at_leave: held,
            complete: self.total(sheet, mapping) <= held,
            ..copy
        })
    }
}

/// Whether the volume is used as a source.
pub fn is_used<S: Sheet>(sheet: &S, volume: VolId) -> bool
    ensures { result ≡ is_used (S.meaning sheet.now).sheet.slots volume }
{
    sheet.used(volume)
}

/// The state in which a settling ends a mapping, if it does.
pub fn finished(state: MapState, complete: bool, needed: bool) -> Option<MapState>
    ensures { result ≡ ok_of (next_state state MapEvent.Finish complete needed) }
{
    match next(state, MapEvent::Finish, complete, needed) {
        Ok(state) => Some(state),
        Err(_) => None,
    }
}
