//! Settling, with which every command begins.

ghost use Rattle.std.specs.Prelude.{◌≡◌, OnOk, IfOk, map};
ghost use Rattle.fc_books.specs.Books.{◌then◌, told, all_deeds};
ghost use Rattle.fc_books.specs.Settling.{settles_in};
ghost use Rattle.fc_books.specs.Deciding.{settle};
ghost use Rattle.fc_desk.specs.Control.{books_of};

use crate::control::Control;
use crate::copies::finished;
use crate::draft::Draft;
use crate::ending::{copy_mapping, end_in};
use fc_base::decision::{Decision, LaneEvent};
use fc_base::ids::SlotId;
use fc_base::outcome::NoMemory;
use fc_base::request::Reply;
use fc_base::sheet::Sheet;
use fc_base::state::MapState;
use fc_base::volume::Mapping;
use std::alloc::Global;

impl Control {
    /// What every command does first: old slots that nobody needs are dropped, and copies end that are complete or that
    /// nobody needs any more. Its reply is NoMemory, which stays where the command then finds no memory.
    pub fn settle<S: Sheet>(&self, alloc: Global, sheet: &S) -> Result<Decision, NoMemory>
        ensures { IfOk result (λ decision. decision ≡ settle (books_of self.now (S.meaning sheet.now))) }
    {
        let unneeded = sheet.unneeded(alloc)?;
        let draft = drop_slots(alloc, unneeded.as_slice())?;
        let draft = self.settle_mappings(alloc, sheet, draft)?;
        Ok(draft.into_decision(Reply::NoMemory))
    }

    /// What a settling does to all mappings, by id.
    fn settle_mappings<S: Sheet>(
        &self,
        alloc: Global,
        sheet: &S,
        mut draft: Draft,
    ) -> Result<Draft, NoMemory>
        ensures { IfOk result (λ whole. whole ≡ (draft then all_deeds (λ m. settles_in m.state (books_of self.now (S.meaning sheet.now)) m) self.now.tables.mappings)) }
    {
        for mapping in self.registry().all_mappings() {
            self.settle_mapping(alloc, sheet, &mut draft, mapping)?;
        }
        Ok(draft)
    }

    /// What a settling does to one mapping.
    fn settle_mapping<S: Sheet>(
        &self,
        alloc: Global,
        sheet: &S,
        draft: &mut Draft,
        mapping: &Mapping,
    ) -> Result<(), NoMemory>
        ensures { OnOk result (draft.new ≡ (draft.old then settles_in mapping.now.state (books_of self.now (S.meaning sheet.now)) mapping.now)) }
    {
        match mapping.state {
            MapState::Copying => self.settle_copying(alloc, sheet, draft, mapping),
            MapState::Stopping => self.settle_stopping(alloc, sheet, draft, mapping),
            _ => Ok(()),
        }
    }

    /// A copying mapping that is complete and not needed is detached and ends. Whether it is needed is asked of a complete one
    /// alone.
    fn settle_copying<S: Sheet>(
        &self,
        alloc: Global,
        sheet: &S,
        draft: &mut Draft,
        mapping: &Mapping,
    ) -> Result<(), NoMemory>
        ensures { OnOk result (draft.new ≡ (draft.old then settles_in MapState.Copying (books_of self.now (S.meaning sheet.now)) mapping.now)) }
    {
        if !self.is_whole(sheet, mapping) {
            return Ok(());
        }
        let needed = self.is_needed(sheet, mapping);
        match finished(MapState::Copying, true, needed) {
            Some(state) => {
                draft.tell(LaneEvent::Detach { map: mapping.id })?;
                let left = self.as_left(alloc, sheet, mapping)?;
                end_in(draft, left, state)
            }
            None => Ok(()),
        }
    }

    /// A stopping mapping that nobody needs ends.
    fn settle_stopping<S: Sheet>(
        &self,
        alloc: Global,
        sheet: &S,
        draft: &mut Draft,
        mapping: &Mapping,
    ) -> Result<(), NoMemory>
        ensures { OnOk result (draft.new ≡ (draft.old then settles_in MapState.Stopping (books_of self.now (S.meaning sheet.now)) mapping.now)) }
    {
        let needed = self.is_needed(sheet, mapping);
        match finished(MapState::Stopping, mapping.complete, needed) {
            Some(state) => end_in(draft, copy_mapping(alloc, mapping)?, state),
            None => Ok(()),
        }
    }
}

/// Lanes are told to drop these slots.
fn drop_slots(alloc: Global, slots: &[SlotId]) -> Result<Draft, NoMemory>
    ensures { IfOk result (λ draft. draft ≡ told (map (λ slot. LaneEvent.Drop slot) slots.now)) }
{
    let mut draft = Draft::new(alloc);
    for slot in slots {
        draft.tell(LaneEvent::Drop { slot: *slot })?;
    }
    Ok(draft)
}
