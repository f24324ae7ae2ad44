//! Decisions on `startfcmap`.

ghost use Rattle.std.specs.Prelude.{◌≡◌, ◌&&◌, nat_lt, nat_le, IfOk, OnOk, Contains, true, filter, cond};
ghost use Rattle.fc_base.specs.SheetView.{count_true};
ghost use Rattle.fc_books.specs.Books.{nothing, ◌then◌, told, all_deeds};
ghost use Rattle.fc_books.specs.Copies.{total};
ghost use Rattle.fc_books.specs.Deciding.{with_work};
ghost use Rattle.fc_books.specs.Sound.{AreSound};
ghost use Rattle.fc_books.specs.Starting.{is_superseded, gives_way, start, triggers};
ghost use Rattle.fc_starts.specs.Choosing.{is_chosen, chosen_of};
ghost use Rattle.fc_desk.specs.ForChosen.{for_chosen};
ghost use Rattle.fc_desk.specs.Control.{books_of};
ghost use Rattle.fc_starts.specs.Starts.{started_told, IsStartable, AreApart, HaveRoom};

use crate::activate::{begin, supersede};
use crate::chosen::{Chosen, chosen_pairs, is_chosen};
use fc_base::decision::{Decision, LaneEvent};
use fc_base::outcome::NoMemory;
use fc_base::request::{Effect, Reply};
use fc_base::sheet::Sheet;
use fc_base::state::MapState;
use fc_base::volume::Mapping;
use fc_desk::{Control, Draft, tell_flags};
use std::alloc::Global;

/// Mappings are started, all at once, and lanes are told of the background work that changes.
pub fn start<S: Sheet>(
    alloc: Global,
    control: &Control,
    sheet: &S,
    chosen: Chosen,
    prep: bool,
    restore: bool,
) -> Result<Decision, NoMemory>
    requires sound { AreSound (books_of control.now (S.meaning sheet.now)) }
    requires room { HaveRoom (books_of control.now (S.meaning sheet.now)) (S.meaning sheet.now).restarts }
    requires startable { (m : Mapping) → Contains control.now.tables.mappings m → is_chosen chosen m ≡ true → IsStartable control.now.tables.mappings m }
    requires apart { AreApart (chosen_of control.now.tables chosen) }
    ensures { IfOk result (λ decision. decision ≡ with_work (S.meaning sheet.now).restarts (books_of control.now (S.meaning sheet.now)) Reply.Done (start prep restore control.now.tables (chosen_of control.now.tables chosen))) }
{
    let draft = draft_start(alloc, control, chosen, prep, restore)?;
    let whole = tell_started(control, sheet, draft, chosen)?;
    Ok(whole.into_decision(Reply::Done))
}

/// What starting mappings does, but for the background work.
fn draft_start(
    alloc: Global,
    control: &Control,
    chosen: Chosen,
    prep: bool,
    restore: bool,
) -> Result<Draft, NoMemory>
    ensures { IfOk result (λ draft. draft ≡ start prep restore control.now.tables (chosen_of control.now.tables chosen)) }
{
    let mappings = control.registry().all_mappings();
    let prepared = draft_superseded(alloc, mappings, chosen, prep)?;
    let triggered = trigger(alloc, prepared, mappings, chosen)?;
    let whole = begin(
        alloc,
        triggered,
        mappings,
        chosen,
        MapState::Copying,
        restore,
    )?;
    Ok(whole)
}

/// Lanes are told of the background work that changes, where the chosen mappings have started.
fn tell_started<S: Sheet>(
    control: &Control,
    sheet: &S,
    mut draft: Draft,
    chosen: Chosen,
) -> Result<Draft, NoMemory>
    ensures { IfOk result (λ whole. whole ≡ (draft then all_deeds (λ m. told (started_told (books_of control.now (S.meaning sheet.now)) (S.meaning sheet.now).restarts (is_chosen chosen) m)) control.now.tables.mappings)) }
{
    for mapping in control.registry().all_mappings() {
        tell_start_of(control, sheet, &mut draft, chosen, mapping)?;
    }
    Ok(draft)
}

/// Lanes are told of the background work of a mapping, where it changes as the chosen ones start.
fn tell_start_of<S: Sheet>(
    control: &Control,
    sheet: &S,
    draft: &mut Draft,
    chosen: Chosen,
    mapping: &Mapping,
) -> Result<(), NoMemory>
    ensures { OnOk result (draft.new ≡ (draft.old then told (started_told (books_of control.now (S.meaning sheet.now)) (S.meaning sheet.now).restarts (is_chosen chosen) mapping.now))) }
{
    if is_chosen(mapping, chosen) {
        let whole = begins_filled(control, sheet, mapping);
        tell_flags(draft, control.work_in(MapState::Copying, mapping, whole))
    } else {
        control.tell_work_of(sheet, draft, None, mapping)
    }
}

/// Whether the copy of a mapping that starts, which is to be filled in the background, begins whole. Without copies in
/// the background its work doesn't depend on that, and it isn't asked.
fn begins_filled<S: Sheet>(control: &Control, sheet: &S, mapping: &Mapping) -> bool
    ensures { result ≡ (nat_lt 0 mapping.now.copy_rate && nat_le (total (books_of control.now (S.meaning sheet.now)) mapping.now) (count_true ((S.meaning sheet.now).restarts mapping.now.id.0))) }
{
    0 < mapping.copy_rate && control.total(sheet, mapping) <= sheet.restart(mapping.id)
}

/// With `-prep` the mappings that give way to the chosen ones.
fn draft_superseded(
    alloc: Global,
    mappings: &[Mapping],
    chosen: Chosen,
    prep: bool,
) -> Result<Draft, NoMemory>
    ensures { IfOk result (λ draft. draft ≡ cond prep (all_deeds (for_chosen (is_superseded (filter (is_chosen chosen) mappings.now)) gives_way) mappings.now) nothing) }
{
    if prep {
        supersede(alloc, Draft::new(alloc), mappings, chosen)
    } else {
        Ok(Draft::new(alloc))
    }
}

/// The chosen mappings are triggered, all at once.
fn trigger(
    alloc: Global,
    mut draft: Draft,
    mappings: &[Mapping],
    chosen: Chosen,
) -> Result<Draft, NoMemory>
    ensures { IfOk result (λ whole. whole ≡ (draft then triggers (filter (is_chosen chosen) mappings.now))) }
{
    draft.affect(Effect::Trigger {
        pairs: chosen_pairs(alloc, mappings, chosen)?,
    })?;
    draft.tell(LaneEvent::Trigger {
        pairs: chosen_pairs(alloc, mappings, chosen)?,
    })?;
    Ok(draft)
}
