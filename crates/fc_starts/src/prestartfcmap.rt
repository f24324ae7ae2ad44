//! Decisions on `prestartfcmap` and `prestartfcconsistgrp`.

ghost use Rattle.std.specs.Prelude.{◌≡◌, IfOk, None, Contains, false, true};
ghost use Rattle.fc_base.specs.declared.command.Command.{Command};
ghost use Rattle.fc_books.specs.Accesses.{is_active};
ghost use Rattle.fc_books.specs.Deciding.{with_work, decide};
ghost use Rattle.fc_books.specs.Sound.{AreSound};
ghost use Rattle.fc_books.specs.Starting.{prepare};
ghost use Rattle.fc_starts.specs.Choosing.{is_chosen, chosen_of};
ghost use Rattle.fc_desk.specs.Control.{books_of};

use crate::activate::{begin, supersede};
use crate::chosen::Chosen;
use crate::start_refusal::start_refusal;
use fc_base::decision::Decision;
use fc_base::fault::{Kind, Refusal};
use fc_base::name::Ref;
use fc_base::outcome::NoMemory;
use fc_base::request::Reply;
use fc_base::sheet::Sheet;
use fc_base::state::{MapEvent, MapState};
use fc_base::volume::Mapping;
use fc_desk::{Control, Draft};
use std::alloc::Global;

/// What is decided of a `prestartfcmap`: the first of its refusals, else the mapping is prepared.
pub fn decide_prestartfcmap<S: Sheet>(
    alloc: Global,
    control: &Control,
    sheet: &S,
    map: &Ref,
    restore: bool,
) -> Result<Decision, NoMemory>
    requires sound { AreSound (books_of control.now (S.meaning sheet.now)) }
    ensures { IfOk result (λ decision. decision ≡ decide (S.meaning sheet.now).restarts control.now.grain (books_of control.now (S.meaning sheet.now)) (Command.Prestartfcmap map.now restore) None) }
{
    match control.registry().mapping(map) {
        None => control.refuse(alloc, sheet, Refusal::NoSuch(Kind::Fcmap)),
        Some(mapping) => {
            match start_refusal(control, sheet, mapping, MapEvent::Prepare, restore) {
                Some(refusal) => {
                    let decision = control.refuse(alloc, sheet, refusal)?;
                    Ok(decision)
                }
                None => {
                    let chosen = Chosen::One(mapping.id);
                    let decision = prepare(alloc, control, sheet, chosen, restore)?;
                    Ok(decision)
                }
            }
        }
    }
}

/// Mappings that aren't active are prepared.
pub fn prepare<S: Sheet>(
    alloc: Global,
    control: &Control,
    sheet: &S,
    chosen: Chosen,
    restore: bool,
) -> Result<Decision, NoMemory>
    requires sound { AreSound (books_of control.now (S.meaning sheet.now)) }
    requires idle { (m : Mapping) → Contains control.now.tables.mappings m → is_chosen chosen m ≡ true → is_active m.state ≡ false }
    ensures { IfOk result (λ decision. decision ≡ with_work (S.meaning sheet.now).restarts (books_of control.now (S.meaning sheet.now)) Reply.Done (prepare restore control.now.tables (chosen_of control.now.tables chosen))) }
{
    let draft = draft_prepare(alloc, control, chosen, restore)?;
    let decision = control.conclude(sheet, draft, Reply::Done)?;
    Ok(decision)
}

/// What preparing mappings does.
fn draft_prepare(
    alloc: Global,
    control: &Control,
    chosen: Chosen,
    restore: bool,
) -> Result<Draft, NoMemory>
    ensures { IfOk result (λ draft. draft ≡ prepare restore control.now.tables (chosen_of control.now.tables chosen)) }
{
    let mappings = control.registry().all_mappings();
    let superseded = supersede(alloc, Draft::new(alloc), mappings, chosen)?;
    let whole = begin(
        alloc,
        superseded,
        mappings,
        chosen,
        MapState::Prepared,
        restore,
    )?;
    Ok(whole)
}
