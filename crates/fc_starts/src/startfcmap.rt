//! Decisions on `startfcmap`.

ghost use Rattle.std.specs.Prelude.{◌≡◌, IfOk, Contains, true, Option, List, map};
ghost use Rattle.fc_base.specs.Sheet.{shape_of};
ghost use Rattle.fc_base.specs.SheetStep.{triggered};
ghost use Rattle.fc_base.specs.SheetView.{LoopAnswer};
ghost use Rattle.fc_base.specs.declared.command.Command.{Command};
ghost use Rattle.fc_base.specs.declared.ids.VolId.{VolId};
ghost use Rattle.fc_books.specs.Deciding.{decide, IsLoopOf};
ghost use Rattle.fc_books.specs.RefusedStarts.{start_event};
ghost use Rattle.fc_books.specs.Sound.{AreSound};
ghost use Rattle.fc_books.specs.Starting.{start, pair_of};
ghost use Rattle.fc_starts.specs.Choosing.{is_chosen, chosen_of};
ghost use Rattle.fc_desk.specs.Control.{books_of};
ghost use Rattle.fc_starts.specs.Looping.{looped};
ghost use Rattle.fc_starts.specs.Starts.{IsStartable, AreApart, HaveRoom};

use crate::chosen::{Chosen, chosen_pairs};
use crate::start_refusal::start_refusal;
use crate::trigger::start;
use fc_base::decision::Decision;
use fc_base::fault::{Kind, Refusal};
use fc_base::ids::VolId;
use fc_base::list::List;
use fc_base::name::Ref;
use fc_base::outcome::NoMemory;
use fc_base::sheet::Sheet;
use fc_base::state::MapEvent;
use fc_base::volume::Mapping;
use fc_desk::Control;
use std::alloc::Global;

/// What is decided of a `startfcmap`: the first of its refusals, last that it would close a loop of restores; else
/// the mapping is started.
pub fn decide_startfcmap<S: Sheet>(
    alloc: Global,
    control: &Control,
    sheet: &S,
    map: &Ref,
    prep: bool,
    restore: bool,
) -> Result<Decision, NoMemory>
    requires sound { AreSound (books_of control.now (S.meaning sheet.now)) }
    requires room { HaveRoom (books_of control.now (S.meaning sheet.now)) (S.meaning sheet.now).restarts }
    ensures { IfOk result (λ decision. (loop : Option (List VolId)) × IsLoopOf control.now.grain (books_of control.now (S.meaning sheet.now)) (Command.Startfcmap map.now prep restore) loop × (decision ≡ decide (S.meaning sheet.now).restarts control.now.grain (books_of control.now (S.meaning sheet.now)) (Command.Startfcmap map.now prep restore) loop)) }
{
    match control.registry().mapping(map) {
        None => {
            let decision = control.refuse(alloc, sheet, Refusal::NoSuch(Kind::Fcmap))?;
            Ok(decision)
        }
        Some(mapping) => {
            match start_refusal(control, sheet, mapping, start_event(prep), restore) {
                Some(refusal) => {
                    let decision = control.refuse(alloc, sheet, refusal)?;
                    Ok(decision)
                }
                None => {
                    let chosen = Chosen::One(mapping.id);
                    let decision = start_unlooped(alloc, control, sheet, chosen, prep, restore)?;
                    Ok(decision)
                }
            }
        }
    }
}

/// Mappings are started, unless that would close a loop of restores.
pub fn start_unlooped<S: Sheet>(
    alloc: Global,
    control: &Control,
    sheet: &S,
    chosen: Chosen,
    prep: bool,
    restore: bool,
) -> Result<Decision, NoMemory>
    requires sound { AreSound (books_of control.now (S.meaning sheet.now)) }
    requires room { HaveRoom (books_of control.now (S.meaning sheet.now)) (S.meaning sheet.now).restarts }
    requires startable { (m : Mapping) → Contains control.now.tables.mappings m → is_chosen chosen m ≡ true → IsStartable control.now.tables.mappings m }
    requires apart { AreApart (chosen_of control.now.tables chosen) }
    ensures { IfOk result (λ decision. (loop : Option (List VolId)) × LoopAnswer (shape_of (triggered (map pair_of (chosen_of control.now.tables chosen)) (S.meaning sheet.now).sheet).slots) loop × (decision ≡ looped (S.meaning sheet.now).restarts (books_of control.now (S.meaning sheet.now)) loop (start prep restore control.now.tables (chosen_of control.now.tables chosen)))) }
{
    match loop_of(alloc, control, sheet, chosen)? {
        Some(volumes) => {
            let decision = control.refuse(alloc, sheet, Refusal::RestoreLoop(volumes))?;
            Ok(decision)
        }
        None => {
            let decision = start(alloc, control, sheet, chosen, prep, restore)?;
            Ok(decision)
        }
    }
}

/// The loop of restores that there would be right after the mappings were triggered.
fn loop_of<S: Sheet>(
    alloc: Global,
    control: &Control,
    sheet: &S,
    chosen: Chosen,
) -> Result<Option<List<VolId>>, NoMemory>
    ensures { IfOk result (λ loop. LoopAnswer (shape_of (triggered (map pair_of (chosen_of control.now.tables chosen)) (S.meaning sheet.now).sheet).slots) loop) }
{
    let pairs = chosen_pairs(alloc, control.registry().all_mappings(), chosen)?;
    sheet.loop_of(alloc, pairs.as_slice())
}

/// The event of a start.
fn start_event(prep: bool) -> MapEvent
    ensures { result ≡ start_event prep }
{
    if prep {
        MapEvent::StartPrep
    } else {
        MapEvent::Start
    }
}
