//! Decisions on `stopfcmap`.

ghost use Rattle.std.specs.Prelude.{◌≡◌, IfOk, None, true, false};
ghost use Rattle.fc_base.specs.States.{next_state};
ghost use Rattle.fc_base.specs.declared.command.Command.{Command};
ghost use Rattle.fc_books.specs.Copies.{is_needed};
ghost use Rattle.fc_books.specs.Deciding.{with_work, decide};
ghost use Rattle.fc_books.specs.Refused.{refused_by};
ghost use Rattle.fc_books.specs.RefusedStarts.{not_complete};
ghost use Rattle.fc_books.specs.Sound.{AreSound};
ghost use Rattle.fc_books.specs.Stopping.{stop_event, stops};
ghost use Rattle.fc_desk.specs.Control.{books_of};
ghost use Rattle.fc_stops.specs.Stops.{IsAnswer, refused_stop};

use crate::background_after::tell_work_after;
use crate::stop_effects::{Asked, stop, stop_event};
use fc_base::command::StopWay;
use fc_base::decision::Decision;
use fc_base::fault::{Kind, Refusal};
use fc_base::list::List;
use fc_base::name::Ref;
use fc_base::outcome::NoMemory;
use fc_base::request::Reply;
use fc_base::sheet::Sheet;
use fc_base::state::MapState;
use fc_base::volume::Mapping;
use fc_desk::{Control, Draft};
use fc_states::next;
use std::alloc::Global;

/// What is decided of a `stopfcmap`: NoSuch without the mapping; InGroup of one in a group; NotAllowed by its state;
/// NotComplete of a split of an incomplete copy; else its copy ends, and by force those of its dependents.
pub fn decide_stopfcmap<S: Sheet>(
    alloc: Global,
    control: &Control,
    sheet: &S,
    map: &Ref,
    way: StopWay,
) -> Result<Decision, NoMemory>
    requires { AreSound (books_of control.now (S.meaning sheet.now)) }
    ensures { IfOk result (λ decision. decision ≡ decide (S.meaning sheet.now).restarts control.now.grain (books_of control.now (S.meaning sheet.now)) (Command.Stopfcmap map.now way) None) }
{
    match control.registry().mapping(map) {
        None => control.refuse(alloc, sheet, Refusal::NoSuch(Kind::Fcmap)),
        Some(mapping) => match stop_refusal(control, sheet, way, mapping) {
            Some(refusal) => control.refuse(alloc, sheet, refusal),
            None => stop_mapping(alloc, control, sheet, way, mapping),
        },
    }
}

/// A mapping is stopped.
fn stop_mapping<S: Sheet>(
    alloc: Global,
    control: &Control,
    sheet: &S,
    way: StopWay,
    mapping: &Mapping,
) -> Result<Decision, NoMemory>
    requires sound { AreSound (books_of control.now (S.meaning sheet.now)) }
    requires allowed { refused_stop way (books_of control.now (S.meaning sheet.now)) mapping.now ≡ None }
    ensures { IfOk result (λ decision. decision ≡ with_work (S.meaning sheet.now).restarts (books_of control.now (S.meaning sheet.now)) Reply.Done (stops way (books_of control.now (S.meaning sheet.now)) mapping.now)) }
{
    let asked = ask_chains(alloc, control, sheet, way, mapping)?;
    let mut draft = Draft::new(alloc);
    stop(alloc, control, sheet, &mut draft, way, &asked, mapping)?;
    let draft = tell_work_after(control, sheet, draft)?;
    Ok(draft.into_decision(Reply::Done))
}

/// Whether a mapping's slot is needed, and by force which mappings depend on it.
fn ask_chains<S: Sheet>(
    alloc: Global,
    control: &Control,
    sheet: &S,
    way: StopWay,
    mapping: &Mapping,
) -> Result<Asked, NoMemory>
    ensures needed { IfOk result (λ asked. asked.needed ≡ is_needed (books_of control.now (S.meaning sheet.now)) mapping.now) }
    ensures dependents { IfOk result (λ asked. IsAnswer way (books_of control.now (S.meaning sheet.now)) mapping.now asked.dependents) }
{
    let dependents = match way {
        StopWay::Force => sheet.dependents(alloc, mapping.id)?,
        _ => List::new(alloc),
    };
    Ok(Asked {
        needed: control.is_needed(sheet, mapping),
        dependents,
    })
}

/// Why a stop of the mapping is refused, if it is.
fn stop_refusal<S: Sheet>(
    control: &Control,
    sheet: &S,
    way: StopWay,
    mapping: &Mapping,
) -> Option<Refusal>
    ensures { result ≡ refused_stop way (books_of control.now (S.meaning sheet.now)) mapping.now }
{
    if let Some(group) = mapping.group {
        return Some(Refusal::InGroup(group));
    }
    match state_refusal(mapping.state, way) {
        Some(refusal) => Some(refusal),
        None => split_refusal(control, sheet, way, mapping),
    }
}

/// A split of a copy that holds fewer grains than all is refused.
pub fn split_refusal<S: Sheet>(
    control: &Control,
    sheet: &S,
    way: StopWay,
    mapping: &Mapping,
) -> Option<Refusal>
    ensures { result ≡ not_complete way (books_of control.now (S.meaning sheet.now)) mapping.now }
{
    if !matches!(way, StopWay::Split) {
        return None;
    }
    let held = sheet.held(mapping.id);
    let total = control.total(sheet, mapping);
    if total <= held {
        None
    } else {
        Some(Refusal::NotComplete { held, total })
    }
}

/// Why a mapping in this state isn't stopped, if it is refused. A split is refused here as of a complete copy.
fn state_refusal(state: MapState, way: StopWay) -> Option<Refusal>
    ensures { result ≡ refused_by (next_state state (stop_event way) true false) }
{
    match next(state, stop_event(way), true, false) {
        Ok(_) => None,
        Err(refusal) => Some(refusal),
    }
}
