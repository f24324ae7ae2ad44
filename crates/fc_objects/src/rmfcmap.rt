//! Decisions on `rmfcmap`.

ghost use Rattle.std.specs.Prelude.{◌≡◌, [], ◌∷◌, cond, false, IfOk, OnOk, None};
ghost use Rattle.fc_base.specs.States.{next_state};
ghost use Rattle.fc_base.specs.declared.command.Command.{Command};
ghost use Rattle.fc_books.specs.Accesses.{is_stopped};
ghost use Rattle.fc_books.specs.Books.{◌then◌, told};
ghost use Rattle.fc_books.specs.Deciding.{with_work, decide};
ghost use Rattle.fc_books.specs.Making.{remove_mapping};
ghost use Rattle.fc_books.specs.Refused.{refused_by};
ghost use Rattle.fc_desk.specs.Control.{books_of};

use fc_base::decision::{Decision, LaneEvent};
use fc_base::fault::{Kind, Refusal};
use fc_base::name::Ref;
use fc_base::outcome::NoMemory;
use fc_base::request::{Effect, Reply};
use fc_base::sheet::Sheet;
use fc_base::state::{Access, MapEvent, MapState};
use fc_base::volume::{Change, Mapping};
use fc_desk::{Control, Draft};
use fc_group::has_state;
use fc_states::next;
use std::alloc::Global;

/// What is decided of a `rmfcmap`: NoSuch without the mapping; NotAllowed of an active one; NeedsForce of a stopped
/// one without `-force`; else it goes, and the target of a stopped one is online again.
pub fn decide_rmfcmap<S: Sheet>(
    alloc: Global,
    control: &Control,
    sheet: &S,
    map: &Ref,
    force: bool,
) -> Result<Decision, NoMemory>
    ensures { IfOk result (λ decision. decision ≡ decide (S.meaning sheet.now).restarts control.now.grain (books_of control.now (S.meaning sheet.now)) (Command.Rmfcmap map.now force) None) }
{
    match control.registry().mapping(map) {
        None => control.refuse(alloc, sheet, Refusal::NoSuch(Kind::Fcmap)),
        Some(mapping) => match removal_refusal(mapping.state, force) {
            Some(refusal) => control.refuse(alloc, sheet, refusal),
            None => remove_mapping(alloc, control, sheet, mapping),
        },
    }
}

/// A mapping goes.
fn remove_mapping<S: Sheet>(
    alloc: Global,
    control: &Control,
    sheet: &S,
    mapping: &Mapping,
) -> Result<Decision, NoMemory>
    ensures { IfOk result (λ decision. decision ≡ with_work (S.meaning sheet.now).restarts (books_of control.now (S.meaning sheet.now)) Reply.Done (remove_mapping mapping.now)) }
{
    let draft = draft_removal(alloc, mapping)?;
    let draft = control.tell_work(sheet, draft, Some(mapping.id))?;
    Ok(draft.into_decision(Reply::Done))
}

/// Why a mapping in this state isn't removed, if it is refused.
fn removal_refusal(state: MapState, force: bool) -> Option<Refusal>
    ensures { result ≡ refused_by (next_state state (cond force MapEvent.RemoveForce MapEvent.Remove) false false) }
{
    match next(state, removal(force), false, false) {
        Ok(_) => None,
        Err(refusal) => Some(refusal),
    }
}

/// The event of a removal.
fn removal(force: bool) -> MapEvent
    ensures { result ≡ cond force MapEvent.RemoveForce MapEvent.Remove }
{
    if force {
        MapEvent::RemoveForce
    } else {
        MapEvent::Remove
    }
}

/// What removing a mapping does.
fn draft_removal(alloc: Global, mapping: &Mapping) -> Result<Draft, NoMemory>
    ensures { IfOk result (λ draft. draft ≡ remove_mapping mapping.now) }
{
    let mut draft = Draft::new(alloc);
    draft.affect(Effect::Gone { map: mapping.id })?;
    tell_online(&mut draft, mapping)?;
    draft.tell(LaneEvent::Forget { map: mapping.id })?;
    draft.change(Change::RemoveMapping(mapping.id))?;
    Ok(draft)
}

/// The target of a mapping that was stopped is online.
fn tell_online(draft: &mut Draft, mapping: &Mapping) -> Result<(), NoMemory>
    ensures { OnOk result (draft.new ≡ (draft.old then told (cond (is_stopped mapping.now.state) (LaneEvent.Access mapping.now.target Access.Online ∷ []) []))) }
{
    if has_state(MapState::Stopped, mapping.state) {
        draft.tell(LaneEvent::Access {
            volume: mapping.target,
            access: Access::Online,
        })
    } else {
        Ok(())
    }
}
