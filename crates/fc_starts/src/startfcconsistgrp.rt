//! Decisions on `prestartfcconsistgrp` and `startfcconsistgrp`.

ghost use Rattle.std.specs.Prelude.{◌≡◌, ◌∷◌, ◌&&◌, [], not, cond, IfOk, None, filter, Option, List};
ghost use Rattle.std.specs.List.{list_any, list_all};
ghost use Rattle.fc_base.specs.declared.command.Command.{Command};
ghost use Rattle.fc_base.specs.declared.ids.VolId.{VolId};
ghost use Rattle.fc_books.specs.Accesses.{is_active, is_prepared};
ghost use Rattle.fc_books.specs.Deciding.{decide, IsLoopOf};
ghost use Rattle.fc_books.specs.Groups.{members, group_state, some_in, is_member, trigger_refusal};
ghost use Rattle.fc_books.specs.RefusedStarts.{empty_group, for_each, not_ready, starts_not};
ghost use Rattle.fc_books.specs.Sound.{AreSound};
ghost use Rattle.fc_desk.specs.Control.{books_of};
ghost use Rattle.fc_starts.specs.Starts.{HaveRoom};
ghost use Rattle.fc_desk.specs.Refusing.{or_else};
ghost use Rattle.fc_entry.specs.Refused.{first_of, where_};

use crate::chosen::{Chosen, chosen_ids};
use crate::prestartfcmap::prepare;
use crate::start_refusal::ready_refusal;
use crate::startfcmap::start_unlooped;
use fc_base::decision::Decision;
use fc_base::fault::{Kind, Refusal};
use fc_base::ids::GroupId;
use fc_base::name::Ref;
use fc_base::outcome::NoMemory;
use fc_base::sheet::Sheet;
use fc_base::state::MapState;
use fc_base::volume::Mapping;
use fc_desk::{Control, has_active, has_member, is_active};
use fc_group::{check_trigger, group_state, has_state, is_member};
use std::alloc::Global;

/// What is decided of a `prestartfcconsistgrp`: the first of its refusals, else all members are prepared.
pub fn decide_prestartfcconsistgrp<S: Sheet>(
    alloc: Global,
    control: &Control,
    sheet: &S,
    group: &Ref,
    restore: bool,
) -> Result<Decision, NoMemory>
    requires sound { AreSound (books_of control.now (S.meaning sheet.now)) }
    ensures { IfOk result (λ decision. decision ≡ decide (S.meaning sheet.now).restarts control.now.grain (books_of control.now (S.meaning sheet.now)) (Command.Prestartfcconsistgrp group.now restore) None) }
{
    match control.registry().group(group) {
        None => control.refuse(alloc, sheet, Refusal::NoSuch(Kind::Group)),
        Some(found) => {
            match prestart_group_refusal(alloc, control, sheet, found.id, restore)? {
                Some(refusal) => {
                    let decision = control.refuse(alloc, sheet, refusal)?;
                    Ok(decision)
                }
                None => {
                    let chosen = Chosen::Members(found.id);
                    let decision = prepare(alloc, control, sheet, chosen, restore)?;
                    Ok(decision)
                }
            }
        }
    }
}

/// What is decided of a `startfcconsistgrp`: the first of its refusals, last that it would close a loop of
/// restores; else all members are started at once.
pub fn decide_startfcconsistgrp<S: Sheet>(
    alloc: Global,
    control: &Control,
    sheet: &S,
    group: &Ref,
    prep: bool,
    restore: bool,
) -> Result<Decision, NoMemory>
    requires sound { AreSound (books_of control.now (S.meaning sheet.now)) }
    requires room { HaveRoom (books_of control.now (S.meaning sheet.now)) (S.meaning sheet.now).restarts }
    ensures { IfOk result (λ decision. (loop : Option (List VolId)) × IsLoopOf control.now.grain (books_of control.now (S.meaning sheet.now)) (Command.Startfcconsistgrp group.now prep restore) loop × (decision ≡ decide (S.meaning sheet.now).restarts control.now.grain (books_of control.now (S.meaning sheet.now)) (Command.Startfcconsistgrp group.now prep restore) loop)) }
{
    match control.registry().group(group) {
        None => {
            let decision = control.refuse(alloc, sheet, Refusal::NoSuch(Kind::Group))?;
            Ok(decision)
        }
        Some(found) => {
            match start_group_refusal(alloc, control, sheet, found.id, prep, restore)? {
                Some(refusal) => {
                    let decision = control.refuse(alloc, sheet, refusal)?;
                    Ok(decision)
                }
                None => {
                    let chosen = Chosen::Members(found.id);
                    let decision = start_unlooped(alloc, control, sheet, chosen, prep, restore)?;
                    Ok(decision)
                }
            }
        }
    }
}

/// Why the members of a group aren't prepared, if they are refused.
fn prestart_group_refusal<S: Sheet>(
    alloc: Global,
    control: &Control,
    sheet: &S,
    group: GroupId,
    restore: bool,
) -> Result<Option<Refusal>, NoMemory>
    ensures { IfOk result (λ found. found ≡ first_of (empty_group (members control.now.tables group) ∷ where_ (some_in is_active (members control.now.tables group)) (Refusal.NotAllowed (group_state control.now.tables group)) ∷ trigger_refusal (members control.now.tables group) ∷ for_each (not_ready (books_of control.now (S.meaning sheet.now)) restore) (members control.now.tables group) ∷ [])) }
{
    let mappings = control.registry().all_mappings();
    if !has_member(mappings, group) {
        Ok(Some(Refusal::Empty))
    } else if has_active(mappings, group) {
        let state = group_state(control.registry(), group);
        Ok(Some(Refusal::NotAllowed(state)))
    } else {
        members_refusal(alloc, control, sheet, group, restore)
    }
}

/// Why the members of a group aren't started, if they are refused.
fn start_group_refusal<S: Sheet>(
    alloc: Global,
    control: &Control,
    sheet: &S,
    group: GroupId,
    prep: bool,
    restore: bool,
) -> Result<Option<Refusal>, NoMemory>
    ensures { IfOk result (λ found. found ≡ first_of (empty_group (members control.now.tables group) ∷ where_ (list_any (starts_not prep) (members control.now.tables group)) (Refusal.NotAllowed (group_state control.now.tables group)) ∷ where_ (not prep && not (list_all (λ (m : Mapping). is_prepared m.state) (members control.now.tables group))) Refusal.NotPrepared ∷ trigger_refusal (members control.now.tables group) ∷ for_each (not_ready (books_of control.now (S.meaning sheet.now)) restore) (members control.now.tables group) ∷ [])) }
{
    let mappings = control.registry().all_mappings();
    if !has_member(mappings, group) {
        Ok(Some(Refusal::Empty))
    } else if some_starts_not(mappings, group, prep) {
        let state = group_state(control.registry(), group);
        Ok(Some(Refusal::NotAllowed(state)))
    } else if !prep && !all_prepared(mappings, group) {
        Ok(Some(Refusal::NotPrepared))
    } else {
        members_refusal(alloc, control, sheet, group, restore)
    }
}

/// Why the members of a group can't begin together, if they can't.
fn members_refusal<S: Sheet>(
    alloc: Global,
    control: &Control,
    sheet: &S,
    group: GroupId,
    restore: bool,
) -> Result<Option<Refusal>, NoMemory>
    ensures { IfOk result (λ found. found ≡ first_of (trigger_refusal (members control.now.tables group) ∷ for_each (not_ready (books_of control.now (S.meaning sheet.now)) restore) (members control.now.tables group) ∷ [])) }
{
    match trigger_refusal(alloc, control, group)? {
        Some(refusal) => Ok(Some(refusal)),
        None => Ok(each_refusal(control, sheet, group, restore)),
    }
}

/// Why the members of a group can't be triggered at once, if they can't.
fn trigger_refusal(
    alloc: Global,
    control: &Control,
    group: GroupId,
) -> Result<Option<Refusal>, NoMemory>
    ensures { IfOk result (λ found. found ≡ trigger_refusal (members control.now.tables group)) }
{
    let mappings = control.registry().all_mappings();
    let ids = chosen_ids(alloc, mappings, Chosen::Members(group))?;
    match check_trigger(control.registry(), ids.as_slice()) {
        Ok(()) => Ok(None),
        Err(refusal) => Ok(Some(refusal)),
    }
}

/// Why the first member of a group that can't begin can't, if there is one.
fn each_refusal<S: Sheet>(
    control: &Control,
    sheet: &S,
    group: GroupId,
    restore: bool,
) -> Option<Refusal>
    ensures { result ≡ for_each (not_ready (books_of control.now (S.meaning sheet.now)) restore) (members control.now.tables group) }
{
    let mut found: Option<Refusal> = None;
    for mapping in control.registry().all_mappings() {
        found = note_refusal(control, found, sheet, group, mapping, restore);
    }
    found
}

/// The refusal that was found, else why a mapping can't begin, if it is a member of the group and can't.
fn note_refusal<S: Sheet>(
    control: &Control,
    found: Option<Refusal>,
    sheet: &S,
    group: GroupId,
    mapping: &Mapping,
    restore: bool,
) -> Option<Refusal>
    ensures { result ≡ or_else found (cond (is_member group mapping.now) (first_of (not_ready (books_of control.now (S.meaning sheet.now)) restore mapping.now)) None) }
{
    match found {
        Some(refusal) => Some(refusal),
        None => member_refusal(control, sheet, group, mapping, restore),
    }
}

/// Why a mapping can't begin, if it is a member of the group and can't.
fn member_refusal<S: Sheet>(
    control: &Control,
    sheet: &S,
    group: GroupId,
    mapping: &Mapping,
    restore: bool,
) -> Option<Refusal>
    ensures { result ≡ cond (is_member group mapping.now) (first_of (not_ready (books_of control.now (S.meaning sheet.now)) restore mapping.now)) None }
{
    if is_member(mapping, group) {
        ready_refusal(control, sheet, mapping, restore)
    } else {
        None
    }
}

/// Whether the state of some member is none that a start begins with.
#[tactic(auto, using(fc_desk::proofs::Selecting::any_kept))]
fn some_starts_not(mappings: &[Mapping], group: GroupId, prep: bool) -> bool
    ensures { result ≡ list_any (starts_not prep) (filter (is_member group) mappings.now) }
{
    some_member_starts_not(mappings, group, prep)
}

/// Whether some mapping is a member whose state is none that a start begins with.
fn some_member_starts_not(mappings: &[Mapping], group: GroupId, prep: bool) -> bool
    ensures { result ≡ list_any (λ m. is_member group m && starts_not prep m) mappings.now }
{
    mappings
        .iter()
        .any(|mapping| member_starts_not(mapping, group, prep))
}

/// Whether the mapping is a member whose state is none that a start begins with.
fn member_starts_not(mapping: &Mapping, group: GroupId, prep: bool) -> bool
    ensures { result ≡ (is_member group mapping.now && starts_not prep mapping.now) }
{
    is_member(mapping, group)
        && (is_active(mapping.state) && (prep || !has_state(MapState::Prepared, mapping.state)))
}

/// Whether all members of the group are prepared.
fn all_prepared(mappings: &[Mapping], group: GroupId) -> bool
    ensures { result ≡ list_all (λ (m : Mapping). is_prepared m.state) (filter (is_member group) mappings.now) }
{
    !some_unprepared(mappings, group)
}

/// Whether some member of the group isn't prepared.
fn some_unprepared(mappings: &[Mapping], group: GroupId) -> bool
    ensures { result ≡ list_any (λ (m : Mapping). is_member group m && not (is_prepared m.state)) mappings.now }
{
    mappings.iter().any(|mapping| is_unprepared(mapping, group))
}

/// Whether the mapping is a member of the group and isn't prepared.
fn is_unprepared(mapping: &Mapping, group: GroupId) -> bool
    ensures { result ≡ (is_member group mapping.now && not (is_prepared mapping.now.state)) }
{
    is_member(mapping, group) && !has_state(MapState::Prepared, mapping.state)
}
