//! Decisions on `stopfcconsistgrp`.
//!
//! Members are stopped one after the other, each on the chains that the last left, and the chains are asked before all of
//! them. A member's slot is needed by the slots that read from it and haven't left yet; and by force a member is stopped
//! with its dependents that weren't stopped yet.

ghost use Rattle.std.specs.Prelude.{◌≡◌, ℕ, ◌+◌, ◌<◌, ◌++◌, ◌↔◌, [], ◌∷◌, cond, not, true, false, take, filter, length, IfOk, OnOk, None};
ghost use Rattle.std.specs.List.{list_any};
ghost use Rattle.fc_base.specs.SheetView.{AreMappings, ReadsMapping, DependsOn};
ghost use Rattle.fc_base.specs.declared.command.Command.{Command};
ghost use Rattle.fc_books.specs.Deciding.{with_work, decide};
ghost use Rattle.fc_books.specs.Groups.{members, acts_on, is_member};
ghost use Rattle.fc_books.specs.RefusedStarts.{not_complete, for_each, split_refusals};
ghost use Rattle.fc_books.specs.Sound.{AreSound};
ghost use Rattle.fc_books.specs.Stopping.{stop_group};
ghost use Rattle.fc_desk.specs.Control.{books_of};
ghost use Rattle.fc_stops.specs.Stops.{changes_in, changes_some};
ghost use Rattle.fc_stops.specs.StopGroups.{IsLeftAnswer, stops_in_group, refused_group, is_acted, stops_now};

use crate::background_after::tell_work_after;
use crate::stop_effects::{Asked, stop};
use crate::stopfcmap::split_refusal;
use fc_base::command::StopWay;
use fc_base::decision::Decision;
use fc_base::fault::{Kind, Refusal};
use fc_base::ids::{GroupId, MapId};
use fc_base::list::List;
use fc_base::name::Ref;
use fc_base::outcome::NoMemory;
use fc_base::request::Reply;
use fc_base::sheet::Sheet;
use fc_base::state::MapState;
use fc_base::volume::{Change, Mapping};
use fc_desk::{Control, Draft};
use fc_group::{group_state, is_member};
use std::alloc::Global;

/// What is decided of a `stopfcconsistgrp`: NoSuch without the group; Empty without members; NotAllowed where the stop
/// acts on none of them; NotComplete of a split of an incomplete copy; else they are stopped, by id.
pub fn decide_stopfcconsistgrp<S: Sheet>(
    alloc: Global,
    control: &Control,
    sheet: &S,
    group: &Ref,
    way: StopWay,
) -> Result<Decision, NoMemory>
    requires { AreSound (books_of control.now (S.meaning sheet.now)) }
    ensures { IfOk result (λ decision. decision ≡ decide (S.meaning sheet.now).restarts control.now.grain (books_of control.now (S.meaning sheet.now)) (Command.Stopfcconsistgrp group.now way) None) }
{
    match control.registry().group(group) {
        None => control.refuse(alloc, sheet, Refusal::NoSuch(Kind::Group)),
        Some(found) => match group_refusal_of_stop(control, sheet, way, found.id) {
            Some(refusal) => control.refuse(alloc, sheet, refusal),
            None => stop_members(alloc, control, sheet, way, found.id),
        },
    }
}

/// The members of a group are stopped.
fn stop_members<S: Sheet>(
    alloc: Global,
    control: &Control,
    sheet: &S,
    way: StopWay,
    group: GroupId,
) -> Result<Decision, NoMemory>
    requires sound { AreSound (books_of control.now (S.meaning sheet.now)) }
    requires allowed { refused_group way (books_of control.now (S.meaning sheet.now)) group ≡ None }
    ensures { IfOk result (λ decision. decision ≡ with_work (S.meaning sheet.now).restarts (books_of control.now (S.meaning sheet.now)) Reply.Done (stop_group way (books_of control.now (S.meaning sheet.now)) (members control.now.tables group))) }
{
    let draft = draft_members(alloc, control, sheet, way, group)?;
    let draft = tell_work_after(control, sheet, draft)?;
    Ok(draft.into_decision(Reply::Done))
}

/// What the stops of all members do.
fn draft_members<S: Sheet>(
    alloc: Global,
    control: &Control,
    sheet: &S,
    way: StopWay,
    group: GroupId,
) -> Result<Draft, NoMemory>
    requires sound { AreSound (books_of control.now (S.meaning sheet.now)) }
    requires allowed { refused_group way (books_of control.now (S.meaning sheet.now)) group ≡ None }
    ensures { IfOk result (λ draft. draft ≡ stops_in_group way group (books_of control.now (S.meaning sheet.now)) control.now.tables.mappings) }
{
    let mut draft = Draft::new(alloc);
    for place in 0..control.registry().mappings() {
        stop_member(alloc, control, sheet, &mut draft, way, group, place)?;
    }
    Ok(draft)
}

/// The mapping at a place is stopped, after those before it, where it is a member that the stop acts on.
fn stop_member<S: Sheet>(
    alloc: Global,
    control: &Control,
    sheet: &S,
    draft: &mut Draft,
    way: StopWay,
    group: GroupId,
    place: usize,
) -> Result<(), NoMemory>
    requires there { place < length control.now.tables.mappings }
    requires sound { AreSound (books_of control.now (S.meaning sheet.now)) }
    requires allowed { refused_group way (books_of control.now (S.meaning sheet.now)) group ≡ None }
    requires before { draft.old ≡ stops_in_group way group (books_of control.now (S.meaning sheet.now)) (take place control.now.tables.mappings) }
    ensures { OnOk result (draft.new ≡ stops_in_group way group (books_of control.now (S.meaning sheet.now)) (take (place + 1) control.now.tables.mappings)) }
{
    let mapping = control.registry().mapping_at(place);
    if !stops_now(draft.changes(), way, group, mapping) {
        return Ok(());
    }
    let asked = ask_left(alloc, sheet, draft.changes(), way, mapping.id)?;
    stop(alloc, control, sheet, draft, way, &asked, mapping)
}

/// Why a stop of the group is refused, if it is.
fn group_refusal_of_stop<S: Sheet>(
    control: &Control,
    sheet: &S,
    way: StopWay,
    group: GroupId,
) -> Option<Refusal>
    ensures { result ≡ refused_group way (books_of control.now (S.meaning sheet.now)) group }
{
    let mappings = control.registry().all_mappings();
    if !some_member(mappings, group) {
        return Some(Refusal::Empty);
    }
    if !some_acted_on(mappings, way, group) {
        return Some(Refusal::NotAllowed(group_state(control.registry(), group)));
    }
    split_refusal_of_members(control, sheet, way, group)
}

/// The first member, by id, whose split is refused tells why.
fn split_refusal_of_members<S: Sheet>(
    control: &Control,
    sheet: &S,
    way: StopWay,
    group: GroupId,
) -> Option<Refusal>
    ensures { result ≡ for_each (split_refusals way (books_of control.now (S.meaning sheet.now))) (members control.now.tables group) }
{
    for mapping in control.registry().all_mappings() {
        if let Some(refusal) = split_refusal_of_member(control, sheet, way, group, mapping) {
            return Some(refusal);
        }
    }
    None
}

/// Why a split of the mapping is refused, if it is a member that the stop acts on.
fn split_refusal_of_member<S: Sheet>(
    control: &Control,
    sheet: &S,
    way: StopWay,
    group: GroupId,
    mapping: &Mapping,
) -> Option<Refusal>
    ensures { result ≡ cond (is_acted way group mapping.now) (not_complete way (books_of control.now (S.meaning sheet.now)) mapping.now) None }
{
    if is_acted_on(mapping, way, group) {
        split_refusal(control, sheet, way, mapping)
    } else {
        None
    }
}

/// Whether a member of the group is stopped now: the stop acts on it, and it wasn't stopped with another one.
fn stops_now(changes: &[Change], way: StopWay, group: GroupId, mapping: &Mapping) -> bool
    ensures { result ≡ stops_now way group changes.now mapping.now }
{
    is_acted_on(mapping, way, group) && !is_changed(changes, mapping.id)
}

/// Whether some mapping is a member of the group.
fn some_member(mappings: &[Mapping], group: GroupId) -> bool
    ensures { result ≡ list_any (is_member group) mappings.now }
{
    mappings.iter().any(|mapping| is_member(mapping, group))
}

/// Whether the stop acts on some member of the group.
fn some_acted_on(mappings: &[Mapping], way: StopWay, group: GroupId) -> bool
    ensures { result ≡ list_any (is_acted way group) mappings.now }
{
    mappings
        .iter()
        .any(|mapping| is_acted_on(mapping, way, group))
}

/// Whether a mapping is a member of the group that the stop acts on.
fn is_acted_on(mapping: &Mapping, way: StopWay, group: GroupId) -> bool
    ensures { result ≡ is_acted way group mapping.now }
{
    is_member(mapping, group) && acts_on(way, mapping.state)
}

/// Whether a stop of a group acts on members in this state.
fn acts_on(way: StopWay, state: MapState) -> bool
    ensures { result ≡ acts_on way state }
{
    match way {
        StopWay::Plain => matches!(state, MapState::Prepared | MapState::Copying),
        StopWay::Force => matches!(
            state,
            MapState::Prepared | MapState::Copying | MapState::Stopping
        ),
        StopWay::Split => matches!(state, MapState::Copying),
    }
}

/// What the chains before all stops tell of a mapping on the chains that the stops so far left.
fn ask_left<S: Sheet>(
    alloc: Global,
    sheet: &S,
    changes: &[Change],
    way: StopWay,
    map: MapId,
) -> Result<Asked, NoMemory>
    ensures { IfOk result (λ asked. IsLeftAnswer way (S.meaning sheet.now).sheet.slots changes.now map.0 asked.needed asked.dependents) }
{
    match way {
        StopWay::Plain => {
            let needed = is_needed_left(alloc, sheet, changes, map)?;
            Ok(Asked {
                needed,
                dependents: List::new(alloc),
            })
        }
        StopWay::Force => {
            let dependents = dependents_left(alloc, sheet, changes, map)?;
            Ok(Asked {
                needed: true,
                dependents,
            })
        }
        StopWay::Split => Ok(Asked {
            needed: false,
            dependents: List::new(alloc),
        }),
    }
}

/// Whether a slot that hasn't left reads from the mapping's slot.
fn is_needed_left<S: Sheet>(
    alloc: Global,
    sheet: &S,
    changes: &[Change],
    map: MapId,
) -> Result<bool, NoMemory>
    ensures { IfOk result (λ needed. (needed ≡ true) ↔ ((n : ℕ) × ReadsMapping (S.meaning sheet.now).sheet.slots map.0 n × (changes_some n changes.now ≡ false))) }
{
    let readers = sheet.direct(alloc, map)?;
    let needed = some_unchanged(changes, readers.as_slice());
    Ok(needed)
}

/// The dependents of a mapping that weren't stopped yet, by id.
fn dependents_left<S: Sheet>(
    alloc: Global,
    sheet: &S,
    changes: &[Change],
    map: MapId,
) -> Result<List<MapId>, NoMemory>
    ensures { IfOk result (λ ids. AreMappings (λ n. DependsOn (S.meaning sheet.now).sheet.slots map.0 n × (changes_some n changes.now ≡ false)) ids) }
{
    let dependents = sheet.dependents(alloc, map)?;
    let left = those_unchanged(alloc, changes, dependents.as_slice())?;
    Ok(left)
}

/// Whether one of the mappings isn't changed.
fn some_unchanged(changes: &[Change], ids: &[MapId]) -> bool
    ensures { result ≡ list_any (λ id. not (changes_some id.0 changes.now)) ids.now }
{
    ids.iter().any(|id| !is_changed(changes, *id))
}

/// Those of the mappings that aren't changed.
fn those_unchanged(
    alloc: Global,
    changes: &[Change],
    ids: &[MapId],
) -> Result<List<MapId>, NoMemory>
    ensures { IfOk result (λ left. left ≡ filter (λ id. not (changes_some id.0 changes.now)) ids.now) }
{
    let mut left = List::new(alloc);
    for id in ids {
        keep_unchanged(&mut left, changes, *id)?;
    }
    Ok(left)
}

/// One more mapping, if it isn't changed.
fn keep_unchanged(left: &mut List<MapId>, changes: &[Change], id: MapId) -> Result<(), NoMemory>
    ensures { OnOk result (left.new ≡ left.old ++ cond (changes_some id.0 changes.now) [] (id ∷ [])) }
{
    if is_changed(changes, id) {
        Ok(())
    } else {
        left.push(id)
    }
}

/// Whether one of the changes is the mapping's.
fn is_changed(changes: &[Change], map: MapId) -> bool
    ensures { result ≡ changes_some map.0 changes.now }
{
    changes.iter().any(|change| is_change_of(change, map))
}

/// Whether this is a change of the mapping.
fn is_change_of(change: &Change, map: MapId) -> bool
    ensures { result ≡ changes_in map.0 change.now }
{
    match change {
        Change::SetMapping(mapping) => mapping.id.0 == map.0,
        Change::RemoveMapping(id) => id.0 == map.0,
        _ => false,
    }
}
