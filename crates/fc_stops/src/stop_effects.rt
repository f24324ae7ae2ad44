//! What a stop of a mapping does.

ghost use Rattle.std.specs.Prelude.{◌≡◌, ◌==◌, false, IfOk, OnOk};
ghost use Rattle.fc_base.specs.SheetView.{held_of};
ghost use Rattle.fc_base.specs.States.{next_state};
ghost use Rattle.fc_books.specs.Books.{◌then◌, all_deeds};
ghost use Rattle.fc_books.specs.Copies.{is_whole, ranges_from};
ghost use Rattle.fc_books.specs.Ending.{ends_by, cut_of, leaves_by};
ghost use Rattle.fc_books.specs.Stopping.{stop_event, stops_with};
ghost use Rattle.fc_desk.specs.Control.{books_of};
ghost use Rattle.fc_desk.specs.Outcome.{ok_of};
ghost use Rattle.fc_stops.specs.Stops.{leaves_asked, is_among, those, ends_those, ends_where, stops_among, stop_asked};

use fc_base::command::StopWay;
use fc_base::decision::LaneEvent;
use fc_base::ids::MapId;
use fc_base::list::List;
use fc_base::outcome::NoMemory;
use fc_base::ranges::Ranges;
use fc_base::request::Effect;
use fc_base::sheet::Sheet;
use fc_base::state::{MapEvent, MapState};
use fc_base::volume::Mapping;
use fc_desk::{Control, Draft, copy_mapping, end_in};
use fc_states::next;
use std::alloc::Global;

/// What a stop asks of the chains before it.
#[derive(Drop)]
pub struct Asked {
    /// Whether other copies read from the mapping's slot.
    pub needed: bool,
    /// The mappings that are stopped with it, by id.
    pub dependents: List<MapId>,
}

/// What a stop of a mapping does, where this is the answer of the chains.
pub fn stop<S: Sheet>(
    alloc: Global,
    control: &Control,
    sheet: &S,
    draft: &mut Draft,
    way: StopWay,
    asked: &Asked,
    mapping: &Mapping,
) -> Result<(), NoMemory>
    ensures { OnOk result (draft.new ≡ (draft.old then stop_asked mapping.now.state way asked.now.needed asked.now.dependents (books_of control.now (S.meaning sheet.now)) mapping.now)) }
{
    match mapping.state {
        MapState::Copying => stop_copying(alloc, control, sheet, draft, way, asked, mapping),
        MapState::Stopping => stop_stopping(alloc, control, sheet, draft, way, asked, mapping),
        state => stop_idle(alloc, draft, way, state, mapping),
    }
}

/// A copying mapping is stopped: its slot leaves its place, its target is cut, it ends, and so do its dependents.
fn stop_copying<S: Sheet>(
    alloc: Global,
    control: &Control,
    sheet: &S,
    draft: &mut Draft,
    way: StopWay,
    asked: &Asked,
    mapping: &Mapping,
) -> Result<(), NoMemory>
    ensures { OnOk result (draft.new ≡ (draft.old then stop_asked MapState.Copying way asked.now.needed asked.now.dependents (books_of control.now (S.meaning sheet.now)) mapping.now)) }
{
    draft.tell(leave_event(alloc, way, asked, mapping.id)?)?;
    leave_copying(alloc, control, sheet, draft, way, asked.needed, mapping)?;
    let dependents = asked.dependents.as_slice();
    stop_dependents(alloc, control, sheet, draft, way, dependents)
}

/// A copying mapping ends, after its slot left its place.
fn leave_copying<S: Sheet>(
    alloc: Global,
    control: &Control,
    sheet: &S,
    draft: &mut Draft,
    way: StopWay,
    needed: bool,
    mapping: &Mapping,
) -> Result<(), NoMemory>
    ensures { OnOk result (draft.new ≡ (draft.old then leaves_by (next_state MapState.Copying (stop_event way) (is_whole (books_of control.now (S.meaning sheet.now)) mapping.now) needed) (books_of control.now (S.meaning sheet.now)) mapping.now)) }
{
    let left = control.as_left(alloc, sheet, mapping)?;
    let whole = left.complete;
    cut(alloc, control, sheet, draft, mapping, whole)?;
    end_stopped(draft, left, stopped(MapState::Copying, way, whole, needed))
}

/// A stopping mapping is stopped by force: its old slot is taken out, it ends, and so do its dependents.
fn stop_stopping<S: Sheet>(
    alloc: Global,
    control: &Control,
    sheet: &S,
    draft: &mut Draft,
    way: StopWay,
    asked: &Asked,
    mapping: &Mapping,
) -> Result<(), NoMemory>
    ensures { OnOk result (draft.new ≡ (draft.old then stop_asked MapState.Stopping way asked.now.needed asked.now.dependents (books_of control.now (S.meaning sheet.now)) mapping.now)) }
{
    draft.tell(leave_event(alloc, StopWay::Force, asked, mapping.id)?)?;
    let state = stopped(MapState::Stopping, way, mapping.complete, asked.needed);
    end_stopped(draft, copy_mapping(alloc, mapping)?, state)?;
    let dependents = asked.dependents.as_slice();
    stop_dependents(alloc, control, sheet, draft, StopWay::Force, dependents)
}

/// Where the mapping's copy isn't whole its target is cut.
fn cut<S: Sheet>(
    alloc: Global,
    control: &Control,
    sheet: &S,
    draft: &mut Draft,
    mapping: &Mapping,
    whole: bool,
) -> Result<(), NoMemory>
    requires { whole ≡ is_whole (books_of control.now (S.meaning sheet.now)) mapping.now }
    ensures { OnOk result (draft.new ≡ (draft.old then cut_of (books_of control.now (S.meaning sheet.now)) mapping.now)) }
{
    if whole {
        return Ok(());
    }
    let kept = kept_of(alloc, sheet, mapping)?;
    draft.affect(Effect::Cut {
        volume: mapping.target,
        kept,
    })?;
    draft.tell(LaneEvent::NoteCut {
        map: mapping.id,
        source: mapping.source,
        target: mapping.target,
    })
}

/// By force the dependents of a mapping are stopped with it.
fn stop_dependents<S: Sheet>(
    alloc: Global,
    control: &Control,
    sheet: &S,
    draft: &mut Draft,
    way: StopWay,
    dependents: &[MapId],
) -> Result<(), NoMemory>
    ensures { OnOk result (draft.new ≡ (draft.old then ends_those way dependents.now (books_of control.now (S.meaning sheet.now)))) }
{
    match way {
        StopWay::Force => stop_those(alloc, control, sheet, draft, dependents),
        _ => Ok(()),
    }
}

/// The mappings with these ids are stopped, by id.
fn stop_those<S: Sheet>(
    alloc: Global,
    control: &Control,
    sheet: &S,
    draft: &mut Draft,
    ids: &[MapId],
) -> Result<(), NoMemory>
    ensures { OnOk result (draft.new ≡ (draft.old then all_deeds (stops_with (books_of control.now (S.meaning sheet.now))) (those ids.now control.now.tables.mappings))) }
{
    for mapping in control.registry().all_mappings() {
        stop_among(alloc, control, sheet, draft, ids, mapping)?;
    }
    Ok(())
}

/// A mapping is stopped where its id is one of these.
fn stop_among<S: Sheet>(
    alloc: Global,
    control: &Control,
    sheet: &S,
    draft: &mut Draft,
    ids: &[MapId],
    mapping: &Mapping,
) -> Result<(), NoMemory>
    ensures { OnOk result (draft.new ≡ (draft.old then stops_among ids.now (books_of control.now (S.meaning sheet.now)) mapping.now)) }
{
    if is_among(ids, mapping) {
        let left = control.as_left(alloc, sheet, mapping)?;
        cut(alloc, control, sheet, draft, mapping, left.complete)?;
        end_in(draft, left, MapState::Stopped)
    } else {
        Ok(())
    }
}

/// A mapping without a slot is stopped.
fn stop_idle(
    alloc: Global,
    draft: &mut Draft,
    way: StopWay,
    state: MapState,
    mapping: &Mapping,
) -> Result<(), NoMemory>
    ensures { OnOk result (draft.new ≡ (draft.old then ends_by (next_state state (stop_event way) mapping.now.complete false) mapping.now)) }
{
    let mapping = copy_mapping(alloc, mapping)?;
    let state = stopped(state, way, mapping.complete, false);
    end_stopped(draft, mapping, state)
}

/// A mapping ends in the state that a stop leads to, if it leads to one.
fn end_stopped(draft: &mut Draft, mapping: Mapping, state: Option<MapState>) -> Result<(), NoMemory>
    ensures { OnOk result (draft.new ≡ (draft.old then ends_where state mapping)) }
{
    match state {
        Some(state) => end_in(draft, mapping, state),
        None => Ok(()),
    }
}

/// The event of a way to stop.
pub fn stop_event(way: StopWay) -> MapEvent
    ensures { result ≡ stop_event way }
{
    match way {
        StopWay::Plain => MapEvent::Stop,
        StopWay::Force => MapEvent::StopForce,
        StopWay::Split => MapEvent::StopSplit,
    }
}

/// The grains that the mapping's slot holds.
fn kept_of<S: Sheet>(alloc: Global, sheet: &S, mapping: &Mapping) -> Result<Ranges, NoMemory>
    ensures { IfOk result (λ ranges. ranges ≡ ranges_from 0 (held_of (S.meaning sheet.now).sheet.slots mapping.now.id.0)) }
{
    let kept = sheet.kept(alloc, mapping.id)?;
    // a look at the ranges tells the proof that they rise
    let _rising = kept.as_slice();
    Ok(kept)
}

/// The state in which a stop ends a mapping, if it does. A split ends none that is incomplete.
fn stopped(state: MapState, way: StopWay, complete: bool, needed: bool) -> Option<MapState>
    ensures { result ≡ ok_of (next_state state (stop_event way) complete needed) }
{
    if matches!(way, StopWay::Split) && !complete {
        return None;
    }
    match next(state, stop_event(way), complete, needed) {
        Ok(state) => Some(state),
        Err(_) => None,
    }
}

/// How a slot leaves its place.
fn leave_event(
    alloc: Global,
    way: StopWay,
    asked: &Asked,
    map: MapId,
) -> Result<LaneEvent, NoMemory>
    ensures { IfOk result (λ event. event ≡ leaves_asked way asked.now.needed asked.now.dependents map) }
{
    match way {
        StopWay::Plain if asked.needed => Ok(LaneEvent::Retire { map }),
        StopWay::Plain => Ok(LaneEvent::Detach { map }),
        StopWay::Split => Ok(LaneEvent::Split { map }),
        StopWay::Force => {
            let dependents = copy_ids(alloc, asked.dependents.as_slice())?;
            Ok(LaneEvent::Force { map, dependents })
        }
    }
}

/// The same ids again.
fn copy_ids(alloc: Global, ids: &[MapId]) -> Result<List<MapId>, NoMemory>
    ensures { IfOk result (λ copy. copy ≡ ids.now) }
{
    let mut copy = List::new(alloc);
    for id in ids {
        copy.push(*id)?;
    }
    Ok(copy)
}

/// Whether the mapping's id is one of these.
pub fn is_among(ids: &[MapId], mapping: &Mapping) -> bool
    ensures { result ≡ is_among ids.now mapping.now }
{
    ids.iter().any(|id| is_id_of(*id, mapping))
}

/// Whether this is the mapping's id.
fn is_id_of(id: MapId, mapping: &Mapping) -> bool
    ensures { result ≡ (id.0 == mapping.now.id.0) }
{
    id.0 == mapping.id.0
}
