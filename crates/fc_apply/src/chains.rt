//! What an event does to the chains of a lane, and what it changes for incremental mappings.

ghost use Rattle.std.specs.Prelude.{◌≡◌, ◌+◌, ◌≤◌, [], All, List, OnOk, flat_map, fold, length, map};
ghost use Rattle.fc_base.specs.Sheet.{Sheet, Slot, volume_grains};
ghost use Rattle.fc_base.specs.SheetFacts.{IsSound};
ghost use Rattle.fc_base.specs.SheetFits.{FitsTrigger};
ghost use Rattle.fc_base.specs.SheetStep.{triggered};
ghost use Rattle.fc_books.specs.After.{begun};
ghost use Rattle.fc_chain.specs.Chains.{lane_grains};
ghost use Rattle.fc_chain.specs.Room.{slots_made};
ghost use Rattle.fc_changed.specs.Row.{after_note, restart_in};
ghost use Rattle.fc_follow.specs.Following.{beginning, leaving, restarts, rows_event};
ghost use Rattle.fc_apply.specs.Events.{AreOfOthers, CanFollow, IsBeginning, IsSized, TriggersOthers, chains_after, AreRowsReady, new_rows};

use fc_base::decision::LaneEvent;
use fc_base::ids::MapId;
use fc_base::outcome::NoMemory;
use fc_base::request::Pair;
use fc_chain::Cascade;
use fc_diff::Changes;
use std::alloc::Global;

/// Makes ready for the incremental mappings that are followed from these pairs on. Refused, some of them may be ready.
fn ready_pairs(
    alloc: Global,
    cascade: &Cascade,
    changes: &mut Changes,
    pairs: &[Pair],
) -> Result<(), NoMemory>
    requires fresh { changes.old.ready ≡ [] }
    requires others { AreOfOthers pairs.now }
    ensures ok { OnOk result (changes.new ≡ record changes.old { ready = new_rows cascade.now.sheet.slots changes.old.rows pairs.now }) }
    ensures rows { changes.new.rows ≡ changes.old.rows }
{
    for pair in pairs {
        if !pair.incremental {
            continue;
        }
        let grains = cascade.grains(pair.target);
        if changes
            .make_ready(alloc, pair.map, pair.source, pair.target, grains)
            .is_err()
        {
            return Err(NoMemory);
        }
    }
    Ok(())
}

/// Makes ready for the incremental mappings that are followed from these events on, of which only the first may be a trigger.
/// Refused, some of them may be ready.
pub fn ready_rows(
    alloc: Global,
    cascade: &Cascade,
    changes: &mut Changes,
    events: &[LaneEvent],
) -> Result<(), NoMemory>
    requires fresh { changes.old.ready ≡ [] }
    requires others { TriggersOthers events.now }
    ensures ok { OnOk result (AreRowsReady cascade.now.sheet.slots changes.new events.now) }
    ensures rows { changes.new.rows ≡ changes.old.rows }
{
    match events {
        [LaneEvent::Trigger { pairs }, ..] => {
            ready_pairs(alloc, cascade, changes, pairs.as_slice())
        }
        _ => Ok(()),
    }
}

/// The new slot of a pair begins with the grains at which the mapping's volumes show the same: there its volume's own grains
/// are the copy.
fn begin_slot(cascade: &mut Cascade, changes: &Changes, pair: &Pair)
    requires { IsBeginning cascade.old.sheet pair.now (restart_in pair.now.map.0 changes.now.rows) }
    ensures { cascade.new ≡ record cascade.old { sheet = begun (restarts changes.now.rows) cascade.old.sheet pair.now } }
{
    let Some(same) = changes.restart(pair.map) else {
        return;
    };
    let Some(slot) = cascade.slot(pair.map) else {
        unreachable!()
    };
    let mut from = 0;
    while let Some(place) = same.next_set(from) {
        let grain = cascade.number(slot, place);
        cascade.moved(slot, grain, true);
        from = place + 1;
    }
}

/// The new slots of a trigger begin, in order.
fn begin_slots(cascade: &mut Cascade, changes: &Changes, pairs: &[Pair])
    requires triggered { (s : Sheet) × IsSound s × FitsTrigger s pairs.now × (cascade.old.sheet ≡ triggered pairs.now s) × All (λ p. length (restart_in p.map.0 changes.now.rows) ≤ volume_grains s.slots p.target.0) pairs.now }
    ensures { cascade.new ≡ record cascade.old { sheet = fold (begun (restarts changes.now.rows)) cascade.old.sheet pairs.now } }
{
    for pair in pairs {
        begin_slot(cascade, changes, pair);
    }
}

/// Notes that all targets of a trigger became copies.
fn note_beginnings(changes: &mut Changes, pairs: &[Pair])
    requires others { AreOfOthers pairs.now }
    requires ready { (slots : List Slot) × (changes.old.ready ≡ new_rows slots changes.old.rows pairs.now) }
    ensures { (slots : List Slot) → changes.old.ready ≡ new_rows slots changes.old.rows pairs.now → changes.new.rows ≡ fold after_note changes.old.rows (map (beginning slots) pairs.now) }
{
    for pair in pairs {
        changes.began(pair.map, pair.source, pair.target, pair.incremental);
    }
}

/// Notes that the mapping's slot leaves its chain, with what it holds, if it is live.
fn note_leaving(cascade: &Cascade, changes: &mut Changes, map: MapId)
    requires { All (IsSized cascade.now.sheet.slots) changes.old.rows }
    ensures { changes.new ≡ record changes.old { rows = fold after_note changes.old.rows (leaving cascade.now.sheet.slots map) } }
{
    let Some(slot) = cascade.slot(map) else {
        return;
    };
    if cascade.is_live(slot) {
        changes.left(cascade.volume(slot), cascade.held(slot));
    }
}

/// Notes that the slots of these mappings leave their chains.
fn note_leavings(cascade: &Cascade, changes: &mut Changes, maps: &[MapId])
    requires { All (IsSized cascade.now.sheet.slots) changes.old.rows }
    ensures { changes.new ≡ record changes.old { rows = fold after_note changes.old.rows (flat_map (leaving cascade.now.sheet.slots) maps.now) } }
{
    for map in maps {
        note_leaving(cascade, changes, *map);
    }
}

/// Does what one event says to the chains, and notes what it changes for incremental mappings: by the chains as they were,
/// where slots leave them. The new slots of a trigger begin with what was noted before it. Takes no memory.
pub fn follow_event(cascade: &mut Cascade, changes: &mut Changes, event: &LaneEvent)
    requires { CanFollow cascade.old changes.old event.now }
    ensures chains { cascade.new ≡ record cascade.old { sheet = chains_after (restarts changes.old.rows) (lane_grains cascade.old.lane cascade.old.lanes) cascade.old.sheet event.now; room = cascade.new.room } }
    ensures room { cascade.old.room ≤ cascade.new.room + slots_made event.now }
    ensures rows { changes.new.rows ≡ rows_event cascade.old.sheet.slots changes.old.rows event.now }
{
    match event {
        LaneEvent::Trigger { pairs } => {
            cascade.apply_event(event);
            begin_slots(cascade, changes, pairs.as_slice());
            note_beginnings(changes, pairs.as_slice());
        }
        LaneEvent::Retire { map } | LaneEvent::Detach { map } | LaneEvent::Split { map } => {
            note_leaving(cascade, changes, *map);
            cascade.apply_event(event);
        }
        LaneEvent::Force { map, dependents } => {
            note_leaving(cascade, changes, *map);
            note_leavings(cascade, changes, dependents.as_slice());
            cascade.apply_event(event);
        }
        LaneEvent::NoteCut { target, .. } => changes.cut(*target),
        LaneEvent::Forget { map } => changes.forget(*map),
        LaneEvent::Make { .. } | LaneEvent::Remove { .. } | LaneEvent::Drop { .. } => {
            cascade.apply_event(event);
        }
        LaneEvent::Access { .. } | LaneEvent::Work { .. } | LaneEvent::Arm { .. } => {}
    }
}
