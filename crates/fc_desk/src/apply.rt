//! What a decision makes of the tables, of the ids that come next and of background work; and the room that it takes,
//! which is there before.

ghost use Rattle.std.specs.Prelude.{◌≡◌, ◌+◌, ◌≤◌, cond, length, fold, find, filter, option_copied, OnOk};
ghost use Rattle.std.specs.Option.{ForSome};
ghost use Rattle.fc_base.specs.SheetView.{SheetView};
ghost use Rattle.fc_base.specs.Tables.{Fits, after_change, room_asked};
ghost use Rattle.fc_books.specs.After.{after_table_change, flags_after};
ghost use Rattle.fc_desk.specs.Applied.{changed};
ghost use Rattle.fc_desk.specs.Changes.{FitChanges, AreReserved, IsCountable, AreCountable, CanApply, adds, is_work, works};
ghost use Rattle.fc_desk.specs.Control.{books_of};

use crate::control::Control;
use crate::flags::{clear_flags, set_flags};
use fc_base::decision::{Decision, LaneEvent};
use fc_base::outcome::NoMemory;
use fc_base::volume::Change;
use fc_pick::WorkFlags;
use std::alloc::Global;

impl Control {
    /// Makes room for all that `apply` of the decision needs. Refused or not, the tables, the next ids and the flags stay.
    pub fn reserve(&mut self, alloc: Global, decision: &Decision) -> Result<(), NoMemory>
        requires { length (filter adds decision.now.changes) ≤ 1 }
        ensures ok { OnOk result (CanApply self.new decision.now) }
        ensures same { self.new ≡ record self.old { reserved = self.new.reserved; room = self.new.room } }
    {
        match self.reserve_object(alloc, decision.changes.as_slice()) {
            Ok(()) => self.reserve_flags(count_works(decision.events.as_slice())),
            Err(error) => Err(error),
        }
    }

    /// Keeps room for the new object among the changes.
    fn reserve_object(&mut self, alloc: Global, changes: &[Change]) -> Result<(), NoMemory>
        requires { length (filter adds changes.now) ≤ 1 }
        ensures ok { OnOk result (AreReserved self.new.reserved changes.now) }
        ensures same { self.new ≡ record self.old { reserved = self.new.reserved } }
    {
        match first_added(changes) {
            Some(change) => self.registry.reserve(alloc, change),
            None => Ok(()),
        }
    }

    /// Makes room for so many more mappings with background work.
    fn reserve_flags(&mut self, count: usize) -> Result<(), NoMemory>
        ensures ok { OnOk result (count ≤ self.new.room) }
        ensures same { self.new ≡ record self.old { room = self.new.room } }
    {
        match self.flags.reserve(count) {
            Ok(()) => Ok(()),
            Err(_) => Err(NoMemory),
        }
    }

    /// Does what is decided: the changes and then the events, each in order. All that it needs has to be reserved. Takes no
    /// memory.
    pub fn apply(&mut self, decision: &Decision)
        requires fits { FitChanges self.old.tables decision.now.changes }
        requires countable { AreCountable decision.now.changes }
        requires ready { CanApply self.old decision.now }
        ensures books { (view : SheetView) → books_of self.new view ≡ record (fold after_table_change (books_of self.old view) decision.now.changes) { flags = fold flags_after self.old.flags decision.now.events } }
        ensures tables { self.new.tables ≡ fold after_change self.old.tables decision.now.changes }
        ensures grain { self.new.grain ≡ self.old.grain }
    {
        self.apply_changes(decision.changes.as_slice());
        self.apply_events(decision.events.as_slice());
    }

    /// Makes the changes, in order.
    fn apply_changes(&mut self, changes: &[Change])
        requires fits { FitChanges self.old.tables changes.now }
        requires countable { AreCountable changes.now }
        requires reserved { AreReserved self.old.reserved changes.now }
        ensures { self.new ≡ fold changed self.old changes.now }
    {
        for change in changes {
            self.apply_change(change);
        }
    }

    /// Makes one change, and counts the id of a new object.
    fn apply_change(&mut self, change: &Change)
        requires fits { Fits self.old.tables change.now }
        requires countable { IsCountable change.now }
        requires reserved { ForSome (room_asked change.now) (λ asked. self.old.reserved ≡ Some asked) }
        ensures { self.new ≡ changed self.old change.now }
    {
        self.registry.apply(change);
        match change {
            Change::AddVolume(volume) => self.next_volume = volume.id.0 + 1,
            Change::AddMapping(mapping) => self.next_mapping = mapping.id.0 + 1,
            Change::AddGroup(group) => self.next_group = group.id.0 + 1,
            _ => {}
        }
    }

    /// Sets and clears flags as the events say, in order.
    fn apply_events(&mut self, events: &[LaneEvent])
        requires room { works events.now ≤ self.old.room }
        ensures flags { self.new.flags ≡ fold flags_after self.old.flags events.now }
        ensures same { self.new ≡ record self.old { flags = self.new.flags; room = self.new.room } }
    {
        for event in events {
            self.apply_event(event);
        }
    }

    /// Sets or clears flags as the event says.
    fn apply_event(&mut self, event: &LaneEvent)
        requires room { cond (is_work event.now) 1 0 ≤ self.old.room }
        ensures flags { self.new.flags ≡ flags_after self.old.flags event.now }
        ensures room { self.old.room ≤ self.new.room + cond (is_work event.now) 1 0 }
        ensures same { self.new ≡ record self.old { flags = self.new.flags; room = self.new.room } }
    {
        match event {
            LaneEvent::Work {
                map,
                copies,
                cleans,
            } => set_flags(
                &mut self.flags,
                WorkFlags {
                    map: *map,
                    copies: *copies,
                    cleans: *cleans,
                },
            ),
            LaneEvent::Forget { map } => clear_flags(&mut self.flags, *map),
            _ => {}
        }
    }
}

/// The first change that adds an object.
fn first_added(changes: &[Change]) -> Option<&Change>
    ensures { option_copied result ≡ find adds changes.now }
{
    changes.iter().find(|change| is_new(change))
}

/// Whether the change adds an object.
fn is_new(change: &Change) -> bool
    ensures { result ≡ adds change.now }
{
    match change {
        Change::AddVolume(_) | Change::AddMapping(_) | Change::AddGroup(_) => true,
        _ => false,
    }
}

/// How many events set flags.
fn count_works(events: &[LaneEvent]) -> usize
    ensures { result ≡ works events.now }
{
    let mut count: usize = 0;
    for event in events {
        if sets_flags(event) {
            count += 1;
        }
    }
    count
}

/// Whether the event sets flags.
fn sets_flags(event: &LaneEvent) -> bool
    ensures { result ≡ is_work event.now }
{
    match event {
        LaneEvent::Work { .. } => true,
        _ => false,
    }
}
