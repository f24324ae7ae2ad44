//! The events of a command, done to a lane.

ghost use Rattle.std.specs.Prelude.{◌≡◌, [], OnOk, fold};
ghost use Rattle.fc_apply.specs.Parts.{ArmedBy, IdleAfter};
ghost use Rattle.fc_grains.specs.Calls.{HasReadied};
ghost use Rattle.fc_grains.specs.Quiet.{IsQuiet};
ghost use Rattle.fc_follow.specs.Following.{FitsFollowed, Followed, TriggersFirst, followed_event};
ghost use Rattle.fc_lane.specs.Applying.{CanApply, HasApplied};
ghost use Rattle.fc_lane.specs.Lane.{ArmsNone, CanDoEvents, IsFollowing, IsSameLane, KeepsQuiet, of};
ghost use Rattle.fc_rules.specs.LaneFits.{WorksFirst};

use crate::lane::Lane;
use fc_apply::chains::{follow_event, ready_rows};
use fc_apply::parts::{do_event, reserve_events};
use fc_base::decision::{LaneEvent, LaneEvents};
use fc_base::outcome::NoMemory;
use fc_mdisk::mdisk::Mdisk;

impl<D: Mdisk> Lane<D> {
    /// Makes ready for events that fit, so that `apply` of them takes no memory. What was made ready before for events that
    /// weren't done is forgotten. What is told stays.
    pub fn reserve(&mut self, events: &LaneEvents) -> Result<(), NoMemory>
        requires fit { (f : Followed) × IsFollowing self.old f × FitsFollowed (of self.old) f events.now }
        requires works { WorksFirst events.now }
        requires triggers { TriggersFirst events.now }
        ensures ok { OnOk result (CanDoEvents self.new events.now) }
        ensures stands { (f : Followed) → IsFollowing self.old f → IsFollowing self.new f }
        ensures same { IsSameLane self.old self.new }
        ensures quiet { IsQuiet self.old.grains → IsQuiet self.new.grains }
        ensures faults { self.new.grains.faults ≡ self.old.grains.faults }
        ensures disks { HasReadied self.old.grains self.new.grains.reserved self.new.grains }
        ensures plan_room { self.new.plan_room ≡ self.old.plan_room }
        ensures entry_room { self.new.entry_room ≡ self.old.entry_room }
    {
        self.body.grains.release();
        self.changes.release();
        let ready = ready_rows(
            self.alloc,
            &self.body.cascade,
            &mut self.changes,
            events.as_slice(),
        );
        if ready.is_err() {
            return Err(NoMemory);
        }
        reserve_events(
            self.lane,
            self.lanes,
            &mut self.body.cascade,
            &mut self.body.grains,
            &mut self.accesses,
            &mut self.work,
            events,
        )
    }

    /// Does what the events say, in order. They fit, and all is ready for them. Takes no memory and calls no disk. Faults are
    /// armed as they say, and no others; volumes that come take disks of the pool, and the disks of those that go are put
    /// aside, cleared.
    pub fn apply(&mut self, events: &LaneEvents)
        requires ready { CanDoEvents self.old events.now }
        requires fit { (f : Followed) × IsFollowing self.old f × FitsFollowed (of self.old) f events.now }
        requires triggers { TriggersFirst events.now }
        ensures stands { (f : Followed) → IsFollowing self.old f → FitsFollowed (of self.old) f events.now →
            IsFollowing self.new (fold (followed_event (of self.old)) f events.now) }
        ensures same { IsSameLane self.old self.new }
        ensures made { self.new.grains.reserved ≡ [] }
        ensures quiet { ArmsNone events.now → KeepsQuiet self.old self.new }
        ensures armed { ArmedBy (of self.old) events.now self.old.grains.volumes self.new.grains.volumes }
        ensures idle { IdleAfter self.old.grains self.new.grains }
        ensures plan_room { self.new.plan_room ≡ self.old.plan_room }
        ensures entry_room { self.new.entry_room ≡ self.old.entry_room }
    {
        for event in events.as_slice() {
            self.apply_event(event);
        }
    }

    /// Does what one event says. It fits, and all is ready for it. Takes no memory and calls no disk.
    fn apply_event(&mut self, event: &LaneEvent)
        requires { CanApply self.old event.now }
        ensures { HasApplied self.old event.now self.new }
    {
        follow_event(&mut self.body.cascade, &mut self.changes, event);
        do_event(
            self.lane,
            self.lanes,
            &mut self.body.grains,
            &mut self.accesses,
            &mut self.work,
            event,
        );
    }
}
