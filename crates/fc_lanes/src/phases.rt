//! All lanes, made ready for the events of a decision, and then doing them.

ghost use Rattle.std.specs.Prelude.{OnOk};
ghost use Rattle.fc_follow.specs.Following.{TriggersFirst};
ghost use Rattle.fc_lanes.specs.AllLanes.{CanAllDo, EachLane, FitAll, IsLaneAfter, IsLaneReady};
ghost use Rattle.fc_rules.specs.LaneFits.{WorksFirst};

use fc_base::decision::LaneEvents;
use fc_base::outcome::NoMemory;
use fc_lane::lane::Lane;
use fc_mdisk::mdisk::Mdisk;

/// Makes all lanes ready for events that fit them, so that `apply_lanes` of these takes no memory. Refused for want of memory or
/// not, each lane stands for what it did, and its armed faults stay.
pub fn reserve_lanes<D: Mdisk>(lanes: &mut [Lane<D>], events: &LaneEvents) -> Result<(), NoMemory>
    requires fit { FitAll lanes.old events.now }
    requires works { WorksFirst events.now }
    requires triggers { TriggersFirst events.now }
    ensures ok { OnOk result (CanAllDo lanes.new events.now) }
    ensures ready { EachLane IsLaneReady lanes.old lanes.new }
{
    for place in 0..lanes.len() {
        match lanes[place].reserve(events) {
            Ok(()) => {}
            Err(NoMemory) => return Err(NoMemory),
        }
    }
    Ok(())
}

/// Has all lanes do what the events say, one after the other; they fit each lane, and each is ready for them. The armed faults
/// are then those that the events set. Takes no memory.
pub fn apply_lanes<D: Mdisk>(lanes: &mut [Lane<D>], events: &LaneEvents)
    requires ready { CanAllDo lanes.old events.now }
    requires fit { FitAll lanes.old events.now }
    requires triggers { TriggersFirst events.now }
    ensures { EachLane (IsLaneAfter events.now) lanes.old lanes.new }
{
    for place in 0..lanes.len() {
        lanes[place].apply(events);
    }
}
