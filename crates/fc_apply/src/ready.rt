//! What the events of a command need, so that they take no memory.

ghost use Rattle.std.specs.Prelude.{◌≡◌, ◌<◌, ◌++◌, [], OnOk, OnErr};
ghost use Rattle.fc_base.specs.declared.size.GrainSize.{GrainSize};
ghost use Rattle.fc_grains.specs.Calls.{HasReadied};
ghost use Rattle.fc_apply.specs.Parts.{AreKnown, DiskOf, HasDisks, KnowsMore, KnowsOf, new_of, new_volumes};
ghost use Rattle.fc_steps.specs.Standing.{lane_of};
ghost use Rattle.fc_rules.specs.LaneTold.{grains_in};

use fc_base::decision::LaneEvent;
use fc_base::outcome::NoMemory;
use fc_grains::grains::Grains;
use fc_mdisk::mdisk::Mdisk;
use fc_pick::Work;

/// How many of a volume's grains the lane has.
fn grains_of_lane(lane: u8, lanes: u8, grains: u32) -> u32
    requires { lane < lanes }
    ensures { (size : GrainSize) → result ≡ grains_in (lane_of lane lanes size) grains }
{
    let lanes = lanes as u64;
    ((grains as u64 + lanes - 1 - lane as u64) / lanes) as u32
}

/// Makes ready for the volume that comes with the event, if one does. Refused, all is as it was.
fn reserve_volume<D: Mdisk>(
    lane: u8,
    lanes: u8,
    grains: &mut Grains<D>,
    event: &LaneEvent,
) -> Result<(), NoMemory>
    requires lane_in { lane < lanes }
    requires disk { DiskOf grains.old.pool grains.old.reserved event.now }
    ensures ok { OnOk result (HasReadied grains.old (grains.old.reserved ++ new_of (lane_of lane lanes grains.old.grain) event.now) grains.new) }
    ensures err { OnErr result (grains.new ≡ grains.old) }
{
    match event {
        LaneEvent::Make {
            grains: size,
            kind,
            ..
        } => grains.reserve(*kind, grains_of_lane(lane, lanes, *size)),
        _ => Ok(()),
    }
}

/// Makes ready for the volumes that come with the events, in order. Refused, no new volume is ready, and all is as it was but
/// for the grains of disks of the pool.
pub(crate) fn reserve_volumes<D: Mdisk>(
    lane: u8,
    lanes: u8,
    grains: &mut Grains<D>,
    events: &[LaneEvent],
) -> Result<(), NoMemory>
    requires lane_in { lane < lanes }
    requires fresh { grains.old.reserved ≡ [] }
    requires disks { HasDisks (lane_of lane lanes grains.old.grain) grains.old.pool [] events.now }
    ensures ok { OnOk result (HasReadied grains.old (new_volumes (lane_of lane lanes grains.old.grain) events.now) grains.new) }
    ensures err { OnErr result (HasReadied grains.old [] grains.new) }
{
    for event in events {
        if reserve_volume(lane, lanes, grains, event).is_err() {
            grains.release();
            return Err(NoMemory);
        }
    }
    Ok(())
}

/// The mapping that gets work with the event, if one does, is known from now on.
fn track(work: &mut Work, event: &LaneEvent) -> Result<(), NoMemory>
    ensures flags { work.new.flags ≡ work.old.flags }
    ensures more { KnowsMore work.old.known work.new.known }
    ensures ok { OnOk result (KnowsOf work.new.known event.now) }
{
    match event {
        LaneEvent::Work { map, .. } => work.track(*map),
        _ => Ok(()),
    }
}

/// The mappings that get work with the events are known from now on. Refused, some of them may be.
pub(crate) fn track_all(work: &mut Work, events: &[LaneEvent]) -> Result<(), NoMemory>
    ensures flags { work.new.flags ≡ work.old.flags }
    ensures ok { OnOk result (AreKnown work.new.known events.now) }
{
    for event in events {
        if track(work, event).is_err() {
            return Err(NoMemory);
        }
    }
    Ok(())
}
