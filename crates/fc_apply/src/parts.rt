//! What the events of a command do to the parts of a lane: its chains, grains, accesses and background work.

ghost use Rattle.std.specs.Prelude.{◌≡◌, ◌<◌, [], OnOk, OnErr, ◌%◌, ◌==◌, cond, IsTrue};
ghost use Rattle.fc_grains.specs.Calls.{HasReadied};
ghost use Rattle.fc_grains.specs.Volumes.{armed, changed};
ghost use Rattle.fc_pick.specs.Flags.{is_known, with_flags, with_number};
ghost use Rattle.fc_rules.specs.LaneFits.{WorksFirst};
ghost use Rattle.fc_grains.specs.Quiet.{IsQuiet};
ghost use Rattle.fc_apply.specs.Parts.{ArmsNot, CanDo, FitParts, HasDone, IdleAfter, IsReadyFor, StandsFor};
ghost use Rattle.fc_steps.specs.Standing.{SameVolumes, lane_of};
ghost use Rattle.fc_rules.specs.LaneTold.{LaneTold};

use crate::access::Accesses;
use crate::ready::{reserve_volumes, track_all};
use fc_base::decision::{LaneEvent, LaneEvents};
use fc_base::ids::{MapId, VolId};
use fc_base::outcome::NoMemory;
use fc_chain::Cascade;
use fc_grains::grains::Grains;
use fc_mdisk::mdisk::Mdisk;
use fc_pick::Work;

/// Makes ready for events that fit, so that they take no memory. No new volume is ready before. Refused, nothing
/// is told otherwise, and no new volume is ready.
pub fn reserve_events<D: Mdisk>(
    lane: u8,
    lanes: u8,
    cascade: &mut Cascade,
    grains: &mut Grains<D>,
    accesses: &mut Accesses,
    work: &mut Work,
    events: &LaneEvents,
) -> Result<(), NoMemory>
    requires lane_in { lane < lanes }
    requires fresh { grains.old.reserved ≡ [] }
    requires fit { FitParts (lane_of lane lanes grains.old.grain) cascade.old grains.old accesses.old work.old events.now }
    requires works { WorksFirst events.now }
    ensures ok { OnOk result (IsReadyFor (lane_of lane lanes grains.old.grain) cascade.new grains.new accesses.new work.new events.now) }
    ensures err { OnErr result (grains.new.reserved ≡ []) }
    ensures stands { (told : LaneTold) → StandsFor (lane_of lane lanes grains.old.grain) cascade.old grains.old accesses.old work.old told → StandsFor (lane_of lane lanes grains.old.grain) cascade.new grains.new accesses.new work.new told }
    ensures grains { HasReadied grains.old grains.new.reserved grains.new }
{
    if cascade.reserve(events).is_err() {
        return Err(NoMemory);
    }
    if accesses.reserve(events.len()).is_err() {
        return Err(NoMemory);
    }
    if track_all(work, events.as_slice()).is_err() {
        return Err(NoMemory);
    }
    reserve_volumes(lane, lanes, grains, events.as_slice())
}

/// Gives a known mapping its flags.
fn set_flags(work: &mut Work, map: MapId, copies: bool, cleans: bool)
    requires { IsTrue (is_known map work.old.known) }
    ensures flags { work.new.flags ≡ with_flags (record { map = map; copies = copies; cleans = cleans }) work.old.flags }
    ensures known { work.new.known ≡ with_number map.0 work.old.known }
{
    if work.set(map, copies, cleans).is_err() {
        unreachable!()
    }
}

/// Arms a fault of the volume's disk, if the volume is there and the grain is one of the lane's.
fn arm<D: Mdisk>(
    lane: u8,
    lanes: u8,
    grains: &mut Grains<D>,
    accesses: &Accesses,
    volume: VolId,
    grain: u32,
    calls: u32,
)
    requires lane_in { lane < lanes }
    requires same { SameVolumes grains.old.volumes accesses.now.volumes }
    ensures { grains.new ≡ record grains.old { volumes = cond (grain % lanes == lane) (changed volume.0 (armed calls) grains.old.volumes) grains.old.volumes } }
{
    if grain % lanes as u32 != lane as u32 {
        return;
    }
    if accesses.is_there(volume) {
        grains.arm(volume, calls);
    }
}

/// Does what one event says to the parts beside the chains. Takes no memory and calls no disk.
pub fn do_event<D: Mdisk>(
    lane: u8,
    lanes: u8,
    grains: &mut Grains<D>,
    accesses: &mut Accesses,
    work: &mut Work,
    event: &LaneEvent,
)
    requires lane_in { lane < lanes }
    requires same { SameVolumes grains.old.volumes accesses.old.volumes }
    requires can { CanDo (lane_of lane lanes grains.old.grain) grains.old accesses.old work.old event.now }
    ensures done { HasDone (lane_of lane lanes grains.old.grain) grains.old accesses.old work.old event.now grains.new accesses.new work.new }
    ensures quiet { IsQuiet grains.old → ArmsNot event.now → IsQuiet grains.new }
    ensures idle { IdleAfter grains.old grains.new }
{
    match event {
        LaneEvent::Make { volume, kind, .. } => {
            grains.make(*volume);
            accesses.add(*volume, *kind);
        }
        LaneEvent::Remove { volume } => {
            grains.remove(*volume);
            accesses.remove(*volume);
        }
        LaneEvent::Access { volume, access } => accesses.set(*volume, *access),
        LaneEvent::Work {
            map,
            copies,
            cleans,
        } => set_flags(work, *map, *copies, *cleans),
        LaneEvent::Forget { map } => work.forget(*map),
        LaneEvent::Arm {
            volume,
            grain,
            calls,
        } => arm(lane, lanes, grains, accesses, *volume, grain.0, *calls),
        LaneEvent::Trigger { .. }
        | LaneEvent::Retire { .. }
        | LaneEvent::Detach { .. }
        | LaneEvent::Split { .. }
        | LaneEvent::Force { .. }
        | LaneEvent::Drop { .. }
        | LaneEvent::NoteCut { .. } => {}
    }
}
