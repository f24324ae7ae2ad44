//! The room that thin volumes take.

ghost use Rattle.std.specs.Prelude.{◌≡◌, ◌<◌, ◌^◌, List as Items, [], ◌∷◌, map, vec_len};
ghost use Rattle.std.specs.List.{All};
ghost use Rattle.fc_follow.specs.Following.{Followed};
ghost use Rattle.fc_grains.specs.Grains.{IsUnarmed, pool_of};
ghost use Rattle.fc_lane.specs.Lane.{IsFollowing, of};
ghost use Rattle.fc_mdisk.specs.Disk.{DiskState};
ghost use Rattle.fc_rules.specs.LaneFits.{FitsPart};
ghost use Rattle.lane_tests.specs.First.{the_lane};
ghost use Rattle.lane_tests.specs.Thin.{copied, fails, pair, thin, told_thin};

use crate::lanes::{done, is_fault, new_lane};
use fc_base::decision::{LaneEvent, LaneEvents};
use fc_base::disk::DiskKind;
use fc_base::ids::{GrainNo, MapId, VolId};
use fc_base::list::List;
use fc_base::request::{Pair, Reply, WritePart};
use fc_entry::entry::Entry;
use fc_lane::lane::Lane;
use fc_mdisk::mdisk::Mdisk;
use fc_mdisk::thin::ThinDisk;
use std::alloc::Global;
use std::process::Abort;
use std::test::Fail;

/// The events of the two volumes.
fn thin_volumes(rt: &impl Abort, alloc: Global) -> LaneEvents
    ensures { result ≡ thin }
{
    let mut events = LaneEvents::new(alloc);
    let first = LaneEvent::Make {
        volume: VolId(0),
        grains: 2,
        kind: DiskKind::Thin,
    };
    events.push(first).expect(rt, "memory");
    let second = LaneEvent::Make {
        volume: VolId(1),
        grains: 2,
        kind: DiskKind::Thin,
    };
    events.push(second).expect(rt, "memory");
    events
}

/// The pair of the copy.
fn pairs(rt: &impl Abort, alloc: Global) -> List<Pair>
    ensures { result ≡ pair ∷ [] }
{
    let mut pairs = List::new(alloc);
    let pair = Pair {
        map: MapId(0),
        source: VolId(0),
        target: VolId(1),
        incremental: false,
    };
    pairs.push(pair).expect(rt, "memory");
    pairs
}

/// The event by which the second volume becomes a copy of the first.
fn copy(rt: &impl Abort, alloc: Global) -> LaneEvents
    ensures { result ≡ copied }
{
    let mut events = LaneEvents::new(alloc);
    let event = LaneEvent::Trigger {
        pairs: pairs(rt, alloc),
    };
    events.push(event).expect(rt, "memory");
    events
}

/// The event by which the second call of the second volume's disk is to fail.
fn fault(rt: &impl Abort, alloc: Global) -> LaneEvents
    ensures { result ≡ fails }
{
    let mut events = LaneEvents::new(alloc);
    let event = LaneEvent::Arm {
        volume: VolId(1),
        grain: GrainNo(0),
        calls: 2,
    };
    events.push(event).expect(rt, "memory");
    events
}

/// A lane with the two volumes.
fn lane_over<D: Mdisk>(rt: &impl Abort, alloc: Global, disks: Vec<D>) -> Lane<D>
    requires few { vec_len disks < 2 ^ 30 }
    requires unarmed { All IsUnarmed (map D.meaning disks.items) }
    requires thin { 1 < (pool_of (map D.meaning disks.items)).thin }
    ensures of { of result ≡ the_lane }
    ensures stands { (disks : Items DiskState) × IsFollowing result (told_thin disks) }
{
    let mut lane = new_lane(rt, alloc, disks);
    let events = thin_volumes(rt, alloc);
    done(rt, &mut lane, &events);
    lane
}

/// Writes the first block of a volume.
fn write_block<D: Mdisk>(rt: &impl Abort, alloc: Global, lane: &mut Lane<D>, volume: VolId) -> Entry
    requires of { of lane.old ≡ the_lane }
    requires fit { (f : Followed) × IsFollowing lane.old f × FitsPart the_lane f.told volume 0 1 }
{
    lane.make_room(alloc).expect(rt, "memory");
    let part = WritePart {
        volume,
        block: 0,
        count: 1,
        byte: 7,
    };
    lane.write(alloc, 0, 0, part)
}

/// How many grains of each of the two volumes occupy memory.
fn rooms<D: Mdisk>(lane: &Lane<D>) -> (u32, u32) {
    (lane.room(VolId(0)), lane.room(VolId(1)))
}

/// Whether a write was done.
fn is_done(entry: &Entry) -> bool {
    match &entry.reply {
        Reply::Done => true,
        _ => false,
    }
}

#[test]
fn a_write_takes_room_for_its_grain(rt: HostRuntime) -> Result<(), Fail> {
    let alloc = rt.alloc();
    let disks = vec![in alloc; ThinDisk::new(alloc), ThinDisk::new(alloc)]?;
    let mut lane = lane_over(&rt, alloc, disks);
    assert_eq!(rt; rooms(&lane), (0, 0));
    let entry = write_block(&rt, alloc, &mut lane, VolId(1));
    assert!(rt; is_done(&entry));
    assert_eq!(rt; rooms(&lane), (0, 1));
    Ok(())
}

#[test]
fn a_move_takes_room_for_its_grain(rt: HostRuntime) -> Result<(), Fail> {
    let alloc = rt.alloc();
    let disks = vec![in alloc; ThinDisk::new(alloc), ThinDisk::new(alloc)]?;
    let mut lane = lane_over(&rt, alloc, disks);
    let events = copy(&rt, alloc);
    done(&rt, &mut lane, &events);
    assert_eq!(rt; rooms(&lane), (0, 0));
    let entry = write_block(&rt, alloc, &mut lane, VolId(0));
    assert!(rt; is_done(&entry));
    assert_eq!(rt; rooms(&lane), (1, 1));
    Ok(())
}

#[test]
fn a_failed_write_takes_room_too(rt: HostRuntime) -> Result<(), Fail> {
    let alloc = rt.alloc();
    let disks = vec![in alloc; ThinDisk::new(alloc), ThinDisk::new(alloc)]?;
    let mut lane = lane_over(&rt, alloc, disks);
    let events = fault(&rt, alloc);
    done(&rt, &mut lane, &events);
    let entry = write_block(&rt, alloc, &mut lane, VolId(1));
    assert!(rt; is_fault(&entry));
    assert_eq!(rt; rooms(&lane), (0, 1));
    Ok(())
}
