//! Reads of a new volume, and the room that it takes.

ghost use Rattle.std.specs.Prelude.{◌≡◌, ◌<◌, ◌^◌, map, vec_len};
ghost use Rattle.std.specs.List.{All};
ghost use Rattle.fc_grains.specs.Grains.{IsUnarmed, pool_of};
ghost use Rattle.fc_lane.specs.Lane.{IsFollowing, of};
ghost use Rattle.lane_tests.specs.First.{first, the_lane, told_first};

use crate::lanes::{done, is_fault, new_lane};
use fc_base::decision::{LaneEvent, LaneEvents};
use fc_base::disk::DiskKind;
use fc_base::ids::VolId;
use fc_base::request::{ReadPart, Reply};
use fc_base::runs::Run;
use fc_entry::entry::Entry;
use fc_lane::lane::Lane;
use fc_mdisk::fail::FailDisk;
use fc_mdisk::mdisk::Mdisk;
use fc_mdisk::mem::MemDisk;
use std::alloc::Global;
use std::process::Abort;
use std::test::Fail;

/// The event of the first volume.
fn first_volume(rt: &impl Abort, alloc: Global) -> LaneEvents
    ensures { result ≡ first }
{
    let mut events = LaneEvents::new(alloc);
    let event = LaneEvent::Make {
        volume: VolId(0),
        grains: 2,
        kind: DiskKind::Flat,
    };
    events.push(event).expect(rt, "memory");
    events
}

/// A lane with the first volume.
fn lane_over<D: Mdisk>(rt: &impl Abort, alloc: Global, disks: Vec<D>) -> Lane<D>
    requires few { vec_len disks < 2 ^ 30 }
    requires unarmed { All IsUnarmed (map D.meaning disks.items) }
    requires flat { 0 < (pool_of (map D.meaning disks.items)).flat }
    ensures of { of result ≡ the_lane }
    ensures stands { IsFollowing result (told_first (map D.meaning disks.items)) }
{
    let mut lane = new_lane(rt, alloc, disks);
    let events = first_volume(rt, alloc);
    done(rt, &mut lane, &events);
    lane
}

/// Reads two blocks of the second grain of the first volume.
fn read_first<D: Mdisk>(rt: &impl Abort, alloc: Global, disks: Vec<D>) -> Entry
    requires few { vec_len disks < 2 ^ 30 }
    requires unarmed { All IsUnarmed (map D.meaning disks.items) }
    requires flat { 0 < (pool_of (map D.meaning disks.items)).flat }
{
    let mut lane = lane_over(rt, alloc, disks);
    let part = ReadPart {
        volume: VolId(0),
        block: 130,
        count: 2,
    };
    lane.read(alloc, 0, 0, part)
}

/// Whether two blocks of zeros were read.
fn is_zeros(entry: &Entry) -> bool {
    match &entry.reply {
        Reply::Bytes(runs) => {
            let runs = runs.as_slice();
            runs.len() == 1
                && runs[0]
                    == Run {
                        count: 1024,
                        byte: 0,
                    }
        }
        _ => false,
    }
}

#[test]
fn a_new_volume_reads_as_zeros(rt: HostRuntime) -> Result<(), Fail> {
    let alloc = rt.alloc();
    let disks = vec![in alloc; MemDisk::new(alloc)]?;
    let entry = read_first(&rt, alloc, disks);
    assert!(rt; is_zeros(&entry));
    assert_eq!(rt; entry.calls, 1);
    Ok(())
}

#[test]
fn a_failed_read_is_told(rt: HostRuntime) -> Result<(), Fail> {
    let alloc = rt.alloc();
    let disks = vec![in alloc; FailDisk::new(alloc, vec![in alloc; 1]?)]?;
    let entry = read_first(&rt, alloc, disks);
    assert!(rt; is_fault(&entry));
    assert_eq!(rt;
        (entry.calls, entry.faults_before, entry.faults_after),
        (1, 0, 1)
    );
    Ok(())
}

#[test]
fn a_flat_volume_takes_room_for_each_grain(rt: HostRuntime) -> Result<(), Fail> {
    let alloc = rt.alloc();
    let disks = vec![in alloc; MemDisk::new(alloc)]?;
    let lane = lane_over(&rt, alloc, disks);
    assert_eq!(rt; (lane.room(VolId(0)), lane.room(VolId(1))), (2, 0));
    Ok(())
}
