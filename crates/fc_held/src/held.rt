//! The disks of a store, with the names of their volumes.

ghost use Rattle.std.specs.Prelude.{◌≡◌, ◌≤◌, IfOk, Some, None, if◌then◌else◌, ltb};
ghost use Rattle.fc_grains.specs.Grains.{total_of};
ghost use Rattle.fc_held.specs.Held.{HoldAllOf, HoldLane, HaveVolumes, HasVolumes, name_in};

use fc_base::ids::VolId;
use fc_base::outcome::NoMemory;
use fc_base::volume::Volume;
use fc_lane::lane::Lane;
use fc_mdisk::mdisk::Mdisk;
use fc_recovered::{LaneDisks, NamedDisk};
use fc_store::store::Store;
use std::alloc::Global;
use std::collections::VecDeque;

/// The name of a volume's disk: none where metadata doesn't know the volume yet.
fn name_for(id: VolId, named: u32) -> Option<VolId>
    ensures { result ≡ (if ltb id.0 named then Some id else None) }
{
    if id.0 < named { Some(id) } else { None }
}

/// The name of the disk at a place among those that a lane gives back: the volumes come from the last to the first. The disk of a
/// volume that metadata doesn't know yet has none.
fn name_at(volumes: &[Volume], named: u32, place: usize) -> Option<VolId>
    ensures { result ≡ name_in volumes.now named place }
{
    if place >= volumes.len() {
        return None;
    }
    name_for(volumes[volumes.len() - 1 - place].id, named)
}

/// The disks of a lane, named; there are no more than so many.
fn lane_named<D: Mdisk>(
    alloc: Global,
    lane: Lane<D>,
    volumes: &[Volume],
    named: u32,
    count: usize,
) -> Result<LaneDisks<D>, NoMemory>
    requires { total_of lane.grains.disks ≤ count }
    ensures { IfOk result (λ disks. HasVolumes volumes.now lane → HoldLane named lane.grains disks) }
{
    let Ok(mut disks) = Vec::with_capacity(alloc, count) else {
        return Err(NoMemory);
    };
    lane.give_disks(&mut disks);
    let mut left = VecDeque::from(disks);
    let mut back = Vec::new(alloc);
    let mut place: usize = 0;
    while let Some(disk) = left.pop_front() {
        let name = name_at(volumes, named, place);
        match back.push(NamedDisk::new(name, disk)) {
            Ok(()) => {}
            Err(_) => return Err(NoMemory),
        }
        place += 1;
    }
    Ok(LaneDisks::new(back))
}

/// The disks of all lanes of a store, named; no lane has more than so many.
pub fn all_named<D: Mdisk>(
    alloc: Global,
    store: Store<D>,
    named: u32,
    count: usize,
) -> Result<Vec<LaneDisks<D>>, NoMemory>
    requires { HaveVolumes count store }
    ensures { IfOk result (λ disks. HoldAllOf named store.lanes disks.items) }
{
    let (control, lanes) = store.into_control_and_lanes();
    let volumes = control.registry().all_volumes();
    let mut left = VecDeque::from(lanes);
    let mut back = Vec::new(alloc);
    while let Some(lane) = left.pop_front() {
        let disks = match lane_named(alloc, lane, volumes, named, count) {
            Ok(disks) => disks,
            Err(NoMemory) => return Err(NoMemory),
        };
        match back.push(disks) {
            Ok(()) => {}
            Err(_) => return Err(NoMemory),
        }
    }
    Ok(back)
}
