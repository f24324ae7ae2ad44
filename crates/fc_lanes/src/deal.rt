//! Disks, dealt to lanes, and given back by them.

ghost use Rattle.std.specs.Prelude.{◌≡◌, ◌+◌, ◌++◌, ◌<◌, ◌≤◌, ◌^◌, [], IfOk, List, map, replicate, vec_capacity, vec_len};
ghost use Rattle.std.specs.List.{All};
ghost use Rattle.fc_grains.specs.Grains.{total_of};
ghost use Rattle.fc_lanes.specs.Dealing.{AreAllIn, AreByLane, Begin, FitLane, all_dealt, disks_in, lists_of};

use fc_base::outcome::NoMemory;
use fc_base::size::GrainSize;
use fc_lane::lane::Lane;
use fc_mdisk::mdisk::Mdisk;
use std::alloc::Global;
use std::collections::VecDeque;

/// So many lists without disks.
fn no_lists<D: Mdisk>(alloc: Global, count: usize) -> Result<Vec<Vec<D>>, NoMemory>
    ensures { IfOk result (λ lists. lists_of D.meaning lists.items ≡ replicate count []) }
{
    let mut lists = Vec::new(alloc);
    for _ in 0..count {
        match lists.push(Vec::new(alloc)) {
            Ok(()) => {}
            Err(_) => return Err(NoMemory),
        }
    }
    Ok(lists)
}

/// Deals disks to so many lists in turn, each in order: a disk goes to the list whose number its place leaves when divided by
/// theirs. Refused for want of memory, the disks are gone.
pub fn deal<D: Mdisk>(alloc: Global, count: usize, disks: Vec<D>) -> Result<Vec<Vec<D>>, NoMemory>
    requires { 0 < count }
    ensures { IfOk result (λ lists. lists_of D.meaning lists.items ≡ all_dealt count (map D.meaning disks.items)) }
{
    let mut lists = match no_lists(alloc, count) {
        Ok(lists) => lists,
        Err(NoMemory) => return Err(NoMemory),
    };
    let mut left = VecDeque::from(disks);
    let mut dealt: usize = 0;
    while let Some(disk) = left.pop_front() {
        match lists[dealt % count].push(disk) {
            Ok(()) => {}
            Err(_) => return Err(NoMemory),
        }
        dealt += 1;
    }
    Ok(lists)
}

/// A lane over each list of disks, numbered in order; there are at most 255. Refused for want of memory, the disks are gone.
pub fn make_lanes<D: Mdisk>(
    alloc: Global,
    grain: GrainSize,
    lists: Vec<Vec<D>>,
) -> Result<Vec<Lane<D>>, NoMemory>
    requires count { vec_len lists < 2 ^ 8 }
    requires fit { All FitLane (lists_of D.meaning lists.items) }
    ensures { IfOk result (λ lanes. Begin grain (vec_len lists) (lists_of D.meaning lists.items) lanes.items) }
{
    let count = lists.len();
    let mut lanes = Vec::new(alloc);
    let mut left = VecDeque::from(lists);
    while let Some(disks) = left.pop_front() {
        let lane = match Lane::new(alloc, lanes.len() as u8, count as u8, grain, disks) {
            Ok(lane) => lane,
            Err(NoMemory) => return Err(NoMemory),
        };
        match lanes.push(lane) {
            Ok(()) => {}
            Err(_) => return Err(NoMemory),
        }
    }
    Ok(lanes)
}

/// Appends all disks of lanes as they are, lane by lane in order, to a list that has room for them.
pub fn give_lanes<D: Mdisk>(mut lanes: VecDeque<Lane<D>>, into: &mut Vec<D>)
    requires { vec_len into.old + total_of (disks_in lanes.items) ≤ vec_capacity into.old }
    ensures { (given : List D) × (into.new.items ≡ into.old.items ++ given) × AreAllIn lanes.items (map D.meaning given)
        × AreByLane lanes.items (map D.meaning given) }
{
    while let Some(lane) = lanes.pop_front() {
        lane.give_disks(into);
    }
}
