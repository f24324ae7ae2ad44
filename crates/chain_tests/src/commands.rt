//! Starts and stops between three volumes, by their numbers.

ghost use Rattle.std.specs.Prelude.{◌≡◌, ◌≤◌, [], ◌∷◌, IfOk};
ghost use Rattle.fc_events.specs.Room.{slots_made};

use fc_base::decision::LaneEvent;
use fc_base::disk::DiskKind;
use fc_base::ids::{MapId, SlotId, VolId};
use fc_base::list::List;
use fc_base::outcome::NoMemory;
use fc_base::request::Pair;
use std::alloc::Global;

/// A volume.
pub const A: u32 = 0;

/// A volume.
pub const B: u32 = 1;

/// A volume.
pub const C: u32 = 2;

/// How many grains each volume has.
pub const GRAINS: u32 = 4;

/// What happens to volumes, mappings and slots.
#[derive(Clone, Copy)]
pub enum Command {
    /// A volume comes.
    Make(u32),
    /// A volume goes.
    Remove(u32),
    /// A mapping is started, from one volume to another.
    Start(u32, u32, u32),
    /// A mapping is stopped whose slot others need.
    Retire(u32),
    /// A mapping is stopped whose slot nobody needs.
    Detach(u32),
    /// A mapping whose target is complete is split off.
    Split(u32),
    /// A mapping is stopped by force, with one that depends on it.
    Force(u32, u32),
    /// An old slot that nobody needs is dropped, by its birth.
    Drop(u64),
}

/// A pair of a start.
pub fn pair(map: u32, source: u32, target: u32) -> Pair {
    Pair {
        map: MapId(map),
        source: VolId(source),
        target: VolId(target),
        incremental: false,
    }
}

/// A list of one.
fn one<T: Drop>(alloc: Global, item: T) -> Result<List<T>, NoMemory>
    ensures { IfOk result (λ list. list ≡ item ∷ []) }
{
    let mut list = List::new(alloc);
    list.push(item)?;
    Ok(list)
}

impl Command {
    /// What a lane is told of it.
    pub fn event(self, alloc: Global) -> Result<LaneEvent, NoMemory>
        ensures { IfOk result (λ event. slots_made event ≤ 2) }
    {
        match self {
            Command::Make(volume) => Ok(LaneEvent::Make {
                volume: VolId(volume),
                grains: GRAINS,
                kind: DiskKind::Flat,
            }),
            Command::Remove(volume) => Ok(LaneEvent::Remove {
                volume: VolId(volume),
            }),
            Command::Start(map, source, target) => {
                let pairs = one(alloc, pair(map, source, target))?;
                Ok(LaneEvent::Trigger { pairs })
            }
            Command::Retire(map) => Ok(LaneEvent::Retire { map: MapId(map) }),
            Command::Detach(map) => Ok(LaneEvent::Detach { map: MapId(map) }),
            Command::Split(map) => Ok(LaneEvent::Split { map: MapId(map) }),
            Command::Force(map, dependent) => {
                let (map, dependents) = (MapId(map), one(alloc, MapId(dependent))?);
                Ok(LaneEvent::Force { map, dependents })
            }
            Command::Drop(slot) => Ok(LaneEvent::Drop { slot: SlotId(slot) }),
        }
    }
}
