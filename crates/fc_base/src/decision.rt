//! What the control part decides, and what it tells the lanes.

use crate::disk::DiskKind;
use crate::ids::{GrainNo, MapId, SlotId, VolId};
use crate::list::List;
use crate::request::{Effect, Pair, Reply};
use crate::state::Access;
use crate::volume::Change;

/// What a lane is told of a command.
#[derive(Drop)]
pub enum LaneEvent {
    /// A volume comes: its grains of this lane get a disk of this kind.
    Make {
        volume: VolId,
        grains: u32,
        kind: DiskKind,
    },
    /// The volume goes: its disk is cleared and put aside.
    Remove {
        volume: VolId,
    },
    /// All targets become copies of their sources at once.
    Trigger {
        pairs: List<Pair>,
    },
    /// The mapping's slot becomes old and stays for those that need it.
    Retire {
        map: MapId,
    },
    /// The mapping's slot, which nobody needs, is taken out.
    Detach {
        map: MapId,
    },
    /// The mapping's slot and all after it become a chain of their own.
    Split {
        map: MapId,
    },
    /// The mapping's slot and those of its dependents are taken out.
    Force {
        map: MapId,
        dependents: List<MapId>,
    },
    /// An old slot that nobody needs is taken out.
    Drop {
        slot: SlotId,
    },
    /// The mapping goes, with what is kept of its changes.
    Forget {
        map: MapId,
    },
    /// A copy of the mapping ended incomplete: its target was cut.
    NoteCut {
        map: MapId,
        source: VolId,
        target: VolId,
    },
    /// How hosts may reach the volume from now on.
    Access {
        volume: VolId,
        access: Access,
    },
    /// What background work the mapping has.
    Work {
        map: MapId,
        copies: bool,
        cleans: bool,
    },
    /// So many calls from now, a call of the volume's disk in the grain's lane fails.
    Arm {
        volume: VolId,
        grain: GrainNo,
        calls: u32,
    },
}

/// What a lane is told of one command, in order.
pub type LaneEvents = List<LaneEvent>;

/// What is decided of a command.
#[derive(Drop)]
pub struct Decision {
    /// What is answered.
    pub reply: Reply,
    /// What it changes, as the history tells it.
    pub effects: List<Effect>,
    /// What each lane is told.
    pub events: LaneEvents,
    /// What becomes of the tables.
    pub changes: List<Change>,
}
