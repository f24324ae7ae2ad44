//! The objects of the tables: volumes, mappings and groups.

use crate::disk::DiskKind;
use crate::ids::{GroupId, MapId, VolId};
use crate::name::Name;
use crate::state::MapState;

/// A volume of the table.
#[derive(Drop)]
pub struct Volume {
    /// Its id.
    pub id: VolId,
    /// Its name.
    pub name: Name,
    /// Its size in grains, above 0.
    pub grains: u32,
    /// The kind of its disks.
    pub kind: DiskKind,
}

/// A FlashCopy mapping of the table.
#[derive(Drop)]
pub struct Mapping {
    /// Its id.
    pub id: MapId,
    /// Its name.
    pub name: Name,
    /// The volume that is copied.
    pub source: VolId,
    /// The volume that becomes the copy.
    pub target: VolId,
    /// Its consistency group, if it is in one.
    pub group: Option<GroupId>,
    /// Its state.
    pub state: MapState,
    /// The rate of background copying, 0 to 150.
    pub copy_rate: u8,
    /// The rate of cleaning, 0 to 150.
    pub clean_rate: u8,
    /// Whether a restart copies changed grains alone.
    pub incremental: bool,
    /// Whether it is removed when its copy is complete.
    pub autodelete: bool,
    /// Whether it was last prepared or started with `-restore`, while it is active.
    pub restoring: bool,
    /// How many grains its target held when it last left copying.
    pub held_at_leave: u32,
    /// Whether its copy was complete when it last left copying.
    pub complete: bool,
}

/// A consistency group of the table.
#[derive(Drop)]
pub struct Group {
    /// Its id.
    pub id: GroupId,
    /// Its name.
    pub name: Name,
}

/// One change of the tables.
#[derive(Drop)]
pub enum Change {
    /// A new volume.
    AddVolume(Volume),
    /// The volume goes.
    RemoveVolume(VolId),
    /// A new mapping.
    AddMapping(Mapping),
    /// The mapping goes.
    RemoveMapping(MapId),
    /// The mapping with this id becomes this one.
    SetMapping(Mapping),
    /// A new group.
    AddGroup(Group),
    /// The group goes.
    RemoveGroup(GroupId),
}
