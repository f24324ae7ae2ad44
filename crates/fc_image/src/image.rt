//! The parts of an image.

use crate::words::Words;
use fc_base::ids::{MapId, SlotId, VolId};
use fc_base::list::List;
use fc_base::volume::{Group, Mapping, Volume};

/// The volumes of the table, in order of id.
pub type VolumeList = List<Volume>;

/// The mappings of the table, in order of id.
pub type MappingList = List<Mapping>;

/// The consistency groups of the table, in order of id.
pub type GroupList = List<Group>;

/// The slots of a chain, in the chain's order.
pub type SlotList = List<MetaSlot>;

/// The chains of copies.
pub type ChainList = List<MetaChain>;

/// The lost grains, a row for each volume.
pub type LostList = List<MetaLost>;

/// What changed, a row for each mapping that is followed.
pub type ChangesList = List<MetaChanges>;

/// A slot of a chain: a state of a volume.
#[derive(Drop)]
pub struct MetaSlot {
    /// Its birth, by which it is named.
    pub birth: SlotId,
    /// Its volume.
    pub volume: VolId,
    /// Whether it is what the volume shows now.
    pub live: bool,
    /// The mapping that it is the target of, if there is one.
    pub map: Option<MapId>,
    /// The grains that it holds itself.
    pub held: Words,
}

/// A chain of copies.
#[derive(Drop)]
pub struct MetaChain {
    /// Its label: the birth of the slot that began it, which may be gone.
    pub label: u64,
    /// Its slots, in order.
    pub slots: SlotList,
}

/// The lost grains of a volume: those that a failed write left with any bytes.
#[derive(Drop)]
pub struct MetaLost {
    /// The volume.
    pub volume: VolId,
    /// Its lost grains.
    pub lost: Words,
}

/// What changed for a mapping that is followed: an incremental one, from its first trigger on.
#[derive(Drop)]
pub struct MetaChanges {
    /// The mapping.
    pub map: MapId,
    /// The source of the last trigger that joined its two volumes, if there was one.
    pub last_source: Option<VolId>,
    /// The target of that trigger.
    pub last_target: Option<VolId>,
    /// The grains that changed since.
    pub changed: Words,
    /// The grains that the mapping kept track of.
    pub kept: Words,
}

/// All that metadata says.
#[derive(Drop)]
pub struct MetaImage {
    /// The birth of the next slot.
    pub next_birth: u64,
    /// The id of the next volume.
    pub next_volume: u32,
    /// The id of the next mapping.
    pub next_map: u32,
    /// The id of the next consistency group.
    pub next_group: u32,
    /// The volumes.
    pub volumes: VolumeList,
    /// The mappings.
    pub mappings: MappingList,
    /// The consistency groups.
    pub groups: GroupList,
    /// The chains of copies.
    pub chains: ChainList,
    /// The lost grains.
    pub lost: LostList,
    /// What changed.
    pub changes: ChangesList,
}
