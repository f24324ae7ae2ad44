//! What was made: volumes, mappings and groups, as far as lines, reads and starts need them.

use crate::table::{Object, Table};
use crate::verdict::{Halt, Why};
use fc_base::command::{Command, Unit};
use fc_base::fault::{Kind, Refusal, ValueOf};
use fc_base::ids::{MapId, VolId};
use fc_base::limits::MAX_BLOCKS;
use fc_base::name::{Name, Ref};
use fc_base::request::{Pair, Reply};
use fc_base::size::GrainSize;
use std::alloc::Global;

/// What is known of a mapping.
#[derive(Clone, Copy)]
pub(crate) struct Mapping {
    /// The volume that is copied.
    pub(crate) source: VolId,
    /// The volume that becomes the copy.
    pub(crate) target: VolId,
    /// The id of its group, if it is in one.
    pub(crate) group: Option<u32>,
    /// Whether it is incremental.
    pub(crate) incremental: bool,
}

/// What a command starts.
#[derive(Clone, Copy)]
pub(crate) enum Started {
    /// The mapping with this id.
    One(u32),
    /// All mappings of the group with this id.
    Group(u32),
}

impl Started {
    /// Whether the mapping is started.
    fn has(self, mapping: &Object<Mapping>) -> bool {
        match self {
            Started::One(id) => mapping.id == id,
            Started::Group(id) => mapping.known.group == Some(id),
        }
    }
}

/// All that was made and is there.
#[derive(Drop)]
pub(crate) struct Made {
    alloc: Global,
    grain: GrainSize,
    /// The volumes, each with its size in grains.
    pub(crate) volumes: Table<u32>,
    /// The mappings.
    pub(crate) mappings: Table<Mapping>,
    /// The groups.
    pub(crate) groups: Table<()>,
}

/// The bytes of a unit of sizes; mb where none was given.
fn unit_bytes(unit: Option<Unit>) -> u64 {
    match unit {
        Some(Unit::Kb) => 1024,
        None | Some(Unit::Mb) => 1024 * 1024,
        Some(Unit::Gb) => 1024 * 1024 * 1024,
    }
}

/// The pair that a mapping triggers.
fn pair_of(mapping: &Object<Mapping>) -> Pair {
    Pair {
        map: MapId(mapping.id),
        source: mapping.known.source,
        target: mapping.known.target,
        incremental: mapping.known.incremental,
    }
}

impl Made {
    /// Nothing was made yet. Ids of volumes and mappings count from 0, those of groups from 1.
    pub(crate) fn nothing(alloc: Global, grain: GrainSize) -> Made {
        Made {
            alloc,
            grain,
            volumes: Table::new(alloc, 0),
            mappings: Table::new(alloc, 0),
            groups: Table::new(alloc, 1),
        }
    }

    /// The grain size of the session.
    pub(crate) fn grain(&self) -> GrainSize {
        self.grain
    }

    /// The grains of a volume of this size. A size that isn't whole grains is never made.
    pub(crate) fn grains_of(&self, size: u32, unit: Option<Unit>) -> u32 {
        let bytes = u64::from(size).saturating_mul(unit_bytes(unit));
        let grains = bytes
            .checked_div(u64::from(self.grain.bytes()))
            .unwrap_or(0);
        u32::try_from(grains).unwrap_or(u32::MAX)
    }

    /// How large the volume is that is named, in kb.
    pub(crate) fn kib_of(&self, volume: &Ref) -> Option<u64> {
        let volume = self.volumes.named(volume)?;
        Some(u64::from(volume.known).saturating_mul(u64::from(self.grain.kib())))
    }

    /// Why an access of so many blocks of a volume is refused, if it is, as far as volumes tell; else its id.
    pub(crate) fn accessed(&self, volume: &Ref, block: u32, count: u32) -> Result<VolId, Refusal> {
        let Some(volume) = self.volumes.named(volume) else {
            return Err(Refusal::NoSuch(Kind::Vdisk));
        };
        let blocks = u64::from(volume.known).saturating_mul(u64::from(self.grain.blocks()));
        if count > MAX_BLOCKS {
            Err(Refusal::Limit(MAX_BLOCKS))
        } else if count == 0 || u64::from(block) + u64::from(count) > blocks {
            Err(Refusal::BadValue(ValueOf::Blocks))
        } else {
            Ok(VolId(volume.id))
        }
    }

    /// What a command starts, if it starts something that is there.
    pub(crate) fn started_by(&self, command: &Command) -> Option<Started> {
        match command {
            Command::Startfcmap { map, .. } => {
                let mapping = self.mappings.named(map)?;
                Some(Started::One(mapping.id))
            }
            Command::Startfcconsistgrp { group, .. } => {
                let group = self.groups.named(group)?;
                Some(Started::Group(group.id))
            }
            _ => None,
        }
    }

    /// Whether the pairs are those of all mappings that are started, by id.
    pub(crate) fn are_pairs_of(&self, started: Started, pairs: &[Pair]) -> bool {
        let mut met = 0usize;
        for mapping in self.mappings.all() {
            if started.has(mapping) {
                match pairs.get(met) {
                    Some(pair) if *pair == pair_of(mapping) => met = met.saturating_add(1),
                    _ => return false,
                }
            }
        }
        met == pairs.len()
    }

    /// The id of a volume that is there. A mapping of another one is never made.
    fn volume_id(&self, reference: &Ref) -> Result<VolId, Halt> {
        match self.volumes.named(reference) {
            Some(volume) => Ok(VolId(volume.id)),
            None => Err(Halt::Wrong(Why::Reply)),
        }
    }

    /// The id of the group that a new mapping is in, if it is in one.
    fn group_id(&self, reference: &Option<Ref>) -> Result<Option<u32>, Halt> {
        let Some(reference) = reference else {
            return Ok(None);
        };
        match self.groups.named(reference) {
            Some(group) => Ok(Some(group.id)),
            None => Err(Halt::Wrong(Why::Reply)),
        }
    }

    /// A mapping was made.
    fn make_mapping(&mut self, name: &Option<Name>, known: Mapping) -> Result<(), Halt> {
        self.mappings.make(self.alloc, name, "fcmap", known)?;
        Ok(())
    }

    /// An object was made by a command, with this id.
    fn make(&mut self, command: &Command, kind: Kind, id: u32) -> Result<(), Halt> {
        let next = match kind {
            Kind::Vdisk => self.volumes.next(),
            Kind::Fcmap => self.mappings.next(),
            Kind::Group => self.groups.next(),
        };
        if id != next {
            return Err(Halt::Wrong(Why::Id));
        }
        match (command, kind) {
            (
                Command::Mkvdisk {
                    name,
                    size,
                    unit,
                    ..
                },
                Kind::Vdisk,
            ) => {
                let grains = self.grains_of(*size, *unit);
                self.volumes.make(self.alloc, name, "vdisk", grains)?;
                Ok(())
            }
            (
                Command::Mkfcmap {
                    source,
                    target,
                    name,
                    group,
                    incremental,
                    ..
                },
                Kind::Fcmap,
            ) => {
                let known = Mapping {
                    source: self.volume_id(source)?,
                    target: self.volume_id(target)?,
                    group: self.group_id(group)?,
                    incremental: *incremental,
                };
                self.make_mapping(name, known)
            }
            (Command::Mkfcconsistgrp { name }, Kind::Group) => {
                self.groups.make(self.alloc, name, "fccstgrp", ())?;
                Ok(())
            }
            _ => Err(Halt::Wrong(Why::Reply)),
        }
    }

    /// A group goes; its mappings are single ones then.
    fn remove_group(&mut self, reference: &Ref) {
        let Some(group) = self.groups.named(reference) else {
            return;
        };
        let id = group.id;
        for mapping in self.mappings.all_mut() {
            if mapping.known.group == Some(id) {
                mapping.known.group = None;
            }
        }
        self.groups.remove(id);
    }

    /// A command was answered. Mappings that went are told by effects, and gone already.
    pub(crate) fn answer(&mut self, command: &Command, reply: &Reply) -> Result<(), Halt> {
        match (command, reply) {
            (_, Reply::Made { kind, id }) => self.make(command, *kind, *id),
            (Command::Rmvdisk { volume }, Reply::Done) => {
                if let Some(volume) = self.volumes.named(volume) {
                    let id = volume.id;
                    self.volumes.remove(id);
                }
                Ok(())
            }
            (Command::Rmfcconsistgrp { group, .. }, Reply::Done) => {
                self.remove_group(group);
                Ok(())
            }
            _ => Ok(()),
        }
    }
}
