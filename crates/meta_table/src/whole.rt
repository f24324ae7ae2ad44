//! A disk on which each part of an image stands once, and each record.

use crate::script::SIZE;
use fc_base::disk::DiskKind;
use fc_base::ids::{GrainNo, GroupId, MapId, SlotId, VolId};
use fc_base::list::List;
use fc_base::name::Name;
use fc_base::outcome::NoMemory;
use fc_base::request::Side;
use fc_base::state::MapState;
use fc_base::volume::{Group, Mapping, Volume};
use fc_format::{batch_with, half_with};
use fc_image::{MetaChain, MetaChanges, MetaImage, MetaLost, MetaRecord, MetaSlot, Words};
use fc_metadisk::{MemMeta, MetaDisk};
use std::alloc::Global;

/// A record of each kind: 47 bytes.
pub const RECORDS: [MetaRecord; 4] = [
    MetaRecord::Pair {
        slot: SlotId(5),
        volume: VolId(0),
        grain: GrainNo(1),
        in_place: false,
        empty: true,
    },
    MetaRecord::Written {
        volume: VolId(0),
        grain: GrainNo(2),
    },
    MetaRecord::Torn {
        volume: VolId(0),
        grain: GrainNo(3),
        side: Side::Now,
    },
    MetaRecord::Changing {
        volume: VolId(0),
        grain: GrainNo(4),
    },
];

/// A list of this item alone.
fn one<T: Drop>(alloc: Global, item: T) -> Result<List<T>, NoMemory> {
    let mut list = List::new(alloc);
    list.push(item)?;
    Ok(list)
}

/// One word of 64 grains.
fn word(alloc: Global, bits: u64) -> Result<Words, NoMemory> {
    let mut words = Words::new(alloc);
    words.push(bits)?;
    Ok(words)
}

/// A name of one letter.
fn name(alloc: Global) -> Result<Name, NoMemory> {
    match Name::new(alloc, b"n")? {
        Some(name) => Ok(name),
        None => Err(NoMemory),
    }
}

/// A volume, a mapping in a group, the group.
fn volume(alloc: Global) -> Result<Volume, NoMemory> {
    Ok(Volume {
        id: VolId(0),
        name: name(alloc)?,
        grains: 8,
        kind: DiskKind::Thin,
    })
}

fn mapping(alloc: Global) -> Result<Mapping, NoMemory> {
    Ok(Mapping {
        id: MapId(0),
        name: name(alloc)?,
        source: VolId(0),
        target: VolId(0),
        group: Some(GroupId(0)),
        state: MapState::Copying,
        copy_rate: 50,
        clean_rate: 50,
        incremental: true,
        autodelete: false,
        restoring: false,
        held_at_leave: 0,
        complete: false,
    })
}

/// A slot that holds grains 0 and 1.
fn slot(alloc: Global) -> Result<MetaSlot, NoMemory> {
    Ok(MetaSlot {
        birth: SlotId(5),
        volume: VolId(0),
        live: true,
        map: Some(MapId(0)),
        held: word(alloc, 3)?,
    })
}

/// An image with each part once: 183 bytes.
pub fn image(alloc: Global) -> Result<MetaImage, NoMemory> {
    let chain = MetaChain {
        label: 0,
        slots: one(alloc, slot(alloc)?)?,
    };
    let lost = MetaLost {
        volume: VolId(0),
        lost: word(alloc, 2)?,
    };
    let changes = MetaChanges {
        map: MapId(0),
        last_source: Some(VolId(0)),
        last_target: Some(VolId(0)),
        changed: word(alloc, 1)?,
        kept: word(alloc, 2)?,
    };
    let group = Group {
        id: GroupId(0),
        name: name(alloc)?,
    };
    Ok(MetaImage {
        next_birth: 6,
        next_volume: 1,
        next_map: 1,
        next_group: 1,
        volumes: one(alloc, volume(alloc)?)?,
        mappings: one(alloc, mapping(alloc)?)?,
        groups: one(alloc, group)?,
        chains: one(alloc, chain)?,
        lost: one(alloc, lost)?,
        changes: one(alloc, changes)?,
    })
}

/// The disk with these bytes from `at` on, if they have room.
pub fn put(disk: MemMeta, at: u32, bytes: &[u8]) -> MemMeta {
    let mut disk = disk;
    if u64::from(at) + bytes.len() as u64 <= u64::from(disk.size()) {
        let _ = disk.write_at(at, bytes);
    }
    disk
}

/// A disk whose first half has the image and a batch of the records.
pub fn disk(alloc: Global) -> Result<MemMeta, NoMemory> {
    let disk = MemMeta::new(alloc, SIZE)?;
    let disk = put(disk, 0, &[1]);
    let disk = put(disk, 1, &half_with(alloc, 1, &image(alloc)?)?);
    let disk = put(disk, 196, &[1]);
    Ok(put(disk, 197, &batch_with(alloc, &RECORDS)?))
}
