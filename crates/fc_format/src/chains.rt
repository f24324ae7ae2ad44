//! Slots, chains, lost grains, and what changed.

ghost use Rattle.fc_format.specs.Bytes.{slot_bytes, chain_bytes, lost_bytes, changes_bytes};
ghost use Rattle.fc_format.specs.Fields.{slot, chain, lost, changes};
ghost use Rattle.fc_format.specs.Ranges.{IsTypedSlot, IsTypedChain, IsTypedLost, IsTypedChanges};

use crate::cursor::{Cursor, ReadError};
use crate::field::{Field, Lent, Put};
use fc_base::ids::{MapId, SlotId, VolId};
use fc_base::outcome::NoMemory;
use fc_image::{MetaChain, MetaChanges, MetaLost, MetaSlot, SlotList, Words};
use std::alloc::Global;

impl Put for MetaSlot {
    ghost bytes_of = { slot_bytes };

    ghost is_typed = { IsTypedSlot };

    #[tactic(auto, unfolding(crate::specs::Bytes::slot_bytes))]
    fn put(&self, out: &mut Vec<u8>) -> Result<(), NoMemory> {
        let map_and_held = (self.map, Lent(&self.held));
        (self.birth.0, (self.volume.0, (self.live, map_and_held))).put(out)
    }
}

impl Field for MetaSlot {
    ghost reading = { slot };

    fn read(alloc: Global, cursor: &mut Cursor) -> Result<Self, ReadError> {
        match Field::read(alloc, cursor) {
            Ok((birth, (volume, (live, (map, held))))) => Ok(MetaSlot {
                birth: SlotId(birth),
                volume: VolId(volume),
                live,
                map,
                held,
            }),
            Err(error) => Err(error),
        }
    }
}

impl Put for MetaChain {
    ghost bytes_of = { chain_bytes };

    ghost is_typed = { IsTypedChain };

    #[tactic(auto, unfolding(crate::specs::Bytes::chain_bytes))]
    fn put(&self, out: &mut Vec<u8>) -> Result<(), NoMemory> {
        (self.label, Lent(&self.slots)).put(out)
    }
}

impl Field for MetaChain {
    ghost reading = { chain };

    fn read(alloc: Global, cursor: &mut Cursor) -> Result<Self, ReadError> {
        match Field::read(alloc, cursor) {
            Ok((label, slots)) => Ok(MetaChain { label, slots }),
            Err(error) => Err(error),
        }
    }
}

impl Put for MetaLost {
    ghost bytes_of = { lost_bytes };

    ghost is_typed = { IsTypedLost };

    #[tactic(auto, unfolding(crate::specs::Bytes::lost_bytes))]
    fn put(&self, out: &mut Vec<u8>) -> Result<(), NoMemory> {
        (self.volume.0, Lent(&self.lost)).put(out)
    }
}

impl Field for MetaLost {
    ghost reading = { lost };

    fn read(alloc: Global, cursor: &mut Cursor) -> Result<Self, ReadError> {
        match Field::read(alloc, cursor) {
            Ok((volume, lost)) => Ok(MetaLost {
                volume: VolId(volume),
                lost,
            }),
            Err(error) => Err(error),
        }
    }
}

impl Put for MetaChanges {
    ghost bytes_of = { changes_bytes };

    ghost is_typed = { IsTypedChanges };

    #[tactic(auto, unfolding(crate::specs::Bytes::changes_bytes))]
    fn put(&self, out: &mut Vec<u8>) -> Result<(), NoMemory> {
        let words = (Lent(&self.changed), Lent(&self.kept));
        (self.map.0, (self.last_source, (self.last_target, words))).put(out)
    }
}

impl Field for MetaChanges {
    ghost reading = { changes };

    fn read(alloc: Global, cursor: &mut Cursor) -> Result<Self, ReadError> {
        match Field::read(alloc, cursor) {
            Ok((map, (last_source, (last_target, words)))) => {
                let (changed, kept) = words;
                Ok(MetaChanges {
                    map: MapId(map),
                    last_source,
                    last_target,
                    changed,
                    kept,
                })
            }
            Err(error) => Err(error),
        }
    }
}
