//! The whole image.

ghost use Rattle.fc_format.specs.Bytes.{image_bytes};
ghost use Rattle.fc_format.specs.Fields.{image};
ghost use Rattle.fc_format.specs.Ranges.{IsTypedImage};

use crate::cursor::{Cursor, ReadError};
use crate::field::{Field, Lent, Put};
use fc_base::outcome::NoMemory;
use fc_image::{ChainList, ChangesList, GroupList, LostList, MappingList, MetaImage, VolumeList};
use std::alloc::Global;

impl Put for MetaImage {
    ghost bytes_of = { image_bytes };

    ghost is_typed = { IsTypedImage };

    fn put(&self, out: &mut Vec<u8>) -> Result<(), NoMemory> {
        let ids = (self.next_volume, (self.next_map, self.next_group));
        let next = (self.next_birth, ids);
        let tables = (
            Lent(&self.volumes),
            (Lent(&self.mappings), Lent(&self.groups)),
        );
        let copies = (Lent(&self.chains), (Lent(&self.lost), Lent(&self.changes)));
        (next, (tables, copies)).put(out)?;
        Ok(())
    }
}

impl Field for MetaImage {
    ghost reading = { image };

    fn read(alloc: Global, cursor: &mut Cursor) -> Result<Self, ReadError> {
        match Field::read(alloc, cursor) {
            Ok((next, (tables, copies))) => {
                let (next_birth, (next_volume, (next_map, next_group))) = next;
                let (volumes, (mappings, groups)) = tables;
                let (chains, (lost, changes)) = copies;
                Ok(MetaImage {
                    next_birth,
                    next_volume,
                    next_map,
                    next_group,
                    volumes,
                    mappings,
                    groups,
                    chains,
                    lost,
                    changes,
                })
            }
            Err(error) => Err(error),
        }
    }
}
