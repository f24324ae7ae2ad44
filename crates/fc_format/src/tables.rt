//! Volumes, mappings and groups.

ghost use Rattle.fc_format.specs.Bytes.{volume_bytes, mapping_bytes, group_bytes};
ghost use Rattle.fc_format.specs.Fields.{volume, mapping, group};
ghost use Rattle.fc_format.specs.Ranges.{IsTypedVolume, IsTypedMapping, IsTypedGroup};

use crate::cursor::{Cursor, ReadError};
use crate::field::{Field, Lent, Put};
use fc_base::disk::DiskKind;
use fc_base::ids::{GroupId, MapId, VolId};
use fc_base::name::Name;
use fc_base::outcome::NoMemory;
use fc_base::state::MapState;
use fc_base::volume::{Group, Mapping, Volume};
use std::alloc::Global;

impl Put for Volume {
    ghost bytes_of = { volume_bytes };

    ghost is_typed = { IsTypedVolume };

    #[tactic(auto, unfolding(crate::specs::Bytes::volume_bytes))]
    fn put(&self, out: &mut Vec<u8>) -> Result<(), NoMemory> {
        (self.id.0, (Lent(&self.name), (self.grains, self.kind))).put(out)
    }
}

impl Field for Volume {
    ghost reading = { volume };

    fn read(alloc: Global, cursor: &mut Cursor) -> Result<Self, ReadError> {
        match <(u32, (Name, (u32, DiskKind)))>::read(alloc, cursor) {
            Ok(parts) => {
                let (grains, kind) = parts.1.1;
                Ok(Volume {
                    id: VolId(parts.0),
                    name: parts.1.0,
                    grains,
                    kind,
                })
            }
            Err(error) => Err(error),
        }
    }
}

// The fields of a mapping behind its name, in order: its ends and its group, ..
type Ends = (u32, (u32, Option<GroupId>));
// .. its state and its rates, ..
type Course = (MapState, (u8, u8));
// .. whether it is incremental, deletes itself, and restores, ..
type Marks = (bool, (bool, bool));
// .. how many grains were held when it left, and whether it was complete.
type Progress = (u32, bool);

impl Put for Mapping {
    ghost bytes_of = { mapping_bytes };

    ghost is_typed = { IsTypedMapping };

    fn put(&self, out: &mut Vec<u8>) -> Result<(), NoMemory> {
        let names = (self.id.0, Lent(&self.name));
        let ends = (self.source.0, (self.target.0, self.group));
        let course = (self.state, (self.copy_rate, self.clean_rate));
        let marks = (self.incremental, (self.autodelete, self.restoring));
        let progress = (self.held_at_leave, self.complete);
        (names, (ends, (course, (marks, progress)))).put(out)?;
        Ok(())
    }
}

impl Field for Mapping {
    ghost reading = { mapping };

    fn read(alloc: Global, cursor: &mut Cursor) -> Result<Self, ReadError> {
        match <((u32, Name), (Ends, (Course, (Marks, Progress))))>::read(alloc, cursor) {
            Ok(parts) => {
                let (ends, (course, (marks, progress))) = parts.1;
                let (source, (target, group)) = ends;
                let (state, (copy_rate, clean_rate)) = course;
                let (incremental, (autodelete, restoring)) = marks;
                let (held_at_leave, complete) = progress;
                Ok(Mapping {
                    id: MapId(parts.0.0),
                    name: parts.0.1,
                    source: VolId(source),
                    target: VolId(target),
                    group,
                    state,
                    copy_rate,
                    clean_rate,
                    incremental,
                    autodelete,
                    restoring,
                    held_at_leave,
                    complete,
                })
            }
            Err(error) => Err(error),
        }
    }
}

impl Put for Group {
    ghost bytes_of = { group_bytes };

    ghost is_typed = { IsTypedGroup };

    #[tactic(auto, unfolding(crate::specs::Bytes::group_bytes))]
    fn put(&self, out: &mut Vec<u8>) -> Result<(), NoMemory> {
        (self.id.0, Lent(&self.name)).put(out)
    }
}

impl Field for Group {
    ghost reading = { group };

    fn read(alloc: Global, cursor: &mut Cursor) -> Result<Self, ReadError> {
        match Field::read(alloc, cursor) {
            Ok((id, name)) => Ok(Group {
                id: GroupId(id),
                name,
            }),
            Err(error) => Err(error),
        }
    }
}
