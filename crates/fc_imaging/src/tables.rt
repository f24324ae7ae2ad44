//! Copies of the tables.

ghost use Rattle.std.specs.Prelude.{◌≡◌, IfOk};

use fc_base::list::List;
use fc_base::outcome::NoMemory;
use fc_base::volume::{Group, Mapping, Volume};
use fc_desk::copy_mapping;
use fc_image::{GroupList, MappingList, VolumeList};
use std::alloc::Global;

/// The same volume again.
pub(crate) fn copy_volume(alloc: Global, volume: &Volume) -> Result<Volume, NoMemory>
    ensures { IfOk result (λ copy. copy ≡ volume.now) }
{
    Ok(Volume {
        id: volume.id,
        name: volume.name.copy(alloc)?,
        grains: volume.grains,
        kind: volume.kind,
    })
}

/// The same group again.
fn copy_group(alloc: Global, group: &Group) -> Result<Group, NoMemory>
    ensures { IfOk result (λ copy. copy ≡ group.now) }
{
    Ok(Group {
        id: group.id,
        name: group.name.copy(alloc)?,
    })
}

/// The volumes, in order.
pub(crate) fn volumes(alloc: Global, volumes: &[Volume]) -> Result<VolumeList, NoMemory>
    ensures { IfOk result (λ copies. copies ≡ volumes.now) }
{
    let mut copies = List::new(alloc);
    for volume in volumes {
        copies.push(copy_volume(alloc, volume)?)?;
    }
    Ok(copies)
}

/// The mappings, in order.
pub(crate) fn mappings(alloc: Global, mappings: &[Mapping]) -> Result<MappingList, NoMemory>
    ensures { IfOk result (λ copies. copies ≡ mappings.now) }
{
    let mut copies = List::new(alloc);
    for mapping in mappings {
        copies.push(copy_mapping(alloc, mapping)?)?;
    }
    Ok(copies)
}

/// The groups, in order.
pub(crate) fn groups(alloc: Global, groups: &[Group]) -> Result<GroupList, NoMemory>
    ensures { IfOk result (λ copies. copies ≡ groups.now) }
{
    let mut copies = List::new(alloc);
    for group in groups {
        copies.push(copy_group(alloc, group)?)?;
    }
    Ok(copies)
}
