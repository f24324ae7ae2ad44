//! The tables of an image, as reports ask for them.

ghost use Rattle.std.specs.Prelude.{◌≡◌, IfOk, OnOk, Some};
ghost use Rattle.fc_base.specs.Tables.{Fits, after_change, room_asked};
ghost use Rattle.fc_kept.specs.Images.{tables_in};
ghost use Rattle.fc_kept.specs.Sound.{IsSoundImage};

use fc_base::outcome::NoMemory;
use fc_base::volume::{Change, Group, Volume};
use fc_desk::copy_mapping;
use fc_image::MetaImage;
use fc_registry::Registry;
use std::alloc::Global;

/// The same volume again.
fn copy_volume(alloc: Global, volume: &Volume) -> Result<Volume, NoMemory>
    ensures { IfOk result (λ copy. copy ≡ volume.now) }
{
    Ok(Volume {
        id: volume.id,
        name: volume.name.copy(alloc)?,
        grains: volume.grains,
        kind: volume.kind,
    })
}

/// The same group again.
fn copy_group(alloc: Global, group: &Group) -> Result<Group, NoMemory>
    ensures { IfOk result (λ copy. copy ≡ group.now) }
{
    Ok(Group {
        id: group.id,
        name: group.name.copy(alloc)?,
    })
}

/// Adds an object to its table.
fn add(alloc: Global, registry: &mut Registry, change: Change) -> Result<(), NoMemory>
    requires fits { Fits registry.old.tables change }
    requires adds { room_asked change ≡ Some change }
    ensures { OnOk result (registry.new.tables ≡ after_change registry.old.tables change) }
{
    registry.reserve(alloc, &change)?;
    registry.apply(&change);
    Ok(())
}

/// The tables of an image.
pub(crate) fn registry_of(alloc: Global, image: &MetaImage) -> Result<Registry, NoMemory>
    requires { IsSoundImage image.now }
    ensures { IfOk result (λ registry. registry.tables ≡ tables_in image.now) }
{
    let mut registry = Registry::new(alloc);
    for volume in image.volumes.as_slice() {
        let copy = copy_volume(alloc, volume)?;
        add(alloc, &mut registry, Change::AddVolume(copy))?;
    }
    for group in image.groups.as_slice() {
        let copy = copy_group(alloc, group)?;
        add(alloc, &mut registry, Change::AddGroup(copy))?;
    }
    for mapping in image.mappings.as_slice() {
        let copy = copy_mapping(alloc, mapping)?;
        add(alloc, &mut registry, Change::AddMapping(copy))?;
    }
    Ok(registry)
}
