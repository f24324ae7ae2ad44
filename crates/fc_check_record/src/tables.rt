//! What entries of lanes are judged by, found from the tables.

ghost use Rattle.std.specs.Prelude.{◌≡◌, IfOk, OnOk, map};
ghost use Rattle.fc_check_lane.specs.Known.{size_of};
ghost use Rattle.fc_legal.specs.Whole.{volume_told, volumes_told};
ghost use Rattle.fc_check_record.specs.Leaving.{renewed};

use fc_base::outcome::NoMemory;
use fc_base::volume::Volume;
use fc_check_lane::{Known, VolumeSize, copy_items, push_item};
use fc_check_steps::LaneVolume;
use fc_desk::Control;
use fc_group::access_in;
use fc_registry::Registry;
use std::alloc::Global;

/// A volume, and how hosts may reach it.
fn lane_volume(tables: &Registry, volume: &Volume) -> LaneVolume
    ensures { result ≡ volume_told tables.now.tables volume.now }
{
    LaneVolume {
        id: volume.id,
        kind: volume.kind,
        access: access_in(tables.all_mappings(), volume.id),
    }
}

/// All volumes, and how hosts may reach them.
fn lane_volumes(alloc: Global, tables: &Registry) -> Result<Vec<LaneVolume>, NoMemory>
    ensures { IfOk result (λ volumes. volumes.items ≡ volumes_told tables.now.tables) }
{
    let mut volumes = Vec::new(alloc);
    for volume in tables.all_volumes() {
        push_item(&mut volumes, lane_volume(tables, volume))?;
    }
    Ok(volumes)
}

/// How large a volume is.
fn size_of(volume: &Volume) -> VolumeSize
    ensures { result ≡ size_of volume.now }
{
    VolumeSize {
        volume: volume.id,
        grains: volume.grains,
    }
}

/// How large volumes are.
fn volume_sizes(alloc: Global, volumes: &[Volume]) -> Result<Vec<VolumeSize>, NoMemory>
    ensures { IfOk result (λ sizes. sizes.items ≡ map size_of volumes.now) }
{
    let mut sizes = Vec::new(alloc);
    for volume in volumes {
        push_item(&mut sizes, size_of(volume))?;
    }
    Ok(sizes)
}

/// The volumes, their sizes and background work that entries of lanes are judged by become those of a control
/// part. Refused for want of memory alone; then a part of it may be done.
pub(crate) fn renew(alloc: Global, control: &Control, known: &mut Known) -> Result<(), NoMemory>
    ensures { OnOk result (known.new ≡ renewed control.now known.old) }
{
    let tables = control.registry();
    known.volumes = lane_volumes(alloc, tables)?;
    known.sizes = volume_sizes(alloc, tables.all_volumes())?;
    known.flags = copy_items(alloc, control.flags())?;
    Ok(())
}
