//! The lost grains of each volume.

ghost use Rattle.std.specs.Prelude.{◌≡◌, IfOk, map as map_list};
ghost use Rattle.fc_imaging.specs.Imaging.{lost_of, lost_grains};
ghost use Rattle.fc_kept.specs.Images.{lost_told};

use crate::bits::{Bits, words};
use fc_base::list::List;
use fc_base::outcome::NoMemory;
use fc_base::volume::Volume;
use fc_image::{LostList, MetaLost};
use fc_lane::lane::Lane;
use fc_mdisk::mdisk::Mdisk;
use std::alloc::Global;

/// The lost grains of a volume.
pub(crate) fn row_told<D: Mdisk>(
    alloc: Global,
    lanes: &[Lane<D>],
    volume: &Volume,
) -> Result<MetaLost, NoMemory>
    ensures { IfOk result (λ row. row ≡ lost_told (lost_of lanes.now volume.now)) }
{
    Ok(MetaLost {
        volume: volume.id,
        lost: words(alloc, lanes, Bits::Lost(volume.id), volume.grains)?,
    })
}

/// The lost grains, a row for each of these volumes.
pub(crate) fn lost<D: Mdisk>(
    alloc: Global,
    lanes: &[Lane<D>],
    volumes: &[Volume],
) -> Result<LostList, NoMemory>
    ensures { IfOk result (λ rows. rows ≡ map_list lost_told (lost_grains lanes.now volumes.now)) }
{
    let mut rows = List::new(alloc);
    for volume in volumes {
        rows.push(row_told(alloc, lanes, volume)?)?;
    }
    Ok(rows)
}
