//! The first image.

ghost use Rattle.std.specs.Prelude.{◌≡◌, IfOk, length, replicate};
ghost use Rattle.fc_metadisk.specs.Disk.{Only};
ghost use Rattle.fc_format.specs.Ranges.{HasGoodIds};
ghost use Rattle.fc_meta.specs.States.{IsResting};

use fc_base::list::List;
use fc_image::{LostList, MetaImage};
use fc_meta::Meta;
use fc_metadisk::MetaDisk;
use std::alloc::Global;

/// An image without volumes, mappings, groups, chains and changes, which a birth tells apart.
pub fn image_of(alloc: Global, next_birth: u64, lost: LostList) -> MetaImage
    ensures { HasGoodIds result }
{
    MetaImage {
        next_birth,
        next_volume: 1,
        next_map: 2,
        next_group: 3,
        volumes: List::new(alloc),
        mappings: List::new(alloc),
        groups: List::new(alloc),
        chains: List::new(alloc),
        lost,
        changes: List::new(alloc),
    }
}

/// Begins with this image. The disk comes back where that wasn't done.
pub fn begin<M: MetaDisk>(alloc: Global, disk: M, image: &MetaImage) -> Result<Meta<M>, M>
    requires ids { HasGoodIds image.now }
    requires zeros { M.seen disk ≡ replicate (length (M.seen disk)) 0 }
    requires synced { Only (M.seen disk) (M.may_leave disk) }
    ensures { IfOk result (λ meta. IsResting M.seen M.may_leave meta) }
{
    match Meta::open(alloc, disk, image) {
        Ok(meta) => Ok(meta),
        Err((disk, _)) => Err(disk),
    }
}
