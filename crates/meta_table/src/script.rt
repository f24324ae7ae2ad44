//! The steps of a script: the first image, batches, folds.

ghost use Rattle.std.specs.Prelude.{◌≡◌, ◌<◌, IfOk, IfSome, length, replicate};
ghost use Rattle.fc_metadisk.specs.Disk.{Only};
ghost use Rattle.fc_format.specs.Ranges.{HasGoodIds};
ghost use Rattle.fc_meta.specs.States.{IsResting};

use fc_base::ids::{GrainNo, VolId};
use fc_base::list::List;
use fc_base::outcome::NoMemory;
use fc_base::request::Side;
use fc_image::{MetaImage, MetaLost, MetaRecord, Words};
use fc_meta::Meta;
use fc_metadisk::{MemMeta, MetaDisk, StopMeta};
use meta_steps::first::{begin, image_of};
use meta_steps::kept::KeptMeta;
use std::alloc::Global;

/// How many bytes the disks of the script have.
pub const SIZE: u32 = 512;

/// An image with the lost grains of one volume: of its first 64, those whose bits are set.
pub fn image(alloc: Global, next_birth: u64, lost: u64) -> Result<MetaImage, NoMemory>
    ensures { IfOk result (λ image. HasGoodIds image) }
{
    let mut words = Vec::new(alloc);
    if words.push(lost).is_err() {
        return Err(NoMemory);
    }
    let mut rows = List::new(alloc);
    rows.push(MetaLost {
        volume: VolId(0),
        lost: Words::of(words),
    })?;
    Ok(image_of(alloc, next_birth, rows))
}

/// A batch by which this grain is lost: four calls. The disk comes back where that wasn't done.
pub fn lose<M: MetaDisk>(alloc: Global, meta: Meta<M>, grain: u32) -> Result<Meta<M>, M>
    requires { IsResting M.seen M.may_leave meta }
    ensures { IfOk result (λ meta. IsResting M.seen M.may_leave meta) }
{
    let mut meta = meta;
    let records = [MetaRecord::Torn {
        volume: VolId(0),
        grain: GrainNo(grain),
        side: Side::Now,
    }];
    match meta.put(alloc, &records) {
        Ok(()) => Ok(meta),
        Err(_) => Err(meta.into_disk()),
    }
}

/// A fold to the image of this birth, of which no grain is lost: six calls. The disk comes back where that wasn't done.
pub fn fold_to<M: MetaDisk>(alloc: Global, meta: Meta<M>, birth: u64) -> Result<Meta<M>, M>
    requires { IsResting M.seen M.may_leave meta }
    ensures { IfOk result (λ meta. IsResting M.seen M.may_leave meta) }
{
    let mut meta = meta;
    match image(alloc, birth, 0) {
        Err(NoMemory) => Err(meta.into_disk()),
        Ok(image) => match meta.fold(alloc, &image) {
            Ok(()) => Ok(meta),
            Err(_) => Err(meta.into_disk()),
        },
    }
}

/// The script: the first image, two batches, a fold, a batch, two folds, a batch. It makes 38 calls.
pub fn play<M: MetaDisk>(alloc: Global, disk: M) -> Result<Meta<M>, M>
    requires zeros { M.seen disk ≡ replicate (length (M.seen disk)) 0 }
    requires synced { Only (M.seen disk) (M.may_leave disk) }
    ensures { IfOk result (λ meta. IsResting M.seen M.may_leave meta) }
{
    let first = match image(alloc, 100, 0) {
        Ok(first) => first,
        Err(NoMemory) => return Err(disk),
    };
    let meta = begin(alloc, disk, &first)?;
    let meta = lose(alloc, meta, 1)?;
    let meta = lose(alloc, meta, 2)?;
    let meta = fold_to(alloc, meta, 103)?;
    let meta = lose(alloc, meta, 4)?;
    let meta = fold_to(alloc, meta, 105)?;
    let meta = fold_to(alloc, meta, 106)?;
    lose(alloc, meta, 7)
}

/// Plays the script over a disk that stops at this call and keeps account of its calls, and answers that disk.
pub fn kept_until(alloc: Global, stop: u32) -> Result<KeptMeta<StopMeta>, NoMemory>
    requires { 0 < stop }
{
    let disk = KeptMeta::new(alloc, StopMeta::new(alloc, SIZE, stop)?);
    match play(alloc, disk) {
        Ok(meta) => Ok(meta.into_disk()),
        Err(disk) => Ok(disk),
    }
}

/// Recovers, and goes on with a batch, a fold and a batch. The disk comes back in either case.
pub fn goes_on(alloc: Global, disk: MemMeta) -> Result<MemMeta, MemMeta> {
    match Meta::recover(alloc, disk) {
        Ok((meta, _)) => {
            let meta = lose(alloc, meta, 9)?;
            let meta = fold_to(alloc, meta, 200)?;
            let meta = lose(alloc, meta, 10)?;
            Ok(meta.into_disk())
        }
        Err((disk, _)) => Err(disk),
    }
}

/// A disk of so many bytes in memory that stands for an image without lost grains. None where it doesn't fit, and without memory.
pub fn small(alloc: Global, size: u32) -> Option<Meta<MemMeta>>
    ensures { IfSome result (λ meta. IsResting ⟦<MemMeta as MetaDisk>⟧.seen ⟦<MemMeta as MetaDisk>⟧.may_leave meta) }
{
    let disk = MemMeta::new(alloc, size).ok()?;
    let image = image_of(alloc, 5, List::new(alloc));
    begin(alloc, disk, &image).ok()
}
