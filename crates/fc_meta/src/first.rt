//! The first image on a disk of zeros.

ghost use Rattle.std.specs.Prelude.{◌≡◌, ◌<◌, ◌≤◌, ◌+◌, false, length, replicate, IfOk, IfErr, OnOk, IsErrOf};
ghost use Rattle.fc_base.specs.Count.{HasRisen};
ghost use Rattle.fc_metadisk.specs.Disk.{LeavesOnly, Only};
ghost use Rattle.fc_metadisk.specs.Calls.{all_made, AreCutShort};
ghost use Rattle.fc_format.specs.declared.half.Half.TheVariants.{First};
ghost use Rattle.fc_format.specs.Bytes.{half_bytes};
ghost use Rattle.fc_format.specs.Ranges.{HasGoodIds};
ghost use Rattle.fc_format.specs.Halves.{Image, NoImage, half_size};
ghost use Rattle.fc_meta.specs.Standing.{Rests};
ghost use Rattle.fc_meta.specs.Answers.{LeavesEither, more_calls, IsStopped};
ghost use Rattle.fc_meta.specs.States.{read_half, other_open, generation_of, used_of, found, opened_disk, IsResting};
ghost use Rattle.fc_meta.specs.DiskCalls.{open_calls};

use crate::disk::{half_len, write_synced};
use crate::error::MetaError;
use crate::meta::Meta;
use fc_format::{Half, half_with};
use fc_image::MetaImage;
use fc_metadisk::MetaDisk;
use std::alloc::Global;

impl<M: MetaDisk> Meta<M> {
    /// Writes the first image on a disk of zeros, in its first half and with generation 1: the bytes behind the gate, a sync,
    /// the open gate, a sync. Once it has answered Ok each crash leaves the image; before, a crash leaves the image or none.
    ///
    /// Full if the bytes pass the half. After an error the disk comes back; after Full and NoMemory nothing was written on it.
    pub fn open(alloc: Global, disk: M, image: &MetaImage) -> Result<Meta<M>, (M, MetaError)>
        requires zeros { M.seen disk ≡ replicate (length (M.seen disk)) 0 }
        requires synced { Only (M.seen disk) (M.may_leave disk) }
        requires ids { HasGoodIds image.now }
        ensures rests { IfOk result (λ meta. IsResting M.seen M.may_leave meta) }
        ensures found { IfOk result (λ meta. found M.seen meta ≡ Image image.now) }
        ensures half { IfOk result (λ meta. read_half meta ≡ First) }
        ensures other { IfOk result (λ meta. other_open meta ≡ false) }
        ensures generation { IfOk result (λ meta. generation_of meta ≡ 1) }
        ensures used { IfOk result (λ meta. used_of meta ≡ length (half_bytes 1 image.now)) }
        ensures size { length (M.seen (opened_disk result)) ≡ length (M.seen disk) }
        ensures any_moment { LeavesOnly M.moment M.left_since disk (opened_disk result)
            (LeavesEither NoImage (Image image.now)) }
        ensures full { IfErr result
            (λ e. e.1 ≡ MetaError.Full → half_size (M.seen disk) < 1 + length
            (half_bytes 1 image.now)) }
        ensures room { OnOk result (1 + length (half_bytes 1 image.now) ≤ half_size (M.seen disk)) }
        ensures not_failed { IfErr result
            (λ e. e.1 ≡ MetaError.Failed → 1 + length (half_bytes 1 image.now) ≤ half_size
            (M.seen disk)) }
        ensures unmoved { IfErr result (λ e. e.1 ≡ MetaError.Full → e.0 ≡ disk) }
        ensures no_memory { IfErr result (λ e. e.1 ≡ MetaError.NoMemory → e.0 ≡ disk) }
        ensures failed { IfErr result
            (λ e. e.1 ≡ MetaError.Failed → HasRisen (M.fault_count disk) (M.fault_count e.0)) }
        ensures quiet { OnOk result (M.fault_count (opened_disk result) ≡ M.fault_count disk) }
        ensures made { OnOk result (M.calls (opened_disk result) ≡ more_calls 4 (M.calls disk)) }
        ensures stopped { IfErr result
            (λ e. e.1 ≡ MetaError.Failed → IsStopped 4 (M.calls disk) (M.calls e.0)) }
        ensures done { OnOk result (M.leads disk (all_made (open_calls image.now))
            (opened_disk result)) }
        ensures cut_short { IfErr result (λ e. e.1 ≡ MetaError.Failed → AreCutShort
            (λ made. M.leads disk made e.0) (open_calls image.now)) }
    {
        let mut disk = disk;
        match write_first(alloc, &mut disk, image) {
            Ok(used) => Ok(Meta {
                disk,
                half: Half::First,
                generation: 1,
                other_is_open: false,
                used,
                next: used,
            }),
            Err(error) => Err((disk, error)),
        }
    }
}

/// Writes and syncs the image in the first half, and then its gate. Answers how many bytes stand before its closed gate.
fn write_first<M: MetaDisk>(
    alloc: Global,
    disk: &mut M,
    image: &MetaImage,
) -> Result<u32, MetaError>
    requires zeros { M.seen disk.old ≡ replicate (length (M.seen disk.old)) 0 }
    requires synced { Only (M.seen disk.old) (M.may_leave disk.old) }
    requires ids { HasGoodIds image.now }
    ensures rests { IfOk result (λ used. Rests First 1 used false image.now (M.seen disk.new)) }
    ensures used { IfOk result (λ used. used ≡ length (half_bytes 1 image.now)) }
    ensures durable { OnOk result (Only (M.seen disk.new) (M.may_leave disk.new)) }
    ensures size { length (M.seen disk.new) ≡ length (M.seen disk.old) }
    ensures any_moment { LeavesOnly M.moment M.left_since disk.old disk.new
        (LeavesEither NoImage (Image image.now)) }
    ensures full { IsErrOf result MetaError.Full → half_size (M.seen disk.old) < 1 + length
        (half_bytes 1 image.now) }
    ensures room { OnOk result (1 + length (half_bytes 1 image.now) ≤ half_size (M.seen disk.old)) }
    ensures not_failed { IsErrOf result MetaError.Failed → 1 + length (half_bytes 1 image.now) ≤
        half_size (M.seen disk.old) }
    ensures unmoved { IsErrOf result MetaError.Full → disk.new ≡ disk.old }
    ensures no_memory { IsErrOf result MetaError.NoMemory → disk.new ≡ disk.old }
    ensures failed { IsErrOf result MetaError.Failed → HasRisen (M.fault_count disk.old)
        (M.fault_count disk.new) }
    ensures quiet { OnOk result (M.fault_count disk.new ≡ M.fault_count disk.old) }
    ensures made { OnOk result (M.calls disk.new ≡ more_calls 4 (M.calls disk.old)) }
    ensures stopped { IsErrOf result MetaError.Failed → IsStopped 4 (M.calls disk.old)
        (M.calls disk.new) }
    ensures done { OnOk result (M.leads disk.old (all_made (open_calls image.now)) disk.new) }
    ensures cut_short { IsErrOf result MetaError.Failed → AreCutShort
        (λ made. M.leads disk.old made disk.new) (open_calls image.now) }
{
    let bytes = half_with(alloc, 1, image)?;
    if half_len(disk) as usize <= bytes.len() {
        return Err(MetaError::Full);
    }
    write_synced(disk, Half::First, 1, &bytes)?;
    write_synced(disk, Half::First, 0, &[1])?;
    Ok(bytes.len() as u32)
}
