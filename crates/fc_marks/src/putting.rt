//! A record is put into metadata.

ghost use Rattle.std.specs.Prelude.{◌≡◌, ◌+◌, ◌∷◌, [], IfErr, OnOk, IsErrOf};
ghost use Rattle.fc_base.specs.Count.{HasRisen};
ghost use Rattle.fc_format.specs.Halves.{Image};
ghost use Rattle.fc_format.specs.Ranges.{HasGoodIds};
ghost use Rattle.fc_image.specs.declared.image.MetaImage.{MetaImage as Said};
ghost use Rattle.fc_marks.specs.Meter.{IsCutShort, IsMetered, IsPut, Meter, with_fold, with_record};
ghost use Rattle.fc_meta.specs.Answers.{LeavesEither, found_with, more_calls};
ghost use Rattle.fc_meta.specs.States.{IsResting, disk_of, found, room_of};
ghost use Rattle.fc_metadisk.specs.Disk.{LeavesOnly};

use crate::error::NotedStop;
use fc_image::MetaRecord;
use fc_meta::Meta;
use fc_metadisk::MetaDisk;
use std::alloc::Global;

/// Folds metadata as it stands: its image, with all batches, becomes the image of the other half. Nothing that it says changes.
///
/// Six calls of the disk. MetaFull where the image doesn't fit a half or has no next generation: behind the first two.
fn fold_same<M: MetaDisk>(alloc: Global, meta: &mut Meta<M>) -> Result<(), NotedStop>
    requires rests { IsResting M.seen M.may_leave meta.old }
    requires ids { (image : Said) → found M.seen meta.old ≡ Image image → HasGoodIds image }
    ensures rests { OnOk result (IsResting M.seen M.may_leave meta.new) }
    ensures found { OnOk result (found M.seen meta.new ≡ found M.seen meta.old) }
    ensures metered { OnOk result ((m : Meter) → IsMetered M.seen meta.old m →
        IsMetered M.seen meta.new (with_fold (room_of M.seen meta.old) m.image m)) }
    ensures room { room_of M.seen meta.new ≡ room_of M.seen meta.old }
    ensures any_moment { LeavesOnly M.moment M.left_since (disk_of meta.old) (disk_of meta.new)
        (LeavesEither (found M.seen meta.old) (found M.seen meta.old)) }
    ensures quiet { OnOk result (M.fault_count (disk_of meta.new) ≡ M.fault_count (disk_of meta.old)) }
    ensures failed { IsErrOf result NotedStop.MetaFailed →
        HasRisen (M.fault_count (disk_of meta.old)) (M.fault_count (disk_of meta.new)) }
    ensures unfailed { IsErrOf result NotedStop.MetaFull → M.fault_count (disk_of meta.new) ≡ M.fault_count (disk_of meta.old) }
    ensures not_log { IsErrOf result NotedStop.LogFull → ⊥ }
    ensures counted { OnOk result (M.calls (disk_of meta.new) ≡ more_calls 6 (M.calls (disk_of meta.old))) }
    ensures short { IfErr result (λ stop.
        IsCutShort M.seen M.calls stop meta.old meta.new (λ m. with_fold (room_of M.seen meta.old) m.image m)) }
{
    let image = meta.image(alloc)?;
    meta.fold(alloc, &image)?;
    Ok(())
}

/// How many calls of the disk a record takes: those of a batch, and where the batch doesn't fit behind the others those of a fold before
/// it. Makes none.
pub fn calls_to_put<M: MetaDisk>(meta: &Meta<M>, note: MetaRecord) -> u64
    ensures { (m : Meter) → IsMetered M.seen meta.now m →
        (with_record (room_of M.seen meta.now) note m).calls ≡ m.calls + result }
{
    if meta.fits(&[note]) { 4 } else { 10 }
}

/// Puts a record into metadata, as a batch; where the batch doesn't fit behind the others, metadata is folded as it stands before it.
/// A crash leaves what stood before, or that with the record. It makes as many calls of the disk as the record costs, and behind an error
/// at most so many.
///
/// MetaFull only where the image doesn't fit a half or has no next generation, behind the two calls of a fold that close the gate of the
/// other half; or where it leaves no room in its half for the batch, behind the whole fold. Otherwise MetaFailed where a call failed before
/// that was seen, and NoMemory where memory was wanted.
pub fn put_record<M: MetaDisk>(
    alloc: Global,
    meta: &mut Meta<M>,
    note: MetaRecord,
) -> Result<(), NotedStop>
    requires rests { IsResting M.seen M.may_leave meta.old }
    requires ids { (image : Said) → found M.seen meta.old ≡ Image image → HasGoodIds image }
    ensures rests { OnOk result (IsResting M.seen M.may_leave meta.new) }
    ensures found { OnOk result (found M.seen meta.new ≡ found_with (found M.seen meta.old) (note ∷ [])) }
    ensures any_moment { LeavesOnly M.moment M.left_since (disk_of meta.old) (disk_of meta.new)
        (LeavesEither (found M.seen meta.old) (found_with (found M.seen meta.old) (note ∷ []))) }
    ensures quiet { OnOk result (M.fault_count (disk_of meta.new) ≡ M.fault_count (disk_of meta.old)) }
    ensures failed { IsErrOf result NotedStop.MetaFailed →
        HasRisen (M.fault_count (disk_of meta.old)) (M.fault_count (disk_of meta.new)) }
    ensures unfailed { IsErrOf result NotedStop.MetaFull → M.fault_count (disk_of meta.new) ≡ M.fault_count (disk_of meta.old) }
    ensures not_log { IsErrOf result NotedStop.LogFull → ⊥ }
    ensures room { room_of M.seen meta.new ≡ room_of M.seen meta.old }
    ensures put { OnOk result (IsPut M.seen M.calls note meta.old meta.new) }
    ensures short { IfErr result (λ stop.
        IsCutShort M.seen M.calls stop meta.old meta.new (with_record (room_of M.seen meta.old) note)) }
{
    let records = [note];
    if meta.fits(&records) {
        meta.put(alloc, &records)?;
        return Ok(());
    }
    fold_same(alloc, meta)?;
    meta.put(alloc, &records)?;
    Ok(())
}
