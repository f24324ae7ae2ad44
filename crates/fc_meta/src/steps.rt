//! Whole steps: a batch, and a fold.

ghost use Rattle.std.specs.Prelude.{◌≡◌, ◌<◌, ◌≤◌, ◌+◌, ◌↔◌, ◌⊎◌, length, OnOk, OnErr, IsErrOf};
ghost use Rattle.fc_metadisk.specs.Calls.{all_made};
ghost use Rattle.fc_format.specs.Bytes.{batch_bytes, half_bytes};
ghost use Rattle.fc_format.specs.Ranges.{HasGoodIds};
ghost use Rattle.fc_format.specs.Halves.{Image};
ghost use Rattle.fc_meta.specs.declared.series.Call.TheVariants.{Note};
ghost use Rattle.fc_meta.specs.Answers.{IsStopped, found_with, PassesHalf, more_calls};
ghost use Rattle.fc_meta.specs.States.{disk_of, head_of, head_with, head_turned, generation_of, used_of, room_of, found, IsResting};
ghost use Rattle.fc_meta.specs.Order.{HasNoRoom};
ghost use Rattle.fc_meta.specs.DiskCalls.{clear_calls, put_calls, fold_calls};
ghost use Rattle.fc_meta.specs.Promise.{TreatsDisk};

use crate::error::MetaError;
use crate::meta::Meta;
use fc_image::{MetaImage, MetaRecord};
use fc_metadisk::MetaDisk;
use std::alloc::Global;

impl<M: MetaDisk> Meta<M> {
    /// A whole batch: `note` and `sync`. A crash leaves what stood before, or that with all of these records.
    ///
    /// Full exactly if the batch passes the half; after Full and NoMemory nothing was written, and the writer is as before.
    pub fn put(&mut self, alloc: Global, records: &[MetaRecord]) -> Result<(), MetaError>
        requires { IsResting M.seen M.may_leave self.old }
        ensures rests { OnOk result (IsResting M.seen M.may_leave self.new) }
        ensures found { OnOk result
            (found M.seen self.new ≡ found_with (found M.seen self.old) records.now) }
        ensures head { OnOk result
            (head_of self.new ≡ head_with (length (batch_bytes records.now)) (head_of self.old)) }
        ensures full { IsErrOf result MetaError.Full ↔
            HasNoRoom M.seen (Note records.now) self.old }
        ensures refused { OnErr result (IsErrOf result MetaError.Failed ⊎ (self.new ≡ self.old)) }
        ensures treats { TreatsDisk M.seen M.moment M.left_since M.fault_count M.calls M.leads
            (found_with (found M.seen self.old) records.now)
            (put_calls M.seen self.old records.now) self.old self.new result }
    {
        self.note(alloc, records)?;
        self.sync()
    }

    /// A whole fold: `clear_other`, `fill_other` and `turn`. A crash leaves what stood before, or the image.
    ///
    /// Full exactly if the bytes pass the half or the generation is 2^64 - 1, but where memory was wanted before that was seen;
    /// after Full and NoMemory what stood stands, and the writer is at rest.
    pub fn fold(&mut self, alloc: Global, image: &MetaImage) -> Result<(), MetaError>
        requires rests { IsResting M.seen M.may_leave self.old }
        requires ids { HasGoodIds image.now }
        ensures rests { OnOk result (IsResting M.seen M.may_leave self.new) }
        ensures found { OnOk result (found M.seen self.new ≡ Image image.now) }
        ensures head { OnOk result
            (head_of self.new ≡ head_turned
            (length (half_bytes (generation_of self.old + 1) image.now)) (head_of self.old)) }
        ensures full { IsErrOf result MetaError.Full →
            PassesHalf (generation_of self.old) image.now (room_of M.seen self.old) }
        ensures stays { OnErr result (IsErrOf result MetaError.Failed ⊎
            (IsResting M.seen M.may_leave self.new × (found M.seen self.new ≡ found M.seen self.old) ×
            (generation_of self.new ≡ generation_of self.old) ×
            (used_of self.new ≡ used_of self.old) ×
            (M.fault_count (disk_of self.new) ≡ M.fault_count (disk_of self.old)) ×
            (M.calls (disk_of self.new) ≡ more_calls 2 (M.calls (disk_of self.old))))) }
        ensures room { OnOk result
            (PassesHalf (generation_of self.old) image.now (room_of M.seen self.old) → ⊥) }
        ensures short { IsErrOf result MetaError.Failed →
            PassesHalf (generation_of self.old) image.now (room_of M.seen self.old) →
            IsStopped 2 (M.calls (disk_of self.old)) (M.calls (disk_of self.new)) }
        ensures treats { TreatsDisk M.seen M.moment M.left_since M.fault_count M.calls M.leads
            (Image image.now) (fold_calls M.seen self.old image.now) self.old self.new result }
        ensures begun { OnErr result (IsErrOf result MetaError.Failed ⊎
            M.leads (disk_of self.old) (all_made (clear_calls M.seen self.old))
            (disk_of self.new)) }
    {
        self.clear_other()?;
        self.fill_other(alloc, image)?;
        self.turn()
    }
}
