//! The writer: batches and folds.

ghost use Rattle.std.specs.Prelude.{◌≡◌, ◌≤◌, ◌+◌, length, nat_le, IsErrOf};
ghost use Rattle.fc_format.specs.Bytes.{batch_bytes};
ghost use Rattle.fc_format.specs.Ranges.{HasGoodIds};
ghost use Rattle.fc_meta.specs.declared.series.Call.TheVariants.{Note, Sync, ClearOther, FillOther, Turn};
ghost use Rattle.fc_meta.specs.States.{disk_of, used_of, room_of, IsResting, IsWaiting, IsCleared, IsFilled};
ghost use Rattle.fc_meta.specs.Order.{HasNoRoom};
ghost use Rattle.fc_meta.specs.Promise.{Promise};

use crate::disk::{half_len, start_of, write_synced};
use crate::error::MetaError;
use fc_format::{Half, batch_len, batch_with, half_with};
use fc_image::{MetaImage, MetaRecord};
use fc_metadisk::MetaDisk;
use std::alloc::Global;

/// A writer of metadata over a disk, which it owns. Once a call has answered Failed only `into_disk` is of use: what the disk
/// stands for is recovered.
#[derive(Drop)]
pub struct Meta<M: MetaDisk> {
    pub(crate) disk: M,
    // the half that is read, and its generation
    pub(crate) half: Half,
    pub(crate) generation: u64,
    // whether the gate of the other half is open
    pub(crate) other_is_open: bool,
    // the bytes of the half before its closed gate, now and once what is under way is done
    pub(crate) used: u32,
    pub(crate) next: u32,
}

impl<M: MetaDisk> Meta<M> {
    /// Whether a batch of these records stays inside the half: `note` then isn't Full. Makes no call of the disk.
    pub fn fits(&self, records: &[MetaRecord]) -> bool
        ensures { result ≡ nat_le (used_of self.now + 1 + length (batch_bytes records.now))
            (room_of M.seen self.now) }
    {
        let end = (u64::from(self.used) + 1).saturating_add(batch_len(records));
        end <= u64::from(half_len(&self.disk))
    }

    /// Writes a batch behind the closed gate of the last one: its length, the records, and a closed gate. One write. The batch
    /// waits for `sync`, and until then a crash leaves what it left before.
    ///
    /// Full exactly if the batch passes the half; after Full and NoMemory nothing was written, and the writer is as before.
    pub fn note(&mut self, alloc: Global, records: &[MetaRecord]) -> Result<(), MetaError>
        requires { IsResting M.seen M.may_leave self.old }
        ensures promise { Promise M.seen M.moment M.left_since M.fault_count M.calls M.leads
            M.may_leave (Note records.now) self.old self.new result }
        ensures full { HasNoRoom M.seen (Note records.now) self.old →
            IsErrOf result MetaError.Full }
    {
        if !self.fits(records) {
            return Err(MetaError::Full);
        }
        let bytes = batch_with(alloc, records)?;
        let place = start_of(&self.disk, self.half) + self.used + 1;
        self.disk.write_at(place, &bytes)?;
        self.next = self.used + bytes.len() as u32;
        Ok(())
    }

    /// Syncs the batch that waits, opens its gate, and syncs it: a sync, a write and a sync. Once it has answered Ok each crash
    /// leaves the image with the batch; before, with the whole batch or without it. Its only error is Failed.
    pub fn sync(&mut self) -> Result<(), MetaError>
        requires { IsWaiting M.seen M.may_leave self.old }
        ensures { Promise M.seen M.moment M.left_since M.fault_count M.calls M.leads M.may_leave
            Sync self.old self.new result }
    {
        self.disk.sync()?;
        write_synced(&mut self.disk, self.half, self.used, &[1])?;
        self.used = self.next;
        Ok(())
    }

    /// Begins a fold: closes the gate of the other half, and syncs it. A write and a sync; the write has no bytes if the gate is
    /// closed, since a torn one might open it. A crash leaves what it left before. Its only error is Failed.
    pub fn clear_other(&mut self) -> Result<(), MetaError>
        requires { IsResting M.seen M.may_leave self.old }
        ensures { Promise M.seen M.moment M.left_since M.fault_count M.calls M.leads M.may_leave
            ClearOther self.old self.new result }
    {
        let closed = [0];
        let count = usize::from(self.other_is_open);
        write_synced(&mut self.disk, self.half.other(), 0, &closed[..count])?;
        self.other_is_open = false;
        Ok(())
    }

    /// Goes on with a fold: writes the image behind the closed gate of the other half, with the next generation and a closed gate
    /// behind it, and syncs it. A write and a sync. A crash leaves what it left before.
    ///
    /// Full exactly if the bytes pass the half or the generation is 2^64 - 1, but where memory was wanted before that was seen;
    /// after Full and NoMemory nothing was written, and the writer is as before.
    pub fn fill_other(&mut self, alloc: Global, image: &MetaImage) -> Result<(), MetaError>
        requires cleared { IsCleared M.seen M.may_leave self.old }
        requires ids { HasGoodIds image.now }
        ensures { Promise M.seen M.moment M.left_since M.fault_count M.calls M.leads M.may_leave
            (FillOther image.now) self.old self.new result }
    {
        if self.generation == u64::MAX {
            return Err(MetaError::Full);
        }
        let bytes = half_with(alloc, self.generation + 1, image)?;
        if half_len(&self.disk) as usize <= bytes.len() {
            return Err(MetaError::Full);
        }
        write_synced(&mut self.disk, self.half.other(), 1, &bytes)?;
        self.next = bytes.len() as u32;
        Ok(())
    }

    /// Ends a fold: opens the gate of the half that was filled, and syncs it. A write and a sync. Once it has answered Ok each
    /// crash leaves the new image; before, the new one or the old one with its batches. Its only error is Failed.
    pub fn turn(&mut self) -> Result<(), MetaError>
        requires { IsFilled M.seen M.may_leave self.old }
        ensures { Promise M.seen M.moment M.left_since M.fault_count M.calls M.leads M.may_leave
            Turn self.old self.new result }
    {
        let half = self.half.other();
        write_synced(&mut self.disk, half, 0, &[1])?;
        self.half = half;
        self.generation += 1;
        self.other_is_open = true;
        self.used = self.next;
        Ok(())
    }

    /// The disk. Makes no call of it.
    pub fn into_disk(self) -> M
        ensures { result ≡ disk_of self }
    {
        self.disk
    }
}
