//! Volumes come and go, and disks are given back.

ghost use Rattle.std.specs.Prelude.{◌≡◌, ◌+◌, ◌^◌, ◌<◌, ◌≤◌, ◌∷◌, ◌++◌, [], true, length, map, reverse, vec_len, vec_capacity, List, IfOk, OnOk, OnErr};
ghost use Rattle.std.specs.List.{All};
ghost use Rattle.fc_base.specs.Grain.{grain_bytes};
ghost use Rattle.fc_base.specs.Pools.{of_kind};
ghost use Rattle.fc_mdisk.specs.Disks.{formatted_at};
ghost use Rattle.fc_grains.specs.Calls.{HasMade, HasReadied, HasRemoved};
ghost use Rattle.fc_grains.specs.Grains.{AreAllOf, IsUnarmed, free_place, opened, reserved_of, total_of};
ghost use Rattle.fc_grains.specs.Parts.{VolumeDiskState};
ghost use Rattle.fc_grains.specs.Volumes.{VolumeGrains, armed, changed, is_there};

use crate::find::place_of;
use crate::grains::Grains;
use crate::pool::Pool;
use crate::sums::sums_of;
use crate::volume_disk::VolumeDisk;
use fc_base::disk::DiskKind;
use fc_base::ids::VolId;
use fc_base::outcome::NoMemory;
use fc_base::size::GrainSize;
use fc_mdisk::mdisk::Mdisk;
use std::alloc::Global;

impl<D: Mdisk> Grains<D> {
    /// No volumes, and these disks for new ones. Wants memory for one grain and a place for each disk. Refused, the disks are
    /// gone.
    pub fn new(alloc: Global, grain: GrainSize, disks: Vec<D>) -> Result<Grains<D>, NoMemory>
        requires few { vec_len disks < 2 ^ 30 }
        requires unarmed { All IsUnarmed (map D.meaning disks.items) }
        ensures { IfOk result (λ s. s ≡ opened grain (map D.meaning disks.items)) }
    {
        let bytes = grain.bytes();
        let buffer = match vec![in alloc; 0; bytes as usize] {
            Ok(buffer) => buffer,
            Err(_) => return Err(NoMemory),
        };
        let sums = sums_of(&disks);
        match Pool::new(alloc, bytes, disks) {
            Ok(pool) => Ok(Grains {
                alloc,
                grain,
                volumes: Vec::new(alloc),
                pool,
                aside: Vec::new(alloc),
                buffer,
                sums,
            }),
            Err(NoMemory) => Err(NoMemory),
        }
    }

    /// Makes ready for one more new volume of so many grains, so that `make` takes no memory: the first disk of the
    /// kind that no other new volume gets is formatted, and stays in the pool. Refused, all is as it was.
    pub fn reserve(&mut self, kind: DiskKind, grains: u32) -> Result<(), NoMemory>
        requires { reserved_of kind self.old.reserved < of_kind kind self.old.pool }
        ensures ok { OnOk result (HasReadied self.old (self.old.reserved ++ record { kind = kind; grains = grains } ∷ []) self.new) }
        ensures formatted { OnOk result (self.new.pooled ≡ formatted_at (free_place kind self.old.reserved self.old.pool) grains (grain_bytes self.old.grain) self.old.pooled) }
        ensures err { OnErr result (self.new ≡ self.old) }
    {
        let coming = self.pool.reserved() + 1;
        if self.volumes.reserve(coming).is_err() {
            return Err(NoMemory);
        }
        if self.aside.reserve(self.volumes.len() + coming).is_err() {
            return Err(NoMemory);
        }
        self.pool.reserve(self.alloc, kind, grains)
    }

    /// Forgets the new volumes that `reserve` made ready for and that weren't made.
    pub fn release(&mut self)
        ensures { self.new ≡ record self.old { reserved = [] } }
    {
        self.pool.release();
    }

    /// Makes the next of the new volumes that `reserve` made ready for, in its order, over the first disk of its
    /// kind. It gets this id, which is above those of all volumes, and its grains are zeros. Takes no memory and
    /// calls no disk.
    pub fn make(&mut self, volume: VolId)
        requires reserved { 0 < length self.old.reserved }
        requires newest { All (λ (v : VolumeGrains). v.volume.0 < volume.0) self.old.volumes }
        ensures { HasMade self.old volume.0 self.new }
    {
        let disk = self.pool.take_next(volume);
        if self.volumes.push(disk).is_err() {
            unreachable!()
        }
    }

    /// Removes a volume that is there. Its disk is cleared and put aside. Takes no memory.
    pub fn remove(&mut self, volume: VolId)
        requires { is_there self.old.volumes volume.0 ≡ true }
        ensures { HasRemoved self.old volume.0 self.new }
    {
        let place = place_of(&self.volumes, volume);
        let disk = self.volumes.remove(place).into_cleared_disk();
        if self.aside.push(disk).is_err() {
            unreachable!()
        }
    }

    /// Arms a fault of the disk of a volume that is there (`Mdisk::arm`).
    pub fn arm(&mut self, volume: VolId, calls: u32)
        requires { is_there self.old.volumes volume.0 ≡ true }
        ensures { self.new ≡ record self.old { volumes = changed volume.0 (armed calls) self.old.volumes } }
    {
        let place = place_of(&self.volumes, volume);
        self.volumes[place].arm(calls);
    }

    /// Appends all disks as they are to a list that has room for them: those of the volumes, from the last to the first,
    /// those of the pool, and those put aside.
    pub fn give_disks(self, into: &mut Vec<D>)
        requires { vec_len into.old + total_of self.disks ≤ vec_capacity into.old }
        ensures given { (given : List D) × (into.new.items ≡ into.old.items ++ given) × AreAllOf self (map D.meaning given) }
        ensures room { vec_capacity into.old ≤ vec_capacity into.new }
    {
        let Grains {
            volumes,
            pool,
            mut aside,
            ..
        } = self;
        give_volumes(volumes, into);
        pool.into_queues().give_disks(into);
        if into.append(&mut aside).is_err() {
            unreachable!()
        }
    }
}

/// Appends the disks of volumes, from the last to the first.
fn give_volumes<D: Mdisk>(mut volumes: Vec<VolumeDisk<D>>, into: &mut Vec<D>)
    requires { vec_len into.old + vec_len volumes ≤ vec_capacity into.old }
    ensures given { (given : List D) × (into.new.items ≡ into.old.items ++ given) × (map D.meaning given ≡ reverse (map (λ (v : VolumeDiskState). v.disk) volumes.items)) }
    ensures room { vec_capacity into.old ≤ vec_capacity into.new }
{
    while let Some(volume) = volumes.pop() {
        if into.push(volume.into_disk()).is_err() {
            unreachable!()
        }
    }
}
