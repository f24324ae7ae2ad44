//! The disks for new volumes.

ghost use Rattle.std.specs.Prelude.{◌≡◌, ◌+◌, ◌^◌, ◌<◌, ◌≤◌, ◌∷◌, ◌++◌, [], false, length, drop, map, replicate, vec_len, vec_capacity, List, IfOk, OnOk, OnErr};
ghost use Rattle.std.specs.List.{All, remove};
ghost use Rattle.fc_base.specs.Pools.{of_kind, pool_without};
ghost use Rattle.fc_mdisk.specs.Disk.{cleared};
ghost use Rattle.fc_mdisk.specs.Disks.{disk_at, formatted_at};
ghost use Rattle.fc_grains.specs.Grains.{IsUnarmed, by_kind, free_place, next_of, next_place, pool_of, reserved_of};
ghost use Rattle.fc_grains.specs.Parts.{HasNoWrites, HasZeros, SameDisks, disks_of, left_of, new_of};

use crate::queues::Queues;
use crate::volume_disk::VolumeDisk;
use fc_base::disk::DiskKind;
use fc_base::ids::VolId;
use fc_base::outcome::NoMemory;
use fc_bits::GrainSet;
use fc_mdisk::mdisk::Mdisk;
use std::alloc::Global;
use std::marker::Model;

/// A volume to come: the kind of its disk, and its marks.
#[derive(Drop)]
pub(crate) struct Reserved {
    pub(crate) kind: DiskKind,
    pub(crate) lost: GrainSet,
}

/// The disks that no volume had. The first of each kind are formatted for the volumes to come.
#[derive(Drop)]
pub(crate) struct Pool<D: Mdisk> {
    bytes: u32,
    pub(crate) queues: Queues<D>,
    reserved: Vec<Reserved>,
}

impl<D: Mdisk> Model for Pool<D> {
    ghost use Rattle.fc_grains.specs.Parts.{PoolState, AreReady};

    ghost Value = { PoolState };

    ghost view = { λ p. record { bytes = p.bytes; queues = p.queues; reserved = p.reserved.items } };

    ghost invariant = { λ p. AreReady p.bytes p.queues p.reserved.items };
}

impl<D: Mdisk> Pool<D> {
    /// These disks, for grains of so many bytes. Refused, the disks are gone.
    pub(crate) fn new(alloc: Global, bytes: u32, disks: Vec<D>) -> Result<Pool<D>, NoMemory>
        requires few { vec_len disks < 2 ^ 30 }
        requires unarmed { All IsUnarmed (map D.meaning disks.items) }
        ensures bytes { IfOk result (λ p. p.bytes ≡ bytes) }
        ensures reserved { IfOk result (λ p. p.reserved ≡ []) }
        ensures left { IfOk result (λ p. left_of p ≡ pool_of (map D.meaning disks.items)) }
        ensures disks { IfOk result (λ p. SameDisks (disks_of p) (map D.meaning disks.items)) }
        ensures sorted { IfOk result (λ p. disks_of p ≡ by_kind (map D.meaning disks.items)) }
        ensures number { IfOk result (λ p. length (disks_of p) ≡ vec_len disks) }
    {
        match Queues::new(alloc, disks) {
            Ok(queues) => Ok(Pool {
                bytes,
                queues,
                reserved: Vec::new(alloc),
            }),
            Err(NoMemory) => Err(NoMemory),
        }
    }

    /// How many disks of a kind there are.
    pub(crate) fn left(&self, kind: DiskKind) -> u32
        ensures { result ≡ of_kind kind (left_of self.now) }
    {
        self.queues.len(kind)
    }

    /// How many volumes are to come.
    pub(crate) fn reserved(&self) -> usize
        ensures count { result ≡ length self.now.reserved }
        ensures few { length self.now.reserved ≤ length (disks_of self.now) }
    {
        self.reserved.len()
    }

    /// How many volumes of a kind are to come.
    fn reserved_of(&self, kind: DiskKind) -> usize
        ensures { result ≡ reserved_of kind (map new_of self.now.reserved) }
    {
        self.reserved.iter().filter(|r| r.kind == kind).count()
    }

    /// Makes ready for one more volume. The disks stay, but for their grains. Refused, all is as it was.
    pub(crate) fn reserve(
        &mut self,
        alloc: Global,
        kind: DiskKind,
        grains: u32,
    ) -> Result<(), NoMemory>
        requires { reserved_of kind (map new_of self.old.reserved) < of_kind kind (left_of self.old) }
        ensures ok { OnOk result (map new_of self.new.reserved ≡ map new_of self.old.reserved ++ record { kind = kind; grains = grains } ∷ []) }
        ensures err { OnErr result (self.new ≡ self.old) }
        ensures bytes { self.new.bytes ≡ self.old.bytes }
        ensures left { left_of self.new ≡ left_of self.old }
        ensures disks { SameDisks (disks_of self.new) (disks_of self.old) }
        ensures cleared { map cleared (disks_of self.new) ≡ map cleared (disks_of self.old) }
        ensures formatted { OnOk result (disks_of self.new ≡ formatted_at (free_place kind (map new_of self.old.reserved) (left_of self.old)) grains self.old.bytes (disks_of self.old)) }
    {
        let lost = match GrainSet::new(alloc, grains) {
            Ok(lost) => lost,
            Err(NoMemory) => return Err(NoMemory),
        };
        if self.reserved.reserve(1).is_err() {
            return Err(NoMemory);
        }
        let place = self.reserved_of(kind);
        match self.queues.format(kind, place, grains, self.bytes) {
            Ok(()) => {}
            Err(NoMemory) => return Err(NoMemory),
        }
        if self.reserved.push(Reserved { kind, lost }).is_err() {
            unreachable!()
        }
        Ok(())
    }

    /// Forgets the volumes to come.
    pub(crate) fn release(&mut self)
        ensures { self.new ≡ record self.old { reserved = [] } }
    {
        self.reserved.clear();
    }

    /// Takes the first disk of its kind for the next volume to come, which gets this id.
    pub(crate) fn take_next(&mut self, volume: VolId) -> VolumeDisk<D>
        requires { 0 < length self.old.reserved }
        ensures volume { result.volume ≡ volume }
        ensures kind { result.disk.kind ≡ (next_of (map new_of self.old.reserved)).kind }
        ensures zeros { HasZeros self.old.bytes (next_of (map new_of self.old.reserved)).grains result.disk }
        ensures unwritten { HasNoWrites (next_of (map new_of self.old.reserved)).grains result.disk }
        ensures unmarked { result.lost ≡ replicate (next_of (map new_of self.old.reserved)).grains false }
        ensures unarmed { IsUnarmed result.disk }
        ensures bytes { self.new.bytes ≡ self.old.bytes }
        ensures reserved { self.new.reserved ≡ drop 1 self.old.reserved }
        ensures left { left_of self.new ≡ pool_without (next_of (map new_of self.old.reserved)).kind (left_of self.old) }
        ensures disks { SameDisks (result.disk ∷ disks_of self.new) (disks_of self.old) }
        ensures first { result.disk ≡ disk_at (disks_of self.old) (next_place (map new_of self.old.reserved) (left_of self.old)) }
        ensures taken { disks_of self.new ≡ remove (disks_of self.old) (next_place (map new_of self.old.reserved) (left_of self.old)) }
    {
        let next = self.reserved.remove(0);
        let disk = self.queues.take_first(next.kind);
        VolumeDisk::new(volume, disk, next.lost)
    }

    /// The disks.
    pub(crate) fn into_queues(self) -> Queues<D>
        ensures { result ≡ self.queues }
    {
        self.queues
    }
}
