//! The grains of a lane: the type, and what it tells.

ghost use Rattle.std.specs.Prelude.{◌≡◌, ◌+◌, ◌^◌, ◌<◌, ◌≤◌, ◌++◌, ℕ, List, true, length, take, drop, replicate};
ghost use Rattle.fc_base.specs.Grain.{grain_bytes};
ghost use Rattle.fc_base.specs.Pools.{of_kind};
ghost use Rattle.fc_base.specs.Room.{used_in};
ghost use Rattle.fc_entry.specs.Picture.{Bytes, is_lost};
ghost use Rattle.fc_grains.specs.Volumes.{is_there, rooms_of, volume_of, stored};

use crate::find::{find_place, place_of};
use crate::pool::Pool;
use crate::sums::Sums;
use crate::volume_disk::VolumeDisk;
use fc_base::disk::DiskKind;
use fc_base::ids::VolId;
use fc_base::size::GrainSize;
use fc_mdisk::mdisk::Mdisk;
use std::alloc::Global;
use std::marker::Model;

/// The physical grains of one lane's volumes, each volume on a disk of its own. A grain is named by its place among
/// the lane's grains of the volume.
///
/// Contracts see what each grain holds, how many disks are left for new volumes, the bytes at hand, and the sums of all
/// disks' counts (`specs/Grains`).
#[derive(Drop)]
pub struct Grains<D: Mdisk> {
    pub(crate) alloc: Global,
    pub(crate) grain: GrainSize,
    pub(crate) volumes: Vec<VolumeDisk<D>>,
    pub(crate) pool: Pool<D>,
    pub(crate) aside: Vec<D>,
    pub(crate) buffer: Vec<u8>,
    pub(crate) sums: Sums,
}

impl<D: Mdisk> Model for Grains<D> {
    ghost use Rattle.std.specs.Prelude.{map, vec_capacity};
    ghost use Rattle.fc_grains.specs.Grains.{GrainsState};
    ghost use Rattle.fc_grains.specs.Kept.{IsKept, state_of};

    ghost Value = { GrainsState };

    ghost view = { λ s. state_of s.grain s.volumes.items s.pool (map D.meaning s.aside.items) s.buffer.items s.sums };

    ghost invariant = { λ s. IsKept s.grain s.volumes.items s.pool (map D.meaning s.aside.items) s.buffer.items s.sums (vec_capacity s.volumes) (vec_capacity s.aside) };
}

impl<D: Mdisk> Grains<D> {
    /// The size of a grain.
    pub fn grain(&self) -> GrainSize
        ensures { result ≡ self.now.grain }
    {
        self.grain
    }

    /// The bytes of a grain: of the one at hand, and of each that isn't lost.
    pub fn bytes(&self) -> u32
        ensures value { result ≡ grain_bytes self.now.grain }
        ensures hand { length self.now.buffer ≡ grain_bytes self.now.grain }
        ensures whole { (volume place : ℕ) (bytes : List ℕ) → stored self.now.volumes volume place ≡ Bytes bytes → length bytes ≡ grain_bytes self.now.grain }
    {
        self.grain.bytes()
    }

    /// The kind of the disk of a volume that is there.
    pub fn kind(&self, volume: VolId) -> DiskKind
        requires { is_there self.now.volumes volume.0 ≡ true }
        ensures { result ≡ (volume_of self.now.volumes volume.0).kind }
    {
        self.volumes[place_of(&self.volumes, volume)].kind()
    }

    /// How many grains of this lane a volume that is there has.
    pub fn grains(&self, volume: VolId) -> u32
        requires { is_there self.now.volumes volume.0 ≡ true }
        ensures { result ≡ length (volume_of self.now.volumes volume.0).contents }
    {
        self.volumes[place_of(&self.volumes, volume)].grains()
    }

    /// How many grains of a volume occupy memory, as its disk counts them: 0 where the volume isn't there.
    pub fn room(&self, volume: VolId) -> u32
        ensures { result ≡ used_in (rooms_of self.now.volumes) volume.0 }
    {
        match find_place(&self.volumes, volume) {
            Some(place) => self.volumes[place].used(),
            None => 0,
        }
    }

    /// Whether a grain of a volume is lost, so that it can't be read.
    pub fn is_lost(&self, volume: VolId, place: u32) -> bool
        requires { place < length (volume_of self.now.volumes volume.0).contents }
        ensures { result ≡ is_lost (stored self.now.volumes volume.0 place) }
    {
        self.volumes[place_of(&self.volumes, volume)].is_lost(place)
    }

    /// Whether a grain of a volume can't be read: it is lost, or isn't there.
    pub fn is_unreadable(&self, volume: VolId, place: u32) -> bool
        ensures { result ≡ is_lost (stored self.now.volumes volume.0 place) }
    {
        match find_place(&self.volumes, volume) {
            Some(at) => self.volumes[at].is_unreadable(place),
            None => true,
        }
    }

    /// How many disks of a kind are left for new volumes.
    pub fn pool(&self, kind: DiskKind) -> u32
        ensures { result ≡ of_kind kind self.now.pool }
    {
        self.pool.left(kind)
    }

    /// The reads and writes of all disks, up to 2^64 - 1.
    pub fn calls(&self) -> u64
        ensures { result ≡ self.now.calls }
    {
        self.sums.calls
    }

    /// The reads and writes of all disks that failed, up to 2^64 - 1.
    pub fn faults(&self) -> u64
        ensures { result ≡ self.now.faults }
    {
        self.sums.faults
    }

    /// The writes of all disks that failed, up to 2^64 - 1.
    pub fn write_faults(&self) -> u64
        ensures { result ≡ self.now.write_faults }
    {
        self.sums.write_faults
    }

    /// The bytes of the grain at hand.
    pub fn buffer(&self) -> &[u8]
        ensures bytes { result.now ≡ self.now.buffer }
        ensures size { length self.now.buffer ≡ grain_bytes self.now.grain }
    {
        &self.buffer
    }

    /// Fills bytes of the grain at hand with one byte: `length` of them, from `from` on.
    pub fn fill(&mut self, from: u32, length: u32, byte: u8)
        requires { from + length ≤ grain_bytes self.old.grain }
        ensures { self.new ≡ record self.old { buffer = take from self.old.buffer ++ replicate length byte ++ drop (from + length) self.old.buffer } }
    {
        let from = from as usize;
        self.buffer[from..from + length as usize].fill(byte);
    }
}
