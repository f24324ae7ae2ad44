//! A volume's disk and its lost grains.

ghost use Rattle.std.specs.Prelude.{◌≡◌, ◌<◌, false, true, length, is_err, slice_index_or, slice_set};
ghost use Rattle.fc_mdisk.specs.Disk.{grain_at, used_of, AfterRead, AfterWrite, armed, cleared};
ghost use Rattle.fc_grains.specs.Parts.{lost_after};

use fc_base::disk::{DiskError, DiskKind};
use fc_base::ids::VolId;
use fc_base::outcome::Failed;
use fc_bits::GrainSet;
use fc_mdisk::mdisk::Mdisk;
use std::marker::Model;

/// The disk of a volume, and which of its grains are lost: those whose last write failed, or that were copied from a
/// lost one.
#[derive(Drop)]
pub(crate) struct VolumeDisk<D: Mdisk> {
    volume: VolId,
    disk: D,
    lost: GrainSet,
}

impl<D: Mdisk> Model for VolumeDisk<D> {
    ghost use Rattle.fc_grains.specs.Parts.{VolumeDiskState};

    ghost Value = { VolumeDiskState };

    ghost view = { λ v. record { volume = v.volume; disk = D.meaning v.disk; lost = v.lost } };
}

impl<D: Mdisk> VolumeDisk<D> {
    /// A volume on this disk, which has a grain for each mark.
    pub(crate) fn new(volume: VolId, disk: D, lost: GrainSet) -> VolumeDisk<D>
        ensures { result ≡ record { volume = volume; disk = D.meaning disk; lost = lost } }
    {
        VolumeDisk { volume, disk, lost }
    }

    /// The volume.
    pub(crate) fn volume(&self) -> VolId
        ensures { result ≡ self.now.volume }
    {
        self.volume
    }

    /// The kind of the disk.
    pub(crate) fn kind(&self) -> DiskKind
        ensures { result ≡ self.now.disk.kind }
    {
        self.disk.kind()
    }

    /// How many grains the volume has.
    pub(crate) fn grains(&self) -> u32
        ensures { result ≡ length self.now.lost }
    {
        self.lost.len()
    }

    /// How many grains occupy memory (`Mdisk::used`).
    pub(crate) fn used(&self) -> u32
        ensures { result ≡ used_of self.now.disk }
    {
        self.disk.used()
    }

    /// Whether the grain is lost.
    pub(crate) fn is_lost(&self, place: u32) -> bool
        requires { place < length self.now.lost }
        ensures { result ≡ slice_index_or self.now.lost place false }
    {
        self.lost.has(place)
    }

    /// Whether the grain is lost, or isn't there.
    pub(crate) fn is_unreadable(&self, place: u32) -> bool
        ensures { result ≡ slice_index_or self.now.lost place true }
    {
        place >= self.lost.len() || self.lost.has(place)
    }

    /// The calls of the disk that failed.
    pub(crate) fn faults(&self) -> u64
        ensures { result ≡ self.now.disk.faults }
    {
        self.disk.faults()
    }

    /// The writes of the disk that failed.
    pub(crate) fn write_faults(&self) -> u64
        ensures { result ≡ self.now.disk.write_faults }
    {
        self.disk.write_faults()
    }

    /// Reads a grain (`Mdisk::read`).
    pub(crate) fn read(&mut self, place: u32, out: &mut [u8]) -> Result<(), Failed>
        requires in_range { place < length self.old.disk.grains }
        requires whole { length out.old ≡ length (grain_at self.old.disk.grains place) }
        ensures disk { AfterRead self.old.disk place (is_err result) out.new self.new.disk }
        ensures others { self.new ≡ record self.old { disk = self.new.disk } }
    {
        self.disk.read(place, out)
    }

    /// Writes a grain (`Mdisk::write`). Done, it isn't lost; failed, it is.
    pub(crate) fn write(&mut self, place: u32, bytes: &[u8]) -> Result<(), DiskError>
        requires in_range { place < length self.old.disk.grains }
        requires marked { place < length self.old.lost }
        requires whole { length bytes.now ≡ length (grain_at self.old.disk.grains place) }
        ensures disk { AfterWrite self.old.disk place bytes.now result self.new.disk }
        ensures others { self.new ≡ record self.old { disk = self.new.disk; lost = lost_after result self.old.lost place } }
    {
        match self.disk.write(place, bytes) {
            Ok(()) => {
                self.lost.clear(place);
                Ok(())
            }
            Err(DiskError::Failed) => {
                self.lost.set(place);
                Err(DiskError::Failed)
            }
            Err(DiskError::NoMemory) => Err(DiskError::NoMemory),
        }
    }

    /// Marks a grain as lost.
    pub(crate) fn lose(&mut self, place: u32)
        requires { place < length self.old.lost }
        ensures { self.new ≡ record self.old { lost = slice_set self.old.lost place true } }
    {
        self.lost.set(place);
    }

    /// Arms a fault of the disk (`Mdisk::arm`).
    pub(crate) fn arm(&mut self, calls: u32)
        ensures { self.new ≡ record self.old { disk = armed self.old.disk calls } }
    {
        self.disk.arm(calls);
    }

    /// The disk, as it is.
    pub(crate) fn into_disk(self) -> D
        ensures { D.meaning result ≡ self.disk }
    {
        self.disk
    }

    /// The disk without grains.
    pub(crate) fn into_cleared_disk(self) -> D
        ensures { D.meaning result ≡ cleared self.disk }
    {
        let mut disk = self.into_disk();
        disk.clear();
        disk
    }
}
