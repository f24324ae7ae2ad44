//! A disk with the volume that it was of.

ghost use Rattle.std.specs.Prelude.{◌≡◌, ◌≤◌, ◌==◌, Some, None, length, is_err, OnOk, OnErr};
ghost use Rattle.fc_kept.specs.Disks.{is_of, is_kind, is_free};
ghost use Rattle.fc_mdisk.specs.Disk.{AfterRead, formatted};
ghost use Rattle.fc_recovered.specs.Answering.{HasGrain};

use fc_base::disk::DiskKind;
use fc_base::ids::VolId;
use fc_base::outcome::{Failed, NoMemory};
use fc_mdisk::mdisk::Mdisk;
use std::marker::Model;

/// A disk of a lane, with the volume that it was of. A disk for new volumes has none.
#[derive(Drop)]
pub struct NamedDisk<D: Mdisk> {
    volume: Option<VolId>,
    disk: D,
}

impl<D: Mdisk> Model for NamedDisk<D> {
    ghost use Rattle.fc_kept.specs.Disks.{NamedDisk};

    ghost Value = { NamedDisk };

    ghost view = { λ n. record { volume = n.volume; disk = D.meaning n.disk } };
}

/// Whether the kinds are the same.
fn is_kind(kind: DiskKind, other: DiskKind) -> bool
    ensures { result ≡ is_kind kind other }
{
    match kind {
        DiskKind::Flat => matches!(other, DiskKind::Flat),
        DiskKind::Thin => matches!(other, DiskKind::Thin),
    }
}

impl<D: Mdisk> NamedDisk<D> {
    /// A disk that was of this volume, or of none.
    pub fn new(volume: Option<VolId>, disk: D) -> NamedDisk<D>
        ensures { result ≡ record { volume = volume; disk = D.meaning disk } }
    {
        NamedDisk { volume, disk }
    }

    /// The volume that it is of, if it is of one.
    pub fn volume(&self) -> Option<VolId>
        ensures { result ≡ self.now.volume }
    {
        self.volume
    }

    /// The disk, as it is.
    pub fn into_disk(self) -> D
        ensures { D.meaning result ≡ self.disk }
    {
        self.disk
    }

    /// Whether it is this volume's.
    pub(crate) fn is_of(&self, volume: VolId) -> bool
        ensures { result ≡ is_of volume.0 self.now }
    {
        match self.volume {
            Some(own) => own.0 == volume.0,
            None => false,
        }
    }

    /// Whether it is for new volumes of this kind.
    pub(crate) fn is_free(&self, kind: DiskKind) -> bool
        ensures { result ≡ is_free kind self.now }
    {
        self.volume.is_none() && is_kind(kind, self.disk.kind())
    }

    /// Becomes this volume's, with so many grains of zeros. Refused, it is as it was.
    pub(crate) fn give(&mut self, volume: VolId, grains: u32, bytes: u32) -> Result<(), NoMemory>
        ensures ok { OnOk result (self.new ≡ record { volume = Some volume; disk = formatted self.old.disk grains bytes }) }
        ensures err { OnErr result (self.new ≡ self.old) }
    {
        self.disk.format(grains, bytes)?;
        self.volume = Some(volume);
        Ok(())
    }

    /// Reads a grain (`Mdisk::read`). Its count of calls doesn't fall.
    pub(crate) fn read(&mut self, place: u32, out: &mut [u8]) -> Result<(), Failed>
        requires { HasGrain self.old.disk place (length out.old) }
        ensures disk { AfterRead self.old.disk place (is_err result) out.new self.new.disk }
        ensures calls { self.old.disk.calls ≤ self.new.disk.calls }
        ensures others { self.new ≡ record self.old { disk = self.new.disk } }
    {
        let _calls = self.disk.calls();
        self.disk.read(place, out)
    }
}
