//! Several disks, each at its place.

ghost use Rattle.std.specs.Prelude.{◌≡◌, ◌<◌, length, map, is_err, slice_set, OnOk, OnErr};
ghost use Rattle.fc_mdisk.specs.Disk.{DiskState, grain_at, used_of, AfterRead, AfterWrite, cleared, armed};
ghost use Rattle.fc_mdisk.specs.Disks.{disk_at, formatted_at, ChangesOnly};

use crate::mdisk::Mdisk;
use fc_base::disk::{DiskError, DiskKind};
use fc_base::outcome::{Failed, NoMemory};
use std::marker::Model;

/// Disks at fixed places, from 0. Contracts see the list of what each of them stands for, and each call changes at most
/// the disk at its place.
#[derive(Drop)]
pub struct Disks<D: Mdisk> {
    disks: Vec<D>,
}

impl<D: Mdisk> Model for Disks<D> {
    ghost use Rattle.std.specs.Prelude.{List, map};
    ghost use Rattle.fc_mdisk.specs.Disk.{DiskState};

    ghost Value = { List DiskState };

    ghost view = { λ s. map D.meaning s.disks.items };
}

impl<D: Mdisk> Disks<D> {
    /// These disks, in this order.
    pub fn new(disks: Vec<D>) -> Self
        ensures { result ≡ map D.meaning disks.items }
    {
        Disks { disks }
    }

    /// The disks, in order.
    pub fn into_vec(self) -> Vec<D>
        ensures { map D.meaning result.items ≡ self }
    {
        self.disks
    }

    /// How many disks there are.
    pub fn len(&self) -> usize
        ensures { result ≡ length self.now }
    {
        self.disks.len()
    }

    /// The kind of a disk.
    pub fn kind(&self, place: usize) -> DiskKind
        requires { place < length self.now }
        ensures { result ≡ (disk_at self.now place).kind }
    {
        self.disks[place].kind()
    }

    /// The number of a disk's grains.
    pub fn grains(&self, place: usize) -> u32
        requires { place < length self.now }
        ensures { result ≡ length (disk_at self.now place).grains }
    {
        self.disks[place].grains()
    }

    /// The number of a disk's grains that occupy memory.
    pub fn used(&self, place: usize) -> u32
        requires { place < length self.now }
        ensures { result ≡ used_of (disk_at self.now place) }
    {
        self.disks[place].used()
    }

    /// The reads and writes of a disk that failed.
    pub fn faults(&self, place: usize) -> u64
        requires { place < length self.now }
        ensures { result ≡ (disk_at self.now place).faults }
    {
        self.disks[place].faults()
    }

    /// Formats a disk (`Mdisk::format`). Refused, all are as they were.
    pub fn format(&mut self, place: usize, grains: u32, bytes: u32) -> Result<(), NoMemory>
        requires { place < length self.old }
        ensures ok { OnOk result (self.new ≡ formatted_at place grains bytes self.old) }
        ensures err { OnErr result (self.new ≡ self.old) }
    {
        self.disks[place].format(grains, bytes)
    }

    /// Reads a grain of a disk (`Mdisk::read`).
    pub fn read(&mut self, place: usize, grain: u32, out: &mut [u8]) -> Result<(), Failed>
        requires place { place < length self.old }
        requires in_range { grain < length (disk_at self.old place).grains }
        requires whole { length out.old ≡ length (grain_at (disk_at self.old place).grains grain) }
        ensures disk { AfterRead (disk_at self.old place) grain (is_err result) out.new (disk_at self.new place) }
        ensures others { ChangesOnly self.old place self.new }
    {
        self.disks[place].read(grain, out)
    }

    /// Writes a grain of a disk (`Mdisk::write`).
    pub fn write(&mut self, place: usize, grain: u32, bytes: &[u8]) -> Result<(), DiskError>
        requires place { place < length self.old }
        requires in_range { grain < length (disk_at self.old place).grains }
        requires whole { length bytes.now ≡ length (grain_at (disk_at self.old place).grains grain) }
        ensures disk { AfterWrite (disk_at self.old place) grain bytes.now result (disk_at self.new place) }
        ensures others { ChangesOnly self.old place self.new }
    {
        self.disks[place].write(grain, bytes)
    }

    /// Arms a fault of a disk (`Mdisk::arm`).
    pub fn arm(&mut self, place: usize, calls: u32)
        requires { place < length self.old }
        ensures { self.new ≡ slice_set self.old place (armed (disk_at self.old place) calls) }
    {
        self.disks[place].arm(calls);
    }

    /// Clears a disk (`Mdisk::clear`). Takes no memory.
    pub fn clear(&mut self, place: usize)
        requires { place < length self.old }
        ensures { self.new ≡ slice_set self.old place (cleared (disk_at self.old place)) }
    {
        self.disks[place].clear();
    }
}
