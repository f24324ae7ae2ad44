//! The disks of a lane.

ghost use Rattle.std.specs.Prelude.{◌≡◌, ◌<◌, length, is_err, find, position, option_copied, OnOk, OnErr, Some};
ghost use Rattle.fc_kept.specs.Disks.{is_of, is_free};
ghost use Rattle.fc_recovered.specs.Answering.{HasDiskGrain, ReadsDisk};
ghost use Rattle.fc_recovered.specs.Readying.{is_diskless, given, of_size, readied};

use crate::lane_size::LaneSize;
use crate::named_disk::NamedDisk;
use fc_base::disk::DiskKind;
use fc_base::ids::VolId;
use fc_base::outcome::{Failed, NoMemory};
use fc_base::volume::Volume;
use fc_mdisk::mdisk::Mdisk;
use std::marker::Model;

/// The disks of a lane, in the order in which they came back. Contracts see the list of them.
#[derive(Drop)]
pub struct LaneDisks<D: Mdisk> {
    disks: Vec<NamedDisk<D>>,
}

impl<D: Mdisk> Model for LaneDisks<D> {
    ghost use Rattle.std.specs.Prelude.{List};
    ghost use Rattle.fc_kept.specs.Disks.{NamedDisk};

    ghost Value = { List NamedDisk };

    ghost view = { λ l. l.disks.items };
}

impl<D: Mdisk> LaneDisks<D> {
    /// These disks, in this order.
    pub fn new(disks: Vec<NamedDisk<D>>) -> LaneDisks<D>
        ensures { result ≡ disks.items }
    {
        LaneDisks { disks }
    }

    /// The disks, in order.
    pub fn into_vec(self) -> Vec<NamedDisk<D>>
        ensures { result.items ≡ self }
    {
        self.disks
    }

    /// The place of a volume's disk: the first that is of it.
    fn place_of(&self, volume: VolId) -> Option<usize>
        ensures { result ≡ position (is_of volume.0) self.now }
    {
        self.disks.iter().position(|disk| disk.is_of(volume))
    }

    /// Whether a volume has no disk here.
    fn is_diskless(&self, volume: &Volume) -> bool
        ensures { result ≡ is_diskless self.now volume.now }
    {
        self.place_of(volume.id).is_none()
    }

    /// The first volume that has no disk here.
    fn first_without<'a>(&self, volumes: &'a [Volume]) -> Option<&'a Volume>
        ensures { option_copied result ≡ find (is_diskless self.now) volumes.now }
    {
        volumes.iter().find(|volume| self.is_diskless(volume))
    }

    /// The place of the first disk that is for new volumes of this kind.
    fn place_of_free(&self, kind: DiskKind) -> Option<usize>
        ensures { result ≡ position (is_free kind) self.now }
    {
        self.disks.iter().position(|disk| disk.is_free(kind))
    }

    /// Gives a volume the first disk of its kind that is for new volumes. Without one, or refused, nothing changes.
    fn give(&mut self, lane: &LaneSize, volume: &Volume) -> Result<(), NoMemory>
        requires { lane.now.lane < lane.now.lanes }
        ensures ok { OnOk result (self.new ≡ given (of_size lane.now) self.old (Some volume.now)) }
        ensures err { OnErr result (self.new ≡ self.old) }
    {
        match self.place_of_free(volume.kind) {
            Some(at) => {
                self.disks[at].give(volume.id, lane.grains_of(volume.grains), lane.grain.bytes())
            }
            None => Ok(()),
        }
    }

    /// Gives the first volume without a disk, if there is one, the first disk of its kind that is for new volumes. Refused, the disks
    /// hold what they held.
    pub(crate) fn ready(&mut self, lane: &LaneSize, volumes: &[Volume]) -> Result<(), NoMemory>
        requires { lane.now.lane < lane.now.lanes }
        ensures ok { OnOk result (self.new ≡ readied (of_size lane.now) volumes.now self.old) }
        ensures err { OnErr result (self.new ≡ self.old) }
    {
        match self.first_without(volumes) {
            Some(volume) => self.give(lane, volume),
            None => Ok(()),
        }
    }

    /// Reads a grain of a volume, by its place in this lane: one call of the volume's disk.
    pub(crate) fn read(&mut self, volume: VolId, place: u32, out: &mut [u8]) -> Result<(), Failed>
        requires { HasDiskGrain self.old volume.0 place (length out.old) }
        ensures { ReadsDisk self.old volume.0 place (is_err result) out.new self.new }
    {
        match self.place_of(volume) {
            Some(at) => self.disks[at].read(place, out),
            None => unreachable!(),
        }
    }
}
