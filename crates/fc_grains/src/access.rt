//! Reads, writes and copies of grains.

ghost use Rattle.std.specs.Prelude.{◌≡◌, ◌<◌, false, length, is_err};
ghost use Rattle.fc_entry.specs.Picture.{Lost, is_lost};
ghost use Rattle.fc_grains.specs.Calls.{HasRead, HasWritten, HasCopied};
ghost use Rattle.fc_grains.specs.Volumes.{volume_of, stored, changed, holding};

use crate::copy_error::CopyError;
use crate::find::place_of;
use crate::grains::Grains;
use fc_base::disk::DiskError;
use fc_base::ids::VolId;
use fc_base::outcome::Failed;
use fc_mdisk::mdisk::Mdisk;

impl<D: Mdisk> Grains<D> {
    /// Reads a grain of a volume, which isn't lost, into the grain at hand: one call of a disk.
    pub fn read(&mut self, volume: VolId, place: u32) -> Result<(), Failed>
        requires there { place < length (volume_of self.old.volumes volume.0).contents }
        requires readable { is_lost (stored self.old.volumes volume.0 place) ≡ false }
        ensures { HasRead self.old volume.0 place (is_err result) self.new }
    {
        let at = place_of(&self.volumes, volume);
        let disk = &mut self.volumes[at];
        let faults = disk.faults();
        let result = disk.read(place, &mut self.buffer);
        let risen = disk.faults() - faults;
        self.sums.add(1, risen, 0);
        result
    }

    /// Writes the grain at hand to a grain of a volume: one call of a disk. Failed, the grain is lost. Only a thin disk
    /// wants memory, and then the grain holds what it held.
    pub fn write(&mut self, volume: VolId, place: u32) -> Result<(), DiskError>
        requires { place < length (volume_of self.old.volumes volume.0).contents }
        ensures { HasWritten self.old volume.0 place result self.new }
    {
        let at = place_of(&self.volumes, volume);
        let disk = &mut self.volumes[at];
        let faults = disk.faults();
        let write_faults = disk.write_faults();
        let result = disk.write(place, &self.buffer);
        let risen = disk.faults() - faults;
        let write_risen = disk.write_faults() - write_faults;
        self.sums.add(1, risen, write_risen);
        result
    }

    /// Copies a grain of a volume, which isn't lost, to the same place of another: a read, and a write where that was
    /// done. The grain at hand becomes the one that was read.
    pub fn copy(&mut self, from: VolId, to: VolId, place: u32) -> Result<(), CopyError>
        requires there { place < length (volume_of self.old.volumes from.0).contents }
        requires readable { is_lost (stored self.old.volumes from.0 place) ≡ false }
        requires target { place < length (volume_of self.old.volumes to.0).contents }
        ensures { HasCopied self.old from.0 to.0 place result self.new }
    {
        match self.read(from, place) {
            Ok(()) => {}
            Err(Failed) => return Err(CopyError::Read),
        }
        match self.write(to, place) {
            Ok(()) => Ok(()),
            Err(error) => Err(CopyError::Write(error)),
        }
    }

    /// Marks a grain of a volume as lost, as a copy of a lost grain is. No disk is called.
    pub fn lose(&mut self, volume: VolId, place: u32)
        requires { place < length (volume_of self.old.volumes volume.0).contents }
        ensures { self.new ≡ record self.old { volumes = changed volume.0 (holding place Lost) self.old.volumes } }
    {
        let at = place_of(&self.volumes, volume);
        self.volumes[at].lose(place);
    }
}
