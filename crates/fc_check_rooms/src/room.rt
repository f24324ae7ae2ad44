//! One volume, and which of its grains occupy memory.

ghost use Rattle.std.specs.Prelude.{◌≡◌, ◌==◌, cond, slice_set, true, IfOk};
ghost use Rattle.std.specs.List.{count_by};
ghost use Rattle.fc_base.specs.Room.{new_reached, reaching};

use fc_base::disk::DiskKind;
use fc_base::ids::VolId;
use fc_base::outcome::NoMemory;
use fc_check_lane::copy_items;
use std::alloc::Global;
use std::marker::Model;

/// A volume, and a mark for each of its grains that occupies memory.
#[derive(Drop)]
pub(crate) struct Room {
    volume: VolId,
    reached: Vec<bool>,
}

impl Model for Room {
    ghost use Rattle.fc_base.specs.Room as told;

    ghost Value = { told.Room };

    ghost view = { λ r. record { volume = r.volume; reached = r.reached.items } };
}

/// A grain is marked; past the last one there is none.
fn mark(marks: &mut [bool], grain: usize)
    ensures { marks.new ≡ slice_set marks.old grain true }
{
    if grain < marks.len() {
        marks[grain] = true;
    }
}

/// How many grains are marked.
fn count(marks: &[bool]) -> u64
    ensures { result ≡ count_by (λ b. b) marks.now }
{
    let mut count = 0;
    for mark in marks {
        if *mark {
            count += 1;
        }
    }
    count
}

impl Room {
    /// A new volume of so many grains: on a flat disk each occupies memory, on a thin one none.
    pub(crate) fn new(
        alloc: Global,
        volume: VolId,
        kind: DiskKind,
        grains: usize,
    ) -> Result<Room, NoMemory>
        ensures { IfOk result (λ room. room ≡ record { volume = volume; reached = new_reached kind grains }) }
    {
        let is_flat = match kind {
            DiskKind::Flat => true,
            DiskKind::Thin => false,
        };
        match vec![in alloc; is_flat; grains] {
            Ok(reached) => Ok(Room { volume, reached }),
            Err(_) => Err(NoMemory),
        }
    }

    /// The same room again.
    pub(crate) fn copy(&self, alloc: Global) -> Result<Room, NoMemory>
        ensures { IfOk result (λ copy. copy ≡ self.now) }
    {
        let reached = copy_items(alloc, self.reached.as_slice())?;
        Ok(Room {
            volume: self.volume,
            reached,
        })
    }

    /// Whether it is the volume's.
    pub(crate) fn is_of(&self, volume: VolId) -> bool
        ensures { result ≡ (self.now.volume.0 == volume.0) }
    {
        self.volume.0 == volume.0
    }

    /// A write reached a grain of a volume, maybe of this one; past the last grain there is none.
    pub(crate) fn reach(&mut self, volume: VolId, grain: usize)
        ensures { self.new ≡ cond (self.old.volume.0 == volume.0) (reaching grain self.old) self.old }
    {
        if self.is_of(volume) {
            mark(self.reached.as_mut_slice(), grain);
        }
    }

    /// How many grains occupy memory.
    pub(crate) fn used(&self) -> u64
        ensures { result ≡ count_by (λ b. b) self.now.reached }
    {
        count(self.reached.as_slice())
    }
}
