//! All volumes.

ghost use Rattle.std.specs.Prelude.{◌≡◌, [], ◌∷◌, ◌++◌, not, ◌==◌, filter, IfOk, OnOk};
ghost use Rattle.fc_base.specs.Room.{new_reached, reach as reach_in, used_in};
ghost use Rattle.fc_base.specs.Room as told;

use crate::room::Room;
use fc_base::disk::DiskKind;
use fc_base::ids::VolId;
use fc_base::outcome::NoMemory;
use fc_check_lane::push_item;
use std::alloc::Global;
use std::marker::Model;

/// The volumes, each with a mark for each of its grains that occupies memory.
#[derive(Drop)]
pub struct Rooms {
    rooms: Vec<Room>,
}

impl Model for Rooms {
    ghost use Rattle.std.specs.Prelude.{List};
    ghost use Rattle.fc_base.specs.Room as told;

    ghost Value = { List told.Room };

    ghost view = { λ r. r.rooms.items };
}

/// A write reached a grain of a volume.
fn reach_each(rooms: &mut [Room], volume: VolId, grain: usize)
    ensures { rooms.new ≡ reach_in volume.0 grain rooms.old }
{
    for room in rooms.iter_mut() {
        room.reach(volume, grain);
    }
}

impl Rooms {
    /// No volumes. Takes no memory.
    pub fn new(alloc: Global) -> Rooms
        ensures { result ≡ [] }
    {
        Rooms {
            rooms: Vec::new(alloc),
        }
    }

    /// Other rooms of the same volumes, with the same marks. Refused for want of memory alone.
    pub fn copy(&self, alloc: Global) -> Result<Rooms, NoMemory>
        ensures { IfOk result (λ copy. copy ≡ self.now) }
    {
        let mut rooms = Vec::new(alloc);
        for room in self.rooms.as_slice() {
            push_item(&mut rooms, room.copy(alloc)?)?;
        }
        Ok(Rooms { rooms })
    }

    /// A volume comes, with so many grains. Refused for want of memory alone.
    pub(crate) fn make(
        &mut self,
        alloc: Global,
        volume: VolId,
        kind: DiskKind,
        grains: usize,
    ) -> Result<(), NoMemory>
        ensures { OnOk result (self.new ≡ self.old ++ record { volume = volume; reached = new_reached kind grains } ∷ []) }
    {
        let room = Room::new(alloc, volume, kind, grains)?;
        push_item(&mut self.rooms, room)
    }

    /// A volume goes.
    pub(crate) fn remove(&mut self, volume: VolId)
        ensures { self.new ≡ filter (λ (r : told.Room). not (r.volume.0 == volume.0)) self.old }
    {
        self.rooms.retain(|room| !room.is_of(volume));
    }

    /// A write reached a grain of a volume.
    pub(crate) fn reach(&mut self, volume: VolId, grain: usize)
        ensures { self.new ≡ reach_in volume.0 grain self.old }
    {
        reach_each(self.rooms.as_mut_slice(), volume, grain);
    }

    /// How many grains of a volume occupy memory; of one that isn't there none.
    pub fn used(&self, volume: VolId) -> u64
        ensures { result ≡ used_in self.now volume.0 }
    {
        for room in self.rooms.as_slice() {
            if room.is_of(volume) {
                return room.used();
            }
        }
        0
    }
}
