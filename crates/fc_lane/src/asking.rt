//! What a lane tells.

ghost use Rattle.std.specs.Prelude.{◌≡◌, ◌+◌, ◌≤◌, ◌++◌, List, map as map_list, vec_len, vec_capacity};
ghost use Rattle.fc_base.specs.Pools.{of_kind};
ghost use Rattle.fc_base.specs.Room.{used_in};
ghost use Rattle.fc_base.specs.Sheet.{mapping_place};
ghost use Rattle.fc_base.specs.SheetView.{count_true, held_of, needed_of};
ghost use Rattle.fc_chain.specs.Chains.{found};
ghost use Rattle.fc_entry.specs.Picture.{is_lost};
ghost use Rattle.fc_grains.specs.Grains.{AreAllOf, total_of};
ghost use Rattle.fc_grains.specs.Volumes.{rooms_of, stored};

use crate::lane::Lane;
use fc_base::disk::DiskKind;
use fc_base::ids::{MapId, SlotId, VolId};
use fc_chain::Cascade;
use fc_diff::Changes;
use fc_mdisk::mdisk::Mdisk;

impl<D: Mdisk> Lane<D> {
    /// Which lane it is.
    pub fn number(&self) -> u8
        ensures { result ≡ self.now.lane }
    {
        self.lane
    }

    /// How many of the lane's grains the mapping's slot holds, and at how many of them another slot needs it. None of a
    /// mapping without a slot.
    pub fn counts(&self, map: MapId) -> (u32, u32)
        ensures held { result.0 ≡ count_true (held_of self.now.chains.sheet.slots map.0) }
        ensures needed { result.1 ≡ needed_of self.now.chains.sheet.slots map.0 }
    {
        self.body.cascade.counts(map)
    }

    /// The mapping's slot, and None exactly where it has none.
    pub fn slot(&self, map: MapId) -> Option<SlotId>
        ensures { result ≡ found self.now.chains.sheet.slots (mapping_place self.now.chains.sheet.slots map.0) }
    {
        self.body.cascade.slot(map)
    }

    /// The chains of the lane.
    pub fn cascade(&self) -> &Cascade
        ensures { result.now ≡ self.now.chains }
    {
        &self.body.cascade
    }

    /// The incremental mappings that the lane follows.
    pub fn changes(&self) -> &Changes
        ensures { result.now ≡ self.now.changes }
    {
        &self.changes
    }

    /// Whether a grain of the volume, at this place among the lane's, can't be read: it is lost, or isn't there.
    pub fn is_unreadable(&self, volume: VolId, place: u32) -> bool
        ensures { result ≡ is_lost (stored self.now.grains.volumes volume.0 place) }
    {
        self.body.grains.is_unreadable(volume, place)
    }

    /// How many disks of a kind are left for new volumes.
    pub fn pool(&self, kind: DiskKind) -> u32
        ensures { result ≡ of_kind kind self.now.grains.pool }
    {
        self.body.grains.pool(kind)
    }

    /// How many of the volume's grains in the lane occupy memory: of a flat disk all, of a thin one those that a write
    /// reached. None of a volume that isn't there.
    pub fn room(&self, volume: VolId) -> u32
        ensures { result ≡ used_in (rooms_of self.now.grains.volumes) volume.0 }
    {
        self.body.grains.room(volume)
    }

    /// The reads and writes of all disks that failed, up to 2^64 - 1.
    pub fn faults(&self) -> u64
        ensures { result ≡ self.now.grains.faults }
    {
        self.body.grains.faults()
    }

    /// The reads and writes of all disks, up to 2^64 - 1.
    pub fn calls(&self) -> u64
        ensures { result ≡ self.now.grains.calls }
    {
        self.body.grains.calls()
    }

    /// Appends all disks as they are to a list that has room for them.
    pub fn give_disks(self, into: &mut Vec<D>)
        requires { vec_len into.old + total_of self.grains.disks ≤ vec_capacity into.old }
        ensures given { (given : List D) × (into.new.items ≡ into.old.items ++ given) × AreAllOf self.grains (map_list D.meaning given) }
        ensures room { vec_capacity into.old ≤ vec_capacity into.new }
    {
        self.body.grains.give_disks(into);
    }
}
