//! How hosts may reach the volumes of a lane.

ghost use Rattle.std.specs.Prelude.{◌≡◌, ◌+◌, ◌<◌, ◌≤◌, [], ◌∷◌, ◌++◌, OnOk, OnErr, IfSome, IfNone, true, false, length, map, slice_index_or};
ghost use Rattle.std.specs.List.{All};
ghost use Rattle.fc_base.specs.declared.decision.LaneEvent.TheVariants.{Remove, Access as SetAccess};
ghost use Rattle.fc_base.specs.declared.state.Access.TheVariants.{Online};
ghost use Rattle.fc_apply.specs.Accesses.{AreRising, has_row, has_volume};
ghost use Rattle.fc_rules.specs.LaneTold.{LaneVolume, lane_access, volumes_event};

use fc_base::disk::DiskKind;
use fc_base::ids::VolId;
use fc_base::outcome::NoMemory;
use fc_base::state::Access;
use std::alloc::Global;
use std::marker::Model;

/// A volume, the kind of its disks, and how hosts may reach it.
#[derive(Clone, Copy)]
pub(crate) struct AccessRow {
    volume: VolId,
    kind: DiskKind,
    access: Access,
}

/// The volumes of a lane, in order of id, and how hosts may reach them. One that is online and one that isn't cost the
/// same. Contracts see the volumes, and how many more can be added without taking memory.
#[derive(Drop)]
pub struct Accesses {
    rows: Vec<AccessRow>,
}

impl Model for Accesses {
    ghost use Rattle.std.specs.Prelude.{◌-◌, map, length, vec_capacity};
    ghost use Rattle.fc_apply.specs.Accesses.{AccessState, AreRising, volume_of_row};

    ghost Value = { AccessState };

    ghost view = { λ a. record { volumes = map volume_of_row a.rows.items; room = vec_capacity a.rows - length a.rows.items } };

    ghost invariant = { λ a. AreRising a.rows.items };
}

impl Accesses {
    /// No volumes. Takes no memory.
    pub fn new(alloc: Global) -> Accesses
        ensures { result.volumes ≡ [] }
    {
        Accesses {
            rows: Vec::new(alloc),
        }
    }

    /// How hosts may reach the volume. One that isn't there is online.
    pub fn access(&self, volume: VolId) -> Access
        ensures { result ≡ lane_access self.now.volumes volume }
    {
        match place_of(self.rows.as_slice(), volume) {
            Some(place) => self.rows[place].access,
            None => Access::Online,
        }
    }

    /// Whether the volume is there.
    pub(crate) fn is_there(&self, volume: VolId) -> bool
        ensures { result ≡ has_volume volume.0 self.now.volumes }
    {
        match place_of(self.rows.as_slice(), volume) {
            Some(_) => true,
            None => false,
        }
    }

    /// Makes room for so many more volumes. Room that was there stays. Refused, all is as it was.
    pub(crate) fn reserve(&mut self, count: usize) -> Result<(), NoMemory>
        ensures ok { OnOk result (count ≤ self.new.room) }
        ensures volumes { self.new.volumes ≡ self.old.volumes }
        ensures room { self.old.room ≤ self.new.room }
        ensures err { OnErr result (self.new ≡ self.old) }
    {
        match self.rows.reserve(count) {
            Ok(()) => Ok(()),
            Err(_) => Err(NoMemory),
        }
    }

    /// Adds a volume, whose id is above those that are there. It is online. Takes no memory.
    pub(crate) fn add(&mut self, volume: VolId, kind: DiskKind)
        requires room { 0 < self.old.room }
        requires newest { All (λ (v : LaneVolume). v.volume.0 < volume.0) self.old.volumes }
        ensures volumes { self.new.volumes ≡ self.old.volumes ++ record { volume = volume; kind = kind; access = Online } ∷ [] }
        ensures room { self.old.room ≤ self.new.room + 1 }
    {
        let row = AccessRow {
            volume,
            kind,
            access: Access::Online,
        };
        if self.rows.push(row).is_err() {
            unreachable!()
        }
    }

    /// The volume is there no more.
    pub(crate) fn remove(&mut self, volume: VolId)
        ensures volumes { self.new.volumes ≡ volumes_event self.old.volumes (Remove volume) }
        ensures room { self.old.room ≤ self.new.room }
    {
        self.rows.retain(|row| row.volume != volume);
    }

    /// Hosts may reach the volume so from now on.
    pub(crate) fn set(&mut self, volume: VolId, access: Access)
        ensures volumes { self.new.volumes ≡ volumes_event self.old.volumes (SetAccess volume access) }
        ensures room { self.old.room ≤ self.new.room }
    {
        if let Some(place) = place_of(self.rows.as_slice(), volume) {
            self.rows[place].access = access;
        }
    }
}

/// The place of the volume's row, and None exactly where it has none.
fn place_of(rows: &[AccessRow], volume: VolId) -> Option<usize>
    requires { AreRising rows.now }
    ensures within { IfSome result (λ place. place < length rows.now) }
    ensures found { IfSome result (λ place. (d : AccessRow) → (slice_index_or rows.now place d).volume.0 ≡ volume.0) }
    ensures none { IfNone result (has_row volume.0 rows.now ≡ false) }
{
    match rows.binary_search_by_key(&volume.0, |row| row.volume.0) {
        Ok(place) => Some(place),
        Err(_) => None,
    }
}
