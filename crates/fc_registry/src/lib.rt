//! The tables of volumes, mappings and groups.
//!
//! A `Registry` is seen as three lists, each in order of id. It promises:
//! - a look-up gives the object that has the id or the name, and None exactly where none of the kind has it, by
//!   one hash look-up;
//! - `check_name` refuses exactly the names that an object of the kind has;
//! - `reserve` changes no table and takes all the memory that `apply` will need; what it keeps for a new object is
//!   seen by no look-up until `apply` puts the object in;
//! - `apply` makes exactly the change `after_change` of `fc_base/specs/Tables.antt`, and takes no memory;
//! - in every registry the ids of a kind rise, and no two objects of a kind have one name.
//!
//! In reading order: this file, `objects` (ids, names and copies of the objects), `indexed` (one table over `indexmap`), `copy`
//! (copies of all tables).
#![tactic(auto)]

ghost use Rattle.std.specs.Prelude.{◌≡◌, ◌<◌, IsNone, IsSome, IfSome, IsOk, is_some, OnOk, OnErr, option_copied, slice_get, length, if◌then◌else◌, MatchOption};
ghost use Rattle.std.specs.Option.{ForSome};
ghost use Rattle.fc_base.specs.Tables.{no_tables, volume_named, mapping_named, group_named, volume_with, mapping_with, group_with, id_with_name, partner_of, after_change, Fits, room_asked, IsOrdered};

mod copy;
mod indexed;
mod objects;

use fc_base::fault::{Kind, Refusal};
use fc_base::ids::{GroupId, MapId, VolId};
use fc_base::name::{Name, Ref};
use fc_base::outcome::NoMemory;
use fc_base::volume::{Change, Group, Mapping, Volume};
use indexed::{Table, id_of};
use objects::first_partner;
use std::alloc::Global;
use std::marker::Model;

/// The tables of volumes, mappings and groups. Contracts see the three lists, each in order of id, and beside
/// them the new object that room is kept for.
pub struct Registry {
    volumes: Table<Volume>,
    mappings: Table<Mapping>,
    groups: Table<Group>,
    kept: Option<Kept>,
}

impl Drop for Registry {
    // Written out, so that a function that drops it has one call for all of it in its proof.
    fn drop(self) {
        let Registry {
            volumes: _,
            mappings: _,
            groups: _,
            kept: _,
        } = self;
    }
}

/// A new object that isn't in its table yet.
#[derive(Drop)]
struct Kept {
    /// The change that adds it.
    change: Change,
    /// Its name, for the index.
    key: Vec<u8>,
}

impl Model for Registry {
    ghost use Rattle.std.specs.Prelude.{option_map};
    ghost use Rattle.fc_registry.specs.Registry.{RegistryState};

    ghost Value = { RegistryState };

    ghost use Rattle.fc_registry.specs.Index.{rows, room};
    ghost use Rattle.fc_registry.specs.Kept.{IsKept};

    ghost view = { λ r. record { tables = record { volumes = rows r.volumes; mappings = rows r.mappings; groups = rows r.groups }; reserved = option_map (λ kept. kept.change) r.kept } };

    ghost invariant = { λ r. IsKept (room r.volumes) (room r.mappings) (room r.groups) r.kept };
}

impl Registry {
    /// Empty tables. Takes no memory.
    pub fn new(alloc: Global) -> Self
        ensures tables { result.tables ≡ no_tables }
        ensures reserved { result.reserved ≡ None }
    {
        Registry {
            volumes: Table::new(alloc),
            mappings: Table::new(alloc),
            groups: Table::new(alloc),
            kept: None,
        }
    }

    /// The volume that the reference names. None exactly where there is none.
    pub fn volume(&self, reference: &Ref) -> Option<&Volume>
        ensures { option_copied result ≡ volume_named self.now.tables reference.now }
    {
        self.volumes.get(reference)
    }

    /// The mapping that the reference names. None exactly where there is none.
    pub fn mapping(&self, reference: &Ref) -> Option<&Mapping>
        ensures { option_copied result ≡ mapping_named self.now.tables reference.now }
    {
        self.mappings.get(reference)
    }

    /// The group that the reference names. None exactly where there is none.
    pub fn group(&self, reference: &Ref) -> Option<&Group>
        ensures { option_copied result ≡ group_named self.now.tables reference.now }
    {
        self.groups.get(reference)
    }

    /// The volume with this id. None exactly where there is none.
    pub fn volume_with(&self, id: VolId) -> Option<&Volume>
        ensures { option_copied result ≡ volume_with self.now.tables id }
    {
        self.volumes.with_id(id.0)
    }

    /// The mapping with this id. None exactly where there is none.
    pub fn mapping_with(&self, id: MapId) -> Option<&Mapping>
        ensures { option_copied result ≡ mapping_with self.now.tables id }
    {
        self.mappings.with_id(id.0)
    }

    /// The group with this id. None exactly where there is none.
    pub fn group_with(&self, id: GroupId) -> Option<&Group>
        ensures { option_copied result ≡ group_with self.now.tables id }
    {
        self.groups.with_id(id.0)
    }

    /// How many volumes there are.
    pub fn volumes(&self) -> usize
        ensures { result ≡ length self.now.tables.volumes }
    {
        self.all_volumes().len()
    }

    /// How many mappings there are.
    pub fn mappings(&self) -> usize
        ensures { result ≡ length self.now.tables.mappings }
    {
        self.all_mappings().len()
    }

    /// How many groups there are.
    pub fn groups(&self) -> usize
        ensures { result ≡ length self.now.tables.groups }
    {
        self.all_groups().len()
    }

    /// The volume at a place, in order of id.
    pub fn volume_at(&self, place: usize) -> &Volume
        requires { place < length self.now.tables.volumes }
        ensures { slice_get self.now.tables.volumes place ≡ Some result.now }
    {
        &self.all_volumes()[place]
    }

    /// The mapping at a place, in order of id.
    pub fn mapping_at(&self, place: usize) -> &Mapping
        requires { place < length self.now.tables.mappings }
        ensures { slice_get self.now.tables.mappings place ≡ Some result.now }
    {
        &self.all_mappings()[place]
    }

    /// The group at a place, in order of id.
    pub fn group_at(&self, place: usize) -> &Group
        requires { place < length self.now.tables.groups }
        ensures { slice_get self.now.tables.groups place ≡ Some result.now }
    {
        &self.all_groups()[place]
    }

    /// All volumes, in order of id.
    pub fn all_volumes(&self) -> &[Volume]
        ensures value { result.now ≡ self.now.tables.volumes }
        ensures ordered { IsOrdered (λ v. v.id.0) (λ v. v.name) self.now.tables.volumes }
    {
        self.volumes.as_slice()
    }

    /// All mappings, in order of id.
    pub fn all_mappings(&self) -> &[Mapping]
        ensures value { result.now ≡ self.now.tables.mappings }
        ensures ordered { IsOrdered (λ m. m.id.0) (λ m. m.name) self.now.tables.mappings }
    {
        self.mappings.as_slice()
    }

    /// All groups, in order of id.
    pub fn all_groups(&self) -> &[Group]
        ensures value { result.now ≡ self.now.tables.groups }
        ensures ordered { IsOrdered (λ g. g.id.0) (λ g. g.name) self.now.tables.groups }
    {
        self.groups.as_slice()
    }

    /// Whether an object of this kind may get the name: NameTaken exactly where one of the kind has it, with its id.
    pub fn check_name(&self, kind: Kind, name: &Name) -> Result<(), Refusal>
        ensures { MatchOption (id_with_name self.now.tables kind name.now) (IsOk result) (λ id. result ≡ Err (Refusal.NameTaken id)) }
    {
        match self.id_with_name(kind, name) {
            Some(id) => Err(Refusal::NameTaken(id)),
            None => Ok(()),
        }
    }

    /// The id of the object of this kind that has the name.
    fn id_with_name(&self, kind: Kind, name: &Name) -> Option<u32>
        ensures { result ≡ id_with_name self.now.tables kind name.now }
    {
        match kind {
            Kind::Vdisk => id_of(self.volumes.with_name(name)),
            Kind::Fcmap => id_of(self.mappings.with_name(name)),
            Kind::Group => id_of(self.groups.with_name(name)),
        }
    }

    /// The partner of a mapping: the mapping with source and target exchanged, of several the one with the least id.
    /// None exactly where there is none.
    pub fn partner(&self, map: MapId) -> Option<MapId>
        ensures { result ≡ partner_of self.now.tables map }
    {
        match self.mapping_with(map) {
            Some(mapping) => first_partner(mapping, self.all_mappings()).map(|partner| partner.id),
            None => None,
        }
    }

    /// Makes room for a change, so that `apply` takes no memory. For a new object it keeps a copy of it, which is in no
    /// table until `apply` puts it there; what was kept before and not applied is let go. A Set or Remove needs no
    /// memory and is never refused. The tables stay as they are in any case.
    pub fn reserve(&mut self, alloc: Global, change: &Change) -> Result<(), NoMemory>
        ensures ok { OnOk result (self.new.reserved ≡ room_asked change.now) }
        ensures err { OnErr result (self.new.reserved ≡ None) }
        ensures granted { IsNone (room_asked change.now) → IsOk result }
        ensures tables { self.new.tables ≡ self.old.tables }
    {
        keep(&mut self.kept, None);
        let kept = match change {
            Change::AddVolume(volume) => {
                let (volume, key) = self.volumes.make_room(alloc, volume)?;
                Kept {
                    change: Change::AddVolume(volume),
                    key,
                }
            }
            Change::AddMapping(mapping) => {
                let (mapping, key) = self.mappings.make_room(alloc, mapping)?;
                Kept {
                    change: Change::AddMapping(mapping),
                    key,
                }
            }
            Change::AddGroup(group) => {
                let (group, key) = self.groups.make_room(alloc, group)?;
                Kept {
                    change: Change::AddGroup(group),
                    key,
                }
            }
            _ => return Ok(()),
        };
        keep(&mut self.kept, Some(kept));
        Ok(())
    }

    /// Makes the change. It has to fit the tables, and a new object has to be the one that was reserved last.
    /// Takes no memory; room that is kept stays until its object is added.
    pub fn apply(&mut self, change: &Change)
        requires fits { Fits self.old.tables change.now }
        requires reserved { ForSome (room_asked change.now) (λ asked. self.old.reserved ≡ Some asked) }
        ensures tables { self.new.tables ≡ after_change self.old.tables change.now }
        ensures reserved { self.new.reserved ≡ (if is_some (room_asked change.now) then None else self.old.reserved) }
    {
        match change {
            Change::AddVolume(_) | Change::AddMapping(_) | Change::AddGroup(_) => self.add_kept(),
            Change::RemoveVolume(id) => self.volumes.remove(id.0),
            Change::RemoveMapping(id) => self.mappings.remove(id.0),
            Change::RemoveGroup(id) => self.groups.remove(id.0),
            Change::SetMapping(mapping) => self.mappings.set(mapping),
        }
    }

    /// Puts the object that is kept into its table.
    fn add_kept(&mut self)
        requires kept { IsSome self.old.reserved }
        requires fits { ForSome self.old.reserved (Fits self.old.tables) }
        ensures tables { IfSome self.old.reserved (λ change. self.new.tables ≡ after_change self.old.tables change) }
        ensures reserved { self.new.reserved ≡ None }
    {
        let Kept { change, key } = self.kept.take().unwrap();
        match change {
            Change::AddVolume(volume) => self.volumes.add(volume, key),
            Change::AddMapping(mapping) => self.mappings.add(mapping, key),
            Change::AddGroup(group) => self.groups.add(group, key),
            _ => unreachable!(),
        }
    }
}

/// What was kept before is let go.
fn keep(place: &mut Option<Kept>, kept: Option<Kept>)
    ensures { place.new ≡ kept }
{
    *place = kept;
}
